//! The sections of programs, and the values in them that change from pass to pass.

ghost use Rattle.std.specs.Prelude.{◌<◌, ◌^◌};

use crate::list_places::{
    places_of_addresses, places_of_locations, places_of_pairs, places_of_ranges, places_of_sets,
    places_of_tables,
};
use crate::lists::Lists;
use crate::places::{
    Copies, Place, Word, byte_at, push, push_any, push_expression, push_number, push_signed,
};
use crate::seen::Seen;
use gimli_base::{
    Abbreviations, AttributeSpecification, DW_FORM_strx, DebugAbbrev, DebugAddr, EndianSlice,
    LittleEndian, Reader, Result,
};
use gimli_headers::DebugInfo;
use gimli_lists::{DebugLoc, DebugLocLists, DebugRanges, DebugRngLists, LocationLists, RangeLists};
use gimli_units::{AttributeValue, EntriesRaw, UnitHeader};
use std::alloc::{AllocError, Global};
use std::{fs, io};

/// Numbers without an order, which a seed makes.
#[derive(Clone, Copy, Debug)]
pub(crate) struct Random {
    state: u64,
}

impl Random {
    /// The numbers of a seed.
    pub(crate) fn new(seed: u64) -> Self {
        Random {
            state: seed.wrapping_mul(0x9e37_79b9_7f4a_7c15).wrapping_add(1),
        }
    }

    /// The next number of 32 bits.
    #[inline]
    pub(crate) fn next(&mut self) -> u64
        ensures { result < 2 ^ 32 }
    {
        let state = self.state;
        self.state = state
            .wrapping_mul(6364136223846793005)
            .wrapping_add(1442695040888963407);
        self.state / 0x1_0000_0000
    }

    /// The next number below another, or 0 where that is 0.
    pub(crate) fn below(&mut self, count: u64) -> u64
        ensures { result < 2 ^ 32 }
    {
        if count == 0 { 0 } else { self.next() % count }
    }
}

/// What a job asks for.
#[derive(Clone, Copy, Debug)]
pub(crate) struct Needs {
    /// Entries by their tags, which stay then, and sets of ranges.
    pub(crate) tags: bool,
    /// Lists of ranges.
    pub(crate) ranges: bool,
    /// Lists of locations.
    pub(crate) locations: bool,
}

/// The sections of a program, several copies of it one after the other, each with a table and with
/// lists of its own.
#[derive(Drop)]
pub(crate) struct Input {
    pub(crate) info: Copies,
    pub(crate) abbrev: Copies,
    pub(crate) aranges: Copies,
    ranges: Copies,
    rnglists: Copies,
    loc: Copies,
    loclists: Copies,
    addr: Copies,
}

type Slice<'a> = EndianSlice<'a, LittleEndian>;

// The sizes of the sections that others lead to.
#[derive(Clone, Copy)]
struct Sizes {
    abbrev: usize,
    ranges: usize,
    rnglists: usize,
    loc: usize,
    loclists: usize,
    addr: usize,
}

// What is found in `.debug_info`: places, words that lead to other sections, and where lists of
// locations of version 4 begin.
#[derive(Drop)]
struct Found {
    places: Vec<Place>,
    words: Vec<Word>,
    starts: Vec<usize>,
}

// So many places of an entry are written anew, and those of its addresses.
const MOST: usize = 2;

fn is_address(value: &AttributeValue<Slice<'_>>) -> bool {
    match value {
        AttributeValue::Addr(_) => true,
        _ => false,
    }
}

// Adds the place in a value that lies between two places, if it has one: in a number, a text, a block
// or an expression on which no list, no reference and no structure of the unit hangs.
fn push_value(
    places: &mut Vec<Place>,
    bytes: &[u8],
    begin: usize,
    end: usize,
    specification: AttributeSpecification,
    value: &AttributeValue<Slice<'_>>,
) -> std::result::Result<(), AllocError> {
    match value {
        AttributeValue::Data1(_)
        | AttributeValue::Data2(_)
        | AttributeValue::Data4(_)
        | AttributeValue::Data8(_)
        | AttributeValue::Data16(_)
        | AttributeValue::Addr(_)
        | AttributeValue::DebugStrRef(_)
        | AttributeValue::DebugLineStrRef(_) => push_any(places, begin),
        AttributeValue::DebugStrOffsetsIndex(_) if specification.form() != DW_FORM_strx => {
            push_any(places, begin)
        }
        AttributeValue::Udata(_) => push_number(places, begin, byte_at(bytes, begin), 0),
        AttributeValue::Sdata(_) => push_signed(places, begin, byte_at(bytes, begin)),
        AttributeValue::String(text) if text.len() > 0 => push(places, begin, b'a', 25),
        AttributeValue::Block(block) if block.len() > 0 => {
            push_any(places, end.wrapping_sub(block.len()))
        }
        AttributeValue::Exprloc(expression) => {
            let length = expression.0.len();
            push_expression(places, bytes, end.wrapping_sub(length), length)?;
            Ok(())
        }
        _ => Ok(()),
    }
}

// Adds the word of a value that leads to another section.
fn push_word(
    found: &mut Found,
    sizes: Sizes,
    is_old: bool,
    at: usize,
    value: &AttributeValue<Slice<'_>>,
) -> std::result::Result<(), AllocError> {
    let size = match value {
        AttributeValue::RangeListsRef(_) => { if is_old { sizes.ranges } else { sizes.rnglists } }
        AttributeValue::LocationListsRef(offset) => {
            if is_old {
                found.starts.push(offset.0)?;
                sizes.loc
            } else {
                sizes.loclists
            }
        }
        AttributeValue::DebugRngListsBase(_) => sizes.rnglists,
        AttributeValue::DebugLocListsBase(_) => sizes.loclists,
        AttributeValue::DebugAddrBase(_) => sizes.addr,
        _ => return Ok(()),
    };
    found.words.push(Word { at, size })?;
    Ok(())
}

// Adds what is found in the entry that is next.
fn find_in_entry(
    entries: &mut EntriesRaw<'_, Slice<'_>, Global>,
    info: &[u8],
    unit: &UnitHeader<Slice<'_>>,
    sizes: Sizes,
    found: &mut Found,
) -> Result<()> {
    let Some(declared) = entries.read_abbreviation()? else {
        return Ok(());
    };
    let start = unit.offset().0;
    let most = found.places.len().wrapping_add(MOST);
    for specification in declared.attributes() {
        let begin = start.wrapping_add(entries.next_offset().0);
        let attribute = entries.read_attribute(*specification)?;
        let end = start.wrapping_add(entries.next_offset().0);
        if begin == end {
            continue;
        }
        let value = attribute.raw_value();
        if found.places.len() < most || is_address(&value) {
            push_value(&mut found.places, info, begin, end, *specification, &value)?;
        }
        push_word(found, sizes, unit.version() < 5, begin, &attribute.value())?;
    }
    Ok(())
}

// Adds what is found in the entries of a unit.
fn find_in_unit(
    info: &[u8],
    unit: &UnitHeader<Slice<'_>>,
    table: &Abbreviations<Global>,
    sizes: Sizes,
    found: &mut Found,
) -> Result<()> {
    let mut entries = unit.entries_raw(table, None)?;
    for _ in 0..u64::MAX {
        if entries.is_empty() {
            break;
        }
        find_in_entry(&mut entries, info, unit, sizes, found)?;
    }
    Ok(())
}

// What is found in all units, and the words in their headers that name a table.
fn find(alloc: Global, info: &[u8], abbrev: &[u8], sizes: Sizes) -> Result<Found> {
    let mut found = Found {
        places: Vec::new(alloc),
        words: Vec::new(alloc),
        starts: Vec::new(alloc),
    };
    let debug_info = DebugInfo::new(info, LittleEndian);
    let debug_abbrev = DebugAbbrev::new(abbrev, LittleEndian);
    let mut units = debug_info.units();
    for _ in 0..u64::MAX {
        let Some(unit) = units.next()? else {
            break;
        };
        let word = if unit.version() < 5 { 6 } else { 8 };
        found.words.push(Word {
            at: unit.offset().0.wrapping_add(word),
            size: sizes.abbrev,
        })?;
        let table = unit.abbreviations(alloc, &debug_abbrev)?;
        find_in_unit(info, &unit, &table, sizes, &mut found)?;
    }
    Ok(found)
}

// The bytes of the sections of a program; those that are not needed have none.
#[derive(Drop)]
struct Sections {
    info: Vec<u8>,
    abbrev: Vec<u8>,
    aranges: Vec<u8>,
    ranges: Vec<u8>,
    rnglists: Vec<u8>,
    loc: Vec<u8>,
    loclists: Vec<u8>,
    addr: Vec<u8>,
}

// The bytes of a section, or none where there is no such file or it is not needed.
fn section(rt: &HostRuntime, name: &str, kind: &str, is_needed: bool) -> io::Result<Vec<u8>> {
    if !is_needed {
        return Ok(Vec::new(rt.alloc()));
    }
    let file = format!(in rt.alloc(); "{name}.{kind}")?;
    match fs::read(rt, &file) {
        Ok(bytes) => Ok(bytes),
        Err(_) => Ok(Vec::new(rt.alloc())),
    }
}

impl Sections {
    fn load(rt: &HostRuntime, name: &str, needs: Needs) -> io::Result<Sections> {
        Ok(Sections {
            info: section(rt, name, "info", true)?,
            abbrev: section(rt, name, "abbrev", true)?,
            aranges: section(rt, name, "aranges", needs.tags)?,
            ranges: section(rt, name, "ranges", needs.ranges)?,
            rnglists: section(rt, name, "rnglists", needs.ranges)?,
            loc: section(rt, name, "loc", needs.locations)?,
            loclists: section(rt, name, "loclists", needs.locations)?,
            addr: section(rt, name, "addr", needs.ranges || needs.locations)?,
        })
    }

    // Copies of the sections, and the places in them.
    fn copied(&self, alloc: Global, copies: u64, needs: Needs) -> Result<Input> {
        let sizes = Sizes {
            abbrev: self.abbrev.len(),
            ranges: self.ranges.len(),
            rnglists: self.rnglists.len(),
            loc: self.loc.len(),
            loclists: self.loclists.len(),
            addr: self.addr.len(),
        };
        let Found {
            places,
            words,
            starts,
        } = find(alloc, &self.info, &self.abbrev, sizes)?;
        let mut in_abbrev = Vec::new(alloc);
        places_of_tables(&self.abbrev, needs.tags, &mut in_abbrev)?;
        let mut in_ranges = Vec::new(alloc);
        places_of_ranges(&self.ranges, &mut in_ranges)?;
        let mut in_rnglists = Vec::new(alloc);
        places_of_sets(&self.rnglists, false, &mut in_rnglists)?;
        let in_loc = self.places_of_loc(alloc, &starts)?;
        let mut in_loclists = Vec::new(alloc);
        places_of_sets(&self.loclists, true, &mut in_loclists)?;
        // (a section of ranges has one set here, which leads to the first unit)
        let set = [Word {
            at: 6,
            size: self.info.len(),
        }];
        let mut in_aranges = Vec::new(alloc);
        places_of_pairs(&self.aranges, &mut in_aranges)?;
        let mut in_addr = Vec::new(alloc);
        places_of_addresses(&self.addr, &mut in_addr)?;
        Ok(Input {
            info: Copies::made(alloc, &self.info, copies, &words, places)?,
            abbrev: Copies::made(alloc, &self.abbrev, copies, &[], in_abbrev)?,
            aranges: Copies::made(alloc, &self.aranges, copies, &set, in_aranges)?,
            ranges: Copies::made(alloc, &self.ranges, copies, &[], in_ranges)?,
            rnglists: Copies::made(alloc, &self.rnglists, copies, &[], in_rnglists)?,
            loc: Copies::made(alloc, &self.loc, copies, &[], in_loc)?,
            loclists: Copies::made(alloc, &self.loclists, copies, &[], in_loclists)?,
            addr: Copies::made(alloc, &self.addr, copies, &[], in_addr)?,
        })
    }

    // The places in the lists of `.debug_loc`; a list may be named more than once.
    fn places_of_loc(&self, alloc: Global, starts: &[usize]) -> Result<Vec<Place>> {
        let mut places = Vec::new(alloc);
        let mut seen = Seen::new(alloc);
        for start in starts {
            if !self.loc.is_empty() && seen.is_new(*start as u64) {
                places_of_locations(&self.loc, *start, &mut places)?;
            }
        }
        Ok(places)
    }
}

impl Input {
    /// The sections of a program that a job needs, with so many copies.
    pub(crate) fn load(
        rt: &HostRuntime,
        name: &str,
        copies: u64,
        needs: Needs,
    ) -> io::Result<Input> {
        match Sections::load(rt, name, needs)?.copied(rt.alloc(), copies, needs) {
            Ok(input) => Ok(input),
            Err(_) => Err(io::Error::from(io::ErrorKind::InvalidData)),
        }
    }

    /// Writes other values into the sections.
    pub(crate) fn vary(&mut self, random: &mut Random) {
        self.info.vary(random);
        self.abbrev.vary(random);
        self.aranges.vary(random);
        self.ranges.vary(random);
        self.rnglists.vary(random);
        self.loc.vary(random);
        self.loclists.vary(random);
        self.addr.vary(random);
    }

    /// The lists of the program.
    pub(crate) fn lists(&self) -> Lists<Slice<'_>> {
        Lists {
            ranges: RangeLists::new(
                DebugRanges::new(&self.ranges.bytes, LittleEndian),
                DebugRngLists::new(&self.rnglists.bytes, LittleEndian),
            ),
            locations: LocationLists::new(
                DebugLoc::new(&self.loc.bytes, LittleEndian),
                DebugLocLists::new(&self.loclists.bytes, LittleEndian),
            ),
            addresses: DebugAddr::from(EndianSlice::new(&self.addr.bytes, LittleEndian)),
        }
    }
}
