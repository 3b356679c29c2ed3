//! Sections that no compiler here writes: big endian in the 64-bit format, codes that fall and are
//! not 1, 2, 3, names in place, LEB128 numbers with padding, declarations of many attributes, deep
//! nesting, and many small type units. They are read in an order that is known at run time, and by
//! `WholeSlice`.

use crate::fold::mixed;
use crate::input::Random;
use crate::lists::Lists;
use crate::places::{Place, byte_at, push, push_any, push_name, push_number, push_tag, vary_bytes};
use crate::{check, read};
use gimli_base::{BigEndian, DebugAddr, EndianSlice, Reader, RunTimeEndian, WholeSlice};
use gimli_lists::{DebugLoc, DebugLocLists, DebugRanges, DebugRngLists, LocationLists, RangeLists};
use std::alloc::{AllocError, Global};

// The codes of the large table, and the entries of its unit, for each copy.
const CODES: u64 = 2000;

const ENTRIES: u64 = 12000;

// So many entries of the large unit stand in one another.
const NESTED: u64 = 300;

// The type units, their codes and their entries.
const TYPES: u64 = 100;

const TYPE_CODES: u64 = 12;

const TYPE_ENTRIES: u64 = 20;

// The attributes of the broadest declaration, each without a byte.
const BROAD: u64 = 1000;

// One in so many of these has another name in each pass.
const STEP: u64 = 16;

// One in so many of the twenty numbers of an entry is another in each pass.
const WIDE_STEP: u64 = 5;

type Done = Result<(), AllocError>;

// What the entries of a declaration have.
#[derive(Clone, Copy, Debug, PartialEq, Eq)]
enum Kind {
    // a name in place, a padded line, and a flag
    Named,
    // twenty numbers
    Wide,
    // a name in place and a sibling, and children
    Scope,
    // an expression, a signed number, and a type
    Located,
    // a number of 16 bytes, a block, the index of a text, and a form that the entry tells
    Odd,
    // flags without a byte
    Broad,
}

impl Kind {
    // The kind of one of so many declarations.
    fn of(index: u64, count: u64) -> Kind {
        if index.wrapping_add(1) == count {
            return Kind::Broad;
        }
        match index % 5 {
            0 => Kind::Scope,
            1 => Kind::Named,
            2 => Kind::Wide,
            3 => Kind::Located,
            _ => Kind::Odd,
        }
    }
}

// Bytes that are written one after the other, numbers in big endian.
#[derive(Drop)]
struct Bytes {
    bytes: Vec<u8>,
    // the places of bytes that are written anew
    places: Vec<Place>,
}

impl Bytes {
    fn new(alloc: Global) -> Self {
        Bytes {
            bytes: Vec::new(alloc),
            places: Vec::new(alloc),
        }
    }

    fn byte(&mut self, byte: u8) -> Done {
        self.bytes.push(byte)?;
        Ok(())
    }

    // A byte that may be any.
    fn free(&mut self, byte: u8) -> Done {
        push_any(&mut self.places, self.bytes.len())?;
        self.byte(byte)
    }

    fn word(&mut self, number: u64) -> Done {
        self.bytes.extend_from_slice(&number.to_be_bytes())
    }

    fn half(&mut self, number: u16) -> Done {
        self.bytes.extend_from_slice(&number.to_be_bytes())
    }

    // A LEB128 number, with so many bytes more than it needs.
    fn number(&mut self, number: u64, padding: u64) -> Done {
        let mut rest = number;
        for _ in 0..10u64 {
            if rest < 128 {
                break;
            }
            self.byte((rest % 128) as u8 + 128)?;
            rest /= 128;
        }
        let last = (rest % 128) as u8;
        if padding == 0 {
            return self.byte(last);
        }
        self.byte(last + 128)?;
        for _ in 1..padding {
            self.byte(128)?;
        }
        self.byte(0)
    }

    // A LEB128 number with so many bytes more than it needs, whose first byte may be another.
    fn free_number(&mut self, number: u64, padding: u64) -> Done {
        let at = self.bytes.len();
        self.number(number, padding)?;
        push_number(&mut self.places, at, byte_at(&self.bytes, at), 0)
    }

    // A text in place, whose first letter may be another.
    fn text(&mut self, random: &mut Random) -> Done {
        push(&mut self.places, self.bytes.len(), b'a', 25)?;
        let length = 4 + random.below(24);
        for _ in 0..length {
            self.byte(b'a' + (random.below(26) % 26) as u8)?;
        }
        self.byte(0)
    }

    // Writes a word at a place.
    fn set_word(&mut self, place: usize, number: u64) {
        let mut at = place;
        for byte in number.to_be_bytes() {
            if at < self.bytes.len() {
                self.bytes[at] = byte;
            }
            at = at.wrapping_add(1);
        }
    }
}

// Writes the name, which may be another if nothing hangs on it, and the form of an attribute.
fn declare(out: &mut Bytes, name: u64, form: u64) -> Done {
    push_name(&mut out.places, out.bytes.len(), name)?;
    declare_firmly(out, name, form)
}

// Writes the name, which stays, and the form of an attribute.
fn declare_firmly(out: &mut Bytes, name: u64, form: u64) -> Done {
    out.number(name, 0)?;
    out.number(form, 0)
}

// Writes the declaration of a kind.
fn declare_kind(out: &mut Bytes, code: u64, kind: Kind) -> Done {
    out.number(code, 0)?;
    let (tag, children) = match kind {
        Kind::Scope => (0x39, 1),
        _ => (0x34, 0),
    };
    push_tag(&mut out.places, out.bytes.len(), tag, false)?;
    out.number(tag, 0)?;
    out.byte(children)?;
    match kind {
        Kind::Named => {
            declare(out, 0x03, 0x08)?;
            declare(out, 0x3b, 0x0f)?;
            declare(out, 0x3f, 0x19)?;
        }
        Kind::Wide => {
            for number in 0..20u64 {
                declare(out, 0x2200 + number, 0x05)?;
            }
        }
        Kind::Scope => {
            declare(out, 0x03, 0x08)?;
            declare(out, 0x01, 0x14)?;
        }
        Kind::Located => {
            declare(out, 0x02, 0x18)?;
            declare(out, 0x1c, 0x0d)?;
            declare(out, 0x49, 0x15)?;
        }
        Kind::Odd => {
            declare(out, 0x1c, 0x1e)?;
            declare(out, 0x2300, 0x0a)?;
            declare(out, 0x03, 0x27)?;
            declare(out, 0x2301, 0x16)?;
        }
        Kind::Broad => {
            for number in 0..BROAD {
                if number % STEP == 0 {
                    declare(out, 0x2400 + number, 0x19)?;
                } else {
                    declare_firmly(out, 0x2400 + number, 0x19)?;
                }
            }
        }
    }
    declare_firmly(out, 0, 0)
}

// Writes a table of so many declarations, whose codes are the multiples of `step`, falling where
// that is above 1.
fn declare_table(out: &mut Bytes, count: u64, step: u64) -> Done {
    for index in 0..count {
        declare_kind(out, code_of(index, count, step), Kind::of(index, count))?;
    }
    out.byte(0)
}

// The code of a declaration.
fn code_of(index: u64, count: u64, step: u64) -> u64 {
    if step == 1 {
        index.wrapping_add(1)
    } else {
        count.wrapping_sub(index).wrapping_mul(step)
    }
}

// Writes so many bytes, of which the first may be any.
fn write_block(out: &mut Bytes, length: u64, byte: u8) -> Done {
    for index in 0..length {
        if index == 0 {
            out.free(byte)?;
        } else {
            out.byte(byte)?;
        }
    }
    Ok(())
}

// Writes the values of an entry; the place of its sibling, if it has children.
fn write_values(
    out: &mut Bytes,
    kind: Kind,
    random: &mut Random,
) -> Result<Option<usize>, AllocError> {
    match kind {
        Kind::Named => {
            out.text(random)?;
            let line = random.below(100_000);
            let padding = random.below(4);
            out.free_number(line, padding)?;
        }
        Kind::Wide => {
            for number in 0..20u64 {
                out.byte(1)?;
                if number % WIDE_STEP == 0 {
                    out.free(2)?;
                } else {
                    out.byte(2)?;
                }
            }
        }
        Kind::Scope => {
            out.text(random)?;
            let place = out.bytes.len();
            out.word(0)?;
            return Ok(Some(place));
        }
        Kind::Located => {
            let length = 1 + random.below(8);
            out.number(length, 0)?;
            write_block(out, length, 0x91)?;
            let value = random.below(1_000_000);
            out.number(value, 0)?;
            let offset = 40 + random.below(200_000);
            out.number(offset, 1)?;
        }
        Kind::Odd => {
            out.free(7)?;
            out.word(random.next())?;
            for _ in 0..7u64 {
                out.byte(7)?;
            }
            let length = random.below(12);
            out.number(length, 0)?;
            write_block(out, length, 9)?;
            out.byte(0)?;
            out.byte(1)?;
            out.free(3)?;
            out.number(0x0b, 0)?;
            out.free(5)?;
        }
        Kind::Broad => {}
    }
    Ok(None)
}

// Writes one of so many entries; it is a scope as long as they are nested.
fn write_entry(
    out: &mut Bytes,
    count: u64,
    step: u64,
    nested: bool,
    random: &mut Random,
) -> Result<Option<usize>, AllocError> {
    let mut index = random.below(count);
    if nested {
        index -= index % 5;
    }
    if index.wrapping_add(1) == count && random.below(8) != 0 {
        index = 0;
    }
    let kind = Kind::of(index, count);
    out.number(code_of(index, count, step), 0)?;
    write_values(out, kind, random)
}

// Writes the null that closes the innermost scope, and where its sibling is.
fn close(out: &mut Bytes, open: &mut Vec<usize>, start: usize) -> Done {
    if let Some(place) = open.pop() {
        out.byte(0)?;
        let next = out.bytes.len().wrapping_sub(start) as u64;
        out.set_word(place, next);
    }
    Ok(())
}

// Writes a unit: its header, which is that of a type unit or of a compilation unit, and entries.
fn write_unit(
    alloc: Global,
    out: &mut Bytes,
    is_type: bool,
    table: u64,
    sizes: (u64, u64, u64, u64),
    random: &mut Random,
) -> Done {
    let (count, step, entries, nested) = sizes;
    let start = out.bytes.len();
    out.bytes.extend_from_slice(&[0xff, 0xff, 0xff, 0xff])?;
    let length = out.bytes.len();
    out.word(0)?;
    out.half(5)?;
    out.byte(if is_type { 2 } else { 1 })?;
    out.byte(8)?;
    out.word(table)?;
    if is_type {
        out.free(0x5a)?;
        for _ in 0..3u64 {
            out.byte((random.next() & 0xff) as u8)?;
        }
        out.bytes.extend_from_slice(&[0, 0, 0, 0])?;
        out.word(40)?;
    }
    let mut open = Vec::new(alloc);
    for index in 0..entries {
        let is_nested = index <= nested;
        if !is_nested && open.len() > 1 && random.below(3) == 0 {
            close(out, &mut open, start)?;
        }
        if let Some(place) = write_entry(out, count, step, is_nested, random)? {
            open.push(place)?;
        }
    }
    for _ in 0..entries {
        close(out, &mut open, start)?;
    }
    let size = out.bytes.len().wrapping_sub(length).wrapping_sub(8) as u64;
    out.set_word(length, size);
    Ok(())
}

/// The sections, and the places of bytes that may be any.
#[derive(Drop)]
pub(crate) struct Awkward {
    info: Bytes,
    abbrev: Bytes,
}

// The lists of no sections.
fn no_lists<R: Reader>(none: R) -> Lists<R> {
    Lists {
        ranges: RangeLists::new(
            DebugRanges::from(none.copy()),
            DebugRngLists::from(none.copy()),
        ),
        locations: LocationLists::new(
            DebugLoc::from(none.copy()),
            DebugLocLists::from(none.copy()),
        ),
        addresses: DebugAddr::from(none),
    }
}

// The two jobs that read the sections.
#[derive(Clone, Copy, Debug, PartialEq, Eq)]
enum Part {
    Read,
    Check,
}

// A checksum of a job over the sections.
fn of_sections<R: Reader>(alloc: Global, part: Part, info: R, abbrev: R, none: R) -> u64 {
    let lists = no_lists(none);
    match part {
        Part::Read => read::checksum(alloc, info, abbrev, &lists),
        Part::Check => check::checksum(alloc, info, abbrev, &lists),
    }
}

impl Awkward {
    /// Sections of so many copies, which a seed makes. Each unit has a table of its own.
    pub(crate) fn made(
        alloc: Global,
        copies: u64,
        random: &mut Random,
    ) -> Result<Self, AllocError> {
        let mut info = Bytes::new(alloc);
        let mut abbrev = Bytes::new(alloc);
        for _ in 0..copies {
            let large = abbrev.bytes.len() as u64;
            declare_table(&mut abbrev, CODES, 7)?;
            let sizes = (CODES, 7, ENTRIES, NESTED);
            write_unit(alloc, &mut info, false, large, sizes, random)?;
            for _ in 0..TYPES {
                let small = abbrev.bytes.len() as u64;
                declare_table(&mut abbrev, TYPE_CODES, 1)?;
                let sizes = (TYPE_CODES, 1, TYPE_ENTRIES, 0);
                write_unit(alloc, &mut info, true, small, sizes, random)?;
            }
        }
        Ok(Awkward { info, abbrev })
    }

    // Writes other bytes into the sections.
    fn vary(&mut self, random: &mut Random) {
        vary_bytes(&mut self.info.bytes, &self.info.places, random);
        vary_bytes(&mut self.abbrev.bytes, &self.abbrev.places, random);
    }

    /// A checksum of all that is read of the sections, in an order that is known at run time, and by
    /// `WholeSlice`. Other bytes are written before each.
    pub(crate) fn pass(&mut self, alloc: Global, random: &mut Random) -> u64 {
        let mut sum = 0u64;
        for part in [Part::Read, Part::Check] {
            self.vary(random);
            sum = mixed(sum, self.by_slice(alloc, part));
            self.vary(random);
            sum = mixed(sum, self.by_whole_slice(alloc, part));
        }
        sum
    }

    // A checksum of a job, in an order that is known at run time.
    fn by_slice(&self, alloc: Global, part: Part) -> u64 {
        of_sections(
            alloc,
            part,
            EndianSlice::new(&self.info.bytes, RunTimeEndian::Big),
            EndianSlice::new(&self.abbrev.bytes, RunTimeEndian::Big),
            EndianSlice::new(&[], RunTimeEndian::Big),
        )
    }

    // A checksum of a job by `WholeSlice`.
    fn by_whole_slice(&self, alloc: Global, part: Part) -> u64 {
        let most = u32::MAX as usize;
        if self.info.bytes.len() > most || self.abbrev.bytes.len() > most {
            return 0;
        }
        of_sections(
            alloc,
            part,
            WholeSlice::new(&self.info.bytes, BigEndian),
            WholeSlice::new(&self.abbrev.bytes, BigEndian),
            WholeSlice::new(&[], BigEndian),
        )
    }
}
