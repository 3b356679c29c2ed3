//! Sets of ranges of addresses (DWARF 5, 6.1.2).

ghost use Rattle.std.proofs.Common.{ap};
ghost use Rattle.std.specs.Prelude.{◌≡◌, ◌+◌, ◌*◌, ◌%◌, ◌<◌, ◌++◌, length, IsTrue, MatchResult};
ghost use Rattle.std.specs.Prelude.{IfOk, OnSome, Ok, None, []};
ghost use Rattle.std.specs.Fn.{FnOnceTakesAt, FnOnceReturnsAt};
ghost use Rattle.std.specs.Iterator.{at_most};
ghost use Rattle.std.specs.Option.{option_map, option_to_list, option_transpose};
ghost use Rattle.gimli_base.specs.declared.common.SectionId.TheVariants.{DebugAranges as ArangesSection};
ghost use Rattle.gimli_base.specs.Offset.{answer_of};
ghost use Rattle.gimli_base.specs.Reading.{read_of, is_size};
ghost use Rattle.gimli_lists.specs.ArangeSets.{ArangeSet, SetsPlace, fields_size, padding_size};
ghost use Rattle.gimli_lists.specs.ArangeSets.{set_fields_at, set_at, set_from, next_set};
ghost use Rattle.gimli_lists.specs.ArangeSets.{sets_ahead, sets_of, IsNextSet, set_holds};
ghost use Rattle.gimli_lists.specs.Aranges.{ArangesPlace};
ghost use Rattle.gimli_lists.specs.Sections.{aranges_content};

use gimli_base::{
    DebugArangesOffset, Encoding, EndianSlice, Endianity, Error, Format, Reader, ReaderOffset,
    Result, Section, SectionId,
};
use gimli_units::DebugInfoOffset;
use std::fmt::Debug;
use std::marker::Model;

mod entries;

pub use entries::{ArangeEntry, ArangeEntryIter};

/// The section `.debug_aranges`.
#[derive(Clone, Copy, Debug, Default)]
pub struct DebugAranges<R> {
    section: R,
}

impl<'a, E: Endianity> DebugAranges<EndianSlice<'a, E>> {
    /// The section of these bytes.
    pub fn new(bytes: &'a [u8], endian: E) -> Self
        ensures { ⟦<DebugAranges<EndianSlice<'a, E>> as Section<EndianSlice<'a, E>>>⟧.content result
            ≡ record { big = E.big endian; place = 0; bytes = bytes.now } }
    {
        DebugAranges {
            section: EndianSlice::new(bytes, endian),
        }
    }
}

impl<T> DebugAranges<T> {
    /// The section that is read by what `f` makes of this one's reader. `f` is called once.
    pub fn borrow<'a, R, F: FnOnce(&'a T) -> R>(&'a self, f: F) -> DebugAranges<R>
        requires { FnOnceTakesAt F.FnOnce f self.now.section }
        ensures { FnOnceReturnsAt F.FnOnce f self.now.section result.section }
    {
        DebugAranges {
            section: f(&self.section),
        }
    }
}

impl<R> From<R> for DebugAranges<R> {
    ghost from_gives = { λ r s. s.section ≡ r };

    fn from(section: R) -> Self {
        DebugAranges { section }
    }
}

impl<R: Reader> Section<R> for DebugAranges<R> {
    ghost section = { ArangesSection };

    ghost content = { λ s. R.view s.section };

    ghost content_of_from = { λ _ _ same. ap R.view same };

    fn id() -> SectionId {
        SectionId::DebugAranges
    }

    fn reader(&self) -> &R {
        &self.section
    }
}

impl<R: Reader> DebugAranges<R> {
    /// The sets of the section, from its beginning on: each begins where the one before ends.
    pub fn headers(&self) -> ArangeHeaderIter<R>
        ensures begin { result
            ≡ record { rest = aranges_content R.view self.now; offset = 0 } }
        ensures all { sets_ahead R.Offset.limit result
            ≡ sets_of R.Offset.limit (aranges_content R.view self.now) }
    {
        ArangeHeaderIter {
            input: self.section.copy(),
            offset: DebugArangesOffset(R::Offset::from_u8(0)),
        }
    }

    /// The header of the set that begins at an offset of the section; whatever stands there is read
    /// as one.
    ///
    /// Refusals: `UnexpectedEof`, where the offset lies after the section's end; then those of
    /// `ArangeHeaderIter::next`.
    #[tactic(auto, unfolding(crate::specs::ArangeSets::set_from))]
    pub fn header(&self, offset: DebugArangesOffset<R::Offset>) -> Result<ArangeHeader<R>>
        ensures { answer_of ⟦<ArangeHeader<R> as HasArangeSet>⟧.set result
            ≡ set_from R.Offset.limit (R.Offset.number offset.0)
            (aranges_content R.view self.now) }
    {
        let mut input = self.section.copy();
        input.skip(offset.0)?;
        parse_header(&mut input, offset)
    }
}

/// The sets of `.debug_aranges`, one after the other.
#[derive(Debug, Drop)]
pub struct ArangeHeaderIter<R: Reader> {
    input: R,
    // where the input begins in its section
    offset: DebugArangesOffset<R::Offset>,
}

impl<R: Reader> Model for ArangeHeaderIter<R> {
    ghost Value = { SetsPlace };

    ghost view = { λ s. record { rest = R.view s.input; offset = R.Offset.number s.offset.0 } };

    ghost invariant = { λ s. R.Offset.number s.offset.0 + length (R.view s.input).bytes
        < R.Offset.limit };
}

impl<R: Reader> ArangeHeaderIter<R> {
    /// An iterator that stands where this one stands.
    pub fn copy(&self) -> Self
        ensures { result ≡ self.now }
    {
        ArangeHeaderIter {
            input: self.input.copy(),
            offset: self.offset,
        }
    }

    /// The header of the next set, or none at the end of the section. Of the set's tuples nothing
    /// is read.
    ///
    /// Refusals, of the first field that has one: `UnexpectedEof`, also where the section ends
    /// before the set, `UnknownReservedLength`, `UnsupportedOffset`, `UnknownVersion` of a version
    /// other than 2 and 3, `UnsupportedAddressSize`, `UnsupportedSegmentSize` of segment selectors
    /// that take bytes. Nothing is left then, and the next call answers none.
    pub fn next(&mut self) -> Result<Option<ArangeHeader<R>>>
        ensures value { answer_of (option_map ⟦<ArangeHeader<R> as HasArangeSet>⟧.set) result
            ≡ option_transpose (next_set R.Offset.limit self.old).0 }
        ensures left { self.new ≡ (next_set R.Offset.limit self.old).1 }
        ensures ahead { sets_ahead R.Offset.limit self.old
            ≡ option_to_list (next_set R.Offset.limit self.old).0
            ++ sets_ahead R.Offset.limit self.new }
        ensures ended { result ≡ Ok None → sets_ahead R.Offset.limit self.old ≡ [] }
        ensures takes { MatchResult result
            (λ header. OnSome header (length self.new.rest.bytes < length self.old.rest.bytes))
            (λ _. length self.new.rest.bytes < length self.old.rest.bytes) }
    {
        next_header(&mut self.input, &mut self.offset)
    }
}

impl<R: Reader> Iterator for ArangeHeaderIter<R> {
    type Item = Result<ArangeHeader<R>>;

    ghost next_gives = { λ s r t.
        IsNextSet R.Offset.limit s
        (option_map (answer_of ⟦<ArangeHeader<R> as HasArangeSet>⟧.set) r) t };

    ghost remaining = { λ s. at_most (length s.rest.bytes) };

    // As the other `next`: a refusal is an item, and nothing is left after it.
    fn next(&mut self) -> Option<Result<ArangeHeader<R>>> {
        ArangeHeaderIter::next(self).transpose()
    }
}

/// What stands for the header of a set in contracts: its fields, at views and numbers.
pub trait HasArangeSet {
    // the set
    ghost set: { Self → ArangeSet };
}

/// The header of a set of ranges of addresses, with the bytes of its tuples (DWARF 5, 6.1.2). The
/// ranges belong to one unit.
#[derive(Debug, PartialEq, Eq, Drop)]
pub struct ArangeHeader<R: Reader, Offset: ReaderOffset = <R as Reader>::Offset> {
    offset: DebugArangesOffset<Offset>,
    encoding: Encoding,
    length: Offset,
    debug_info_offset: DebugInfoOffset<Offset>,
    entries: R,
    ghost sized: { IsTrue (is_size encoding.address_size) },
}

impl<R: Reader> HasArangeSet for ArangeHeader<R> {
    ghost set = { λ h.
        record {
          offset = R.Offset.number h.offset.0;
          encoding = h.encoding;
          length_field = R.Offset.number h.length;
          info_offset =
              R.Offset.number h.debug_info_offset.0;
          tuples = R.view h.entries;
        } };
}

impl<R: Reader> ArangeHeader<R> {
    /// The same header, its reader copied.
    pub fn copy(&self) -> Self
        ensures { ⟦<ArangeHeader<R> as HasArangeSet>⟧.set result
            ≡ ⟦<ArangeHeader<R> as HasArangeSet>⟧.set self.now }
    {
        ArangeHeader {
            offset: self.offset,
            encoding: self.encoding,
            length: self.length,
            debug_info_offset: self.debug_info_offset,
            entries: self.entries.copy(),
        }
    }

    /// Where the set begins in `.debug_aranges`.
    pub fn offset(&self) -> DebugArangesOffset<R::Offset>
        ensures { R.Offset.number result.0
            ≡ (⟦<ArangeHeader<R> as HasArangeSet>⟧.set self.now).offset }
    {
        self.offset
    }

    /// The number in the length field, which does not count the field itself.
    pub fn length(&self) -> R::Offset
        ensures { R.Offset.number result
            ≡ (⟦<ArangeHeader<R> as HasArangeSet>⟧.set self.now).length_field }
    {
        self.length
    }

    /// How the bytes of the set are read.
    pub fn encoding(&self) -> Encoding
        ensures value { result ≡ (⟦<ArangeHeader<R> as HasArangeSet>⟧.set self.now).encoding }
        ensures sized { IsTrue (is_size result.address_size) }
    {
        self.encoding
    }

    /// Where the unit begins in `.debug_info` to which the ranges belong.
    pub fn debug_info_offset(&self) -> DebugInfoOffset<R::Offset>
        ensures { R.Offset.number result.0
            ≡ (⟦<ArangeHeader<R> as HasArangeSet>⟧.set self.now).info_offset }
    {
        self.debug_info_offset
    }

    /// The ranges of the set, from the first on.
    pub fn entries(&self) -> ArangeEntryIter<R>
        ensures { result
            ≡ record {
              rest = (⟦<ArangeHeader<R> as HasArangeSet>⟧.set self.now).tuples;
              encoding = (⟦<ArangeHeader<R> as HasArangeSet>⟧.set self.now).encoding;
            } }
    {
        ArangeEntryIter::new(self.entries.copy(), self.encoding)
    }

    /// Whether a range of the set holds an address. Tuples whose end does not fit are passed over,
    /// and two zeros do not end the set.
    pub fn holds(&self, address: u64) -> bool
        ensures { result ≡ set_holds address (⟦<ArangeHeader<R> as HasArangeSet>⟧.set self.now) }
    {
        let mut entries = self.entries();
        'entries: loop {
            match entries.next() {
                Ok(Some(entry)) => {
                    let range = entry.range();
                    if range.begin <= address && address < range.end {
                        return true;
                    }
                }
                Ok(None) => return false,
                Err(_) => {}
            }
        }
    }
}

// The number of bytes between the fields of a header and the first tuple, which begins, counted
// from the set's first byte, at a multiple of its size. That is two addresses, whose size has to be
// 1, 2, 4 or 8.
fn padding_size(format: Format, address_size: u8) -> u8
    requires { IsTrue (is_size address_size) }
    ensures value { result ≡ padding_size format address_size }
    ensures aligns { (fields_size format + result) % (2 * address_size) ≡ 0 }
    ensures least { result < 2 * address_size }
{
    let fields_size = format.initial_length_size() + 2 + format.word_size() + 1 + 1;
    let tuple_size = 2 * address_size;
    (tuple_size - fields_size % tuple_size) % tuple_size
}

// The fields after the length: the version, the offset of the unit, the size of an address and that
// of a segment selector, and then the padding, in this order; the first that is refused is the
// refusal. The input is then left anywhere.
#[tactic(auto, unfolding(crate::specs::ArangeSets::set_fields_at))]
fn parse_fields<R: Reader>(
    input: &mut R,
    format: Format,
) -> Result<(Encoding, DebugInfoOffset<R::Offset>)>
    ensures value { let answer = answer_of (λ p. (p.0, R.Offset.number p.1.0)) result in
        read_of answer (R.view input.new)
        ≡ set_fields_at R.Offset.limit format (R.view input.old) }
    ensures sized { IfOk result (λ p. IsTrue (is_size p.0.address_size)) }
{
    let version = input.read_u16()?;
    if version != 2 && version != 3 {
        return Err(Error::UnknownVersion(u64::from(version)));
    }
    let debug_info_offset = DebugInfoOffset(input.read_offset(format)?);
    let address_size = input.read_address_size()?;
    let segment_size = input.read_u8()?;
    if segment_size != 0 {
        return Err(Error::UnsupportedSegmentSize(segment_size));
    }
    input.skip(R::Offset::from_u8(padding_size(format, address_size)))?;
    let encoding = Encoding {
        format,
        version,
        address_size,
    };
    Ok((encoding, debug_info_offset))
}

// The next header, which begins at `offset` of its section. The input is left at the end of the
// whole set, and the header keeps the bytes of the tuples.
//
// Refusals: those of `Reader::read_initial_length`; `UnexpectedEof`, where the input ends before
// the set; then those of `parse_fields`. The input is then left anywhere.
#[tactic(auto, unfolding(crate::specs::ArangeSets::set_at))]
fn parse_header<R: Reader>(
    input: &mut R,
    offset: DebugArangesOffset<R::Offset>,
) -> Result<ArangeHeader<R>>
    ensures { read_of (answer_of ⟦<ArangeHeader<R> as HasArangeSet>⟧.set result) (R.view input.new)
        ≡ set_at R.Offset.limit (R.Offset.number offset.0) (R.view input.old) }
{
    let (length, format) = input.read_initial_length()?;
    let mut rest = input.split(length)?;
    let (encoding, debug_info_offset) = parse_fields(&mut rest, format)?;
    Ok(ArangeHeader {
        offset,
        encoding,
        length,
        debug_info_offset,
        entries: rest,
    })
}

// Takes the next header of a section, or none where nothing is left. `input` is what is left of the
// section, and `offset` is where that begins in it; both go past the whole set.
//
// Refusals: those of `parse_header`; nothing is left of `input` then, and `offset` stays.
#[tactic(auto, unfolding(crate::specs::ArangeSets::next_set))]
fn next_header<R: Reader>(
    input: &mut R,
    offset: &mut DebugArangesOffset<R::Offset>,
) -> Result<Option<ArangeHeader<R>>>
    requires { R.Offset.number offset.old.0 + length (R.view input.old).bytes < R.Offset.limit }
    ensures value { answer_of (option_map ⟦<ArangeHeader<R> as HasArangeSet>⟧.set) result
        ≡ option_transpose
        (next_set R.Offset.limit
        (record { rest = R.view input.old; offset = R.Offset.number offset.old.0 })).0 }
    ensures left { record { rest = R.view input.new; offset = R.Offset.number offset.new.0 }
        ≡ (next_set R.Offset.limit
        (record { rest = R.view input.old; offset = R.Offset.number offset.old.0 })).1 }
    ensures takes { MatchResult result
        (λ header. OnSome header
        (length (R.view input.new).bytes < length (R.view input.old).bytes))
        (λ _. length (R.view input.new).bytes < length (R.view input.old).bytes) }
    ensures fits { R.Offset.number offset.new.0 + length (R.view input.new).bytes < R.Offset.limit }
{
    if input.is_empty() {
        return Ok(None);
    }
    let mut rest = input.copy();
    match parse_header(&mut rest, *offset) {
        Ok(header) => {
            let field = R::Offset::from_u8(header.encoding.format.initial_length_size());
            let whole_length = field.checked_add(header.length).unwrap();
            let after = offset.0.checked_add(whole_length).unwrap();
            *input = rest;
            *offset = DebugArangesOffset(after);
            Ok(Some(header))
        }
        Err(error) => {
            input.empty();
            Err(error)
        }
    }
}
