//! Headers of units.

ghost use Rattle.std.specs.Prelude.{◌≡◌, ◌+◌, ◌-◌, ◌<◌, ◌≤◌, length, pos, ⊤, IsTrue, false, true};
ghost use Rattle.std.specs.Prelude.{◌↔◌, IfOk};
ghost use Rattle.std.specs.Option.{option_map};
ghost use Rattle.gimli_base.specs.Offset.{answer_of};
ghost use Rattle.gimli_base.specs.Abbreviations.{map_at, table_takes_memory_at};
ghost use Rattle.gimli_base.specs.Address.{min_tombstone};
ghost use Rattle.gimli_base.specs.Table.{codes_of};
ghost use Rattle.gimli_base.specs.Reading.{initial_length_size_of, is_size, UnlessMemory};
ghost use Rattle.gimli_units.specs.Entry.{entry_of};
ghost use Rattle.gimli_units.specs.UnitKind.{map_type};
ghost use Rattle.gimli_units.specs.CursorStart.{cursor_of, cursor_from};
ghost use Rattle.gimli_base.specs.Sections.{abbrev_content};

use crate::{
    DebugInfoOffset, DebugTypesOffset, DebuggingInformationEntry, EntriesCursor, EntriesRaw,
    UnitOffset, UnitSectionOffset, UnitType,
};
use gimli_base::{
    Abbreviations, DebugAbbrev, DebugAbbrevOffset, Encoding, Error, Format, Reader, ReaderAddress,
    ReaderOffset, Result, Section, SectionId,
};
use std::alloc::{AllocError, Allocator};
use std::fmt::Debug;
use std::ops::{Range, RangeFrom, RangeTo};

/// The header of a unit, with the bytes of its entries (DWARF 5, 7.5.1).
///
/// The unit's whole length fits the reader's offsets, and is no less than the number of the
/// entries' bytes.
#[derive(Debug, PartialEq, Eq, Drop)]
pub struct UnitHeader<R: Reader, Offset: ReaderOffset = <R as Reader>::Offset> {
    encoding: Encoding,
    unit_length: Offset,
    unit_type: UnitType<Offset>,
    debug_abbrev_offset: DebugAbbrevOffset<Offset>,
    section: SectionId,
    unit_offset: UnitSectionOffset<Offset>,
    entries_buf: R,
    ghost length_fits: { initial_length_size_of encoding.format + Offset.number unit_length
        < Offset.limit },
    ghost entries_fit: { length (R.view entries_buf).bytes
        ≤ initial_length_size_of encoding.format + Offset.number unit_length },
}

impl<R: Reader + Copy, Offset: ReaderOffset> Clone for UnitHeader<R, Offset> {
    ghost is_clone = { λ u copy. (copy.encoding ≡ u.encoding) × (copy.unit_length ≡ u.unit_length)
        × (copy.unit_type ≡ u.unit_type) × (copy.debug_abbrev_offset ≡ u.debug_abbrev_offset)
        × (copy.section ≡ u.section) × (copy.unit_offset ≡ u.unit_offset)
        × (copy.entries_buf ≡ u.entries_buf) };

    ghost is_infallible = { λ _. ⊤ };

    fn clone(&self) -> std::result::Result<Self, AllocError> {
        Ok(UnitHeader {
            encoding: self.encoding,
            unit_length: self.unit_length,
            unit_type: self.unit_type,
            debug_abbrev_offset: self.debug_abbrev_offset,
            section: self.section,
            unit_offset: self.unit_offset,
            entries_buf: self.entries_buf,
        })
    }
}

impl<R: Reader + Copy, Offset: ReaderOffset> Copy for UnitHeader<R, Offset> {}

impl<R: Reader> UnitHeader<R> {
    ghost use Rattle.gimli_units.specs.UnitHeld.{unit_view};
    ghost use Rattle.gimli_units.specs.Unit.{UnitView, whole_length, header_size, in_bounds};
    ghost use Rattle.gimli_units.specs.Unit.{range_from, entries_of, entries_from, range_of};
    ghost use Rattle.gimli_units.specs.Unit.{range_to, debug_info_offset, debug_types_offset};
    ghost use Rattle.gimli_units.specs.Unit.{size_of_header, unit_entry_at, takes_memory_in};

    /// A header of these parts. `unit_length` is the number in the length field, `unit_offset` is
    /// where the unit begins in `section`, and `entries_buf` reads from the first entry to the
    /// unit's end. The whole length, `unit_length` and the 4 or 12 bytes of the length field, has
    /// to fit the reader's offsets, and to be no less than the number of bytes in `entries_buf`.
    pub fn new(
        encoding: Encoding,
        unit_length: R::Offset,
        unit_type: UnitType<R::Offset>,
        debug_abbrev_offset: DebugAbbrevOffset<R::Offset>,
        section: SectionId,
        unit_offset: UnitSectionOffset<R::Offset>,
        entries_buf: R,
    ) -> Self
        requires length_fits { initial_length_size_of encoding.format + R.Offset.number unit_length
            < R.Offset.limit }
        requires entries_fit { length (R.view entries_buf).bytes
            ≤ initial_length_size_of encoding.format + R.Offset.number unit_length }
        ensures { unit_view result
            ≡ record {
              encoding = encoding;
              unit_length = R.Offset.number unit_length;
              kind = map_type R.Offset.number unit_type;
              abbreviations =
                  R.Offset.number debug_abbrev_offset.0;
              section = section;
              offset =
                  R.Offset.number unit_offset.0;
              entries = R.view entries_buf;
            } }
    {
        UnitHeader {
            encoding,
            unit_length,
            unit_type,
            debug_abbrev_offset,
            section,
            unit_offset,
            entries_buf,
        }
    }

    /// The same header, its reader copied.
    pub fn copy(&self) -> Self
        ensures { unit_view result ≡ unit_view self.now }
    {
        UnitHeader {
            encoding: self.encoding,
            unit_length: self.unit_length,
            unit_type: self.unit_type,
            debug_abbrev_offset: self.debug_abbrev_offset,
            section: self.section,
            unit_offset: self.unit_offset,
            entries_buf: self.entries_buf.copy(),
        }
    }

    /// The section that the unit lies in.
    pub fn section(&self) -> SectionId
        ensures { result ≡ (unit_view self.now).section }
    {
        self.section
    }

    /// Where the unit begins in its section.
    pub fn offset(&self) -> UnitSectionOffset<R::Offset>
        ensures { R.Offset.number result.0 ≡ (unit_view self.now).offset }
    {
        self.unit_offset
    }

    /// The number in the length field, which does not count the field itself.
    pub fn unit_length(&self) -> R::Offset
        ensures { R.Offset.number result ≡ (unit_view self.now).unit_length }
    {
        self.unit_length
    }

    /// The format, the version and the size of an address, by which the unit's bytes are read.
    pub fn encoding(&self) -> Encoding
        ensures { result ≡ (unit_view self.now).encoding }
    {
        self.encoding
    }

    /// The type of the unit, with what the header has for it: a signature and an offset, or an id.
    pub fn type_(&self) -> UnitType<R::Offset>
        ensures { map_type R.Offset.number result ≡ (unit_view self.now).kind }
    {
        self.unit_type
    }

    /// The version of DWARF.
    pub fn version(&self) -> u16
        ensures { result ≡ (unit_view self.now).encoding.version }
    {
        let encoding = self.encoding;
        encoding.version
    }

    /// The number of bytes of an address.
    pub fn address_size(&self) -> u8
        ensures { result ≡ (unit_view self.now).encoding.address_size }
    {
        let encoding = self.encoding;
        encoding.address_size
    }

    /// The format, which gives the width of lengths and offsets.
    pub fn format(&self) -> Format
        ensures { result ≡ (unit_view self.now).encoding.format }
    {
        let encoding = self.encoding;
        encoding.format
    }

    /// Where the unit begins in `.debug_info`, if it lies there, else none.
    pub fn debug_info_offset(&self) -> Option<DebugInfoOffset<R::Offset>>
        ensures { option_map (λ o. R.Offset.number o.0) result
            ≡ debug_info_offset (unit_view self.now) }
    {
        match self.section {
            SectionId::DebugInfo => Some(DebugInfoOffset(self.unit_offset.0)),
            _ => None,
        }
    }

    /// Where the unit begins in `.debug_types`, if it lies there, else none.
    pub fn debug_types_offset(&self) -> Option<DebugTypesOffset<R::Offset>>
        ensures { option_map (λ o. R.Offset.number o.0) result
            ≡ debug_types_offset (unit_view self.now) }
    {
        match self.section {
            SectionId::DebugTypes => Some(DebugTypesOffset(self.unit_offset.0)),
            _ => None,
        }
    }

    /// The number of bytes of the header, the length field included, as its format, version and
    /// type make it (DWARF 5, 7.5.1). Where the entries begin is not looked at: `header_size`
    /// answers that.
    pub fn size_of_header(&self) -> usize
        ensures { result ≡ size_of_header (unit_view self.now) }
    {
        let format = self.encoding.format;
        let field = usize::from(format.initial_length_size());
        let word = usize::from(format.word_size());
        let type_code = if self.encoding.version == 5 { 1 } else { 0 };
        let added = match self.unit_type {
            UnitType::Compilation | UnitType::Partial | UnitType::Vendor(_) => 0,
            UnitType::TypeUnit { .. } | UnitType::SplitType { .. } => 8 + word,
            UnitType::Skeleton(_) | UnitType::SplitCompilation(_) => 8,
        };
        field + 2 + word + 1 + type_code + added
    }

    /// Whether an address stands for none, as linkers write it where code was dropped: it is all
    /// ones in the unit's size of addresses, one less, or greater than all ones. The size has to be
    /// 1, 2, 4 or 8.
    pub fn is_tombstone_address(&self, address: u64) -> bool
        requires { IsTrue (is_size (unit_view self.now).encoding.address_size) }
        ensures { IsTrue result
            ↔ (min_tombstone (unit_view self.now).encoding.address_size ≤ address) }
    {
        address >= u64::min_tombstone(self.encoding.address_size)
    }

    /// Where the unit's abbreviations begin in `.debug_abbrev`.
    pub fn debug_abbrev_offset(&self) -> DebugAbbrevOffset<R::Offset>
        ensures { R.Offset.number result.0 ≡ (unit_view self.now).abbreviations }
    {
        self.debug_abbrev_offset
    }

    /// The number of bytes of the unit, the length field included.
    pub fn length_including_self(&self) -> R::Offset
        ensures { R.Offset.number result ≡ whole_length (unit_view self.now) }
    {
        R::Offset::from_u8(self.encoding.format.initial_length_size())
            .checked_add(self.unit_length)
            .unwrap()
    }

    /// The number of bytes before the entries, the length field included: the whole length less the
    /// bytes of the entries. Of a header that was parsed, `size_of_header` answers the same.
    pub fn header_size(&self) -> R::Offset
        ensures { R.Offset.number result ≡ header_size (unit_view self.now) }
    {
        self.length_including_self()
            .checked_sub(self.entries_buf.len())
            .unwrap()
    }

    /// The offset of the first entry in the unit; the unit's end where it has no bytes of entries.
    pub fn root_offset(&self) -> UnitOffset<R::Offset>
        ensures { R.Offset.number result.0 ≡ header_size (unit_view self.now) }
    {
        UnitOffset(self.header_size())
    }

    /// The table of the unit's abbreviations: the declarations in `.debug_abbrev` from the header's
    /// offset on (DWARF 5, 7.5.3). Memory is taken only where the first declaration is read as far
    /// as its attributes.
    ///
    /// Refusals: those of `DebugAbbrev::abbreviations`.
    pub fn abbreviations<A: Allocator + Copy>(
        &self,
        alloc: A,
        debug_abbrev: &DebugAbbrev<R>,
    ) -> Result<Abbreviations<A>>
        ensures value { let section = abbrev_content R.view debug_abbrev.now in
            UnlessMemory result
            (answer_of codes_of result ≡ map_at (unit_view self.now).abbreviations section) }
        ensures without_memory { let u = unit_view self.now in
            let section = abbrev_content R.view debug_abbrev.now in
            table_takes_memory_at u.abbreviations section ≡ false →
            answer_of codes_of result ≡ map_at u.abbreviations section }
    {
        debug_abbrev.abbreviations(alloc, self.debug_abbrev_offset)
    }

    /// Whether an offset in the unit is that of a byte of its entries: not before the first, and
    /// before the unit's end, which itself is out of bounds.
    pub(crate) fn is_in_bounds(&self, offset: UnitOffset<R::Offset>) -> bool
        ensures { result ≡ in_bounds (unit_view self.now) (R.Offset.number offset.0) }
    {
        let number = offset.0.into_u64();
        let start = self.header_size().into_u64();
        let end = self.length_including_self().into_u64();
        start <= number && number < end
    }

    /// A reader of the bytes from an offset in the unit to the unit's end. Refusal:
    /// `OffsetOutOfBounds`, where the offset is not that of a byte of the entries.
    #[tactic(auto, unfolding(crate::specs::Unit::range_from, gimli_base::specs::Reading::skip_at))]
    pub fn range_from(&self, idx: RangeFrom<UnitOffset<R::Offset>>) -> Result<R>
        ensures { answer_of R.view result
            ≡ range_from (unit_view self.now) (R.Offset.number idx.start.0) }
    {
        if !self.is_in_bounds(idx.start) {
            return Err(Error::OffsetOutOfBounds(idx.start.0.into_u64()));
        }
        let before = idx.start.0.checked_sub(self.header_size()).unwrap();
        let mut range = self.entries_buf.copy();
        range.skip(before)?;
        Ok(range)
    }

    /// A reader of the bytes from an offset in the unit to the one before another, which must not
    /// be before it. Refusal: `OffsetOutOfBounds` of the first offset, or else of the second, where
    /// it is not that of a byte of the entries; so the unit's end is none that can be named.
    #[tactic(auto, unfolding(crate::specs::Unit::range_of, crate::specs::Unit::range_from, gimli_base::specs::Reading::truncate_at))]
    pub fn range(&self, idx: Range<UnitOffset<R::Offset>>) -> Result<R>
        requires { R.Offset.number idx.start.0 ≤ R.Offset.number idx.end.0 }
        ensures { answer_of R.view result
            ≡ range_of (unit_view self.now) (R.Offset.number idx.start.0)
            (R.Offset.number idx.end.0) }
    {
        let start = idx.start;
        let end = idx.end;
        let mut range = self.range_from(start..)?;
        if !self.is_in_bounds(end) {
            return Err(Error::OffsetOutOfBounds(end.0.into_u64()));
        }
        range.truncate(end.0.checked_sub(start.0).unwrap())?;
        Ok(range)
    }

    /// A reader of the bytes from the first entry to the one before an offset in the unit. Refusal:
    /// `OffsetOutOfBounds`, where the offset is not that of a byte of the entries; the unit's end
    /// is none.
    #[tactic(auto, unfolding(crate::specs::Unit::range_to, gimli_base::specs::Reading::truncate_at))]
    pub fn range_to(&self, idx: RangeTo<UnitOffset<R::Offset>>) -> Result<R>
        ensures { answer_of R.view result
            ≡ range_to (unit_view self.now) (R.Offset.number idx.end.0) }
    {
        if !self.is_in_bounds(idx.end) {
            return Err(Error::OffsetOutOfBounds(idx.end.0.into_u64()));
        }
        let length = idx.end.0.checked_sub(self.header_size()).unwrap();
        let mut range = self.entries_buf.copy();
        range.truncate(length)?;
        Ok(range)
    }

    /// The entry that decoding at an offset in the unit gives, at depth 0. Whether the entries
    /// before it end there is not looked at.
    ///
    /// Refusals: `OffsetOutOfBounds`, then those of `EntriesRaw::read_entry`, and
    /// `NoEntryAtGivenOffset` at a null. Memory is taken only where the entry's declaration has
    /// attributes.
    #[tactic(auto, unfolding(crate::specs::Unit::unit_entry_at, crate::specs::Unit::entries_from))]
    pub fn entry<A: Allocator + Copy>(
        &self,
        alloc: A,
        abbreviations: &Abbreviations<A>,
        offset: UnitOffset<R::Offset>,
    ) -> Result<DebuggingInformationEntry<R, A>>
        ensures value { UnlessMemory result
            (answer_of (entry_of R.view R.Offset.number) result
            ≡ unit_entry_at R.Offset.limit (unit_view self.now) (codes_of abbreviations.now)
            (R.Offset.number offset.0)) }
        ensures without_memory { takes_memory_in (codes_of abbreviations.now)
            (range_from (unit_view self.now) (R.Offset.number offset.0)) ≡ false
            → answer_of (entry_of R.view R.Offset.number) result
            ≡ unit_entry_at R.Offset.limit (unit_view self.now) (codes_of abbreviations.now)
            (R.Offset.number offset.0) }
        ensures offset { IfOk result (λ e. R.Offset.number e.offset.0 ≡ R.Offset.number offset.0) }
        ensures depth { IfOk result (λ e. e.depth ≡ pos 0) }
    {
        let mut entry = DebuggingInformationEntry::null(alloc);
        let mut entries = self.entries_raw(abbreviations, Some(offset))?;
        if entries.read_entry(&mut entry)? {
            Ok(entry)
        } else {
            Err(Error::NoEntryAtGivenOffset(offset.0.into_u64()))
        }
    }

    /// A reader of the entries from `offset` on, an offset in the unit, or from the first without
    /// one; what is read first has depth 0. Refusal: `OffsetOutOfBounds`, also without an offset
    /// where the unit has no bytes of entries.
    #[tactic(auto, unfolding(crate::specs::Unit::entries_from, crate::specs::Unit::range_from))]
    pub fn entries_raw<'abbrev, A: Allocator>(
        &self,
        abbreviations: &'abbrev Abbreviations<A>,
        offset: Option<UnitOffset<R::Offset>>,
    ) -> Result<EntriesRaw<'abbrev, R, A>>
        ensures { result ≡ entries_from (unit_view self.now) abbreviations.now
            (option_map (λ o. R.Offset.number o.0) offset) }
    {
        let start = offset.unwrap_or(self.root_offset());
        let input = self.range_from(start..)?;
        Ok(EntriesRaw::new(input, self.encoding, abbreviations, start))
    }

    /// A cursor before the first entry of the unit, whose `next_sibling` follows sibling
    /// references. It never refuses: where the unit has no bytes of entries, it ends at once.
    pub fn entries<'abbrev, A: Allocator + Copy>(
        &self,
        alloc: A,
        abbreviations: &'abbrev Abbreviations<A>,
    ) -> EntriesCursor<'abbrev, R, A>
        ensures { result ≡ cursor_of (unit_view self.now) abbreviations.now true }
    {
        EntriesCursor::new(alloc, self.all_entries(abbreviations), true)
    }

    /// A cursor before the entry at an offset in the unit, which has depth 0; its `next_sibling`
    /// follows sibling references. Refusal: `OffsetOutOfBounds`, where the offset is not that of a
    /// byte of the entries.
    pub fn entries_at_offset<'abbrev, A: Allocator + Copy>(
        &self,
        alloc: A,
        abbreviations: &'abbrev Abbreviations<A>,
        offset: UnitOffset<R::Offset>,
    ) -> Result<EntriesCursor<'abbrev, R, A>>
        ensures { result ≡ cursor_from (unit_view self.now) abbreviations.now true
            (R.Offset.number offset.0) }
    {
        let raw = self.entries_raw(abbreviations, Some(offset))?;
        Ok(EntriesCursor::new(alloc, raw, true))
    }

    /// A cursor before the first entry of the unit, which follows no sibling reference, and reads
    /// every entry. It never refuses: where the unit has no bytes of entries, it ends at once.
    pub fn entries_plain<'abbrev, A: Allocator + Copy>(
        &self,
        alloc: A,
        abbreviations: &'abbrev Abbreviations<A>,
    ) -> EntriesCursor<'abbrev, R, A>
        ensures { result ≡ cursor_of (unit_view self.now) abbreviations.now false }
    {
        EntriesCursor::new(alloc, self.all_entries(abbreviations), false)
    }

    /// A cursor before the entry at an offset in the unit, which has depth 0; it follows no sibling
    /// reference, and reads every entry. Refusal: `OffsetOutOfBounds`, where the offset is not that
    /// of a byte of the entries.
    pub fn entries_plain_at_offset<'abbrev, A: Allocator + Copy>(
        &self,
        alloc: A,
        abbreviations: &'abbrev Abbreviations<A>,
        offset: UnitOffset<R::Offset>,
    ) -> Result<EntriesCursor<'abbrev, R, A>>
        ensures { result ≡ cursor_from (unit_view self.now) abbreviations.now false
            (R.Offset.number offset.0) }
    {
        let raw = self.entries_raw(abbreviations, Some(offset))?;
        Ok(EntriesCursor::new(alloc, raw, false))
    }

    // A reader of all the entries of the unit, from depth 0; where there are none, it has nothing
    // to read.
    fn all_entries<'abbrev, A: Allocator>(
        &self,
        abbreviations: &'abbrev Abbreviations<A>,
    ) -> EntriesRaw<'abbrev, R, A>
        ensures { result ≡ entries_of (unit_view self.now) abbreviations.now }
    {
        let input = self.entries_buf.copy();
        EntriesRaw::new(input, self.encoding, abbreviations, self.root_offset())
    }
}
