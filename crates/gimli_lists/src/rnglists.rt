//! Lists of ranges of addresses, in `.debug_ranges` up to version 4, and in `.debug_rnglists` since
//! version 5.

ghost use Rattle.std.specs.Prelude.{◌≡◌, IsTrue};
ghost use Rattle.std.specs.Fn.{TakesAt, CalledAt};
ghost use Rattle.std.specs.Option.{option_map};
ghost use Rattle.gimli_base.specs.declared.common.SectionId.TheVariants.{DebugRanges as RangesSection};
ghost use Rattle.gimli_base.specs.declared.common.SectionId.TheVariants.{DebugRngLists as RngListsSection};
ghost use Rattle.gimli_base.specs.Address.{wrapped_sum};
ghost use Rattle.gimli_base.specs.Offset.{answer_of};
ghost use Rattle.gimli_base.specs.Reading.{is_size};
ghost use Rattle.gimli_lists.specs.Places.{lookup_in, format_of, list_offset, raw_list_at};
ghost use Rattle.gimli_lists.specs.Places.{list_place_at};
ghost use Rattle.gimli_lists.specs.Ranges.{resolved_of};
ghost use Rattle.gimli_lists.specs.Resolved.{resolved_if_kept, located_from};
ghost use Rattle.gimli_base.specs.Sections.{addr_content};

mod debug_ranges;
mod debug_rnglists;
pub(crate) mod entry;
pub(crate) mod iter;

use crate::lists::{HasLists, ListsFormat, offset_of_list};
pub use debug_ranges::DebugRanges;
pub use debug_rnglists::DebugRngLists;
pub use entry::{RawRngListEntry, RawRngListIter};
use gimli_base::{
    DebugAddr, DebugAddrBase, DebugRngListsBase, DebugRngListsIndex, Encoding, RangeListsOffset,
    Reader, ReaderAddress, ReaderOffsetId, Result, Section, SectionId,
};
pub use iter::RngListIter;

/// The two sections of range lists, of which a unit's version says which one holds its lists.
#[derive(Clone, Copy, Debug, Default, Drop)]
pub struct RangeLists<R> {
    debug_ranges: DebugRanges<R>,
    debug_rnglists: DebugRngLists<R>,
}

impl<R: Reader> HasLists for RangeLists<R> {
    ghost lists = { λ l.
        record { old = R.view l.debug_ranges.section; new = R.view l.debug_rnglists.section } };
}

impl<R> RangeLists<R> {
    /// The lists of these sections.
    pub fn new(debug_ranges: DebugRanges<R>, debug_rnglists: DebugRngLists<R>) -> RangeLists<R>
        ensures { result ≡ record { debug_ranges = debug_ranges; debug_rnglists = debug_rnglists } }
    {
        RangeLists {
            debug_ranges,
            debug_rnglists,
        }
    }

    /// The section `.debug_ranges`.
    pub fn debug_ranges(&self) -> &DebugRanges<R>
        ensures { result.now ≡ self.now.debug_ranges }
    {
        &self.debug_ranges
    }

    /// The section `.debug_rnglists`.
    pub fn debug_rnglists(&self) -> &DebugRngLists<R>
        ensures { result.now ≡ self.now.debug_rnglists }
    {
        &self.debug_rnglists
    }
}

impl<R: Drop> RangeLists<R> {
    /// Takes another section for `.debug_ranges`, as that of a split file in the form before
    /// version 5.
    pub fn set_debug_ranges(&mut self, debug_ranges: DebugRanges<R>)
        ensures { self.new ≡ record self.old { debug_ranges = debug_ranges } }
    {
        self.debug_ranges = debug_ranges;
    }
}

impl<T> RangeLists<T> {
    /// The lists that are read by what `f` makes of this one's readers: of that of `.debug_ranges`
    /// first, and then of that of `.debug_rnglists`.
    #[tactic(auto, using(crate::proofs::SecondCall::second_call))]
    pub fn borrow<'a, R, F: FnMut(&'a T) -> R + Drop>(&'a self, mut f: F) -> RangeLists<R>
        requires first { TakesAt F.FnMut f self.now.debug_ranges.section }
        requires second { (old : R) (mid : F)
            → CalledAt F.FnMut f self.now.debug_ranges.section old mid
            → TakesAt F.FnMut mid self.now.debug_rnglists.section }
        ensures { (mid : F) × (last : F)
            × CalledAt F.FnMut f self.now.debug_ranges.section result.debug_ranges.section mid
            × CalledAt F.FnMut mid self.now.debug_rnglists.section result.debug_rnglists.section
            last }
    {
        let old = f(&self.debug_ranges.section);
        let new = f(&self.debug_rnglists.section);
        RangeLists {
            debug_ranges: DebugRanges { section: old },
            debug_rnglists: DebugRngLists { section: new },
        }
    }
}

impl<R: Reader> RangeLists<R> {
    /// The lists of sections of the same bytes.
    pub fn copy(&self) -> Self
        ensures { ⟦<RangeLists<R> as HasLists>⟧.lists result
            ≡ ⟦<RangeLists<R> as HasLists>⟧.lists self.now }
    {
        RangeLists {
            debug_ranges: self.debug_ranges.copy(),
            debug_rnglists: self.debug_rnglists.copy(),
        }
    }

    /// The entries, as they are written, of the list at an offset of the section in which a unit
    /// with this encoding has its lists: `.debug_ranges` up to version 4, and `.debug_rnglists`
    /// since version 5. No entry is read yet. Refusal: `UnexpectedEof`, where the offset lies after
    /// the section's end, with the section's first place.
    #[tactic(auto, unfolding(crate::specs::Places::raw_list_at))]
    pub fn raw_ranges(
        &self,
        offset: RangeListsOffset<R::Offset>,
        unit_encoding: Encoding,
    ) -> Result<RawRngListIter<R>>
        ensures { result ≡ raw_list_at (format_of unit_encoding.version) (R.Offset.number offset.0)
            unit_encoding (⟦<RangeLists<R> as HasLists>⟧.lists self.now) }
    {
        let (mut input, format) = if unit_encoding.version <= 4 {
            (self.debug_ranges.section.copy(), ListsFormat::Bare)
        } else {
            (self.debug_rnglists.section.copy(), ListsFormat::Coded)
        };
        input.skip(offset.0)?;
        Ok(RawRngListIter::new(input, unit_encoding, format))
    }

    /// The ranges of the list at an offset of the section in which a unit with this encoding has
    /// its lists, as for `raw_ranges`. No entry is read yet.
    ///
    /// Offsets count from `base_address` on, which is the unit's `DW_AT_low_pc`, until an entry
    /// gives another base. Addresses that are named by their index are those of the table that
    /// begins at `debug_addr_base` in `debug_addr`. The encoding's size of addresses has to be 1,
    /// 2, 4 or 8. Refusal: `UnexpectedEof`, where the offset lies after the section's end, with
    /// the section's first place.
    #[tactic(auto, unfolding(crate::specs::Places::list_place_at))]
    pub fn ranges(
        &self,
        offset: RangeListsOffset<R::Offset>,
        unit_encoding: Encoding,
        base_address: u64,
        debug_addr: &DebugAddr<R>,
        debug_addr_base: DebugAddrBase<R::Offset>,
    ) -> Result<RngListIter<R>>
        requires { IsTrue (is_size unit_encoding.address_size) }
        ensures { result ≡ list_place_at (format_of unit_encoding.version)
            (R.Offset.number offset.0) unit_encoding base_address
            (addr_content R.view debug_addr.now)
            (R.Offset.number debug_addr_base.0) (⟦<RangeLists<R> as HasLists>⟧.lists self.now) }
    {
        let raw = self.raw_ranges(offset, unit_encoding)?;
        Ok(RngListIter::new(raw, base_address, debug_addr.copy(), debug_addr_base))
    }

    /// The offset in `.debug_rnglists` of the list at an index of the table of offsets that begins
    /// at `base`, which is a unit's `DW_AT_rnglists_base`.
    ///
    /// The offsets in the table count from `base`. Whether the list lies in the section is not
    /// looked at.
    ///
    /// Refusals, of the first step that has one: `UnexpectedEof`, where the base lies after the
    /// section's end; `UnsupportedOffset`, where the number of bytes before the index does not fit
    /// the reader's offsets; `UnexpectedEof`, where the offset in the table would not end in the
    /// section; `UnsupportedOffset`, where that offset, or its sum with the base, does not fit.
    pub fn get_offset(
        &self,
        unit_encoding: Encoding,
        base: DebugRngListsBase<R::Offset>,
        index: DebugRngListsIndex<R::Offset>,
    ) -> Result<RangeListsOffset<R::Offset>>
        ensures { answer_of (λ o. R.Offset.number o.0) result
            ≡ list_offset R.Offset.limit unit_encoding.format (R.Offset.number base.0)
            (R.Offset.number index.0) (⟦<RangeLists<R> as HasLists>⟧.lists self.now).new }
    {
        let section = &self.debug_rnglists.section;
        let offset = offset_of_list(section, unit_encoding.format, base.0, index.0)?;
        Ok(RangeListsOffset(offset))
    }

    /// The section, and the number of its bytes before a place, where the place is one of its bytes
    /// or its end; `.debug_ranges` is asked first. None where the place lies in neither section.
    pub fn lookup_offset_id(&self, id: ReaderOffsetId) -> Option<(SectionId, R::Offset)>
        ensures { option_map (λ p. (p.0, R.Offset.number p.1)) result
            ≡ lookup_in RangesSection RngListsSection id.0
            (⟦<RangeLists<R> as HasLists>⟧.lists self.now) }
    {
        match self.debug_ranges.lookup_offset_id(id) {
            Some(found) => Some(found),
            None => self.debug_rnglists.lookup_offset_id(id),
        }
    }
}

/// A range of addresses, from its beginning up to its end, which is no part of it (DWARF 5,
/// 2.17.3).
///
/// Ranges are ordered by their beginnings, and those that begin alike by their ends.
#[derive(Clone, Copy, Debug, PartialEq, Eq, PartialOrd, Ord, Hash)]
pub struct Range {
    /// The first address.
    pub begin: u64,
    /// The address after the last.
    pub end: u64,
}

impl Range {
    // Makes the range of two offsets one of addresses, by adding the base address to both. Each sum
    // keeps its lowest `address_size` bytes. The size has to be 1, 2, 4 or 8.
    #[inline]
    fn add_base_address(&mut self, base_address: u64, address_size: u8)
        requires { IsTrue (is_size address_size) }
        ensures { self.new
            ≡ record {
              begin = wrapped_sum address_size base_address self.old.begin;
              end = wrapped_sum address_size base_address self.old.end;
            } }
    {
        self.begin = base_address.wrapping_add_sized(self.begin, address_size);
        self.end = base_address.wrapping_add_sized(self.end, address_size);
    }

    // The range of addresses, if it begins below the least address that stands for none, which is
    // all ones less one, and below its end; else none. The size has to be 1, 2, 4 or 8.
    #[inline]
    fn if_kept(self, address_size: u8) -> Option<Range>
        requires { IsTrue (is_size address_size) }
        ensures { option_map resolved_of result
            ≡ resolved_if_kept address_size self.begin self.end tt }
    {
        if self.begin >= u64::min_tombstone(address_size) || self.begin >= self.end {
            None
        } else {
            Some(self)
        }
    }

    // The range of two offsets from a base address on, as `add_base_address` makes it and if
    // `if_kept` keeps it; none where the base address itself stands for none. The size has to be 1,
    // 2, 4 or 8.
    #[inline]
    fn kept_from(self, base_address: u64, address_size: u8) -> Option<Range>
        requires { IsTrue (is_size address_size) }
        ensures { option_map resolved_of result
            ≡ located_from address_size base_address self.begin self.end tt }
    {
        if base_address >= u64::min_tombstone(address_size) {
            return None;
        }
        let mut range = self;
        range.add_base_address(base_address, address_size);
        range.if_kept(address_size)
    }
}
