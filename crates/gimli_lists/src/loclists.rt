//! Lists of locations, in `.debug_loc` up to version 4, and in `.debug_loclists` since version 5.

ghost use Rattle.std.specs.Prelude.{◌≡◌, true, false, IsTrue};
ghost use Rattle.std.specs.Fn.{TakesAt, CalledAt};
ghost use Rattle.std.specs.Option.{option_map};
ghost use Rattle.gimli_base.specs.declared.common.SectionId.TheVariants.{DebugLoc as LocSection};
ghost use Rattle.gimli_base.specs.declared.common.SectionId.TheVariants.{DebugLocLists as LocListsSection};
ghost use Rattle.gimli_base.specs.Offset.{answer_of};
ghost use Rattle.gimli_base.specs.Reading.{is_size};
ghost use Rattle.gimli_lists.specs.Locations.{location_format, location_of};
ghost use Rattle.gimli_lists.specs.Places.{lookup_in, list_offset, raw_list_at, list_place_at};
ghost use Rattle.gimli_base.specs.Sections.{addr_content};

mod debug_loc;
mod debug_loclists;
mod entry;
mod iter;

use crate::lists::{HasLists, ListsFormat, offset_of_list};
use crate::rnglists::Range;
pub use debug_loc::DebugLoc;
pub use debug_loclists::DebugLocLists;
pub use entry::{RawLocListEntry, RawLocListIter};
use gimli_base::{
    DebugAddr, DebugAddrBase, DebugLocListsBase, DebugLocListsIndex, Encoding, Expression,
    LocationListsOffset, Reader, ReaderOffsetId, Result, Section, SectionId,
};
pub use iter::LocListIter;

/// The two sections of location lists, of which a unit's version says which one holds its lists.
#[derive(Clone, Copy, Debug, Default, Drop)]
pub struct LocationLists<R> {
    debug_loc: DebugLoc<R>,
    debug_loclists: DebugLocLists<R>,
}

impl<R: Reader> HasLists for LocationLists<R> {
    ghost lists = { λ l.
        record { old = R.view l.debug_loc.section; new = R.view l.debug_loclists.section } };
}

impl<R> LocationLists<R> {
    /// The lists of these sections.
    pub fn new(debug_loc: DebugLoc<R>, debug_loclists: DebugLocLists<R>) -> LocationLists<R>
        ensures { result ≡ record { debug_loc = debug_loc; debug_loclists = debug_loclists } }
    {
        LocationLists {
            debug_loc,
            debug_loclists,
        }
    }
}

impl<T> LocationLists<T> {
    /// The lists that are read by what `f` makes of this one's readers: of that of `.debug_loc`
    /// first, and then of that of `.debug_loclists`.
    #[tactic(auto, using(crate::proofs::SecondCall::second_call))]
    pub fn borrow<'a, R, F: FnMut(&'a T) -> R + Drop>(&'a self, mut f: F) -> LocationLists<R>
        requires first { TakesAt F.FnMut f self.now.debug_loc.section }
        requires second { (old : R) (mid : F)
            → CalledAt F.FnMut f self.now.debug_loc.section old mid
            → TakesAt F.FnMut mid self.now.debug_loclists.section }
        ensures { (mid : F) × (last : F)
            × CalledAt F.FnMut f self.now.debug_loc.section result.debug_loc.section mid
            × CalledAt F.FnMut mid self.now.debug_loclists.section result.debug_loclists.section
            last }
    {
        let old = f(&self.debug_loc.section);
        let new = f(&self.debug_loclists.section);
        LocationLists {
            debug_loc: DebugLoc { section: old },
            debug_loclists: DebugLocLists { section: new },
        }
    }
}

impl<R: Reader> LocationLists<R> {
    /// The lists of sections of the same bytes.
    pub fn copy(&self) -> Self
        ensures { ⟦<LocationLists<R> as HasLists>⟧.lists result
            ≡ ⟦<LocationLists<R> as HasLists>⟧.lists self.now }
    {
        LocationLists {
            debug_loc: self.debug_loc.copy(),
            debug_loclists: self.debug_loclists.copy(),
        }
    }

    // The entries, as they are written in `format`, of the list at an offset of the section in
    // which a unit with this encoding has its lists: `.debug_loc` up to version 4, and
    // `.debug_loclists` since version 5. Refusal: `UnexpectedEof`, where the offset lies after the
    // section's end.
    #[tactic(auto, unfolding(crate::specs::Places::raw_list_at))]
    fn raw_list(
        &self,
        offset: LocationListsOffset<R::Offset>,
        unit_encoding: Encoding,
        format: ListsFormat,
    ) -> Result<RawLocListIter<R>>
        ensures { result ≡ raw_list_at format (R.Offset.number offset.0) unit_encoding
            (⟦<LocationLists<R> as HasLists>⟧.lists self.now) }
    {
        let mut input = if unit_encoding.version <= 4 {
            self.debug_loc.section.copy()
        } else {
            self.debug_loclists.section.copy()
        };
        input.skip(offset.0)?;
        Ok(RawLocListIter::new(input, unit_encoding, format))
    }

    /// The entries, as they are written, of the list at an offset of the section in which a unit
    /// with this encoding has its lists: `.debug_loc` up to version 4, in pairs of addresses, and
    /// `.debug_loclists` since version 5, with codes. No entry is read yet. Refusal:
    /// `UnexpectedEof`, where the offset lies after the section's end, with the section's first
    /// place.
    pub fn raw_locations(
        &self,
        offset: LocationListsOffset<R::Offset>,
        unit_encoding: Encoding,
    ) -> Result<RawLocListIter<R>>
        ensures { result ≡ raw_list_at (location_format false unit_encoding.version)
            (R.Offset.number offset.0) unit_encoding
            (⟦<LocationLists<R> as HasLists>⟧.lists self.now) }
    {
        let format = if unit_encoding.version <= 4 {
            ListsFormat::Bare
        } else {
            ListsFormat::Coded
        };
        self.raw_list(offset, unit_encoding, format)
    }

    /// As `raw_locations`, of sections of a split file, whose lists have codes in every version: up
    /// to version 4 they lie in `.debug_loc` with the codes of version 5, but the length of an
    /// expression has 2 bytes, and that of a range from an indexed address 4. That is a GNU
    /// extension, which no version of DWARF defines. Refusal: `UnexpectedEof`, where the offset
    /// lies after the section's end, with the section's first place.
    pub fn raw_locations_dwo(
        &self,
        offset: LocationListsOffset<R::Offset>,
        unit_encoding: Encoding,
    ) -> Result<RawLocListIter<R>>
        ensures { result ≡ raw_list_at (location_format true unit_encoding.version)
            (R.Offset.number offset.0) unit_encoding
            (⟦<LocationLists<R> as HasLists>⟧.lists self.now) }
    {
        self.raw_list(offset, unit_encoding, ListsFormat::Coded)
    }

    /// The locations of the list at an offset of the section in which a unit with this encoding has
    /// its lists, as for `raw_locations`. No entry is read yet.
    ///
    /// Offsets count from `base_address` on, which is the unit's `DW_AT_low_pc`, until an entry
    /// gives another base. Addresses that are named by their index are those of the table that
    /// begins at `debug_addr_base` in `debug_addr`. The encoding's size of addresses has to be 1,
    /// 2, 4 or 8. Refusal: `UnexpectedEof`, where the offset lies after the section's end, with
    /// the section's first place.
    #[tactic(auto, unfolding(crate::specs::Places::list_place_at))]
    pub fn locations(
        &self,
        offset: LocationListsOffset<R::Offset>,
        unit_encoding: Encoding,
        base_address: u64,
        debug_addr: &DebugAddr<R>,
        debug_addr_base: DebugAddrBase<R::Offset>,
    ) -> Result<LocListIter<R>>
        requires { IsTrue (is_size unit_encoding.address_size) }
        ensures { result ≡ list_place_at (location_format false unit_encoding.version)
            (R.Offset.number offset.0) unit_encoding base_address
            (addr_content R.view debug_addr.now)
            (R.Offset.number debug_addr_base.0) (⟦<LocationLists<R> as HasLists>⟧.lists self.now) }
    {
        let raw = self.raw_locations(offset, unit_encoding)?;
        Ok(LocListIter::new(raw, base_address, debug_addr.copy(), debug_addr_base))
    }

    /// As `locations`, of sections of a split file, whose lists have codes in every version, as
    /// `raw_locations_dwo` says. Refusal: `UnexpectedEof`, where the offset lies after the
    /// section's end, with the section's first place.
    #[tactic(auto, unfolding(crate::specs::Places::list_place_at))]
    pub fn locations_dwo(
        &self,
        offset: LocationListsOffset<R::Offset>,
        unit_encoding: Encoding,
        base_address: u64,
        debug_addr: &DebugAddr<R>,
        debug_addr_base: DebugAddrBase<R::Offset>,
    ) -> Result<LocListIter<R>>
        requires { IsTrue (is_size unit_encoding.address_size) }
        ensures { result ≡ list_place_at (location_format true unit_encoding.version)
            (R.Offset.number offset.0) unit_encoding base_address
            (addr_content R.view debug_addr.now)
            (R.Offset.number debug_addr_base.0) (⟦<LocationLists<R> as HasLists>⟧.lists self.now) }
    {
        let raw = self.raw_locations_dwo(offset, unit_encoding)?;
        Ok(LocListIter::new(raw, base_address, debug_addr.copy(), debug_addr_base))
    }

    /// The offset in `.debug_loclists` of the list at an index of the table of offsets that begins
    /// at `base`, which is a unit's `DW_AT_loclists_base`.
    ///
    /// The offsets in the table count from `base`. Whether the list lies in the section is not
    /// looked at.
    ///
    /// Refusals, of the first step that has one: `UnexpectedEof`, where the base lies after the
    /// section's end; `UnsupportedOffset`, where the number of bytes before the index does not fit
    /// the reader's offsets; `UnexpectedEof`, where the offset in the table would not end in the
    /// section; `UnsupportedOffset`, where that offset, or its sum with the base, does not fit.
    pub fn get_offset(
        &self,
        unit_encoding: Encoding,
        base: DebugLocListsBase<R::Offset>,
        index: DebugLocListsIndex<R::Offset>,
    ) -> Result<LocationListsOffset<R::Offset>>
        ensures { answer_of (λ o. R.Offset.number o.0) result
            ≡ list_offset R.Offset.limit unit_encoding.format (R.Offset.number base.0)
            (R.Offset.number index.0) (⟦<LocationLists<R> as HasLists>⟧.lists self.now).new }
    {
        let section = &self.debug_loclists.section;
        let offset = offset_of_list(section, unit_encoding.format, base.0, index.0)?;
        Ok(LocationListsOffset(offset))
    }

    /// The section, and the number of its bytes before a place, where the place is one of its bytes
    /// or its end; `.debug_loc` is asked first. None where the place lies in neither section.
    pub fn lookup_offset_id(&self, id: ReaderOffsetId) -> Option<(SectionId, R::Offset)>
        ensures { option_map (λ p. (p.0, R.Offset.number p.1)) result
            ≡ lookup_in LocSection LocListsSection id.0
            (⟦<LocationLists<R> as HasLists>⟧.lists self.now) }
    {
        match self.debug_loc.lookup_offset_id(id) {
            Some(found) => Some(found),
            None => self.debug_loclists.lookup_offset_id(id),
        }
    }
}

/// A range of addresses, and the expression that says where an object is while they are executed
/// (DWARF 5, 2.6.2).
#[derive(Clone, Copy, Debug, PartialEq, Eq, Hash, Drop)]
pub struct LocationListEntry<R> {
    /// The addresses.
    pub range: Range,
    /// The expression.
    pub expr: Expression<R>,
}

impl<R: Reader> LocationListEntry<R> {
    /// The same addresses, and an expression of the same bytes at the same place.
    pub fn copy(&self) -> LocationListEntry<R>
        ensures { location_of R.view result ≡ location_of R.view self.now }
    {
        LocationListEntry {
            range: self.range,
            expr: self.expr.copy(),
        }
    }
}
