//! The lists of ranges and of locations that values name.

ghost use Rattle.std.specs.Prelude.{◌≡◌, unwrap_or, IsTrue, OnOk};
ghost use Rattle.std.specs.Option.{option_map};
ghost use Rattle.gimli_base.specs.Reading.{is_size};
ghost use Rattle.gimli_base.specs.Sections.{addr_content};
ghost use Rattle.gimli_lists.specs.Locations.{location_format};
ghost use Rattle.gimli_lists.specs.Places.{format_of};
ghost use Rattle.gimli_units.specs.Value.{map_value};
ghost use Rattle.gimli_dwarf.specs.Bases.{bases_view, resolved_as};
ghost use Rattle.gimli_dwarf.specs.Lists.{is_split, ranges_start, range_list_at, addresses_of};
ghost use Rattle.gimli_dwarf.specs.Lists.{list_base, list_from};
ghost use Rattle.gimli_dwarf.specs.Lists.{range_list_value, location_list_value};
ghost use Rattle.gimli_dwarf.specs.Lists.{ranges_of_value, locations_of_value};

use crate::{DwarfError, DwarfResult, DwarfSections, UnitBases};
use gimli_base::{
    DW_AT_GNU_ranges_base, DW_AT_loclists_base, DW_AT_low_pc, DW_AT_rnglists_base, DebugAddr,
    DebugAddrBase, DwarfFileType, Error, LocationListsOffset, RangeListsOffset,
    RawRangeListsOffset, Reader, ReaderOffset, Section,
};
use gimli_lists::{HasLists, LocListIter, LocationLists, RangeLists, RngListIter};
use gimli_units::AttributeValue;

impl<Offset: ReaderOffset> UnitBases<Offset> {
    /// Where the range list begins in its section that a value of the unit names, as
    /// `Attribute::value` gives it: an offset, or an index in the unit's table of
    /// `.debug_rnglists`; none of any other value. An offset counts from the section's beginning,
    /// or in a split unit before version 5 from `gnu_ranges_base`. It may lie after the section's
    /// end.
    ///
    /// Refusals, of an index: `MissingBase` of `DW_AT_rnglists_base`, then those of
    /// `RangeLists::get_offset`; of an offset: `MissingBase` of `DW_AT_GNU_ranges_base`, then
    /// `UnsupportedOffset` of a sum that does not fit.
    pub fn ranges_offset<R: Reader<Offset = Offset>>(
        &self,
        value: &AttributeValue<R>,
        ranges: &RangeLists<R>,
    ) -> DwarfResult<Option<RangeListsOffset<Offset>>>
        ensures { resolved_as (option_map (λ o. Offset.number o.0)) result
            ≡ range_list_value Offset.limit (bases_view Offset.number self.now)
            (⟦<RangeLists<R> as HasLists>⟧.lists ranges.now).new
            (map_value R.view Offset.number value.now) }
    {
        match value {
            AttributeValue::RangeListsRef(offset) => Ok(Some(self.range_list_at(*offset)?)),
            AttributeValue::DebugRngListsIndex(index) => {
                let Some(base) = self.rnglists_base else {
                    return Err(DwarfError::MissingBase(DW_AT_rnglists_base));
                };
                Ok(Some(ranges.get_offset(self.encoding, base, *index)?))
            }
            _ => Ok(None),
        }
    }

    // The offset in its section of the range list at an offset that a value has, which counts from
    // `ranges_start`. Refusals: `MissingBase` of `DW_AT_GNU_ranges_base`, where there is no such
    // start; `UnsupportedOffset` of a sum that does not fit.
    fn range_list_at(
        &self,
        offset: RawRangeListsOffset<Offset>,
    ) -> DwarfResult<RangeListsOffset<Offset>>
        ensures { resolved_as (λ o. Offset.number o.0) result
            ≡ range_list_at Offset.limit (bases_view Offset.number self.now)
            (Offset.number offset.0) }
    {
        let Some(start) = self.ranges_start() else {
            return Err(DwarfError::MissingBase(DW_AT_GNU_ranges_base));
        };
        match start.checked_add(offset.0) {
            Some(sum) => Ok(RangeListsOffset(sum)),
            None => Err(DwarfError::Read(Error::UnsupportedOffset)),
        }
    }

    // What the offsets of range lists count from: `gnu_ranges_base`, which may be none, in a file
    // of the kind `Dwo` before version 5; or else 0, the section's beginning.
    fn ranges_start(&self) -> Option<Offset>
        ensures { let b = bases_view Offset.number self.now in
            option_map Offset.number result
            ≡ ranges_start b.file_type b.encoding.version b.gnu_ranges_base }
    {
        let encoding = self.encoding;
        match self.file_type {
            DwarfFileType::Main => Some(Offset::from_u8(0)),
            DwarfFileType::Dwo => {
                if encoding.version >= 5 {
                    return Some(Offset::from_u8(0));
                }
                match self.gnu_ranges_base {
                    Some(base) => Some(base.0),
                    None => None,
                }
            }
        }
    }

    /// Where the location list begins in its section that a value of the unit names, as
    /// `Attribute::value` gives it: an offset, or an index in the unit's table of
    /// `.debug_loclists`; none of any other value. An offset counts from the section's beginning,
    /// and may lie after its end.
    ///
    /// Refusals, of an index alone: `MissingBase` of `DW_AT_loclists_base`; then those of
    /// `LocationLists::get_offset`.
    pub fn locations_offset<R: Reader<Offset = Offset>>(
        &self,
        value: &AttributeValue<R>,
        locations: &LocationLists<R>,
    ) -> DwarfResult<Option<LocationListsOffset<Offset>>>
        ensures { resolved_as (option_map (λ o. Offset.number o.0)) result
            ≡ location_list_value Offset.limit (bases_view Offset.number self.now)
            (⟦<LocationLists<R> as HasLists>⟧.lists locations.now).new
            (map_value R.view Offset.number value.now) }
    {
        match value {
            AttributeValue::LocationListsRef(offset) => Ok(Some(*offset)),
            AttributeValue::DebugLocListsIndex(index) => {
                let Some(base) = self.loclists_base else {
                    return Err(DwarfError::MissingBase(DW_AT_loclists_base));
                };
                Ok(Some(locations.get_offset(self.encoding, base, *index)?))
            }
            _ => Ok(None),
        }
    }

    /// The ranges of the list that a value of the unit names, as `ranges_offset` finds it; none of
    /// a value that names no list.
    ///
    /// Refusals, in this order: those of `ranges_offset`; `MissingBase` of `DW_AT_low_pc`;
    /// `UnsupportedAddressSize`, where the unit's addresses have not 1, 2, 4 or 8 bytes; those of
    /// `RangeLists::ranges`. Where the unit has no table of addresses, the list refuses each
    /// address that is named by its index, as one after the end of `.debug_addr`.
    pub fn ranges<R: Reader<Offset = Offset>>(
        &self,
        value: &AttributeValue<R>,
        sections: &DwarfSections<R>,
    ) -> DwarfResult<Option<RngListIter<R>>>
        ensures { let s = sections.now in
            result
            ≡ ranges_of_value Offset.limit (bases_view Offset.number self.now)
            (addr_content R.view s.debug_addr) (⟦<RangeLists<R> as HasLists>⟧.lists s.ranges)
            (map_value R.view Offset.number value.now) }
    {
        let Some(offset) = self.ranges_offset(value, &sections.ranges)? else {
            return Ok(None);
        };
        Ok(Some(self.ranges_from(offset, sections)?))
    }

    // The ranges of the list at an offset of the section in which the unit has its range lists.
    // Refusals: those of `list_base`; then those of `RangeLists::ranges`.
    fn ranges_from<R: Reader<Offset = Offset>>(
        &self,
        offset: RangeListsOffset<Offset>,
        sections: &DwarfSections<R>,
    ) -> DwarfResult<RngListIter<R>>
        ensures { let s = sections.now in let b = bases_view Offset.number self.now in
            result
            ≡ list_from (format_of b.encoding.version) b (addr_content R.view s.debug_addr)
            (⟦<RangeLists<R> as HasLists>⟧.lists s.ranges) (Offset.number offset.0) }
    {
        let (encoding, base) = (self.encoding, self.list_base()?);
        let addresses = self.addresses_of(&sections.debug_addr);
        let table = self.table_of();
        Ok(
            sections
                .ranges
                .ranges(offset, encoding, base, &addresses, table)?,
        )
    }

    /// The locations of the list that a value of the unit names, as `locations_offset` finds it;
    /// none of a value that names no list.
    ///
    /// Refusals, in this order: those of `locations_offset`; `MissingBase` of `DW_AT_low_pc`;
    /// `UnsupportedAddressSize`, where the unit's addresses have not 1, 2, 4 or 8 bytes; those of
    /// `LocationLists::locations`. Addresses that are named by their index are as in `ranges`.
    pub fn locations<R: Reader<Offset = Offset>>(
        &self,
        value: &AttributeValue<R>,
        sections: &DwarfSections<R>,
    ) -> DwarfResult<Option<LocListIter<R>>>
        ensures { let s = sections.now in
            result
            ≡ locations_of_value Offset.limit (bases_view Offset.number self.now)
            (addr_content R.view s.debug_addr) (⟦<LocationLists<R> as HasLists>⟧.lists s.locations)
            (map_value R.view Offset.number value.now) }
    {
        let Some(offset) = self.locations_offset(value, &sections.locations)? else {
            return Ok(None);
        };
        Ok(Some(self.locations_from(offset, sections)?))
    }

    // The locations of the list at an offset of the section in which the unit has its location
    // lists; in a file of the kind `Dwo` the list is read as one of a split file. Refusals: those
    // of `list_base`; then those of `LocationLists::locations`.
    fn locations_from<R: Reader<Offset = Offset>>(
        &self,
        offset: LocationListsOffset<Offset>,
        sections: &DwarfSections<R>,
    ) -> DwarfResult<LocListIter<R>>
        ensures { let s = sections.now in let b = bases_view Offset.number self.now in
            result
            ≡ list_from (location_format (is_split b.file_type) b.encoding.version) b
            (addr_content R.view s.debug_addr) (⟦<LocationLists<R> as HasLists>⟧.lists s.locations)
            (Offset.number offset.0) }
    {
        let (encoding, base) = (self.encoding, self.list_base()?);
        let addresses = self.addresses_of(&sections.debug_addr);
        let table = self.table_of();
        let lists = &sections.locations;
        let list = match self.file_type {
            DwarfFileType::Main => lists.locations(offset, encoding, base, &addresses, table)?,
            DwarfFileType::Dwo => {
                lists.locations_dwo(offset, encoding, base, &addresses, table)?
            }
        };
        Ok(list)
    }

    // The address from which the unit's lists count, its `low_pc`. Refusals: `MissingBase` of
    // `DW_AT_low_pc`, where it has none; `UnsupportedAddressSize`, where its addresses have not 1,
    // 2, 4 or 8 bytes.
    fn list_base(&self) -> DwarfResult<u64>
        ensures value { let b = bases_view Offset.number self.now in
            result ≡ list_base b.encoding.address_size b.low_pc }
        ensures sized { OnOk result (IsTrue (is_size self.now.encoding.address_size)) }
    {
        let encoding = self.encoding;
        match self.low_pc {
            None => Err(DwarfError::MissingBase(DW_AT_low_pc)),
            Some(low_pc) if is_size(encoding.address_size) => Ok(low_pc),
            Some(_) => {
                let size = encoding.address_size;
                Err(DwarfError::Read(Error::UnsupportedAddressSize(size)))
            }
        }
    }

    // The section in which the unit's addresses are looked up by their index: `debug_addr`, or
    // where the unit has no `addr_base` one without bytes at the place of its end, so that each
    // index is refused with that place.
    fn addresses_of<R: Reader<Offset = Offset>>(&self, debug_addr: &DebugAddr<R>) -> DebugAddr<R>
        ensures { addr_content R.view result
            ≡ addresses_of (bases_view Offset.number self.now)
            (addr_content R.view debug_addr.now) }
    {
        if self.addr_base.is_some() {
            return debug_addr.copy();
        }
        let mut none = debug_addr.reader().copy();
        none.empty();
        DebugAddr::from(none)
    }

    // Where the unit's table of addresses begins in the section of `addresses_of`: at its
    // `addr_base`, or at 0 where it has none.
    fn table_of(&self) -> DebugAddrBase<Offset>
        ensures { Offset.number result.0
            ≡ unwrap_or (bases_view Offset.number self.now).addr_base 0 }
    {
        match self.addr_base {
            Some(base) => base,
            None => DebugAddrBase(Offset::from_u8(0)),
        }
    }
}

// Whether addresses may have so many bytes: 1, 2, 4 or 8.
fn is_size(address_size: u8) -> bool
    ensures { result ≡ is_size address_size }
{
    address_size == 1 || address_size == 2 || address_size == 4 || address_size == 8
}
