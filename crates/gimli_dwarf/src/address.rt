//! Whether a unit holds an address.

ghost use Rattle.std.specs.Prelude.{◌≡◌, ◌==◌, false};
ghost use Rattle.std.specs.Option.{option_map};
ghost use Rattle.gimli_base.specs.Offset.{answer_of};
ghost use Rattle.gimli_base.specs.Sections.{addr_content};
ghost use Rattle.gimli_base.specs.Table.{codes_of};
ghost use Rattle.gimli_lists.specs.Ranges.{ranges_ahead};
ghost use Rattle.gimli_lists.specs.Sections.{aranges_content};
ghost use Rattle.gimli_units.specs.Entry.{entry_of};
ghost use Rattle.gimli_units.specs.Unit.{header_size, range_from, takes_memory_in};
ghost use Rattle.gimli_units.specs.UnitHeld.{unit_view};
ghost use Rattle.gimli_units.specs.Value.{map_value};
ghost use Rattle.gimli_dwarf.specs.Addresses.{held_in, span_holds, end_of, end_in, address_in};
ghost use Rattle.gimli_dwarf.specs.Addresses.{list_in, raw_value_named, value_named};
ghost use Rattle.gimli_dwarf.specs.Addresses.{root_holds, sets_hold, sets_of_unit, unit_holds};
ghost use Rattle.gimli_dwarf.specs.Bases.{bases_view, UnlessMemoryRead};

use crate::values::address_at;
use crate::{DwarfError, DwarfResult, DwarfSections, UnitBases};
use gimli_base::{
    Abbreviations, DW_AT_high_pc, DW_AT_low_pc, DW_AT_ranges, DebugAddr, DwAt, DwarfFileType,
    Reader, ReaderOffset, Result,
};
use gimli_lists::{ArangeHeader, DebugAranges, HasArangeSet, HasLists, RangeLists, RngListIter};
use gimli_units::{AttributeValue, DebugInfoOffset, DebuggingInformationEntry, UnitHeader};
use std::alloc::Allocator;

// Where a span of addresses ends, as DW_AT_high_pc says.
#[derive(Clone, Copy)]
enum End {
    // Before this address.
    Address(u64),
    // After so many bytes.
    Length(u64),
}

impl<Offset: ReaderOffset> UnitBases<Offset> {
    /// Whether the unit that has these bases holds an address (DWARF 5, 2.17 and 6.1.2).
    ///
    /// Where sets of `.debug_aranges` are the unit's, their ranges alone say so: that section need
    /// not have each unit. Any other unit holds the addresses of its root: those of the list of its
    /// `DW_AT_ranges`, or else those from `DW_AT_low_pc` up to `DW_AT_high_pc`, which is no part of
    /// them. The sets name units of a program's `.debug_info` alone. Who wants the addresses of a
    /// split unit asks its skeleton: its own root has none.
    ///
    /// Refusals: those of `ArangeHeaderIter::next`, where no set of the unit before that header
    /// holds the address. Of a unit without a set then those of `UnitHeader::entry`, of the root,
    /// and those of `ranges`; then those of a range of the list, where none before it holds the
    /// address, or without a list those of `address_of`.
    pub fn unit_holds<R: Reader<Offset = Offset>, A: Allocator + Copy>(
        &self,
        alloc: A,
        unit: &UnitHeader<R>,
        abbreviations: &Abbreviations<A>,
        aranges: &DebugAranges<R>,
        sections: &DwarfSections<R>,
        address: u64,
    ) -> DwarfResult<bool>
        ensures value { let s = sections.now in
            UnlessMemoryRead result (result
            ≡ unit_holds address Offset.limit (bases_view Offset.number self.now)
            (addr_content R.view s.debug_addr) (⟦<RangeLists<R> as HasLists>⟧.lists s.ranges)
            (aranges_content R.view aranges.now) (unit_view unit.now) (codes_of abbreviations.now)) }
        ensures without_memory { let s = sections.now in
            let u = unit_view unit.now in
            takes_memory_in (codes_of abbreviations.now) (range_from u (header_size u)) ≡ false
            → result
            ≡ unit_holds address Offset.limit (bases_view Offset.number self.now)
            (addr_content R.view s.debug_addr) (⟦<RangeLists<R> as HasLists>⟧.lists s.ranges)
            (aranges_content R.view aranges.now) u (codes_of abbreviations.now) }
    {
        match sets_of_unit(self.file_type, unit, aranges, address)? {
            Some(holds) => Ok(holds),
            None => {
                let root = unit.entry(alloc, abbreviations, unit.root_offset())?;
                self.root_holds(&root, sections, address)
            }
        }
    }

    // Whether the root of the unit has a range that holds an address: one of the list of its
    // `DW_AT_ranges`, or where that names no list the one from its `DW_AT_low_pc` up to its
    // `DW_AT_high_pc`. False where it has not both.
    //
    // Refusals: those of `list_in`; then those of `held_in`, or without a list those of
    // `address_in` and of `end_in`.
    fn root_holds<R: Reader<Offset = Offset>, A: Allocator>(
        &self,
        root: &DebuggingInformationEntry<R, A>,
        sections: &DwarfSections<R>,
        address: u64,
    ) -> DwarfResult<bool>
        ensures { let s = sections.now in
            let attributes = (entry_of R.view Offset.number root.now).attributes in
            result
            ≡ root_holds address Offset.limit (bases_view Offset.number self.now)
            (addr_content R.view s.debug_addr) (⟦<RangeLists<R> as HasLists>⟧.lists s.ranges)
            attributes }
    {
        if let Some(mut ranges) = self.list_in(&value_named(root, DW_AT_ranges), sections)? {
            return held_in(&mut ranges, address);
        }
        let low = self.address_in(&raw_value_named(root, DW_AT_low_pc), &sections.debug_addr)?;
        let end = self.end_in(&raw_value_named(root, DW_AT_high_pc), &sections.debug_addr)?;
        Ok(span_holds(low, end, address))
    }

    // The ranges of the list that a value names; none without a value, and of one that names no
    // list. Refusals: those of `UnitBases::ranges`.
    fn list_in<R: Reader<Offset = Offset>>(
        &self,
        value: &Option<AttributeValue<R>>,
        sections: &DwarfSections<R>,
    ) -> DwarfResult<Option<RngListIter<R>>>
        ensures { let s = sections.now in
            result
            ≡ list_in Offset.limit (bases_view Offset.number self.now)
            (addr_content R.view s.debug_addr) (⟦<RangeLists<R> as HasLists>⟧.lists s.ranges)
            (option_map (map_value R.view Offset.number) value.now) }
    {
        match value {
            Some(value) => self.ranges(value, sections),
            None => Ok(None),
        }
    }

    // The address that a value is; none without a value, and of one that is no address. Refusals:
    // those of `UnitBases::address_of`.
    fn address_in<R: Reader<Offset = Offset>>(
        &self,
        value: &Option<AttributeValue<R>>,
        debug_addr: &DebugAddr<R>,
    ) -> DwarfResult<Option<u64>>
        ensures { result
            ≡ address_in Offset.limit (bases_view Offset.number self.now)
            (addr_content R.view debug_addr.now)
            (option_map (map_value R.view Offset.number) value.now) }
    {
        match value {
            Some(value) => self.address_of(value, debug_addr),
            None => Ok(None),
        }
    }

    // Where a span ends, by the value of `DW_AT_high_pc`: before an address, or after a number of
    // bytes; none without a value, and of one that is neither. Refusals: those of
    // `UnitBases::address_of`.
    fn end_in<R: Reader<Offset = Offset>>(
        &self,
        value: &Option<AttributeValue<R>>,
        debug_addr: &DebugAddr<R>,
    ) -> DwarfResult<Option<End>>
        ensures { result
            ≡ end_in Offset.limit (bases_view Offset.number self.now)
            (addr_content R.view debug_addr.now)
            (option_map (map_value R.view Offset.number) value.now) }
    {
        match value {
            Some(value) => {
                let address = self.address_of(value, debug_addr)?;
                Ok(end_of(address, value.udata_value()))
            }
            None => Ok(None),
        }
    }
}

// The value of the first attribute of a name, as its form shows it; none without such an attribute.
// References to other entries are not followed.
fn raw_value_named<R: Reader, A: Allocator>(
    root: &DebuggingInformationEntry<R, A>,
    name: DwAt,
) -> Option<AttributeValue<R>>
    ensures { let attributes = (entry_of R.view R.Offset.number root.now).attributes in
        option_map (map_value R.view R.Offset.number) result ≡ raw_value_named name.0 attributes }
{
    root.attr_value_raw(name)
}

// The value of the first attribute of a name, as that name makes it; none without such an
// attribute. References to other entries are not followed.
fn value_named<R: Reader, A: Allocator>(
    root: &DebuggingInformationEntry<R, A>,
    name: DwAt,
) -> Option<AttributeValue<R>>
    ensures { let attributes = (entry_of R.view R.Offset.number root.now).attributes in
        option_map (map_value R.view R.Offset.number) result ≡ value_named name.0 attributes }
{
    root.attr_value(name)
}

// Where a span ends by a value, of which these are the address and the number that it is: before
// the address, or without one after that many bytes; none where it is neither.
fn end_of(address: Option<u64>, length: Option<u64>) -> Option<End>
    ensures { result ≡ end_of address length }
{
    match (address, length) {
        (Some(address), _) => Some(End::Address(address)),
        (None, Some(length)) => Some(End::Length(length)),
        (None, None) => None,
    }
}

// Whether an address lies in the span from `low` up to `end`, which is no part of it; false where
// one of both is missing. A length never wraps: one that reaches past the greatest address holds
// every address from `low` on.
fn span_holds(low: Option<u64>, end: Option<End>, address: u64) -> bool
    ensures { result ≡ span_holds low end address }
{
    match (low, end) {
        (Some(low), Some(End::Address(end))) => low <= address && address < end,
        (Some(low), Some(End::Length(length))) => low <= address && address - low < length,
        _ => false,
    }
}

// Whether one of the ranges that are left in a list holds an address. Refusals: those of
// `RngListIter::next`, where no range before holds the address. The list is left anywhere.
fn held_in<R: Reader>(ranges: &mut RngListIter<R>, address: u64) -> DwarfResult<bool>
    ensures { result ≡ held_in address (ranges_ahead R.Offset.limit ranges.old) }
{
    'each: loop {
        let Some(range) = ranges.next()? else {
            return Ok(false);
        };
        if range.begin <= address && address < range.end {
            return Ok(true);
        }
    }
}

// Whether the sets of a unit have a range that holds an address, as `sets_hold`; none of a split
// unit, and of one that does not lie in `.debug_info`, which no set names.
fn sets_of_unit<R: Reader>(
    file_type: DwarfFileType,
    unit: &UnitHeader<R>,
    aranges: &DebugAranges<R>,
    address: u64,
) -> Result<Option<bool>>
    ensures { let section = aranges_content R.view aranges.now in
        result ≡ sets_of_unit address R.Offset.limit file_type (unit_view unit.now) section }
{
    match (file_type, unit.debug_info_offset()) {
        (DwarfFileType::Main, Some(offset)) => sets_hold(aranges, offset, address),
        _ => Ok(None),
    }
}

// Whether a set of the unit at the offset `unit` of `.debug_info` has a range that holds an
// address. `Some(false)` where it has sets and none does; none where no set is the unit's.
// Refusals: those of `ArangeHeaderIter::next`, where no set of the unit before that header holds
// the address.
fn sets_hold<R: Reader>(
    aranges: &DebugAranges<R>,
    unit: DebugInfoOffset<R::Offset>,
    address: u64,
) -> Result<Option<bool>>
    ensures { let section = aranges_content R.view aranges.now in
        result ≡ sets_hold address R.Offset.limit (R.Offset.number unit.0) section }
{
    let mut is_named = false;
    let mut sets = aranges.headers();
    'sets: loop {
        match sets.next() {
            Ok(Some(set)) => {
                if is_set_of(&set, unit) {
                    if set.holds(address) {
                        return Ok(Some(true));
                    }
                    is_named = true;
                }
            }
            Ok(None) => return Ok(if is_named { Some(false) } else { None }),
            Err(error) => return Err(error),
        }
    }
}

// Whether the ranges of a set belong to the unit at an offset of `.debug_info`.
fn is_set_of<R: Reader>(set: &ArangeHeader<R>, unit: DebugInfoOffset<R::Offset>) -> bool
    ensures { let info_offset = (⟦<ArangeHeader<R> as HasArangeSet>⟧.set set.now).info_offset in
        result ≡ (info_offset == R.Offset.number unit.0) }
{
    set.debug_info_offset().0.into_u64() == unit.0.into_u64()
}
