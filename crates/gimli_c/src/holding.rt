//! The unit that holds an offset, and whether a unit holds an address.

ghost use Rattle.std.specs.Prelude.{◌≡◌, ◌^◌};
ghost use Rattle.gimli_base.specs.Sections.{abbrev_content, addr_content};
ghost use Rattle.gimli_lists.specs.Sections.{aranges_content};
ghost use Rattle.gimli_headers.specs.Units.{header_at};
ghost use Rattle.gimli_c.specs.Bases.{TakeNoMemory};
ghost use Rattle.gimli_c.specs.Holding.{held_of_unit, held_outcome};
ghost use Rattle.gimli_c.specs.Status.{memory_refused};
ghost use Rattle.gimli_base.specs.declared.common.SectionId.TheVariants.{DebugInfo as InfoSection};
ghost use Rattle.gimli_headers.specs.Sections.{info_content};
ghost use Rattle.gimli_dwarf.specs.Bases.{UnlessMemoryRead};
ghost use Rattle.gimli_dwarf.specs.Holding.{unit_holding};
ghost use Rattle.gimli_c.specs.Units.{found_outcome};

use crate::bases::{GimliBases, bases_in};
use crate::status::{END, MORE, refusal_status, unresolved};
use crate::unit::{GimliUnit, numbers_of};
use gimli_base::{DebugAbbrev, Reader, Section};
use gimli_dwarf::{DwarfResult, DwarfSections, unit_holding};
use gimli_headers::DebugInfo;
use gimli_lists::{DebugAranges, HasLists, RangeLists};
use gimli_units::DebugInfoOffset;
use std::alloc::Allocator;

/// Finds the unit that holds an offset of `.debug_info`, its header included. `MORE`: `unit` is it.
/// `END`: the offset lies after the last unit. Any other is the status of the refusal of a header
/// before it. Unless it is `MORE`, `unit` is as it was.
pub(crate) fn find_holding<R: Reader>(
    debug_info: &DebugInfo<R>,
    offset: R::Offset,
    unit: &mut GimliUnit,
) -> u32
    ensures { (result, unit.new)
        ≡ found_outcome (unit_holding R.Offset.limit InfoSection (R.Offset.number offset)
        (info_content R.view debug_info.now)) unit.old }
{
    match unit_holding(debug_info, DebugInfoOffset(offset)) {
        Ok(Some(found)) => {
            *unit = numbers_of(&found, found.offset().0);
            MORE
        }
        Ok(None) => END,
        Err(error) => refusal_status(error),
    }
}

/// The sections by which a unit is judged.
#[derive(Drop)]
pub(crate) struct HoldingSections<R> {
    pub(crate) debug_info: DebugInfo<R>,
    pub(crate) debug_abbrev: DebugAbbrev<R>,
    pub(crate) aranges: DebugAranges<R>,
    pub(crate) values: DwarfSections<R>,
}

/// Whether the unit at an offset, whose bases these are, holds an address: `MORE` where it does,
/// `END` where it does not, or what was refused.
pub(crate) fn find_held<R: Reader<Offset = usize>, A: Allocator + Copy>(
    alloc: A,
    sections: &HoldingSections<R>,
    unit: usize,
    bases: &GimliBases,
    address: u64,
) -> u32
    ensures outcome { let s = sections.now in
        (result ≡ memory_refused → ⊥) →
        result
        ≡ held_outcome (held_of_unit (2 ^ 64) bases.now address
        (addr_content R.view s.values.debug_addr)
        (⟦<RangeLists<R> as HasLists>⟧.lists s.values.ranges) (aranges_content R.view s.aranges)
        (header_at (2 ^ 64) InfoSection unit (info_content R.view s.debug_info))
        (abbrev_content R.view s.debug_abbrev)) }
    ensures without_memory { let s = sections.now in
        let u = header_at (2 ^ 64) InfoSection unit (info_content R.view s.debug_info) in
        TakeNoMemory u (abbrev_content R.view s.debug_abbrev) →
        result
        ≡ held_outcome (held_of_unit (2 ^ 64) bases.now address
        (addr_content R.view s.values.debug_addr)
        (⟦<RangeLists<R> as HasLists>⟧.lists s.values.ranges) (aranges_content R.view s.aranges) u
        (abbrev_content R.view s.debug_abbrev)) }
{
    match unit_holds(alloc, sections, unit, bases, address) {
        Ok(true) => MORE,
        Ok(false) => END,
        Err(error) => unresolved(error),
    }
}

// Whether the unit at an offset of `.debug_info`, whose bases these are, holds an address. Refusals:
// those of the unit's header, of its table, and of `UnitBases::unit_holds`.
fn unit_holds<R: Reader<Offset = usize>, A: Allocator + Copy>(
    alloc: A,
    sections: &HoldingSections<R>,
    unit: usize,
    bases: &GimliBases,
    address: u64,
) -> DwarfResult<bool>
    ensures value { let s = sections.now in
        UnlessMemoryRead result (result
        ≡ held_of_unit (2 ^ 64) bases.now address (addr_content R.view s.values.debug_addr)
        (⟦<RangeLists<R> as HasLists>⟧.lists s.values.ranges) (aranges_content R.view s.aranges)
        (header_at (2 ^ 64) InfoSection unit (info_content R.view s.debug_info))
        (abbrev_content R.view s.debug_abbrev)) }
    ensures without_memory { let s = sections.now in
        let u = header_at (2 ^ 64) InfoSection unit (info_content R.view s.debug_info) in
        TakeNoMemory u (abbrev_content R.view s.debug_abbrev) →
        result
        ≡ held_of_unit (2 ^ 64) bases.now address (addr_content R.view s.values.debug_addr)
        (⟦<RangeLists<R> as HasLists>⟧.lists s.values.ranges) (aranges_content R.view s.aranges) u
        (abbrev_content R.view s.debug_abbrev) }
{
    let header = sections
        .debug_info
        .header_from_offset(DebugInfoOffset(unit))?;
    let table = header.abbreviations(alloc, &sections.debug_abbrev)?;
    let bases = bases_in(bases, header.encoding());
    let (aranges, values) = (&sections.aranges, &sections.values);
    bases.unit_holds(alloc, &header, &table, aranges, values, address)
}
