use crate::samples::Part;
use crate::units::samples::{unit_of, usual};
use gimli_base::SectionId;
use gimli_units::{DebugInfoOffset, DebugTypesOffset, UnitHeader, UnitOffset, UnitSectionOffset};
use std::process::Abort;

// The sections in which no bytes give a unit.
const OTHERS: [SectionId; 8] = [
    SectionId::DebugAbbrev,
    SectionId::DebugAddr,
    SectionId::DebugAranges,
    SectionId::DebugLoc,
    SectionId::DebugLocLists,
    SectionId::DebugRanges,
    SectionId::DebugRngLists,
    SectionId::DebugStr,
];

// A unit of a section, whose length is 0x14; its entries begin at 0x0b.
fn unit_in(rt: &impl Abort, section: SectionId, offset: usize) -> UnitHeader<Part<'static>> {
    let mut parts = usual();
    parts.section = section;
    parts.offset = offset;
    unit_of(rt, parts)
}

// Tries offsets of a unit at 0x20 that is neither in `.debug_info` nor in `.debug_types`.
fn tries_of_unit(rt: &impl Abort, unit: &UnitHeader<Part<'_>>) {
    let offset = UnitOffset(0x0b);
    assert!(rt; unit.offset() == UnitSectionOffset(0x20));
    assert!(rt; offset.to_unit_section_offset(unit) == UnitSectionOffset(0x2b));
    assert!(rt; offset.to_debug_info_offset(unit) == None);
    assert!(rt; offset.to_debug_types_offset(unit) == None);
    assert!(rt; offset.is_in_bounds(unit));
}

// Tries what an offset of its section is in such a unit, and that one of another section is nothing there.
fn tries_of_section(rt: &impl Abort, unit: &UnitHeader<Part<'_>>) {
    let own = UnitSectionOffset(0x2b);
    assert!(rt; own.to_unit_offset(unit) == Some(UnitOffset(0x0b)));
    assert!(rt; own.to_debug_info_offset(unit) == None);
    assert!(rt; own.to_debug_types_offset(unit) == None);
    assert!(rt; UnitSectionOffset(0x34).to_unit_offset(unit) == None);
    let (info, types) = (DebugInfoOffset(0x2b), DebugTypesOffset(0x2b));
    assert!(rt; (info.to_unit_offset(unit), types.to_unit_offset(unit)) == (None, None));
    assert!(rt; info.to_unit_section_offset(unit) == None);
    assert!(rt; types.to_unit_section_offset(unit) == None);
}

#[test]
fn offsets_of_other_sections_are_of_neither_kind(rt: HostRuntime) {
    for section in OTHERS {
        let unit = unit_in(&rt, section, 0x20);
        assert!(rt; unit.section() == section);
        assert!(rt; (unit.debug_info_offset(), unit.debug_types_offset()) == (None, None));
        tries_of_unit(&rt, &unit);
        tries_of_section(&rt, &unit);
    }
}

// The last offset of each kind.
const LAST: UnitSectionOffset<usize> = UnitSectionOffset(usize::MAX);

const LAST_TYPES: DebugTypesOffset<usize> = DebugTypesOffset(usize::MAX);

// Tries what these are in a unit.
fn tries_last(rt: &impl Abort, unit: &UnitHeader<Part<'_>>, wanted: Option<UnitOffset<usize>>) {
    assert!(rt; LAST.to_unit_offset(unit) == wanted);
    assert!(rt; LAST_TYPES.to_unit_offset(unit) == wanted);
}

#[test]
fn reaches_the_last_offset(rt: HostRuntime) {
    // the unit ends where the offsets do
    let begin = usize::MAX - 0x13;
    let unit = unit_in(&rt, SectionId::DebugTypes, begin);
    assert!(rt; unit.offset() == UnitSectionOffset(begin));
    tries_last(&rt, &unit, Some(UnitOffset(0x13)));
    assert!(rt; UnitOffset(0x13).to_unit_section_offset(&unit) == LAST);
    assert!(rt; UnitOffset(0x13).to_debug_types_offset(&unit) == Some(LAST_TYPES));
    assert!(rt; UnitOffset(0x13).to_debug_info_offset(&unit) == None);
    // after another unit
    let unit = unit_in(&rt, SectionId::DebugTypes, 0x20);
    tries_last(&rt, &unit, None);
    assert!(rt; !UnitOffset(usize::MAX).is_in_bounds(&unit));
}
