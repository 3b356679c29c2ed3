//! Addresses, texts and lists, by the values of a root's attributes.

use crate::bases::{Opened, open_unit};
use crate::shown::{write_address, write_dwarf_error, write_text};
use gimli_base::{DebugAddr, DebugStr, Reader, Result};
use gimli_dwarf::{DebugLineStr, DebugStrOffsets, DwarfSections, UnitBases};
use gimli_lists::{
    DebugAranges, DebugLoc, DebugLocLists, DebugRanges, DebugRngLists, LocationListEntry,
    LocationLists, Range, RangeLists,
};
use gimli_units::{AttributeValue, DebuggingInformationEntry};
use std::alloc::Global;
use test_tables::{Call, Outcome, Text, hex_of, write_refusal};

// The root of a unit.
fn root_of<R: Reader>(
    call: &Call<'_, R>,
    opened: &Opened<R>,
) -> Outcome<DebuggingInformationEntry<R, Global>> {
    let offset = opened.unit.root_offset();
    Ok(opened.unit.entry(call.alloc, &opened.table, offset)?)
}

// The section of an index of a case, or one without bytes.
fn section_or_none<R: Reader>(call: &Call<'_, R>, index: usize) -> Outcome<R> {
    match call.section(index) {
        Ok(section) => Ok(section),
        Err(_) => {
            let mut none = call.section(0)?;
            none.empty();
            Ok(none)
        }
    }
}

// The sections of a case: those of texts, or of lists, from the third on.
fn sections_of<R: Reader>(call: &Call<'_, R>, has_lists: bool) -> Outcome<DwarfSections<R>> {
    let mut none = call.section(0)?;
    none.empty();
    let mut parts = Vec::new(call.alloc);
    for index in 3..7 {
        parts.push(section_or_none(call, index)?)?;
    }
    let part = |index: usize, is_here: bool| match parts.get(index) {
        Some(part) if is_here => part.copy(),
        _ => none.copy(),
    };
    Ok(DwarfSections {
        debug_addr: DebugAddr::from(call.section(2)?),
        debug_str: DebugStr::from(part(0, !has_lists)),
        debug_line_str: DebugLineStr::from(part(1, !has_lists)),
        debug_str_offsets: DebugStrOffsets::from(part(2, !has_lists)),
        debug_str_sup: DebugStr::from(part(3, !has_lists)),
        ranges: RangeLists::new(
            DebugRanges::from(part(0, has_lists)),
            DebugRngLists::from(part(1, has_lists)),
        ),
        locations: LocationLists::new(
            DebugLoc::from(part(2, has_lists)),
            DebugLocLists::from(part(3, has_lists)),
        ),
    })
}

/// Writes the address and the text of each attribute of a root.
pub(crate) fn write_values<R: Reader>(call: &Call<'_, R>, out: &mut Text) -> Outcome {
    let opened = open_unit(call)?;
    let sections = sections_of(call, false)?;
    let root = root_of(call, &opened)?;
    match &opened.bases {
        Ok(bases) => {
            for attribute in root.attrs() {
                write!(out, "{:x} ", attribute.name().0);
                let value = attribute.value();
                write_address(bases.address_of(&value, &sections.debug_addr), out);
                write!(out, " ");
                write_text(bases.text_of(&value, &sections), out);
                writeln!(out);
            }
        }
        Err(error) => write_dwarf_error(out, *error),
    }
    Ok(())
}

/// Writes the ranges and the locations of each attribute of a root.
pub(crate) fn write_lists<R: Reader>(call: &Call<'_, R>, out: &mut Text) -> Outcome {
    let opened = open_unit(call)?;
    let sections = sections_of(call, true)?;
    let root = root_of(call, &opened)?;
    match &opened.bases {
        Ok(bases) => {
            for attribute in root.attrs() {
                write!(out, "{:x}", attribute.name().0);
                write_lists_of(bases, &attribute.value(), &sections, out);
                writeln!(out);
            }
        }
        Err(error) => write_dwarf_error(out, *error),
    }
    Ok(())
}

/// Writes whether the unit holds an address.
pub(crate) fn write_holds<R: Reader>(call: &Call<'_, R>, out: &mut Text) -> Outcome {
    let opened = open_unit(call)?;
    let (unit, table, address) = (&opened.unit, &opened.table, call.number(2)?);
    let sections = sections_of(call, true)?;
    let aranges = DebugAranges::from(section_or_none(call, 5)?);
    match &opened.bases {
        Ok(bases) => {
            match bases.unit_holds(call.alloc, unit, table, &aranges, &sections, address) {
                Ok(true) => write!(out, "true"),
                Ok(false) => write!(out, "false"),
                Err(error) => write_dwarf_error(out, error),
            }
        }
        Err(error) => write_dwarf_error(out, *error),
    }
    Ok(())
}

// Writes the ranges and the locations of a value.
fn write_lists_of<R: Reader>(
    bases: &UnitBases<R::Offset>,
    value: &AttributeValue<R>,
    sections: &DwarfSections<R>,
    out: &mut Text,
) {
    match bases.ranges(value, sections) {
        Ok(Some(ranges)) => {
            write!(out, " ranges");
            for answer in ranges {
                write_range(answer, out);
            }
        }
        Ok(None) => {}
        Err(error) => {
            write!(out, " ranges ");
            write_dwarf_error(out, error);
        }
    }
    match bases.locations(value, sections) {
        Ok(Some(locations)) => {
            write!(out, " locations");
            for answer in locations {
                write_location(answer, out);
            }
        }
        Ok(None) => {}
        Err(error) => {
            write!(out, " locations ");
            write_dwarf_error(out, error);
        }
    }
}

// Writes a range.
fn write_range(answer: Result<Range>, out: &mut Text) {
    match answer {
        Ok(range) => write!(out, ", {:x} {:x}", range.begin, range.end),
        Err(error) => {
            write!(out, ", ");
            write_refusal(out, error);
        }
    }
}

// Writes a location.
fn write_location<R: Reader>(answer: Result<LocationListEntry<R>>, out: &mut Text) {
    match answer {
        Ok(location) => {
            write!(
                out,
                ", {:x} {:x} ",
                location.range.begin, location.range.end
            );
            hex_of(out, &location.expr.0, ":");
        }
        Err(error) => {
            write!(out, ", ");
            write_refusal(out, error);
        }
    }
}
