//! Offsets of units: the bytes between them, and what they are in sections.

use crate::units::unit_of;
use gimli_base::{Reader, ReaderOffset};
use gimli_units::{DebugInfoOffset, DebugTypesOffset, UnitHeader, UnitOffset, UnitSectionOffset};
use test_tables::{Call, Outcome, Stop, Text, hex_of};

/// Writes the bytes of a unit between two offsets, from one on, or up to one.
pub(crate) fn write_range<R: Reader>(call: &Call<'_, R>, out: &mut Text) -> Outcome {
    let unit = unit_of(call)?;
    let range = match (call.offset(3)?, call.offset(4)?) {
        (Some(start), Some(end)) if start.into_u64() <= end.into_u64() => {
            unit.range(UnitOffset(start)..UnitOffset(end))?
        }
        (Some(start), None) => unit.range_from(UnitOffset(start)..)?,
        (None, Some(end)) => unit.range_to(..UnitOffset(end))?,
        _ => return Err(Stop::Lacks("no range")),
    };
    hex_of(out, &range, ":");
    Ok(())
}

// Writes offsets after a name, with `-` for none.
fn write_offsets(name: &str, offsets: &[Option<u64>], out: &mut Text) {
    write!(out, "{name}");
    for offset in offsets {
        match offset {
            Some(offset) => write!(out, " {offset}"),
            None => write!(out, " -"),
        }
    }
}

// The number of an offset of a unit, if there is one.
fn of_unit<Offset: ReaderOffset>(offset: Option<UnitOffset<Offset>>) -> Option<u64> {
    Some(offset?.0.into_u64())
}

// The number of an offset of a unit's section, if there is one.
fn of_section<Offset: ReaderOffset>(offset: Option<UnitSectionOffset<Offset>>) -> Option<u64> {
    Some(offset?.0.into_u64())
}

// The number of an offset of `.debug_info`, if there is one.
fn of_info<Offset: ReaderOffset>(offset: Option<DebugInfoOffset<Offset>>) -> Option<u64> {
    Some(offset?.0.into_u64())
}

// The number of an offset of `.debug_types`, if there is one.
fn of_types<Offset: ReaderOffset>(offset: Option<DebugTypesOffset<Offset>>) -> Option<u64> {
    Some(offset?.0.into_u64())
}

/// Writes what an offset of `.debug_info`, of `.debug_types` and of the unit's section is in the unit; and what
/// one of either section is in the unit's section, and the other way round.
pub(crate) fn write_section_offset<R: Reader>(call: &Call<'_, R>, out: &mut Text) -> Outcome {
    let unit = unit_of(call)?;
    let offset = call.offset_or_zero(3)?;
    write_in_unit(&unit, offset, out);
    write_of_info(&unit, offset, out);
    write_of_types(&unit, offset, out);
    Ok(())
}

// Writes what an offset of each section is in a unit.
fn write_in_unit<R: Reader>(unit: &UnitHeader<R>, offset: R::Offset, out: &mut Text) {
    let info = of_unit(DebugInfoOffset(offset).to_unit_offset(unit));
    let types = of_unit(DebugTypesOffset(offset).to_unit_offset(unit));
    let own = of_unit(UnitSectionOffset(offset).to_unit_offset(unit));
    write_offsets("unit", &[info, types, own], out);
}

// Writes what an offset of `.debug_info` is in a unit's section, and the other way round.
fn write_of_info<R: Reader>(unit: &UnitHeader<R>, offset: R::Offset, out: &mut Text) {
    let here = of_section(DebugInfoOffset(offset).to_unit_section_offset(unit));
    let back = of_info(UnitSectionOffset(offset).to_debug_info_offset(unit));
    write_offsets("\ninfo", &[here, back], out);
}

// Writes the same of an offset of `.debug_types`.
fn write_of_types<R: Reader>(unit: &UnitHeader<R>, offset: R::Offset, out: &mut Text) {
    let here = of_section(DebugTypesOffset(offset).to_unit_section_offset(unit));
    let back = of_types(UnitSectionOffset(offset).to_debug_types_offset(unit));
    write_offsets(" types", &[here, back], out);
}

/// Writes what an offset of a unit is in its section, in `.debug_info` and in `.debug_types`: each with what it
/// leads back to, if the sum fits.
pub(crate) fn write_unit_offset<R: Reader>(call: &Call<'_, R>, out: &mut Text) -> Outcome {
    let unit = unit_of(call)?;
    let offset = UnitOffset(call.offset_or_zero(3)?);
    let is_in = offset.is_in_bounds(&unit);
    write!(out, "{}", if is_in { "in" } else { "out" });
    if unit.offset().0.checked_add(offset.0).is_none() {
        write!(out, " no sum");
        return Ok(());
    }
    write_in_own(&unit, offset.to_unit_section_offset(&unit), out);
    write_in_info(&unit, offset.to_debug_info_offset(&unit), out);
    write_in_types(&unit, offset.to_debug_types_offset(&unit), out);
    Ok(())
}

// An offset of a unit's section.
type Own<R> = UnitSectionOffset<<R as Reader>::Offset>;

// Writes an offset of a unit's section, and what it leads back to in the unit.
fn write_in_own<R: Reader>(unit: &UnitHeader<R>, own: Own<R>, out: &mut Text) {
    let back = of_unit(own.to_unit_offset(unit));
    write_offsets(" section", &[of_section(Some(own)), back], out);
}

// An offset of `.debug_info`, or none.
type Info<R> = Option<DebugInfoOffset<<R as Reader>::Offset>>;

// Writes an offset of `.debug_info`, and what it leads back to in a unit.
fn write_in_info<R: Reader>(unit: &UnitHeader<R>, info: Info<R>, out: &mut Text) {
    let back = of_unit(info.and_then(|found| found.to_unit_offset(unit)));
    write_offsets(" info", &[of_info(info), back], out);
}

// An offset of `.debug_types`, or none.
type Types<R> = Option<DebugTypesOffset<<R as Reader>::Offset>>;

// Writes the same of an offset of `.debug_types`.
fn write_in_types<R: Reader>(unit: &UnitHeader<R>, types: Types<R>, out: &mut Text) {
    let back = of_unit(types.and_then(|found| found.to_unit_offset(unit)));
    write_offsets(" types", &[of_types(types), back], out);
}
