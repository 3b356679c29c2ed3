//! Units of `.debug_info` and `.debug_types`.

use crate::shown::{Shown, tell_unless, write_encoding, write_left, write_line};
use gimli_base::{Reader, ReaderOffset, Result, SectionId};
use gimli_headers::{DebugInfo, DebugTypes};
use gimli_units::{DebugInfoOffset, UnitHeader, UnitType};
use test_tables::{Call, Outcome, Stop, Text, write_refusal};

/// The unit that the words `info INDEX` or `types INDEX` after the call name.
pub(crate) fn unit_of<R: Reader>(call: &Call<'_, R>) -> Outcome<UnitHeader<R>> {
    let section = call.section(0)?;
    let index = call.number(2)? as usize;
    let unit = match call.case.word(1) {
        Some("types") => DebugTypes::from(section).units().nth(index),
        _ => DebugInfo::from(section).units().nth(index),
    };
    Ok(unit.ok_or(Stop::Lacks("no unit"))??)
}

// Writes the units of a section, up to a refusal. Where the call, the iterator and what stands beside an item do
// not give the same, or something is left at the end, it tells so.
macro_rules! write_units {
    ($section:expr, $out:expr, $item:ident; $($beside:expr)?) => {{
        let mut units = $section.units();
        for $item in $section.units() {
            tell_other(units.next(), &$item, $out);
            $(tell_other($beside, &$item, $out);)?
            write_line(&$item, $out);
        }
        for _ in 0..2u8 {
            tell_unless(units.next() == Ok(None), "more units", $out);
        }
        Ok(())
    }};
}

/// Writes the units of `.debug_info`, each beside the one at its offset.
pub(crate) fn write_info<R: Reader + PartialEq>(call: &Call<'_, R>, out: &mut Text) -> Outcome {
    let section = DebugInfo::from(call.section(0)?);
    write_units!(section, out, item; at_offset(&section, &item))
}

/// Writes the units of `.debug_types`.
pub(crate) fn write_types<R: Reader + PartialEq>(call: &Call<'_, R>, out: &mut Text) -> Outcome {
    let section = DebugTypes::from(call.section(0)?);
    write_units!(section, out, item;)
}

/// Writes the unit at an offset of `.debug_info`.
pub(crate) fn write_info_at<R: Reader>(call: &Call<'_, R>, out: &mut Text) -> Outcome {
    let offset = DebugInfoOffset(call.offset_or_zero(1)?);
    let unit = DebugInfo::from(call.section(0)?).header_from_offset(offset)?;
    unit.show(out);
    Ok(())
}

// What an iterator gives, and what a call does.
type Item<R> = Result<UnitHeader<R>>;

type Found<R> = Result<Option<UnitHeader<R>>>;

// What stands at the offset of a unit, or the same refusal.
fn at_offset<R: Reader>(section: &DebugInfo<R>, item: &Item<R>) -> Found<R> {
    match item {
        Ok(unit) => Ok(Some(section.header_from_offset(DebugInfoOffset(unit.offset().0))?)),
        Err(error) => Err(*error),
    }
}

// Tells that a call gives another unit or refusal than the iterator, or none.
fn tell_other<R: Reader + PartialEq>(found: Found<R>, own: &Item<R>, out: &mut Text) {
    let is_same = found.transpose().as_ref() == Some(own);
    tell_unless(is_same, "another unit", out);
}

// What the header of a unit shows, and its entries.
impl<R: Reader> Shown for UnitHeader<R> {
    fn show(&self, out: &mut Text) {
        write_unit(self, out);
        write_entries(self, out);
    }
}

/// Writes what the header of a unit shows.
pub(crate) fn write_header<R: Reader>(call: &Call<'_, R>, out: &mut Text) -> Outcome {
    write_unit(&unit_of(call)?, out);
    Ok(())
}

// Writes what the header of a unit shows.
fn write_unit<R: Reader>(unit: &UnitHeader<R>, out: &mut Text) {
    write_begin(unit, out);
    write_type(unit.type_(), out);
    write_lengths(unit, out);
}

// Writes the section and the offset of a unit, and its encoding.
fn write_begin<R: Reader>(unit: &UnitHeader<R>, out: &mut Text) {
    let (section, offset) = (unit.section(), unit.offset().0);
    write!(out, "{section:?} {} ", offset.into_u64());
    let info = unit.debug_info_offset().map(|begin| begin.0);
    let types = unit.debug_types_offset().map(|begin| begin.0);
    let agrees = match section {
        SectionId::DebugInfo => info == Some(offset) && types.is_none(),
        _ => types == Some(offset) && info.is_none(),
    };
    tell_unless(agrees, "another offset", out);
    let encoding = unit.encoding();
    write_encoding(encoding, out);
    let agrees = encoding.format == unit.format()
        && encoding.version == unit.version()
        && encoding.address_size == unit.address_size();
    tell_unless(agrees, "another encoding", out);
}

// Writes the type of a unit and what the type adds.
fn write_type<Offset: ReaderOffset>(unit_type: UnitType<Offset>, out: &mut Text) {
    let (name, number, offset) = match unit_type {
        UnitType::Compilation => ("compile", None, None),
        UnitType::Partial => ("partial", None, None),
        UnitType::Skeleton(id) => ("skeleton", Some(id.0), None),
        UnitType::SplitCompilation(id) => ("split_compile", Some(id.0), None),
        UnitType::TypeUnit {
            type_signature,
            type_offset,
        } => ("type", Some(type_signature.0), Some(type_offset)),
        UnitType::SplitType {
            type_signature,
            type_offset,
        } => ("split_type", Some(type_signature.0), Some(type_offset)),
        UnitType::Vendor(code) => ("vendor", Some(u64::from(code.0)), None),
    };
    write!(out, " {name}");
    for part in [number, offset.map(|offset| offset.0.into_u64())] {
        if let Some(part) = part {
            write!(out, " 0x{part:x}");
        }
    }
}

// Writes the number in the length field, the bytes of the unit, those of its header, and where
// abbreviations begin.
fn write_lengths<R: Reader>(unit: &UnitHeader<R>, out: &mut Text) {
    let length = unit.unit_length().into_u64();
    let whole = unit.length_including_self().into_u64();
    let header = unit.header_size().into_u64();
    write!(out, " length {length} {whole} header {header}");
    let size = unit.size_of_header() as u64;
    let root = unit.root_offset().0.into_u64();
    tell_unless(size == header && root == header, "another size", out);
    let abbreviations = unit.debug_abbrev_offset().0.into_u64();
    write!(out, " abbrev 0x{abbreviations:x}");
}

// Writes the bytes from the root on, or why there are none.
fn write_entries<R: Reader>(unit: &UnitHeader<R>, out: &mut Text) {
    write!(out, " entries ");
    match unit.range_from(unit.root_offset()..) {
        Ok(entries) => write_left(&entries, out),
        Err(error) => write_refusal(out, error),
    }
}
