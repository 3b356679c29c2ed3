//! Entries of units.

use crate::attributes::parse_code;
use crate::inputs::Raw;
use crate::shown::tell_unless;
use crate::units::unit_of;
use crate::values::{write_parts, write_value};
use gimli_base::{Abbreviations, DebugAbbrev, DwAt, Reader, ReaderOffset};
use gimli_units::{DebuggingInformationEntry, UnitHeader, UnitOffset};
use std::alloc::Global;
use test_tables::{Call, Outcome, Stop, Text, write_refusal};

type Entry<R> = DebuggingInformationEntry<R, Global>;

// A unit, and the table of its declarations.
type UnitAndTable<R> = (UnitHeader<R>, Abbreviations<Global>);

/// The unit that the words name, and its table.
pub(crate) fn unit_and_table<R: Reader>(call: &Call<'_, R>) -> Outcome<UnitAndTable<R>> {
    let unit = unit_of(call)?;
    let table = unit.abbreviations(call.alloc, &DebugAbbrev::from(call.section(1)?))?;
    Ok((unit, table))
}

/// Writes the offset and the depth of what is read next.
pub(crate) fn write_next<R: Reader>(raw: &Raw<'_, R>, out: &mut Text) {
    let next = raw.next_offset().0.into_u64();
    writeln!(out, " next {next} {}", raw.next_depth());
}

// Writes an entry: offset, depth, tag, with `+` where children follow, and attributes; or `null`.
fn write_shown<R: Reader>(entry: &Entry<R>, out: &mut Text) {
    write!(out, "{} {} ", entry.offset().0.into_u64(), entry.depth());
    if entry.is_null() {
        write!(out, "null");
    }
    if !entry.is_null() || entry.has_children() {
        let children = if entry.has_children() { "+" } else { "" };
        write!(out, "{:x}{children}", entry.tag().0);
    }
    for attribute in entry.attrs() {
        write!(out, " ");
        write_parts(attribute, out);
    }
}

/// Writes the entries of a unit, one after the other, from an offset on or from the first, up to the one
/// that is refused, and that twice.
pub(crate) fn write_entries<R: Reader>(call: &Call<'_, R>, out: &mut Text) -> Outcome {
    let (unit, table) = unit_and_table(call)?;
    let mut raw = unit.entries_raw(&table, call.offset(3)?.map(UnitOffset))?;
    let mut entry = DebuggingInformationEntry::null(call.alloc);
    for _ in 0..1_000_000 {
        if !write_next_entry(&mut raw, &mut entry, out) {
            write_next_entry(&mut raw, &mut entry, out);
            break;
        }
    }
    Ok(())
}

// Writes the next entry. Whether it was read.
fn write_next_entry<R: Reader>(raw: &mut Raw<'_, R>, entry: &mut Entry<R>, out: &mut Text) -> bool {
    let answer = raw.read_entry(entry);
    write_shown(entry, out);
    match answer {
        Ok(found) => tell_unless(found != entry.is_null(), "another kind", out),
        Err(error) => {
            write!(out, " ");
            write_refusal(out, error);
        }
    }
    write_next(raw, out);
    answer.is_ok()
}

/// Writes the entry at an offset of a unit.
pub(crate) fn write_entry<R: Reader>(call: &Call<'_, R>, out: &mut Text) -> Outcome {
    let (unit, table) = unit_and_table(call)?;
    let offset = UnitOffset(call.offset_or_zero(3)?);
    write_shown(&unit.entry(call.alloc, &table, offset)?, out);
    Ok(())
}

/// Writes what the first entry of a unit has under each name.
pub(crate) fn write_found<R: Reader>(call: &Call<'_, R>, out: &mut Text) -> Outcome {
    let (unit, table) = unit_and_table(call)?;
    let entry = unit.entry(call.alloc, &table, unit.root_offset())?;
    for word in call.case.words.iter().skip(3) {
        let name = parse_code(word).ok_or(Stop::Lacks("no name"))?;
        write_of_name(&entry, DwAt(name), out);
    }
    Ok(())
}

// Writes the first attribute of a name, as it is read and as the name makes it, or none.
fn write_of_name<R: Reader>(entry: &Entry<R>, name: DwAt, out: &mut Text) {
    match entry.attr(name) {
        Some(attribute) => write_parts(attribute, out),
        None => write!(out, "none"),
    }
    if entry.has_attr(name) {
        write!(out, " raw ");
    }
    if let Some(value) = entry.attr_value_raw(name) {
        write_value(&value, out);
    }
    if let Some(value) = entry.attr_value(name) {
        write!(out, " value ");
        write_value(&value, out);
    }
    writeln!(out);
}
