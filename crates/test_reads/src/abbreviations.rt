//! Tables of abbreviations, and declarations of codes.

use crate::entries::{unit_and_table, write_next};
use crate::inputs::{Input, Raw};
use gimli_base::{
    Abbreviation, Abbreviations, DebugAbbrev, DebugAbbrevOffset, Encoding, Format, Reader,
    ReaderOffset,
};
use gimli_units::{EntriesRaw, UnitOffset};
use std::alloc::Global;
use test_tables::{Call, Outcome, Stop, Text, write_refusal};

/// Writes the refusal of the table at an offset, or the declaration of each code that is asked for.
pub(crate) fn write_abbreviations<R: Reader>(call: &Call<'_, R>, out: &mut Text) -> Outcome {
    let offset = DebugAbbrevOffset(call.offset_or_zero(1)?);
    let table = DebugAbbrev::from(call.section(0)?).abbreviations(call.alloc, offset)?;
    for index in 2..call.case.words.len() {
        write_declaration(&table, call.number(index)?, out);
    }
    Ok(())
}

// Writes the declaration of a code.
fn write_declaration(table: &Abbreviations<Global>, code: u64, out: &mut Text) {
    match table.get(code) {
        Some(declared) => write_declared(declared, out),
        None => write!(out, "{code} none"),
    }
    writeln!(out);
}

/// Writes the declarations of a unit's codes up to 9.
pub(crate) fn write_unit_table<R: Reader>(call: &Call<'_, R>, out: &mut Text) -> Outcome {
    let (_, table) = unit_and_table(call)?;
    for code in 1..10 {
        if table.get(code).is_some() {
            write_declaration(&table, code, out);
        }
    }
    Ok(())
}

// Writes a declaration: its code and tag, whether there are children, and the attributes.
fn write_declared(declared: &Abbreviation<Global>, out: &mut Text) {
    write!(out, "{} tag 0x{:x}", declared.code(), declared.tag().0);
    if declared.has_children() {
        write!(out, " children");
    }
    for attribute in declared.attributes() {
        let (name, form) = (attribute.name().0, attribute.form().0);
        write!(out, " 0x{name:x}:0x{form:x}");
        if let Some(constant) = attribute.implicit_const_value() {
            write!(out, ":{constant}");
        }
    }
}

/// Writes the declarations of codes that stand one after the other, up to the one that is refused.
pub(crate) fn write_codes<R: Reader>(call: &Call<'_, R>, out: &mut Text) -> Outcome {
    let start = call.offset_or_zero(1)?;
    let encoding = Encoding {
        format: Format::Dwarf32,
        version: 4,
        address_size: 4,
    };
    let Input { reader, table, .. } = Input::of_entries(call, encoding)?;
    if start.checked_add(reader.len()).is_none() {
        return Err(Stop::Lacks("no offset"));
    }
    let mut raw = EntriesRaw::new(reader, encoding, &table, UnitOffset(start));
    write_codes_left(&mut raw, out);
    Ok(())
}

// Writes the declarations of the codes that are left.
fn write_codes_left<R: Reader>(raw: &mut Raw<'_, R>, out: &mut Text) {
    for _ in 0..1_000_000 {
        if !write_code(raw, out) {
            break;
        }
    }
}

// Writes the declaration of the next code, and `end` where no byte was left. Whether it was read.
fn write_code<R: Reader>(raw: &mut Raw<'_, R>, out: &mut Text) -> bool {
    if raw.is_empty() {
        write!(out, "end ");
    }
    let answer = raw.read_abbreviation();
    match answer {
        Ok(Some(declared)) => write_declared(declared, out),
        Ok(None) => write!(out, "null"),
        Err(error) => write_refusal(out, error),
    }
    write_next(raw, out);
    answer.is_ok()
}
