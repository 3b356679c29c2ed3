//! Attributes that are read one alone.

use crate::conversions::write_conversions;
use crate::inputs::{Input, Raw};
use crate::shown::{Shown, tell_unless, write_either};
use crate::values::write_value;
use gimli_base::{
    AttributeSpecification, DW_FORM_implicit_const, DwAt, DwForm, Error, Reader, ReaderOffset,
    Result,
};
use gimli_units::Attribute;
use std::alloc::Global;
use test_tables::{Call, Outcome, Stop, Text, parse_number, write_refusal};

/// A declared attribute.
pub(crate) type Declared = AttributeSpecification;

/// A code of 16 bits, from a word.
pub(crate) fn parse_code(word: &str) -> Option<u16> {
    u16::try_from(parse_number(word)?).ok()
}

/// The declaration of a name, a form, and a constant or `-`.
pub(crate) fn declaration(name: u16, form: u16, constant: &str) -> Option<Declared> {
    let (name, form) = (DwAt(name), DwForm(form));
    match form {
        DW_FORM_implicit_const => {
            let constant = constant.parse::<i64>().ok()?;
            Some(Declared::new(name, form, Some(constant)))
        }
        _ => Some(Declared::new(name, form, None)),
    }
}

/// The declaration that the words after the call give.
pub(crate) fn declaration_of<R: Reader>(call: &Call<'_, R>) -> Option<Declared> {
    let (name, form) = (call.case.word(1)?, call.case.word(2)?);
    declaration(parse_code(name)?, parse_code(form)?, call.case.word(3)?)
}

/// Writes what reading an attribute answers, and then what passing it does; or the debug text of what it
/// answers, or the number of bytes that its form has.
pub(crate) fn write_attribute<R: Reader>(call: &Call<'_, R>, out: &mut Text) -> Outcome {
    let input = Input::of_attributes(call, 4)?;
    let Some(declared) = declaration_of(call) else {
        return Err(Stop::Lacks("no declaration"));
    };
    match call.name() {
        "debug" => write_debug(&input.read(declared), out),
        "size" => declared.size(input.encoding).map(u64::from).show(out),
        name => write_read_by(&input, declared, name, out),
    }
    Ok(())
}

// Writes what reading an attribute by the call of a name answers, and then what passing it does.
fn write_read_by<R: Reader>(input: &Input<R>, declared: Declared, name: &str, out: &mut Text) {
    let mut raw = input.raw();
    match read_by(out.alloc(), &mut raw, declared, name) {
        Ok(attribute) => write_shown(&attribute, declared, out),
        Err(error) => write_refusal(out, error),
    }
    write!(out, " ");
    write_next(&raw, out);
    write!(out, "skip ");
    write_skipped(&mut input.raw(), &input.reader, &[declared], out);
}

/// Reads an attribute by the call of a name.
pub(crate) fn read_by<R: Reader>(
    alloc: Global,
    raw: &mut Raw<'_, R>,
    declared: Declared,
    name: &str,
) -> Result<Attribute<R>> {
    match name {
        "inline" => raw.read_attribute_inline(declared),
        "taken" => read_onto(alloc, raw, declared),
        _ => raw.read_attribute(declared),
    }
}

// Reads an attribute onto a list that has room for it alone, and takes it from there.
fn read_onto<R: Reader>(
    alloc: Global,
    raw: &mut Raw<'_, R>,
    declared: Declared,
) -> Result<Attribute<R>> {
    let mut list = Vec::new(alloc);
    list.reserve(1)?;
    raw.read_attribute_to(&declared, &mut list)?;
    list.pop().ok_or(Error::OutOfMemory)
}

/// Writes the offset of what is read next, and ends the line.
pub(crate) fn write_next<R: Reader>(raw: &Raw<'_, R>, out: &mut Text) {
    writeln!(out, "next {}", raw.next_offset().0.into_u64());
}

/// Writes what passing attributes answers, a refusal of missing bytes without its place, which may be any
/// of the input's or its end; and where it ends.
pub(crate) fn write_skipped<R: Reader>(
    raw: &mut Raw<'_, R>,
    input: &R,
    declared: &[Declared],
    out: &mut Text,
) {
    match raw.skip_attributes(declared) {
        Ok(()) => return write_next(raw, out),
        Err(Error::UnexpectedEof(place)) if input.lookup_offset_id(place).is_some() => {
            write!(out, "refused 1");
        }
        Err(error) => write_refusal(out, error),
    }
    write!(out, " ");
    write_next(raw, out);
}

// Writes the debug text of a value as its name makes it, or of a refusal.
fn write_debug<R: Reader>(answer: &Result<Attribute<R>>, out: &mut Text) {
    match answer {
        Ok(attribute) => write!(out, "{:?}", attribute.value()),
        Err(error) => write!(out, "{error:?}"),
    }
}

// Writes an attribute: the value that its form shows, that of its name where it is another, and the
// conversions; and tells where its name or form is not the one that is declared.
fn write_shown<R: Reader>(read: &Attribute<R>, declared: Declared, out: &mut Text) {
    let agrees = read.name() == declared.name() && read.form() == declared.form();
    tell_unless(agrees, "another declaration", out);
    let mut raw = Text::new(out.alloc());
    write_value(&read.raw_value(), &mut raw);
    let mut normal = Text::new(out.alloc());
    write_value(&read.value(), &mut normal);
    write_either(&raw, &normal, " value ", out);
    write_conversions(read, out);
}
