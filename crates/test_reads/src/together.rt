//! Attributes that are read or passed together.

use crate::attributes::{Declared, declaration, parse_code, read_by, write_next, write_skipped};
use crate::inputs::{Input, Raw};
use crate::values::{write_parts, write_value};
use gimli_base::{DW_AT_sibling, DW_FORM_flag_present, Reader};
use test_tables::{Call, Outcome, Stop, Text, write_refusal};

// The declaration of a word `NAME:FORM`.
fn parse_pair(word: &str) -> Option<Declared> {
    let (name, form) = word.split_once(":")?;
    declaration(parse_code(name)?, parse_code(form)?, "-")
}

// The declarations of the words after the encoding: those up to a word `then`, and those after it.
fn pairs_of<R: Reader>(call: &Call<'_, R>) -> Outcome<(Vec<Declared>, Vec<Declared>)> {
    let (mut pairs, mut then) = (Vec::new(call.alloc), Vec::new(call.alloc));
    let mut is_then = false;
    for word in call.case.words.iter().skip(4) {
        match parse_pair(word) {
            Some(pair) if is_then => then.push(pair)?,
            Some(pair) => pairs.push(pair)?,
            None if word.as_str() == "then" => is_then = true,
            None => return Err(Stop::Lacks("no declaration")),
        }
    }
    Ok((pairs, then))
}

/// Writes what passing attributes together answers, and after `then` what reading others does, one after
/// the other.
pub(crate) fn write_passed<R: Reader>(call: &Call<'_, R>, out: &mut Text) -> Outcome {
    let input = Input::of_attributes(call, 1)?;
    let (passed, then) = pairs_of(call)?;
    let mut raw = input.raw();
    write_skipped(&mut raw, &input.reader, &passed, out);
    if then.is_empty() {
        return Ok(());
    }
    for declared in &then {
        write_step(&mut raw, *declared, out);
    }
    let rest = if raw.is_empty() { "end" } else { "more" };
    write!(out, "{rest} depth {}", raw.next_depth());
    Ok(())
}

// Writes what reading an attribute answers, by one call of a copy and by the other.
fn write_step<R: Reader>(raw: &mut Raw<'_, R>, declared: Declared, out: &mut Text) {
    let other = read_by(out.alloc(), &mut raw.copy(), declared, "attribute");
    let answer = read_by(out.alloc(), raw, declared, "inline");
    match (answer, other) {
        (Ok(attribute), Ok(_)) => write_value(&attribute.raw_value(), out),
        (Err(error), Err(_)) => write_refusal(out, error),
        _ => write!(out, "not the same"),
    }
    write!(out, " ");
    write_next(raw, out);
}

/// Writes what reading attributes together answers, in place of one that was there, and then all that are
/// there.
pub(crate) fn write_read_together<R: Reader>(call: &Call<'_, R>, out: &mut Text) -> Outcome {
    let input = Input::of_attributes(call, 1)?;
    let (pairs, _) = pairs_of(call)?;
    let mut raw = input.raw();
    let mut attributes = Vec::new(call.alloc);
    let before = Declared::new(DW_AT_sibling, DW_FORM_flag_present, None);
    raw.read_attributes(&[before], &mut attributes)?;
    if let Err(error) = raw.read_attributes(&pairs, &mut attributes) {
        write_refusal(out, error);
        write!(out, " ");
    }
    for attribute in &attributes {
        write_parts(attribute, out);
        writeln!(out);
    }
    write_next(&raw, out);
    Ok(())
}
