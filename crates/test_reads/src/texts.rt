//! Texts of the section of strings, and those that attributes stand for.

use crate::attributes::declaration_of;
use crate::inputs::Input;
use crate::shown::{write_either, write_left};
use gimli_base::{DebugStr, DebugStrOffset, Reader};
use gimli_units::Attribute;
use std::alloc::Global;
use test_tables::{Call, Outcome, Stop, Text, hex_of};

/// Writes the bytes of the text at an offset.
pub(crate) fn write_text<R: Reader>(call: &Call<'_, R>, out: &mut Text) -> Outcome {
    let section = DebugStr::from(call.section(0)?);
    let text = section.get_str(DebugStrOffset(call.offset_or_zero(1)?))?;
    write_left(&text, out);
    Ok(())
}

/// Writes the text that an attribute stands for, the text without a supplementary file, and the text with
/// one; and those of its value where they are others.
pub(crate) fn write_texts<R: Reader>(call: &Call<'_, R>, out: &mut Text) -> Outcome {
    let input = Input::of_attributes(call, 4)?;
    let Some(declared) = declaration_of(call) else {
        return Err(Stop::Lacks("no declaration"));
    };
    let attribute = input.read(declared)?;
    let own = DebugStr::from(call.section(1)?);
    let other = DebugStr::from(call.section(2)?);
    write_each_text(&attribute, (&own, &other), out);
    Ok(())
}

// Writes the text that an attribute stands for by its own section, by that and no other, and by both.
fn write_each_text<R: Reader>(
    attribute: &Attribute<R>,
    (own, other): (&DebugStr<R>, &DebugStr<R>),
    out: &mut Text,
) {
    let value = attribute.raw_value();
    write_either_text(attribute.string_value(own), value.string_value(own), out);
    let text = attribute.string_value_sup(own, None);
    write_either_text(text, value.string_value_sup(own, None), out);
    let text = attribute.string_value_sup(own, Some(other));
    write_either_text(text, value.string_value_sup(own, Some(other)), out);
}

// Writes the text of an attribute, and that of its value where it is another, in a line of its own.
fn write_either_text<R: Reader>(text: Option<R>, other: Option<R>, out: &mut Text) {
    let (text, other) = (shown(out.alloc(), text), shown(out.alloc(), other));
    write_either(&text, &other, " but of the value ", out);
    writeln!(out);
}

// A text with its place, or `none`.
fn shown<R: Reader>(alloc: Global, text: Option<R>) -> Text {
    let mut shown = Text::new(alloc);
    match text {
        Some(text) => hex_of(&mut shown, &text, ":"),
        None => write!(shown, "none"),
    }
    shown
}
