//! What many names make of the same bytes.

use crate::attributes::{Declared, declaration, parse_code};
use crate::inputs::Input;
use crate::values::write_value;
use gimli_base::Reader;
use test_tables::{Call, Outcome, Stop, Text, write_refusal};

/// Writes the value that the first name gives, and that of each other name whose value is another; the
/// value is that of the name, or else that of the form. A word is `NAME` or `NAME-NAME`.
pub(crate) fn write_names<R: Reader>(call: &Call<'_, R>, out: &mut Text) -> Outcome {
    let raw = call.name() == "raw_names";
    let input = Input::of_attributes(call, 2)?;
    let form = parse_code(call.word(1)?).ok_or(Stop::Lacks("no form"))?;
    let mut first = Text::new(call.alloc);
    for word in call.case.words.iter().skip(5) {
        let (low, high) = word.split_once("-").unwrap_or((word, word));
        let (Some(low), Some(high)) = (parse_code(low), parse_code(high)) else {
            return Err(Stop::Lacks("no name"));
        };
        for name in low..=high {
            let mut found = Text::new(call.alloc);
            let Some(declared) = declaration(name, form, "-") else {
                return Err(Stop::Lacks("no declaration"));
            };
            write_as(&input, declared, raw, &mut found);
            if first.as_bytes().is_empty() {
                out.push_text(&found);
                first = found;
            } else if !found.is_same(&first) {
                write!(out, "\n{name:x} ");
                out.push_text(&found);
            }
        }
    }
    Ok(())
}

// Writes the value of an attribute, as its form shows it or as its name makes it.
fn write_as<R: Reader>(input: &Input<R>, declared: Declared, raw: bool, out: &mut Text) {
    match input.read(declared) {
        Ok(attribute) if raw => write_value(&attribute.raw_value(), out),
        Ok(attribute) => write_value(&attribute.value(), out),
        Err(error) => write_refusal(out, error),
    }
}
