//! The calls of bases, and of addresses, texts and lists by values, which rows of tables name.
#![tactic(auto)]

mod bases;
mod shown;
mod values;

use crate::bases::{write_bases, write_holding};
use crate::values::{write_holds, write_lists, write_values};
use gimli_base::Reader;
use test_tables::{Call, Outcome, Stop, Text};

/// Writes what a call of bases or values answers.
pub fn write_dwarf<R: Reader>(call: &Call<'_, R>, out: &mut Text) -> Outcome {
    match call.name() {
        "bases" => write_bases(call, out),
        "values" => write_values(call, out),
        "lists" => write_lists(call, out),
        "holding" => write_holding(call, out),
        "holds" => write_holds(call, out),
        _ => Err(Stop::Lacks("no such call")),
    }
}
