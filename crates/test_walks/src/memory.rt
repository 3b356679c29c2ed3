//! Calls whose requests for memory are refused, and texts whose writer fails.

mod calls;
mod cursors;
mod texts;
mod trees;
mod trial;
mod walks;
mod wanted;

use crate::memory::texts::write_short;
use crate::memory::trial::try_each;
use gimli_base::Reader;
use test_tables::{Call, Outcome, Text};

/// Makes a call with each of its requests for memory refused, or with writers that are too short, and writes
/// what differs.
pub fn write_refused<R: Reader>(call: &Call<'_, R>, out: &mut Text) -> Outcome {
    match call.name() {
        "short" => write_short(call, out),
        _ => try_each(call, out),
    }
}
