//! The entries of a unit, in a row and by their offsets.

use crate::entries::write_entry;
use crate::units::Stage;
use gimli_base::{Reader, ReaderOffset};
use gimli_units::{AttributeValue, DebuggingInformationEntry, EntriesRaw};
use std::alloc::Global;
use test_tables::{Call, Outcome, Text, write_refusal};

/// Writes each row of the unit, up to its end or to a refusal, and then what is read next.
pub(crate) fn write_raw<R: Reader>(call: &Call<'_, R>, out: &mut Text) -> Outcome {
    let stage = Stage::new(call, call.alloc)?;
    let mut raw = stage.raw()?;
    let mut entry = DebuggingInformationEntry::null(call.alloc);
    for _ in 0..u64::MAX {
        if raw.is_empty() || !write_row(&mut raw, &mut entry, out) {
            break;
        }
    }
    let (next, depth) = (raw.next_offset().0.into_u64(), raw.next_depth());
    writeln!(out, "next {next:x} {depth}");
    Ok(())
}

// Reads a row and writes it, a null with the word before it. Answers whether it was read.
fn write_row<R: Reader>(
    raw: &mut EntriesRaw<'_, R, Global>,
    entry: &mut DebuggingInformationEntry<R, Global>,
    out: &mut Text,
) -> bool {
    let answer = raw.read_entry(entry);
    if answer == Ok(false) {
        write!(out, "null ");
    }
    match answer {
        Ok(_) => write_entry(entry, out),
        Err(error) => write_refusal(out, error),
    }
    writeln!(out);
    answer.is_ok()
}

// Writes an entry with its attributes: the name of each, and its value, or the place and the length of a
// text.
fn write_whole<R: Reader>(entry: &DebuggingInformationEntry<R, Global>, out: &mut Text) {
    write_entry(entry, out);
    for attribute in entry.attrs() {
        let name = attribute.name().0;
        match attribute.raw_value() {
            AttributeValue::String(text) => {
                let (place, length) = (text.offset_id().0, text.len().into_u64());
                write!(out, ", {name:x} text {place:x} {length}");
            }
            value => write!(out, ", {name:x} {value:?}"),
        }
    }
    writeln!(out);
}

/// Writes each entry of a cursor in depth-first order.
pub(crate) fn write_entries<R: Reader>(call: &Call<'_, R>, out: &mut Text) -> Outcome {
    let stage = Stage::new(call, call.alloc)?;
    let mut cursor = stage.cursor(call.alloc, true)?;
    for _ in 0..u64::MAX {
        match cursor.next_dfs()? {
            Some(entry) => write_whole(entry, out),
            None => break,
        }
    }
    Ok(())
}

/// Writes the entry at an offset of the unit, or at 0.
pub(crate) fn write_entry_at<R: Reader>(call: &Call<'_, R>, out: &mut Text) -> Outcome {
    let stage = Stage::new(call, call.alloc)?;
    write_whole(&stage.entry(call.alloc)?, out);
    Ok(())
}
