//! Entries and places, as answers show them.

use gimli_base::{Reader, ReaderOffset, Result};
use gimli_units::DebuggingInformationEntry;
use std::alloc::Allocator;
use test_tables::{Text, write_refusal};

/// Writes whether a step found something, or its refusal.
pub(crate) fn write_outcome(outcome: Result<bool>, out: &mut Text) {
    match outcome {
        Ok(true) => write!(out, "yes"),
        Ok(false) => write!(out, "no"),
        Err(error) => write_refusal(out, error),
    }
}

/// Writes an entry: its offset, depth, tag and children flag.
pub(crate) fn write_entry<R: Reader, A: Allocator>(
    entry: &DebuggingInformationEntry<R, A>,
    out: &mut Text,
) {
    let offset = entry.offset().0.into_u64();
    let (depth, tag) = (entry.depth(), entry.tag().0);
    let flag = u8::from(entry.has_children());
    write!(out, "{offset:x} {depth} {tag:x} {flag}");
}

/// Writes an entry after a space, if there is one, and where it is counted the number of its attributes.
pub(crate) fn write_found<R: Reader, A: Allocator>(
    entry: Option<&DebuggingInformationEntry<R, A>>,
    is_counted: bool,
    out: &mut Text,
) {
    if let Some(entry) = entry {
        write!(out, " ");
        write_entry(entry, out);
        if is_counted {
            write!(out, " {}", entry.attrs().len());
        }
    }
}

/// Where something stands in a unit: its offset and its depth.
pub(crate) type Place = (u64, isize);

/// Writes the places of what was read last, and of what is read next.
pub(crate) fn write_places(last: Place, next: Place, out: &mut Text) {
    let (offset, depth) = last;
    write!(out, " at {offset:x} {depth}");
    write_next(next, out);
}

/// Writes the place of what is read next.
pub(crate) fn write_next((offset, depth): Place, out: &mut Text) {
    write!(out, " > {offset:x} {depth}");
}
