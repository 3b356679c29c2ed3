//! Cursors, as answers show them.

use crate::entries::{write_found, write_next, write_outcome, write_places};
use crate::steps::{Told, write_fault};
use gimli_base::{Reader, ReaderOffset, Result};
use gimli_units::EntriesCursor;
use std::alloc::{Allocator, Global};
use test_tables::Text;

type Cursor<'table, R> = EntriesCursor<'table, R, Global>;

/// Takes a step of a cursor: `e` to the next entry, `d` to the next in depth-first order, `s` to the next
/// sibling. A letter that names no step finds nothing.
pub(crate) fn take_step<R: Reader, A: Allocator + Copy>(
    cursor: &mut EntriesCursor<'_, R, A>,
    letter: u8,
) -> Result<bool> {
    match letter {
        b'e' => cursor.next_entry(),
        b'd' => Ok(cursor.next_dfs()?.is_some()),
        b's' => Ok(cursor.next_sibling()?.is_some()),
        _ => Ok(false),
    }
}

/// Writes the current entry of a cursor, if there is one, with the number of its attributes, and where the
/// cursor stands.
pub(crate) fn write_stand<R: Reader, A: Allocator + Copy>(
    cursor: &EntriesCursor<'_, R, A>,
    out: &mut Text,
) {
    write_found(cursor.current(), true, out);
    let last = (cursor.offset().0.into_u64(), cursor.depth());
    let next = (cursor.next_offset().0.into_u64(), cursor.next_depth());
    write_places(last, next, out);
}

impl<'table, R: Reader> Told for Cursor<'table, R> {
    fn write_start(&self, out: &mut Text) {
        let word = if self.follows() { "follows" } else { "plain" };
        write!(out, "{word}");
        write_stand(self, out);
    }

    fn write_step(&mut self, letter: u8, as_text: bool, out: &mut Text) -> bool {
        let outcome = take_step(self, letter);
        match outcome {
            Ok(_) => write_outcome(outcome, out),
            Err(error) => write_fault(error, as_text, out),
        }
        if as_text {
            write_text_stand(self, out);
        } else {
            write_stand(self, out);
        }
        outcome.is_err()
    }

    fn write_shown(&self, as_text: bool, out: &mut Text) {
        if as_text {
            write_next((self.next_offset().0.into_u64(), self.next_depth()), out);
        }
        write!(out, " reads {}", self.reads());
    }
}

// Writes where a cursor stands as the text of a walk does.
fn write_text_stand<R: Reader>(cursor: &Cursor<'_, R>, out: &mut Text) {
    let (tag, flag) = match cursor.current() {
        Some(entry) => (entry.tag().0, u8::from(entry.has_children())),
        None => (0, 0),
    };
    let (offset, depth) = (cursor.offset().0.into_u64(), cursor.depth());
    write!(out, " {offset:x} {depth} {tag:x} {flag}");
}
