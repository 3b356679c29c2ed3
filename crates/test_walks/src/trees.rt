//! Walkers of trees, as answers show them.

use crate::entries::write_found;
use crate::steps::{Told, write_fault};
use gimli_base::{Reader, Result};
use gimli_units::EntriesTreeWalker;
use std::alloc::{Allocator, Global};
use test_tables::Text;

type Walker<'table, R> = EntriesTreeWalker<'table, R, Global>;

/// Takes a step of a walker: `r` asks for the root, `n` for the next node; `i` enters a node, and `o` leaves
/// a list. A letter that names no step finds nothing.
pub(crate) fn take_step<R: Reader, A: Allocator + Copy>(
    walker: &mut EntriesTreeWalker<'_, R, A>,
    letter: u8,
) -> Result<bool> {
    match letter {
        b'r' => {
            walker.root()?;
            Ok(true)
        }
        b'n' => walker.next(),
        b'i' => walker.enter(),
        b'o' => Ok(walker.leave()),
        _ => Ok(false),
    }
}

// Takes a step, and answers its word, or none where it found a node.
fn word_of_step<R: Reader>(walker: &mut Walker<'_, R>, letter: u8) -> Result<Option<&'static str>> {
    if letter == b'n' && walker.list_count() == 0 {
        return Ok(Some("nonode"));
    }
    let has_done = take_step(walker, letter)?;
    Ok(match letter {
        b'r' | b'n' if walker.entry().is_some() => None,
        b'r' | b'n' => Some("end"),
        b'i' if has_done => Some("entered"),
        b'o' if has_done => Some("left"),
        _ => Some("nonode"),
    })
}

impl<'table, R: Reader> Told for Walker<'table, R> {
    fn write_start(&self, out: &mut Text) {
        write!(out, "begins");
    }

    fn write_step(&mut self, letter: u8, as_text: bool, out: &mut Text) -> bool {
        let word = word_of_step(self, letter);
        match word {
            Ok(Some(word)) => write!(out, "{word}"),
            Ok(None) => {
                write!(out, "node");
                write_found(self.entry(), !as_text, out);
            }
            Err(error) => write_fault(error, as_text, out),
        }
        word.is_err()
    }

    fn write_shown(&self, _: bool, out: &mut Text) {
        write!(out, " > reads {}", self.reads());
    }
}
