//! Steps of walks, as letters name them.

use gimli_base::{Error, Reader};
use gimli_walk::{CursorStep, TreeStep};
use test_tables::{Call, Outcome, Text, write_refusal};

/// The steps that letters name.
#[derive(Drop)]
pub(crate) struct Steps {
    /// Those of a cursor: `e` the next entry, `d` the next in depth-first order, `s` the next sibling.
    pub(crate) of_cursor: Vec<CursorStep>,
    /// Those of a tree: `r` the root, `n` the next node, `i` enters the node, `o` leaves the list.
    pub(crate) of_tree: Vec<TreeStep>,
}

/// The steps that the letters of a word name; a letter that names no step is passed over.
pub(crate) fn steps_at<R: Reader>(call: &Call<'_, R>, index: usize) -> Outcome<Steps> {
    let mut of_cursor = Vec::new(call.alloc);
    let mut of_tree = Vec::new(call.alloc);
    for letter in call.case.word(index).unwrap_or("").as_bytes() {
        match letter {
            b'e' => of_cursor.push(CursorStep::NextEntry)?,
            b'd' => of_cursor.push(CursorStep::NextDfs)?,
            b's' => of_cursor.push(CursorStep::NextSibling)?,
            b'r' => of_tree.push(TreeStep::Root)?,
            b'n' => of_tree.push(TreeStep::Next)?,
            b'i' => of_tree.push(TreeStep::Enter)?,
            b'o' => of_tree.push(TreeStep::Leave)?,
            _ => {}
        }
    }
    Ok(Steps { of_cursor, of_tree })
}

/// A walk that is told step by step, as its text or as a run holds it.
pub(crate) trait Told: Drop {
    /// Writes how the walk begins.
    fn write_start(&self, out: &mut Text);

    /// Takes the step of a letter, and writes what its text says of it, or what a run holds. Answers whether
    /// it was refused. A letter that names no step finds nothing.
    fn write_step(&mut self, letter: u8, as_text: bool, out: &mut Text) -> bool;

    /// Writes what a reader shows besides: the number of reads, and what is read next where that is not told.
    fn write_shown(&self, as_text: bool, out: &mut Text);
}

/// Writes a refusal as the text of a walk does, or with all that it carries.
pub(crate) fn write_fault(error: Error, as_text: bool, out: &mut Text) {
    if as_text {
        write!(out, "error {}", error.number());
    } else {
        write_refusal(out, error);
    }
}
