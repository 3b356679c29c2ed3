//! Walks, whose steps are letters.

use crate::entries::write_outcome;
use crate::memory::trial::Heap;
use gimli_base::{Error, Result};
use test_tables::Text;

/// An allocator that refuses, the number of the first request that it refuses, and the letters of the steps.
pub(crate) type Given<'h> = (Heap<'h>, u64, Option<&'h str>);

/// A walk.
pub(crate) trait Walk {
    /// Takes the step of a letter. A letter that names no step finds nothing.
    fn take(&mut self, letter: u8) -> Result<bool>;

    /// Writes where the walk stands.
    fn show(&self, out: &mut Text);
}

// Takes steps up to the first that memory was refused for, and writes a line for each. Answers the letters
// from that one on, or none where none was refused.
fn take_all<'a, T: Walk>(walk: &mut T, word: &'a [u8], out: &mut Text) -> &'a [u8] {
    for (at, letter) in word.iter().enumerate() {
        let outcome = walk.take(*letter);
        write_outcome(outcome, out);
        walk.show(out);
        writeln!(out);
        if outcome == Err(Error::OutOfMemory) {
            return word.get(at..).unwrap_or(b"");
        }
    }
    b""
}

// The steps that find nothing after one that memory was refused for, since it ends the walk or all lists.
fn ended_by(letter: u8) -> &'static [u8] {
    match letter {
        b'e' | b'd' | b's' => b"edse",
        b'r' | b'n' | b'm' => b"nmn",
        _ => b"",
    }
}

/// Takes the steps of a walk, and writes a line for each. After a refusal of memory steps follow that find
/// nothing and ask for none, after which a walk that is not ended takes the same step again and goes on, one
/// that begins with the root begins anew, and any other stays where it stands.
pub(crate) fn write_walk<T: Walk>((heap, number, word): Given<'_>, walk: &mut T, out: &mut Text) {
    let letters = word.unwrap_or("").as_bytes();
    let left = take_all(walk, letters, out);
    let [letter, ..] = left else {
        return;
    };
    let ended = ended_by(*letter);
    if heap.requests() != number {
        writeln!(out, "asked on");
    }
    let mut stood = Text::new(out.alloc());
    walk.show(&mut stood);
    for step in ended {
        if walk.take(*step) != Ok(false) {
            writeln!(out, "goes on");
        }
    }
    let mut stands = Text::new(out.alloc());
    walk.show(&mut stands);
    if heap.requests() != number {
        writeln!(out, "asks on");
    }
    if ended.is_empty() {
        take_all(walk, left, out);
    } else if letters.starts_with(b"r") {
        take_all(walk, letters, out);
    } else if !stood.is_same(&stands) {
        writeln!(out, "moves");
    }
}
