//! Texts of walks, and what the words of the program write.

use crate::steps::{Steps, steps_at};
use gimli_base::Reader;
use gimli_walk::{Mode, WriteFault, dump_text, dump_to_vec, find_text, run_words, walk_text};
use std::alloc::{AllocError, Allocator, Global};
use std::io::Write;
use test_tables::{Call, Case, Outcome, Text};

// The mode of a walk that a word names.
fn mode_of<'steps>(name: &str, steps: &'steps Steps) -> Mode<'steps> {
    match name {
        "check" => Mode::Check,
        "cursor" => Mode::Cursor(&steps.of_cursor),
        "plain" => Mode::Plain(&steps.of_cursor),
        "tree" => Mode::Tree(&steps.of_tree),
        _ => Mode::Rows,
    }
}

/// Writes the text that the word at an index names, and answers its status. The word after it has the
/// steps, or the address that is sought.
pub(crate) fn write_text<R: Reader, A: Allocator + Copy, W: Write>(
    call: &Call<'_, R>,
    heap: A,
    index: usize,
    out: &mut W,
) -> Outcome<Result<u8, WriteFault>> {
    let info = call.case.section(0).unwrap_or(&[]);
    let abbrev = call.case.section(1).unwrap_or(&[]);
    let next = index.saturating_add(1);
    let steps = steps_at(call, next)?;
    match call.case.word(index).unwrap_or("") {
        "dump" => Ok(dump_text(heap, info, abbrev, out)),
        "find" => Ok(find_text(call.number(next)?, info, out)),
        name => Ok(walk_text(heap, mode_of(name, &steps), info, abbrev, out)),
    }
}

/// Writes a dump that is put after a line, and its status; where it is refused, what is left.
pub(crate) fn write_dump<R: Reader, A: Allocator + Copy>(
    call: &Call<'_, R>,
    heap: A,
    out: &mut Text,
) -> Outcome {
    let info = call.case.section(0).unwrap_or(&[]);
    let abbrev = call.case.section(1).unwrap_or(&[]);
    let mut text = Vec::from_slice(heap, b"held\n")?;
    let status = dump_to_vec(heap, info, abbrev, &mut text);
    out.push_bytes(&text);
    writeln!(out, "status {}", status?);
    Ok(())
}

// A word of the program: `""` stands for one without letters, and `_` for a space.
fn word_of(alloc: Global, word: &str) -> Result<String, AllocError> {
    match word.split_once("_") {
        Some((front, back)) => format!(in alloc; "{front} {back}"),
        None if word == "\"\"" => Ok(String::new(alloc)),
        None => String::from_str(alloc, word),
    }
}

// The bytes of the file of a name, if it can be read.
fn read_file(alloc: Global, case: &Case, name: &str) -> Option<Vec<u8>> {
    match name {
        "info" => Vec::from_slice(alloc, case.section(0)?).ok(),
        "abbrev" => Vec::from_slice(alloc, case.section(1)?).ok(),
        "empty" => Some(Vec::new(alloc)),
        _ => None,
    }
}

// Writes what the words after the first make the program write, on standard output and then on standard
// error, and answers its status.
fn write_words<R: Reader, A: Allocator + Copy>(
    call: &Call<'_, R>,
    heap: A,
    out: &mut Vec<u8>,
) -> Outcome<u8> {
    let (alloc, case) = (call.alloc, call.case);
    let mut held = Vec::new(alloc);
    for word in case.words.iter().skip(1) {
        held.push(word_of(alloc, word)?)?;
    }
    let mut words = Vec::new(alloc);
    for word in &held {
        words.push(word.as_str())?;
    }
    let read = |name: &str| -> Option<Vec<u8>> { read_file(alloc, case, name) };
    let mut err = Vec::new(alloc);
    let status = run_words(heap, &words, &read, out, &mut err);
    if !err.is_empty() {
        out.extend_from_slice(b"stderr ")?;
        out.extend_from_slice(&err)?;
    }
    Ok(status)
}

/// Writes what the words of the program write, or else the text that the word at an index names, and then
/// the status.
pub(crate) fn write_with_status<R: Reader, A: Allocator + Copy>(
    call: &Call<'_, R>,
    heap: A,
    index: usize,
    out: &mut Text,
) -> Outcome {
    let mut text = Vec::new(call.alloc);
    let status = match call.name() {
        "words" => Ok(write_words(call, heap, &mut text)?),
        _ => write_text(call, heap, index, &mut text)?,
    };
    out.push_bytes(&text);
    match status {
        Ok(status) => writeln!(out, "status {status}"),
        Err(WriteFault) => writeln!(out, "no status"),
    }
    Ok(())
}
