//! Entries of lists that are read and converted by turns.

use crate::lists::{locations_of, ranges_of};
use crate::shown::{Shown, write_line};
use gimli_base::{DebugArangesOffset, Reader, ReaderOffset, Result};
use gimli_lists::{
    ArangeEntry, ArangeEntryIter, DebugAranges, LocListIter, RawLocListEntry, RawRngListEntry,
    RngListIter,
};
use test_tables::{Call, Outcome, Stop, Text};

// What reads the entries of a list as they are written, and what they stand for.
trait Turns: Drop {
    type Raw: Drop;

    // Takes the turn of a letter, and writes a line for it; keeps an entry that is read as it is written.
    fn turn(&mut self, letter: u8, raws: &mut Vec<Self::Raw>, out: &mut Text) -> Outcome;
}

// What the turn of a letter does: `r` reads an entry as it is written, `n` what the next one stands for, and a
// digit converts the entry that so many others were read before by `r`.
macro_rules! take_turn {
    ($list:expr, $letter:expr, $raws:expr, $out:expr) => {
        match $letter {
            b'r' => {
                let raw = $list.next_raw();
                write_answer("raw", &raw, $out);
                if let Ok(Some(raw)) = raw {
                    $raws.push(raw)?;
                }
            }
            b'n' => write_answer("next", &$list.next(), $out),
            digit => {
                let index = usize::from(digit.wrapping_sub(b'0'));
                let raw = $raws.get(index).ok_or(Stop::Lacks("no such entry"))?;
                write_answer("is", &$list.convert_raw(raw.copy()), $out);
            }
        }
    };
}

impl<R: Reader> Turns for RngListIter<R> {
    type Raw = RawRngListEntry<R::Offset>;

    fn turn(&mut self, letter: u8, raws: &mut Vec<Self::Raw>, out: &mut Text) -> Outcome {
        take_turn!(self, letter, raws, out);
        Ok(())
    }
}

impl<R: Reader> Turns for LocListIter<R> {
    type Raw = RawLocListEntry<R>;

    fn turn(&mut self, letter: u8, raws: &mut Vec<Self::Raw>, out: &mut Text) -> Outcome {
        take_turn!(self, letter, raws, out);
        Ok(())
    }
}

impl<R: Reader> Turns for ArangeEntryIter<R> {
    type Raw = ArangeEntry;

    fn turn(&mut self, letter: u8, raws: &mut Vec<Self::Raw>, out: &mut Text) -> Outcome {
        take_turn!(self, letter, raws, out);
        Ok(())
    }
}

/// Writes what the turns of a range list or a location list, or of a set, answer. The letters are the word
/// before the last; the other words are those of `ranges`, `locations` and `set`.
pub(crate) fn write_turns<R: Reader>(call: &Call<'_, R>, out: &mut Text) -> Outcome {
    match call.name() {
        "range_turns" => take_turns(call, ranges_of(call)?, out),
        "location_turns" => take_turns(call, locations_of(call)?, out),
        _ => {
            let offset = DebugArangesOffset(call.offset_or_zero(2)?);
            let header = DebugAranges::from(call.section(0)?).header(offset)?;
            take_turns(call, header.entries(), out)
        }
    }
}

// Takes a turn for each letter.
fn take_turns<R: Reader, T: Turns>(call: &Call<'_, R>, mut turns: T, out: &mut Text) -> Outcome {
    let mut raws = Vec::new(call.alloc);
    let letters = call.word(call.case.words.len().saturating_sub(2))?;
    for letter in letters.as_bytes() {
        turns.turn(*letter, &mut raws, out)?;
    }
    Ok(())
}

// Writes a word and what a turn answers.
fn write_answer<T: Shown>(word: &str, answer: &Result<Option<T>>, out: &mut Text) {
    write!(out, "{word} ");
    write_line(answer, out);
}
