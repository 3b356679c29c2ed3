//! Walks that are told step by step, beside their text and beside their run.

use crate::steps::Told;
use crate::texts::write_with_status;
use crate::units::Stage;
use gimli_base::Reader;
use test_tables::{Call, Outcome, Stop, Text};

/// Writes what the text of a walk says of each step, and after ` > ` what a reader shows besides; then the
/// status; and the text itself where it is another. The text is that of offsets of 64 bits, and is passed over
/// where those of 32 bits have another answer.
pub(crate) fn write_walked<R: Reader>(call: &Call<'_, R>, out: &mut Text) -> Outcome {
    let mut told = Text::new(call.alloc);
    let walked = walk(call, &mut told, out);
    let mut status = Text::new(call.alloc);
    write_status(walked, &mut status);
    out.push_text(&status);
    told.push_text(&status);
    if call.wanted != call.case.wide.as_str() {
        return Ok(());
    }
    let mut text = Text::new(call.alloc);
    write_with_status(call, call.alloc, 0, &mut text)?;
    write_other("the text:", &told, &text, out);
    Ok(())
}

// Writes the status of a walk as its text has it: whether a step was refused, or why there was none.
fn write_status(walked: Outcome<bool>, out: &mut Text) {
    match walked {
        Ok(is_refused) => writeln!(out, "status {}", u8::from(is_refused)),
        Err(Stop::Refused(error)) => writeln!(out, "error {}\nstatus 1", error.number()),
        Err(Stop::Lacks(what)) => writeln!(out, "{what}\nstatus 1"),
    }
}

/// Writes how a walk from a start begins, and what it answers to each step, with all that a refusal carries;
/// and what the run over the same steps holds, where that is another.
pub(crate) fn write_walk_at<R: Reader>(call: &Call<'_, R>, out: &mut Text) -> Outcome {
    let mut told = Text::new(call.alloc);
    let walked = walk(call, &mut told, out);
    let mut held = Text::new(call.alloc);
    let run = Stage::new(call, call.alloc)?.write_run_of(call.name(), call.alloc, &mut held);
    match (walked, run) {
        (Ok(_), Ok(())) => {
            write_other("the run:", &told, &held, out);
            Ok(())
        }
        (Err(Stop::Refused(error)), Err(Stop::Refused(other))) if error == other => {
            Err(Stop::Refused(error))
        }
        _ => Err(Stop::Lacks("another run")),
    }
}

// Writes the walk of a case, and beside it what its text or its run has to be. Answers whether a step was
// refused.
fn walk<R: Reader>(call: &Call<'_, R>, told: &mut Text, out: &mut Text) -> Outcome<bool> {
    let stage = Stage::new(call, call.alloc)?;
    let as_text = !call.name().ends_with("_at");
    let letters = call.case.word(if as_text { 1 } else { 2 }).unwrap_or("");
    if call.name().starts_with("tree") {
        let mut walker = stage.walker(call.alloc)?;
        return Ok(write_steps(&mut walker, letters, as_text, told, out));
    }
    let mut cursor = stage.cursor(call.alloc, call.name().starts_with("cursor"))?;
    Ok(write_steps(&mut cursor, letters, as_text, told, out))
}

// Writes a line for each step, before them how the walk begins where it is not told as text, and beside them
// what its text or its run has to be. Answers whether a step was refused.
fn write_steps<W: Told>(
    walk: &mut W,
    letters: &str,
    as_text: bool,
    told: &mut Text,
    out: &mut Text,
) -> bool {
    if !as_text {
        walk.write_start(out);
        walk.write_shown(false, out);
        writeln!(out);
    }
    let mut is_refused = false;
    for letter in letters.as_bytes() {
        let mut step = Text::new(out.alloc());
        if walk.write_step(*letter, as_text, &mut step) {
            is_refused = true;
        }
        told.push_text(&step);
        writeln!(told);
        out.push_text(&step);
        walk.write_shown(as_text, out);
        writeln!(out);
    }
    is_refused
}

// Writes a text or what a run holds after a heading, where it is not what was told.
fn write_other(heading: &str, told: &Text, other: &Text, out: &mut Text) {
    if !told.is_same(other) {
        writeln!(out, "{heading}");
        out.push_text(other);
    }
}
