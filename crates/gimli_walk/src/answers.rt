//! The lines of a run of a cursor.

ghost use Rattle.std.specs.Prelude.{◌≡◌, Bool, true, length, OnOk, IfOk};
ghost use Rattle.std.proofs.Common.{refl, ◌∙◌};
ghost use Rattle.std.specs.Io.KnownBytes.{Appends};
ghost use Rattle.std.specs.Result.{is_err};
ghost use Rattle.gimli_base.specs.Table.{codes_of};
ghost use Rattle.gimli_units.specs.UnitHeld.{unit_view};
ghost use Rattle.gimli_walk.specs.Cursors.{outcome_text, answer_line, answers_text};
ghost use Rattle.gimli_walk.specs.CursorTurns.{answer_at, HasRun};
ghost use Rattle.gimli_walk.specs.Sinks.{HasLined, HasWrittenSteps};
ghost use Rattle.gimli_walk.specs.SinkLaws.{lined_none, lined_more};
ghost use Rattle.gimli_walk.specs.Text.{WroteSteps};

use crate::CursorStep;
use crate::cursor::{first_cursor, run_steps};
use crate::lines::{Stop, WriteFault, write_error, write_row};
use crate::sink::Sink;
use gimli_base::{Abbreviations, Error, Reader, ReaderOffset, Result as AnswerResult};
use gimli_units::{EntriesCursor, UnitHeader};
use std::alloc::Allocator;
use std::io::Write;

// Writes how a step ended, as its line begins: `yes` for true, `no` for false, or `error` and the
// number of the refusal, and a blank. The line goes on after it.
#[tactic(auto, unfolding(crate::specs::Cursors::outcome_text))]
fn write_outcome<W: Write>(out: &mut W, outcome: &AnswerResult<bool>) -> Result<(), WriteFault>
    ensures { OnOk result
        (Appends (W.contents out.old) (W.contents out.new) (outcome_text outcome.now)) }
{
    match outcome {
        Ok(true) => out.write_all(b"yes ").map_err(|_| WriteFault),
        Ok(false) => out.write_all(b"no ").map_err(|_| WriteFault),
        Err(error) => {
            let number = error.number();
            write!(out, "error {number} ").map_err(|_| WriteFault)
        }
    }
}

// Writes the line of a step's answer: how it ended, then the cursor's offset and depth, and the tag
// and `has_children` of its current entry, both 0 where it stands on none.
fn write_answer<R: Reader, A: Allocator, W: Write>(
    out: &mut W,
    outcome: &AnswerResult<bool>,
    cursor: &EntriesCursor<'_, R, A>,
) -> Result<(), WriteFault>
    ensures { OnOk result
        (Appends (W.contents out.old) (W.contents out.new)
        (answer_line (answer_at outcome.now cursor.now))) }
{
    write_outcome(out, outcome)?;
    let offset = cursor.offset().0.into_u64();
    let depth = cursor.depth();
    let mut line = [b' '; 48];
    match cursor.current() {
        Some(entry) => {
            let tag = entry.tag();
            write_row(out, &mut line, offset, depth, tag.0, entry.has_children())
        }
        None => write_row(out, &mut line, offset, depth, 0, false),
    }
}

/// A sink that writes the line of each answer as soon as it takes it.
pub(crate) struct AnswerLines<'a, W> {
    out: &'a mut W,
    // whether an answer was a refusal
    refused: bool,
}

impl<R: Reader, A: Allocator, W: Write> Sink<R, A> for AnswerLines<'_, W> {
    ghost has_received = { λ s answers t. (t.out.ghost_name ≡ s.out.ghost_name)
        × HasLined answer_line (λ a. is_err a.outcome) (W.contents s.out.now) s.refused answers
        (W.contents t.out.now) t.refused };

    ghost writes = { true };

    fn tell(
        &mut self,
        outcome: AnswerResult<bool>,
        cursor: &EntriesCursor<'_, R, A>,
    ) -> Result<(), Stop> {
        write_answer(self.out, &outcome, cursor)?;
        self.refused = self.refused || outcome.is_err();
        Ok(())
    }

    ghost none = { λ s. (refl, lined_none _ _ _ _) };

    ghost more = { λ s t u xs ys h k. (k.0 ∙ h.0, lined_more _ _ _ _ _ _ _ _ xs ys h.1 k.1) };
}

// Takes these steps, and writes the line of each answer. Answers the exit status: 1 where one of
// them was a refusal, else 0. `Stop::Memory`: the lines before the step for which memory was
// refused are written. `Stop::Write`: `out` refused a write.
fn write_answers<R: Reader, A: Allocator + Copy, W: Write>(
    cursor: &mut EntriesCursor<'_, R, A>,
    steps: &[CursorStep],
    out: &mut W,
) -> Result<u8, Stop>
    ensures { let old = W.contents out.old in
        let run = HasRun R.Offset.limit cursor.old steps.now in
        HasWrittenSteps run answers_text old (W.contents out.new) (length steps.now) result }
{
    let mut lines = AnswerLines {
        out,
        refused: false,
    };
    let answer = run_steps(cursor, steps, &mut lines);
    let AnswerLines { out, refused } = lines;
    // No effect at run time. The proof reads what is after `out` from this use.
    let _ = &*out;
    match answer {
        Ok(()) => Ok(u8::from(refused)),
        Err(stop) => Err(stop),
    }
}

/// Writes a line for the answer of each of these steps of a cursor, which stands before the first
/// entry of the unit; `follows` says whether it follows sibling references. Answers the exit
/// status: 1 where an answer was a refusal, else 0. Where memory is refused, the lines of the
/// answers before and then `error 24` are written, and the status is 1.
///
/// Refusal: `WriteFault`, where `out` refuses a write.
pub(crate) fn write_steps<R: Reader, A: Allocator + Copy, W: Write>(
    alloc: A,
    unit: &UnitHeader<R>,
    abbreviations: &Abbreviations<A>,
    follows: bool,
    steps: &[CursorStep],
    out: &mut W,
) -> Result<u8, WriteFault>
    ensures { let u = unit_view unit.now in
        let declared = codes_of abbreviations.now in
        let old = W.contents out.old in
        let new = W.contents out.new in
        IfOk result
        (λ status. WroteSteps R.Offset.limit u declared follows steps.now old new status) }
{
    let mut cursor = first_cursor(alloc, unit, abbreviations, follows);
    match write_answers(&mut cursor, steps, out) {
        Ok(status) => Ok(status),
        Err(Stop::Memory) => {
            write_error(out, Error::OutOfMemory)?;
            Ok(1)
        }
        Err(Stop::Write) => Err(WriteFault),
    }
}
