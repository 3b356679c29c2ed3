//! The lines of a run of a tree.

ghost use Rattle.std.specs.Prelude.{◌≡◌, Bool, true, length, OnOk, IfOk, None};
ghost use Rattle.std.proofs.Common.{refl, ◌∙◌};
ghost use Rattle.std.specs.Io.KnownBytes.{Appends};
ghost use Rattle.gimli_base.specs.Table.{codes_of};
ghost use Rattle.gimli_units.specs.TreePlace.{a_node};
ghost use Rattle.gimli_units.specs.TreeWalker.{node_held};
ghost use Rattle.gimli_units.specs.UnitHeld.{unit_view};
ghost use Rattle.gimli_units.specs.UnitRows.{IsHonestFrom};
ghost use Rattle.gimli_walk.specs.Sinks.{HasLined, HasWrittenSteps};
ghost use Rattle.gimli_walk.specs.SinkLaws.{lined_none, lined_more};
ghost use Rattle.gimli_walk.specs.Text.{Wrote};
ghost use Rattle.gimli_walk.specs.Trees.{step_answer_line, step_answers_text, is_fault, tree_view};
ghost use Rattle.gimli_walk.specs.Trees.{run_tree_answers, run_text_of};
ghost use Rattle.gimli_walk.specs.TreeText.{WroteTrueTree};
ghost use Rattle.gimli_walk.specs.TreeTurns.{word_answer, HasTreeRun};

use crate::TreeStep;
use crate::lines::{Stop, WriteFault, write_end, write_error, write_row};
use crate::sink::TreeSink;
use crate::tree::{Word, run_steps};
use gimli_base::{Abbreviations, Error, Reader, ReaderOffset};
use gimli_units::{DebuggingInformationEntry, EntriesTreeWalker, UnitHeader};
use std::alloc::Allocator;
use std::io::Write;

// Writes the line of a node: `node`, and its row as `write_row` writes it.
#[tactic(auto, unfolding(crate::specs::Trees::step_answer_line, crate::specs::Trees::node_line))]
fn write_node<R: Reader, A: Allocator, W: Write>(
    out: &mut W,
    entry: &DebuggingInformationEntry<R, A>,
) -> Result<(), WriteFault>
    ensures { OnOk result
        (Appends (W.contents out.old) (W.contents out.new)
        (step_answer_line (a_node (node_held R.view R.Offset.number entry.now)))) }
{
    out.write_all(b"node ").map_err(|_| WriteFault)?;
    let offset = entry.offset().0.into_u64();
    let mut line = [b' '; 48];
    write_row(
        out,
        &mut line,
        offset,
        entry.depth(),
        entry.tag().0,
        entry.has_children(),
    )
}

// Writes the line of an answer that is no node: `end`, `entered`, `left`, `nonode`, or `error` and
// the number of the refusal.
#[tactic(auto, unfolding(crate::specs::Trees::step_answer_line))]
fn write_word<W: Write>(out: &mut W, word: Word) -> Result<(), WriteFault>
    ensures { OnOk result
        (Appends (W.contents out.old) (W.contents out.new) (step_answer_line (word_answer word))) }
{
    match word {
        Word::End => write_end(out),
        Word::Entered => out.write_all(b"entered\n").map_err(|_| WriteFault),
        Word::Left => out.write_all(b"left\n").map_err(|_| WriteFault),
        Word::NoNode => out.write_all(b"nonode\n").map_err(|_| WriteFault),
        Word::Fault(error) => write_error(out, error),
    }
}

// Whether a word is `Word::Fault`, the answer where something was refused.
fn is_refusal(word: Word) -> bool
    ensures { result ≡ is_fault (word_answer word) }
{
    matches!(word, Word::Fault(_))
}

// A sink that writes the line of each answer as soon as it takes it.
struct NodeLines<'a, W> {
    out: &'a mut W,
    // whether an answer was a refusal
    refused: bool,
}

impl<R: Reader, A: Allocator, W: Write> TreeSink<R, A> for NodeLines<'_, W> {
    ghost has_received = { λ s answers t. (t.out.ghost_name ≡ s.out.ghost_name)
        × HasLined step_answer_line is_fault (W.contents s.out.now) s.refused answers
        (W.contents t.out.now) t.refused };

    ghost writes = { true };

    fn tell_node(&mut self, entry: &DebuggingInformationEntry<R, A>) -> Result<(), Stop> {
        write_node(self.out, entry)?;
        Ok(())
    }

    fn tell(&mut self, word: Word) -> Result<(), Stop> {
        write_word(self.out, word)?;
        self.refused = self.refused || is_refusal(word);
        Ok(())
    }

    ghost none = { λ s. (refl, lined_none _ _ _ _) };

    ghost more = { λ s t u xs ys h k. (k.0 ∙ h.0, lined_more _ _ _ _ _ _ _ _ xs ys h.1 k.1) };
}

// Takes these steps, and writes the line of each answer. Answers the exit status: 1 where one of
// them was a refusal, else 0. `Stop::Memory`: the lines before the step for which memory was
// refused are written. `Stop::Write`: `out` refused a write.
fn write_answers<R: Reader, A: Allocator, W: Write>(
    walker: &mut EntriesTreeWalker<'_, R, A>,
    steps: &[TreeStep],
    out: &mut W,
) -> Result<u8, Stop>
    ensures { let old = W.contents out.old in
        let run = HasTreeRun R.Offset.limit walker.old steps.now in
        HasWrittenSteps run step_answers_text old (W.contents out.new) (length steps.now) result }
{
    let mut lines = NodeLines {
        out,
        refused: false,
    };
    let answer = run_steps(walker, steps, &mut lines);
    let NodeLines { out, refused } = lines;
    // No effect at run time. The proof reads what is after `out` from this use.
    let _ = &*out;
    match answer {
        Ok(()) => Ok(u8::from(refused)),
        Err(stop) => Err(stop),
    }
}

/// Writes a line for the answer of each of these steps in the tree of all entries of a unit, in
/// which sibling references are followed. Answers the exit status: 1 where an answer was a refusal,
/// else 0. A unit without bytes of entries has one line `error` and the status 1. Where memory is
/// refused, the lines of the answers before and then `error 24` are written, and the status is 1.
///
/// Refusal: `WriteFault`, where `out` refuses a write.
pub(crate) fn write_tree_steps<R: Reader, A: Allocator + Copy, W: Write>(
    alloc: A,
    unit: &UnitHeader<R>,
    abbreviations: &Abbreviations<A>,
    steps: &[TreeStep],
    out: &mut W,
) -> Result<u8, WriteFault>
    ensures text { let u = unit_view unit.now in
        let declared = codes_of abbreviations.now in
        let text = run_text_of (run_tree_answers R.Offset.limit u declared None steps.now) in
        IsHonestFrom R.Offset.limit u declared (tree_view u None) →
        IfOk result (λ status. Wrote (W.contents out.old) (W.contents out.new) text status) }
    ensures true_lines { let u = unit_view unit.now in
        let declared = codes_of abbreviations.now in
        let old = W.contents out.old in
        let new = W.contents out.new in
        IfOk result (λ status. WroteTrueTree R.Offset.limit u declared steps.now old new status) }
{
    let tree = match unit.entries_tree(alloc, abbreviations, None) {
        Ok(tree) => tree,
        Err(error) => {
            write_error(out, error)?;
            return Ok(1);
        }
    };
    let mut walker = tree.walk(alloc);
    match write_answers(&mut walker, steps, out) {
        Ok(status) => Ok(status),
        Err(Stop::Memory) => {
            write_error(out, Error::OutOfMemory)?;
            Ok(1)
        }
        Err(Stop::Write) => Err(WriteFault),
    }
}
