//! Runs of a tree over a list of steps.

ghost use Rattle.std.specs.Prelude.{◌≡◌, Option, true, false, length, [], ◌∷◌, OnOk, Ok, Err};
ghost use Rattle.std.specs.Option.{option_map};
ghost use Rattle.gimli_base.specs.declared.error.Error.TheVariants.{OutOfMemory};
ghost use Rattle.gimli_base.specs.Offset.{answer_of};
ghost use Rattle.gimli_base.specs.Table.{codes_of};
ghost use Rattle.gimli_units.specs.TreePlace.{a_fault};
ghost use Rattle.gimli_walk.specs.declared.lines.Stop.TheVariants.{Memory, Write as WriteStop};
ghost use Rattle.gimli_walk.specs.declared.tree.TreeStep.TheVariants.{Root, Next, Enter, Leave};
ghost use Rattle.gimli_walk.specs.Cursors.{IsStopped};
ghost use Rattle.gimli_walk.specs.Runs.{answers_of_run};
ghost use Rattle.gimli_walk.specs.Sinks.{HasCollected, HasAnsweredSteps};
ghost use Rattle.gimli_walk.specs.SinkLaws.{collected_none, collected_more};
ghost use Rattle.gimli_walk.specs.Trees.{step_answer_by, step_answers_by, tree_view};
ghost use Rattle.gimli_walk.specs.TrueStepAnswers.{IsTreeRunFrom};
ghost use Rattle.gimli_walk.specs.TreeTurns.{word_answer, standing_answer, HasAnsweredTurn, HasTreeRun};
ghost use Rattle.gimli_units.specs.UnitHeld.{unit_view};

use crate::Run;
use crate::lines::Stop;
use crate::sink::TreeSink;
use gimli_base::{Abbreviations, Error, Reader, Result};
use gimli_units::{DebuggingInformationEntry, EntriesTreeWalker, UnitHeader, UnitOffset};
use std::alloc::Allocator;
use std::result::Result as StdResult;

/// A step of a walk over a tree.
#[derive(Clone, Copy, Debug, PartialEq, Eq)]
pub enum TreeStep {
    /// Drops all lists, and asks for the root.
    Root,
    /// Asks the innermost list for its next node.
    Next,
    /// Opens the list of the node's children.
    Enter,
    /// Closes the innermost list.
    Leave,
}

/// What a step of a walk over a tree answers.
#[derive(Drop)]
#[derive_where(Debug; R, Offset)]
pub enum TreeAnswer<R, A: Allocator, Offset = <R as Reader>::Offset> {
    /// The node, by its entry.
    Node(DebuggingInformationEntry<R, A, Offset>),
    /// The list is at its end.
    End,
    /// The node's list is open.
    Entered,
    /// The innermost list is closed.
    Left,
    /// There is no node to enter, or no list to ask or to leave.
    NoNode,
    /// What stands next was refused.
    Fault(Error),
}

/// An answer that is no node.
#[derive(Clone, Copy)]
pub(crate) enum Word {
    /// The list is at its end.
    End,
    /// The node's list is open.
    Entered,
    /// The innermost list is closed.
    Left,
    /// There is no node to enter, or no list to ask or to leave.
    NoNode,
    /// What stands next was refused.
    Fault(Error),
}

// Whether a refusal is `OutOfMemory`.
fn is_memory(error: Error) -> bool
    ensures { result ≡ false → error ≡ OutOfMemory → ⊥ }
{
    matches!(error, Error::OutOfMemory)
}

// Hands to the sink what was refused. Refused memory is not handed on, but stops the run:
// `Stop::Memory`.
fn tell_fault<R: Reader, A: Allocator, S: TreeSink<R, A>>(
    error: Error,
    sink: &mut S,
) -> StdResult<(), Stop>
    ensures answer { OnOk result (S.has_received sink.old (a_fault error ∷ []) sink.new) }
    ensures fine { OnOk result (error ≡ OutOfMemory → ⊥) }
    ensures kept { result ≡ Err Memory → S.has_received sink.old [] sink.new }
    ensures fault { result ≡ Err WriteStop → S.writes ≡ true }
{
    if is_memory(error) {
        return Err(Stop::Memory);
    }
    sink.tell(Word::Fault(error))
}

// Hands to the sink the node that a walker stands on, or the end of the list where it stands on
// none.
fn tell_found<R: Reader, A: Allocator, S: TreeSink<R, A>>(
    walker: &EntriesTreeWalker<'_, R, A>,
    sink: &mut S,
) -> StdResult<(), Stop>
    ensures answer { OnOk result
        (S.has_received sink.old (standing_answer walker.now ∷ []) sink.new) }
    ensures kept { result ≡ Err Memory → S.has_received sink.old [] sink.new }
    ensures fault { result ≡ Err WriteStop → S.writes ≡ true }
{
    match walker.entry() {
        Some(entry) => sink.tell_node(entry),
        None => sink.tell(Word::End),
    }
}

// The step to the tree's root, which is the entry at its start; all lists are dropped. Hands on the
// node or what was refused; refused memory is not handed on, but stops the run.
fn turn_root<R: Reader, A: Allocator, S: TreeSink<R, A>>(
    walker: &mut EntriesTreeWalker<'_, R, A>,
    sink: &mut S,
) -> StdResult<(), Stop>
    ensures turned { OnOk result
        (HasAnsweredTurn R.Offset.limit Root walker.old walker.new
        (λ answers. S.has_received sink.old answers sink.new)) }
    ensures kept { result ≡ Err Memory → S.has_received sink.old [] sink.new }
    ensures fault { result ≡ Err WriteStop → S.writes ≡ true }
{
    match walker.root() {
        Ok(()) => tell_found(walker, sink),
        Err(error) => tell_fault::<R, A, S>(error, sink),
    }
}

// The step to the next node of the innermost list of children. Hands on the node, the list's end,
// or what was refused, and `NoNode` where there is no list; refused memory is not handed on, but
// stops the run.
fn turn_next<R: Reader, A: Allocator, S: TreeSink<R, A>>(
    walker: &mut EntriesTreeWalker<'_, R, A>,
    sink: &mut S,
) -> StdResult<(), Stop>
    ensures turned { OnOk result
        (HasAnsweredTurn R.Offset.limit Next walker.old walker.new
        (λ answers. S.has_received sink.old answers sink.new)) }
    ensures kept { result ≡ Err Memory → S.has_received sink.old [] sink.new }
    ensures fault { result ≡ Err WriteStop → S.writes ≡ true }
{
    if walker.list_count() == 0 {
        return sink.tell(Word::NoNode);
    }
    match walker.next() {
        Ok(_) => tell_found(walker, sink),
        Err(error) => tell_fault::<R, A, S>(error, sink),
    }
}

// The step into the list of the node, also of one without children. Hands on `Entered`, or `NoNode`
// where the walk stands on no node; refused memory stops the run.
fn turn_enter<R: Reader, A: Allocator, S: TreeSink<R, A>>(
    walker: &mut EntriesTreeWalker<'_, R, A>,
    sink: &mut S,
) -> StdResult<(), Stop>
    ensures turned { OnOk result
        (HasAnsweredTurn R.Offset.limit Enter walker.old walker.new
        (λ answers. S.has_received sink.old answers sink.new)) }
    ensures kept { result ≡ Err Memory → S.has_received sink.old [] sink.new }
    ensures fault { result ≡ Err WriteStop → S.writes ≡ true }
{
    match walker.enter() {
        Ok(true) => sink.tell(Word::Entered),
        Ok(false) => sink.tell(Word::NoNode),
        Err(_) => Err(Stop::Memory),
    }
}

// The step out of the innermost list. Hands on `Left`, and the walk stands on no node then; or
// `NoNode` where there is no list, and nothing moves.
fn turn_leave<R: Reader, A: Allocator, S: TreeSink<R, A>>(
    walker: &mut EntriesTreeWalker<'_, R, A>,
    sink: &mut S,
) -> StdResult<(), Stop>
    ensures turned { OnOk result
        (HasAnsweredTurn R.Offset.limit Leave walker.old walker.new
        (λ answers. S.has_received sink.old answers sink.new)) }
    ensures kept { result ≡ Err Memory → S.has_received sink.old [] sink.new }
    ensures fault { result ≡ Err WriteStop → S.writes ≡ true }
{
    if walker.leave() {
        sink.tell(Word::Left)
    } else {
        sink.tell(Word::NoNode)
    }
}

// Takes one step, and hands its answer to the sink. `Stop::Memory`: memory was refused for the step
// or for its answer, and nothing is handed on. `Stop::Write`, only of a sink that writes: it is
// left anywhere.
fn turn<R: Reader, A: Allocator, S: TreeSink<R, A>>(
    walker: &mut EntriesTreeWalker<'_, R, A>,
    step: TreeStep,
    sink: &mut S,
) -> StdResult<(), Stop>
    ensures turned { OnOk result
        (HasAnsweredTurn R.Offset.limit step walker.old walker.new
        (λ answers. S.has_received sink.old answers sink.new)) }
    ensures kept { result ≡ Err Memory → S.has_received sink.old [] sink.new }
    ensures fault { result ≡ Err WriteStop → S.writes ≡ true }
{
    match step {
        TreeStep::Root => turn_root(walker, sink),
        TreeStep::Next => turn_next(walker, sink),
        TreeStep::Enter => turn_enter(walker, sink),
        TreeStep::Leave => turn_leave(walker, sink),
    }
}

/// Takes these steps in order, and hands the answer of each to the sink, a refusal too.
/// `Stop::Memory`: memory was refused for a step or for its answer, and the sink has the answers
/// before. `Stop::Write`, only of a sink that writes: it is left anywhere.
pub(crate) fn run_steps<R: Reader, A: Allocator, S: TreeSink<R, A>>(
    walker: &mut EntriesTreeWalker<'_, R, A>,
    steps: &[TreeStep],
    sink: &mut S,
) -> StdResult<(), Stop>
    ensures { let received = S.has_received sink.old in
        let run = HasTreeRun R.Offset.limit walker.old steps.now in
        HasAnsweredSteps run (λ all. received all sink.new) S.writes (length steps.now) result }
{
    'steps: for step in steps {
        turn(walker, *step, sink)?;
    }
    Ok(())
}

// The answer that a word is.
fn answer_of_word<R: Reader, A: Allocator>(word: Word) -> TreeAnswer<R, A>
    ensures { step_answer_by R.view R.Offset.number result ≡ word_answer word }
{
    match word {
        Word::End => TreeAnswer::End,
        Word::Entered => TreeAnswer::Entered,
        Word::Left => TreeAnswer::Left,
        Word::NoNode => TreeAnswer::NoNode,
        Word::Fault(error) => TreeAnswer::Fault(error),
    }
}

// A sink that holds the answers in memory.
#[derive(Drop)]
struct Collected<R: Reader, A: Allocator> {
    alloc: A,
    answers: Vec<TreeAnswer<R, A>, A>,
}

impl<R: Reader, A: Allocator + Copy> TreeSink<R, A> for Collected<R, A> {
    ghost has_received = { λ s answers t.
        HasCollected (step_answer_by R.view R.Offset.number) (λ x. Unit {0})
        s.answers.items answers t.answers.items };

    ghost writes = { false };

    fn tell_node(&mut self, entry: &DebuggingInformationEntry<R, A>) -> StdResult<(), Stop> {
        let Ok(copy) = entry.try_clone(self.alloc) else {
            return Err(Stop::Memory);
        };
        match self.answers.push(TreeAnswer::Node(copy)) {
            Ok(()) => {}
            Err(_) => return Err(Stop::Memory),
        }
        Ok(())
    }

    fn tell(&mut self, word: Word) -> StdResult<(), Stop> {
        match self.answers.push(answer_of_word(word)) {
            Ok(()) => {}
            Err(_) => return Err(Stop::Memory),
        }
        Ok(())
    }

    ghost none = { λ s. collected_none _ _ _ };

    ghost more = { λ s t u xs ys h k. collected_more _ _ _ _ _ xs ys h k };
}

// The answers to these steps. Where memory is refused, for a step or for its answer, the run is
// stopped, and holds the answers before.
fn collect_steps<R: Reader, A: Allocator + Copy>(
    alloc: A,
    walker: &mut EntriesTreeWalker<'_, R, A>,
    steps: &[TreeStep],
) -> Run<TreeAnswer<R, A>, A>
    ensures run { HasTreeRun R.Offset.limit walker.old steps.now
        (step_answers_by R.view R.Offset.number result.answers.items) }
    ensures stopped { IsStopped result.stopped (length result.answers.items) (length steps.now) }
{
    let mut collected = Collected {
        alloc,
        answers: Vec::new(alloc),
    };
    let stopped = run_steps(walker, steps, &mut collected).is_err();
    Run {
        answers: collected.answers,
        stopped,
    }
}

/// The answers of a tree to these steps, whose entries are those from the offset `start` of the
/// unit on, or from the first; sibling references are followed.
///
/// Where the rows from the start are honest they are the definition's answers. Whatever the
/// references, each is one that its step can give, and true: a node's entry is what the unit has at
/// its offset, each root is the tree's, and from a root to the next the offsets of nodes grow. And
/// each step leads from where the one before stood to where the definition says, but for a node
/// that is sought by references that are not honest, which stands ahead all the same. Lists are
/// kept in a stack of their own, so that a walk takes none of the machine's.
///
/// Refusal: `OffsetOutOfBounds` of the start, also without one where the unit has no bytes of
/// entries. Where memory is refused the run is stopped, and holds the answers before.
pub fn run_tree<R: Reader, A: Allocator + Copy>(
    alloc: A,
    unit: &UnitHeader<R>,
    abbreviations: &Abbreviations<A>,
    start: Option<UnitOffset<R::Offset>>,
    steps: &[TreeStep],
) -> Result<Run<TreeAnswer<R, A>, A>>
    ensures { let u = unit_view unit.now in
        let from = tree_view u (option_map (λ o. R.Offset.number o.0) start) in
        IsTreeRunFrom R.Offset.limit u (codes_of abbreviations.now) steps.now from
        (answer_of (answers_of_run (step_answer_by R.view R.Offset.number)) result) }
{
    let tree = unit.entries_tree(alloc, abbreviations, start)?;
    let mut walker = tree.walk(alloc);
    Ok(collect_steps(alloc, &mut walker, steps))
}
