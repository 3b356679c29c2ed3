//! Runs of a cursor over a list of steps.

ghost use Rattle.std.specs.Prelude.{◌≡◌, ℕ, ◌<◌, true, false, map, length, IfOk, IfSome, Ok, Err};
ghost use Rattle.std.specs.Prelude.{Some, Option};
ghost use Rattle.std.specs.List.{All};
ghost use Rattle.std.specs.Option.{option_map};
ghost use Rattle.gimli_base.specs.declared.error.Error.{Error as SpecError};
ghost use Rattle.gimli_base.specs.declared.error.Error.TheVariants.{OutOfMemory};
ghost use Rattle.gimli_base.specs.Reading.{UnlessMemory};
ghost use Rattle.gimli_base.specs.Offset.{answer_of};
ghost use Rattle.gimli_base.specs.Table.{codes_of};
ghost use Rattle.gimli_units.specs.Entry.{entry_of, is_null};
ghost use Rattle.gimli_units.specs.CursorPlace.{some_of, first_of_rows};
ghost use Rattle.gimli_units.specs.CursorModel.{Goes, IsHonestFor, followed_to, rows_from};
ghost use Rattle.gimli_units.specs.CursorModel.{IsSameUnit, IsTrueEntry, IsRefused, IsNotFound};
ghost use Rattle.gimli_units.specs.CursorModel.{IsFurther};
ghost use Rattle.gimli_units.specs.SearchSteps.{Stands};
ghost use Rattle.gimli_units.specs.CursorStart.{cursor_of, cursor_start};
ghost use Rattle.gimli_units.specs.UnitRows.{start_view};
ghost use Rattle.gimli_walk.specs.Cursors.{answer_held, IsPaired, step_of, is_sibling};
ghost use Rattle.gimli_walk.specs.Runs.{answers_of_run};
ghost use Rattle.gimli_walk.specs.TrueAnswers.{IsRunFrom};
ghost use Rattle.gimli_walk.specs.CursorTurns.{HasRun};
ghost use Rattle.gimli_walk.specs.Sinks.{HasCollected, HasAnsweredSteps};
ghost use Rattle.gimli_walk.specs.SinkLaws.{collected_none, collected_more};
ghost use Rattle.gimli_units.specs.UnitHeld.{unit_view};

use crate::Run;
use crate::lines::Stop;
use crate::sink::Sink;
use gimli_base::{Abbreviations, Error, Reader, Result};
use gimli_units::{DebuggingInformationEntry, EntriesCursor, UnitHeader, UnitOffset};
use std::alloc::Allocator;
use std::result::Result as StdResult;

/// A step of a cursor.
#[derive(Clone, Copy, Debug, PartialEq, Eq)]
pub enum CursorStep {
    /// The next entry, or the null after it.
    NextEntry,
    /// The next entry that is no null.
    NextDfs,
    /// The next sibling of the current entry.
    NextSibling,
}

/// What a step answered, and where the cursor then stood.
#[derive(Drop)]
#[derive_where(Debug; R, Offset)]
pub struct CursorAnswer<R, A: Allocator, Offset = <R as Reader>::Offset> {
    /// Whether there is an entry, for `NextEntry` also a null, or the refusal.
    pub outcome: Result<bool>,
    /// The current entry.
    pub current: Option<DebuggingInformationEntry<R, A, Offset>>,
    /// What `EntriesCursor::offset` gives.
    pub offset: UnitOffset<Offset>,
    /// What `EntriesCursor::depth` gives.
    pub depth: isize,
    /// The offset of what is read next.
    pub next_offset: UnitOffset<Offset>,
    /// The depth of what is read next.
    pub next_depth: isize,
}

// Takes a step. Answers true where there is an entry, for `NextEntry` also a null. False: nothing
// is left, or, for `NextSibling`, a null closes the list first, or there is no current entry.
// Refusals: those of `EntriesRaw::read_entry`; nothing is left to read then, and there is no
// current entry.
fn take<R: Reader, A: Allocator>(
    cursor: &mut EntriesCursor<'_, R, A>,
    step: CursorStep,
) -> Result<bool>
    ensures moves { (is_sibling step ≡ true → cursor.old.follows ≡ true
        → IsHonestFor R.Offset.limit cursor.old.depth cursor.old)
        → UnlessMemory result
        (Goes R.Offset.limit (step_of cursor.old.raw.end step) cursor.old result cursor.new) }
    ensures true_entry { result ≡ Ok true → IsTrueEntry R.Offset.limit cursor.old cursor.new }
    ensures idle { is_sibling step ≡ true → is_null cursor.old.entry ≡ true
        → (result ≡ Ok false) × (cursor.new ≡ cursor.old) }
    ensures beside { is_sibling step ≡ true → result ≡ Ok true
        → (cursor.new.depth ≡ cursor.old.depth) × (is_null cursor.new.entry ≡ false) }
    ensures not_found { is_sibling step ≡ true → result ≡ Ok false
        → is_null cursor.old.entry ≡ false
        → IsNotFound R.Offset.limit cursor.old.depth cursor.old.offset cursor.old cursor.new }
    ensures none { (result ≡ Ok true → ⊥) → is_null cursor.new.entry ≡ true }
    ensures refused { (e : SpecError) → result ≡ Err e
        → IsRefused R.Offset.limit cursor.old e cursor.new }
    ensures taken { is_sibling step ≡ true → (t : ℕ) → followed_to cursor.old ≡ Some t
        → Stands R.Offset.limit result cursor.new
        (first_of_rows cursor.old.raw.end cursor.old.depth cursor.old.offset
        (rows_from R.Offset.limit cursor.old.raw t cursor.old.depth)) }
    ensures further { IsFurther cursor.old cursor.new }
    ensures unit { IsSameUnit cursor.old cursor.new }
{
    match step {
        CursorStep::NextEntry => cursor.next_entry(),
        CursorStep::NextDfs => match cursor.next_dfs() {
            Ok(entry) => Ok(entry.is_some()),
            Err(error) => Err(error),
        },
        CursorStep::NextSibling => match cursor.next_sibling() {
            Ok(entry) => Ok(entry.is_some()),
            Err(error) => Err(error),
        },
    }
}

// Whether a step was refused for memory: it answered `OutOfMemory`.
fn wants_memory(outcome: &Result<bool>) -> bool
    ensures { result ≡ false → outcome.now ≡ Err OutOfMemory → ⊥ }
{
    match outcome {
        Err(Error::OutOfMemory) => true,
        _ => false,
    }
}

// A copy of the current entry, or none where the cursor stands on no entry. Refusal: `OutOfMemory`.
fn current_of<R: Reader, A: Allocator + Copy>(
    alloc: A,
    cursor: &EntriesCursor<'_, R, A>,
) -> Result<Option<DebuggingInformationEntry<R, A>>>
    ensures entry { IfOk result
        (λ o. option_map (entry_of R.view R.Offset.number) o ≡ some_of cursor.now.entry) }
    ensures pair { IfOk result
        (λ o.
        IfSome o
        (λ e. (R.Offset.number e.offset.0 ≡ cursor.now.offset) × (e.depth ≡ cursor.now.depth))) }
{
    match cursor.current() {
        Some(entry) => {
            let copy = entry.try_clone(alloc)?;
            Ok(Some(copy))
        }
        None => Ok(None),
    }
}

/// Takes these steps in order, and hands the answer of each to the sink, a refusal too.
/// `Stop::Memory`: memory was refused for a step or for its answer, and the sink has the answers
/// before. `Stop::Write`, only of a sink that writes: it is left anywhere.
pub(crate) fn run_steps<R: Reader, A: Allocator + Copy, S: Sink<R, A>>(
    cursor: &mut EntriesCursor<'_, R, A>,
    steps: &[CursorStep],
    sink: &mut S,
) -> StdResult<(), Stop>
    ensures { let received = S.has_received sink.old in
        let run = HasRun R.Offset.limit cursor.old steps.now in
        HasAnsweredSteps run (λ all. received all sink.new) S.writes (length steps.now) result }
{
    'steps: for step in steps {
        let outcome = take(cursor, *step);
        if wants_memory(&outcome) {
            return Err(Stop::Memory);
        }
        sink.tell(outcome, cursor)?;
    }
    Ok(())
}

// A sink that holds the answers in memory.
#[derive(Drop)]
struct Collected<R: Reader, A: Allocator> {
    alloc: A,
    answers: Vec<CursorAnswer<R, A>, A>,
}

impl<R: Reader, A: Allocator + Copy> Sink<R, A> for Collected<R, A> {
    ghost has_received = { λ s answers t.
        HasCollected (answer_held R.view R.Offset.number) (IsPaired R.Offset.number)
        s.answers.items answers t.answers.items };

    ghost writes = { false };

    fn tell(
        &mut self,
        outcome: Result<bool>,
        cursor: &EntriesCursor<'_, R, A>,
    ) -> StdResult<(), Stop> {
        let Ok(current) = current_of(self.alloc, cursor) else {
            return Err(Stop::Memory);
        };
        let answer = CursorAnswer {
            outcome,
            current,
            offset: cursor.offset(),
            depth: cursor.depth(),
            next_offset: cursor.next_offset(),
            next_depth: cursor.next_depth(),
        };
        match self.answers.push(answer) {
            Ok(()) => {}
            Err(_) => return Err(Stop::Memory),
        }
        Ok(())
    }

    ghost none = { λ s. collected_none _ _ _ };

    ghost more = { λ s t u xs ys h k. collected_more _ _ _ _ _ xs ys h k };
}

// The answers to these steps. Where memory is refused, for a step or for its answer, the run is
// stopped, and holds the answers before.
fn collect_steps<R: Reader, A: Allocator + Copy>(
    alloc: A,
    cursor: &mut EntriesCursor<'_, R, A>,
    steps: &[CursorStep],
) -> Run<CursorAnswer<R, A>, A>
    ensures run { HasRun R.Offset.limit cursor.old steps.now
        (map (answer_held R.view R.Offset.number) result.answers.items) }
    ensures paired { All (IsPaired R.Offset.number) result.answers.items }
    ensures stopped { result.stopped ≡ true → length result.answers.items < length steps.now }
    ensures whole { result.stopped ≡ false → length result.answers.items ≡ length steps.now }
{
    let mut collected = Collected {
        alloc,
        answers: Vec::new(alloc),
    };
    let stopped = run_steps(cursor, steps, &mut collected).is_err();
    Run {
        answers: collected.answers,
        stopped,
    }
}

/// A cursor before the first entry of a unit; `follows` says whether it follows sibling references.
/// It ends at once where the unit has no bytes of entries.
pub(crate) fn first_cursor<'abbrev, R: Reader, A: Allocator + Copy>(
    alloc: A,
    unit: &UnitHeader<R>,
    abbreviations: &'abbrev Abbreviations<A>,
    follows: bool,
) -> EntriesCursor<'abbrev, R, A>
    ensures { result ≡ cursor_of (unit_view unit.now) abbreviations.now follows }
{
    if follows {
        unit.entries(alloc, abbreviations)
    } else {
        unit.entries_plain(alloc, abbreviations)
    }
}

// A cursor before what stands at the offset `start` of the unit, at depth 0, or before the first
// entry where `start` is none; `follows` says whether it follows sibling references. Refusal:
// `OffsetOutOfBounds` of the start.
fn start_cursor<'abbrev, R: Reader, A: Allocator + Copy>(
    alloc: A,
    unit: &UnitHeader<R>,
    abbreviations: &'abbrev Abbreviations<A>,
    start: Option<UnitOffset<R::Offset>>,
    follows: bool,
) -> Result<EntriesCursor<'abbrev, R, A>>
    ensures { result ≡ cursor_start (unit_view unit.now) abbreviations.now follows
        (option_map (λ o. R.Offset.number o.0) start) }
{
    match start {
        None => Ok(first_cursor(alloc, unit, abbreviations, follows)),
        Some(offset) => {
            if follows {
                unit.entries_at_offset(alloc, abbreviations, offset)
            } else {
                unit.entries_plain_at_offset(alloc, abbreviations, offset)
            }
        }
    }
}

/// The answers of a cursor to these steps, from the offset `start` of the unit, or from the first
/// entry; the cursor follows sibling references.
///
/// Where the rows from the start are honest, or no step looks for a sibling, they are the
/// definition's answers, as those of `run_cursor_plain` always are. Whatever the references, each
/// is true: its entry is what the unit has at its offset, and what is read next stands after it.
/// And each is that of its step from the place after the answer before, but for a sibling that is
/// sought by references that are not honest, which stands ahead all the same. A `NextSibling`
/// straight after an entry follows its reference where it can be followed. Refusal:
/// `OffsetOutOfBounds` of the start. Where memory is refused the run is stopped, and holds the
/// answers before.
pub fn run_cursor<R: Reader, A: Allocator + Copy>(
    alloc: A,
    unit: &UnitHeader<R>,
    abbreviations: &Abbreviations<A>,
    start: Option<UnitOffset<R::Offset>>,
    steps: &[CursorStep],
) -> Result<Run<CursorAnswer<R, A>, A>>
    ensures run { let u = unit_view unit.now in
        let from = start_view u (option_map (λ o. R.Offset.number o.0) start) in
        IsRunFrom R.Offset.limit u (codes_of abbreviations.now) true steps.now from
        (answer_of (answers_of_run (answer_held R.view R.Offset.number)) result) }
    ensures paired { IfOk result (λ r. All (IsPaired R.Offset.number) r.answers.items) }
{
    let mut cursor = start_cursor(alloc, unit, abbreviations, start, true)?;
    Ok(collect_steps(alloc, &mut cursor, steps))
}

/// The answers of a cursor that follows no reference to these steps, from the offset `start` of the
/// unit, or from the first entry. They are the definition's, whatever the references.
///
/// Refusal: `OffsetOutOfBounds` of the start. Where memory is refused the run is stopped, and holds
/// the answers before.
pub fn run_cursor_plain<R: Reader, A: Allocator + Copy>(
    alloc: A,
    unit: &UnitHeader<R>,
    abbreviations: &Abbreviations<A>,
    start: Option<UnitOffset<R::Offset>>,
    steps: &[CursorStep],
) -> Result<Run<CursorAnswer<R, A>, A>>
    ensures run { let u = unit_view unit.now in
        let from = start_view u (option_map (λ o. R.Offset.number o.0) start) in
        IsRunFrom R.Offset.limit u (codes_of abbreviations.now) false steps.now from
        (answer_of (answers_of_run (answer_held R.view R.Offset.number)) result) }
    ensures paired { IfOk result (λ r. All (IsPaired R.Offset.number) r.answers.items) }
{
    let mut cursor = start_cursor(alloc, unit, abbreviations, start, false)?;
    Ok(collect_steps(alloc, &mut cursor, steps))
}
