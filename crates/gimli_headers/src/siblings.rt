//! The check of sibling references.

ghost use Rattle.std.specs.Prelude.{◌≡◌, ℕ, pos, ◌-ℤ◌, ◌++◌, ◌↔◌, List, [], ◌∷◌, None, Ok, true};
ghost use Rattle.std.specs.Prelude.{All, IsOk, IfOk, IfErr, IfSome, OnOk};
ghost use Rattle.std.specs.Option.{option_map};
ghost use Rattle.gimli_base.specs.declared.error.Error.TheVariants.{OutOfMemory};
ghost use Rattle.gimli_base.specs.Table.{codes_of};
ghost use Rattle.gimli_units.specs.Entry.{is_null};
ghost use Rattle.gimli_units.specs.RawPlace.{depth_after};
ghost use Rattle.gimli_units.specs.Rows.{Row};
ghost use Rattle.gimli_units.specs.Honest.{within, usable_target};
ghost use Rattle.gimli_units.specs.CursorModel.{rows_of};
ghost use Rattle.gimli_units.specs.Unit.{whole_length};
ghost use Rattle.gimli_units.specs.UnitHeld.{unit_view};
ghost use Rattle.gimli_units.specs.UnitRows.{unit_rows, start_view, IsHonestAt, IsHonestFrom};
ghost use Rattle.gimli_units.specs.UnitRows.{StandsAt};
ghost use Rattle.gimli_units.specs.FirstFalse.{first_false};
ghost use Rattle.gimli_units.specs.FirstFalse.{IsLeastFalse};
ghost use Rattle.gimli_headers.specs.OpenRows.{OpenRow, check_held, IsPassedRow, Rise};
ghost use Rattle.gimli_headers.specs.OpenRows.{judgement};

use gimli_base::{Abbreviations, Reader, ReaderOffset, Result};
use gimli_units::{EntriesRaw, UnitHeader, UnitOffset};
use std::alloc::Allocator;

// An entry whose children are not closed yet, and whose reference can be followed.
#[derive(Clone, Copy)]
struct Open<Offset> {
    offset: UnitOffset<Offset>,
    depth: isize,
    // where its reference leads
    target: UnitOffset<Offset>,
}

// What a check has found: the open entries, the innermost last, and the first entry that is closed
// and whose reference is false.
#[derive(Drop)]
struct Check<Offset, A: Allocator> {
    open: Vec<Open<Offset>, A>,
    first: Option<UnitOffset<Offset>>,
}

// An entry or a null of which only this is read: where it stands, its depth, and where its
// reference leads, if it has children and one.
#[derive(Clone, Copy)]
struct Passed<Offset> {
    is_null: bool,
    offset: UnitOffset<Offset>,
    depth: isize,
    sibling: Option<UnitOffset<Offset>>,
}

// Where the sibling reference of an entry leads, if it can be followed: not before `after`, which
// is the offset of what follows the entry, and not past `end`, the offset of the unit's end. It may
// lead to either. None of any other reference, and of an entry without one.
fn usable_target<Offset: ReaderOffset>(
    sibling: Option<UnitOffset<Offset>>,
    after: UnitOffset<Offset>,
    end: UnitOffset<Offset>,
) -> Option<UnitOffset<Offset>>
    ensures { let number = Offset.number in
        let to_sibling = option_map (λ o. number o.0) sibling in
        option_map (λ o. number o.0) result ≡ within (number after.0) (number end.0) to_sibling }
{
    let target = sibling?;
    let number = target.0.into_u64();
    if after.0.into_u64() <= number && number <= end.0.into_u64() {
        Some(target)
    } else {
        None
    }
}

impl<Offset: ReaderOffset, A: Allocator> Check<Offset, A> {
    // A check without open entries that has found nothing. Takes no memory yet.
    fn new(alloc: A) -> Self
        ensures { check_held Offset.number result ≡ record { opens = []; first = None } }
    {
        Check {
            open: Vec::new(alloc),
            first: None,
        }
    }

    // Takes a null into the check. `depth` is the null's, and `after` the offset just past it.
    //
    // Where the innermost open entry is one less deep, the null closes it; else nothing changes.
    // If the entry's reference does not lead to `after`, the entry is now the first whose reference
    // is false: the one that was found before stands inside it.
    fn close(&mut self, depth: isize, after: UnitOffset<Offset>)
        requires { Rise depth (check_held Offset.number self.old).opens }
        ensures judged { (end : ℕ) (r : Row) (rest : List Row) → is_null r.entry ≡ true →
            r.depth ≡ depth → r.next ≡ Offset.number after.0 →
            judgement end (check_held Offset.number self.new) rest
            ≡ judgement end (check_held Offset.number self.old) (r ∷ rest) }
        ensures rise { Rise (depth -ℤ pos 1) (check_held Offset.number self.new).opens }
    {
        let Some(entry) = self.open.last() else {
            return;
        };
        if entry.depth + 1 != depth {
            return;
        }
        let well = entry.target.0.into_u64() == after.0.into_u64();
        let offset = entry.offset;
        self.open.pop();
        if well {
            return;
        }
        self.first = Some(offset);
    }

    // Opens an entry at `offset`, as the innermost one. The caller sees to it that its reference
    // can be followed, to `target`, and that no false reference is found yet.
    //
    // Refusal: `OutOfMemory`; the check is then left anywhere.
    fn enter(
        &mut self,
        offset: UnitOffset<Offset>,
        depth: isize,
        target: UnitOffset<Offset>,
    ) -> Result<()>
        ensures value { let o = Offset.number offset.0 in
            let t = Offset.number target.0 in
            let x : OpenRow = record { offset = o; depth = depth; target = t } in
            let old = check_held Offset.number self.old in
            let new = check_held Offset.number self.new in
            OnOk result (new ≡ record old { opens = old.opens ++ x ∷ [] }) }
        ensures refusal { IfErr result (λ e. e ≡ OutOfMemory) }
    {
        self.open.push(Open {
            offset,
            depth,
            target,
        })?;
        Ok(())
    }

    // The first entry whose reference is false, where no entry or null is left: the outermost open
    // entry, since nothing closes it any more, or else the one that was found; or none.
    fn finish(&self) -> Option<UnitOffset<Offset>>
        ensures { (end : ℕ) → option_map (λ o. Offset.number o.0) result
            ≡ judgement end (check_held Offset.number self.now) [] }
    {
        match self.open.first() {
            Some(entry) => Some(entry.offset),
            None => self.first,
        }
    }
}

// Takes the next entry or null into the check. `after` is the offset just past it, and `end` that
// of the unit's end.
//
// A null is taken as by `close`. An entry is opened where its reference can be followed, and only
// as long as no false reference is found; any other entry changes nothing. Refusal: `OutOfMemory`,
// only where an entry is opened; the check is then left anywhere.
fn go_past<Offset: ReaderOffset, A: Allocator>(
    check: &mut Check<Offset, A>,
    passed: &Passed<Offset>,
    after: UnitOffset<Offset>,
    end: UnitOffset<Offset>,
) -> Result<()>
    requires { Rise passed.now.depth (check_held Offset.number check.old).opens }
    ensures judged { OnOk result ((r : Row) (rest : List Row) →
        IsPassedRow Offset.number passed.now (Offset.number after.0) r →
        judgement (Offset.number end.0) (check_held Offset.number check.new) rest
        ≡ judgement (Offset.number end.0) (check_held Offset.number check.old) (r ∷ rest)) }
    ensures rise { OnOk result ((r : Row) →
        IsPassedRow Offset.number passed.now (Offset.number after.0) r →
        Rise (depth_after r.entry r.depth) (check_held Offset.number check.new).opens) }
    ensures refusal { IfErr result (λ e. e ≡ OutOfMemory) }
    ensures without_memory { (r : Row) →
        IsPassedRow Offset.number passed.now (Offset.number after.0) r →
        usable_target (Offset.number end.0) r ≡ None → IsOk result }
{
    if passed.is_null {
        check.close(passed.depth, after);
        return Ok(());
    }
    if check.first.is_some() {
        return Ok(());
    }
    match usable_target(passed.sibling, after, end) {
        Some(target) => check.enter(passed.offset, passed.depth, target),
        None => Ok(()),
    }
}

// The offset of the first entry that is left whose reference is false, as `first_false_sibling`
// says it, or none. `end` is the offset of the unit's end. `entries` is left anywhere.
//
// Each entry and null is read in turn, of an entry only the head and the reference; no reference is
// followed. Bytes that are refused end the reading, and what was read before is judged. Refusal:
// `OutOfMemory`, only where a reference can be followed.
fn first_false_ahead<R: Reader, A: Allocator>(
    alloc: A,
    entries: &mut EntriesRaw<'_, R, A>,
    end: UnitOffset<R::Offset>,
) -> Result<Option<UnitOffset<R::Offset>>>
    requires { R.Offset.number end.0 ≡ entries.old.end }
    ensures value { let rows = (rows_of R.Offset.limit entries.old).rows in
        let first = first_false entries.old.end rows in
        IfOk result (λ o. option_map (λ x. R.Offset.number x.0) o ≡ first) }
    ensures refusal { IfErr result (λ e. e ≡ OutOfMemory) }
    ensures without_memory { let rows = (rows_of R.Offset.limit entries.old).rows in
        All (λ r. usable_target entries.old.end r ≡ None) rows → IsOk result }
{
    let mut check = Check::new(alloc);
    'rows: while !entries.is_empty() {
        let offset = entries.next_offset();
        let depth = entries.next_depth();
        match entries.read_head_and_sibling() {
            Ok((declared, sibling)) => {
                let passed = Passed {
                    is_null: declared.is_none(),
                    offset,
                    depth,
                    sibling,
                };
                go_past(&mut check, &passed, entries.next_offset(), end)?;
            }
            Err(_) => return Ok(check.finish()),
        }
    }
    Ok(check.finish())
}

/// The offset of the first entry of a unit whose sibling reference can be followed and does not
/// lead just past the null that closes its children, also where there is no such null; or none.
///
/// A reference can be followed that leads neither before what follows its entry nor past the unit's
/// end. Without children an entry has none. There is none exactly where the rows of the unit are
/// honest, and they are then honest from the offset of each on.
///
/// Where bytes of the unit are refused, the rows before them are judged, and the call is not
/// refused. Refusal: `OutOfMemory`, only where a reference can be followed.
pub fn first_false_sibling<R: Reader, A: Allocator + Copy>(
    alloc: A,
    unit: &UnitHeader<R>,
    abbreviations: &Abbreviations<A>,
) -> Result<Option<UnitOffset<R::Offset>>>
    ensures value { let u = unit_view unit.now in
        let rows = unit_rows R.Offset.limit u (codes_of abbreviations.now) in
        let first = first_false (whole_length u) rows in
        IfOk result (λ o. option_map (λ x. R.Offset.number x.0) o ≡ first) }
    ensures honest { let u = unit_view unit.now in
        let declared = codes_of abbreviations.now in
        IfOk result (λ o. (o ≡ None) ↔ IsHonestAt R.Offset.limit u declared u.entries) }
    ensures least { let u = unit_view unit.now in
        let rows = unit_rows R.Offset.limit u (codes_of abbreviations.now) in
        let end = whole_length u in
        IfOk result (λ o. IfSome o (λ x. IsLeastFalse end (R.Offset.number x.0) rows)) }
    ensures starts { let u = unit_view unit.now in
        let declared = codes_of abbreviations.now in
        result ≡ Ok None → (offset : ℕ) → StandsAt offset (unit_rows R.Offset.limit u declared) →
        IsHonestFrom R.Offset.limit u declared (start_view u (Some offset)) }
    ensures refusal { IfErr result (λ e. e ≡ OutOfMemory) }
    ensures without_memory { let u = unit_view unit.now in
        let rows = unit_rows R.Offset.limit u (codes_of abbreviations.now) in
        All (λ r. usable_target (whole_length u) r ≡ None) rows → IsOk result }
{
    match unit.entries_raw(abbreviations, None) {
        Ok(mut entries) => {
            let end = UnitOffset(unit.length_including_self());
            first_false_ahead(alloc, &mut entries, end)
        }
        Err(_) => Ok(None),
    }
}
