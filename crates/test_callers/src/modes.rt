//! Runs that follow references and runs that follow none.

ghost use Rattle.std.specs.Prelude.{◌≡◌, IfOk, IfSome};
ghost use Rattle.std.specs.Option.{option_map};
ghost use Rattle.gimli_base.specs.Table.{codes_of};
ghost use Rattle.gimli_units.specs.UnitHeld.{unit_view};
ghost use Rattle.gimli_units.specs.UnitRows.{unit_rows};
ghost use Rattle.gimli_walk.specs.Cursors.{answer_held};
ghost use Rattle.gimli_walk.specs.Runs.{answers_of_run};
ghost use Rattle.test_callers.specs.Modes.{BeginsAtRow, AreSame};

use gimli_base::{Abbreviations, Reader, Result};
use gimli_headers::first_false_sibling;
use gimli_units::{UnitHeader, UnitOffset};
use gimli_walk::{CursorAnswer, CursorStep, Run, run_cursor, run_cursor_plain};
use std::alloc::Allocator;

/// The answers of a cursor that follows references, and of one that follows none, to the same
/// steps, where no reference of the unit is false. From the root, or from the offset of a row of
/// the unit, they are the same answers, memory aside.
pub fn run_both<R: Reader, A: Allocator + Copy>(
    alloc: A,
    unit: &UnitHeader<R>,
    abbreviations: &Abbreviations<A>,
    start: Option<UnitOffset<R::Offset>>,
    steps: &[CursorStep],
) -> Result<Option<(Run<CursorAnswer<R, A>, A>, Run<CursorAnswer<R, A>, A>)>>
    ensures { let declared = codes_of abbreviations.now in
        let rows = unit_rows R.Offset.limit (unit_view unit.now) declared in
        let answer = answers_of_run (answer_held R.view R.Offset.number) in
        BeginsAtRow (option_map (λ o. R.Offset.number o.0) start) rows →
        IfOk result (λ checked. IfSome checked (λ runs. AreSame (answer runs.0) (answer runs.1))) }
{
    if first_false_sibling(alloc, unit, abbreviations)?.is_some() {
        return Ok(None);
    }
    let followed = run_cursor(alloc, unit, abbreviations, start, steps)?;
    let plain = run_cursor_plain(alloc, unit, abbreviations, start, steps)?;
    Ok(Some((followed, plain)))
}
