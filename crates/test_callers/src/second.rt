//! The sibling of a unit's first entry.

ghost use Rattle.std.specs.Prelude.{◌≡◌, None, Some, Ok, IfOk, IfSome, true, false, pos};
ghost use Rattle.std.specs.Option.{option_map};
ghost use Rattle.gimli_base.specs.Reading.{UnlessMemory};
ghost use Rattle.gimli_base.specs.Table.{codes_of};
ghost use Rattle.gimli_units.specs.Unit.{whole_length};
ghost use Rattle.gimli_units.specs.UnitHeld.{unit_view};
ghost use Rattle.gimli_units.specs.UnitRows.{unit_rows_at, unit_rows_from, unit_rows, StandsAt};
ghost use Rattle.gimli_units.specs.CursorModel.{Goes, IsHonestFor};
ghost use Rattle.gimli_units.specs.CursorPlace.{next_of_depth};
ghost use Rattle.test_callers.specs.Second.{second_of_rows};

use gimli_base::{Abbreviations, Reader, Result};
use gimli_headers::first_false_sibling;
use gimli_units::{EntriesCursor, UnitHeader, UnitOffset};
use std::alloc::Allocator;

// Goes to the next sibling.
fn step<R: Reader, A: Allocator>(cursor: &mut EntriesCursor<'_, R, A>) -> Result<bool>
    ensures { IsHonestFor R.Offset.limit cursor.old.depth cursor.old →
        let goes = Goes R.Offset.limit (next_of_depth cursor.old.raw.end) in
        UnlessMemory result (goes cursor.old result cursor.new) }
{
    match cursor.next_sibling() {
        Ok(entry) => Ok(entry.is_some()),
        Err(error) => Err(error),
    }
}

/// Where the next sibling of a unit's first entry stands, by the references of a unit whose
/// references are not false: exactly where the rows say; or `None` where a reference of the unit is
/// false.
pub fn second_of_depth<R: Reader, A: Allocator + Copy>(
    alloc: A,
    unit: &UnitHeader<R>,
    abbreviations: &Abbreviations<A>,
) -> Result<Option<Option<UnitOffset<R::Offset>>>>
    ensures { let u = unit_view unit.now in
        let rows = unit_rows_at R.Offset.limit u (codes_of abbreviations.now) (pos 0) u.entries in
        IfOk result (λ checked. IfSome checked (λ o.
        option_map (λ x. R.Offset.number x.0) o ≡ second_of_rows (whole_length u) rows)) }
{
    if first_false_sibling(alloc, unit, abbreviations)?.is_some() {
        return Ok(None);
    }
    let mut cursor = unit.entries(alloc, abbreviations);
    cursor.next_entry()?;
    if step(&mut cursor)? {
        Ok(Some(Some(cursor.offset())))
    } else {
        Ok(Some(None))
    }
}

/// Where the next sibling of the entry at the offset of a row stands, by the references of a unit
/// whose references are not false: exactly where the rows from that offset on say; or `None` where
/// a reference of the unit is false.
pub fn sibling_at<R: Reader, A: Allocator + Copy>(
    alloc: A,
    unit: &UnitHeader<R>,
    abbreviations: &Abbreviations<A>,
    offset: UnitOffset<R::Offset>,
) -> Result<Option<Option<UnitOffset<R::Offset>>>>
    ensures { let u = unit_view unit.now in
        let declared = codes_of abbreviations.now in
        let at = R.Offset.number offset.0 in
        let rows = unit_rows_from R.Offset.limit u declared at (pos 0) in
        StandsAt at (unit_rows R.Offset.limit u declared) →
        IfOk result (λ checked. IfSome checked (λ o.
        option_map (λ x. R.Offset.number x.0) o ≡ second_of_rows (whole_length u) rows)) }
{
    if first_false_sibling(alloc, unit, abbreviations)?.is_some() {
        return Ok(None);
    }
    let mut cursor = unit.entries_at_offset(alloc, abbreviations, offset)?;
    cursor.next_entry()?;
    if step(&mut cursor)? {
        Ok(Some(Some(cursor.offset())))
    } else {
        Ok(Some(None))
    }
}
