//! The next sibling of a row.

ghost use Rattle.std.specs.Prelude.{◌≡◌, ℕ, ◌<◌, ◌≤◌, length, true, false, Some, Ok, IfErr};
ghost use Rattle.gimli_base.specs.Table.{codes_of};
ghost use Rattle.gimli_units.specs.CursorModel.{place_of, Goes, IsHonestFor};
ghost use Rattle.gimli_units.specs.CursorPlace.{next_of_depth};
ghost use Rattle.gimli_units.specs.Entry.{is_null};
ghost use Rattle.gimli_units.specs.RawPlace.{next_offset_of};
ghost use Rattle.gimli_units.specs.UnitHeld.{unit_view};
ghost use Rattle.gimli_units.specs.UnitRows.{IsHonestFrom, start_view};
ghost use Rattle.gimli_units.specs.CursorModel.{IsHonestCursor, IsRefused};
ghost use Rattle.gimli_base.specs.Reading.{UnlessMemory};
ghost use Rattle.gimli_c.specs.Units.{unit_of, declarations_of};
ghost use Rattle.gimli_c.specs.Status.{more, memory_refused, row_memory_refused, UnlessRefused};
ghost use Rattle.gimli_c.specs.Siblings.{place_sibling, unit_sibling, read_sibling, AreHonestIn};
ghost use Rattle.gimli_c.specs.Memory.{TableMemory, DeclaredTakesMemoryFrom, RowsTakeMemory};
ghost use Rattle.gimli_c.specs.Memory.{TakesMemoryAhead};

use crate::rows::GimliRow;
use crate::sections::UnitSections;
use crate::status::{END, MORE, refusal_status, row_refused};
use gimli_base::{Abbreviations, DebugAbbrev, Reader, ReaderOffset, Result, Section};
use gimli_units::{EntriesCursor, UnitHeader, UnitOffset};
use std::alloc::Allocator;

/// Finds the next sibling of the row at the offset `offset` of the unit at `unit`: the next entry
/// of its depth, before the null that closes their list. `MORE`: `row` is it, with the depth
/// `depth`. `END`: there is none, or a null stands at the offset. Any other is the status of a
/// refusal: of the unit, of its table, of the offset, or of a row. Unless it is `MORE`, `row` is as
/// it was. Where `follows` is set, sibling references are followed; where they are not honest,
/// `row` may be another entry after the offset.
pub(crate) fn find_sibling<R: Reader, A: Allocator + Copy>(
    alloc: A,
    sections: &UnitSections<R>,
    unit: R::Offset,
    offset: R::Offset,
    depth: isize,
    follows: bool,
    row: &mut GimliRow,
) -> u32
    ensures outcome { let u = unit_of R.Offset.limit R.view sections.now (R.Offset.number unit) in
        let declarations = declarations_of R.view sections.now in
        let number = R.Offset.number offset in
        (follows ≡ true → AreHonestIn R.Offset.limit u declarations number) →
        UnlessRefused result ((result, row.new)
        ≡ read_sibling R.Offset.limit u declarations number depth row.old) }
    ensures kept { (result ≡ more → ⊥) → row.new ≡ row.old }
    ensures after { result ≡ more → R.Offset.number offset < row.new.offset }
    ensures memory { let u = unit_of R.Offset.limit R.view sections.now (R.Offset.number unit) in
        TableMemory u (declarations_of R.view sections.now) result }
    ensures row_memory { let number = R.Offset.number unit in
        let u = unit_of R.Offset.limit R.view sections.now number in
        let declarations = declarations_of R.view sections.now in
        result ≡ row_memory_refused → RowsTakeMemory u declarations (R.Offset.number offset) }
{
    let header = match sections.header(unit) {
        Ok(header) => header,
        Err(error) => return refusal_status(error),
    };
    match header.abbreviations(alloc, &sections.abbreviations) {
        Ok(table) => find_in_unit(alloc, &header, &table, offset, depth, follows, row),
        Err(error) => refusal_status(error),
    }
}

// As `find_sibling`, in a unit with its abbreviations.
fn find_in_unit<R: Reader, A: Allocator + Copy>(
    alloc: A,
    unit: &UnitHeader<R>,
    table: &Abbreviations<A>,
    offset: R::Offset,
    depth: isize,
    follows: bool,
    row: &mut GimliRow,
) -> u32
    ensures outcome { let u = unit_view unit.now in
        let number = R.Offset.number offset in
        (follows ≡ true →
        IsHonestFrom R.Offset.limit u (codes_of table.now) (start_view u (Some number))) →
        UnlessRefused result ((result, row.new)
        ≡ unit_sibling R.Offset.limit u (codes_of table.now) number depth row.old) }
    ensures kept { (result ≡ more → ⊥) → row.new ≡ row.old }
    ensures after { result ≡ more → R.Offset.number offset < row.new.offset }
    ensures memory { result ≡ memory_refused → ⊥ }
    ensures row_memory { let u = unit_view unit.now in
        result ≡ row_memory_refused
        → DeclaredTakesMemoryFrom u (Ok (codes_of table.now)) (R.Offset.number offset) }
{
    let cursor = if follows {
        unit.entries_at_offset(alloc, table, UnitOffset(offset))
    } else {
        unit.entries_plain_at_offset(alloc, table, UnitOffset(offset))
    };
    match cursor {
        Ok(mut cursor) => find_after(&mut cursor, depth, row),
        Err(error) => refusal_status(error),
    }
}

// As `find_sibling`, by a cursor that reads the row next. A refusal is that of a row: it has the
// status of `row_refused`.
fn find_after<R: Reader, A: Allocator>(
    cursor: &mut EntriesCursor<'_, R, A>,
    depth: isize,
    row: &mut GimliRow,
) -> u32
    ensures outcome { (cursor.old.follows ≡ true → IsHonestCursor R.Offset.limit cursor.old) →
        UnlessRefused result ((result, row.new)
        ≡ place_sibling cursor.old.raw.end (place_of R.Offset.limit cursor.old) depth row.old) }
    ensures kept { (result ≡ more → ⊥) → row.new ≡ row.old }
    ensures after { result ≡ more → next_offset_of cursor.old.raw < row.new.offset }
    ensures memory { result ≡ memory_refused → ⊥ }
    ensures row_memory { let p = cursor.old.raw in
        length p.rest.bytes ≤ p.end → result ≡ row_memory_refused
        → (at : ℕ) × TakesMemoryAhead p at }
{
    match cursor.next_entry() {
        Ok(_) => {}
        Err(error) => return row_refused(error),
    }
    match step(cursor) {
        Ok(_) => {}
        Err(error) => return row_refused(error),
    }
    match cursor.current() {
        Some(entry) => {
            *row = GimliRow {
                offset: entry.offset().0.into_u64(),
                depth,
                tag: entry.tag().0,
                has_children: u8::from(entry.has_children()),
            };
            MORE
        }
        None => END,
    }
}

// Goes to the next sibling of the current entry, which stands after what was read last, whatever
// the references. Answers true where there is one. False: there is none, or there was no current
// entry; there is no current entry then. Refusals: those of `EntriesCursor::next_sibling`; nothing
// is left to read then.
fn step<R: Reader, A: Allocator>(cursor: &mut EntriesCursor<'_, R, A>) -> Result<bool>
    ensures after { result ≡ Ok true → next_offset_of cursor.old.raw ≤ cursor.new.offset }
    ensures idle { is_null cursor.old.entry ≡ true → result ≡ Ok false }
    ensures none { result ≡ Ok false → is_null cursor.new.entry ≡ true }
    ensures moves { (cursor.old.follows ≡ true →
        IsHonestFor R.Offset.limit cursor.old.depth cursor.old) →
        let goes = Goes R.Offset.limit (next_of_depth cursor.old.raw.end) in
        UnlessMemory result (goes cursor.old result cursor.new) }
    ensures refused { IfErr result (λ e. IsRefused R.Offset.limit cursor.old e cursor.new) }
{
    match cursor.next_sibling() {
        Ok(entry) => Ok(entry.is_some()),
        Err(error) => Err(error),
    }
}
