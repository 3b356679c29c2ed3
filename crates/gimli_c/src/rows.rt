//! Rows, filled into what the caller hands over.

ghost use Rattle.std.specs.Prelude.{◌≡◌, ◌+◌, ◌-◌, ◌<◌, ◌≤◌, ◌^◌, ◌+ℤ◌, length, unsigned_abs};
ghost use Rattle.std.specs.Prelude.{IfOk};
ghost use Rattle.gimli_base.specs.Table.{Table, codes_of};
ghost use Rattle.gimli_units.specs.RawPlace.{next_offset_of};
ghost use Rattle.gimli_units.specs.UnitHeld.{unit_view};
ghost use Rattle.gimli_c.specs.Units.{unit_of, declarations_of};
ghost use Rattle.gimli_c.specs.Heads.{IsOpened};
ghost use Rattle.gimli_c.specs.Status.{more, memory_refused, row_memory_refused};
ghost use Rattle.gimli_c.specs.Tables.{table_in, read_by, HasSteps, NoTableRefused};
ghost use Rattle.gimli_c.specs.Fronts.{at, ahead_of, unit_ahead, unit_rows_of, Filled, WritesFirst};
ghost use Rattle.gimli_c.specs.Fronts.{IsRowsOutcome, IsRowsOutcomeIf, Resumes};
ghost use Rattle.gimli_c.specs.Memory.{TableMemory};

use crate::by_table::entries_by;
use crate::reading::{ReadEntries, start_at};
use crate::sections::UnitSections;
use crate::status::{END, MORE, refusal_status, row_refused};
use crate::table::GimliTable;
use gimli_base::{DebugAbbrev, Reader, ReaderOffset, Result, Section};
use gimli_units::{UnitHeader, UnitOffset};
use std::alloc::Allocator;

/// A place in a unit, between two rows.
#[repr(C)]
#[derive(Clone, Copy, Debug)]
pub struct GimliPlace {
    /// The offset in the unit.
    pub offset: u64,
    /// The depth of the row that is read there.
    pub depth: isize,
}

/// An entry of a unit, or the null that closes a list of children.
#[repr(C)]
#[derive(Clone, Copy, Debug)]
pub struct GimliRow {
    /// Where it stands in the unit.
    pub offset: u64,
    /// How deep it stands.
    pub depth: isize,
    /// Its tag, 0 for a null.
    pub tag: u16,
    /// 1 where children follow it, else 0.
    pub has_children: u8,
}

/// What a call answers.
#[derive(Clone, Copy)]
pub(crate) struct RowsOutcome {
    pub(crate) status: u32,
    pub(crate) count: usize,
    pub(crate) place: GimliPlace,
}

/// Fills `rows` with the entries and nulls of the unit at `unit`, from its offset `offset` on,
/// whose depth the caller says is `depth`. Answers how many were filled, the place after them, and
/// `MORE`, `END` or what was refused there; rows that were filled before a refusal stay, and the
/// others are as they were. At the unit's end the status is `END`, with no row. Before any row comes
/// the refusal of the unit, of its table or of another offset, or `TOO_DEEP`, the first in this
/// order; the place then stays.
pub(crate) fn read_rows<R: Reader, A: Allocator + Copy>(
    alloc: A,
    sections: &UnitSections<R>,
    unit: R::Offset,
    offset: R::Offset,
    depth: isize,
    rows: &mut [GimliRow],
) -> RowsOutcome
    ensures outcome { let place = at (R.Offset.number offset) depth in
        let ahead = unit_rows_of R.Offset.limit R.view sections.now (R.Offset.number unit) in
        IsRowsOutcome (ahead place) place rows.old result.place rows.new result.count
        result.status }
    ensures resumes { let place = at (R.Offset.number offset) depth in
        let ahead = unit_rows_of R.Offset.limit R.view sections.now (R.Offset.number unit) in
        Resumes (ahead place) result.count (ahead result.place) }
    ensures memory { let u = unit_of R.Offset.limit R.view sections.now (R.Offset.number unit) in
        TableMemory u (declarations_of R.view sections.now) result.status }
{
    let header = match sections.header(unit) {
        Ok(header) => header,
        Err(error) => return no_rows(offset, depth, refusal_status(error)),
    };
    match header.abbreviations(alloc, &sections.abbreviations) {
        Ok(table) => {
            let opened = header.entries_raw(&table, Some(UnitOffset(offset)));
            unit_rows(&header, opened, offset, depth, rows)
        }
        Err(error) => no_rows(offset, depth, refusal_status(error)),
    }
}

/// As `read_rows`, by a table in the caller's buffers in place of the unit's own, if its steps are
/// those of its attributes. Whatever they are, only the rows that are counted are written, and with
/// `MORE` and some room the place is a later one. No memory is asked for.
pub(crate) fn read_rows_by<R: Reader>(
    sections: &UnitSections<R>,
    unit: R::Offset,
    table: GimliTable<'_>,
    offset: R::Offset,
    depth: isize,
    rows: &mut [GimliRow],
) -> RowsOutcome
    ensures outcome { let place = at (R.Offset.number offset) depth in
        let u = unit_of R.Offset.limit R.view sections.now (R.Offset.number unit) in
        let ahead = read_by R.Offset.limit u (table_in table.entry) in
        IsRowsOutcomeIf (HasSteps table.entry.specifications.now) (ahead place) place rows.old
        result.place rows.new result.count result.status }
    ensures resumes { let place = at (R.Offset.number offset) depth in
        let u = unit_of R.Offset.limit R.view sections.now (R.Offset.number unit) in
        let ahead = read_by R.Offset.limit u (table_in table.entry) in
        HasSteps table.entry.specifications.now →
        Resumes (ahead place) result.count (ahead result.place) }
    ensures first { WritesFirst rows.old rows.new result.count }
    ensures further { result.status ≡ more → 0 < length rows.old
        → R.Offset.number offset < result.place.offset }
    ensures row_memory { result.status ≡ row_memory_refused → ⊥ }
    ensures memory { let u = unit_of R.Offset.limit R.view sections.now (R.Offset.number unit) in
        NoTableRefused u result.status }
{
    match sections.header(unit) {
        Ok(header) => {
            let opened = entries_by(&header, table, offset);
            unit_rows(&header, opened, offset, depth, rows)
        }
        Err(error) => no_rows(offset, depth, refusal_status(error)),
    }
}

// The outcome with this status where no row is read: the place is as it was.
fn no_rows<O: ReaderOffset>(offset: O, depth: isize, status: u32) -> RowsOutcome
    ensures { result ≡ record { status = status; count = 0; place = at (O.number offset) depth } }
{
    RowsOutcome {
        status,
        count: 0,
        place: GimliPlace {
            offset: offset.into_u64(),
            depth,
        },
    }
}

// Fills rows as `read_rows` does, by the reader of the unit's entries that was opened at `offset`,
// or the refusal of opening it.
fn unit_rows<R: Reader, T: ReadEntries<R> + Drop>(
    unit: &UnitHeader<R>,
    opened: Result<T>,
    offset: R::Offset,
    depth: isize,
    rows: &mut [GimliRow],
) -> RowsOutcome
    requires { (t : Table)
        × IsOpened T.place (unit_view unit.now) t (R.Offset.number offset) opened }
    ensures outcome { let u = unit_view unit.now in let number = R.Offset.number offset in
        let place = at number depth in
        (t : Table) → IsOpened T.place u t number opened
        → IsRowsOutcomeIf (IfOk opened T.has_steps) (unit_ahead R.Offset.limit u (codes_of t) place)
        place rows.old result.place rows.new result.count result.status }
    ensures first { WritesFirst rows.old rows.new result.count }
    ensures further { result.status ≡ more → 0 < length rows.old
        → R.Offset.number offset < result.place.offset }
    ensures memory { result.status ≡ memory_refused → ⊥ }
    ensures row_memory { result.status ≡ row_memory_refused → ⊥ }
{
    match start_at(unit, opened, offset, depth) {
        Ok(mut entries) => fill_rows(&mut entries, depth, rows),
        Err(status) => no_rows(offset, depth, status),
    }
}

// Fills `rows` with what a reader reads next, nulls too; `base` is added to its depths. The place
// is after the rows. Status `END`: nothing is left. `MORE`: `rows` is full. Else what is read next
// was refused, and the place is there. Rows that are not counted stay.
fn fill_rows<R: Reader, T: ReadEntries<R>>(
    entries: &mut T,
    base: isize,
    rows: &mut [GimliRow],
) -> RowsOutcome
    requires fits { let p = T.place entries.old in
        unsigned_abs base + unsigned_abs p.depth + length p.rest.bytes < 2 ^ 63 }
    requires within { let p = T.place entries.old in length p.rest.bytes ≤ p.end }
    ensures outcome { let ahead = ahead_of R.Offset.limit base (T.place entries.old) in
        T.has_steps entries.old →
        Filled ahead rows.old result.place rows.new result.count result.status }
    ensures first { WritesFirst rows.old rows.new result.count }
    ensures further { result.status ≡ more → 0 < length rows.old
        → next_offset_of (T.place entries.old) < result.place.offset }
    ensures memory { result.status ≡ memory_refused → ⊥ }
    ensures row_memory { result.status ≡ row_memory_refused → ⊥ }
{
    let mut count = 0;
    'rows: while count < rows.len() && !entries.is_empty() {
        let place = place_of(entries, base);
        match entries.pass() {
            Ok(head) => {
                rows[count] = GimliRow {
                    offset: place.offset,
                    depth: place.depth,
                    tag: head.tag,
                    has_children: head.has_children,
                };
                count += 1;
            }
            Err(error) => {
                return RowsOutcome {
                    status: row_refused(error),
                    count,
                    place,
                };
            }
        }
    }
    let status = if entries.is_empty() { END } else { MORE };
    RowsOutcome {
        status,
        count,
        place: place_of(entries, base),
    }
}

/// The place of what a reader reads next; `base` is added to its depth.
#[inline(always)]
pub(crate) fn place_of<R: Reader, T: ReadEntries<R>>(entries: &T, base: isize) -> GimliPlace
    requires { unsigned_abs base + unsigned_abs (T.place entries.now).depth < 2 ^ 63 }
    ensures offset { result.offset ≡ next_offset_of (T.place entries.now) }
    ensures depth { result.depth ≡ base +ℤ (T.place entries.now).depth }
{
    GimliPlace {
        offset: entries.next_offset(),
        depth: base + entries.next_depth(),
    }
}
