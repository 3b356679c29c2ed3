//! Rows with their attributes, filled into what the caller hands over.

ghost use Rattle.std.specs.Prelude.{◌≡◌, ◌+◌, ◌<◌, ◌≤◌, ◌^◌, length, unsigned_abs, Ok};
ghost use Rattle.gimli_base.specs.Table.{Table, codes_of};
ghost use Rattle.gimli_units.specs.UnitHeld.{unit_view};
ghost use Rattle.gimli_c.specs.Units.{unit_of, declarations_of};
ghost use Rattle.gimli_c.specs.Heads.{IsOpened};
ghost use Rattle.gimli_c.specs.Status.{memory_refused, row_memory_refused};
ghost use Rattle.gimli_c.specs.Tables.{table_in, read_by, NoTableRefused};
ghost use Rattle.gimli_c.specs.Fronts.{at, ahead_of, unit_ahead, unit_rows_of, Resumes};
ghost use Rattle.gimli_c.specs.Entries.{wrote, FilledEntries, IsEntriesOutcome};
ghost use Rattle.gimli_c.specs.Memory.{TableMemory, DeclaredTakesMemory, RowTakesMemory};
ghost use Rattle.gimli_c.specs.Memory.{RowTakesMemoryBy, TakesMemoryAhead};

use crate::attrs::{GimliAttr, Numbers, write_attrs};
use crate::by_table::entries_by;
use crate::reading::{ReadEntries, start_at};
use crate::rows::{GimliPlace, place_of};
use crate::sections::UnitSections;
use crate::status::{END, MORE, refusal_status, row_refused};
use crate::table::GimliTable;
use gimli_base::{DebugAbbrev, Reader, ReaderOffset, Result, Section};
use gimli_units::{UnitHeader, UnitOffset};
use std::alloc::Allocator;

/// An entry of a unit, or the null that closes a list of children.
#[repr(C)]
#[derive(Clone, Copy, Debug)]
pub struct GimliEntry {
    /// Where it stands in the unit.
    pub offset: u64,
    /// How deep it stands.
    pub depth: isize,
    /// The index of its first attribute among those that the call wrote.
    pub first: usize,
    /// The number of its attributes.
    pub attributes: usize,
    /// Its tag, 0 for a null.
    pub tag: u16,
    /// 1 where children follow it, else 0.
    pub has_children: u8,
}

/// How much a call wrote.
#[repr(C)]
#[derive(Clone, Copy, Debug)]
pub struct GimliFilled {
    /// The number of rows.
    pub rows: usize,
    /// The number of attributes.
    pub attributes: usize,
    /// Where the row after those was left since its attributes have no space, their number; else
    /// 0.
    pub wanted: usize,
}

/// What a call answers.
#[derive(Clone, Copy)]
pub(crate) struct EntriesOutcome {
    pub(crate) status: u32,
    pub(crate) filled: GimliFilled,
    pub(crate) place: GimliPlace,
}

/// Fills `rows` with the entries and nulls of the unit at `unit`, from its offset `offset` on,
/// whose depth the caller says is `depth`, and `attrs` with their attributes. Answers how many of
/// each were filled, the place after the rows, and the status of `fill_entries`; what is not filled
/// is as it was; at the unit's end that is `END`, with no row. Before any row comes the refusal of
/// the unit, of its table or of another offset, or `TOO_DEEP`, the first in this order; the place
/// then stays.
pub(crate) fn read_entries<R: Reader, A: Allocator + Copy>(
    alloc: A,
    sections: &UnitSections<R>,
    unit: R::Offset,
    offset: R::Offset,
    depth: isize,
    rows: &mut [GimliEntry],
    attrs: &mut [GimliAttr],
) -> EntriesOutcome
    ensures outcome { let place = at (R.Offset.number offset) depth in
        let ahead = unit_rows_of R.Offset.limit R.view sections.now (R.Offset.number unit) in
        IsEntriesOutcome (ahead place) place rows.old attrs.old result.place rows.new attrs.new
        result.filled result.status }
    ensures resumes { let place = at (R.Offset.number offset) depth in
        let ahead = unit_rows_of R.Offset.limit R.view sections.now (R.Offset.number unit) in
        Resumes (ahead place) result.filled.rows (ahead result.place) }
    ensures memory { let u = unit_of R.Offset.limit R.view sections.now (R.Offset.number unit) in
        TableMemory u (declarations_of R.view sections.now) result.status }
    ensures row_memory { let number = R.Offset.number unit in
        let u = unit_of R.Offset.limit R.view sections.now number in
        result.status ≡ row_memory_refused
        → RowTakesMemory u (declarations_of R.view sections.now) result.place.offset }
{
    let header = match sections.header(unit) {
        Ok(header) => header,
        Err(error) => return no_entries(offset, depth, refusal_status(error)),
    };
    match header.abbreviations(alloc, &sections.abbreviations) {
        Ok(table) => {
            let opened = header.entries_raw(&table, Some(UnitOffset(offset)));
            unit_entries(alloc, &header, opened, offset, depth, rows, attrs)
        }
        Err(error) => no_entries(offset, depth, refusal_status(error)),
    }
}

/// As `read_entries`, by a table in the caller's buffers in place of the unit's own; its steps are
/// not used. Memory is asked for the attributes of a row alone.
pub(crate) fn read_entries_by<R: Reader, A: Allocator>(
    alloc: A,
    sections: &UnitSections<R>,
    unit: R::Offset,
    table: GimliTable<'_>,
    offset: R::Offset,
    depth: isize,
    rows: &mut [GimliEntry],
    attrs: &mut [GimliAttr],
) -> EntriesOutcome
    ensures outcome { let place = at (R.Offset.number offset) depth in
        let u = unit_of R.Offset.limit R.view sections.now (R.Offset.number unit) in
        let ahead = read_by R.Offset.limit u (table_in table.entry) in
        IsEntriesOutcome (ahead place) place rows.old attrs.old result.place rows.new attrs.new
        result.filled result.status }
    ensures resumes { let place = at (R.Offset.number offset) depth in
        let u = unit_of R.Offset.limit R.view sections.now (R.Offset.number unit) in
        let ahead = read_by R.Offset.limit u (table_in table.entry) in
        Resumes (ahead place) result.filled.rows (ahead result.place) }
    ensures memory { let u = unit_of R.Offset.limit R.view sections.now (R.Offset.number unit) in
        NoTableRefused u result.status }
    ensures row_memory { let number = R.Offset.number unit in
        let u = unit_of R.Offset.limit R.view sections.now number in
        let declared = codes_of (table_in table.entry) in
        result.status ≡ row_memory_refused → RowTakesMemoryBy u declared result.place.offset }
{
    match sections.header(unit) {
        Ok(header) => {
            let opened = entries_by(&header, table, offset);
            unit_entries(alloc, &header, opened, offset, depth, rows, attrs)
        }
        Err(error) => no_entries(offset, depth, refusal_status(error)),
    }
}

// The outcome with this status where no row is read: nothing is written, and the place is as it
// was.
fn no_entries<O: ReaderOffset>(offset: O, depth: isize, status: u32) -> EntriesOutcome
    ensures { let place = at (O.number offset) depth in
        result ≡ record { status = status; filled = wrote 0 0 0; place = place } }
{
    let place = GimliPlace {
        offset: offset.into_u64(),
        depth,
    };
    outcome_entries(status, wrote(0, 0, 0), place)
}

// Fills rows and attributes as `read_entries` does, by the reader of the unit's entries that was
// opened at `offset`, or the refusal of opening it.
fn unit_entries<R: Reader, T: ReadEntries<R> + Drop, A: Allocator>(
    alloc: A,
    unit: &UnitHeader<R>,
    opened: Result<T>,
    offset: R::Offset,
    depth: isize,
    rows: &mut [GimliEntry],
    attrs: &mut [GimliAttr],
) -> EntriesOutcome
    requires { (t : Table)
        × IsOpened T.place (unit_view unit.now) t (R.Offset.number offset) opened }
    ensures outcome { let u = unit_view unit.now in let number = R.Offset.number offset in
        let place = at number depth in
        (t : Table) → IsOpened T.place u t number opened
        → IsEntriesOutcome (unit_ahead R.Offset.limit u (codes_of t) place) place rows.old attrs.old
        result.place rows.new attrs.new result.filled result.status }
    ensures memory { result.status ≡ memory_refused → ⊥ }
    ensures row_memory { let u = unit_view unit.now in
        (t : Table) → IsOpened T.place u t (R.Offset.number offset) opened
        → result.status ≡ row_memory_refused
        → DeclaredTakesMemory u (Ok (codes_of t)) result.place.offset }
{
    match start_at(unit, opened, offset, depth) {
        Ok(mut entries) => fill_entries(alloc, &mut entries, depth, rows, attrs),
        Err(status) => no_entries(offset, depth, status),
    }
}

// Fills `rows` with what a reader reads next, nulls too, and `attrs` with their attributes; `base`
// is added to its depths. The place is after the rows. Status `END`: nothing is left. `MORE`:
// `rows` is full, or the attributes of the next row have no space, and `wanted` is their number.
// Else the next row was refused. What is not counted stays.
fn fill_entries<R: Reader, T: ReadEntries<R>, A: Allocator>(
    alloc: A,
    entries: &mut T,
    base: isize,
    rows: &mut [GimliEntry],
    attrs: &mut [GimliAttr],
) -> EntriesOutcome
    requires { let p = T.place entries.old in
        unsigned_abs base + unsigned_abs p.depth + length p.rest.bytes < 2 ^ 63 }
    ensures outcome { let ahead = ahead_of R.Offset.limit base (T.place entries.old) in
        FilledEntries ahead rows.old attrs.old result.place rows.new attrs.new
        result.filled result.status }
    ensures memory { result.status ≡ memory_refused → ⊥ }
    ensures row_memory { let p = T.place entries.old in
        length p.rest.bytes ≤ p.end → result.status ≡ row_memory_refused
        → TakesMemoryAhead p result.place.offset }
{
    let mut numbers = Numbers(Vec::new(alloc));
    let mut count = 0;
    let mut used = 0;
    'rows: while count < rows.len() && !entries.is_empty() {
        let place = place_of(entries, base);
        let head = match entries.read(&mut numbers) {
            Ok(head) => head,
            Err(error) => return outcome_entries(row_refused(error), wrote(count, used, 0), place),
        };
        let numbers_read = numbers.0.as_slice();
        let attributes = numbers_read.len();
        if attributes > attrs.len() - used {
            return outcome_entries(MORE, wrote(count, used, attributes), place);
        }
        write_attrs(numbers_read, attrs, used);
        rows[count] = GimliEntry {
            offset: place.offset,
            depth: place.depth,
            first: used,
            attributes,
            tag: head.tag,
            has_children: head.has_children,
        };
        count += 1;
        used += attributes;
    }
    let status = if entries.is_empty() { END } else { MORE };
    outcome_entries(status, wrote(count, used, 0), place_of(entries, base))
}

// How much was written, by these numbers; `wanted` is the number of the attributes that had no
// space, or 0.
#[inline(always)]
fn wrote(rows: usize, attributes: usize, wanted: usize) -> GimliFilled
    ensures { result ≡ wrote rows attributes wanted }
{
    GimliFilled {
        rows,
        attributes,
        wanted,
    }
}

// What a call answers, of these parts.
#[inline(always)]
fn outcome_entries(status: u32, filled: GimliFilled, place: GimliPlace) -> EntriesOutcome
    ensures { result ≡ record { status = status; filled = filled; place = place } }
{
    EntriesOutcome {
        status,
        filled,
        place,
    }
}
