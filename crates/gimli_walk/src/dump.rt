//! A dump of all units of a section, as text.

ghost use Rattle.std.specs.Prelude.{◌≡◌, ◌^◌, All, IfOk, IfSome, Ok, Err, false};
ghost use Rattle.gimli_base.specs.declared.common.SectionId.TheVariants.{DebugInfo as InfoSection};
ghost use Rattle.gimli_base.specs.Abbreviations.{map_at};
ghost use Rattle.gimli_base.specs.Offset.{answer_of};
ghost use Rattle.gimli_base.specs.Reading.{UnlessMemory};
ghost use Rattle.gimli_base.specs.Table.{codes_of};
ghost use Rattle.gimli_units.specs.UnitHeld.{unit_view};
ghost use Rattle.gimli_units.specs.UnitKind.{map_type};
ghost use Rattle.gimli_headers.specs.Units.{units_of};
ghost use Rattle.gimli_walk.specs.declared.lines.Stop.TheVariants.{Memory};
ghost use Rattle.gimli_walk.specs.Text.{Wrote, WroteAll, little_view, unit_takes_memory};
ghost use Rattle.gimli_walk.specs.Stops.{WroteUntil};
ghost use Rattle.gimli_walk.specs.Dump.{type_number as number_of_type, unit_dump, units_dump};
ghost use Rattle.gimli_walk.specs.Dump.{dump_of};
ghost use Rattle.gimli_base.specs.Sections.{abbrev_content};
ghost use Rattle.gimli_headers.specs.Sections.{info_content};

use crate::lines::{Stop, WriteFault, write_error, write_unit_line};
use crate::rows::{end_lines, write_rows};
use gimli_base::{
    Abbreviations, DebugAbbrev, EndianSlice, Error, LittleEndian, Reader, ReaderOffset, Result,
    Section,
};
use gimli_headers::DebugInfo;
use gimli_units::{UnitHeader, UnitType};
use std::alloc::Allocator;
use std::io::Write;
use std::result::Result as StdResult;

/// Writes each unit of `.debug_info`, and its rows, and answers the exit status: 1 where a refusal
/// was met, else 0. The sections are little endian. A refused row or table ends its unit with a
/// line `error`, and the next unit follows; a refused header ends the text with one. Of an empty
/// section nothing is written, and the status is 0.
///
/// Where memory is refused, whole lines from the front are written and then `error 24`, and the
/// status is 1. Memory is taken for tables of abbreviations alone, as `UnitHeader::abbreviations`
/// takes some: where no unit's table does, all lines are written.
///
/// Refusal: `WriteFault`, where `out` refuses a write. Nothing more is written then, and nothing is
/// said of what was written before.
pub fn dump_text<A: Allocator + Copy, W: Write>(
    alloc: A,
    info: &[u8],
    abbreviations: &[u8],
    out: &mut W,
) -> StdResult<u8, WriteFault>
    ensures text { let text = dump_of info.now abbreviations.now in
        IfOk result (λ status. Wrote (W.contents out.old) (W.contents out.new) text status) }
    ensures without_memory { let text = dump_of info.now abbreviations.now in
        let units = (units_of (2 ^ 64) InfoSection (little_view info.now)).items in
        All (λ u. unit_takes_memory (little_view abbreviations.now) u ≡ false) units →
        IfOk result (λ status. WroteAll (W.contents out.old) (W.contents out.new) text status) }
{
    let debug_info = DebugInfo::new(info, LittleEndian);
    let debug_abbrev = DebugAbbrev::new(abbreviations, LittleEndian);
    let written = dump_units(alloc, &debug_info, &debug_abbrev, out);
    end_lines(written, out)
}

// Writes the units of a section as `dump_text` says, and answers the exit status: 1 where a refusal
// was met, else 0. `Stop::Memory`, where memory for a table is refused: lines from the front, but
// not all, are written. `Stop::Write`: `out` refused a write.
fn dump_units<R: Reader, A: Allocator + Copy, W: Write>(
    alloc: A,
    debug_info: &DebugInfo<R>,
    debug_abbrev: &DebugAbbrev<R>,
    out: &mut W,
) -> StdResult<u8, Stop>
    ensures text { let info = info_content R.view debug_info.now in
        let declarations = abbrev_content R.view debug_abbrev.now in
        let text = units_dump R.Offset.limit declarations
        (units_of R.Offset.limit InfoSection info) in
        WroteUntil (W.contents out.old) (W.contents out.new) text result }
    ensures without_memory { let info = info_content R.view debug_info.now in
        let declarations = abbrev_content R.view debug_abbrev.now in
        let units = (units_of R.Offset.limit InfoSection info).items in
        All (λ u. unit_takes_memory declarations u ≡ false) units → result ≡ Err Memory → ⊥ }
{
    let mut units = debug_info.units();
    let mut held = None;
    let mut status = 0;
    'units: loop {
        match units.next() {
            Ok(Some(unit)) => {
                let next = dump_unit(alloc, &unit, debug_abbrev, &mut held, out)?;
                status = status.max(next);
            }
            Ok(None) => return Ok(status),
            Err(error) => {
                write_error(out, error)?;
                return Ok(status.max(1));
            }
        }
    }
}

// A table of abbreviations, and where it begins in its section.
#[derive(Drop)]
struct CachedTable<A: Allocator> {
    offset: u64,
    table: Abbreviations<A>,
}

// The table of a unit: `before`, that of the unit before, where it begins at the same offset, or
// else it is read in `debug_abbrev`, in which `before` was read too. Refusals: those of
// `UnitHeader::abbreviations`.
fn table_of<R: Reader, A: Allocator + Copy>(
    alloc: A,
    unit: &UnitHeader<R>,
    debug_abbrev: &DebugAbbrev<R>,
    before: Option<CachedTable<A>>,
) -> Result<CachedTable<A>>
    requires held { let declarations = abbrev_content R.view debug_abbrev.now in
        IfSome before (λ h. Ok (codes_of h.table) ≡ map_at h.offset declarations) }
    ensures table { let declarations = abbrev_content R.view debug_abbrev.now in
        UnlessMemory result (answer_of (λ h. codes_of h.table) result
        ≡ map_at (unit_view unit.now).abbreviations declarations) }
    ensures without_memory { let u = unit_view unit.now in
        let declarations = abbrev_content R.view debug_abbrev.now in
        unit_takes_memory declarations u ≡ false →
        answer_of (λ h. codes_of h.table) result ≡ map_at u.abbreviations declarations }
    ensures offset { IfOk result (λ h. h.offset ≡ (unit_view unit.now).abbreviations) }
{
    let offset = unit.debug_abbrev_offset().0.into_u64();
    if let Some(held) = before {
        if held.offset == offset {
            return Ok(held);
        }
    }
    let table = unit.abbreviations(alloc, debug_abbrev)?;
    Ok(CachedTable { offset, table })
}

// Writes the line of a unit and those of its rows, or a line `error` where its table is refused,
// and answers their exit status. `held` is the table of the unit before, if there is one, and then
// that of this unit, or none where it is refused. `Stop::Memory`, where memory for the table is
// refused: the unit's own line is written. `Stop::Write`: `out` refused a write.
fn dump_unit<R: Reader, A: Allocator + Copy, W: Write>(
    alloc: A,
    unit: &UnitHeader<R>,
    debug_abbrev: &DebugAbbrev<R>,
    held: &mut Option<CachedTable<A>>,
    out: &mut W,
) -> StdResult<u8, Stop>
    requires held { let declarations = abbrev_content R.view debug_abbrev.now in
        IfSome held.old (λ h. Ok (codes_of h.table) ≡ map_at h.offset declarations) }
    ensures held { let declarations = abbrev_content R.view debug_abbrev.now in
        IfSome held.new (λ h. Ok (codes_of h.table) ≡ map_at h.offset declarations) }
    ensures text { let declarations = abbrev_content R.view debug_abbrev.now in
        let text = unit_dump R.Offset.limit declarations (unit_view unit.now) in
        WroteUntil (W.contents out.old) (W.contents out.new) text result }
    ensures without_memory { let declarations = abbrev_content R.view debug_abbrev.now in
        unit_takes_memory declarations (unit_view unit.now) ≡ false → result ≡ Err Memory → ⊥ }
{
    let offset = unit.offset().0.into_u64();
    let type_number = number_of(unit.type_());
    write_unit_line(out, offset, unit.version(), type_number)?;
    match table_of(alloc, unit, debug_abbrev, held.take()) {
        Ok(of_unit) => {
            let written = write_rows(unit, &of_unit.table, out);
            *held = Some(of_unit);
            written
        }
        Err(Error::OutOfMemory) => Err(Stop::Memory),
        Err(error) => {
            write_error(out, error)?;
            Ok(1)
        }
    }
}

// The number of a unit's type in its line: 1 to 6, as DWARF 5 numbers the types (7.5.1), or the
// code of a vendor's.
fn number_of<O: ReaderOffset>(unit_type: UnitType<O>) -> u8
    ensures { result ≡ number_of_type (map_type O.number unit_type) }
{
    match unit_type {
        UnitType::Compilation => 1,
        UnitType::TypeUnit { .. } => 2,
        UnitType::Partial => 3,
        UnitType::Skeleton(_) => 4,
        UnitType::SplitCompilation(_) => 5,
        UnitType::SplitType { .. } => 6,
        UnitType::Vendor(code) => code.0,
    }
}
