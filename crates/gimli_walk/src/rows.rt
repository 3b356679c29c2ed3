//! The lines of a unit's rows.

ghost use Rattle.std.specs.Prelude.{◌≡◌, IfOk, Err};
ghost use Rattle.gimli_base.specs.Table.{codes_of};
ghost use Rattle.gimli_units.specs.Entry.{entry_at};
ghost use Rattle.gimli_units.specs.Rows.{ahead_at};
ghost use Rattle.gimli_units.specs.Head.{head_of};
ghost use Rattle.std.specs.Option.{option_copied};
ghost use Rattle.gimli_units.specs.UnitHeld.{unit_view};
ghost use Rattle.gimli_walk.specs.declared.lines.Stop.TheVariants.{Memory};
ghost use Rattle.gimli_walk.specs.Lines.{Text};
ghost use Rattle.gimli_walk.specs.Text.{Wrote, WroteAll, rows_text, unit_text};
ghost use Rattle.gimli_walk.specs.Stops.{WroteUntil};

use crate::lines::{Stop, WriteFault, write_end, write_error, write_error_at, write_row};
use gimli_base::{Abbreviation, Abbreviations, Error, Reader, ReaderOffset};
use gimli_units::{EntriesRaw, UnitHeader};
use std::alloc::Allocator;
use std::io::Write;

// The tag and `has_children` of the entries of a declaration; 0 and false of a null, which has
// none.
#[inline(always)]
fn head_parts<A: Allocator>(declared: Option<&Abbreviation<A>>) -> (u16, bool)
    ensures tag { result.0 ≡ (head_of (option_copied declared.entry)).tag.0 }
    ensures flag { result.1 ≡ (head_of (option_copied declared.entry)).has_children }
{
    match declared {
        Some(declared) => {
            let tag = declared.tag();
            (tag.0, declared.has_children())
        }
        None => (0, false),
    }
}

// Writes a line for each row that is left, nulls too, and then `end`, and answers the exit status
// 0. A row that is refused ends them: `error`, the number of the refusal and the row's offset stand
// in place of `end`, and the status is 1. Attributes are passed and not kept, so that no memory is
// taken: of `Stop` only `Write` comes.
fn write_rows_left<R: Reader, A: Allocator, W: Write>(
    entries: &mut EntriesRaw<'_, R, A>,
    out: &mut W,
) -> Result<u8, Stop>
    ensures text { let read = entry_at R.Offset.limit entries.old.encoding
        (codes_of entries.old.abbreviations) in
        let text = rows_text (ahead_at read entries.old.end entries.old.depth entries.old.rest) in
        WroteUntil (W.contents out.old) (W.contents out.new) text result }
    ensures without_memory { result ≡ Err Memory → ⊥ }
{
    let mut line = [b' '; 48];
    'rows: while !entries.is_empty() {
        let offset = entries.next_offset().0.into_u64();
        let depth = entries.next_depth();
        match entries.read_head() {
            Ok(declared) => {
                let (tag, has_children) = head_parts(declared);
                write_row(out, &mut line, offset, depth, tag, has_children)?;
            }
            Err(error) => {
                write_error_at(out, error, offset)?;
                return Ok(1);
            }
        }
    }
    write_end(out)?;
    Ok(0)
}

/// Writes a line for each row of a unit, nulls too, and then `end`, and answers the exit status 0.
/// A row that is refused ends them: `error`, the number of the refusal and the row's offset stand
/// in place of `end`, and the status is 1. A unit without bytes of entries has the line `end`
/// alone. No memory is taken: of `Stop` only `Write` comes.
pub(crate) fn write_rows<R: Reader, A: Allocator, W: Write>(
    unit: &UnitHeader<R>,
    abbreviations: &Abbreviations<A>,
    out: &mut W,
) -> Result<u8, Stop>
    ensures text { let declared = codes_of abbreviations.now in
        let text = unit_text R.Offset.limit (unit_view unit.now) declared in
        WroteUntil (W.contents out.old) (W.contents out.new) text result }
    ensures without_memory { result ≡ Err Memory → ⊥ }
{
    match unit.entries_raw(abbreviations, None) {
        Ok(mut entries) => write_rows_left(&mut entries, out),
        Err(_) => {
            write_end(out)?;
            Ok(0)
        }
    }
}

/// Ends lines that may have been stopped, and answers the exit status: where memory was refused, it
/// writes `error 24`, of status 1; else it writes nothing, and the status is the one that the lines
/// have. Refusal: `WriteFault`, where a write was refused, then or now.
pub(crate) fn end_lines<W: Write>(written: Result<u8, Stop>, out: &mut W) -> Result<u8, WriteFault>
    ensures lines { (start : _) (text : Text) → WroteUntil start (W.contents out.old) text written →
        IfOk result (λ status. Wrote start (W.contents out.new) text status) }
    ensures all { (written ≡ Err Memory → ⊥) →
        (start : _) (text : Text) → WroteUntil start (W.contents out.old) text written →
        IfOk result (λ status. WroteAll start (W.contents out.new) text status) }
{
    match written {
        Ok(status) => Ok(status),
        Err(Stop::Memory) => {
            write_error(out, Error::OutOfMemory)?;
            Ok(1)
        }
        Err(Stop::Write) => Err(WriteFault),
    }
}
