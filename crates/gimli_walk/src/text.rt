//! Walks over the first unit, as text.

ghost use Rattle.std.specs.Prelude.{◌≡◌, ◌^◌, IfOk, true, false};
ghost use Rattle.gimli_base.specs.Table.{codes_of};
ghost use Rattle.gimli_base.specs.Abbreviations.{map_at};
ghost use Rattle.gimli_walk.specs.Text.{Wrote, WroteAll, WroteText, little_view};
ghost use Rattle.gimli_walk.specs.Text.{unit_takes_memory, is_rows, declared_may_take};
ghost use Rattle.gimli_walk.specs.Text.{walk_may_take};
ghost use Rattle.gimli_walk.specs.Text.{declared_text, mode_text, sections_text, text_of};
ghost use Rattle.gimli_walk.specs.Text.{IsHonestMode, IsHonestDeclared, IsHonestWalk};
ghost use Rattle.gimli_walk.specs.Text.{WroteTrueMode, WroteTrueDeclared, WroteTrueWalk};
ghost use Rattle.gimli_units.specs.UnitHeld.{unit_view};
ghost use Rattle.gimli_base.specs.Sections.{abbrev_content};
ghost use Rattle.gimli_headers.specs.Sections.{info_content};

use crate::Mode;
use crate::answers::write_steps;
use crate::check::write_check;
use crate::lines::{WriteFault, write_error, write_no_unit};
use crate::rows::{end_lines, write_rows};
use crate::tree_lines::write_tree_steps;
use gimli_base::{Abbreviations, DebugAbbrev, EndianSlice, LittleEndian, Reader, Section};
use gimli_headers::DebugInfo;
use gimli_units::UnitHeader;
use std::alloc::Allocator;
use std::io::Write;

/// Writes what a walk over the first unit of `.debug_info` answers, and answers the exit status: 1
/// where there is no unit or a refusal was met, else 0. The sections are little endian.
///
/// Where `Mode::Cursor` looks for a sibling, and in each walk of `Mode::Tree`, sibling references
/// are followed: the lines are those of the unit's entries where the references are honest. Where
/// they are not, each line is true all the same, as `run_cursor` and `run_tree` say.
///
/// Where memory is refused, whole lines from the front are written and then `error 24`, and the
/// status is 1. Memory is taken only where the header of the unit is read: for its table, as
/// `UnitHeader::abbreviations` takes some, and after that in any mode but that of rows.
///
/// Refusal: `WriteFault`, where `out` refuses a write. Nothing more is written then, and nothing is
/// said of what was written before.
pub fn walk_text<A: Allocator + Copy, W: Write>(
    alloc: A,
    mode: Mode<'_>,
    info: &[u8],
    abbreviations: &[u8],
    out: &mut W,
) -> Result<u8, WriteFault>
    ensures text { let text = text_of mode.entry info.now abbreviations.now in
        IsHonestWalk (2 ^ 64) mode.entry (little_view info.now) (little_view abbreviations.now) →
        IfOk result (λ status. WroteText (W.contents out.old) (W.contents out.new) text status) }
    ensures true_lines { let old = W.contents out.old in
        let new = W.contents out.new in
        IfOk result (λ status. WroteTrueWalk (2 ^ 64) mode.entry (little_view info.now)
        (little_view abbreviations.now) old new status) }
    ensures without_memory { let text = text_of mode.entry info.now abbreviations.now in
        walk_may_take (2 ^ 64) mode.entry (little_view info.now) (little_view abbreviations.now)
        ≡ false →
        IfOk result (λ status. WroteAll (W.contents out.old) (W.contents out.new) text status) }
{
    let debug_info = DebugInfo::new(info, LittleEndian);
    let debug_abbrev = DebugAbbrev::new(abbreviations, LittleEndian);
    walk_sections(alloc, mode, &debug_info, &debug_abbrev, out)
}

// Writes the lines of the first unit of a section, and answers their exit status. A section without
// units has the line `no unit`, and a refused header a line `error`; their status is 1. Refusal:
// `WriteFault`.
#[tactic(auto, unfolding(crate::specs::Text::sections_text, gimli_headers::specs::Units::next_unit))]
fn walk_sections<R: Reader, A: Allocator + Copy, W: Write>(
    alloc: A,
    mode: Mode<'_>,
    debug_info: &DebugInfo<R>,
    debug_abbrev: &DebugAbbrev<R>,
    out: &mut W,
) -> Result<u8, WriteFault>
    ensures without_memory { let info = info_content R.view debug_info.now in
        let declarations = abbrev_content R.view debug_abbrev.now in
        let text = sections_text R.Offset.limit (mode_text R.Offset.limit mode.entry) info
        declarations in
        walk_may_take R.Offset.limit mode.entry info declarations ≡ false →
        IfOk result (λ status. WroteAll (W.contents out.old) (W.contents out.new) text status) }
    ensures true_lines { let info = info_content R.view debug_info.now in
        let declarations = abbrev_content R.view debug_abbrev.now in
        let old = W.contents out.old in
        let new = W.contents out.new in
        IfOk result
        (λ status. WroteTrueWalk R.Offset.limit mode.entry info declarations old new status) }
    ensures text { let info = info_content R.view debug_info.now in
        let declarations = abbrev_content R.view debug_abbrev.now in
        let text = sections_text R.Offset.limit (mode_text R.Offset.limit mode.entry) info
        declarations in
        IsHonestWalk R.Offset.limit mode.entry info declarations →
        IfOk result (λ status. WroteText (W.contents out.old) (W.contents out.new) text status) }
{
    match debug_info.units().next() {
        Ok(None) => {
            write_no_unit(out)?;
            Ok(1)
        }
        Ok(Some(unit)) => walk_unit(alloc, mode, &unit, debug_abbrev, out),
        Err(error) => {
            write_error(out, error)?;
            Ok(1)
        }
    }
}

// Writes the lines of a unit, whose table is read in `debug_abbrev`, and answers their exit status.
// Where the table is refused, for memory too, that is one line `error`, of status 1. Refusal:
// `WriteFault`.
fn walk_unit<R: Reader, A: Allocator + Copy, W: Write>(
    alloc: A,
    mode: Mode<'_>,
    unit: &UnitHeader<R>,
    debug_abbrev: &DebugAbbrev<R>,
    out: &mut W,
) -> Result<u8, WriteFault>
    ensures true_lines { let u = unit_view unit.now in
        let declared = map_at u.abbreviations
        (abbrev_content R.view debug_abbrev.now) in
        let old = W.contents out.old in
        let new = W.contents out.new in
        IfOk result
        (λ status. WroteTrueDeclared R.Offset.limit mode.entry u declared old new status) }
    ensures text { let u = unit_view unit.now in
        let declared = map_at u.abbreviations
        (abbrev_content R.view debug_abbrev.now) in
        let text = declared_text (mode_text R.Offset.limit mode.entry) u declared in
        IsHonestDeclared R.Offset.limit mode.entry u declared →
        IfOk result (λ status. WroteText (W.contents out.old) (W.contents out.new) text status) }
    ensures without_memory { let u = unit_view unit.now in
        let section = abbrev_content R.view debug_abbrev.now in
        let declared = map_at u.abbreviations section in
        let text = declared_text (mode_text R.Offset.limit mode.entry) u declared in
        unit_takes_memory section u ≡ false → declared_may_take mode.entry declared ≡ false →
        IfOk result (λ status. WroteAll (W.contents out.old) (W.contents out.new) text status) }
{
    match unit.abbreviations(alloc, debug_abbrev) {
        Ok(abbreviations) => walk_declared(alloc, mode, unit, &abbreviations, out),
        Err(error) => {
            write_error(out, error)?;
            Ok(1)
        }
    }
}

// Writes the lines of a unit with its abbreviations, and answers their exit status. Where memory is
// refused, lines from the front and then `error 24` are written, and the status is 1. Refusal:
// `WriteFault`.
fn walk_declared<R: Reader, A: Allocator + Copy, W: Write>(
    alloc: A,
    mode: Mode<'_>,
    unit: &UnitHeader<R>,
    abbreviations: &Abbreviations<A>,
    out: &mut W,
) -> Result<u8, WriteFault>
    ensures true_lines { let u = unit_view unit.now in
        let declared = codes_of abbreviations.now in
        let old = W.contents out.old in
        let new = W.contents out.new in
        IfOk result (λ status. WroteTrueMode R.Offset.limit mode.entry u declared old new status) }
    ensures text { let u = unit_view unit.now in
        let declared = codes_of abbreviations.now in
        let text = mode_text R.Offset.limit mode.entry u declared in
        IsHonestMode R.Offset.limit mode.entry u declared →
        IfOk result (λ status. Wrote (W.contents out.old) (W.contents out.new) text status) }
    ensures without_memory { let declared = codes_of abbreviations.now in
        let text = mode_text R.Offset.limit mode.entry (unit_view unit.now) declared in
        is_rows mode.entry ≡ true →
        IfOk result (λ status. WroteAll (W.contents out.old) (W.contents out.new) text status) }
{
    match mode {
        Mode::Rows => {
            let written = write_rows(unit, abbreviations, out);
            end_lines(written, out)
        }
        Mode::Check => {
            let written = write_check(alloc, unit, abbreviations, out);
            end_lines(written, out)
        }
        Mode::Cursor(steps) => write_steps(alloc, unit, abbreviations, true, steps, out),
        Mode::Plain(steps) => write_steps(alloc, unit, abbreviations, false, steps, out),
        Mode::Tree(steps) => write_tree_steps(alloc, unit, abbreviations, steps, out),
    }
}
