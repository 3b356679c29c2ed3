//! The line of the check of a unit's references.

ghost use Rattle.gimli_base.specs.Table.{codes_of};
ghost use Rattle.gimli_units.specs.UnitHeld.{unit_view};
ghost use Rattle.gimli_walk.specs.Check.{check_text};
ghost use Rattle.gimli_walk.specs.Stops.{WroteUntil};

use crate::lines::{Stop, write_false, write_honest};
use gimli_base::{Abbreviations, Reader, ReaderOffset};
use gimli_headers::first_false_sibling;
use gimli_units::UnitHeader;
use std::alloc::Allocator;
use std::io::Write;

/// Writes the line `honest` where each sibling reference of the unit that can be followed leads
/// just past the null that closes the children of its entry. Else it writes `false` and the offset
/// in the unit of the first entry whose reference does not. Answers the exit status, 0 for both
/// lines.
///
/// `Stop::Memory`: nothing is written. `Stop::Write`: `out` refused a write.
pub(crate) fn write_check<R: Reader, A: Allocator + Copy, W: Write>(
    alloc: A,
    unit: &UnitHeader<R>,
    abbreviations: &Abbreviations<A>,
    out: &mut W,
) -> Result<u8, Stop>
    ensures { let declared = codes_of abbreviations.now in
        let text = check_text R.Offset.limit (unit_view unit.now) declared in
        WroteUntil (W.contents out.old) (W.contents out.new) text result }
{
    match first_false_sibling(alloc, unit, abbreviations) {
        Ok(None) => write_honest(out)?,
        Ok(Some(offset)) => write_false(out, offset.0.into_u64())?,
        Err(_) => return Err(Stop::Memory),
    }
    Ok(0)
}
