//! The unit that holds an offset.

ghost use Rattle.std.specs.Prelude.{◌≡◌};
ghost use Rattle.std.specs.Option.{option_map};
ghost use Rattle.gimli_base.specs.declared.common.SectionId.TheVariants.{DebugInfo as InfoSection};
ghost use Rattle.gimli_base.specs.Offset.{answer_of};
ghost use Rattle.gimli_units.specs.UnitHeld.{unit_view};
ghost use Rattle.gimli_headers.specs.Sections.{info_content};
ghost use Rattle.gimli_dwarf.specs.Holding.{holds, unit_holding};

use gimli_base::{Reader, ReaderOffset, Result};
use gimli_headers::DebugInfo;
use gimli_units::{DebugInfoOffset, UnitHeader};

/// The unit of `.debug_info` that holds an offset of the section, its header included, as that of a
/// reference of the form `DW_FORM_ref_addr`. None where the offset lies at the section's end or
/// after it. The headers from the section's beginning up to that unit are read.
///
/// Refusals: those of `DebugInfoUnitHeadersIter::next`, of a header before the offset.
pub fn unit_holding<R: Reader>(
    debug_info: &DebugInfo<R>,
    offset: DebugInfoOffset<R::Offset>,
) -> Result<Option<UnitHeader<R>>>
    ensures { answer_of (option_map unit_view) result
        ≡ unit_holding R.Offset.limit InfoSection (R.Offset.number offset.0)
        (info_content R.view debug_info.now) }
{
    let mut units = debug_info.units();
    'units: loop {
        let Some(unit) = units.next()? else {
            return Ok(None);
        };
        if holds(&unit, offset) {
            return Ok(Some(unit));
        }
    }
}

// Whether an offset of its section lies in a unit: from the first byte of the header up to the
// unit's end, which is no part of it.
fn holds<R: Reader>(unit: &UnitHeader<R>, offset: DebugInfoOffset<R::Offset>) -> bool
    ensures { result ≡ holds (R.Offset.number offset.0) (unit_view unit.now) }
{
    let start = unit.offset().0.into_u64();
    let offset = offset.0.into_u64();
    start <= offset && offset - start < unit.length_including_self().into_u64()
}
