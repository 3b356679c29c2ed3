//! The next unit of a section.

ghost use Rattle.std.specs.Prelude.{◌≡◌, ◌+◌, ◌<◌, length, MatchResult, IfOk, IfSome, OnSome};
ghost use Rattle.std.specs.Option.{option_map};
ghost use Rattle.gimli_base.specs.Offset.{answer_of};
ghost use Rattle.gimli_units.specs.Unit.{header_size, size_of_header};
ghost use Rattle.gimli_headers.specs.Units.{next_unit};
ghost use Rattle.gimli_units.specs.UnitHeld.{unit_view};

use crate::parse::parse_unit_header;
use gimli_base::{Reader, ReaderOffset, Result, SectionId};
use gimli_units::{UnitHeader, UnitSectionOffset};

/// Takes the header of the next unit of a section, or none where nothing is left. `input` is what
/// is left of the section, and `offset` is where that begins in it; both go past the whole unit.
///
/// Refusals: those of `parse_unit_header`; nothing is left of `input` then, and `offset` stays.
#[tactic(auto, unfolding(crate::specs::Units::next_unit))]
pub(crate) fn next_header<R: Reader>(
    input: &mut R,
    offset: &mut UnitSectionOffset<R::Offset>,
    section: SectionId,
) -> Result<Option<UnitHeader<R>>>
    requires { R.Offset.number offset.old.0 + length (R.view input.old).bytes < R.Offset.limit }
    ensures value { (
      answer_of (option_map unit_view) result,
      record { rest = R.view input.new; offset = R.Offset.number offset.new.0 },
    )
        ≡ next_unit R.Offset.limit section
        (record { rest = R.view input.old; offset = R.Offset.number offset.old.0 }) }
    ensures size { IfOk result
        (λ unit. IfSome unit (λ u. size_of_header (unit_view u) ≡ header_size (unit_view u))) }
    ensures takes { MatchResult result
        (λ unit. OnSome unit (length (R.view input.new).bytes < length (R.view input.old).bytes))
        (λ _. length (R.view input.new).bytes < length (R.view input.old).bytes) }
    ensures fits { R.Offset.number offset.new.0 + length (R.view input.new).bytes < R.Offset.limit }
{
    if input.is_empty() {
        return Ok(None);
    }
    let mut rest = input.copy();
    match parse_unit_header(&mut rest, section, *offset) {
        Ok(header) => {
            let whole_length = header.length_including_self();
            let after = offset.0.checked_add(whole_length).unwrap();
            *input = rest;
            *offset = UnitSectionOffset(after);
            Ok(Some(header))
        }
        Err(error) => {
            input.empty();
            Err(error)
        }
    }
}
