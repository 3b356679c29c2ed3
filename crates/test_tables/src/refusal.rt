//! Refusals as a table writes them.

use crate::text::Text;
use gimli_base::Error;

/// Writes a refusal: `refused`, its number, and what it carries, if it carries something: a place, a
/// version, an offset, a size or a code in decimal digits.
pub fn write_refusal(out: &mut Text, error: Error) {
    write!(out, "refused {}", error.number());
    let part = match error {
        Error::UnexpectedEof(place) => place.0,
        Error::UnknownVersion(part)
        | Error::OffsetOutOfBounds(part)
        | Error::NoEntryAtGivenOffset(part)
        | Error::InvalidAbbreviationCode(part) => part,
        Error::UnsupportedAddressSize(part)
        | Error::UnsupportedSegmentSize(part)
        | Error::UnsupportedOffsetSize(part) => u64::from(part),
        Error::UnknownUnitType(code) => u64::from(code.0),
        Error::UnknownForm(code) => u64::from(code.0),
        Error::UnknownRangeListsEntry(code) => u64::from(code.0),
        Error::UnknownLocListsEntry(code) => u64::from(code.0),
        _ => return,
    };
    write!(out, " {part}");
}
