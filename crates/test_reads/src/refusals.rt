//! The refusals: their numbers, and their debug texts.

use gimli_base::{DwForm, DwLle, DwRle, DwUt, Error, ReaderOffsetId};
use test_tables::{Case, Outcome, Stop, Text};

// The refusal with a name, among those that carry nothing and those that carry a value.
macro_rules! refusal_of {
    ($name:expr; $($bare:ident)*; $($carrying:ident($carried:expr))*) => {
        match $name {
            $(stringify!($bare) => Some(Error::$bare),)*
            $(stringify!($carrying) => Some(Error::$carrying($carried)),)*
            _ => None,
        }
    };
}

/// Writes the number and the debug text of the refusal with a name, which carries a number or nothing.
pub(crate) fn write_error(case: &Case, out: &mut Text) -> Outcome {
    let name = case.word(1).unwrap_or("");
    let error = refusal_with(name, case.number(2).unwrap_or(0));
    let error = error.ok_or(Stop::Lacks("no such refusal"))?;
    write!(out, "{} {error:?}", error.number());
    Ok(())
}

// The refusal with a name, which carries a number or nothing.
fn refusal_with(name: &str, carried: u64) -> Option<Error> {
    let byte = carried.min(0xff) as u8;
    refusal_of!(name;
        BadUnsignedLeb128 BadSignedLeb128 UnknownReservedLength UnsupportedOffset InvalidImplicitConst
        AddressOverflow AbbreviationTagZero InvalidAbbreviationChildren AttributeNameZero AttributeFormZero
        DuplicateAbbreviationCode OutOfMemory;
        UnexpectedEof(ReaderOffsetId(carried)) UnknownVersion(carried) UnknownUnitType(DwUt(byte))
        UnsupportedAddressSize(byte) UnsupportedSegmentSize(byte) UnsupportedOffsetSize(byte)
        OffsetOutOfBounds(carried) NoEntryAtGivenOffset(carried) InvalidAbbreviationCode(carried)
        UnknownForm(DwForm(carried.min(0xffff) as u16)) UnknownRangeListsEntry(DwRle(byte))
        UnknownLocListsEntry(DwLle(byte))
    )
}
