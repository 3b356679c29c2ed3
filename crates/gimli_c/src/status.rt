//! Statuses.

ghost use Rattle.std.specs.Prelude.{◌≡◌};
ghost use Rattle.gimli_c.specs.Status.{refusal_status, row_refused, unresolved};

use gimli_base::Error;
use gimli_dwarf::DwarfError;

/// There is more.
pub(crate) const MORE: u32 = 0;

/// The end.
pub(crate) const END: u32 = 1;

/// The depth of a place is out of range.
pub(crate) const TOO_DEEP: u32 = 2;

/// The value of an attribute names no list.
pub(crate) const NO_LIST: u32 = 3;

/// The codes of a table are not 1, 2, .. in this order.
pub(crate) const UNORDERED: u32 = 4;

/// A value counts from a base that the unit does not have.
pub(crate) const NO_BASE: u32 = 5;

/// The attribute of a base has a value that no base can have.
pub(crate) const BAD_BASE: u32 = 6;

/// The value of an attribute is no text.
pub(crate) const NO_STRING: u32 = 7;

/// The value of an attribute is no address.
pub(crate) const NO_ADDRESS: u32 = 8;

/// The status of a refusal of a unit, of its abbreviations or of an offset: 256 and its number.
pub(crate) fn refusal_status(error: Error) -> u32
    ensures { result ≡ refusal_status error }
{
    256 + u32::from(error.number())
}

/// The status of a refusal of what is read after the rows, or after the items of a list: 512 and
/// its number.
pub(crate) fn row_refused(error: Error) -> u32
    ensures { result ≡ row_refused error }
{
    512 + u32::from(error.number())
}

/// The status where a value can't be resolved: that of the refusal of what is read, `NO_BASE`,
/// `BAD_BASE` or `NO_STRING`.
pub(crate) fn unresolved(error: DwarfError) -> u32
    ensures { result ≡ unresolved error }
{
    match error {
        DwarfError::Read(error) => refusal_status(error),
        DwarfError::MissingBase(_) => NO_BASE,
        DwarfError::InvalidBase(_) => BAD_BASE,
        DwarfError::ExpectedStringAttributeValue => NO_STRING,
    }
}
