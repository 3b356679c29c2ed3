//! Why a call is refused.

ghost use Rattle.std.specs.Prelude.{◌≡◌};
ghost use Rattle.gimli_base.specs.declared.error.Error.TheVariants.{OutOfMemory};
ghost use Rattle.gimli_base.specs.Refusal.{number_of};

use crate::{DwForm, DwLle, DwRle, DwUt, ReaderOffsetId};
use std::alloc::{AllocError, AllocFailed};

/// Why a call is refused.
#[derive(Clone, Copy, Debug, PartialEq, Eq, Hash)]
pub enum Error {
    /// The input ends before what should stand there; the place is where the missing number, slice
    /// or text would begin, for a LEB128 number the input's end.
    UnexpectedEof(ReaderOffsetId),
    /// An unsigned LEB128 number that needs too many bits.
    BadUnsignedLeb128,
    /// A signed LEB128 number that needs too many bits.
    BadSignedLeb128,
    /// A length field that stands for no length (DWARF 5, 7.2.2).
    UnknownReservedLength,
    /// A version that is not read.
    UnknownVersion(u64),
    /// The code of no type of unit.
    UnknownUnitType(DwUt),
    /// A number of bytes that no address has.
    UnsupportedAddressSize(u8),
    /// A segment selector that is not empty.
    UnsupportedSegmentSize(u8),
    /// A number that does not fit the reader's offsets.
    UnsupportedOffset,
    /// A number of bytes that no offset has.
    UnsupportedOffsetSize(u8),
    /// An offset that lies outside of the unit's entries.
    OffsetOutOfBounds(u64),
    /// An offset at which there is no entry, but a null.
    NoEntryAtGivenOffset(u64),
    /// A code that no abbreviation has.
    InvalidAbbreviationCode(u64),
    /// The code of no form.
    UnknownForm(DwForm),
    /// An implicit constant whose number is not declared.
    InvalidImplicitConst,
    /// The code of no entry of a range list.
    UnknownRangeListsEntry(DwRle),
    /// The code of no entry of a location list.
    UnknownLocListsEntry(DwLle),
    /// An address that does not fit its size.
    AddressOverflow,
    /// A declaration of an abbreviation whose tag is 0.
    AbbreviationTagZero,
    /// A declaration whose byte on children is neither 0 nor 1.
    InvalidAbbreviationChildren,
    /// A declared attribute whose name is 0, and its form is not.
    AttributeNameZero,
    /// A declared attribute whose form is 0, and its name is not.
    AttributeFormZero,
    /// A code that is declared twice.
    DuplicateAbbreviationCode,
    /// Memory that was asked for was not found.
    OutOfMemory,
}

/// A result whose refusal is an [`Error`].
pub type Result<T> = std::result::Result<T, Error>;

impl Error {
    /// The number by which tools name the refusal: from 1 to 24, in the order of the variants. The
    /// place, code or other number that a variant has does not count.
    pub fn number(self) -> u8
        ensures { result ≡ number_of self }
    {
        match self {
            Error::UnexpectedEof(_) => 1,
            Error::BadUnsignedLeb128 => 2,
            Error::BadSignedLeb128 => 3,
            Error::UnknownReservedLength => 4,
            Error::UnknownVersion(_) => 5,
            Error::UnknownUnitType(_) => 6,
            Error::UnsupportedAddressSize(_) => 7,
            Error::UnsupportedSegmentSize(_) => 8,
            Error::UnsupportedOffset => 9,
            Error::UnsupportedOffsetSize(_) => 10,
            Error::OffsetOutOfBounds(_) => 11,
            Error::NoEntryAtGivenOffset(_) => 12,
            Error::InvalidAbbreviationCode(_) => 13,
            Error::UnknownForm(_) => 14,
            Error::InvalidImplicitConst => 15,
            Error::UnknownRangeListsEntry(_) => 16,
            Error::UnknownLocListsEntry(_) => 17,
            Error::AddressOverflow => 18,
            Error::AbbreviationTagZero => 19,
            Error::InvalidAbbreviationChildren => 20,
            Error::AttributeNameZero => 21,
            Error::AttributeFormZero => 22,
            Error::DuplicateAbbreviationCode => 23,
            Error::OutOfMemory => 24,
        }
    }
}

impl From<AllocError> for Error {
    ghost from_gives = { λ _ e. e ≡ OutOfMemory };

    // Always `OutOfMemory`.
    fn from(_error: AllocError) -> Error {
        Error::OutOfMemory
    }
}

impl<T: Drop> From<AllocFailed<T>> for Error {
    ghost from_gives = { λ _ e. e ≡ OutOfMemory };

    // Always `OutOfMemory`; what the call hands back is dropped.
    fn from(_error: AllocFailed<T>) -> Error {
        Error::OutOfMemory
    }
}
