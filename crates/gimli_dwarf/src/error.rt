//! Why a value can't be resolved.

ghost use Rattle.std.specs.Prelude.{◌≡◌};

use gimli_base::{DwAt, Error};

/// Why a value of a unit can't be resolved.
#[derive(Clone, Copy, Debug, PartialEq, Eq, Hash)]
pub enum DwarfError {
    /// What is read was refused.
    Read(Error),
    /// A value counts from a base that no attribute gives, neither one of the unit's root nor one
    /// of its skeleton's. The name is that of the attribute.
    MissingBase(DwAt),
    /// The attribute of this name is there, but its value is none that it can have: it is no offset
    /// or no address, or lies in the header of its section.
    InvalidBase(DwAt),
    /// The value is no text.
    ExpectedStringAttributeValue,
}

/// A result whose refusal is a [`DwarfError`].
pub type DwarfResult<T> = Result<T, DwarfError>;

impl From<Error> for DwarfError {
    ghost use Rattle.gimli_dwarf.specs.declared.error.DwarfError.{DwarfError};

    ghost from_gives = { λ e r. r ≡ DwarfError.Read e };

    fn from(error: Error) -> Self {
        DwarfError::Read(error)
    }
}
