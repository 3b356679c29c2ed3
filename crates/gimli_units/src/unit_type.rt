//! Types of units.

use crate::UnitOffset;
use gimli_base::{DebugTypeSignature, DwUt, DwoId};

/// The type of a unit, with what its header adds for it (DWARF 5, 7.5.1).
#[derive(Clone, Copy, Debug, PartialEq, Eq)]
pub enum UnitType<Offset> {
    /// A compilation unit (DWARF 5, 7.5.1.1).
    Compilation,
    /// A type unit (DWARF 5, 7.5.1.3).
    TypeUnit {
        /// The signature by which other units name the type.
        type_signature: DebugTypeSignature,
        /// Where the type's entry stands in the unit.
        type_offset: UnitOffset<Offset>,
    },
    /// A partial unit (DWARF 5, 7.5.1.1).
    Partial,
    /// A skeleton unit, with the id of its split unit (DWARF 5, 7.5.1.2).
    Skeleton(DwoId),
    /// A split compilation unit, with the id of its skeleton (DWARF 5, 7.5.1.2).
    SplitCompilation(DwoId),
    /// A type unit of a split file (DWARF 5, 7.5.1.3).
    SplitType {
        /// The signature by which other units name the type.
        type_signature: DebugTypeSignature,
        /// Where the type's entry stands in the unit.
        type_offset: UnitOffset<Offset>,
    },
    /// A unit of a type that a vendor defines, with the type's code (DWARF 5, 7.5.1, table 7.2).
    Vendor(DwUt),
}
