//! Offsets that are counted from a unit's or a section's beginning.

/// An offset from the beginning of a unit, its length field included.
#[derive(Clone, Copy, Debug, PartialEq, Eq, PartialOrd, Ord, Hash)]
pub struct UnitOffset<Offset>(pub Offset);

/// An offset from the beginning of the section that a unit lies in.
#[derive(Clone, Copy, Debug, PartialEq, Eq, PartialOrd, Ord, Hash)]
pub struct UnitSectionOffset<Offset>(pub Offset);

/// An offset in `.debug_info`.
#[derive(Clone, Copy, Debug, PartialEq, Eq, PartialOrd, Ord, Hash)]
pub struct DebugInfoOffset<Offset>(pub Offset);

/// An offset in `.debug_types`.
#[derive(Clone, Copy, Debug, PartialEq, Eq, PartialOrd, Ord, Hash)]
pub struct DebugTypesOffset<Offset>(pub Offset);
