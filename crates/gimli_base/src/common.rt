//! Formats, encodings, sections, and numbers that name places (DWARF 5, 7.4).

ghost use Rattle.std.specs.Prelude.{◌≡◌};
ghost use Rattle.gimli_base.specs.ListsBase.{default_base};
ghost use Rattle.gimli_base.specs.Reading.{word_size_of, initial_length_size_of};

use crate::ReaderOffset;

/// The format of a unit, which gives the width of its lengths and offsets (DWARF 5, 7.4).
#[derive(Clone, Copy, Debug, PartialEq, Eq, PartialOrd, Ord, Hash)]
pub enum Format {
    /// Lengths and offsets of 32 bits.
    Dwarf32,
    /// Lengths and offsets of 64 bits.
    Dwarf64,
}

impl Format {
    /// The number of bytes of a length field: 4, or 12 with the 4 bytes 0xffffffff before the
    /// length.
    pub fn initial_length_size(self) -> u8
        ensures { result ≡ initial_length_size_of self }
    {
        match self {
            Format::Dwarf32 => 4,
            Format::Dwarf64 => 12,
        }
    }

    /// The number of bytes of an offset: 4 or 8.
    pub fn word_size(self) -> u8
        ensures { result ≡ word_size_of self }
    {
        match self {
            Format::Dwarf32 => 4,
            Format::Dwarf64 => 8,
        }
    }
}

/// What the reading of a unit's bytes depends on: its format, its version, and the number of bytes
/// of an address.
#[derive(Clone, Copy, Debug, PartialEq, Eq, PartialOrd, Ord, Hash)]
pub struct Encoding {
    /// The format, which gives the width of offsets.
    pub format: Format,
    /// The version of DWARF.
    pub version: u16,
    /// The number of bytes of an address.
    pub address_size: u8,
}

/// The kind of a file, by which bases have their defaults (DWARF 5, 7.3.2).
#[derive(Clone, Copy, Debug, PartialEq, Eq, PartialOrd, Ord, Hash)]
pub enum DwarfFileType {
    /// A program or an object file.
    Main,
    /// A split file.
    Dwo,
}

/// A section of debugging information (DWARF 5, 7.3).
#[derive(Clone, Copy, Debug, PartialEq, Eq, PartialOrd, Ord, Hash)]
pub enum SectionId {
    /// `.debug_abbrev`
    DebugAbbrev,
    /// `.debug_addr`
    DebugAddr,
    /// `.debug_aranges`
    DebugAranges,
    /// `.debug_info`
    DebugInfo,
    /// `.debug_loc`
    DebugLoc,
    /// `.debug_loclists`
    DebugLocLists,
    /// `.debug_ranges`
    DebugRanges,
    /// `.debug_rnglists`
    DebugRngLists,
    /// `.debug_str`
    DebugStr,
    /// `.debug_types`
    DebugTypes,
}

/// A place in what a reader was made over, counted from its first place.
#[derive(Clone, Copy, Debug, PartialEq, Eq, PartialOrd, Ord, Hash)]
pub struct ReaderOffsetId(pub u64);

/// An offset in `.debug_abbrev`.
#[derive(Clone, Copy, Debug, PartialEq, Eq, PartialOrd, Ord, Hash)]
pub struct DebugAbbrevOffset<Offset>(pub Offset);

/// The offset in `.debug_addr` at which a unit's addresses begin.
#[derive(Clone, Copy, Debug, PartialEq, Eq, PartialOrd, Ord, Hash)]
pub struct DebugAddrBase<Offset>(pub Offset);

/// An index among a unit's addresses in `.debug_addr`.
#[derive(Clone, Copy, Debug, PartialEq, Eq, PartialOrd, Ord, Hash)]
pub struct DebugAddrIndex<Offset>(pub Offset);

/// An offset in `.debug_aranges`.
#[derive(Clone, Copy, Debug, PartialEq, Eq, PartialOrd, Ord, Hash)]
pub struct DebugArangesOffset<Offset>(pub Offset);

/// An offset in `.debug_line`.
#[derive(Clone, Copy, Debug, PartialEq, Eq, PartialOrd, Ord, Hash)]
pub struct DebugLineOffset<Offset>(pub Offset);

/// An offset in `.debug_line_str`.
#[derive(Clone, Copy, Debug, PartialEq, Eq, PartialOrd, Ord, Hash)]
pub struct DebugLineStrOffset<Offset>(pub Offset);

/// The offset in `.debug_loclists` at which a unit's table of offsets begins.
#[derive(Clone, Copy, Debug, PartialEq, Eq, PartialOrd, Ord, Hash)]
pub struct DebugLocListsBase<Offset>(pub Offset);

impl<Offset: ReaderOffset> DebugLocListsBase<Offset> {
    /// The base of a unit that names none: after the section's header, 12 or 20 bytes by the
    /// format, in a split file of version 5 or later, else 0 (DWARF 5, 7.29).
    pub fn default_for_encoding_and_file(encoding: Encoding, file_type: DwarfFileType) -> Self
        ensures { Offset.number result.0 ≡ default_base encoding file_type }
    {
        DebugLocListsBase(Offset::from_u8(default_lists_base(encoding, file_type)))
    }
}

/// An index in a unit's table of offsets of location lists in `.debug_loclists`.
#[derive(Clone, Copy, Debug, PartialEq, Eq, PartialOrd, Ord, Hash)]
pub struct DebugLocListsIndex<Offset>(pub Offset);

/// An offset in `.debug_macinfo`.
#[derive(Clone, Copy, Debug, PartialEq, Eq, PartialOrd, Ord, Hash)]
pub struct DebugMacinfoOffset<Offset>(pub Offset);

/// An offset in `.debug_macro`.
#[derive(Clone, Copy, Debug, PartialEq, Eq, PartialOrd, Ord, Hash)]
pub struct DebugMacroOffset<Offset>(pub Offset);

/// The offset in `.debug_rnglists` at which a unit's table of offsets begins.
#[derive(Clone, Copy, Debug, PartialEq, Eq, PartialOrd, Ord, Hash)]
pub struct DebugRngListsBase<Offset>(pub Offset);

impl<Offset: ReaderOffset> DebugRngListsBase<Offset> {
    /// The base of a unit that names none: after the section's header, 12 or 20 bytes by the
    /// format, in a split file of version 5 or later, else 0 (DWARF 5, 7.28).
    pub fn default_for_encoding_and_file(encoding: Encoding, file_type: DwarfFileType) -> Self
        ensures { Offset.number result.0 ≡ default_base encoding file_type }
    {
        DebugRngListsBase(Offset::from_u8(default_lists_base(encoding, file_type)))
    }
}

/// An index in a unit's table of offsets of range lists in `.debug_rnglists`.
#[derive(Clone, Copy, Debug, PartialEq, Eq, PartialOrd, Ord, Hash)]
pub struct DebugRngListsIndex<Offset>(pub Offset);

/// An offset in `.debug_str`.
#[derive(Clone, Copy, Debug, PartialEq, Eq, PartialOrd, Ord, Hash)]
pub struct DebugStrOffset<Offset>(pub Offset);

/// The offset in `.debug_str_offsets` at which a unit's table begins.
#[derive(Clone, Copy, Debug, PartialEq, Eq, PartialOrd, Ord, Hash)]
pub struct DebugStrOffsetsBase<Offset>(pub Offset);

/// An index in a unit's table of offsets of strings in `.debug_str_offsets`.
#[derive(Clone, Copy, Debug, PartialEq, Eq, PartialOrd, Ord, Hash)]
pub struct DebugStrOffsetsIndex<Offset>(pub Offset);

/// An offset of a location list, in `.debug_loc` or `.debug_loclists`, by the unit's version.
#[derive(Clone, Copy, Debug, PartialEq, Eq, PartialOrd, Ord, Hash)]
pub struct LocationListsOffset<Offset>(pub Offset);

/// An offset of a range list, in `.debug_ranges` or `.debug_rnglists`, by the unit's version.
#[derive(Clone, Copy, Debug, PartialEq, Eq, PartialOrd, Ord, Hash)]
pub struct RangeListsOffset<Offset>(pub Offset);

/// An offset of a range list as it is written, to which a split unit may have to add a base.
#[derive(Clone, Copy, Debug, PartialEq, Eq, PartialOrd, Ord, Hash)]
pub struct RawRangeListsOffset<Offset>(pub Offset);

/// The signature of a type unit.
#[derive(Clone, Copy, Debug, PartialEq, Eq, PartialOrd, Ord, Hash)]
pub struct DebugTypeSignature(pub u64);

/// The id that joins a skeleton unit to its split unit.
#[derive(Clone, Copy, Debug, PartialEq, Eq, PartialOrd, Ord, Hash)]
pub struct DwoId(pub u64);

// The base of a unit's table of offsets of lists, where the unit names none. In a split file of
// version 5 or later it is after the section's header, at 12 or 20 by the format; else it is 0.
fn default_lists_base(encoding: Encoding, file_type: DwarfFileType) -> u8
    ensures { result ≡ default_base encoding file_type }
{
    match file_type {
        DwarfFileType::Dwo if encoding.version >= 5 => {
            encoding.format.initial_length_size() + 2 + 1 + 1 + 4
        }
        _ => 0,
    }
}
