//! Units, as numbers.

ghost use Rattle.std.specs.Prelude.{◌≡◌};
ghost use Rattle.gimli_units.specs.UnitHeld.{unit_view};
ghost use Rattle.gimli_units.specs.UnitKind.{map_type};
ghost use Rattle.gimli_c.specs.Units.{at_offset, unit_of, unit_outcome, unit_numbers, type_numbers};
ghost use Rattle.gimli_c.specs.Units.{encoding_in};

use crate::sections::UnitSections;
use crate::status::{END, MORE, refusal_status};
use gimli_base::{Encoding, Format, Reader, ReaderOffset};
use gimli_units::{UnitHeader, UnitType};

/// The header of a unit.
#[repr(C)]
#[derive(Clone, Copy, Debug)]
pub struct GimliUnit {
    /// Where the unit begins in its section.
    pub offset: u64,
    /// The number of its bytes, the length field included: the next unit begins after them.
    pub length: u64,
    /// The number of bytes before its entries, which is the offset of the first.
    pub header_size: u64,
    /// Where its abbreviations are in `.debug_abbrev`.
    pub abbreviations: u64,
    /// The signature of a type unit, or the id of a skeleton or split unit; else 0.
    pub id: u64,
    /// Where the entry of a type unit's type stands in the unit; else 0.
    pub type_offset: u64,
    /// The version of DWARF.
    pub version: u16,
    /// The type of the unit, 1 to 6 as DWARF 5 numbers them, or a vendor's from 128 on.
    pub kind: u8,
    /// The number of bytes of an address.
    pub address_size: u8,
    /// The number of bytes of an offset, 4 or 8.
    pub offset_size: u8,
}

// What a header adds for a type.
#[derive(Clone, Copy)]
struct Added {
    code: u8,
    id: u64,
    offset: u64,
}

/// Reads the header of the unit at an offset of the section of units. `MORE`: `unit` is that unit.
/// `END`: the offset is the section's end. Any other is the status of a refusal. Unless it is
/// `MORE`, `unit` is as it was.
pub(crate) fn read_unit<R: Reader>(
    sections: &UnitSections<R>,
    offset: R::Offset,
    unit: &mut GimliUnit,
) -> u32
    ensures { let number = R.Offset.number offset in
        let read = unit_of R.Offset.limit R.view sections.now number in
        (result, unit.new) ≡ unit_outcome (R.view sections.now.units) number read unit.old }
{
    if offset.into_u64() == sections.units.len().into_u64() {
        return END;
    }
    match sections.header(offset) {
        Ok(header) => {
            *unit = numbers_of(&header, offset);
            MORE
        }
        Err(error) => refusal_status(error),
    }
}

/// How the bytes of a caller's unit are read. The format is the one of 64 bits where `offset_size`
/// is 8, else that of 32; the other numbers are taken as they are.
pub(crate) fn encoding_in(unit: &GimliUnit) -> Encoding
    ensures { result ≡ encoding_in unit.now }
{
    Encoding {
        format: if unit.offset_size == 8 {
            Format::Dwarf64
        } else {
            Format::Dwarf32
        },
        version: unit.version,
        address_size: unit.address_size,
    }
}

/// The numbers of a unit's header. `offset` is where the unit begins in its section, whatever
/// offset the header has.
pub(crate) fn numbers_of<R: Reader>(unit: &UnitHeader<R>, offset: R::Offset) -> GimliUnit
    ensures { result ≡ unit_numbers (at_offset (R.Offset.number offset) (unit_view unit.now)) }
{
    let added = added_by(unit.type_());
    GimliUnit {
        offset: offset.into_u64(),
        length: unit.length_including_self().into_u64(),
        header_size: unit.header_size().into_u64(),
        abbreviations: unit.debug_abbrev_offset().0.into_u64(),
        id: added.id,
        type_offset: added.offset,
        version: unit.version(),
        kind: added.code,
        address_size: unit.address_size(),
        offset_size: unit.format().word_size(),
    }
}

// The code of a unit's type, and what the header adds for it; 0 where it adds none.
fn added_by<O: ReaderOffset>(kind: UnitType<O>) -> Added
    ensures { (result.code, result.id, result.offset) ≡ type_numbers (map_type O.number kind) }
{
    match kind {
        UnitType::Compilation => Added {
            code: 1,
            id: 0,
            offset: 0,
        },
        UnitType::TypeUnit {
            type_signature,
            type_offset,
        } => Added {
            code: 2,
            id: type_signature.0,
            offset: type_offset.0.into_u64(),
        },
        UnitType::Partial => Added {
            code: 3,
            id: 0,
            offset: 0,
        },
        UnitType::Skeleton(id) => Added {
            code: 4,
            id: id.0,
            offset: 0,
        },
        UnitType::SplitCompilation(id) => Added {
            code: 5,
            id: id.0,
            offset: 0,
        },
        UnitType::SplitType {
            type_signature,
            type_offset,
        } => Added {
            code: 6,
            id: type_signature.0,
            offset: type_offset.0.into_u64(),
        },
        UnitType::Vendor(code) => Added {
            code: code.0,
            id: 0,
            offset: 0,
        },
    }
}
