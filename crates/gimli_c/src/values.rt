//! Texts and addresses, by the value of an attribute.

ghost use Rattle.std.specs.Prelude.{◌≡◌, ◌^◌};
ghost use Rattle.gimli_base.specs.Sections.{addr_content};
ghost use Rattle.gimli_units.specs.Value.{map_value};
ghost use Rattle.gimli_dwarf.specs.Values.{text_sections};
ghost use Rattle.gimli_c.specs.Values.{value_in, text_section, text_at, address_at};

use crate::attrs::GimliAttr;
use crate::bases::{GimliBases, bases_in};
use crate::sections::{LINE_STRINGS, STRINGS, SUP_STRINGS, UNITS};
use crate::status::{MORE, NO_ADDRESS, unresolved};
use crate::unit::{GimliUnit, encoding_in};
use gimli_base::{
    DebugAddrIndex, DebugLineStrOffset, DebugStrOffset, DebugStrOffsetsIndex, Reader, ReaderOffset,
};
use gimli_dwarf::DwarfSections;
use gimli_units::AttributeValue;

/// A text: where its bytes lie.
#[repr(C)]
#[derive(Clone, Copy, Debug)]
pub struct GimliString {
    /// Where the bytes begin in the section.
    pub place: u64,
    /// Their number, without the zero that ends them.
    pub length: u64,
    /// The number of the section among those of `GimliSections`, from 0 on.
    pub section: u32,
}

// The value of an attribute that may be an address, or a text outside the unit, by its kind. Any
// other, a text in the unit too, becomes a flag, which is neither.
fn value_in<R: Reader<Offset = usize>>(attribute: &GimliAttr) -> AttributeValue<R>
    ensures { map_value R.view (λ n. n) result ≡ value_in attribute.now }
{
    let number = attribute.number as usize;
    match attribute.kind {
        1 => AttributeValue::Addr(attribute.number),
        14 => AttributeValue::DebugAddrIndex(DebugAddrIndex(number)),
        28 => AttributeValue::DebugStrRef(DebugStrOffset(number)),
        29 => AttributeValue::DebugStrRefSup(DebugStrOffset(number)),
        31 => AttributeValue::DebugStrOffsetsIndex(DebugStrOffsetsIndex(number)),
        32 => AttributeValue::DebugLineStrRef(DebugLineStrOffset(number)),
        _ => AttributeValue::Flag(false),
    }
}

// The number among `GimliSections` of the section in which the text of a value of this kind lies;
// the kind is one of a text outside the unit.
fn text_section(kind: u32) -> u32
    ensures { result ≡ text_section kind }
{
    match kind {
        29 => SUP_STRINGS,
        32 => LINE_STRINGS,
        _ => STRINGS,
    }
}

/// Finds where the text lies that an attribute's value is. `MORE`: `string` says it. Any other is
/// the status of what `UnitBases::text_of` refuses, and `string` is as it was. A text in the unit
/// lies where the attribute says, and is not read.
pub(crate) fn find_string<R: Reader<Offset = usize>>(
    sections: &DwarfSections<R>,
    unit: &GimliUnit,
    attribute: &GimliAttr,
    bases: &GimliBases,
    string: &mut GimliString,
) -> u32
    ensures { let texts = text_sections R.view sections.now in
        (result, string.new)
        ≡ text_at (2 ^ 64) texts unit.now attribute.now bases.now string.old }
{
    if attribute.kind == 33 {
        *string = GimliString {
            place: attribute.number,
            length: attribute.more,
            section: UNITS,
        };
        return MORE;
    }
    let bases = bases_in(bases, encoding_in(unit));
    match bases.text_of(&value_in(attribute), sections) {
        Ok(text) => {
            *string = GimliString {
                place: text.offset_id().0,
                length: text.len().into_u64(),
                section: text_section(attribute.kind),
            };
            MORE
        }
        Err(error) => unresolved(error),
    }
}

/// Finds the address that an attribute's value is, in place or by its index. `MORE`: `address` is
/// it. `NO_ADDRESS`: the value is none. Any other is the status of what `UnitBases::address_of`
/// refuses. Unless it is `MORE`, `address` is as it was.
pub(crate) fn find_address<R: Reader<Offset = usize>>(
    sections: &DwarfSections<R>,
    unit: &GimliUnit,
    attribute: &GimliAttr,
    bases: &GimliBases,
    address: &mut u64,
) -> u32
    ensures { let addresses = addr_content R.view sections.now.debug_addr in
        (result, address.new)
        ≡ address_at (2 ^ 64) addresses unit.now attribute.now bases.now address.old }
{
    let bases = bases_in(bases, encoding_in(unit));
    match bases.address_of(&value_in(attribute), &sections.debug_addr) {
        Ok(Some(found)) => {
            *address = found;
            MORE
        }
        Ok(None) => NO_ADDRESS,
        Err(error) => unresolved(error),
    }
}
