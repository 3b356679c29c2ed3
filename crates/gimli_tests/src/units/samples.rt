//! Units of given parts; attributes, and the calls that read and pass them.

use crate::samples::{Part, Raw, Table, encoding, part};
use gimli_base::{
    AttributeSpecification, DebugAbbrevOffset, DwAt, DwForm, Encoding, LittleEndian, Reader,
    ReaderOffset, Result, SectionId,
};
use gimli_units::{Attribute, EntriesRaw, UnitHeader, UnitOffset, UnitSectionOffset, UnitType};
use std::alloc::Global;
use std::process::Abort;

/// The parts of a unit.
#[derive(Clone, Copy)]
pub(crate) struct Parts {
    pub(crate) encoding: Encoding,
    pub(crate) length: u32,
    pub(crate) unit_type: UnitType<usize>,
    pub(crate) section: SectionId,
    pub(crate) offset: usize,
    pub(crate) abbreviations: usize,
    pub(crate) entries: &'static [u8],
}

/// Those of the first unit of `.debug_info`, whose length is 0x14; its entries begin at 0x0b.
pub(crate) fn usual() -> Parts {
    Parts {
        encoding: encoding(4, 4),
        length: 0x10,
        unit_type: UnitType::Compilation,
        section: SectionId::DebugInfo,
        offset: 0,
        abbreviations: 0,
        entries: &[0x01, 0x0f, 0x02, 0x00, 0x02, 0x0f, 0x03, 0x00, 0x00],
    }
}

/// The unit of these parts.
pub(crate) fn unit_of(rt: &impl Abort, parts: Parts) -> UnitHeader<Part<'static>> {
    let entries = part(parts.entries, LittleEndian);
    assert!(rt; entries.len() <= parts.length as usize);
    UnitHeader::new(
        parts.encoding,
        parts.length as usize,
        parts.unit_type,
        DebugAbbrevOffset(parts.abbreviations),
        parts.section,
        UnitSectionOffset(parts.offset),
        entries,
    )
}

/// The declaration of an attribute.
pub(crate) type Declared = AttributeSpecification;

/// The declaration of a form under a name; it is not implicit_const.
pub(crate) fn specification(rt: &impl Abort, name: u16, form: u16) -> Declared {
    assert!(rt; form != 0x21);
    Declared::new(DwAt(name), DwForm(form), None)
}

/// A reader of the attributes in an input, whose first byte has the offset 0. It is a function of its own,
/// as the calls below are, since a proof carries what is known of each call in the function: so a test that
/// makes many calls is proved sooner.
pub(crate) fn raw_in<'a, R: Reader>(given: Encoding, input: R, table: &'a Table) -> Raw<'a, R> {
    let zero = UnitOffset(R::Offset::from_u8(0));
    EntriesRaw::new(input, given, table, zero)
}

/// Reads an attribute.
pub(crate) fn read<R: Reader>(raw: &mut Raw<'_, R>, given: Declared) -> Result<Attribute<R>> {
    raw.read_attribute(given)
}

/// Passes attributes.
pub(crate) fn pass<R: Reader>(raw: &mut Raw<'_, R>, given: &[Declared]) -> Result<()> {
    raw.skip_attributes(given)
}
