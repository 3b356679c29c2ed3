//! Addresses and texts, by the values of attributes.

ghost use Rattle.std.specs.Prelude.{◌≡◌};
ghost use Rattle.std.specs.Option.{option_map};
ghost use Rattle.gimli_base.specs.Sections.{addr_content};
ghost use Rattle.gimli_units.specs.Value.{map_value};
ghost use Rattle.gimli_dwarf.specs.Bases.{bases_view, resolved_as, address_value};
ghost use Rattle.gimli_dwarf.specs.Values.{text_sections, text_value, indexed_text};

use crate::{DwarfError, DwarfResult, DwarfSections, UnitBases};
use gimli_base::{
    DW_AT_addr_base, DW_AT_str_offsets_base, DebugAddr, DebugAddrBase, DebugStrOffsetsIndex,
    Reader, ReaderOffset,
};
use gimli_units::AttributeValue;

/// The address that a value is, in place or by its index in the table of `.debug_addr` that begins
/// at `addr_base`, with addresses of `address_size` bytes; none of any other value.
///
/// Refusals, of an index alone: `MissingBase` of `DW_AT_addr_base`, where `addr_base` is none; then
/// those of `DebugAddr::get_address`.
pub(crate) fn address_at<R: Reader>(
    value: &AttributeValue<R>,
    address_size: u8,
    addr_base: Option<DebugAddrBase<R::Offset>>,
    debug_addr: &DebugAddr<R>,
) -> DwarfResult<Option<u64>>
    ensures { result
        ≡ address_value R.Offset.limit address_size
        (option_map (λ o. R.Offset.number o.0) addr_base) (addr_content R.view debug_addr.now)
        (map_value R.view R.Offset.number value.now) }
{
    match value {
        AttributeValue::Addr(address) => Ok(Some(*address)),
        AttributeValue::DebugAddrIndex(index) => {
            let Some(base) = addr_base else {
                return Err(DwarfError::MissingBase(DW_AT_addr_base));
            };
            let address = debug_addr.get_address(address_size, base, *index)?;
            Ok(Some(address))
        }
        _ => Ok(None),
    }
}

impl<Offset: ReaderOffset> UnitBases<Offset> {
    /// The address that a value of the unit is, in place or by its index in `.debug_addr`; none of
    /// any other value.
    ///
    /// Refusals, of an index alone: `MissingBase` of `DW_AT_addr_base`, where the unit has no
    /// `addr_base`; then those of `DebugAddr::get_address`.
    pub fn address_of<R: Reader<Offset = Offset>>(
        &self,
        value: &AttributeValue<R>,
        debug_addr: &DebugAddr<R>,
    ) -> DwarfResult<Option<u64>>
        ensures { let b = bases_view Offset.number self.now in
            result
            ≡ address_value Offset.limit b.encoding.address_size b.addr_base
            (addr_content R.view debug_addr.now) (map_value R.view Offset.number value.now) }
    {
        let encoding = self.encoding;
        address_at(value, encoding.address_size, self.addr_base, debug_addr)
    }

    /// The bytes of the text that a value of the unit is, without the zero after them: in the
    /// attribute, in `.debug_str`, in `.debug_line_str`, in `.debug_str` by an index in
    /// `.debug_str_offsets`, or in `.debug_str` of the supplementary file.
    ///
    /// Refusals: `ExpectedStringAttributeValue` of any other value; of an offset those of
    /// `DebugStr::get_str` or `DebugLineStr::get_str`; of an index `MissingBase` of
    /// `DW_AT_str_offsets_base`, then those of `DebugStrOffsets::get_str_offset`, then those of
    /// `DebugStr::get_str`.
    pub fn text_of<R: Reader<Offset = Offset>>(
        &self,
        value: &AttributeValue<R>,
        sections: &DwarfSections<R>,
    ) -> DwarfResult<R>
        ensures { let texts = text_sections R.view sections.now in
            resolved_as R.view result
            ≡ text_value Offset.limit (bases_view Offset.number self.now) texts
            (map_value R.view Offset.number value.now) }
    {
        match value {
            AttributeValue::String(text) => Ok(text.copy()),
            AttributeValue::DebugStrRef(offset) => Ok(sections.debug_str.get_str(*offset)?),
            AttributeValue::DebugLineStrRef(offset) => {
                Ok(sections.debug_line_str.get_str(*offset)?)
            }
            AttributeValue::DebugStrOffsetsIndex(index) => self.text_at(*index, sections),
            AttributeValue::DebugStrRefSup(offset) => Ok(sections.debug_str_sup.get_str(*offset)?),
            _ => Err(DwarfError::ExpectedStringAttributeValue),
        }
    }

    // The bytes of the text in `.debug_str` whose offset stands at an index of the unit's table in
    // `.debug_str_offsets`. Refusals: `MissingBase` of `DW_AT_str_offsets_base`, where the unit has
    // no such table; then those of `DebugStrOffsets::get_str_offset`; then those of
    // `DebugStr::get_str`.
    fn text_at<R: Reader<Offset = Offset>>(
        &self,
        index: DebugStrOffsetsIndex<Offset>,
        sections: &DwarfSections<R>,
    ) -> DwarfResult<R>
        ensures { let texts = text_sections R.view sections.now in
            let b = bases_view Offset.number self.now in
            resolved_as R.view result ≡ indexed_text Offset.limit b texts (Offset.number index.0) }
    {
        let Some(base) = self.str_offsets_base else {
            return Err(DwarfError::MissingBase(DW_AT_str_offsets_base));
        };
        let format = self.encoding.format;
        let offset = sections
            .debug_str_offsets
            .get_str_offset(format, base, index)?;
        Ok(sections.debug_str.get_str(offset)?)
    }
}
