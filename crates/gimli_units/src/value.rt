//! Values of attributes.

ghost use Rattle.std.specs.Prelude.{◌≡◌};

use crate::{DebugInfoOffset, UnitOffset};
use gimli_base::{
    DebugAddrBase, DebugAddrIndex, DebugLineOffset, DebugLineStrOffset, DebugLocListsBase,
    DebugLocListsIndex, DebugMacinfoOffset, DebugMacroOffset, DebugRngListsBase,
    DebugRngListsIndex, DebugStrOffset, DebugStrOffsetsBase, DebugStrOffsetsIndex,
    DebugTypeSignature, DwAccess, DwAddr, DwAte, DwCc, DwDs, DwEnd, DwId, DwInl, DwLang, DwOrd,
    DwVirtuality, DwVis, DwoId, Expression, LocationListsOffset, RawRangeListsOffset, Reader,
};

/// The value of an attribute, as its form shows it, or as its name makes it (DWARF 5, 7.5.5).
#[derive(Clone, Copy, Debug, PartialEq, Eq, Drop)]
pub enum AttributeValue<R, Offset = <R as Reader>::Offset> {
    /// An address.
    Addr(u64),
    /// Bytes, whose meaning the name gives.
    Block(R),
    /// One byte, whose meaning the name gives.
    Data1(u8),
    /// Two bytes, whose meaning the name gives.
    Data2(u16),
    /// Four bytes, whose meaning the name gives.
    Data4(u32),
    /// Eight bytes, whose meaning the name gives.
    Data8(u64),
    /// Sixteen bytes, whose meaning the name gives.
    Data16(u128),
    /// A signed number.
    Sdata(i64),
    /// An unsigned number.
    Udata(u64),
    /// An expression.
    Exprloc(Expression<R>),
    /// Whether something holds.
    Flag(bool),
    /// An offset into a section; which one, the name of the attribute says.
    SecOffset(Offset),
    /// Where the unit's addresses begin in `.debug_addr`.
    DebugAddrBase(DebugAddrBase<Offset>),
    /// The number of an address among those of the unit.
    DebugAddrIndex(DebugAddrIndex<Offset>),
    /// The number of an address among those of the unit, and an offset from it.
    DebugAddrIndexOffset(DebugAddrIndex<Offset>, u32),
    /// An offset of an entry of the same unit.
    UnitRef(UnitOffset<Offset>),
    /// An offset of an entry in `.debug_info`.
    DebugInfoRef(DebugInfoOffset<Offset>),
    /// An offset of an entry in `.debug_info` of the supplementary file.
    DebugInfoRefSup(DebugInfoOffset<Offset>),
    /// An offset in `.debug_line`.
    DebugLineRef(DebugLineOffset<Offset>),
    /// An offset of a location list.
    LocationListsRef(LocationListsOffset<Offset>),
    /// Where the unit's offsets begin in `.debug_loclists`.
    DebugLocListsBase(DebugLocListsBase<Offset>),
    /// The number of a location list among those of the unit.
    DebugLocListsIndex(DebugLocListsIndex<Offset>),
    /// An offset in `.debug_macinfo`.
    DebugMacinfoRef(DebugMacinfoOffset<Offset>),
    /// An offset in `.debug_macro`.
    DebugMacroRef(DebugMacroOffset<Offset>),
    /// An offset of a range list, to which a base may still have to be added.
    RangeListsRef(RawRangeListsOffset<Offset>),
    /// Where the unit's offsets begin in `.debug_rnglists`.
    DebugRngListsBase(DebugRngListsBase<Offset>),
    /// The number of a range list among those of the unit.
    DebugRngListsIndex(DebugRngListsIndex<Offset>),
    /// The signature of a type unit.
    DebugTypesRef(DebugTypeSignature),
    /// An offset of a text in `.debug_str`.
    DebugStrRef(DebugStrOffset<Offset>),
    /// An offset of a text in `.debug_str` of the supplementary file.
    DebugStrRefSup(DebugStrOffset<Offset>),
    /// Where the unit's offsets begin in `.debug_str_offsets`.
    DebugStrOffsetsBase(DebugStrOffsetsBase<Offset>),
    /// The number of a text among those of the unit.
    DebugStrOffsetsIndex(DebugStrOffsetsIndex<Offset>),
    /// An offset of a text in `.debug_line_str`.
    DebugLineStrRef(DebugLineStrOffset<Offset>),
    /// The bytes of a text, without the zero that ends it.
    String(R),
    /// How a base type is kept.
    Encoding(DwAte),
    /// How the sign of a decimal number is kept.
    DecimalSign(DwDs),
    /// The byte order of a base type.
    Endianity(DwEnd),
    /// Who may use a member.
    Accessibility(DwAccess),
    /// Where an entry can be seen.
    Visibility(DwVis),
    /// Whether a member is virtual.
    Virtuality(DwVirtuality),
    /// The language of the unit's source.
    Language(DwLang),
    /// The class of an address.
    AddressClass(DwAddr),
    /// Whether names tell upper from lower case.
    IdentifierCase(DwId),
    /// How a subroutine is called.
    CallingConvention(DwCc),
    /// Whether a subroutine is put in place where it is called.
    Inline(DwInl),
    /// How an array's elements are laid out.
    Ordering(DwOrd),
    /// The number of a file in the unit's line table.
    FileIndex(u64),
    /// The id that joins a skeleton unit to its split unit.
    DwoId(DwoId),
}

impl<R: Reader> AttributeValue<R> {
    ghost use Rattle.std.specs.Option.{option_map};
    ghost use Rattle.gimli_units.specs.Value.{map_value};
    ghost use Rattle.gimli_units.specs.Kind.{unit_reference};

    /// The offset of a `UnitRef`, in the unit. None for any other value, a reference into a section
    /// too.
    pub(crate) fn reference(&self) -> Option<UnitOffset<R::Offset>>
        ensures { option_map (λ o. R.Offset.number o.0) result
            ≡ unit_reference (map_value R.view R.Offset.number self.now) }
    {
        match self {
            AttributeValue::UnitRef(offset) => Some(*offset),
            _ => None,
        }
    }

    /// The same value, its readers copied.
    #[inline(always)]
    pub fn copy(&self) -> AttributeValue<R>
        ensures { map_value R.view R.Offset.number result
            ≡ map_value R.view R.Offset.number self.now }
    {
        match self {
            AttributeValue::Addr(value) => AttributeValue::Addr(*value),
            AttributeValue::Block(bytes) => AttributeValue::Block(bytes.copy()),
            AttributeValue::Data1(value) => AttributeValue::Data1(*value),
            AttributeValue::Data2(value) => AttributeValue::Data2(*value),
            AttributeValue::Data4(value) => AttributeValue::Data4(*value),
            AttributeValue::Data8(value) => AttributeValue::Data8(*value),
            AttributeValue::Data16(value) => AttributeValue::Data16(*value),
            AttributeValue::Sdata(value) => AttributeValue::Sdata(*value),
            AttributeValue::Udata(value) => AttributeValue::Udata(*value),
            AttributeValue::Exprloc(expression) => AttributeValue::Exprloc(expression.copy()),
            AttributeValue::Flag(value) => AttributeValue::Flag(*value),
            AttributeValue::SecOffset(value) => AttributeValue::SecOffset(*value),
            AttributeValue::DebugAddrBase(value) => AttributeValue::DebugAddrBase(*value),
            AttributeValue::DebugAddrIndex(value) => AttributeValue::DebugAddrIndex(*value),
            AttributeValue::DebugAddrIndexOffset(index, offset) =>
                AttributeValue::DebugAddrIndexOffset(*index, *offset),
            AttributeValue::UnitRef(value) => AttributeValue::UnitRef(*value),
            AttributeValue::DebugInfoRef(value) => AttributeValue::DebugInfoRef(*value),
            AttributeValue::DebugInfoRefSup(value) => AttributeValue::DebugInfoRefSup(*value),
            AttributeValue::DebugLineRef(value) => AttributeValue::DebugLineRef(*value),
            AttributeValue::LocationListsRef(value) => AttributeValue::LocationListsRef(*value),
            AttributeValue::DebugLocListsBase(value) => AttributeValue::DebugLocListsBase(*value),
            AttributeValue::DebugLocListsIndex(value) => AttributeValue::DebugLocListsIndex(*value),
            AttributeValue::DebugMacinfoRef(value) => AttributeValue::DebugMacinfoRef(*value),
            AttributeValue::DebugMacroRef(value) => AttributeValue::DebugMacroRef(*value),
            AttributeValue::RangeListsRef(value) => AttributeValue::RangeListsRef(*value),
            AttributeValue::DebugRngListsBase(value) => AttributeValue::DebugRngListsBase(*value),
            AttributeValue::DebugRngListsIndex(value) => AttributeValue::DebugRngListsIndex(*value),
            AttributeValue::DebugTypesRef(value) => AttributeValue::DebugTypesRef(*value),
            AttributeValue::DebugStrRef(value) => AttributeValue::DebugStrRef(*value),
            AttributeValue::DebugStrRefSup(value) => AttributeValue::DebugStrRefSup(*value),
            AttributeValue::DebugStrOffsetsBase(value) => AttributeValue::DebugStrOffsetsBase(
                *value,
            ),
            AttributeValue::DebugStrOffsetsIndex(value) => AttributeValue::DebugStrOffsetsIndex(
                *value,
            ),
            AttributeValue::DebugLineStrRef(value) => AttributeValue::DebugLineStrRef(*value),
            AttributeValue::String(bytes) => AttributeValue::String(bytes.copy()),
            AttributeValue::Encoding(value) => AttributeValue::Encoding(*value),
            AttributeValue::DecimalSign(value) => AttributeValue::DecimalSign(*value),
            AttributeValue::Endianity(value) => AttributeValue::Endianity(*value),
            AttributeValue::Accessibility(value) => AttributeValue::Accessibility(*value),
            AttributeValue::Visibility(value) => AttributeValue::Visibility(*value),
            AttributeValue::Virtuality(value) => AttributeValue::Virtuality(*value),
            AttributeValue::Language(value) => AttributeValue::Language(*value),
            AttributeValue::AddressClass(value) => AttributeValue::AddressClass(*value),
            AttributeValue::IdentifierCase(value) => AttributeValue::IdentifierCase(*value),
            AttributeValue::CallingConvention(value) => AttributeValue::CallingConvention(*value),
            AttributeValue::Inline(value) => AttributeValue::Inline(*value),
            AttributeValue::Ordering(value) => AttributeValue::Ordering(*value),
            AttributeValue::FileIndex(value) => AttributeValue::FileIndex(*value),
            AttributeValue::DwoId(value) => AttributeValue::DwoId(*value),
        }
    }
}
