//! Attributes and their values, as numbers.

use crate::fold::{mixed, with_ends};
use gimli_base::{Reader, ReaderOffset};
use gimli_units::{Attribute, AttributeValue, DebuggingInformationEntry};
use std::alloc::Global;

// A checksum with a number and its sign.
fn with_signed(sum: u64, number: i64) -> u64 {
    mixed(mixed(sum, u64::from(number < 0)), number.unsigned_abs())
}

// A checksum with a number of 16 bytes.
fn with_long(sum: u64, number: u128) -> u64 {
    let low = (number % 0x1_0000_0000_0000_0000) as u64;
    let high = (number / 0x1_0000_0000_0000_0000) as u64;
    mixed(mixed(sum, low), high)
}

/// A checksum with the kind of a value and its number, or the length and both ends of its bytes.
#[inline(never)]
pub(crate) fn with_value<R: Reader>(sum: u64, value: &AttributeValue<R>) -> u64 {
    let (kind, number) = match value {
        AttributeValue::Block(bytes) => return with_ends(mixed(sum, 1), bytes),
        AttributeValue::Exprloc(expression) => return with_ends(mixed(sum, 2), &expression.0),
        AttributeValue::String(text) => return with_ends(mixed(sum, 3), text),
        AttributeValue::Data16(number) => return with_long(mixed(sum, 4), *number),
        AttributeValue::Sdata(number) => return with_signed(mixed(sum, 5), *number),
        AttributeValue::DebugAddrIndexOffset(index, offset) => {
            return mixed(mixed(mixed(sum, 6), index.0.into_u64()), u64::from(*offset));
        }
        AttributeValue::Addr(address) => (7, *address),
        AttributeValue::Data1(number) => (8, u64::from(*number)),
        AttributeValue::Data2(number) => (9, u64::from(*number)),
        AttributeValue::Data4(number) => (10, u64::from(*number)),
        AttributeValue::Data8(number) => (11, *number),
        AttributeValue::Udata(number) => (12, *number),
        AttributeValue::Flag(flag) => (13, u64::from(*flag)),
        AttributeValue::SecOffset(offset) => (14, offset.into_u64()),
        AttributeValue::DebugAddrBase(base) => (15, base.0.into_u64()),
        AttributeValue::DebugAddrIndex(index) => (16, index.0.into_u64()),
        AttributeValue::UnitRef(offset) => (17, offset.0.into_u64()),
        AttributeValue::DebugInfoRef(offset) => (18, offset.0.into_u64()),
        AttributeValue::DebugInfoRefSup(offset) => (19, offset.0.into_u64()),
        AttributeValue::DebugLineRef(offset) => (20, offset.0.into_u64()),
        AttributeValue::LocationListsRef(offset) => (21, offset.0.into_u64()),
        AttributeValue::DebugLocListsBase(base) => (22, base.0.into_u64()),
        AttributeValue::DebugLocListsIndex(index) => (23, index.0.into_u64()),
        AttributeValue::DebugMacinfoRef(offset) => (24, offset.0.into_u64()),
        AttributeValue::DebugMacroRef(offset) => (25, offset.0.into_u64()),
        AttributeValue::RangeListsRef(offset) => (26, offset.0.into_u64()),
        AttributeValue::DebugRngListsBase(base) => (27, base.0.into_u64()),
        AttributeValue::DebugRngListsIndex(index) => (28, index.0.into_u64()),
        AttributeValue::DebugTypesRef(signature) => (29, signature.0),
        AttributeValue::DebugStrRef(offset) => (30, offset.0.into_u64()),
        AttributeValue::DebugStrRefSup(offset) => (31, offset.0.into_u64()),
        AttributeValue::DebugStrOffsetsBase(base) => (32, base.0.into_u64()),
        AttributeValue::DebugStrOffsetsIndex(index) => (33, index.0.into_u64()),
        AttributeValue::DebugLineStrRef(offset) => (34, offset.0.into_u64()),
        AttributeValue::Encoding(code) => (35, u64::from(code.0)),
        AttributeValue::DecimalSign(code) => (36, u64::from(code.0)),
        AttributeValue::Endianity(code) => (37, u64::from(code.0)),
        AttributeValue::Accessibility(code) => (38, u64::from(code.0)),
        AttributeValue::Visibility(code) => (39, u64::from(code.0)),
        AttributeValue::Virtuality(code) => (40, u64::from(code.0)),
        AttributeValue::Language(code) => (41, u64::from(code.0)),
        AttributeValue::AddressClass(code) => (42, code.0),
        AttributeValue::IdentifierCase(code) => (43, u64::from(code.0)),
        AttributeValue::CallingConvention(code) => (44, u64::from(code.0)),
        AttributeValue::Inline(code) => (45, u64::from(code.0)),
        AttributeValue::Ordering(code) => (46, u64::from(code.0)),
        AttributeValue::FileIndex(index) => (47, *index),
        AttributeValue::DwoId(id) => (48, id.0),
    };
    mixed(mixed(sum, kind), number)
}

/// A checksum with a place in a unit: an offset and a depth.
#[inline]
pub(crate) fn with_place(sum: u64, offset: u64, depth: isize) -> u64 {
    let signed = mixed(mixed(sum, offset), u64::from(depth < 0));
    mixed(signed, depth.unsigned_abs() as u64)
}

/// A checksum with an entry's place, its tag, and whether it has children.
pub(crate) fn with_entry<R: Reader>(sum: u64, entry: &DebuggingInformationEntry<R, Global>) -> u64 {
    let place = with_place(sum, entry.offset().0.into_u64(), entry.depth());
    let tag = mixed(place, u64::from(entry.tag().0));
    mixed(tag, u64::from(entry.has_children()))
}

/// A checksum with the name and the form of an attribute.
#[inline]
pub(crate) fn with_name<R: Reader>(sum: u64, attribute: &Attribute<R>) -> u64 {
    let name = mixed(sum, u64::from(attribute.name().0));
    mixed(name, u64::from(attribute.form().0))
}

/// A checksum with the names, the forms and the raw values of attributes.
#[inline(never)]
pub(crate) fn with_raw_values<R: Reader>(sum: u64, attributes: &[Attribute<R>]) -> u64 {
    let mut all = sum;
    for attribute in attributes {
        all = with_value(with_name(all, attribute), &attribute.raw_value());
    }
    all
}
