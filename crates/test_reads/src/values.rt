//! Values and attributes, as answers show them.

use gimli_base::{Reader, ReaderOffset};
use gimli_units::{Attribute, AttributeValue};
use test_tables::{Text, hex_of};

// The name of a value's variant and its number, for the variants that are listed after how their number is
// made, or else the last.
macro_rules! number_of {
    ($value:expr; $($part:ident => $number:expr; $($name:ident)*;)* _ => $other:expr) => {
        match $value {
            $($(AttributeValue::$name($part) => (stringify!($name), $number),)*)*
            _ => $other,
        }
    };
}

// Writes the name of a value that is bytes, and these.
fn write_named<R: Reader>(name: &str, reader: &R, out: &mut Text) {
    write!(out, "{name} ");
    hex_of(out, reader, ":");
}

/// Writes a value: the name of its variant, and what it holds.
pub(crate) fn write_value<R: Reader>(value: &AttributeValue<R>, out: &mut Text) {
    match value {
        AttributeValue::Block(bytes) => write_named("Block", bytes, out),
        AttributeValue::String(bytes) => write_named("String", bytes, out),
        AttributeValue::Exprloc(expression) => write_named("Exprloc", &expression.0, out),
        AttributeValue::Data16(number) => write!(out, "Data16 {number}"),
        AttributeValue::Sdata(number) => write!(out, "Sdata {number}"),
        AttributeValue::Flag(holds) => write!(out, "Flag {holds}"),
        AttributeValue::DebugAddrIndexOffset(index, offset) => {
            write!(out, "DebugAddrIndexOffset {} {offset}", index.0.into_u64());
        }
        _ => {
            let (name, number) = number_of(value);
            write!(out, "{name} {number}");
        }
    }
}

/// Writes an attribute: name, form, and the value that its form shows.
pub(crate) fn write_parts<R: Reader>(attribute: &Attribute<R>, out: &mut Text) {
    write!(out, "{:x}:{:x} ", attribute.name().0, attribute.form().0);
    write_value(&attribute.raw_value(), out);
}

// The name of a value's variant, and its number.
fn number_of<R: Reader>(value: &AttributeValue<R>) -> (&'static str, u64) {
    number_of!(value;
        number => u64::from(*number); Addr Data1 Data2 Data4 Data8 Udata FileIndex;
        part => u64::from(part.0); DebugTypesRef DwoId Encoding DecimalSign Endianity Accessibility Visibility
        Virtuality Language AddressClass IdentifierCase CallingConvention Inline Ordering;
        offset => offset.into_u64(); SecOffset;
        _ => number_of_reference(value)
    )
}

// The same of a reference, a base or an index.
fn number_of_reference<R: Reader>(value: &AttributeValue<R>) -> (&'static str, u64) {
    number_of!(value;
        offset => offset.0.into_u64(); DebugAddrBase DebugAddrIndex UnitRef DebugInfoRef DebugInfoRefSup
        DebugLineRef LocationListsRef DebugLocListsBase DebugLocListsIndex DebugMacinfoRef DebugMacroRef
        RangeListsRef DebugRngListsBase DebugRngListsIndex DebugStrRef DebugStrRefSup DebugStrOffsetsBase
        DebugStrOffsetsIndex DebugLineStrRef;
        _ => ("another", 0)
    )
}
