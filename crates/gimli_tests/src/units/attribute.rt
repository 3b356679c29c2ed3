use crate::samples::{Part, Table, encoding, part, table_of};
use crate::units::samples::{raw_in, read, specification};
use gimli_base::{DebugAddrIndex, LittleEndian};
use gimli_units::{Attribute, AttributeValue, UnitOffset};
use std::fmt::Debug;
use std::process::Abort;
use std::test::Fail;

// Tries that a value is equal to what was copied from it.
fn tries_equality<T: Copy + Debug + PartialEq>(rt: &impl Abort, value: T, copies: [T; 3]) {
    for copied in copies {
        assert_eq!(rt; copied, value);
    }
}

// One value of each kind, which holds this text or this number.
fn values(text: &[u8], number: u8) -> [AttributeValue<Part<'_>>; 4] {
    [
        AttributeValue::String(part(text, LittleEndian)),
        AttributeValue::Data1(number),
        AttributeValue::UnitRef(UnitOffset(usize::from(number))),
        AttributeValue::DebugAddrIndexOffset(DebugAddrIndex(5), u32::from(number)),
    ]
}

#[test]
fn values_are_equal_where_all_parts_are(rt: HostRuntime) -> Result<(), Fail> {
    for (i, first) in values(b"foo", 5).into_iter().enumerate() {
        tries_equality(&rt, first, [first, first.clone()?, first.copy()]);
        for (j, second) in values(b"foo", 5).into_iter().enumerate() {
            assert!(rt; (first == second) == (i == j));
        }
        for other in values(b"fop", 6) {
            assert_ne!(rt; first, other);
        }
    }
    Ok(())
}

// What is read of an attribute.
type Found<'a> = Result<Attribute<Part<'a>>, Fail>;

// The attribute of a name and a form that is read from these bytes.
fn attribute<'a>(rt: &impl Abort, table: &Table, given: (u16, u16), bytes: &'a [u8]) -> Found<'a> {
    let mut raw = raw_in(encoding(4, 4), part(bytes, LittleEndian), table);
    Ok(read(&mut raw, specification(rt, given.0, given.1))?)
}

#[test]
fn attributes_are_equal_where_all_parts_are(rt: HostRuntime) -> Result<(), Fail> {
    let table = table_of(rt.alloc(), &[0])?;
    let first = attribute(&rt, &table, (0x03, 0x0b), &[5])?;
    tries_equality(&rt, first, [first, first.clone()?, first.copy()]);
    let others = [
        // another name
        attribute(&rt, &table, (0x04, 0x0b), &[5])?,
        // another form, and the same value
        attribute(&rt, &table, (0x03, 0x16), &[0x0b, 5])?,
        // another value
        attribute(&rt, &table, (0x03, 0x0b), &[6])?,
    ];
    for other in others {
        assert_ne!(rt; other, first);
    }
    Ok(())
}
