use crate::samples::{Entry, end_at, part, table_with, unit_of, whole};
use gimli_base::{Error, LittleEndian, Reader, ReaderOffset};
use gimli_units::AttributeValue;
use std::alloc::{AllocError, Global};
use std::process::Abort;
use std::test::Fail;

// The number of the attributes.
const COUNT: u16 = 10_000;

// The name and the form of each: 0x03, of form data1.
const DATA1: &[u8] = &[0x03, 0x0b];

// An entry of code 1, and so many bytes more, which count up and begin again after 255.
fn entry_bytes(alloc: Global, count: u16) -> Result<Vec<u8>, AllocError> {
    let mut bytes = Vec::from_slice(alloc, &[0x01])?;
    for number in 0..count {
        let [byte, _] = number.to_le_bytes();
        bytes.push(byte)?;
    }
    Ok(bytes)
}

// Whether an entry has the attributes of the unit.
fn has_values<R: Reader>(entry: &Entry<R>) -> bool {
    let attrs = entry.attrs();
    attrs.len() == usize::from(COUNT)
        && attrs.iter().zip(0..COUNT).all(|(attribute, number)| {
            let [byte, _] = number.to_le_bytes();
            matches!(attribute.raw_value(), AttributeValue::Data1(found) if found == byte)
        })
}

// Reads the entry, and passes its attributes.
fn tries_entry<R: Reader>(rt: &impl Abort, alloc: Global, entries: R) -> Result<(), Fail> {
    let table = table_with(alloc, 0, DATA1, u32::from(COUNT))?;
    let unit = unit_of(rt, entries);
    let mut raw = unit.entries_raw(&table, None)?;
    let mut passed = raw.copy();
    let mut entry = Entry::null(alloc);
    assert!(rt; raw.read_entry(&mut entry) == Ok(true));
    assert!(rt; has_values(&entry) && raw.is_empty());
    let declared = passed.read_abbreviation()?.expect(rt, "a null");
    assert!(rt; passed.skip_attributes(declared.attributes()) == Ok(()) && passed.is_empty());
    Ok(())
}

#[test]
fn reads_and_passes_10000_attributes(rt: HostRuntime) -> Result<(), Fail> {
    let entries = entry_bytes(rt.alloc(), COUNT)?;
    tries_entry(&rt, rt.alloc(), part(&entries, LittleEndian))?;
    tries_entry(&rt, rt.alloc(), whole(&rt, &entries, LittleEndian))
}

// Tries to read and to pass the entry where its last byte is missing: the readers stay where they stand.
fn tries_cut_entry<R: Reader>(rt: &impl Abort, alloc: Global, entries: R) -> Result<(), Fail> {
    let table = table_with(alloc, 0, DATA1, u32::from(COUNT))?;
    let unit = unit_of(rt, entries);
    let mut raw = unit.entries_raw(&table, None)?;
    let mut entry = Entry::null(alloc);
    // the code and 9,999 bytes are there
    assert!(rt; raw.read_entry(&mut entry) == Err(end_at(10_100)));
    assert!(rt; entry.is_null() && entry.attrs().is_empty());
    assert!(rt; (raw.next_offset().0.into_u64(), raw.next_depth()) == (11, 0));
    let declared = raw.read_abbreviation()?.expect(rt, "a null");
    let mut attrs = Vec::new(alloc);
    assert!(rt; raw.read_attributes(declared.attributes(), &mut attrs) == Err(end_at(10_100)));
    assert!(rt; attrs.is_empty() && raw.next_offset().0.into_u64() == 12);
    let answer = raw.skip_attributes(declared.attributes());
    assert!(rt; matches!(answer, Err(Error::UnexpectedEof(_))));
    assert!(rt; raw.next_offset().0.into_u64() == 12);
    Ok(())
}

#[test]
fn refuses_10000_attributes_where_a_byte_is_missing(rt: HostRuntime) -> Result<(), Fail> {
    let entries = entry_bytes(rt.alloc(), COUNT - 1)?;
    tries_cut_entry(&rt, rt.alloc(), part(&entries, LittleEndian))?;
    tries_cut_entry(&rt, rt.alloc(), whole(&rt, &entries, LittleEndian))
}
