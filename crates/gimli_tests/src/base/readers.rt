//! How readers and expressions are made, copied, compared and shown.

use crate::samples::{compares, has_bytes_at, part, whole};
use gimli_base::{
    BigEndian, EndianSlice, Expression, LittleEndian, Reader, RunTimeEndian, WholeSlice,
};
use std::process::Abort;
use std::test::Fail;

const BYTES: [u8; 5] = [0x81, 0x02, 0x03, 0x04, 0x05];

// Tries in which byte order a reader reads, and which bytes it has from a place on.
fn has<R: Reader>(rt: &impl Abort, reader: R, order: R::Endian, bytes: &[u8], place: u64) {
    assert!(rt; reader.endian() == order);
    assert!(rt; has_bytes_at(&reader, bytes, place));
}

#[test]
fn begin_where_they_are_made(rt: HostRuntime) {
    let big = RunTimeEndian::Big;
    has(&rt, EndianSlice::new(&BYTES, big), big, &BYTES, 0);
    has(&rt, WholeSlice::new(&BYTES, big), big, &BYTES, 0);
    let mut reader = EndianSlice::new_at(&BYTES, LittleEndian, 7);
    let front = reader.split(2).expect(&rt, "two bytes");
    assert!(rt; (front.slice(), reader.slice()) == (&BYTES[..2], &BYTES[2..]));
    has(&rt, reader, LittleEndian, &BYTES[2..], 9);
    let mut reader = WholeSlice::new_at(&BYTES, LittleEndian, 7);
    let front = reader.split(2).expect(&rt, "two bytes");
    assert!(rt; (front.slice(), reader.slice()) == (&BYTES[..2], &BYTES[2..]));
    has(&rt, reader, LittleEndian, &BYTES[2..], 9);
}

#[test]
fn are_empty_by_default(rt: HostRuntime) {
    has(&rt, EndianSlice::default(), LittleEndian, &[], 0);
    has(&rt, EndianSlice::default(), BigEndian, &[], 0);
    has(&rt, WholeSlice::default(), LittleEndian, &[], 0);
    has(&rt, WholeSlice::default(), BigEndian, &[], 0);
}

// Tries that a copy, a clone, an assigned value and an expression of a reader of `BYTES` are read alone.
fn tries_copy<R: Reader + Copy>(rt: &impl Abort, reader: R, order: R::Endian) -> Result<(), Fail> {
    let (mut clone, mut assigned, mut copy) = (reader.clone()?, reader, reader.copy());
    assert!(rt; clone.read_u32() == Ok(0x8102_0304));
    assert!(rt; assigned.read_u16() == Ok(0x8102));
    copy.empty();
    assert!(rt; copy.is_empty());
    has(rt, clone, order, &BYTES[4..], 104);
    has(rt, assigned, order, &BYTES[2..], 102);
    has(rt, copy, order, &[], 105);
    has(rt, Expression(reader).copy().0, order, &BYTES, 100);
    has(rt, reader, order, &BYTES, 100);
    Ok(())
}

#[test]
fn are_copied_and_cloned(rt: HostRuntime) -> Result<(), Fail> {
    let big = RunTimeEndian::Big;
    tries_copy(&rt, part(&BYTES, big), big)?;
    tries_copy(&rt, part(&BYTES, BigEndian), BigEndian)?;
    tries_copy(&rt, whole(&rt, &BYTES, big), big)?;
    tries_copy(&rt, whole(&rt, &BYTES, BigEndian), BigEndian)
}

const TWICE: [u8; 4] = [0x01, 0x02, 0x01, 0x02];

// Tries readers of `TWICE` made by a type's `new`, and expressions of them.
macro_rules! compares_readers {
    ($rt:expr, $reader:ident, $elsewhere:expr) => {{
        let little = RunTimeEndian::Little;
        let mut second = $reader::new(&TWICE, little);
        let first = second.split(2).expect($rt, "two bytes");
        let big = $reader::new(&TWICE[..2], RunTimeEndian::Big);
        let short = $reader::new(&TWICE[..1], little);
        let turned = $reader::new(&TWICE[1..3], little);
        let long = $reader::new(&TWICE, little);
        compares($rt, first, [second, $elsewhere], [big, short, turned, long]);
        let same = [Expression(second), Expression($elsewhere)];
        let others = [Expression(big), Expression(short), Expression(turned), Expression(long)];
        compares($rt, Expression(first), same, others);
    }};
}

#[test]
fn compare_bytes_and_byte_orders(rt: HostRuntime) {
    let front = &TWICE[..2];
    compares_readers!(&rt, EndianSlice, part(front, RunTimeEndian::Little));
    compares_readers!(&rt, WholeSlice, whole(&rt, front, RunTimeEndian::Little));
}

#[test]
fn show_their_fields(rt: HostRuntime) -> Result<(), Fail> {
    let reader = part(&[0x01, 0x02], RunTimeEndian::Big);
    let text = format!(in rt.alloc(); "{reader:?}")?;
    let wanted = "EndianSlice { bytes: [1, 2], endian: Big, place: 100 }";
    assert!(rt; text.as_str() == wanted);
    let mut reader = whole(&rt, &[0x07, 0x01, 0x02, 0x08], RunTimeEndian::Big);
    assert!(rt; reader.read_u8() == Ok(0x07));
    assert!(rt; reader.truncate(2) == Ok(()));
    let text = format!(in rt.alloc(); "{reader:?}")?;
    let wanted = "WholeSlice { bytes: [1, 2], endian: Big, place: 101 }";
    assert!(rt; text.as_str() == wanted);
    Ok(())
}
