//! Sets of ranges of addresses.

use crate::samples::{found, next_of, part, whole};
use crate::sections::{holds, tries_copies};
use gimli_base::{EndianSlice, LittleEndian, Reader, Section, SectionId};
use gimli_lists::{ArangeEntryIter, ArangeHeader, DebugAranges, Range};
use std::process::Abort;
use std::test::Fail;

// Two equal sets whose addresses have one byte, with the tuples (1, 2) and (3, 4).
const TWO_SETS: [u8; 32] = [
    0x0c, 0, 0, 0, 2, 0, 1, 2, 3, 4, 1, 0, 1, 2, 3, 4, 0x0c, 0, 0, 0, 2, 0, 1, 2, 3, 4, 1, 0, 1, 2,
    3, 4,
];

// The first set of a section.
fn first_set<R: Reader>(rt: &impl Abort, reader: R) -> ArangeHeader<R> {
    found(rt, DebugAranges::from(reader).headers().next())
}

// Tries that no entry is left, by each call.
fn tries_no_entry<R: Reader>(rt: &impl Abort, entries: &mut ArangeEntryIter<R>) {
    assert!(rt; entries.next_raw() == Ok(None));
    assert!(rt; entries.next() == Ok(None));
    assert!(rt; next_of(entries).is_none());
}

// Entries are ordered by where they begin, then by where they end, and then by their lengths. A raw one has
// the end 0.
#[test]
fn are_ordered_by_their_fields(rt: HostRuntime) -> Result<(), Fail> {
    let bytes = b"\x10\0\0\0\x02\0\x01\x02\x03\x04\x01\0\x01\x02\x01\x03\x02\x01\x02\x01";
    let header = first_set(&rt, part(bytes, LittleEndian));
    let mut entries = header.entries();
    let first = found(&rt, entries.next());
    let second = found(&rt, entries.next());
    let third = found(&rt, entries.next());
    let fourth = found(&rt, entries.next());
    assert!(rt; first < second && second < third && first < third);
    assert!(rt; third == fourth && third <= fourth && third >= fourth && second != third);
    let mut raw = header.entries();
    let low = found(&rt, raw.next_raw());
    let high = found(&rt, raw.next_raw());
    assert!(rt; low < high && low != high && low.range() == high.range() && low < first);
    let text = format!(in rt.alloc(); "{first:?}")?;
    let wanted = "ArangeEntry { range: Range { begin: 1, end: 3 }, length: 2 }";
    assert!(rt; text.as_str() == wanted);
    Ok(())
}

// Tries copies of two ranges, by the call and by the iterator, and of the first of them.
fn tries_copied_entries<R: Reader>(rt: &impl Abort, mut entries: ArangeEntryIter<R>) {
    let item = next_of(&mut entries.copy()).expect(rt, "no item");
    let entry = found(rt, entries.next());
    assert!(rt; item == Ok(entry.copy()));
    assert!(rt; entry.copy().range() == Range { begin: 1, end: 3 });
    // an end that is known is found again
    assert!(rt; entries.convert_raw(entry.copy()) == Ok(Some(entry)));
    let last = found(rt, entries.copy().next());
    assert!(rt; last.range() == Range { begin: 3, end: 7 });
    assert!(rt; last == found(rt, entries.next()));
    tries_no_entry(rt, &mut entries);
}

// Tries copies of a section of two equal sets and of them, that the iterator answers what the call does, and that
// no set is left after them.
fn tries_sets<R: Reader + PartialEq>(rt: &impl Abort, reader: R) {
    let mut headers = DebugAranges::from(reader.copy()).headers();
    for _ in 0..2 {
        let item = next_of(&mut headers.copy()).expect(rt, "no set");
        let header = found(rt, headers.next());
        assert!(rt; item == Ok(header.copy()));
        tries_copied_entries(rt, header.copy().entries());
    }
    assert!(rt; next_of(&mut headers).is_none());
    tries_copies!(rt, DebugAranges, headers, reader, &TWO_SETS);
}

#[test]
fn copies_answer_what_the_sources_answer(rt: HostRuntime) {
    tries_sets(&rt, part(&TWO_SETS, LittleEndian));
    tries_sets(&rt, whole(&rt, &TWO_SETS, LittleEndian));
}

// Headers are equal where all their parts are, of the reader the bytes and the order.
#[test]
fn headers_are_compared_by_their_parts(rt: HostRuntime) {
    let mut other = TWO_SETS;
    other[13] = 3;
    let header = first_set(&rt, part(&TWO_SETS, LittleEndian));
    assert!(rt; first_set(&rt, EndianSlice::new(&TWO_SETS, LittleEndian)) == header);
    assert!(rt; first_set(&rt, EndianSlice::new(&other, LittleEndian)) != header);
}
