//! Sections: each has the number of its name, and holds the bytes that it is made of, as its copy does.

use crate::samples::{has_bytes_at, part, whole};
use gimli_base::{
    BigEndian, DebugAbbrev, DebugAddr, DebugStr, LittleEndian, Reader, RunTimeEndian, Section,
    SectionId,
};
use gimli_headers::{DebugInfo, DebugTypes};
use gimli_lists::{DebugAranges, DebugLoc, DebugLocLists, DebugRanges, DebugRngLists};
use std::process::Abort;

const BYTES: [u8; 6] = [0x01, 0x11, 0x00, 0x00, 0x00, 0x00];

/// Tries which section it is, and that it and its copy hold bytes from a place on.
pub(crate) fn holds<R: Reader, S: Section<R> + Drop>(
    rt: &impl Abort,
    section: &S,
    id: SectionId,
    (bytes, place): (&[u8], u64),
) {
    assert!(rt; S::id() == id);
    assert!(rt; has_bytes_at(section.reader(), bytes, place), "{id:?}");
    let copy = section.copy();
    assert!(rt; has_bytes_at(copy.reader(), bytes, place), "{id:?} copied");
}

// Tries what a section of two items lends, and copies of the section, of the reader of its items, and of each item:
// a step of a copy leaves the reader that it is a copy of.
macro_rules! tries_copies {
    ($rt:expr, $section:ident, $items:ident, $reader:expr, $bytes:expr) => {{
        let section = $section::from($reader);
        let lent = section.borrow(|reader| reader.copy());
        holds($rt, &lent, SectionId::$section, ($bytes, 100));
        let mut items = section.copy().$items();
        for _ in 0..2 {
            let mut copy = items.copy();
            let by_copy = copy.next().expect($rt, "refused");
            let item = found($rt, items.next());
            assert!($rt; by_copy == Some(item.copy()) && by_copy == Some(item));
            assert!($rt; copy.next() == items.copy().next());
        }
        assert!($rt; (items.copy().next(), items.next()) == (Ok(None), Ok(None)));
    }};
}

pub(crate) use tries_copies;

// Tries a section of a reader of `BYTES`, and the one that is there by default.
fn tries_section<R: Reader, S: Section<R> + Default + Drop>(
    rt: &impl Abort,
    section: S,
    id: SectionId,
) {
    holds(rt, &section, id, (&BYTES, 100));
    holds(rt, &S::default(), id, (&[], 0));
}

// Tries sections of a reader.
macro_rules! tries_sections {
    ($rt:expr, $reader:expr; $($section:ident)*) => {
        $(tries_section($rt, $section::from($reader.copy()), SectionId::$section);)*
    };
}

// Tries each section of a reader.
fn tries_reader<R: Reader + Default>(rt: &impl Abort, reader: &R) {
    tries_sections!(rt, reader; DebugAbbrev DebugAddr DebugStr DebugInfo DebugTypes DebugAranges);
    tries_sections!(rt, reader; DebugRanges DebugRngLists DebugLoc DebugLocLists);
}

#[test]
fn hold_what_they_are_made_of_or_nothing(rt: HostRuntime) {
    tries_reader(&rt, &part(&BYTES, LittleEndian));
    tries_reader(&rt, &part(&BYTES, BigEndian));
    tries_reader(&rt, &whole(&rt, &BYTES, LittleEndian));
    tries_reader(&rt, &whole(&rt, &BYTES, BigEndian));
}

// Tries sections that are made of bytes, the first of which has the place 0.
macro_rules! begin_at_0 {
    ($rt:expr; $($section:ident)*) => {
        $({
            let section = $section::new(&BYTES, RunTimeEndian::Big);
            holds($rt, &section, SectionId::$section, (&BYTES, 0));
            assert!($rt; section.reader().endian() == RunTimeEndian::Big);
        })*
    };
}

#[test]
fn begin_at_the_place_0(rt: HostRuntime) {
    begin_at_0!(&rt; DebugAbbrev DebugStr DebugInfo DebugTypes DebugAranges);
    begin_at_0!(&rt; DebugRanges DebugRngLists DebugLoc DebugLocLists);
}
