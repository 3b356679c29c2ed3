//! The lines of rows, beside each line by a `write_all` of its own, over writers that take little,
//! refuse, or pass on what they get. They are gathered nowhere: what was taken, how often a writer
//! was called, and the answer are the same.

use crate::samples::{Entry, Raw, found, table_of};
use crate::walk::writers::{Both, Narrow, Own, Takes, Tried};
use gimli_base::{LittleEndian, Reader, ReaderOffset};
use gimli_headers::DebugInfo;
use gimli_walk::{Mode, WriteFault, walk_text};
use std::alloc::{AllocError, Global};
use std::io::{BufWriter, Write};
use std::process::Abort;
use std::test::Fail;
use test_failing::{Failing, Refusal};

// Code 1: the tag 0x34, no children, and no attribute. Code 2: the tag 0x2e, and children. Code 3:
// the tag 0x4109, children, and the attribute 0x03 of form string.
const TABLE: &[u8] = b"\x01\x34\0\0\0\x02\x2e\x01\0\0\x03\x89\x82\x01\x01\x03\x08\0\0\0";

// Entries of code 1.
const FLAT: &[u8] = &[0x01];

// Two entries with children, and three nulls, so that depths are below zero.
const NESTED: &[u8] = &[0x02, 0x01, 0x03, 0x61, 0x00, 0x00, 0x00, 0x00];

// The entries of a unit: so many times these.
type Entries = (u16, &'static [u8]);

// What most tests write.
const USUAL: [Entries; 4] = [(0, FLAT), (1, FLAT), (330, FLAT), (60, NESTED)];

// How units end: a null ends the rows, or a code that is not declared, whose line is written in parts.
const LASTS: [u8; 2] = [0, 7];

// A section of one unit.
#[derive(Drop)]
struct Unit {
    alloc: Global,
    info: Vec<u8>,
}

// A unit of so many times these entries, and then one of another code.
fn unit_of(alloc: Global, (count, entries): Entries, last: u8) -> Result<Unit, AllocError> {
    let mut content = Vec::new(alloc);
    for _ in 0..count {
        content.extend_from_slice(entries)?;
    }
    content.push(last)?;
    let [low, high, ..] = content.len().wrapping_add(7).to_le_bytes();
    let mut info = Vec::from_slice(alloc, &[low, high, 0, 0, 0x04, 0, 0, 0, 0, 0, 0x04])?;
    info.extend_from_slice(&content)?;
    Ok(Unit { alloc, info })
}

// The units of these entries, each with each of these ends.
fn units(alloc: Global, contents: &[Entries], lasts: &[u8]) -> Result<Vec<Unit>, AllocError> {
    let mut units = Vec::new(alloc);
    for entries in contents {
        for last in lasts {
            units.push(unit_of(alloc, *entries, *last)?)?;
        }
    }
    Ok(units)
}

// The status of what is written.
type Answer = Result<u8, WriteFault>;

// The line of a row, put together by `format!`.
fn line_of<R: Reader>(alloc: Global, entry: &Entry<R>) -> Result<String, WriteFault> {
    let (offset, depth) = (entry.offset().0.into_u64(), entry.depth());
    let (tag, flag) = (entry.tag().0, u8::from(entry.has_children()));
    format!(in alloc; "{offset:x} {depth} {tag:x} {flag}\n").map_err(|_| WriteFault)
}

impl Unit {
    // Writes the lines of all rows: whole entries are read, and each line is handed over by one `write_all`.
    fn write_rows<R: Reader, W: Write>(&self, entries: &mut Raw<'_, R>, out: &mut W) -> Answer {
        let mut entry = Entry::null(self.alloc);
        for _ in 0..self.info.len() {
            if entries.is_empty() {
                break;
            }
            if let Err(error) = entries.read_entry(&mut entry) {
                let (number, offset) = (error.number(), entry.offset().0.into_u64());
                write!(out, "error {number} {offset:x}\n").map_err(|_| WriteFault)?;
                return Ok(1);
            }
            let line = line_of(self.alloc, &entry)?;
            out.write_all(line.as_bytes()).map_err(|_| WriteFault)?;
        }
        out.write_all(b"end\n").map_err(|_| WriteFault)?;
        Ok(0)
    }

    // The same of the section.
    fn write_apart<W: Write>(&self, rt: &impl Abort, out: &mut W) -> Answer {
        let unit = found(rt, DebugInfo::new(&self.info, LittleEndian).units().next());
        let table = table_of(self.alloc, TABLE).expect(rt, "no table");
        let mut entries = unit.entries_raw(&table, None).expect(rt, "no entries");
        self.write_rows(&mut entries, out)
    }

    // Whether two writers get the same answer, one from what is tried, the other in this way.
    fn answers_alike<W: Write>(&self, rt: &impl Abort, text: &mut W, apart: &mut W) -> bool {
        let wanted = self.write_apart(rt, apart);
        walk_text(self.alloc, Mode::Rows, &self.info, TABLE, text) == wanted
    }

    // Tries writers with each of these rooms: what they answer and have got, and how often they were called.
    fn tries_rooms<W: Tried>(&self, rt: &impl Abort, takes: Takes, rooms: &[usize]) {
        for room in rooms {
            let mut text = W::new(self.alloc, takes, *room);
            let mut apart = W::new(self.alloc, takes, *room);
            let is_same = self.answers_alike(rt, &mut text, &mut apart);
            assert!(rt; is_same && text == apart, "{takes:?} with room for {room}");
        }
    }

    // Tries a writer that buffers so many bytes, and passes them on to one that is full after some: what
    // that one has got when the call returns, and what is buffered then.
    fn tries_buffered(&self, rt: &impl Abort, case: (usize, Takes, usize)) -> Result<(), Fail> {
        let (alloc, (capacity, takes, room)) = (self.alloc, case);
        let mut text = BufWriter::with_capacity(alloc, capacity, Narrow::new(alloc, takes, room))?;
        let mut apart = BufWriter::with_capacity(alloc, capacity, Narrow::new(alloc, takes, room))?;
        assert!(rt; self.answers_alike(rt, &mut text, &mut apart), "{case:?}");
        assert!(rt; text.get_ref() == apart.get_ref(), "{case:?}");
        assert!(rt; text.buffer() == apart.buffer(), "{case:?}");
        Ok(())
    }

    // Tries a list whose request for memory of this number is refused.
    fn tries_refused(&self, rt: &impl Abort, number: u64) {
        let heap = Failing::new(self.alloc, Refusal::Nth(number));
        let heap_apart = Failing::new(self.alloc, Refusal::Nth(number));
        let (mut text, mut apart) = (Vec::new(&heap), Vec::new(&heap_apart));
        assert!(rt; self.answers_alike(rt, &mut text, &mut apart), "{number}");
        assert_eq!(rt; heap.requests(), heap_apart.requests(), "{number}");
        assert_eq!(rt; text.capacity(), apart.capacity(), "{number}");
        assert!(rt; text == apart, "{number}");
    }
}

// Rooms for some lines and more.
fn rooms_of(alloc: Global) -> Result<Vec<usize>, AllocError> {
    let mut rooms = Vec::new(alloc);
    for room in 0..3800usize {
        if room < 20 || room % 149 == 0 || 1000 <= room && room < 1030 {
            rooms.push(room)?;
        }
    }
    Ok(rooms)
}

// The ways of taking bytes that are tried with each of these rooms.
const TAKES: [Takes; 7] = [
    Takes::Whole,
    Takes::Part,
    Takes::Few,
    Takes::WholeInterrupted,
    Takes::WholeOrZero,
    Takes::Record,
    Takes::Piece,
];

#[test]
fn take_what_lines_one_by_one_leave(rt: HostRuntime) -> Result<(), Fail> {
    let rooms = rooms_of(rt.alloc())?;
    // a line is 9 or 10 bytes long
    for count in [0u16, 1, 97, 98, 99, 100, 101, 102, 205, 330] {
        for unit in units(rt.alloc(), &[(count, FLAT)], &LASTS)? {
            for takes in TAKES {
                unit.tries_rooms::<Narrow>(&rt, takes, &rooms);
            }
            unit.tries_rooms::<Narrow>(&rt, Takes::Interrupted, &[usize::MAX]);
        }
    }
    Ok(())
}

#[test]
fn lose_no_error_that_comes_once(rt: HostRuntime) -> Result<(), Fail> {
    for unit in units(rt.alloc(), &USUAL, &LASTS)? {
        for number in 0..20u64 {
            for call in [number.wrapping_add(1), number.wrapping_mul(23)] {
                unit.tries_rooms::<Narrow>(&rt, Takes::AllBut(call), &[usize::MAX, 1000]);
                unit.tries_rooms::<Narrow>(&rt, Takes::ZeroAt(call), &[usize::MAX, 1000]);
            }
        }
    }
    Ok(())
}

#[test]
fn reach_what_is_behind_a_buffer(rt: HostRuntime) -> Result<(), Fail> {
    let contents = [(1, FLAT), (330, FLAT), (1200, FLAT), (60, NESTED)];
    for unit in units(rt.alloc(), &contents, &[7])? {
        for capacity in [0usize, 1, 9, 10, 64, 1000, 1024, 8192] {
            for room in [0usize, 1, 9, 500, 1024, 3000, 8192, usize::MAX] {
                unit.tries_buffered(&rt, (capacity, Takes::Part, room))?;
                unit.tries_buffered(&rt, (capacity, Takes::Whole, room))?;
            }
            for number in [1u64, 2, 3, 40] {
                unit.tries_buffered(&rt, (capacity, Takes::AllBut(number), usize::MAX))?;
            }
        }
    }
    Ok(())
}

#[test]
fn ask_no_more_of_a_list(rt: HostRuntime) -> Result<(), Fail> {
    for unit in units(rt.alloc(), &USUAL, &LASTS)? {
        for number in 0..20u64 {
            unit.tries_refused(&rt, number);
        }
    }
    Ok(())
}

#[test]
fn go_on_to_two_writers(rt: HostRuntime) -> Result<(), Fail> {
    let rooms = [0usize, 9, 499, 500, 501, 505, 1024, usize::MAX];
    for unit in units(rt.alloc(), &USUAL, &[0])? {
        unit.tries_rooms::<Both>(&rt, Takes::Whole, &rooms);
        unit.tries_rooms::<Both>(&rt, Takes::Part, &rooms);
    }
    Ok(())
}

#[test]
fn come_by_write_all_alone(rt: HostRuntime) -> Result<(), Fail> {
    for unit in units(rt.alloc(), &USUAL, &LASTS)? {
        unit.tries_rooms::<Own>(&rt, Takes::Whole, &[0, 9, 10, 500, 1024, usize::MAX]);
    }
    Ok(())
}
