//! Steps over long lists and deep chains, forwards by references and without them.

use crate::samples::{part, table_of, unit_of, whole};
use gimli_base::{LittleEndian, Reader, ReaderOffset};
use gimli_units::EntriesCursor;
use std::alloc::{AllocError, Global};
use std::process::Abort;
use std::test::Fail;

// The number of the entries.
const COUNT: u32 = 10_000;

// Code 1: the tag 0x2e, and children. Code 2: the tag 0x34 alone. Code 3: the tag 0x2e, children, and a
// reference of four bytes.
const TABLE: &[u8] = b"\x01\x2e\x01\0\0\x02\x34\0\0\0\x03\x2e\x01\x01\x13\0\0\0";

// Where a cursor stands: the offset and the depth of what was read last, and of what is read next.
type Place = ((u64, isize), (u64, isize));

// A step: its letter; the number of attributes of the entry that it finds, if it finds one; where the cursor
// then stands; and how many entries were read.
type Step = (u8, Option<usize>, Place, usize);

type Cursor<'a, R> = EntriesCursor<'a, R, Global>;

// Where a cursor stands.
fn place_of<R: Reader>(cursor: &Cursor<'_, R>) -> Place {
    let offset = cursor.offset().0.into_u64();
    let next_offset = cursor.next_offset().0.into_u64();
    ((offset, cursor.depth()), (next_offset, cursor.next_depth()))
}

// Takes the step of a letter: to the next entry, to the next in depth-first order, or to the next sibling.
fn take_step<R: Reader>(cursor: &mut Cursor<'_, R>, letter: u8) -> gimli_base::Result<bool> {
    match letter {
        b'e' => cursor.next_entry(),
        b'd' => Ok(cursor.next_dfs()?.is_some()),
        _ => Ok(cursor.next_sibling()?.is_some()),
    }
}

// Tries a step.
fn tries_step<R: Reader>(rt: &impl Abort, cursor: &mut Cursor<'_, R>, step: Step) {
    let (letter, found, place, reads) = step;
    assert!(rt; take_step(cursor, letter) == Ok(found.is_some()));
    let current = match cursor.current() {
        Some(entry) if entry.tag().0 == 0x2e && entry.has_children() => Some(entry.attrs().len()),
        _ => None,
    };
    assert!(rt; current == found);
    assert_eq!(rt; (place_of(cursor), cursor.reads()), (place, reads));
}

// Tries the steps of a cursor, by their numbers from 0 on.
fn tries_steps<R: Reader, F: Fn(u32) -> Step>(rt: &impl Abort, mut cursor: Cursor<'_, R>, step: F)
    requires { F.IsAlwaysCallable step }
{
    for number in 0..COUNT + 2 {
        tries_step(rt, &mut cursor, step(number));
    }
}

// Tries the steps over entries by both readers, of cursors that follow references or read every entry.
fn tries_walk<F: Fn(u32) -> Step>(
    rt: &impl Abort,
    alloc: Global,
    entries: &[u8],
    follows: bool,
    step: F,
) -> Result<(), Fail>
    requires { F.IsAlwaysCallable step }
{
    let table = table_of(alloc, TABLE)?;
    let first = unit_of(rt, part(entries, LittleEndian));
    let second = unit_of(rt, whole(rt, entries, LittleEndian));
    if follows {
        tries_steps(rt, first.entries(alloc, &table), &step);
        tries_steps(rt, second.entries(alloc, &table), &step);
    } else {
        tries_steps(rt, first.entries_plain(alloc, &table), &step);
        tries_steps(rt, second.entries_plain(alloc, &table), &step);
    }
    Ok(())
}

// The step of a number, of which the first is another than the ones after it.
fn first_or(number: u32, first: Step, others: Step) -> Step {
    if number == 0 { first } else { others }
}

// Steps down a chain, and past the nulls that close its lists.
fn down(number: u32) -> Step {
    let (offset, depth) = (11 + u64::from(number), number as isize);
    if number < COUNT {
        let place = ((offset, depth), (offset + 1, depth + 1));
        return (b'd', Some(0), place, number as usize + 1);
    }
    (b'd', None, ((20_010, 1), (20_011, 0)), 20_000)
}

#[test]
fn walks_a_deep_chain(rt: HostRuntime) -> Result<(), Fail> {
    // entries, each the child of the one before, and as many nulls
    let mut entries = vec![in rt.alloc(); 0x01; 10_000]?;
    entries.extend_from_slice(&vec![in rt.alloc(); 0x00; 10_000]?)?;
    let past = (b's', None, ((11, 0), (20_011, 0)), 20_000);
    let at_once = |number: u32| first_or(number, (b'e', Some(0), ((11, 0), (12, 1)), 1), past);
    for follows in [true, false] {
        tries_walk(&rt, rt.alloc(), &entries, follows, down)?;
        tries_walk(&rt, rt.alloc(), &entries, follows, at_once)?;
    }
    Ok(())
}

// An entry whose children have a reference to the next of them each, a child without a code, and a null
// that closes it.
fn siblings(alloc: Global) -> Result<Vec<u8>, AllocError> {
    let mut bytes = Vec::from_slice(alloc, &[0x01])?;
    for number in 0..COUNT {
        bytes.push(0x03)?;
        bytes.extend_from_slice(&(19 + 7 * number).to_le_bytes())?;
        bytes.extend_from_slice(&[0x02, 0x00])?;
    }
    bytes.push(0x00)?;
    Ok(bytes)
}

// How many entries are read up to the child of a number: one for each that is followed, and three where all
// are read.
fn reads_up_to(follows: bool, number: u32) -> usize {
    if follows {
        return 2 + number as usize;
    }
    2 + 3 * number as usize
}

// Steps to the first entry, and from sibling to sibling of its children.
fn along(number: u32, follows: bool) -> Step {
    let Some(child) = number.checked_sub(1) else {
        return (b'e', Some(0), ((11, 0), (12, 1)), 1);
    };
    let letter = if child == 0 { b'e' } else { b's' };
    let offset = 12 + 7 * u64::from(child);
    let reads = reads_up_to(follows, child);
    if child < COUNT {
        return (letter, Some(1), ((offset, 1), (offset + 5, 2)), reads);
    }
    (letter, None, ((offset, 1), (offset + 1, 0)), reads)
}

#[test]
fn walks_a_long_list_of_siblings(rt: HostRuntime) -> Result<(), Fail> {
    let entries = siblings(rt.alloc())?;
    for follows in [true, false] {
        let steps = |number: u32| along(number, follows);
        tries_walk(&rt, rt.alloc(), &entries, follows, steps)?;
        let reads = reads_up_to(follows, COUNT);
        let past = (b's', None, ((11, 0), (70_013, 0)), reads);
        let at_once = |number: u32| first_or(number, along(0, follows), past);
        tries_walk(&rt, rt.alloc(), &entries, follows, at_once)?;
    }
    Ok(())
}

// Entries, each the child of the one before, which has a reference to it.
fn false_siblings(alloc: Global) -> Result<Vec<u8>, AllocError> {
    let mut bytes = Vec::new(alloc);
    for number in 0..COUNT {
        bytes.push(0x03)?;
        bytes.extend_from_slice(&(16 + 5 * number).to_le_bytes())?;
    }
    Ok(bytes)
}

// Steps that follow each of the false references.
fn astray(number: u32) -> Step {
    let letter = if number == 0 { b'e' } else { b's' };
    let offset = 11 + 5 * u64::from(number);
    if number < COUNT {
        let place = ((offset, 0), (offset + 5, 1));
        return (letter, Some(1), place, number as usize + 1);
    }
    (letter, None, ((50_006, 0), (50_011, 0)), 10_000)
}

#[test]
fn walks_a_long_list_of_false_references(rt: HostRuntime) -> Result<(), Fail> {
    let entries = false_siblings(rt.alloc())?;
    tries_walk(&rt, rt.alloc(), &entries, true, astray)?;
    // the first has no sibling by plain walking
    let past = (b's', None, ((11, 0), (50_011, 10_000)), 10_000);
    let at_once = |number: u32| first_or(number, astray(0), past);
    tries_walk(&rt, rt.alloc(), &entries, false, at_once)
}
