//! Location lists.

use crate::lists::shows;
use crate::samples::{Part, compares, part};
use gimli_base::{EndianSlice, Expression, LittleEndian};
use gimli_lists::{DebugLoc, DebugLocLists, LocationListEntry, LocationLists, Range};
use std::test::Fail;

// A location from 1 on.
fn location<R>(end: u64, reader: R) -> LocationListEntry<R> {
    LocationListEntry {
        range: Range { begin: 1, end },
        expr: Expression(reader),
    }
}

#[test]
fn locations_are_compared_by_their_bytes(rt: HostRuntime) -> Result<(), Fail> {
    let found = location(2, part(&[0x30, 0x9f], LittleEndian));
    let assigned = found;
    assert!(rt; found.copy() == found && found.clone()? == found);
    let elsewhere = location(2, EndianSlice::new(&[0x30, 0x9f], LittleEndian));
    let others = [
        location(3, part(&[0x30, 0x9f], LittleEndian)),
        location(2, part(&[0x30, 0x9e], LittleEndian)),
        location(2, part(&[0x30], LittleEndian)),
        location(2, part(&[], LittleEndian)),
    ];
    compares(&rt, found, [assigned, elsewhere], others);
    Ok(())
}

#[test]
fn sections_are_borrowed_in_order(rt: HostRuntime) -> Result<(), Fail> {
    tries_borrowed!(rt, LocationLists, DebugLoc, DebugLocLists)
}

// Location lists of these bytes.
fn lists<'a>(old: &'a [u8], new: &'a [u8]) -> LocationLists<Part<'a>> {
    let old = DebugLoc::new(old, LittleEndian);
    LocationLists::new(old, DebugLocLists::new(new, LittleEndian))
}

#[test]
fn sections_are_kept(rt: HostRuntime) -> Result<(), Fail> {
    let of_both = lists(&[1, 2, 0, 0], &[5, 0]);
    shows(&rt, rt.alloc(), &of_both.clone()?, &of_both)?;
    shows(&rt, rt.alloc(), &LocationLists::default(), &lists(&[], &[]))
}
