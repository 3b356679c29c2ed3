//! Range lists, and the header of their section.

use crate::lists::shows;
use crate::samples::{Part, encoding};
use gimli_base::{EndianSlice, LittleEndian, RangeListsOffset, Section};
use gimli_lists::{DebugRanges, DebugRngLists, ListsHeader, RangeLists};
use std::process::Abort;
use std::test::Fail;

// Tries the bytes of both sections.
fn tries_slices(rt: &impl Abort, lists: &RangeLists<Part<'_>>, old: &[u8], new: &[u8]) {
    assert!(rt; lists.debug_ranges().reader().slice() == old);
    assert!(rt; lists.debug_rnglists().reader().slice() == new);
}

#[test]
fn sections_are_borrowed_in_order(rt: HostRuntime) -> Result<(), Fail> {
    tries_borrowed!(rt, RangeLists, DebugRanges, DebugRngLists)
}

#[test]
fn sections_are_kept_and_replaced(rt: HostRuntime) -> Result<(), Fail> {
    let old = DebugRanges::new(&[1, 2], LittleEndian);
    let new = DebugRngLists::new(&[3], LittleEndian);
    let mut of_both = RangeLists::new(old, new.copy());
    tries_slices(&rt, &of_both, &[1, 2], &[3]);
    let same = of_both;
    of_both.set_debug_ranges(DebugRanges::new(&[4], LittleEndian).copy());
    tries_slices(&rt, &of_both.copy(), &[4], &[3]);
    tries_slices(&rt, &same, &[1, 2], &[3]);
    tries_slices(&rt, &RangeLists::default(), &[], &[]);
    let text = format!(in rt.alloc(); "{:?}", RangeListsOffset(7_usize))?;
    assert!(rt; text.as_str() == "RangeListsOffset(7)");
    Ok(())
}

#[test]
fn is_of_version_5_by_default(rt: HostRuntime) {
    let header = ListsHeader::default();
    assert!(rt; header.encoding == encoding(5, 0));
    assert!(rt; header.offset_entry_count == 0);
}
