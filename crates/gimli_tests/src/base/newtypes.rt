//! Numbers of a kind of their own: all derive the same.

use crate::samples::hash_of;
use gimli_base::{
    DW_AT_APPLE_sdk, DW_AT_sibling, DebugAbbrevOffset, DebugAddrIndex, DebugStrOffset,
    DebugTypeSignature, DwoId, LocationListsOffset, ReaderOffsetId,
};
use std::fmt::Debug;
use std::hash::Hash;
use std::process::Abort;

// Tries two numbers of a kind, the first of them below the second.
fn tries_order<T: Copy + Debug + Ord + Hash>(rt: &impl Abort, low: T, high: T) {
    let copied = low;
    assert!(rt; low == copied && low <= copied, "{low:?}");
    assert_eq!(rt; hash_of(&low), hash_of(&copied), "{low:?}");
    assert!(rt; low != high && low < high && high > low, "{low:?}");
    assert_ne!(rt; hash_of(&low), hash_of(&high), "{low:?} and {high:?}");
}

#[test]
fn compare_by_their_number(rt: HostRuntime) {
    for (low, high) in [(0, 1), (0xff, 0x100), (1, u64::MAX)] {
        tries_order(&rt, ReaderOffsetId(low), ReaderOffsetId(high));
        tries_order(&rt, DebugTypeSignature(low), DebugTypeSignature(high));
        tries_order(&rt, DwoId(low), DwoId(high));
        tries_order(&rt, DebugAbbrevOffset(low), DebugAbbrevOffset(high));
        tries_order(&rt, DebugStrOffset(low), DebugStrOffset(high));
    }
    tries_order(&rt, DW_AT_sibling, DW_AT_APPLE_sdk);
    tries_order(&rt, DebugAddrIndex(7u32), DebugAddrIndex(u32::MAX));
    tries_order(&rt, LocationListsOffset(7usize), LocationListsOffset(8));
}
