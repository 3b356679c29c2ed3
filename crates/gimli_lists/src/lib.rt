//! Ranges of addresses, and lists of ranges and locations.
#![tactic(auto)]

mod aranges;
mod lists;
mod loclists;
mod next_item;
mod rnglists;
mod take_entry;

pub use aranges::{
    ArangeEntry, ArangeEntryIter, ArangeHeader, ArangeHeaderIter, DebugAranges, HasArangeSet,
};
pub use lists::{HasLists, ListsHeader};
pub use loclists::{
    DebugLoc, DebugLocLists, LocListIter, LocationListEntry, LocationLists, RawLocListEntry,
    RawLocListIter,
};
pub use rnglists::{
    DebugRanges, DebugRngLists, Range, RangeLists, RawRngListEntry, RawRngListIter, RngListIter,
};
