//! Units and their entries: headers, attributes, entries read one after the other, and cursors and
//! trees over them. Begin with `UnitHeader`, which gives the readers of a unit's entries:
//! `EntriesRaw`, `EntriesCursor` and `EntriesTree`.
#![tactic(auto)]

mod attribute;
mod conversions;
mod convert;
mod cursor;
mod entry;
mod form;
mod header;
mod lent;
mod offset;
mod pass;
mod raw;
mod skip;
mod tree;
mod tree_walker;
mod unit_type;
mod value;

pub use attribute::Attribute;
pub use attribute::sink::AttributeSink;
pub use cursor::EntriesCursor;
pub use entry::DebuggingInformationEntry;
pub use header::UnitHeader;
pub use offset::{DebugInfoOffset, DebugTypesOffset, UnitOffset, UnitSectionOffset};
pub use raw::EntriesRaw;
pub use tree::{EntriesTree, EntriesTreeIter, EntriesTreeNode};
pub use tree_walker::EntriesTreeWalker;
pub use unit_type::UnitType;
pub use value::AttributeValue;
