//! Sections of units, and the reading of their headers.
#![tactic(auto)]

mod debug_info;
mod debug_types;
mod parse;
mod siblings;
mod units;

pub use debug_info::{DebugInfo, DebugInfoUnitHeadersIter};
pub use debug_types::{DebugTypes, DebugTypesUnitHeadersIter};
pub use siblings::first_false_sibling;
