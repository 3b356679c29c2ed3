//! What a unit's values count from, resolved: the bases that its root gives, addresses and texts by
//! value, where lists begin, and the unit that holds an offset.
#![tactic(auto)]

mod address;
mod bases;
mod error;
mod holding;
mod lists;
mod sections;
mod strings;
mod values;

pub use bases::{UnitBases, table_header_size};
pub use error::{DwarfError, DwarfResult};
pub use holding::unit_holding;
pub use sections::DwarfSections;
pub use strings::{DebugLineStr, DebugStrOffsets};
