//! The calls of walks and of refused memory, which rows of tables name.
#![tactic(auto)]

mod cursors;
mod entries;
mod lists;
mod memory;
mod runs;
mod steps;
mod texts;
mod trees;
mod units;
mod walks;

pub use crate::memory::write_refused;
pub use crate::walks::write_walk;
