//! Callers of the libraries, as a user writes them, proved by public contracts alone.
#![tactic(auto)]

mod count;
mod modes;
mod nested;
mod second;
mod walked;

pub use count::count_children;
pub use modes::run_both;
pub use nested::count_entered_children;
pub use second::{second_of_depth, sibling_at};
pub use walked::{count_entries, count_root_children};
