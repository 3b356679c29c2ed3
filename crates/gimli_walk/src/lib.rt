//! Whole runs over units and lists, their answers held in memory (`run_tree` and its like), and
//! walks, dumps and searches written as text (`walk_text`, `dump_text`, `find_text`). Begin with
//! `walk_text`, or with `run_words`, which does what the words of the program say.
#![tactic(auto)]

mod answers;
mod check;
mod cursor;
mod digits;
mod dump;
mod dump_vec;
mod find;
mod letters;
mod lines;
mod locations;
mod mode;
mod ranges;
mod rows;
mod run;
mod sink;
mod text;
mod tree;
mod tree_lines;
mod words;

pub use cursor::{CursorAnswer, CursorStep, run_cursor, run_cursor_plain};
pub use dump::dump_text;
pub use dump_vec::dump_to_vec;
pub use find::{find_text, unit_of_address};
pub use lines::WriteFault;
pub use locations::run_locations;
pub use mode::Mode;
pub use ranges::run_ranges;
pub use run::{Run, run_type_units, run_units};
pub use text::walk_text;
pub use tree::{TreeAnswer, TreeStep, run_tree};
pub use words::run_words;
