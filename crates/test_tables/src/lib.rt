//! Tables of cases: lines of data files, each a call with its bytes, `=`, and the answer.
#![tactic(auto)]

mod answers;
mod bytes;
mod call;
mod case;
mod program;
mod refusal;
mod shown;
mod stop;
mod sweeps;
mod table;
mod text;

pub use crate::answers::is_answer;
pub use crate::call::Call;
pub use crate::case::{Calls, Case, parse_number};
pub use crate::program::Program;
pub use crate::refusal::write_refusal;
pub use crate::shown::{hex_of, write_hex};
pub use crate::stop::{Outcome, Stop};
pub use crate::table::try_tables;
pub use crate::text::Text;
