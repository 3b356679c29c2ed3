//! Why an answer ends.

use crate::refusal::write_refusal;
use crate::text::Text;
use gimli_base::Error;
use std::alloc::{AllocError, AllocFailed};

/// Why an answer ends before all of it is written, which is the last of the answer.
#[derive(Debug, Drop)]
pub enum Stop {
    /// A refusal.
    Refused(Error),
    /// What the call needs and the case does not give.
    Lacks(&'static str),
}

/// What a part of a call gives, or why its answer ends.
pub type Outcome<T = ()> = Result<T, Stop>;

impl From<Error> for Stop {
    fn from(error: Error) -> Stop {
        Stop::Refused(error)
    }
}

impl From<AllocError> for Stop {
    fn from(_: AllocError) -> Stop {
        Stop::Refused(Error::OutOfMemory)
    }
}

impl<T: Drop> From<AllocFailed<T>> for Stop {
    fn from(_: AllocFailed<T>) -> Stop {
        Stop::Refused(Error::OutOfMemory)
    }
}

impl Stop {
    /// Writes the last of an answer.
    pub fn write(self, out: &mut Text) {
        match self {
            Stop::Refused(error) => {
                write_refusal(out, error);
                writeln!(out);
            }
            Stop::Lacks(what) => writeln!(out, "{what}"),
        }
    }
}
