//! Tests of `gimli_walk`, and of the calls below it where a write fails and where the input is large.

mod deep;
mod faults;
mod gathered;
mod large;
mod walks;
mod writers;
