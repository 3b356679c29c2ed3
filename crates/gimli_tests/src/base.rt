//! Tests of `gimli_base`.

mod declarations;
mod endianity;
mod newtypes;
mod offset;
mod readers;
