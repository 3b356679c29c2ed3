//! Tests of `gimli_units`.

mod attribute;
mod entry;
mod header;
mod hostile;
mod reader_calls;
mod samples;
mod section;
