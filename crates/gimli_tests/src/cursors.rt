//! Tests of the cursors of `gimli_units`.

mod long;
