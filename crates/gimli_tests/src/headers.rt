//! Tests of `gimli_headers`.

mod sections;
