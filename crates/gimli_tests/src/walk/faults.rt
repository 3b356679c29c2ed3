use crate::samples::{TABLE_NESTED_STRINGS, THREE_NESTED};
use crate::walk::writers::{Narrow, Takes, Tried};
use gimli_walk::run_words;
use std::alloc::Global;
use std::io::Write;
use std::process::Abort;

// What a file of this name holds, if it can be read.
fn file(alloc: Global, name: &str) -> Option<Vec<u8>> {
    match name {
        "info" => Vec::from_slice(alloc, THREE_NESTED).ok(),
        "abbrev" => Vec::from_slice(alloc, &TABLE_NESTED_STRINGS).ok(),
        _ => None,
    }
}

// The status of words of the program over two writers.
fn status_of<W: Write, E: Write>(alloc: Global, words: &[&str], out: &mut W, err: &mut E) -> u8 {
    let read = |name: &str| -> Option<Vec<u8>> { file(alloc, name) };
    run_words(alloc, words, &read, out, err)
}

// Tries words whose text can't be written: they end with status 3, and say nothing.
fn tries_words<W: Write>(rt: &impl Abort, alloc: Global, words: &[&str], out: &mut W) {
    let mut err = Vec::new(alloc);
    assert_eq!(rt; status_of(alloc, words, out, &mut err), 3, "at {words:?}");
    assert!(rt; err.is_empty());
}

#[test]
fn ends_without_a_word_where_a_write_fails(rt: HostRuntime) {
    let cases: [&[&str]; 3] = [
        &["rows", "info", "abbrev"],
        &["cursor", "info", "abbrev", "e"],
        &["plain", "info", "abbrev", "e"],
    ];
    for words in cases {
        let mut space = [0u8; 8];
        let mut out: &mut [u8] = &mut space;
        tries_words(&rt, rt.alloc(), words, &mut out);
        let mut unflushed = Narrow::new(rt.alloc(), Takes::PassesNothingOn, usize::MAX);
        tries_words(&rt, rt.alloc(), words, &mut unflushed);
    }
}

#[test]
fn ignores_a_fault_of_the_second_writer(rt: HostRuntime) {
    let cases: [(&[&str], u8); 2] = [(&["rows"], 2), (&["rows", "gone", "abbrev"], 3)];
    for (words, wanted) in cases {
        let mut out = Vec::new(rt.alloc());
        let mut space = [0u8; 3];
        let mut err: &mut [u8] = &mut space;
        let status = status_of(rt.alloc(), words, &mut out, &mut err);
        assert_eq!(rt; status, wanted, "at {words:?}");
        assert!(rt; out.is_empty());
    }
}
