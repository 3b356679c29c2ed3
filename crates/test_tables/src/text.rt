//! Answers as they are written.

use std::alloc::{AllocError, Global};
use std::fmt::Display;
use std::io::Write;

/// The text of an answer. The calls that write a part of it answer nothing: where memory is refused
/// for one, the text is not whole any more, and `finish` tells so. No clause says what it holds, so
/// a part costs its writer little to prove.
#[derive(Drop)]
pub struct Text {
    bytes: Vec<u8>,
    is_whole: bool,
}

impl Text {
    /// An empty text.
    pub fn new(alloc: Global) -> Text {
        Text {
            bytes: Vec::new(alloc),
            is_whole: true,
        }
    }

    /// Where the text is kept.
    pub fn alloc(&self) -> Global {
        *self.bytes.allocator()
    }

    /// Puts a part after the text, as `write!` and `writeln!` do.
    pub fn write_fmt<D: Display + Drop>(&mut self, part: D) {
        if self.bytes.write_fmt(part).is_err() {
            self.is_whole = false;
        }
    }

    /// Puts bytes after the text.
    pub fn push_bytes(&mut self, bytes: &[u8]) {
        if self.bytes.extend_from_slice(bytes).is_err() {
            self.is_whole = false;
        }
    }

    /// Puts another text after the text.
    pub fn push_text(&mut self, other: &Text) {
        self.push_bytes(&other.bytes);
        self.is_whole = self.is_whole && other.is_whole;
    }

    /// The bytes that were kept.
    pub fn as_bytes(&self) -> &[u8] {
        &self.bytes
    }

    /// Whether both texts are whole, and the same.
    pub fn is_same(&self, other: &Text) -> bool {
        self.is_whole && other.is_whole && self.bytes == other.bytes
    }

    /// The bytes, if all were kept.
    pub fn finish(self) -> Result<Vec<u8>, AllocError> {
        let Text { bytes, is_whole } = self;
        if is_whole { Ok(bytes) } else { Err(AllocError) }
    }
}
