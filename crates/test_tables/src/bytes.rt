//! Bytes as a table writes them.

use std::alloc::{AllocError, Global};

/// The bytes that a table has given names.
#[derive(Drop)]
pub(crate) struct Names {
    alloc: Global,
    named: Vec<(String, Vec<u8>)>,
}

impl Names {
    /// No names.
    pub(crate) fn new(alloc: Global) -> Names {
        Names {
            alloc,
            named: Vec::new(alloc),
        }
    }

    /// Takes a line `NAME := BYTES`, if it is one.
    pub(crate) fn take_line(&mut self, line: &str) -> Option<()> {
        let (name, text) = line.split_once(" := ")?;
        let bytes = self.parse(text)?;
        let name = String::from_str(self.alloc, name.trim()).ok()?;
        self.named.push((name, bytes)).ok()
    }

    // The bytes of a name.
    fn find(&self, name: &str) -> Option<&[u8]> {
        for (own, bytes) in &self.named {
            if own.as_str() == name {
                return Some(bytes);
            }
        }
        None
    }

    /// The bytes of a text: words of pairs of hexadecimal digits, `PAIRS*COUNT` for bytes that come several
    /// times, and `$NAME` for those of a name.
    pub(crate) fn parse(&self, text: &str) -> Option<Vec<u8>> {
        let mut bytes = Vec::new(self.alloc);
        for word in text.split_ascii_whitespace() {
            if let Some(name) = word.strip_prefix("$") {
                bytes.extend_from_slice(self.find(name)?).ok()?;
            } else if let Some((pairs, count)) = word.split_once("*") {
                let part = self.parse_pairs(pairs)?;
                for _ in 0..count.parse::<u32>().ok()? {
                    bytes.extend_from_slice(&part).ok()?;
                }
            } else {
                bytes.extend_from_slice(&self.parse_pairs(word)?).ok()?;
            }
        }
        Some(bytes)
    }

    // The bytes of pairs of digits.
    fn parse_pairs(&self, word: &str) -> Option<Vec<u8>> {
        let mut bytes = Vec::new(self.alloc);
        for pair in word.as_bytes().chunks(2) {
            let &[high, low] = pair else {
                return None;
            };
            let byte = parse_digit(high)? << 4 | parse_digit(low)?;
            bytes.push(byte).ok()?;
        }
        Some(bytes)
    }
}

// The number of a digit.
fn parse_digit(digit: u8) -> Option<u8> {
    match digit {
        b'0'..=b'9' => Some(digit - b'0'),
        b'a'..=b'f' => Some(digit - b'a' + 10),
        _ => None,
    }
}
