//! A case of a table.

use crate::bytes::Names;
use gimli_base::{Encoding, Format, RunTimeEndian};
use std::alloc::{AllocError, Global};
use std::io;

/// Whose calls the rows of a table name.
#[derive(Clone, Copy, Debug, PartialEq, Eq)]
pub enum Calls {
    /// Those of one read, value, entry or list.
    Reads,
    /// Those of bases, and of addresses, texts and lists by values.
    Dwarf,
    /// Those of walks, runs, and the words of the program.
    Walks,
    /// Those whose requests for memory are refused, or whose writer is too short.
    Memory,
}

impl Calls {
    /// What a line `calls of WORD` says.
    pub(crate) fn parse(line: &str) -> Option<Calls> {
        match line.strip_prefix("calls of ")? {
            "reads" => Some(Calls::Reads),
            "walks" => Some(Calls::Walks),
            "dwarf" => Some(Calls::Dwarf),
            "memory" => Some(Calls::Memory),
            _ => None,
        }
    }
}

/// A case: a call with its arguments and its bytes, and what either reader answers.
#[derive(Drop)]
pub struct Case {
    /// Whose call it is.
    pub calls: Calls,
    /// The byte orders in which it is tried.
    pub orders: &'static [RunTimeEndian],
    /// The call, and after it its arguments.
    pub words: Vec<String>,
    /// The sections, each the bytes after a `:`.
    pub sections: Vec<Vec<u8>>,
    /// The numbers of the words `@PLACE`, which are none of `words`.
    pub places: Vec<u64>,
    /// What the call answers over a reader whose offsets have 64 bits.
    pub wide: String,
    /// What it answers over a reader whose offsets have 32 bits.
    pub narrow: String,
}

impl Case {
    /// The word at an index, of which the first is the call.
    pub fn word(&self, index: usize) -> Option<&str> {
        Some(self.words.get(index)?.as_str())
    }

    /// The decimal number, or the hexadecimal after `0x`, at an index.
    pub fn number(&self, index: usize) -> Option<u64> {
        parse_number(self.word(index)?)
    }

    /// The place of the first byte of a section: that of its index, or else the last one, or 0 where there is
    /// none.
    pub fn place(&self, index: usize) -> u64 {
        *self.places.get(index).or(self.places.last()).unwrap_or(&0)
    }

    /// The encoding that three words give: bytes of an offset (4 or 8), version, and bytes of an address.
    pub fn encoding(&self, index: usize) -> Option<Encoding> {
        let format = match self.word(index)? {
            "4" => Format::Dwarf32,
            "8" => Format::Dwarf64,
            _ => return None,
        };
        let version = self.word(index.checked_add(1)?)?.parse::<u16>().ok()?;
        let address_size = self.word(index.checked_add(2)?)?.parse::<u8>().ok()?;
        Some(Encoding {
            format,
            version,
            address_size,
        })
    }

    // A case without words and bytes, whose answers are not known.
    fn new(alloc: Global, calls: Calls) -> Case {
        Case {
            calls,
            orders: &[RunTimeEndian::Little],
            words: Vec::new(alloc),
            sections: Vec::new(alloc),
            places: Vec::new(alloc),
            wide: String::new(alloc),
            narrow: String::new(alloc),
        }
    }

    // The case of the words from an index on, with other bytes, whose answers are not known.
    pub(crate) fn with_bytes(&self, alloc: Global, index: usize, bytes: &[u8]) -> io::Result<Case> {
        let mut case = Case::new(alloc, self.calls);
        case.orders = self.orders;
        for word in self.words.iter().skip(index) {
            case.words.push(String::from_str(alloc, word)?)?;
        }
        case.sections.push(Vec::from_slice(alloc, bytes)?)?;
        case.places.extend_from_slice(&self.places)?;
        Ok(case)
    }

    // Takes a word before the bytes: an order of bytes, a place, or a word of the call.
    fn take_word(&mut self, alloc: Global, word: &str) -> Option<()> {
        match word {
            "big" if self.words.is_empty() => self.orders = &[RunTimeEndian::Big],
            "each" if self.words.is_empty() => {
                self.orders = &[RunTimeEndian::Little, RunTimeEndian::Big];
            }
            _ => match word.strip_prefix("@") {
                Some(place) => self.places.push(place.parse::<u64>().ok()?).ok()?,
                None => self.words.push(String::from_str(alloc, word).ok()?).ok()?,
            },
        }
        Some(())
    }

    /// The bytes of the section at an index.
    pub fn section(&self, index: usize) -> Option<&[u8]> {
        Some(self.sections.get(index)?.as_slice())
    }
}

/// The decimal number of a word, or the hexadecimal after `0x`.
pub fn parse_number(word: &str) -> Option<u64> {
    match word.strip_prefix("0x") {
        Some(digits) => u64::from_str_radix(digits, 16).ok(),
        None => word.parse::<u64>().ok(),
    }
}

/// The case of a line `ORDER CALL WORDS @PLACE : BYTES : BYTES = ANSWER | ANSWER`: the order is `big` or
/// `each`, and left out where the lowest byte comes first; the second answer is that of 32 bits, and left out
/// where it is the first.
pub(crate) fn parse_case(alloc: Global, names: &Names, calls: Calls, line: &str) -> Option<Case> {
    let (call, answer) = line.split_once(" =")?;
    let (wide, narrow) = answer.split_once(" | ").unwrap_or((answer, answer));
    let mut case = Case::new(alloc, calls);
    case.wide = String::from_str(alloc, wide.trim()).ok()?;
    case.narrow = String::from_str(alloc, narrow.trim()).ok()?;
    let mut parts = call.split(" :");
    for word in parts.next()?.split_ascii_whitespace() {
        case.take_word(alloc, word)?;
    }
    for part in parts {
        case.sections.push(names.parse(part)?).ok()?;
    }
    Some(case)
}
