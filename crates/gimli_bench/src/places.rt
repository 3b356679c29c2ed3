//! The places of bytes that are written anew before each pass, and what may be written there.

use crate::input::Random;
use std::alloc::{AllocError, Global};

/// A byte that may have any of some values that follow one another.
#[derive(Clone, Copy, Debug)]
pub(crate) struct Place {
    at: u32,
    // the least value, and how many there are beside it
    low: u8,
    others: u8,
}

impl Place {
    // Another value than a byte has.
    #[inline]
    fn varied(self, byte: u8, random: &mut Random) -> u8 {
        let others = u64::from(self.others);
        let step = random.next().wrapping_mul(others) / 0x1_0000_0000 + 1;
        let old = u64::from(byte.wrapping_sub(self.low));
        let begin = if old > others { 0 } else { old };
        let sum = begin.wrapping_add(step);
        let index = if sum > others { sum - others - 1 } else { sum };
        self.low.wrapping_add((index & 0xff) as u8)
    }
}

/// Writes other bytes at these places.
pub(crate) fn vary_bytes(bytes: &mut [u8], places: &[Place], random: &mut Random) {
    for place in places {
        let at = place.at as usize;
        if at < bytes.len() {
            bytes[at] = place.varied(bytes[at], random);
        }
    }
}

type Done = Result<(), AllocError>;

/// Adds the place of a byte that may be `low` or one of so many values that follow it.
pub(crate) fn push(places: &mut Vec<Place>, at: usize, low: u8, others: u8) -> Done {
    if at <= u32::MAX as usize {
        places.push(Place {
            at: at as u32,
            low,
            others,
        })?;
    }
    Ok(())
}

/// Adds the place of a byte that may be any.
pub(crate) fn push_any(places: &mut Vec<Place>, at: usize) -> Done {
    push(places, at, 0, 255)
}

/// Adds the place of the first byte of an unsigned LEB128 number, which keeps its length; where it
/// has one byte, that is not below `least`.
pub(crate) fn push_number(places: &mut Vec<Place>, at: usize, first: u8, least: u8) -> Done {
    if first >= 0x80 {
        push(places, at, 0x80, 127)
    } else {
        push(places, at, least, 127u8.saturating_sub(least))
    }
}

/// Adds the place of the first byte of a signed LEB128 number, which keeps its length and its sign.
pub(crate) fn push_signed(places: &mut Vec<Place>, at: usize, first: u8) -> Done {
    if first >= 0x80 {
        push(places, at, 0x80, 127)
    } else {
        push(places, at, first & 0x40, 63)
    }
}

/// Adds the place of the tag of a declaration, which keeps the number of its digits, unless the
/// tag is asked for and these are to stay. It becomes none of those that a job asks for.
pub(crate) fn push_tag(places: &mut Vec<Place>, at: usize, tag: u64, keeps_asked: bool) -> Done {
    match tag {
        // class_type, structure_type, subprogram, namespace
        0x02 | 0x13 | 0x2e | 0x39 if keeps_asked => Ok(()),
        0..=0x0f => push(places, at, 0x03, 12),
        0x10..=0x7f => push(places, at, 0x14, 25),
        _ => push(places, at, 0x80, 127),
    }
}

// Whether a name of one byte is neither asked for by a job nor makes its value another.
fn is_idle(name: u64) -> bool {
    match name {
        // name, comp_dir, const_value, containing_type, default_value, producer, prototyped
        0x03 | 0x1b | 0x1c | 0x1d | 0x1e | 0x25 | 0x27 => true,
        // abstract_origin, artificial, declaration, external, specification, type, entry_pc
        0x31 | 0x34 | 0x3c | 0x3f | 0x47 | 0x49 | 0x52 => true,
        // explicit, object_pointer, reference, rvalue_reference, call_all_calls, .._tail_calls
        0x63 | 0x64 | 0x77 | 0x78 | 0x7a | 0x7c => true,
        // elemental to string_length_byte_size
        0x66..=0x70 => true,
        _ => false,
    }
}

/// Adds the place of the name of an attribute, if nothing hangs on it. It becomes another of which
/// that is so as well, of as many bytes.
pub(crate) fn push_name(places: &mut Vec<Place>, at: usize, name: u64) -> Done {
    match name {
        // noreturn to defaulted
        0x87..=0x8b => push(places, at, 0x87, 4),
        // GNU_call_site_value to GNU_all_call_sites
        0x2111..=0x2117 => push(places, at, 0x91, 6),
        // names that no compiler here writes
        0x2200..=0x27ff => push(places, at, 0x80, 127),
        _ => {
            if is_idle(name) {
                push(places, at, 0x66, 10)
            } else {
                Ok(())
            }
        }
    }
}

// The byte at a place, or 0 where there is none.
pub(crate) fn byte_at(bytes: &[u8], at: usize) -> u8 {
    if at < bytes.len() { bytes[at] } else { 0 }
}

/// Adds a place in an expression: the byte after the first operation, which keeps its highest bit,
/// or the number of the register or literal that is the whole. Whether there is one.
pub(crate) fn push_expression(
    places: &mut Vec<Place>,
    bytes: &[u8],
    at: usize,
    length: usize,
) -> Result<bool, AllocError> {
    let first = byte_at(bytes, at);
    if length > 1 {
        let second = at.wrapping_add(1);
        push(places, second, byte_at(bytes, second) & 0x80, 127)?;
    } else if length == 1 && first >= 0x30 && first < 0x70 {
        push(places, at, if first < 0x50 { 0x30 } else { 0x50 }, 31)?;
    } else {
        return Ok(false);
    }
    Ok(true)
}

/// Copies of a section, one after the other, and the places of bytes in each copy.
#[derive(Drop)]
pub(crate) struct Copies {
    pub(crate) bytes: Vec<u8>,
    size: usize,
    places: Vec<Place>,
}

// Adds to the word of 4 bytes at a place.
fn add_to_word(bytes: &mut [u8], place: usize, added: usize) {
    if place >= bytes.len() || bytes.len() - place < 4 {
        return;
    }
    let old = [
        bytes[place],
        bytes[place + 1],
        bytes[place + 2],
        bytes[place + 3],
    ];
    let word = (u64::from(u32::from_le_bytes(old)).wrapping_add(added as u64) & 0xffff_ffff) as u32;
    let [first, second, third, fourth] = word.to_le_bytes();
    bytes[place] = first;
    bytes[place + 1] = second;
    bytes[place + 2] = third;
    bytes[place + 3] = fourth;
}

/// The place of a word of 4 bytes that is an offset into a section, and the size of that section.
#[derive(Clone, Copy, Debug)]
pub(crate) struct Word {
    pub(crate) at: usize,
    pub(crate) size: usize,
}

impl Copies {
    /// Copies of bytes; words lead to the copy of their section with the same number.
    pub(crate) fn made(
        alloc: Global,
        bytes: &[u8],
        copies: u64,
        words: &[Word],
        places: Vec<Place>,
    ) -> Result<Copies, AllocError> {
        let mut all = Vec::new(alloc);
        let mut start = 0usize;
        for copy in 0..copies {
            all.extend_from_slice(bytes)?;
            for word in words {
                let added = word.size.wrapping_mul(copy as usize);
                add_to_word(&mut all, start.wrapping_add(word.at), added);
            }
            start = start.wrapping_add(bytes.len());
        }
        Ok(Copies {
            bytes: all,
            size: bytes.len(),
            places,
        })
    }

    /// Writes other bytes at the places of each copy.
    pub(crate) fn vary(&mut self, random: &mut Random) {
        if self.size == 0 {
            return;
        }
        for copy in self.bytes.chunks_exact_mut(self.size) {
            vary_bytes(copy, &self.places, random);
        }
    }
}
