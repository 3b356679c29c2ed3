//! Which offsets came already.

use std::alloc::Global;

// Offsets from here on count as seen.
const BOUND: u64 = 0x400_0000;

/// A set of offsets, one bit for each.
#[derive(Drop)]
pub(crate) struct Seen {
    bits: Vec<u64>,
}

impl Seen {
    /// No offset.
    pub(crate) fn new(alloc: Global) -> Self {
        Seen {
            bits: Vec::new(alloc),
        }
    }

    /// Forgets all offsets.
    pub(crate) fn clear(&mut self) {
        self.bits.fill(0);
    }

    /// Adds an offset; whether it is new. It is not where memory is refused.
    pub(crate) fn is_new(&mut self, offset: u64) -> bool {
        if offset >= BOUND {
            return false;
        }
        let word = (offset / 64) as usize;
        let bit = 1u64 << (offset % 64);
        for _ in self.bits.len()..=word {
            if self.bits.push(0).is_err() {
                return false;
            }
        }
        match self.bits.get_mut(word) {
            Some(bits) => {
                let is_new = *bits & bit == 0;
                *bits = *bits | bit;
                is_new
            }
            None => false,
        }
    }
}
