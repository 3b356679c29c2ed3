//! Digests of results.

use gimli_base::{Error, Reader, ReaderOffset};

// An odd number without an order, so that two values in a row do not make up for one another.
const FACTOR: u64 = 0x9e37_79b9_7f4a_7c15;

/// A checksum with one more value folded into it.
#[inline]
pub(crate) fn mixed(sum: u64, value: u64) -> u64 {
    sum.wrapping_mul(FACTOR).wrapping_add(value)
}

/// A checksum with the number of a refusal folded into it.
pub(crate) fn refused(sum: u64, error: Error) -> u64 {
    mixed(sum, 0x100 + u64::from(error.number()))
}

/// A checksum with the length of bytes, and the first and the last of them.
pub(crate) fn with_ends<R: Reader>(sum: u64, bytes: &R) -> u64 {
    let mut all = mixed(sum, bytes.len().into_u64());
    let mut rest = bytes.copy();
    if let Ok(first) = rest.read_u8() {
        all = mixed(all, u64::from(first));
    }
    if let Some(before) = rest.len().checked_sub(R::Offset::from_u8(1)) {
        if rest.skip(before).is_ok() {
            if let Ok(last) = rest.read_u8() {
                all = mixed(all, u64::from(last));
            }
        }
    }
    all
}

/// A checksum of bytes, by words of eight.
pub(crate) fn folded(bytes: &[u8]) -> u64 {
    let mut sum = bytes.len() as u64;
    let words = bytes.chunks_exact(8);
    for byte in words.remainder() {
        sum = mixed(sum, u64::from(*byte));
    }
    for word in words {
        if let [a, b, c, d, e, f, g, h] = word {
            sum = mixed(sum, u64::from_le_bytes([*a, *b, *c, *d, *e, *f, *g, *h]));
        }
    }
    sum
}
