//! Offsets of a reader, whose width is the reader's choice.

ghost use Rattle.std.specs.Prelude.{◌≡◌, ℕ, ◌<◌, ◌≤◌, ◌^◌};
ghost use Rattle.std.specs.Option.{option_map};
ghost use Rattle.gimli_base.specs.Offset.{offset_of, sum_of, difference_of, answer_of};
ghost use Rattle.std.proofs.Common.{arith};

use crate::{Error, Result};
use std::fmt::Debug;

/// A number of bytes, or an offset among them.
pub trait ReaderOffset: Copy + Debug + Eq + Ord {
    // the number that an offset stands for
    ghost number: { Self → ℕ };

    // offsets are the numbers below this
    ghost limit: { ℕ };

    /// The offset of a number of 8 bits.
    fn from_u8(value: u8) -> Self
        ensures { number result ≡ value };

    /// The offset of a number of 16 bits.
    fn from_u16(value: u16) -> Self
        ensures { number result ≡ value };

    /// The offset of a number of 32 bits.
    fn from_u32(value: u32) -> Self
        ensures { number result ≡ value };

    /// The offset of a number. Refusal: `UnsupportedOffset` where it does not fit.
    fn from_u64(value: u64) -> Result<Self>
        ensures { answer_of number result ≡ offset_of limit value };

    /// The number of an offset.
    fn into_u64(self) -> u64
        ensures value { result ≡ number self }
        ensures fits { number self < limit };

    /// The sum; none where it does not fit.
    fn checked_add(self, other: Self) -> Option<Self>
        ensures { option_map number result ≡ sum_of limit (number self) (number other) };

    /// The offset less `other`; none where that is below 0.
    fn checked_sub(self, other: Self) -> Option<Self>
        ensures { option_map number result ≡ difference_of (number self) (number other) };

    // an offset is its number
    ghost same_number: { (a b : Self) → number a ≡ number b → a ≡ b };

    ghost limit_fits: { limit ≤ 2 ^ 64 };
}

impl ReaderOffset for u64 {
    ghost number = { λ n. n };

    ghost limit = { 2 ^ 64 };

    #[inline]
    fn from_u8(value: u8) -> u64 {
        u64::from(value)
    }

    #[inline]
    fn from_u16(value: u16) -> u64 {
        u64::from(value)
    }

    #[inline]
    fn from_u32(value: u32) -> u64 {
        u64::from(value)
    }

    // Every number fits.
    #[inline]
    fn from_u64(value: u64) -> Result<u64> {
        Ok(value)
    }

    #[inline]
    fn into_u64(self) -> u64 {
        self
    }

    #[inline]
    fn checked_add(self, other: u64) -> Option<u64> {
        u64::checked_add(self, other)
    }

    #[inline]
    fn checked_sub(self, other: u64) -> Option<u64> {
        u64::checked_sub(self, other)
    }

    ghost same_number = { λ a b h. h };

    ghost limit_fits = { Prim.omega arith };
}

impl ReaderOffset for usize {
    ghost number = { λ n. n };

    ghost limit = { 2 ^ 64 };

    #[inline]
    fn from_u8(value: u8) -> usize {
        usize::from(value)
    }

    #[inline]
    fn from_u16(value: u16) -> usize {
        usize::from(value)
    }

    #[inline]
    fn from_u32(value: u32) -> usize {
        value as usize
    }

    // A `usize` has 64 bits, so that every number fits.
    #[inline]
    fn from_u64(value: u64) -> Result<usize> {
        Ok(value as usize)
    }

    #[inline]
    fn into_u64(self) -> u64 {
        self as u64
    }

    #[inline]
    fn checked_add(self, other: usize) -> Option<usize> {
        usize::checked_add(self, other)
    }

    #[inline]
    fn checked_sub(self, other: usize) -> Option<usize> {
        usize::checked_sub(self, other)
    }

    ghost same_number = { λ a b h. h };

    ghost limit_fits = { Prim.omega arith };
}

impl ReaderOffset for u32 {
    ghost number = { λ n. n };

    ghost limit = { 2 ^ 32 };

    #[inline]
    fn from_u8(value: u8) -> u32 {
        u32::from(value)
    }

    #[inline]
    fn from_u16(value: u16) -> u32 {
        u32::from(value)
    }

    #[inline]
    fn from_u32(value: u32) -> u32 {
        value
    }

    #[inline]
    fn from_u64(value: u64) -> Result<u32> {
        if value <= u64::from(u32::MAX) {
            Ok(value as u32)
        } else {
            Err(Error::UnsupportedOffset)
        }
    }

    #[inline]
    fn into_u64(self) -> u64 {
        u64::from(self)
    }

    #[inline]
    fn checked_add(self, other: u32) -> Option<u32> {
        u32::checked_add(self, other)
    }

    #[inline]
    fn checked_sub(self, other: u32) -> Option<u32> {
        u32::checked_sub(self, other)
    }

    ghost same_number = { λ a b h. h };

    ghost limit_fits = { Prim.omega arith };
}
