//! Addresses of a size (DWARF 5, 7.27), and the addresses that stand for none.

ghost use Rattle.std.specs.Prelude.{◌≡◌, ℕ, IsTrue};
ghost use Rattle.gimli_base.specs.Address.{ones_sized, min_tombstone, sum_sized, wrapped_sum};
ghost use Rattle.gimli_base.specs.Offset.{answer_of};
ghost use Rattle.gimli_base.specs.Reading.{is_size};

use crate::{Error, Result};

/// An address, of a size that is given beside it: 1, 2, 4 or 8 bytes.
pub trait ReaderAddress: Copy {
    // the number that an address stands for
    ghost number: { Self → ℕ };

    /// The address of `size` bytes whose bits are all ones. The size has to be 1, 2, 4 or 8.
    fn ones_sized(size: u8) -> Self
        requires { IsTrue (is_size size) }
        ensures { number result ≡ ones_sized size };

    /// The least address of `size` bytes that stands for no address: all ones, less one. Linkers
    /// write it, and all ones, where the code of a range was dropped. The size has to be 1, 2, 4 or
    /// 8.
    fn min_tombstone(size: u8) -> Self
        requires { IsTrue (is_size size) }
        ensures { number result ≡ min_tombstone size };

    /// The sum of the address and `length`. Refusal: `AddressOverflow`, where it needs more than
    /// `size` bytes. The size has to be 1, 2, 4 or 8.
    fn add_sized(self, length: u64, size: u8) -> Result<Self>
        requires { IsTrue (is_size size) }
        ensures { answer_of number result ≡ sum_sized size (number self) length };

    /// The lowest `size` bytes of the sum of the address and `length`; what does not fit them is
    /// dropped. The size has to be 1, 2, 4 or 8.
    fn wrapping_add_sized(self, length: u64, size: u8) -> Self
        requires { IsTrue (is_size size) }
        ensures { number result ≡ wrapped_sum size (number self) length };
}

impl ReaderAddress for u64 {
    ghost number = { λ n. n };

    #[inline]
    fn ones_sized(size: u8) -> u64 {
        match size {
            1 => 0xff,
            2 => 0xffff,
            4 => 0xffff_ffff,
            _ => u64::MAX,
        }
    }

    #[inline]
    fn min_tombstone(size: u8) -> u64 {
        u64::ones_sized(size) - 1
    }

    #[inline]
    fn add_sized(self, length: u64, size: u8) -> Result<u64> {
        match self.checked_add(length) {
            Some(sum) if sum <= u64::ones_sized(size) => Ok(sum),
            _ => Err(Error::AddressOverflow),
        }
    }

    #[inline]
    fn wrapping_add_sized(self, length: u64, size: u8) -> u64 {
        self.wrapping_add(length) & u64::ones_sized(size)
    }
}
