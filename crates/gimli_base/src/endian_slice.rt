//! A reader over a slice, of which it keeps what is left.

ghost use Rattle.std.specs.Prelude.{◌≡◌, ℕ, ◌+◌, ◌-◌, ◌<◌, ◌≤◌, ◌^◌, length, Bool, ⊤, IfSome, ◌==◌};
ghost use Rattle.std.specs.Prelude.{◌++◌, nat_eq, [], All};
ghost use Rattle.std.specs.Cmp.{and_per, on_per, nat_eq_equiv, partial_equiv_from_equiv};
ghost use Rattle.std.specs.Cmp.Lexicographic.{pointwise, lists_per};
ghost use Rattle.std.specs.Cmp.Rules.{comparing, hashing};
ghost use Rattle.std.specs.Hash as fed;
ghost use Rattle.std.specs.Ordering.{on, eq_of_both};
ghost use Rattle.std.proofs.Common.{arith, rules};
ghost use Rattle.std.specs.List.{position};

use crate::{Endianity, Error, Reader, ReaderOffsetId, Result};
use std::alloc::AllocError;
use std::fmt::{self, Debug};
use std::hash::{Hash, Hasher};
use std::marker::PhantomData;

/// A reader that keeps the bytes that are left, with offsets of `usize`.
///
/// Two of them are equal where their bytes and byte orders are, wherever they stand.
pub struct EndianSlice<'a, E, K = <E as Endianity>::Kept> {
    bytes: &'a [u8],
    // the byte order, as `E` has it kept
    kept: K,
    // the place after the last byte, which stays where bytes are passed
    end: u64,
    order: PhantomData<E>,
    ghost length_fits: { length bytes.now < 2 ^ 63 },
    ghost within: { length bytes.now ≤ end },
    ghost end_fits: { end < 2 ^ 64 },
    ghost bytes_fit: { All (λ b. b < 256) bytes.now },
}

impl<'a, E, K: Copy> Clone for EndianSlice<'a, E, K> {
    ghost is_clone = { λ r copy. (copy.bytes.now ≡ r.bytes.now) × (copy.kept ≡ r.kept)
        × (copy.end ≡ r.end) };

    ghost is_infallible = { λ _. ⊤ };

    fn clone(&self) -> std::result::Result<Self, AllocError> {
        Ok(EndianSlice {
            bytes: self.bytes,
            kept: self.kept,
            end: self.end,
            order: PhantomData,
        })
    }
}

impl<'a, E, K: Copy> Copy for EndianSlice<'a, E, K> {}

impl<'a, E: Endianity + Default> Default for EndianSlice<'a, E> {
    ghost is_default = { λ r. (r.bytes.now ≡ []) × E.is_default (E.order r.kept) × (r.end ≡ 0) };

    // A reader without bytes, at place 0, in the default byte order.
    fn default() -> Self {
        EndianSlice {
            bytes: &[],
            kept: E::default().to_kept(),
            end: 0,
            order: PhantomData,
        }
    }
}

impl<'a, E: Endianity> Debug for EndianSlice<'a, E> {
    // Shows the bytes that are left, the byte order, and the place.
    fn fmt<W: fmt::Write>(&self, f: &mut fmt::Formatter<W>) -> fmt::Result {
        f.debug_struct("EndianSlice")
            .field("bytes", &self.bytes)
            .field("endian", &E::from_kept(self.kept))
            .field("place", &self.place())
            .finish()
    }
}

impl<'a, E: Endianity> PartialEq for EndianSlice<'a, E> {
    ghost eq = { eq_of_both (on (λ r. r.bytes.now) (pointwise nat_eq))
        (on (λ r. E.order r.kept) E.PartialEq.eq) };

    ghost laws = { and_per
        (on_per (λ r. r.bytes.now) (lists_per (partial_equiv_from_equiv nat_eq_equiv)))
        (on_per (λ r. E.order r.kept) E.PartialEq.laws) };

    // Two readers are equal where the bytes that are left and the byte orders are, wherever they
    // stand.
    fn eq(&self, other: &Self) -> bool {
        self.bytes == other.bytes && E::from_kept(self.kept) == E::from_kept(other.kept)
    }
}

impl<'a, E: Endianity> Eq for EndianSlice<'a, E> {
    ghost laws = { Prim.search (comparing, rules) };
}

impl<'a, E: Endianity + Hash> Hash for EndianSlice<'a, E> {
    ghost hash_input = { λ r. fed.slice fed.u8 r.bytes.now
        ++ E.Hash.hash_input (E.Endianity.order r.kept) };

    ghost respects_eq = { Prim.search (hashing, rules) };

    // Feeds what `eq` compares: the bytes that are left and the byte order, not the place.
    fn hash<H: Hasher>(&self, state: &mut H) {
        self.bytes.hash(state);
        E::from_kept(self.kept).hash(state);
    }
}

impl<'a, E: Endianity> EndianSlice<'a, E> {
    /// A reader of `bytes` in the byte order `endian`, whose first place is 0.
    #[inline]
    pub fn new(bytes: &'a [u8], endian: E) -> Self
        ensures { ⟦<EndianSlice<'a, E> as Reader>⟧.view result
            ≡ record { big = E.big endian; place = 0; bytes = bytes.now } }
    {
        Self::new_at(bytes, endian, 0)
    }

    /// A reader of `bytes` in the byte order `endian`, whose first place is `place`. The place of
    /// their end has to be below 2^64.
    #[inline]
    pub fn new_at(bytes: &'a [u8], endian: E, place: u64) -> Self
        requires { place + length bytes.now < 2 ^ 64 }
        ensures { ⟦<EndianSlice<'a, E> as Reader>⟧.view result
            ≡ record { big = E.big endian; place = place; bytes = bytes.now } }
    {
        let length = bytes.len() as u64;
        EndianSlice {
            bytes,
            kept: endian.to_kept(),
            end: place + length,
            order: PhantomData,
        }
    }

    // A reader of `bytes` whose first place is `place`, in the byte order that `kept` stands for.
    // The place of their end has to be below 2^64.
    #[inline]
    fn at(bytes: &'a [u8], kept: E::Kept, place: u64) -> Self
        requires { place + length bytes.now < 2 ^ 64 }
        ensures { ⟦<EndianSlice<'a, E> as Reader>⟧.view result
            ≡ record { big = E.big (E.order kept); place = place; bytes = bytes.now } }
    {
        let length = bytes.len() as u64;
        EndianSlice {
            bytes,
            kept,
            end: place + length,
            order: PhantomData,
        }
    }

    // The place of the next byte, or of the end where none is left.
    #[inline]
    fn place(&self) -> u64
        ensures { result ≡ (⟦<EndianSlice<'a, E> as Reader>⟧.view self.now).place }
    {
        self.end - self.bytes.len() as u64
    }

    /// The bytes that are left.
    #[inline]
    pub fn slice(&self) -> &'a [u8]
        ensures { result.now ≡ (⟦<EndianSlice<'a, E> as Reader>⟧.view self.now).bytes }
    {
        self.bytes
    }
}

impl<'a, E: Endianity> Reader for EndianSlice<'a, E> {
    type Endian = E;

    type Offset = usize;

    ghost view = { λ r.
        record {
          big = E.big (E.order r.kept);
          place = r.end - length r.bytes.now;
          bytes = r.bytes.now;
        } };

    #[inline]
    fn endian(&self) -> E {
        E::from_kept(self.kept)
    }

    #[inline]
    fn len(&self) -> usize {
        self.bytes.len()
    }

    #[inline]
    fn offset_id(&self) -> ReaderOffsetId {
        ReaderOffsetId(self.place())
    }

    #[inline]
    fn copy(&self) -> Self {
        EndianSlice {
            bytes: self.bytes,
            kept: self.kept,
            end: self.end,
            order: PhantomData,
        }
    }

    #[tactic(auto, unfolding(crate::specs::Reading::skip_at))]
    #[inline]
    fn skip(&mut self, n: usize) -> Result<()> {
        if n <= self.bytes.len() {
            *self = Self::at(&self.bytes[n..], self.kept, self.place() + n as u64);
            Ok(())
        } else {
            Err(Error::UnexpectedEof(self.offset_id()))
        }
    }

    #[tactic(auto, unfolding(crate::specs::Reading::split_at))]
    #[inline]
    fn split(&mut self, n: usize) -> Result<Self> {
        if n <= self.bytes.len() {
            let front = Self::at(&self.bytes[..n], self.kept, self.place());
            *self = Self::at(&self.bytes[n..], self.kept, self.place() + n as u64);
            Ok(front)
        } else {
            Err(Error::UnexpectedEof(self.offset_id()))
        }
    }

    #[tactic(auto, unfolding(crate::specs::Reading::byte_at))]
    #[inline]
    fn read_u8(&mut self) -> Result<u8> {
        if self.bytes.is_empty() {
            return Err(Error::UnexpectedEof(self.offset_id()));
        }
        let byte = self.bytes[0];
        *self = Self::at(&self.bytes[1..], self.kept, self.place() + 1);
        Ok(byte)
    }

    #[tactic(auto, unfolding(crate::specs::Reading::bytes_at))]
    #[inline]
    fn read_slice(&mut self, into: &mut [u8]) -> Result<()> {
        let n = into.len();
        if n <= self.bytes.len() {
            into.copy_from_slice(&self.bytes[..n]);
            *self = Self::at(&self.bytes[n..], self.kept, self.place() + n as u64);
            Ok(())
        } else {
            Err(Error::UnexpectedEof(self.offset_id()))
        }
    }

    #[inline]
    #[tactic(auto, unfolding(crate::specs::Reading::find_at))]
    fn find(&self, byte: u8) -> Result<usize> {
        match position_of(byte, self.bytes) {
            Some(n) => Ok(n),
            None => Err(Error::UnexpectedEof(self.offset_id())),
        }
    }

    ghost length_fits = { λ r. r.length_fits };

    ghost length_fits_offset = { λ r. Prim.omega (arith, r.length_fits) };

    ghost end_fits = { λ r. Prim.omega (arith, r.within, r.end_fits) };

    ghost bytes_fit = { λ r. r.bytes_fit };
}

/// The number of bytes before the first `byte`; none where there is no such byte.
///
/// It is a call, so that its loop takes no registers from those who read other things beside.
#[inline(never)]
pub(crate) fn position_of(byte: u8, bytes: &[u8]) -> Option<usize>
    ensures exact { result ≡ position (λ b. b == byte) bytes.now }
    ensures within { IfSome result (λ n. n < length bytes.now) }
{
    bytes.iter().position(|b| *b == byte)
}
