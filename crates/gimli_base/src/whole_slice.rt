//! A reader over a slice, of which it keeps the whole.

ghost use Rattle.std.specs.Prelude.{◌≡◌, ℕ, ◌+◌, ◌-◌, ◌<◌, ◌≤◌, ◌^◌, length, slice_range, Bool, ⊤};
ghost use Rattle.std.specs.Prelude.{◌++◌, nat_eq, [], All};
ghost use Rattle.std.specs.Cmp.{and_per, on_per, nat_eq_equiv, partial_equiv_from_equiv};
ghost use Rattle.std.specs.Cmp.Lexicographic.{pointwise, lists_per};
ghost use Rattle.std.specs.Cmp.Rules.{comparing, hashing};
ghost use Rattle.std.specs.Hash as fed;
ghost use Rattle.std.specs.Ordering.{on, eq_of_both};
ghost use Rattle.std.proofs.Common.{arith, rules};
ghost use Rattle.gimli_base.specs.View.{cut, front};
ghost use Rattle.gimli_base.specs.Range.{length_range, all_range};

use crate::endian_slice::position_of;
use crate::{Endianity, Error, Reader, ReaderOffsetId, Result};
use std::alloc::AllocError;
use std::fmt::{self, Debug};
use std::hash::{Hash, Hasher};
use std::marker::PhantomData;

/// A reader that keeps the whole slice, and where in it the bytes that are left begin and end, with
/// offsets of `u32`.
///
/// Two of them are equal where their bytes and byte orders are, wherever they stand.
pub struct WholeSlice<'a, E, K = <E as Endianity>::Kept> {
    whole: &'a [u8],
    // the byte order, as `E` has it kept
    kept: K,
    // of the first byte of the whole
    place: u64,
    begin: usize,
    end: usize,
    order: PhantomData<E>,
    ghost short: { length whole.now < 2 ^ 32 },
    ghost ordered: { begin ≤ end },
    ghost within: { end ≤ length whole.now },
    ghost end_fits: { place + length whole.now < 2 ^ 64 },
    ghost bytes_fit: { All (λ b. b < 256) whole.now },
}

impl<'a, E, K: Copy> Clone for WholeSlice<'a, E, K> {
    ghost is_clone = { λ r copy. (copy.whole.now ≡ r.whole.now) × (copy.kept ≡ r.kept)
        × (copy.place ≡ r.place) × (copy.begin ≡ r.begin) × (copy.end ≡ r.end) };

    ghost is_infallible = { λ _. ⊤ };

    fn clone(&self) -> std::result::Result<Self, AllocError> {
        Ok(WholeSlice {
            whole: self.whole,
            kept: self.kept,
            place: self.place,
            begin: self.begin,
            end: self.end,
            order: PhantomData,
        })
    }
}

impl<'a, E, K: Copy> Copy for WholeSlice<'a, E, K> {}

impl<'a, E: Endianity + Default> Default for WholeSlice<'a, E> {
    ghost is_default = { λ r. (r.whole.now ≡ []) × E.is_default (E.order r.kept) × (r.place ≡ 0) };

    // A reader without bytes, at place 0, in the default byte order.
    fn default() -> Self {
        WholeSlice {
            whole: &[],
            kept: E::default().to_kept(),
            place: 0,
            begin: 0,
            end: 0,
            order: PhantomData,
        }
    }
}

impl<'a, E: Endianity> Debug for WholeSlice<'a, E> {
    // Shows the bytes that are left, the byte order, and the place.
    fn fmt<W: fmt::Write>(&self, f: &mut fmt::Formatter<W>) -> fmt::Result {
        f.debug_struct("WholeSlice")
            .field("bytes", &self.slice())
            .field("endian", &E::from_kept(self.kept))
            .field("place", &self.offset_id().0)
            .finish()
    }
}

impl<'a, E: Endianity> PartialEq for WholeSlice<'a, E> {
    ghost eq = { eq_of_both (on (λ r. slice_range r.whole.now r.begin r.end) (pointwise nat_eq))
        (on (λ r. E.order r.kept) E.PartialEq.eq) };

    ghost laws = { and_per
        (on_per (λ r. slice_range r.whole.now r.begin r.end)
        (lists_per (partial_equiv_from_equiv nat_eq_equiv)))
        (on_per (λ r. E.order r.kept) E.PartialEq.laws) };

    // Two readers are equal where the bytes that are left and the byte orders are, wherever they
    // stand.
    fn eq(&self, other: &Self) -> bool {
        self.slice() == other.slice() && E::from_kept(self.kept) == E::from_kept(other.kept)
    }
}

impl<'a, E: Endianity> Eq for WholeSlice<'a, E> {
    ghost laws = { Prim.search (comparing, rules) };
}

impl<'a, E: Endianity + Hash> Hash for WholeSlice<'a, E> {
    ghost hash_input = { λ r. fed.slice fed.u8 (slice_range r.whole.now r.begin r.end)
        ++ E.Hash.hash_input (E.Endianity.order r.kept) };

    ghost respects_eq = { Prim.search (hashing, rules) };

    // Feeds what `eq` compares: the bytes that are left and the byte order, not the place.
    fn hash<H: Hasher>(&self, state: &mut H) {
        self.slice().hash(state);
        E::from_kept(self.kept).hash(state);
    }
}

impl<'a, E: Endianity> WholeSlice<'a, E> {
    /// A reader of `bytes` in the byte order `endian`, whose first place is 0. There may be at most
    /// `u32::MAX` bytes.
    #[inline]
    pub fn new(bytes: &'a [u8], endian: E) -> Self
        requires { length bytes.now < 2 ^ 32 }
        ensures { ⟦<WholeSlice<'a, E> as Reader>⟧.view result
            ≡ record { big = E.big endian; place = 0; bytes = bytes.now } }
    {
        Self::new_at(bytes, endian, 0)
    }

    /// A reader of `bytes` in the byte order `endian`, whose first place is `place`. There may be
    /// at most `u32::MAX` bytes, and the place of their end has to be below 2^64.
    #[inline]
    pub fn new_at(bytes: &'a [u8], endian: E, place: u64) -> Self
        requires short { length bytes.now < 2 ^ 32 }
        requires end { place + length bytes.now < 2 ^ 64 }
        ensures { ⟦<WholeSlice<'a, E> as Reader>⟧.view result
            ≡ record { big = E.big endian; place = place; bytes = bytes.now } }
    {
        WholeSlice {
            whole: bytes,
            kept: endian.to_kept(),
            place,
            begin: 0,
            end: bytes.len(),
            order: PhantomData,
        }
    }

    /// The bytes that are left.
    #[inline]
    pub fn slice(&self) -> &'a [u8]
        ensures { result.now ≡ (⟦<WholeSlice<'a, E> as Reader>⟧.view self.now).bytes }
    {
        &self.whole[self.begin..self.end]
    }

    // A reader of the first `n` of the bytes that are left, at the same place. `n` is at most their
    // number.
    #[inline]
    #[tactic(auto, using(crate::proofs::Ranges::take_range))]
    fn before(&self, n: u32) -> Self
        requires { n ≤ self.now.end - self.now.begin }
        ensures { ⟦<WholeSlice<'a, E> as Reader>⟧.view result
            ≡ front n (⟦<WholeSlice<'a, E> as Reader>⟧.view self.now) }
    {
        WholeSlice {
            whole: self.whole,
            kept: self.kept,
            place: self.place,
            begin: self.begin,
            end: self.begin + n as usize,
            order: PhantomData,
        }
    }

    // A reader of the bytes after the first `n` of those that are left. `n` is at most their
    // number.
    #[inline]
    #[tactic(auto, using(crate::proofs::Ranges::drop_range))]
    fn after(&self, n: u32) -> Self
        requires { n ≤ self.now.end - self.now.begin }
        ensures { ⟦<WholeSlice<'a, E> as Reader>⟧.view result
            ≡ cut n (⟦<WholeSlice<'a, E> as Reader>⟧.view self.now) }
    {
        WholeSlice {
            whole: self.whole,
            kept: self.kept,
            place: self.place,
            begin: self.begin + n as usize,
            end: self.end,
            order: PhantomData,
        }
    }
}

impl<'a, E: Endianity> Reader for WholeSlice<'a, E> {
    type Endian = E;

    type Offset = u32;

    ghost view = { λ r.
        record {
          big = E.big (E.order r.kept);
          place = r.place + r.begin;
          bytes = slice_range r.whole.now r.begin r.end;
        } };

    #[inline]
    fn endian(&self) -> E {
        E::from_kept(self.kept)
    }

    #[inline]
    fn len(&self) -> u32 {
        (self.end - self.begin) as u32
    }

    #[inline]
    fn offset_id(&self) -> ReaderOffsetId {
        ReaderOffsetId(self.place + self.begin as u64)
    }

    #[inline]
    fn copy(&self) -> Self {
        WholeSlice {
            whole: self.whole,
            kept: self.kept,
            place: self.place,
            begin: self.begin,
            end: self.end,
            order: PhantomData,
        }
    }

    #[tactic(auto, unfolding(crate::specs::Reading::skip_at))]
    #[inline]
    fn skip(&mut self, n: u32) -> Result<()> {
        if n as usize <= self.end - self.begin {
            *self = self.after(n);
            Ok(())
        } else {
            Err(Error::UnexpectedEof(self.offset_id()))
        }
    }

    #[tactic(auto, unfolding(crate::specs::Reading::split_at))]
    #[inline]
    fn split(&mut self, n: u32) -> Result<Self> {
        if n as usize <= self.end - self.begin {
            let front = self.before(n);
            *self = self.after(n);
            Ok(front)
        } else {
            Err(Error::UnexpectedEof(self.offset_id()))
        }
    }

    #[tactic(auto, unfolding(crate::specs::Reading::byte_at))]
    #[inline]
    fn read_u8(&mut self) -> Result<u8> {
        if self.begin == self.end {
            return Err(Error::UnexpectedEof(self.offset_id()));
        }
        let byte = self.whole[self.begin];
        *self = self.after(1);
        Ok(byte)
    }

    #[tactic(auto, unfolding(crate::specs::Reading::bytes_at))]
    #[inline]
    fn read_slice(&mut self, into: &mut [u8]) -> Result<()> {
        let n = into.len();
        let slice = self.slice();
        if n <= slice.len() {
            into.copy_from_slice(&slice[..n]);
            *self = self.after(n as u32);
            Ok(())
        } else {
            Err(Error::UnexpectedEof(self.offset_id()))
        }
    }

    #[inline]
    #[tactic(auto, unfolding(crate::specs::Reading::find_at))]
    fn find(&self, byte: u8) -> Result<u32> {
        match position_of(byte, self.slice()) {
            Some(n) => Ok(n as u32),
            None => Err(Error::UnexpectedEof(self.offset_id())),
        }
    }

    ghost length_fits = { λ r.
        Prim.omega (arith, length_range r.whole.now r.begin r.end r.within, r.short, r.within) };

    ghost length_fits_offset = { λ r.
        Prim.omega (arith, length_range r.whole.now r.begin r.end r.within, r.short, r.within) };

    ghost end_fits = { λ r.
        Prim.omega
        (arith, length_range r.whole.now r.begin r.end r.within, r.end_fits, r.within, r.ordered) };

    ghost bytes_fit = { λ r. all_range r.whole.now r.begin r.end r.bytes_fit };
}
