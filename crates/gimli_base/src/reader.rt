//! Readers: what can be read next, and where. A refused call of `Reader` leaves the reader as it
//! was.

ghost use Rattle.std.specs.Prelude.{◌≡◌, ℕ, ◌+◌, ◌-◌, ◌<◌, ◌≤◌, ◌^◌, ◌↔◌, length, Bool, IsTrue};
ghost use Rattle.std.specs.Prelude.{OnErr, All};
ghost use Rattle.std.specs.Option.{option_map};
ghost use Rattle.gimli_base.specs.Offset.{answer_of};
ghost use Rattle.gimli_base.specs.View.{View, end_of_view};
ghost use Rattle.gimli_base.specs.Reading.{
  read_of,
  byte_at,
  bytes_at,
  uint_at,
  uleb_at,
  uleb16_at,
  sleb_at,
  skip_leb_at,
  skip_at,
  split_at,
  answer_leaving,
  offset_at,
  sized_offset_at,
  text_at,
  find_at,
  initial_length_at,
  address_at,
  address_size_at,
  map_first,
  truncate_at,
  lookup_at,
};

use crate::leb128::{long_sleb128, long_uleb128, signed_bits};
use crate::words::{word_16, word_32, word_64, word_128};
use crate::{Endianity, Error, Format, ReaderOffset, ReaderOffsetId, Result};
use std::fmt::Debug;

/// A reader of bytes in a byte order.
///
/// Each call is a function of the reader's view: a byte order, the place of the first byte, and the
/// bytes that are left. A refused call leaves the view as it was.
pub trait Reader: Debug + Drop {
    /// The byte order of numbers.
    type Endian: Endianity;
    /// The type of lengths and offsets.
    type Offset: ReaderOffset;

    // what the reader holds
    ghost view: { Self → View };

    /// The byte order in which numbers are read.
    fn endian(&self) -> Self::Endian
        ensures { Self.Endian.big result ≡ (view self.now).big };

    /// The number of bytes that are left.
    fn len(&self) -> Self::Offset
        ensures { Self.Offset.number result ≡ length (view self.now).bytes };

    /// The place of the next byte, or of the end where there is none.
    fn offset_id(&self) -> ReaderOffsetId
        ensures { result ≡ record { 0 = (view self.now).place } };

    /// Another reader of the same bytes, at the same place and in the same byte order.
    fn copy(&self) -> Self
        ensures { view result ≡ view self.now };

    /// Passes `n` bytes. Refusal: `UnexpectedEof`, with the reader's place, where fewer are left.
    fn skip(&mut self, n: Self::Offset) -> Result<()>
        ensures value { read_of result (view self.new)
            ≡ skip_at (Self.Offset.number n) (view self.old) }
        ensures kept { OnErr result (view self.new ≡ view self.old) };

    /// A reader of the next `n` bytes, which this reader passes. Refusal: `UnexpectedEof`, with the
    /// reader's place, where fewer are left.
    fn split(&mut self, n: Self::Offset) -> Result<Self>
        ensures value { read_of (answer_of view result) (view self.new)
            ≡ split_at (Self.Offset.number n) (view self.old) }
        ensures kept { OnErr result (view self.new ≡ view self.old) };

    /// The next byte. Refusal: `UnexpectedEof` where none is left.
    fn read_u8(&mut self) -> Result<u8>
        ensures value { read_of result (view self.new) ≡ byte_at (view self.old) }
        ensures kept { OnErr result (view self.new ≡ view self.old) };

    /// Fills `into` with the next bytes, which are passed. Refusal: `UnexpectedEof`, with the
    /// reader's place, where fewer are left than `into` has room for; `into` may then hold any
    /// bytes.
    fn read_slice(&mut self, into: &mut [u8]) -> Result<()>
        ensures value { read_of (answer_leaving into.new result) (view self.new)
            ≡ bytes_at (length into.old) (view self.old) }
        ensures kept { OnErr result (view self.new ≡ view self.old) };

    /// The number of bytes before the first `byte` of those that are left; none is passed. Refusal:
    /// `UnexpectedEof`, with the reader's place, where there is no such byte.
    fn find(&self, byte: u8) -> Result<Self::Offset>
        ensures { answer_of Self.Offset.number result ≡ find_at byte (view self.now) };

    ghost length_fits: { (r : Self) → length (view r).bytes < 2 ^ 63 };

    ghost length_fits_offset: { (r : Self) → length (view r).bytes < Self.Offset.limit };

    ghost end_fits: { (r : Self) → (view r).place + length (view r).bytes < 2 ^ 64 };

    ghost bytes_fit: { (r : Self) → All (λ b. b < 256) (view r).bytes };

    /// Whether no byte is left.
    #[inline]
    final fn is_empty(&self) -> bool
        ensures { IsTrue result ↔ (length (view self.now).bytes ≡ 0) }
    {
        self.len().into_u64() == 0
    }

    /// Passes all bytes that are left: the reader then stands at its end.
    #[tactic(auto, unfolding(crate::specs::Reading::skip_at))]
    final fn empty(&mut self)
        ensures { view self.new ≡ end_of_view (view self.old) }
    {
        let all = self.len();
        let _ = self.skip(all);
    }

    /// Keeps the next `n` bytes, and drops those after them; the reader's place stays. Refusal:
    /// `UnexpectedEof`, with that place, where fewer are left.
    #[tactic(auto, unfolding(crate::specs::Reading::truncate_at, crate::specs::Reading::split_at))]
    final fn truncate(&mut self, n: Self::Offset) -> Result<()>
        ensures value { read_of result (view self.new)
            ≡ truncate_at (Self.Offset.number n) (view self.old) }
        ensures kept { OnErr result (view self.new ≡ view self.old) }
    {
        let mut rest = self.copy();
        let front = rest.split(n)?;
        *self = front;
        Ok(())
    }

    /// The number of bytes from the reader's place to the place `id`. The reader's end is such a
    /// place too. None where `id` lies before the reader's place or after its end.
    #[tactic(auto, unfolding(crate::specs::Reading::lookup_at))]
    final fn lookup_offset_id(&self, id: ReaderOffsetId) -> Option<Self::Offset>
        ensures { option_map Self.Offset.number result ≡ lookup_at id.0 (view self.now) }
    {
        let start = self.offset_id().0;
        if id.0 < start {
            return None;
        }
        let before = id.0 - start;
        if before > self.len().into_u64() {
            return None;
        }
        Self::Offset::from_u64(before).ok()
    }

    /// The next two bytes as a number, in the reader's byte order. Refusal: `UnexpectedEof`, with
    /// the reader's place, where fewer are left.
    #[inline]
    #[tactic(auto, unfolding(crate::specs::Reading::uint_at))]
    final fn read_u16(&mut self) -> Result<u16>
        ensures value { read_of result (view self.new) ≡ uint_at 2 (view self.old) }
        ensures kept { OnErr result (view self.new ≡ view self.old) }
    {
        let big = self.endian().is_big_endian();
        let mut bytes = [0; 2];
        self.read_slice(&mut bytes)?;
        Ok(word_16(big, bytes))
    }

    /// The next four bytes as a number, in the reader's byte order. Refusal: `UnexpectedEof`, with
    /// the reader's place, where fewer are left.
    #[inline]
    #[tactic(auto, unfolding(crate::specs::Reading::uint_at))]
    final fn read_u32(&mut self) -> Result<u32>
        ensures value { read_of result (view self.new) ≡ uint_at 4 (view self.old) }
        ensures kept { OnErr result (view self.new ≡ view self.old) }
    {
        let big = self.endian().is_big_endian();
        let mut bytes = [0; 4];
        self.read_slice(&mut bytes)?;
        Ok(word_32(big, bytes))
    }

    /// The next eight bytes as a number, in the reader's byte order. Refusal: `UnexpectedEof`, with
    /// the reader's place, where fewer are left.
    #[inline]
    #[tactic(auto, unfolding(crate::specs::Reading::uint_at))]
    final fn read_u64(&mut self) -> Result<u64>
        ensures value { read_of result (view self.new) ≡ uint_at 8 (view self.old) }
        ensures kept { OnErr result (view self.new ≡ view self.old) }
    {
        let big = self.endian().is_big_endian();
        let mut bytes = [0; 8];
        self.read_slice(&mut bytes)?;
        Ok(word_64(big, bytes))
    }

    /// The next sixteen bytes as a number, in the reader's byte order. Refusal: `UnexpectedEof`,
    /// with the reader's place, where fewer are left.
    #[inline]
    #[tactic(auto, unfolding(crate::specs::Reading::uint_at))]
    final fn read_u128(&mut self) -> Result<u128>
        ensures value { read_of result (view self.new) ≡ uint_at 16 (view self.old) }
        ensures kept { OnErr result (view self.new ≡ view self.old) }
    {
        let big = self.endian().is_big_endian();
        let mut bytes = [0; 16];
        self.read_slice(&mut bytes)?;
        Ok(word_128(big, bytes))
    }

    /// The next `n` bytes as a number, in the reader's byte order; `n` has to be from 1 to 8.
    /// Refusal: `UnexpectedEof`, with the reader's place, where fewer are left.
    #[inline]
    #[tactic(auto, unfolding(crate::specs::Reading::uint_at))]
    final fn read_uint(&mut self, n: usize) -> Result<u64>
        requires some { 1 ≤ n }
        requires fits { n ≤ 8 }
        ensures value { read_of result (view self.new) ≡ uint_at n (view self.old) }
        ensures kept { OnErr result (view self.new ≡ view self.old) }
    {
        let big = self.endian().is_big_endian();
        let mut bytes = [0; 8];
        if big {
            self.read_slice(&mut bytes[8 - n..])?;
        } else {
            self.read_slice(&mut bytes[..n])?;
        }
        let value = word_64(big, bytes);
        Ok(value)
    }

    /// The next unsigned LEB128 number of 64 bits, of at most ten bytes (DWARF 5, 7.6). Refusals:
    /// `UnexpectedEof`, with the place of the input's end; `BadUnsignedLeb128` where a tenth byte
    /// is neither 00 nor 01.
    #[inline]
    #[tactic(auto, unfolding(crate::specs::Reading::uleb_at, crate::specs::Reading::uleb_within))]
    final fn read_uleb128(&mut self) -> Result<u64>
        ensures value { read_of result (view self.new) ≡ uleb_at (view self.old) }
        ensures kept { OnErr result (view self.new ≡ view self.old) }
    {
        let mut rest = self.copy();
        let low = rest.read_u8()?;
        if low < 128 {
            *self = rest;
            return Ok(u64::from(low));
        }
        let high = rest.read_u8()?;
        if high < 128 {
            *self = rest;
            return Ok(u64::from(low - 128) + 128 * u64::from(high));
        }
        let mut whole = self.copy();
        let value = long_uleb128(&mut whole)?;
        *self = whole;
        Ok(value)
    }

    /// The next unsigned LEB128 number of 16 bits, of at most three bytes, as tags, names and forms
    /// are written. Refusals: `UnexpectedEof`, with the place of the input's end;
    /// `BadUnsignedLeb128` where a third byte is above 03.
    #[inline]
    #[tactic(auto, unfolding(crate::specs::Reading::uleb16_at, crate::specs::Reading::uleb_within))]
    final fn read_uleb128_u16(&mut self) -> Result<u16>
        ensures value { read_of result (view self.new) ≡ uleb16_at (view self.old) }
        ensures kept { OnErr result (view self.new ≡ view self.old) }
    {
        let mut rest = self.copy();
        let low = rest.read_u8()?;
        if low < 128 {
            *self = rest;
            return Ok(u16::from(low));
        }
        let middle = rest.read_u8()?;
        if middle < 128 {
            *self = rest;
            return Ok(u16::from(low - 128) + 128 * u16::from(middle));
        }
        let high = rest.read_u8()?;
        if high > 3 {
            return Err(Error::BadUnsignedLeb128);
        }
        *self = rest;
        Ok(u16::from(low - 128) + 128 * (u16::from(middle - 128) + 128 * u16::from(high)))
    }

    /// The next signed LEB128 number of 64 bits, of at most ten bytes (DWARF 5, 7.6). Refusals:
    /// `UnexpectedEof`, with the place of the input's end; `BadSignedLeb128` where a tenth byte is
    /// neither 00 nor 7f.
    #[inline]
    #[tactic(auto, unfolding(crate::specs::Reading::sleb_at, crate::specs::Reading::sleb_within))]
    final fn read_sleb128(&mut self) -> Result<i64>
        ensures value { read_of result (view self.new) ≡ sleb_at (view self.old) }
        ensures kept { OnErr result (view self.new ≡ view self.old) }
    {
        let mut rest = self.copy();
        let low = rest.read_u8()?;
        if low < 128 {
            *self = rest;
            return Ok(signed_bits(low));
        }
        let high = rest.read_u8()?;
        if high < 128 {
            *self = rest;
            return Ok(i64::from(low - 128) + 128 * signed_bits(high));
        }
        let mut whole = self.copy();
        let value = long_sleb128(&mut whole)?;
        *self = whole;
        Ok(value)
    }

    /// Passes a LEB128 number, signed or not and of any length: bytes whose top bit is set, and one
    /// more (DWARF 5, 7.6). Refusal: `UnexpectedEof`, with the place of the input's end.
    #[inline]
    final fn skip_leb128(&mut self) -> Result<()>
        ensures value { read_of result (view self.new) ≡ skip_leb_at (view self.old) }
        ensures kept { OnErr result (view self.new ≡ view self.old) }
    {
        let mut rest = self.copy();
        while rest.read_u8()? >= 128 {}
        *self = rest;
        Ok(())
    }

    /// The length field of a unit or a table (DWARF 5, 7.2.2 and 7.4): the length, and the format.
    /// The field has 4 bytes, or 12 where the first 4 are 0xffffffff. The length is not compared
    /// with the bytes that are left.
    ///
    /// Refusals, in this order: `UnexpectedEof` of the first 4 bytes; `UnknownReservedLength` where
    /// they are from 0xfffffff0 to 0xfffffffe; `UnexpectedEof` of the other 8; `UnsupportedOffset`
    /// where the length does not fit the reader's offsets.
    final fn read_initial_length(&mut self) -> Result<(Self::Offset, Format)>
        ensures value { read_of (answer_of (map_first Self.Offset.number) result) (view self.new)
            ≡ initial_length_at Self.Offset.limit (view self.old) }
        ensures kept { OnErr result (view self.new ≡ view self.old) }
    {
        let mut rest = self.copy();
        let length = initial_length(&mut rest)?;
        *self = rest;
        Ok(length)
    }

    /// The next byte, as the number of bytes of an address. Refusals: `UnexpectedEof`;
    /// `UnsupportedAddressSize`, with the byte, where it is not 1, 2, 4 or 8.
    #[tactic(auto, unfolding(crate::specs::Reading::address_size_at))]
    final fn read_address_size(&mut self) -> Result<u8>
        ensures value { read_of result (view self.new) ≡ address_size_at (view self.old) }
        ensures kept { OnErr result (view self.new ≡ view self.old) }
    {
        let mut rest = self.copy();
        let size = rest.read_u8()?;
        match size {
            1 | 2 | 4 | 8 => {
                *self = rest;
                Ok(size)
            }
            _ => Err(Error::UnsupportedAddressSize(size)),
        }
    }

    /// The next `address_size` bytes as an address, in the reader's byte order. Refusals, in this
    /// order: `UnsupportedAddressSize` where the size is not 1, 2, 4 or 8; `UnexpectedEof`, with
    /// the reader's place.
    #[inline]
    #[tactic(auto, using(crate::proofs::OneByte::one_byte), unfolding(crate::specs::Reading::address_at))]
    final fn read_address(&mut self, address_size: u8) -> Result<u64>
        ensures value { read_of result (view self.new) ≡ address_at address_size (view self.old) }
        ensures kept { OnErr result (view self.new ≡ view self.old) }
    {
        // (a result that comes of several widths is taken out in pieces)
        let address = match address_size {
            1 => u64::from(self.read_u8()?),
            2 => u64::from(self.read_u16()?),
            4 => u64::from(self.read_u32()?),
            8 => self.read_u64()?,
            _ => return Err(Error::UnsupportedAddressSize(address_size)),
        };
        Ok(address)
    }

    /// The next 4 or 8 bytes, by the format, as an offset. Refusals, in this order:
    /// `UnexpectedEof`, with the reader's place; `UnsupportedOffset` where the number does not fit
    /// the reader's offsets.
    #[inline]
    #[tactic(auto, unfolding(crate::specs::Reading::offset_at))]
    final fn read_offset(&mut self, format: Format) -> Result<Self::Offset>
        ensures value { read_of (answer_of Self.Offset.number result) (view self.new)
            ≡ offset_at Self.Offset.limit format (view self.old) }
        ensures kept { OnErr result (view self.new ≡ view self.old) }
    {
        let mut rest = self.copy();
        let value = match format {
            Format::Dwarf32 => u64::from(rest.read_u32()?),
            Format::Dwarf64 => rest.read_u64()?,
        };
        let offset = Self::Offset::from_u64(value)?;
        *self = rest;
        Ok(offset)
    }

    /// The next `size` bytes as an offset. Refusals, in this order: `UnsupportedOffsetSize` where
    /// the size is not 1, 2, 4 or 8; `UnexpectedEof`, with the reader's place; `UnsupportedOffset`
    /// where the number does not fit the reader's offsets.
    #[inline]
    #[tactic(auto, using(crate::proofs::OneByte::one_byte), unfolding(crate::specs::Reading::sized_offset_at))]
    final fn read_sized_offset(&mut self, size: u8) -> Result<Self::Offset>
        ensures value { read_of (answer_of Self.Offset.number result) (view self.new)
            ≡ sized_offset_at Self.Offset.limit size (view self.old) }
        ensures kept { OnErr result (view self.new ≡ view self.old) }
    {
        let mut rest = self.copy();
        let value = match size {
            1 => u64::from(rest.read_u8()?),
            2 => u64::from(rest.read_u16()?),
            4 => u64::from(rest.read_u32()?),
            8 => rest.read_u64()?,
            _ => return Err(Error::UnsupportedOffsetSize(size)),
        };
        let offset = Self::Offset::from_u64(value)?;
        *self = rest;
        Ok(offset)
    }

    /// A reader of the bytes before the first zero; they and the zero are passed. Refusal:
    /// `UnexpectedEof` where there is no zero, with the place where the text begins.
    #[tactic(auto, unfolding(crate::specs::Reading::text_at))]
    final fn read_null_terminated_slice(&mut self) -> Result<Self>
        ensures value { read_of (answer_of view result) (view self.new) ≡ text_at (view self.old) }
        ensures kept { OnErr result (view self.new ≡ view self.old) }
    {
        let length = self.find(0)?;
        let mut rest = self.copy();
        let text = rest.split(length)?;
        let _ = rest.read_u8()?;
        *self = rest;
        Ok(text)
    }
}

// The length of a unit or a table, and its format. It is as `Reader::read_initial_length`, with the
// same refusals in the same order; but after one the reader is left anywhere.
#[tactic(auto, unfolding(crate::specs::Reading::initial_length_at))]
fn initial_length<R: Reader>(reader: &mut R) -> Result<(R::Offset, Format)>
    ensures { read_of (answer_of (map_first R.Offset.number) result) (R.view reader.new)
        ≡ initial_length_at R.Offset.limit (R.view reader.old) }
{
    let length = reader.read_u32()?;
    if length < 0xffff_fff0 {
        Ok((R::Offset::from_u64(u64::from(length))?, Format::Dwarf32))
    } else if length == 0xffff_ffff {
        Ok((reader.read_offset(Format::Dwarf64)?, Format::Dwarf64))
    } else {
        Err(Error::UnknownReservedLength)
    }
}
