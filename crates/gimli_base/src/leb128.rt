//! LEB128 numbers (DWARF 5, 7.6), for `Reader`, which reads those of one and two bytes itself.

ghost use Rattle.std.specs.Prelude.{◌≡◌, ◌<◌, ◌≤◌, pos, ◌-ℤ◌};
ghost use Rattle.gimli_base.specs.Reading.{read_of, uleb_at, sleb_at};

use crate::{Error, Reader, Result};

/// The next unsigned LEB128 number of 64 bits, of one to ten bytes. Refusals: `UnexpectedEof`, with
/// the place of the input's end; `BadUnsignedLeb128`, where a tenth byte is neither 00 nor 01. The
/// reader is then left anywhere.
///
/// It is never inlined and gets a reader of its own, so that the caller's stays in registers.
#[inline(never)]
pub(crate) fn long_uleb128<R: Reader>(reader: &mut R) -> Result<u64>
    ensures { read_of result (R.view reader.new) ≡ uleb_at (R.view reader.old) }
{
    let mut value: u64 = 0;
    let mut scale: u64 = 1;
    for i in 0..9u64 {
        let byte = u64::from(reader.read_u8()?);
        if byte < 128 {
            return Ok(value + byte * scale);
        }
        value += (byte - 128) * scale;
        scale *= 128;
    }
    let byte = u64::from(reader.read_u8()?);
    if byte > 1 {
        return Err(Error::BadUnsignedLeb128);
    }
    Ok(value + byte * scale)
}

/// The number, from -64 to 63, in the 7 bits of the last byte of a signed LEB128 number: the bit of
/// value 64 (0x40) is the sign. The last byte is below 128.
#[inline]
pub(crate) fn signed_bits(byte: u8) -> i64
    ensures low { byte < 64 → result ≡ pos byte }
    ensures high { 64 ≤ byte → result ≡ pos byte -ℤ pos 128 }
{
    if byte < 64 {
        i64::from(byte)
    } else {
        i64::from(byte) - 128
    }
}

/// The next signed LEB128 number of 64 bits, of one to ten bytes. Refusals: `UnexpectedEof`, with
/// the place of the input's end; `BadSignedLeb128`, where a tenth byte is neither 00 nor 7f. The
/// reader is then left anywhere.
#[inline(never)]
pub(crate) fn long_sleb128<R: Reader>(reader: &mut R) -> Result<i64>
    ensures { read_of result (R.view reader.new) ≡ sleb_at (R.view reader.old) }
{
    let mut value: u64 = 0;
    let mut scale: u64 = 1;
    for i in 0..9u64 {
        let byte = reader.read_u8()?;
        if byte < 128 {
            return Ok(value as i64 + scale as i64 * signed_bits(byte));
        }
        value += u64::from(byte - 128) * scale;
        scale *= 128;
    }
    match reader.read_u8()? {
        0 => Ok(value as i64),
        127 => Ok(value as i64 + i64::MIN),
        _ => Err(Error::BadSignedLeb128),
    }
}
