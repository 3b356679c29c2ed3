//! Numbers of two, four, eight and sixteen bytes, by byte order.

ghost use Rattle.std.specs.Prelude.{◌≡◌};
ghost use Rattle.gimli_base.specs.Reading.{number};

/// The number in two bytes. Where `big` is true, the first byte is the highest, else the lowest.
#[inline]
#[tactic(auto, using(crate::proofs::WordBytes::le_2, crate::proofs::WordBytes::be_2))]
pub(crate) fn word_16(big: bool, bytes: [u8; 2]) -> u16
    ensures { result ≡ number big bytes }
{
    if big {
        u16::from_be_bytes(bytes)
    } else {
        u16::from_le_bytes(bytes)
    }
}

/// The number in four bytes. Where `big` is true, the first byte is the highest, else the lowest.
#[inline]
#[tactic(auto, using(crate::proofs::WordBytes::le_4, crate::proofs::WordBytes::be_4))]
pub(crate) fn word_32(big: bool, bytes: [u8; 4]) -> u32
    ensures { result ≡ number big bytes }
{
    if big {
        u32::from_be_bytes(bytes)
    } else {
        u32::from_le_bytes(bytes)
    }
}

/// The number in eight bytes. Where `big` is true, the first byte is the highest, else the lowest.
#[inline]
#[tactic(auto, using(crate::proofs::WordBytes::le_8, crate::proofs::WordBytes::be_8))]
pub(crate) fn word_64(big: bool, bytes: [u8; 8]) -> u64
    ensures { result ≡ number big bytes }
{
    if big {
        u64::from_be_bytes(bytes)
    } else {
        u64::from_le_bytes(bytes)
    }
}

/// The number in sixteen bytes. Where `big` is true, the first byte is the highest, else the
/// lowest.
#[inline]
#[tactic(auto, using(crate::proofs::WordBytes::le_16, crate::proofs::WordBytes::be_16))]
pub(crate) fn word_128(big: bool, bytes: [u8; 16]) -> u128
    ensures { result ≡ number big bytes }
{
    if big {
        u128::from_be_bytes(bytes)
    } else {
        u128::from_le_bytes(bytes)
    }
}
