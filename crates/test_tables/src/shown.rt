//! The bytes of readers, as answers show them.

use crate::refusal::write_refusal;
use crate::text::Text;
use gimli_base::{Reader, ReaderOffset};

/// Writes the bytes of a reader in hexadecimal digits, each with what stands after it.
pub fn write_hex<R: Reader>(out: &mut Text, reader: &R, separator: &str) {
    let mut rest = reader.copy();
    for _ in 0..reader.len().into_u64() {
        match rest.read_u8() {
            Ok(byte) => write!(out, "{byte:02x}{separator}"),
            Err(error) => write_refusal(out, error),
        }
    }
}

/// Writes the place of a reader's first byte, a mark, and all bytes in hexadecimal digits, or `-` where
/// there are none.
pub fn hex_of<R: Reader>(out: &mut Text, reader: &R, mark: &str) {
    let place = reader.offset_id().0;
    write!(out, "{place}{mark}");
    if reader.is_empty() {
        write!(out, "-");
    }
    write_hex(out, reader, "");
}
