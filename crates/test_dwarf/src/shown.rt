//! Refusals and offsets, as answers show them.

use gimli_base::{Reader, ReaderOffset};
use gimli_dwarf::{DwarfError, DwarfResult};
use test_tables::{Text, write_refusal};

/// Writes why a value can't be resolved.
pub(crate) fn write_dwarf_error(out: &mut Text, error: DwarfError) {
    match error {
        DwarfError::Read(error) => write_refusal(out, error),
        DwarfError::MissingBase(name) => write!(out, "missing {:x}", name.0),
        DwarfError::InvalidBase(name) => write!(out, "invalid {:x}", name.0),
        DwarfError::ExpectedStringAttributeValue => write!(out, "no text"),
    }
}

/// Writes an offset that there may be.
pub(crate) fn write_offset<O: ReaderOffset>(name: &str, offset: Option<O>, out: &mut Text) {
    match offset {
        Some(offset) => write!(out, " {name} {}", offset.into_u64()),
        None => write!(out, " {name} -"),
    }
}

/// Writes an address that there may be, or why not.
pub(crate) fn write_address(address: DwarfResult<Option<u64>>, out: &mut Text) {
    match address {
        Ok(Some(address)) => write!(out, "0x{address:x}"),
        Ok(None) => write!(out, "none"),
        Err(error) => write_dwarf_error(out, error),
    }
}

/// Writes the place and the bytes of a text, or why there is none.
pub(crate) fn write_text<R: Reader>(text: DwarfResult<R>, out: &mut Text) {
    match text {
        Ok(text) => test_tables::hex_of(out, &text, ":"),
        Err(error) => write_dwarf_error(out, error),
    }
}
