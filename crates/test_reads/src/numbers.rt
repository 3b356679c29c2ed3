//! Offsets of a reader, formats, and bases that stand where a unit names none.

use crate::shown::format_of;
use gimli_base::{
    DebugLocListsBase, DebugRngListsBase, DwarfFileType, Encoding, Reader, ReaderOffset,
};
use test_tables::{Call, Outcome, Text};

/// Writes the number of the offset of a number, made as one of so many bits.
pub(crate) fn write_offset<R: Reader>(call: &Call<'_, R>, out: &mut Text) -> Outcome {
    let number = call.number(2)?;
    let offset = match call.case.word(1) {
        Some("8") => R::Offset::from_u8(number.min(0xff) as u8),
        Some("16") => R::Offset::from_u16(number.min(0xffff) as u16),
        Some("32") => R::Offset::from_u32(number.min(0xffff_ffff) as u32),
        _ => R::Offset::from_u64(number)?,
    };
    write!(out, "0x{:x}", offset.into_u64());
    Ok(())
}

/// Writes the sum or the difference of two offsets, or how the first compares to the second.
pub(crate) fn write_two_offsets<R: Reader>(call: &Call<'_, R>, out: &mut Text) -> Outcome {
    let (first, second) = (call.offset_or_zero(1)?, call.offset_or_zero(2)?);
    match call.name() {
        "compare" => write!(out, "{:?}", first.cmp(&second)),
        "add" => write_found(first.checked_add(second), out),
        _ => write_found(first.checked_sub(second), out),
    }
    Ok(())
}

// Writes an offset, if there is one.
fn write_found<Offset: ReaderOffset>(offset: Option<Offset>, out: &mut Text) {
    match offset {
        Some(offset) => write!(out, "0x{:x}", offset.into_u64()),
        None => write!(out, "none"),
    }
}

/// Writes the number of bytes of a format's length field, and that of its offsets.
pub(crate) fn write_format<R: Reader>(call: &Call<'_, R>, out: &mut Text) -> Outcome {
    let format = format_of(call.number(1)?);
    let (length, word) = (format.initial_length_size(), format.word_size());
    write!(out, "{length} {word}");
    Ok(())
}

/// Writes the bases of range lists and of location lists in each version from 0 to 65535, and leaves out
/// those that are the bases of the version before.
pub(crate) fn write_bases<R: Reader>(call: &Call<'_, R>, out: &mut Text) -> Outcome {
    let file_type = match call.case.word(2) {
        Some("dwo") => DwarfFileType::Dwo,
        _ => DwarfFileType::Main,
    };
    let format = format_of(call.number(1)?);
    let mut last = None;
    for version in 0..=0xffff_u16 {
        let encoding = Encoding {
            format,
            version,
            address_size: 4,
        };
        let bases = bases_of::<R>(encoding, file_type);
        if last != Some(bases) {
            writeln!(out, "{version}: {} {}", bases.0, bases.1);
        }
        last = Some(bases);
    }
    Ok(())
}

// The bases of range lists and of location lists.
fn bases_of<R: Reader>(encoding: Encoding, file_type: DwarfFileType) -> (u64, u64) {
    let ranges = DebugRngListsBase::<R::Offset>::default_for_encoding_and_file(encoding, file_type);
    let locations = DebugLocListsBase::<R::Offset>::default_for_encoding_and_file(
        encoding, file_type,
    );
    (ranges.0.into_u64(), locations.0.into_u64())
}
