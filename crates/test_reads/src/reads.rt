//! What a reader answers to calls that read, one after the other.

use crate::shown::{format_of, write_left};
use gimli_base::Error::{UnsupportedAddressSize, UnsupportedOffsetSize};
use gimli_base::{Reader, ReaderOffset, ReaderOffsetId};
use test_tables::{Call, Outcome, Stop, Text};

// The name of a call, and its number, or 0 where it has none.
type Step<'a> = (&'a str, u64);

/// Writes what a reader answers to the calls of the words, each with its number in brackets, if it has one;
/// and then the bytes that are left.
pub(crate) fn write_reads<R: Reader>(call: &Call<'_, R>, out: &mut Text) -> Outcome {
    let mut reader = call.section(0)?;
    for word in call.case.words.iter().skip(1) {
        let (name, rest) = word.split_once("(").unwrap_or((word, ""));
        let number = rest.strip_suffix(")").unwrap_or("0").parse::<u64>();
        match write_step(&mut reader, (name, number.unwrap_or(0)), out) {
            Ok(()) => writeln!(out),
            Err(stop) => stop.write(out),
        }
    }
    write!(out, "rest ");
    write_left(&reader, out);
    Ok(())
}

/// Writes what a call answers for each size from 0 to 255, and the place after it, and leaves out the sizes
/// that it refuses as such, at the place where it began.
pub(crate) fn write_sizes<R: Reader>(call: &Call<'_, R>, out: &mut Text) -> Outcome {
    let reader = call.section(0)?;
    let name = call.case.word(1).unwrap_or("");
    for size in 0..=255_u8 {
        let mut rest = reader.copy();
        let answer = read_number(&mut rest, (name, u64::from(size)));
        let place = rest.offset_id().0;
        match answer {
            Err(Stop::Refused(UnsupportedAddressSize(own) | UnsupportedOffsetSize(own)))
                if own == size && place == reader.offset_id().0 => {}
            Ok(number) => writeln!(out, "{size} at {place} 0x{number:x}"),
            Err(stop) => {
                write!(out, "{size} at {place} ");
                stop.write(out);
            }
        }
    }
    Ok(())
}

// Writes what a call gives: bytes, a length, a number of 16 bytes, or what the calls below give.
fn write_step<R: Reader>(reader: &mut R, step: Step<'_>, out: &mut Text) -> Outcome {
    match step.0 {
        "skip" | "truncate" | "piece" | "empty" | "skip_leb" => {
            pass(reader, step)?;
            write!(out, "ok");
        }
        "split" => write_left(&reader.split(R::Offset::from_u64(step.1)?)?, out),
        "text" => write_left(&reader.read_null_terminated_slice()?, out),
        "length" => {
            let (length, format) = reader.read_initial_length()?;
            write!(out, "0x{:x} {format:?}", length.into_u64());
        }
        "u128" => write!(out, "0x{:x}", reader.read_u128()?),
        _ => write_decimal(reader, step, out)?,
    }
    Ok(())
}

// Passes bytes, or cuts them off: for `piece` what the reader splits off is read from then on.
fn pass<R: Reader>(reader: &mut R, (name, number): Step<'_>) -> Outcome {
    match name {
        "skip_leb" => reader.skip_leb128()?,
        "empty" => reader.empty(),
        "truncate" => reader.truncate(R::Offset::from_u64(number)?)?,
        "piece" => {
            let piece = reader.split(R::Offset::from_u64(number)?)?;
            *reader = piece;
        }
        _ => reader.skip(R::Offset::from_u64(number)?)?,
    }
    Ok(())
}

// Writes a LEB128 number, where a byte stands or a place lies, or a number of fixed size in hexadecimal.
fn write_decimal<R: Reader>(reader: &mut R, step: Step<'_>, out: &mut Text) -> Outcome {
    match step.0 {
        "uleb" => write!(out, "{}", reader.read_uleb128()?),
        "uleb16" => write!(out, "{}", reader.read_uleb128_u16()?),
        "sleb" => write!(out, "{}", reader.read_sleb128()?),
        "find" => write!(out, "{}", reader.find(step.1.min(0xff) as u8)?.into_u64()),
        "lookup" => match reader.lookup_offset_id(ReaderOffsetId(step.1)) {
            Some(before) => write!(out, "{}", before.into_u64()),
            None => write!(out, "none"),
        },
        _ => write!(out, "0x{:x}", read_number(reader, step)?),
    }
    Ok(())
}

// Reads a number of a fixed size, of so many bytes where its name does not tell; of copied bytes the first is
// the highest of eight.
fn read_number<R: Reader>(reader: &mut R, (name, number): Step<'_>) -> Outcome<u64> {
    let size = u8::try_from(number).unwrap_or(0);
    Ok(match name {
        "u8" => u64::from(reader.read_u8()?),
        "u16" => u64::from(reader.read_u16()?),
        "u32" => u64::from(reader.read_u32()?),
        "u64" => reader.read_u64()?,
        "uint" if 1 <= size && size <= 8 => reader.read_uint(usize::from(size))?,
        "slice" => {
            let mut bytes = [0; 8];
            reader.read_slice(&mut bytes[..number.min(8) as usize])?;
            u64::from_be_bytes(bytes)
        }
        "address" => reader.read_address(size)?,
        "address_size" => u64::from(reader.read_address_size()?),
        "offset" => reader.read_offset(format_of(number))?.into_u64(),
        "sized_offset" => reader.read_sized_offset(size)?.into_u64(),
        _ => return Err(Stop::Lacks("no such call")),
    })
}
