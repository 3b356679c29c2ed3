//! What several calls take or show: a format, an encoding, bytes and their place, values that may be refused or
//! missing, and that something does not agree.

use gimli_base::{Encoding, Format, Reader, Result};
use test_tables::{Text, write_hex, write_refusal};

/// What a call gives, or a part of it.
pub(crate) trait Shown: Drop {
    /// Writes its parts, with a space between them.
    fn show(&self, out: &mut Text);
}

// What there is, or `none`.
impl<T: Shown> Shown for Option<T> {
    fn show(&self, out: &mut Text) {
        match self {
            Some(shown) => shown.show(out),
            None => write!(out, "none"),
        }
    }
}

// What is answered, or the refusal.
impl<T: Shown> Shown for Result<T> {
    fn show(&self, out: &mut Text) {
        match self {
            Ok(shown) => shown.show(out),
            Err(error) => write_refusal(out, *error),
        }
    }
}

impl Shown for u64 {
    fn show(&self, out: &mut Text) {
        write!(out, "{self}");
    }
}

/// Writes what is shown, and ends the line.
pub(crate) fn write_line<T: Shown>(shown: &T, out: &mut Text) {
    shown.show(out);
    writeln!(out);
}

/// The format of the number of bytes of its offsets.
pub(crate) fn format_of(size: u64) -> Format {
    match size {
        8 => Format::Dwarf64,
        _ => Format::Dwarf32,
    }
}

/// Writes the bytes of a reader, and at which place they begin.
pub(crate) fn write_left<R: Reader>(reader: &R, out: &mut Text) {
    write_hex(out, reader, " ");
    write!(out, "at {}", reader.offset_id().0);
}

/// Writes the bytes of an offset, the version, and the bytes of an address.
pub(crate) fn write_encoding(encoding: Encoding, out: &mut Text) {
    let (word, version) = (encoding.format.word_size(), encoding.version);
    write!(out, "{word} {version} {}", encoding.address_size);
}

/// Tells what does not agree, unless it does.
pub(crate) fn tell_unless(agrees: bool, what: &str, out: &mut Text) {
    if !agrees {
        write!(out, " but {what}");
    }
}

/// Writes the first answer, and after a name the other one where it differs.
pub(crate) fn write_either(first: &Text, other: &Text, name: &str, out: &mut Text) {
    out.push_text(first);
    if !first.is_same(other) {
        write!(out, "{name}");
        out.push_text(other);
    }
}
