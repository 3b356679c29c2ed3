//! Sets of ranges of addresses.

use crate::items::write_items;
use crate::shown::{Shown, write_encoding, write_line};
use gimli_base::{DebugArangesOffset, Reader, ReaderOffset};
use gimli_lists::{ArangeHeader, DebugAranges};
use test_tables::{Call, Outcome, Text};

/// Writes each set of a section, and the refusal where one is refused.
pub(crate) fn write_aranges<R: Reader>(call: &Call<'_, R>, out: &mut Text) -> Outcome {
    for header in DebugAranges::from(call.section(0)?).headers() {
        write_line(&header, out);
    }
    Ok(())
}

/// Writes the set at an offset.
pub(crate) fn write_set<R: Reader>(call: &Call<'_, R>, out: &mut Text) -> Outcome {
    let offset = DebugArangesOffset(call.offset_or_zero(1)?);
    let header = DebugAranges::from(call.section(0)?).header(offset)?;
    header.show(out);
    Ok(())
}

// Where a set begins, the number in its length field, the offset of its unit, and its encoding; its tuples in
// another line, and its ranges in a third.
impl<R: Reader> Shown for ArangeHeader<R> {
    fn show(&self, out: &mut Text) {
        let (offset, length) = (self.offset().0.into_u64(), self.length().into_u64());
        let unit = self.debug_info_offset().0.into_u64();
        write!(out, "set {offset} length {length} unit {unit} of ");
        write_encoding(self.encoding(), out);
        write_tuples(self, out);
        write_items("\nranges", self.entries(), out);
    }
}

// Writes the tuples of a set, of which there are fewer than bytes.
fn write_tuples<R: Reader>(header: &ArangeHeader<R>, out: &mut Text) {
    write!(out, "\nraw");
    let mut entries = header.entries();
    for _ in 0..header.length().into_u64() {
        if let Some(entry) = entries.next_raw().transpose() {
            write!(out, ", ");
            entry.show(out);
        }
    }
}
