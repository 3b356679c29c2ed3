//! Texts whose writer fails.

use crate::texts::{write_text, write_with_status};
use gimli_base::Reader;
use gimli_walk::WriteFault;
use test_tables::{Call, Outcome, Text, is_answer};

/// Writes a text into each slice that is too short for it, and into one that is not, and writes what differs.
pub(crate) fn write_short<R: Reader>(call: &Call<'_, R>, out: &mut Text) -> Outcome {
    let mut whole = Text::new(call.alloc);
    write_with_status(call, call.alloc, 1, &mut whole)?;
    let whole = whole.finish()?;
    let whole = str::from_utf8(&whole).unwrap_or("no text");
    if !is_answer(call.wanted, whole) {
        write!(out, "{whole}");
    }
    let mut text = Vec::new(call.alloc);
    let status = write_text(call, call.alloc, 1, &mut text)?;
    for size in 0..=text.len() {
        let is_short = size < text.len();
        let wanted = if is_short { Err(WriteFault) } else { status };
        write_into(call, &text, size, wanted, out)?;
    }
    Ok(())
}

// Writes a text into a slice of a size, and writes what differs from the status that is wanted, and from the
// front of the text.
fn write_into<R: Reader>(
    call: &Call<'_, R>,
    text: &[u8],
    size: usize,
    wanted: Result<u8, WriteFault>,
    out: &mut Text,
) -> Outcome {
    let mut space = Vec::from_slice(call.alloc, text)?;
    space.fill(0xff);
    let Some((mut left, _)) = space.split_at_mut_checked(size) else {
        return Ok(());
    };
    let answer = write_text(call, call.alloc, 1, &mut left)?;
    let written = size.saturating_sub(left.len());
    let is_front = space.get(..written) == text.get(..written);
    if answer != wanted || !is_front {
        writeln!(out, "{size} bytes: {answer:?}");
    }
    Ok(())
}
