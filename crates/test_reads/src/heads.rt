//! Heads of entries that are read alone, beside the whole entries.

use crate::inputs::{Input, Raw};
use gimli_base::{Abbreviation, AttributeSpecification, Reader, ReaderOffset, Result};
use gimli_units::DebuggingInformationEntry;
use std::alloc::Global;
use test_tables::{Call, Outcome, Text, write_refusal};

/// Writes the head of each entry up to one that is refused: its code, and after `>` where its sibling is; or
/// `null`, or the refusal. Of `same_heads` they are not written, and `same` is the answer. Each head is read
/// beside the whole entry, after the entries before it, and by a reader of its own also where the bytes end in
/// it or among as many after it as the last word says. What differs is written.
pub(crate) fn write_heads<R: Reader>(call: &Call<'_, R>, out: &mut Text) -> Outcome {
    let input = Input::of_entries(call, call.encoding(1)?)?;
    let is_listed = call.name() == "heads";
    let bytes_after = call.case.number(4).unwrap_or(0);
    let mut rest = call.section(0)?;
    let mut walk = Walk::new(input.raw());
    for _ in 0..u64::MAX {
        let (answer, length, _) = of_entry(&mut input.raw_of(&rest), call.alloc);
        if is_listed {
            write_head(walk.whole.copy(), out);
        }
        let most = rest
            .len()
            .into_u64()
            .min(length.saturating_add(bytes_after));
        write_differing(&input, &rest, most, out)?;
        let is_same = Walk::new(walk.whole.copy()).go_on(call.alloc);
        if !walk.go_on(call.alloc) || !is_same {
            writeln!(out, "another head after others");
        }
        if answer.is_err() {
            break;
        }
        rest.skip(R::Offset::from_u64(length)?)?;
    }
    if !is_listed {
        write!(out, "same");
    }
    Ok(())
}

// Writes the head of the next entry.
fn write_head<R: Reader>(mut raw: Raw<'_, R>, out: &mut Text) {
    match read_head(&mut raw, true) {
        Ok((Some(declared), sibling)) => {
            write!(out, "{}", declared.code());
            if let Some(sibling) = sibling {
                write!(out, ">{sibling:x}");
            }
        }
        Ok((None, _)) => write!(out, "null"),
        Err(error) => return write_refusal(out, error),
    }
    write!(out, " ");
}

// Writes the first number of bytes, all or up to the most, by which the heads of an entry are not those of the
// whole one, if there is one.
fn write_differing<R: Reader>(input: &Input<R>, rest: &R, most: u64, out: &mut Text) -> Outcome {
    let (whole, alloc) = (input.raw_of(rest), out.alloc());
    if !has_declaration(&whole) || !Walk::new(whole).go_on(alloc) {
        writeln!(out, "another head by {} bytes", rest.len().into_u64());
        return Ok(());
    }
    for size in 0..=most {
        if !Walk::new(input.raw_of(&front(rest, size)?)).go_on(alloc) {
            writeln!(out, "another head by {size} bytes");
            break;
        }
    }
    Ok(())
}

// The first bytes of a reader, as many as a number says.
fn front<R: Reader>(bytes: &R, size: u64) -> Result<R> {
    let mut front = bytes.copy();
    front.truncate(R::Offset::from_u64(size)?)?;
    Ok(front)
}

// Three readers of the same entries: of whole ones, of their heads, and of their heads with the sibling.
#[derive(Drop)]
struct Walk<'table, R: Reader> {
    whole: Raw<'table, R>,
    head: Raw<'table, R>,
    beside: Raw<'table, R>,
}

impl<'table, R: Reader> Walk<'table, R> {
    // The three before an entry.
    fn new(whole: Raw<'table, R>) -> Self {
        Walk {
            head: whole.copy(),
            beside: whole.copy(),
            whole,
        }
    }

    // Reads the next entry in each way, and answers whether all tell the same, and stand at the same place.
    fn go_on(&mut self, alloc: Global) -> bool {
        let (whole, offset, depth) = of_entry(&mut self.whole, alloc);
        let alone = whole.map(|(tag, has_children, _)| (tag, has_children, None));
        let head = of_head(&mut self.head, false);
        let beside = of_head(&mut self.beside, true);
        head == (alone, offset, depth) && beside == (whole, offset, depth)
    }
}

// What a read tells: tag, children flag and where the sibling is, or why it is refused; and the offset and
// the depth of what is read next.
type HeadRead = (Result<(u16, bool, Option<u64>)>, u64, isize);

// What the whole entry tells.
fn of_entry<R: Reader>(raw: &mut Raw<'_, R>, alloc: Global) -> HeadRead {
    let mut entry = DebuggingInformationEntry::null(alloc);
    let answer = match raw.read_entry(&mut entry) {
        Ok(_) => {
            let sibling = entry.sibling().map(|at| at.0.into_u64());
            Ok((entry.tag().0, entry.has_children(), sibling))
        }
        Err(error) => Err(error),
    };
    (answer, raw.next_offset().0.into_u64(), raw.next_depth())
}

// What its head tells, with the sibling or without.
fn of_head<R: Reader>(raw: &mut Raw<'_, R>, has_sibling: bool) -> HeadRead {
    let answer = match read_head(raw, has_sibling) {
        Ok((Some(it), sibling)) => Ok((it.tag().0, it.has_children(), sibling)),
        Ok((None, sibling)) => Ok((0, false, sibling)),
        Err(error) => Err(error),
    };
    (answer, raw.next_offset().0.into_u64(), raw.next_depth())
}

// The declaration of an entry, and where its sibling is.
type Head<'table> = (Option<&'table Abbreviation<Global>>, Option<u64>);

// Reads the head of the next entry, with the sibling or without. It has no clauses, and so costs its callers
// little to prove.
fn read_head<'t, R: Reader>(raw: &mut Raw<'t, R>, has_sibling: bool) -> Result<Head<'t>> {
    if has_sibling {
        let (declared, sibling) = raw.read_head_and_sibling()?;
        Ok((declared, sibling.map(|at| at.0.into_u64())))
    } else {
        Ok((raw.read_head()?, None))
    }
}

// Whether the heads have the declaration of the code, where they are not refused.
fn has_declaration<R: Reader>(raw: &Raw<'_, R>) -> bool {
    for has_sibling in [false, true] {
        let mut copy = raw.copy();
        let alone = copy.read_abbreviation().map(|it| parts(it));
        if let Ok((head, _)) = read_head(&mut raw.copy(), has_sibling)
            && alone != Ok(parts(head))
        {
            return false;
        }
    }
    true
}

// The code and the attributes of a declaration.
fn parts(declared: Option<&Abbreviation<Global>>) -> Option<(u64, &[AttributeSpecification])> {
    declared.map(|declared| (declared.code(), declared.attributes()))
}
