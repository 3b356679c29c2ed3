//! Cases that stand for many.

use crate::case::Case;
use crate::program::{Program, Trial};
use crate::text::Text;
use std::io;

impl<'a, P: Program> Trial<'a, P> {
    // What the call of a case answers, or what the call in its words answers for each of many sections.
    pub(crate) fn find(&self, case: &Case) -> io::Result<Vec<u8>> {
        let bytes = case.section(0).unwrap_or(&[]);
        match case.word(0) {
            Some("cuts") => self.find_cuts(case, bytes),
            Some("each_byte") => self.find_each_byte(case, bytes),
            _ => self.answer(case),
        }
    }

    // What the call answers for the first bytes: none, one, and so on up to all. An answer that is that of
    // one byte less is left out.
    fn find_cuts(&self, case: &Case, bytes: &[u8]) -> io::Result<Vec<u8>> {
        let mut found = Text::new(self.alloc);
        let mut last = Vec::new(self.alloc);
        for length in 0..=bytes.len() {
            let Some(front) = bytes.get(..length) else {
                break;
            };
            let next = self.answer(&case.with_bytes(self.alloc, 1, front)?)?;
            if length == 0 || next != last {
                write_part(&mut found, length, &next);
            }
            last = next;
        }
        Ok(found.finish()?)
    }

    // What the call answers where each of the 256 bytes stands at an index. An answer that begins with the
    // refusal of the byte as a size of addresses is left out.
    fn find_each_byte(&self, case: &Case, bytes: &[u8]) -> io::Result<Vec<u8>> {
        let mut found = Text::new(self.alloc);
        let mut changed = Vec::from_slice(self.alloc, bytes)?;
        let index = case.number(1).unwrap_or(0) as usize;
        for byte in 0..=255_u8 {
            match changed.get_mut(index) {
                Some(place) => *place = byte,
                None => break,
            }
            let next = self.answer(&case.with_bytes(self.alloc, 2, &changed)?)?;
            let refusal = format!(in self.alloc; "refused 7 {byte}\n")?;
            if !next.starts_with(refusal.as_bytes()) {
                write_part(&mut found, usize::from(byte), &next);
            }
        }
        Ok(found.finish()?)
    }
}

// Writes a number and `:`, and then the lines of an answer.
fn write_part(out: &mut Text, number: usize, answer: &[u8]) {
    writeln!(out, "{number}:");
    for line in str::from_utf8(answer).unwrap_or("no text").lines() {
        writeln!(out, "{line}");
    }
}
