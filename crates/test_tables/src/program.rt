//! What a program answers to a case.

use crate::call::Call;
use crate::case::Case;
use crate::stop::{Outcome, Stop};
use crate::text::Text;
use gimli_base::{
    BigEndian, EndianSlice, Endianity, LittleEndian, Reader, RunTimeEndian, WholeSlice,
};
use std::alloc::Global;
use std::io;

/// What answers the cases.
pub trait Program {
    /// Writes what the call of a case answers over readers of one kind.
    fn answer<R: Reader + PartialEq>(&self, call: &Call<'_, R>, out: &mut Text) -> Outcome;
}

// A program, and a kind of readers: whether offsets have 64 bits, or else 32, and the byte order.
#[derive(Drop)]
pub(crate) struct Trial<'a, P> {
    pub(crate) program: &'a P,
    pub(crate) alloc: Global,
    pub(crate) is_wide: bool,
    pub(crate) endian: RunTimeEndian,
}

// The call of a case over readers that are made by a call, if the bytes have places and offsets of 32 bits.
macro_rules! call_over {
    ($reader:ident, $alloc:expr, $case:expr, $wanted:expr, $endian:expr) => {{
        let mut sections = Vec::new($alloc);
        for index in 0..$case.sections.len().max(2) {
            let bytes = $case.section(index).unwrap_or(&[]);
            let place = $case.place(index);
            if bytes.len() > 0xffff_ffff || place.checked_add(bytes.len() as u64).is_none() {
                return Err(Stop::Lacks("too long"));
            }
            sections.push($reader::new_at(bytes, $endian, place))?;
        }
        Ok(Call {
            alloc: $alloc,
            case: $case,
            wanted: &$wanted,
            sections,
        })
    }};
}

// A call over readers whose offsets have 64 bits.
type Wide<'a, E> = Call<'a, EndianSlice<'a, E>>;

fn wide<E: Endianity>(alloc: Global, case: &Case, endian: E) -> Outcome<Wide<'_, E>> {
    call_over!(EndianSlice, alloc, case, case.wide, endian)
}

// A call over readers whose offsets have 32 bits.
type Narrow<'a> = Call<'a, WholeSlice<'a, RunTimeEndian>>;

fn narrow(alloc: Global, case: &Case, endian: RunTimeEndian) -> Outcome<Narrow<'_>> {
    call_over!(WholeSlice, alloc, case, case.narrow, endian)
}

impl<'a, P: Program> Trial<'a, P> {
    // What the call of a case answers.
    pub(crate) fn answer(&self, case: &Case) -> io::Result<Vec<u8>> {
        let mut found = Text::new(self.alloc);
        if let Err(stop) = self.write(case, &mut found) {
            stop.write(&mut found);
        }
        Ok(found.finish()?)
    }

    // Writes what the call of a case answers, up to why it ends.
    fn write(&self, case: &Case, out: &mut Text) -> Outcome {
        let (program, alloc) = (self.program, self.alloc);
        match (self.is_wide, self.endian) {
            (true, RunTimeEndian::Little) => program.answer(&wide(alloc, case, LittleEndian)?, out),
            (true, RunTimeEndian::Big) => program.answer(&wide(alloc, case, BigEndian)?, out),
            (false, endian) => program.answer(&narrow(alloc, case, endian)?, out),
        }
    }
}
