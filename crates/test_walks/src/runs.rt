//! Runs, as answers show them.

use crate::entries::{write_found, write_outcome, write_places};
use crate::lists::write_list;
use gimli_base::{Reader, ReaderOffset, Result};
use gimli_headers::{DebugInfo, DebugTypes};
use gimli_lists::{LocationListEntry, Range};
use gimli_units::{UnitHeader, UnitType};
use gimli_walk::{CursorAnswer, Run, TreeAnswer, run_type_units, run_units};
use std::alloc::Allocator;
use test_tables::{Call, Outcome, Stop, Text, hex_of, write_refusal};

/// What a run holds.
pub(crate) trait Item: Drop {
    /// Writes its parts.
    fn write(&self, out: &mut Text);
}

/// Writes a line for each answer of a run, and a last one where it was stopped.
pub(crate) fn write_run<T: Item, A: Allocator>(run: &Run<T, A>, out: &mut Text) {
    for answer in &run.answers {
        answer.write(out);
        writeln!(out);
    }
    if run.stopped {
        writeln!(out, "stopped");
    }
}

/// Writes the run over a section of units or of lists that a call names.
pub(crate) fn write_section_run<R: Reader, A: Allocator + Copy>(
    call: &Call<'_, R>,
    heap: A,
    out: &mut Text,
) -> Outcome {
    let first = call.section(0)?;
    match call.name() {
        "units" => write_run(&run_units(heap, &DebugInfo::from(first)), out),
        "type_units" => write_run(&run_type_units(heap, &DebugTypes::from(first)), out),
        "ranges" | "locations" | "locations_dwo" => write_list(call, heap, out)?,
        _ => return Err(Stop::Lacks("no such call")),
    }
    Ok(())
}

impl<T: Item> Item for Result<T> {
    fn write(&self, out: &mut Text) {
        match self {
            Ok(item) => item.write(out),
            Err(error) => write_refusal(out, *error),
        }
    }
}

// A unit: its offset, that of its abbreviations, and the signature and the offset of its type, if it is a
// type unit.
impl<R: Reader> Item for UnitHeader<R> {
    fn write(&self, out: &mut Text) {
        let offset = self.offset().0.into_u64();
        let table = self.debug_abbrev_offset().0.into_u64();
        write!(out, "unit {offset:x} {table:x}");
        if let UnitType::TypeUnit {
            type_signature,
            type_offset,
        } = self.type_()
        {
            let (signature, at) = (type_signature.0, type_offset.0.into_u64());
            write!(out, " type {signature:x} {at:x}");
        }
    }
}

impl Item for Range {
    fn write(&self, out: &mut Text) {
        write!(out, "{:x} {:x}", self.begin, self.end);
    }
}

impl<R: Reader> Item for LocationListEntry<R> {
    fn write(&self, out: &mut Text) {
        self.range.write(out);
        write!(out, " ");
        hex_of(out, &self.expr.0, " ");
    }
}

// What a step of a cursor found, with all that a refusal carries; the current entry with the number of its
// attributes; and where the cursor stood.
impl<R: Reader, A: Allocator> Item for CursorAnswer<R, A> {
    fn write(&self, out: &mut Text) {
        write_outcome(self.outcome, out);
        write_found(self.current.as_ref(), true, out);
        let last = (self.offset.0.into_u64(), self.depth);
        let next = (self.next_offset.0.into_u64(), self.next_depth);
        write_places(last, next, out);
    }
}

// What a step of a tree found: a node with the number of its attributes, or a word.
impl<R: Reader, A: Allocator> Item for TreeAnswer<R, A> {
    fn write(&self, out: &mut Text) {
        match self {
            TreeAnswer::Node(entry) => {
                write!(out, "node");
                write_found(Some(entry), true, out);
            }
            TreeAnswer::End => write!(out, "end"),
            TreeAnswer::Entered => write!(out, "entered"),
            TreeAnswer::Left => write!(out, "left"),
            TreeAnswer::NoNode => write!(out, "nonode"),
            TreeAnswer::Fault(error) => write_refusal(out, *error),
        }
    }
}
