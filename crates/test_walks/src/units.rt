//! The first unit of a case with its table, and what reads its entries.

use crate::runs::write_run;
use crate::steps::{Steps, steps_at};
use gimli_base::{Abbreviations, DebugAbbrev, Reader, ReaderOffset, Result};
use gimli_headers::DebugInfo;
use gimli_units::{
    DebuggingInformationEntry, EntriesCursor, EntriesRaw, EntriesTree, EntriesTreeWalker,
    UnitHeader, UnitOffset,
};
use gimli_walk::{CursorAnswer, Run, TreeAnswer, run_cursor, run_cursor_plain, run_tree};
use std::alloc::Allocator;
use test_tables::{Call, Outcome, Stop, Text};

/// The first unit of the first section, with its table of the second, and what a call says of it.
#[derive(Drop)]
pub(crate) struct Stage<R: Reader, A: Allocator> {
    pub(crate) unit: UnitHeader<R>,
    pub(crate) table: Abbreviations<A>,
    // the offset that is the first word after the call, or none where that is no number
    start: Option<UnitOffset<R::Offset>>,
    // the steps that the second word names
    steps: Steps,
}

impl<R: Reader, A: Allocator + Copy> Stage<R, A> {
    /// What a call reads, with the table by an allocator.
    pub(crate) fn new(call: &Call<'_, R>, heap: A) -> Outcome<Stage<R, A>> {
        let mut units = DebugInfo::from(call.section(0)?).units();
        let unit = units.next()?.ok_or(Stop::Lacks("no unit"))?;
        let table = unit.abbreviations(heap, &DebugAbbrev::from(call.second_or_end()?))?;
        let start = call.offset(1)?.map(UnitOffset);
        let steps = steps_at(call, 2)?;
        Ok(Stage {
            unit,
            table,
            start,
            steps,
        })
    }

    /// The entry at the start, or at 0.
    pub(crate) fn entry(&self, heap: A) -> Result<DebuggingInformationEntry<R, A>> {
        let offset = self.start.unwrap_or(UnitOffset(R::Offset::from_u8(0)));
        self.unit.entry(heap, &self.table, offset)
    }

    /// A reader of all entries.
    pub(crate) fn raw(&self) -> Result<EntriesRaw<'_, R, A>> {
        self.unit.entries_raw(&self.table, None)
    }

    /// A cursor at the start, or at the first entry, which follows references or does not.
    pub(crate) fn cursor(&self, heap: A, follows: bool) -> Result<EntriesCursor<'_, R, A>> {
        let (unit, table) = (&self.unit, &self.table);
        match (self.start, follows) {
            (None, true) => Ok(unit.entries(heap, table)),
            (None, false) => Ok(unit.entries_plain(heap, table)),
            (Some(offset), true) => unit.entries_at_offset(heap, table, offset),
            (Some(offset), false) => unit.entries_plain_at_offset(heap, table, offset),
        }
    }

    /// A tree from the start, or from the first entry.
    pub(crate) fn tree(&self, heap: A) -> Result<EntriesTree<'_, R, A>> {
        self.unit.entries_tree(heap, &self.table, self.start)
    }

    /// A walker of that tree.
    pub(crate) fn walker(&self, heap: A) -> Result<EntriesTreeWalker<'_, R, A>> {
        Ok(self.tree(heap)?.walk(heap))
    }

    // The run of such a cursor over the steps.
    fn run_cursor(&self, heap: A, follows: bool) -> Result<Run<CursorAnswer<R, A>, A>> {
        let (unit, table, steps) = (&self.unit, &self.table, &self.steps.of_cursor);
        if follows {
            run_cursor(heap, unit, table, self.start, steps)
        } else {
            run_cursor_plain(heap, unit, table, self.start, steps)
        }
    }

    // The run of such a tree over the steps.
    fn run_tree(&self, heap: A) -> Result<Run<TreeAnswer<R, A>, A>> {
        let (unit, table, steps) = (&self.unit, &self.table, &self.steps.of_tree);
        run_tree(heap, unit, table, self.start, steps)
    }

    /// Writes what the run that a call names holds.
    pub(crate) fn write_run_of(&self, name: &str, heap: A, out: &mut Text) -> Outcome {
        match name {
            "tree_at" | "run_tree" => write_run(&self.run_tree(heap)?, out),
            "cursor_at" | "run_cursor" => write_run(&self.run_cursor(heap, true)?, out),
            _ => write_run(&self.run_cursor(heap, false)?, out),
        }
        Ok(())
    }
}
