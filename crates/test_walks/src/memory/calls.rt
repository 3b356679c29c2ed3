//! The calls that a case can name.

use crate::entries::write_found;
use crate::memory::cursors::{Cursor, Raw, write_values};
use crate::memory::trees::{Tree, write_lent};
use crate::memory::trial::{Heap, Trial};
use crate::memory::walks::{Given, write_walk};
use crate::runs::write_section_run;
use crate::texts::{write_dump, write_with_status};
use crate::units::Stage;
use gimli_base::{Reader, ReaderOffset};
use gimli_headers::first_false_sibling;
use gimli_lists::DebugAranges;
use gimli_units::DebuggingInformationEntry;
use gimli_walk::unit_of_address;
use test_tables::{Outcome, Text};

impl<'s, 'c, R: Reader> Trial<'s, 'c, R> {
    /// Makes the call, and writes what it answers.
    pub(crate) fn write(&self, out: &mut Text) -> Outcome {
        let (call, heap) = (self.call, &self.failing);
        match call.name() {
            "text" | "words" => write_with_status(call, heap, 1, out),
            "dump_to_vec" => write_dump(call, heap, out),
            "units" | "type_units" | "ranges" | "locations" => write_section_run(call, heap, out),
            "unit_of_address" => self.write_unit_of(out),
            "table" => self.write_table(out),
            _ => self.write_staged(out),
        }
    }

    // Makes a call over a unit and its table, which are kept where no memory is refused.
    fn write_staged(&self, out: &mut Text) -> Outcome {
        let stage = Stage::new(self.call, &self.ample)?;
        match self.call.name() {
            "entry" => self.write_entry(&stage, out),
            "check" => self.write_check(&stage, out),
            "run_cursor" | "run_plain" | "run_tree" => {
                stage.write_run_of(self.call.name(), &self.failing, out)
            }
            _ => self.write_walk_over(&stage, out),
        }
    }

    // Writes the steps of a walk, or what a tree lends.
    fn write_walk_over<'h>(&'h self, stage: &Stage<R, Heap<'h>>, out: &mut Text) -> Outcome {
        match self.call.name() {
            "raw" => self.write_raw(stage, out),
            "cursor" | "clone" | "plain" => self.write_cursor(stage, out),
            "nodes" => self.write_nodes(stage, out),
            "walker" => self.write_walker(stage, out),
            _ => self.write_tree(stage, out),
        }
    }

    // Writes the offset of the unit of an address.
    fn write_unit_of(&self, out: &mut Text) -> Outcome {
        let aranges = DebugAranges::from(self.call.section(0)?);
        match unit_of_address(&aranges, self.call.number(1)?)? {
            Some(offset) => writeln!(out, "unit {:x}", offset.0.into_u64()),
            None => writeln!(out, "none"),
        }
        Ok(())
    }

    // Writes the entry at an offset.
    fn write_entry<'h>(&'h self, stage: &Stage<R, Heap<'h>>, out: &mut Text) -> Outcome {
        let entry = stage.entry(&self.failing)?;
        write!(out, "yes");
        write_found(Some(&entry), true, out);
        write_values(entry.attrs(), out);
        writeln!(out);
        Ok(())
    }

    // Writes the first entry whose sibling reference is false.
    fn write_check<'h>(&'h self, stage: &Stage<R, Heap<'h>>, out: &mut Text) -> Outcome {
        match first_false_sibling(&self.failing, &stage.unit, &stage.table)? {
            None => writeln!(out, "honest"),
            Some(offset) => writeln!(out, "false {:x}", offset.0.into_u64()),
        }
        Ok(())
    }

    // What the steps of a walk are taken with.
    fn given(&self) -> Given<'_> {
        (&self.failing, self.number, self.call.case.word(1))
    }

    // The allocator of a walk: where memory is refused for its clones alone, the one that refuses nothing.
    fn made(&self) -> Heap<'_> {
        match self.call.name() {
            "clone" | "clone_tree" => &self.ample,
            _ => &self.failing,
        }
    }

    // Writes what is read one after the other.
    fn write_raw<'h>(&'h self, stage: &Stage<R, Heap<'h>>, out: &mut Text) -> Outcome {
        let heap = &self.failing;
        let mut walk = Raw {
            raw: stage.raw()?,
            entry: DebuggingInformationEntry::null(heap),
            table: &stage.table,
            heap,
        };
        write_walk(self.given(), &mut walk, out);
        Ok(())
    }

    // Writes the root of a tree and its children. Where memory is refused, the tree begins anew.
    fn write_nodes<'h>(&'h self, stage: &Stage<R, Heap<'h>>, out: &mut Text) -> Outcome {
        let mut tree = stage.tree(&self.failing)?;
        write_lent(&mut tree, out);
        if self.failing.requests() >= self.number {
            write_lent(&mut tree, out);
        }
        Ok(())
    }

    // Writes the steps of a cursor, whose clones are made with the allocator that refuses.
    fn write_cursor<'h>(&'h self, stage: &Stage<R, Heap<'h>>, out: &mut Text) -> Outcome {
        let cursor = stage.cursor(self.made(), self.call.name() != "plain")?;
        let heap = &self.failing;
        write_walk(self.given(), &mut Cursor { cursor, heap }, out);
        Ok(())
    }

    // Writes the steps of a tree, whose clones are made with the allocator that refuses.
    fn write_tree<'h>(&'h self, stage: &Stage<R, Heap<'h>>, out: &mut Text) -> Outcome {
        let tree = stage.tree(self.made())?;
        let heap = &self.failing;
        write_walk(self.given(), &mut Tree { tree, heap }, out);
        Ok(())
    }

    // Writes the steps of a walker.
    fn write_walker<'h>(&'h self, stage: &Stage<R, Heap<'h>>, out: &mut Text) -> Outcome {
        let mut walker = stage.walker(&self.failing)?;
        write_walk(self.given(), &mut walker, out);
        Ok(())
    }

    // Writes the declarations of the codes up to 10: the code, the tag, the children flag and the
    // number of attributes.
    fn write_table(&self, out: &mut Text) -> Outcome {
        let stage = Stage::new(self.call, &self.failing)?;
        for code in 0..=10u64 {
            if let Some(declared) = stage.table.get(code) {
                let (tag, flag) = (declared.tag().0, u8::from(declared.has_children()));
                let count = declared.attributes().len();
                writeln!(out, "{code} {tag:x} {flag} {count}");
            }
        }
        writeln!(out, "end");
        Ok(())
    }
}
