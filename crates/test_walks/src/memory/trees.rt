//! Walks of trees.

use crate::entries::write_found;
use crate::memory::trial::Heap;
use crate::memory::walks::Walk;
use crate::trees::take_step;
use gimli_base::{Reader, ReaderOffset, Result};
use gimli_units::{EntriesTree, EntriesTreeIter, EntriesTreeWalker};
use test_tables::{Text, write_refusal};

/// A tree, and the allocator that a clone of it is made with.
#[derive(Drop)]
pub(crate) struct Tree<'table, 'h, R: Reader> {
    pub(crate) tree: EntriesTree<'table, R, Heap<'h>>,
    pub(crate) heap: Heap<'h>,
}

impl<'table, 'h, R: Reader> Walk for Tree<'table, 'h, R> {
    // `r` goes to the root, `n` to the next entry of depth 1, `m` to that of depth 2; `c` puts a clone in the
    // tree's place.
    fn take(&mut self, letter: u8) -> Result<bool> {
        match letter {
            b'r' => self.tree.go_to_root()?,
            b'n' => return self.tree.go_to_next(1),
            b'm' => return self.tree.go_to_next(2),
            b'c' => self.tree = self.tree.try_clone(self.heap)?,
            _ => return Ok(false),
        }
        Ok(true)
    }

    fn show(&self, out: &mut Text) {
        let entry = self.tree.entry();
        let read = if entry.is_null() { None } else { Some(entry) };
        write_found(read, true, out);
        let (offset, depth) = (entry.offset().0.into_u64(), entry.depth());
        let (next, reads) = (self.tree.next_depth(), self.tree.reads());
        write!(out, " at {offset:x} {depth} > {next} reads {reads}");
    }
}

impl<'table, 'h, R: Reader> Walk for EntriesTreeWalker<'table, R, Heap<'h>> {
    fn take(&mut self, letter: u8) -> Result<bool> {
        take_step(self, letter)
    }

    fn show(&self, out: &mut Text) {
        write_found(self.entry(), true, out);
        let (lists, reads) = (self.list_count(), self.reads());
        write!(out, " in {lists} reads {reads}");
    }
}

// Writes the next child of a list, which it lends, or that there is none, or a refusal. Answers whether there
// was a child.
fn write_child<R: Reader>(list: &mut EntriesTreeIter<'_, '_, R, Heap<'_>>, out: &mut Text) -> bool {
    let child = list.next();
    match &child {
        Ok(Some(node)) => {
            write!(out, "yes");
            write_found(Some(node.entry()), true, out);
        }
        Ok(None) => write!(out, "no"),
        Err(error) => write_refusal(out, *error),
    }
    writeln!(out);
    matches!(child, Ok(Some(_)))
}

// Writes the children of a list. After the last, and after a refusal, it has no child any more.
fn write_children<R: Reader>(list: &mut EntriesTreeIter<'_, '_, R, Heap<'_>>, out: &mut Text) {
    for _ in 0..u64::MAX {
        if !write_child(list, out) {
            break;
        }
    }
    if !matches!(list.next(), Ok(None)) {
        writeln!(out, "goes on");
    }
}

/// Writes the root of a tree and its children, as the tree lends them.
pub(crate) fn write_lent<R: Reader>(tree: &mut EntriesTree<'_, R, Heap<'_>>, out: &mut Text) {
    match tree.root() {
        Ok(root) => {
            write!(out, "root");
            write_found(Some(root.entry()), true, out);
            writeln!(out);
            let mut list = root.children();
            write_children(&mut list, out);
        }
        Err(error) => {
            write_refusal(out, error);
            writeln!(out);
        }
    }
}
