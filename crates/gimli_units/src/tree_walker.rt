//! A walk over a tree that lends nothing of it.

ghost use Rattle.std.specs.Prelude.{◌≡◌, ◌≤◌, List, [], length, reverse, Ok, IfOk, IfErr, true};
ghost use Rattle.std.specs.Prelude.{false};
ghost use Rattle.std.specs.Option.{option_map};
ghost use Rattle.gimli_base.specs.declared.error.Error.TheVariants.{OutOfMemory};
ghost use Rattle.gimli_base.specs.Reading.{UnlessMemory};
ghost use Rattle.gimli_units.specs.CursorModel.{rows_of, IsOver};
ghost use Rattle.gimli_units.specs.TreePlace.{to_root, to_next, to_enter, to_leave};
ghost use Rattle.gimli_units.specs.TreeMoves.{IsTree, HasBegun};
ghost use Rattle.gimli_units.specs.TreeWalker.{Standing, IsShallow, IsWalker, at_none};
ghost use Rattle.gimli_units.specs.TreeWalker.{standing_place, standing_node, node_held, moved_to};
ghost use Rattle.gimli_units.specs.TreeWalker.{begun_answer, after_begun, WasAsked, HasAskedOne};
ghost use Rattle.gimli_units.specs.TreeWalker.{IsHonestIn, walker_answer, entered_from, entered_answer};
ghost use Rattle.gimli_units.specs.TreeWalker.{left_from, are_some, left_answer};

use crate::{DebuggingInformationEntry, EntriesTree};
use gimli_base::{Reader, Result};
use std::alloc::Allocator;
use std::marker::Model;

/// A walk over the entries of a tree: the tree, and the lists of children that were entered and not
/// left, one inside the other.
///
/// No step lends anything of the tree, so that steps may follow one another in any order, and
/// however deep the entries are a walk takes none of the machine's stack.
#[derive(Drop)]
#[derive_where(Debug)]
pub struct EntriesTreeWalker<'abbrev, R: Reader, A: Allocator> {
    tree: EntriesTree<'abbrev, R, A>,
    // whether the tree stands on a node
    is_on: bool,
    // the depth of each list's children while it is open, the innermost list last
    lists: Vec<Option<isize>, A>,
}

impl<'abbrev, R: Reader, A: Allocator> Model for EntriesTreeWalker<'abbrev, R, A> {
    ghost Value = { Standing };

    ghost view = { λ w. record { tree = w.tree; is_on = w.is_on; lists = reverse w.lists.items } };

    ghost invariant = { λ w. IsWalker (record {
      tree = w.tree;
      is_on = w.is_on;
      lists = reverse w.lists.items;
    }) };
}

impl<'abbrev, R: Reader, A: Allocator> EntriesTree<'abbrev, R, A> {
    /// A walk over the tree, which stands on no node and in no list until the root is asked for.
    /// `alloc` is for the lists; no memory is taken yet.
    pub fn walk(self, alloc: A) -> EntriesTreeWalker<'abbrev, R, A>
        ensures { result ≡ at_none self.entry [] }
    {
        let _ = self.next_depth();
        EntriesTreeWalker {
            tree: self,
            is_on: false,
            lists: Vec::new(alloc),
        }
    }

    // Goes to the next node of a list of children, whose depth `list` is while it is open; it is
    // none when the list is closed. True: the tree stands on the node. False: the list is at its
    // end, or it is closed, and then nothing moves. Refusals: those of `EntriesTree::go_to_next`.
    fn go_on(&mut self, list: Option<isize>) -> Result<bool>
        requires shallow { IsShallow list }
        requires tree { IsTree self.old }
        ensures asked { WasAsked R.Offset.limit list self.old result self.new }
        ensures tree { IsTree self.new }
    {
        match list {
            Some(depth) => self.go_to_next(depth),
            None => Ok(false),
        }
    }
}

impl<'abbrev, R: Reader, A: Allocator> EntriesTreeWalker<'abbrev, R, A> {
    /// The node that the walk stands on: after a `root` or a `next` that found one, until the next
    /// step.
    pub fn entry(&self) -> Option<&DebuggingInformationEntry<R, A>>
        ensures { option_map (λ e. node_held R.view R.Offset.number e.now) result
            ≡ standing_node self.now }
    {
        if self.is_on {
            Some(self.tree.entry())
        } else {
            None
        }
    }

    /// How many lists were entered and not left.
    pub fn list_count(&self) -> usize
        ensures { result ≡ length self.now.lists }
    {
        self.lists.len()
    }

    /// How many entries were read since the root was asked for last, nulls, passed and refused ones
    /// too; not those that a reference leads past.
    pub fn reads(&self) -> usize
        ensures count { result ≡ self.now.tree.cursor.reads }
        ensures few { result ≤ length self.now.tree.start.rest.bytes }
        ensures sound { IsWalker self.now }
    {
        self.tree.reads()
    }

    /// Goes to the root, the first entry, at depth 0, and drops all lists.
    ///
    /// Refusals: those of `EntriesRaw::read_entry`, and `NoEntryAtGivenOffset` at a null. The walk
    /// then stands on no node and in no list, and is ready for another `root`.
    pub fn root(&mut self) -> Result<()>
        ensures begun { HasBegun R.Offset.limit self.old.tree result self.new.tree }
        ensures stands { self.new ≡ after_begun result self.new.tree }
        ensures goes { UnlessMemory result
            (moved_to R.Offset.limit (begun_answer result self.new.tree) self.new
            ≡ to_root self.old.tree.start.end (rows_of R.Offset.limit self.old.tree.start)) }
        ensures sound { IsWalker self.new }
    {
        self.lists.clear();
        self.is_on = false;
        self.tree.go_to_root()?;
        self.is_on = true;
        Ok(())
    }

    // Asks the innermost list for its next node. True: the walk stands on it. False: it stands on
    // no node, and the list is closed; where there is no list, nothing moves. Refusals: those of
    // `EntriesTree::go_to_next`; the walk then stands on no node, and no list is dropped.
    fn ask(&mut self) -> Result<bool>
        ensures asked { HasAskedOne R.Offset.limit self.old.lists self.old result self.new }
        ensures sound { IsWalker self.new }
    {
        let Some(list) = self.lists.pop() else {
            return Ok(false);
        };
        match self.tree.go_on(list) {
            Ok(true) => {
                self.lists.push_reserved(list);
                self.is_on = true;
                Ok(true)
            }
            Ok(false) => {
                self.lists.push_reserved(None);
                self.is_on = false;
                Ok(false)
            }
            Err(error) => {
                self.lists.push_reserved(list);
                self.is_on = false;
                Err(error)
            }
        }
    }

    /// Goes to the next node of the innermost list: the next entry of its depth, before the null
    /// that closes the list. Answers false there, at the end of the bytes, when the list is closed,
    /// and where there is no list.
    ///
    /// An entry whose `DW_AT_sibling` leads on in the unit is left for where it leads, with what is
    /// below it unread. So the nodes are those of plain walking where these references are honest;
    /// where they are not, a node is still what decoding at its offset gives, with the list's
    /// depth.
    ///
    /// Refusals: those of `EntriesRaw::read_entry`. Every list is then at its end, until `root` is
    /// asked for.
    pub fn next(&mut self) -> Result<bool>
        ensures asked { HasAskedOne R.Offset.limit self.old.lists self.old result self.new }
        ensures goes { IsHonestIn R.Offset.limit self.old.lists self.old.tree
            → UnlessMemory result
            (moved_to R.Offset.limit (walker_answer self.old.lists result self.new.tree) self.new
            ≡ to_next self.old.tree.start.end (standing_place R.Offset.limit self.old)) }
        ensures over { IsOver self.old.tree.cursor → result ≡ Ok false }
        ensures sound { IsWalker self.new }
    {
        self.ask()
    }

    // Makes the list of the node's children the innermost, a closed one where no children follow;
    // the walk stands on no node then. Answers whether there was a node; without one nothing moves.
    // Refusal: `OutOfMemory`; the walk is then as it was.
    fn open(&mut self) -> Result<bool>
        ensures opened { IfOk result (λ b. (b ≡ self.old.is_on)
            × (self.new ≡ entered_from self.old)) }
        ensures refused { IfErr result (λ e. (e ≡ OutOfMemory) × (self.old.is_on ≡ true)
            × (self.new ≡ self.old)) }
        ensures sound { IsWalker self.new }
    {
        if !self.is_on {
            return Ok(false);
        }
        let list = if self.tree.entry().has_children() {
            Some(self.tree.next_depth())
        } else {
            None
        };
        self.lists.push(list)?;
        self.is_on = false;
        Ok(true)
    }

    /// Enters the node: the list of its children is then the innermost, and the walk stands on no
    /// node. Where no children follow, the list is closed. Answers whether there was a node to
    /// enter.
    ///
    /// Refusal: `OutOfMemory`, where there is a node; the walk then stands where it stood.
    pub fn enter(&mut self) -> Result<bool>
        ensures entered { IfOk result (λ b. (b ≡ self.old.is_on)
            × (self.new ≡ entered_from self.old)) }
        ensures goes { IfOk result (λ b. moved_to R.Offset.limit (entered_answer b) self.new
            ≡ to_enter (standing_place R.Offset.limit self.old)) }
        ensures refused { IfErr result (λ e. (e ≡ OutOfMemory) × (self.old.is_on ≡ true)
            × (self.new ≡ self.old)) }
        ensures sound { IsWalker self.new }
    {
        self.open()
    }

    // Drops the innermost list; the walk stands on no node then. Answers whether there was a list;
    // without one nothing moves.
    fn close(&mut self) -> bool
        ensures left { (result ≡ are_some self.old.lists)
            × (self.new ≡ left_from self.old.lists self.old) }
        ensures sound { IsWalker self.new }
    {
        if self.lists.pop().is_none() {
            return false;
        }
        self.is_on = false;
        true
    }

    /// Leaves the innermost list; the walk stands on no node then. Nothing is read. Answers whether
    /// there was a list to leave; without one nothing moves.
    pub fn leave(&mut self) -> bool
        ensures left { (result ≡ are_some self.old.lists)
            × (self.new ≡ left_from self.old.lists self.old) }
        ensures goes { moved_to R.Offset.limit (left_answer result) self.new
            ≡ to_leave (standing_place R.Offset.limit self.old) }
        ensures sound { IsWalker self.new }
    {
        self.close()
    }
}
