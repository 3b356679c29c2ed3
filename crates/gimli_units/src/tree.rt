//! The entries of a unit as a tree.

ghost use Rattle.std.specs.Prelude.{◌≡◌, ℕ, ◌+◌, ◌-◌, ◌<◌, ◌≤◌, ◌^◌, length, unsigned_abs, Ok, Err};
ghost use Rattle.std.specs.Prelude.{Some, None, false, true, pos, IfOk, IfErr, IfSome, IsOk, OnErr};
ghost use Rattle.std.specs.Prelude.{is_some, [], ◌∷◌};
ghost use Rattle.std.specs.Option.{option_map};
ghost use Rattle.gimli_base.specs.declared.error.Error.{Error as SpecError};
ghost use Rattle.gimli_base.specs.declared.error.Error.TheVariants.{OutOfMemory};
ghost use Rattle.gimli_base.specs.Offset.{answer_of};
ghost use Rattle.gimli_base.specs.Reading.{UnlessMemory};
ghost use Rattle.gimli_units.specs.Entry.{entry_of, is_null};
ghost use Rattle.gimli_units.specs.CursorPlace.{first_of_rows};
ghost use Rattle.gimli_units.specs.CursorModel.{CursorView, rows_of, rows_from};
ghost use Rattle.gimli_units.specs.CursorModel.{followed_to, IsHonestFor, IsRefused, IsOver};
ghost use Rattle.gimli_units.specs.TreePlace.{children_of, to_root, to_next, found_in};
ghost use Rattle.gimli_units.specs.TreeMoves.{TreeView, node_at, list_of, on_node, in_lists};
ghost use Rattle.gimli_units.specs.TreeMoves.{before_root, tree_from, root_answer, next_answer, IsTree};
ghost use Rattle.gimli_units.specs.TreeMoves.{IsNoRoot, HasBegun, IsRefusedWithin, HasGoneOn};
ghost use Rattle.gimli_units.specs.TreeMoves.{IsInside, IsChild};
ghost use Rattle.gimli_units.specs.UnitHeld.{unit_view};

use crate::{DebuggingInformationEntry, EntriesCursor, EntriesRaw, UnitHeader, UnitOffset};
use gimli_base::{Abbreviations, Error, Reader, ReaderOffset, Result};
use std::alloc::Allocator;
use std::marker::Model;

/// The entries of a unit as a tree: an entry with children has those below it that come before the
/// null that closes their list (DWARF 5, 2.3).
///
/// Nodes and lists of children lend the one tree for writing, so that one path from the root is
/// walked at a time. A walk that goes down by nested calls takes as much of the machine's stack as
/// the entries are deep.
#[derive(Drop)]
#[derive_where(Debug)]
pub struct EntriesTree<'abbrev, R: Reader, A: Allocator> {
    // where the entries of the tree begin
    start: EntriesRaw<'abbrev, R, A>,
    // stands on the entry that was read last
    cursor: EntriesCursor<'abbrev, R, A>,
}

impl<'abbrev, R: Reader, A: Allocator> Model for EntriesTree<'abbrev, R, A> {
    ghost Value = { TreeView };

    ghost view = { λ t. record { start = t.start; cursor = t.cursor } };

    ghost invariant = { λ t. IsTree (record { start = t.start; cursor = t.cursor }) };
}

impl<R: Reader> UnitHeader<R> {
    ghost use Rattle.gimli_units.specs.Unit.{UnitView};

    /// The entries from an offset in the unit on as a tree, or those from the first; what stands
    /// there is the root, at depth 0. Sibling references are followed. Refusal:
    /// `OffsetOutOfBounds`, also without an offset where the unit has no bytes of entries.
    pub fn entries_tree<'abbrev, A: Allocator + Copy>(
        &self,
        alloc: A,
        abbreviations: &'abbrev Abbreviations<A>,
        offset: Option<UnitOffset<R::Offset>>,
    ) -> Result<EntriesTree<'abbrev, R, A>>
        ensures { result ≡ tree_from (unit_view self.now) abbreviations.now
            (option_map (λ o. R.Offset.number o.0) offset) }
    {
        let start = self.entries_raw(abbreviations, offset)?;
        Ok(EntriesTree::new(alloc, start))
    }
}

impl<'abbrev, R: Reader, A: Allocator + Copy> EntriesTree<'abbrev, R, A> {
    // A tree of the entries that `start` reads, of which the first is the root. Nothing is read
    // yet.
    fn new(alloc: A, start: EntriesRaw<'abbrev, R, A>) -> Self
        requires some { 0 < length start.rest.bytes }
        requires small { length start.rest.bytes < 2 ^ 63 }
        requires fits { length start.rest.bytes ≤ start.end }
        requires depth { start.depth ≡ pos 0 }
        ensures { result ≡ before_root start.entry }
    {
        let cursor = EntriesCursor::new(alloc, start.copy(), true);
        EntriesTree { start, cursor }
    }

    /// A tree that stands where this one stands. Refusal: `OutOfMemory`, only where the entry that
    /// was read last has attributes.
    pub fn try_clone(&self, alloc: A) -> Result<Self>
        ensures value { IfOk result (λ t. t ≡ self.now) }
        ensures refusal { IfErr result (λ e. e ≡ OutOfMemory) }
        ensures without_memory { self.now.cursor.entry.attributes ≡ [] → IsOk result }
    {
        Ok(EntriesTree {
            start: self.start.copy(),
            cursor: self.cursor.try_clone(alloc)?,
        })
    }
}

impl<'abbrev, R: Reader, A: Allocator> EntriesTree<'abbrev, R, A> {
    /// How many entries were read since the root was asked for last, nulls, passed and refused ones
    /// too; not those that a reference leads past.
    #[inline]
    pub fn reads(&self) -> usize
        ensures count { result ≡ self.now.cursor.reads }
        ensures few { result ≤ length self.now.start.rest.bytes }
    {
        self.cursor.reads()
    }

    /// The entry that was read last, a null where there is none.
    #[inline]
    pub fn entry(&self) -> &DebuggingInformationEntry<R, A>
        ensures entry { entry_of R.view R.Offset.number result.now ≡ self.now.cursor.entry }
        ensures offset { R.Offset.number result.now.offset.0 ≡ self.now.cursor.offset }
        ensures depth { result.now.depth ≡ self.now.cursor.depth }
    {
        self.cursor.last()
    }

    /// The depth of what is read next: that of the children of the entry that was read last, where
    /// it has any.
    #[inline]
    pub fn next_depth(&self) -> isize
        ensures depth { result ≡ self.now.cursor.raw.depth }
        ensures children { is_null self.now.cursor.entry ≡ false
            → list_of self.now.cursor.entry.has_children result ≡ children_of (node_at self.now) }
        ensures shallow { unsigned_abs result < 2 ^ 63 }
        ensures tree { IsTree self.now }
    {
        self.cursor.next_depth()
    }

    /// Goes to the root, as `root` does, without lending the tree.
    ///
    /// Refusals: those of `EntriesRaw::read_entry`, with `OutOfMemory` only where the declaration
    /// has attributes, and `NoEntryAtGivenOffset` at a null. `entry` is then a null with the offset
    /// and the depth of what was refused, and the tree is ready for another root.
    pub fn go_to_root(&mut self) -> Result<()>
        ensures begun { HasBegun R.Offset.limit self.old result self.new }
        ensures tree { IsTree self.new }
    {
        let start = self.start.copy();
        self.cursor.restart(start);
        self.cursor.read_next()?;
        let entry = self.cursor.last();
        if entry.is_null() {
            return Err(Error::NoEntryAtGivenOffset(entry.offset().0.into_u64()));
        }
        Ok(())
    }

    /// Goes to the next entry of a depth, as `EntriesTreeIter::next` does, without lending the
    /// tree; entries of other depths are passed, shallower ones too. The depth is not the least of
    /// its type. Answers false at a null of that depth, and at the end of the bytes; `entry` is
    /// then a null.
    ///
    /// Refusals: those of `EntriesRaw::read_entry`, with `OutOfMemory` only where the declaration
    /// has attributes. Nothing is then left to read until the root is asked for, and `entry` is a
    /// null with the offset and the depth of what was refused.
    pub fn go_to_next(&mut self, depth: isize) -> Result<bool>
        requires { unsigned_abs depth < 2 ^ 63 }
        ensures gone_on { HasGoneOn R.Offset.limit depth self.old result self.new }
        ensures tree { IsTree self.new }
    {
        let offset = self.cursor.offset();
        let found = self.cursor.seek(offset, depth);
        let _ = self.cursor.last();
        found
    }
}

/// A node of a tree: the entry that was read last. Whoever holds it may take its children's list,
/// or let it go.
#[derive(Drop)]
#[derive_where(Debug)]
pub struct EntriesTreeNode<'abbrev, 'tree, R: Reader, A: Allocator> {
    // the tree, which stands on the node's entry
    tree: &'tree mut EntriesTree<'abbrev, R, A>,
}

/// The children of a node of a tree, one after the other. Whatever was left unread below one does
/// not change which comes next, where the sibling references that are followed are honest.
#[derive(Drop)]
#[derive_where(Debug)]
pub struct EntriesTreeIter<'abbrev, 'tree, R: Reader, A: Allocator> {
    // the tree, which stands on the entry that was read last
    tree: &'tree mut EntriesTree<'abbrev, R, A>,
    // the depth of the children
    depth: isize,
    // whether the list is open: it is closed after its last child, and from the first where no
    // children follow
    is_open: bool,
}

impl<'abbrev, R: Reader, A: Allocator> EntriesTree<'abbrev, R, A> {
    /// Goes to the root, the first entry, at depth 0; whatever was walked before, the tree begins
    /// anew.
    ///
    /// Refusals: those of `EntriesRaw::read_entry`, and `NoEntryAtGivenOffset` at a null. The tree
    /// is then ready for another `root`.
    pub fn root<'me>(&'me mut self) -> Result<EntriesTreeNode<'abbrev, 'me, R, A>>
        ensures same_reference { IfOk result
            (λ node. node.tree.ghost_name ≡ self.entry.ghost_name) }
        ensures answers { UnlessMemory result
            (root_answer (answer_of (λ node. node.tree.now) result)
            ≡ (to_root self.old.start.end (rows_of R.Offset.limit self.old.start)).answer) }
        ensures place { IfOk result
            (λ node. on_node R.Offset.limit node.tree.now []
            ≡ (to_root self.old.start.end (rows_of R.Offset.limit self.old.start)).place) }
        ensures begun { IfOk result
            (λ node. HasBegun R.Offset.limit self.old (Ok tt) node.tree.now) }
        ensures refused { IfErr result (λ e. IsNoRoot R.Offset.limit self.old.start e) }
        ensures reads { IfOk result (λ node. node.tree.now.cursor.reads ≡ 1) }
    {
        self.go_to_root()?;
        Ok(EntriesTreeNode { tree: self })
    }
}

impl<'abbrev, 'tree, R: Reader, A: Allocator> EntriesTreeNode<'abbrev, 'tree, R, A> {
    /// The entry.
    #[inline]
    pub fn entry(&self) -> &DebuggingInformationEntry<R, A>
        ensures entry { entry_of R.view R.Offset.number result.now
            ≡ self.now.tree.now.cursor.entry }
        ensures offset { R.Offset.number result.now.offset.0 ≡ self.now.tree.now.cursor.offset }
        ensures depth { result.now.depth ≡ self.now.tree.now.cursor.depth }
    {
        self.tree.entry()
    }

    /// How many entries were read since the root was asked for last, as `EntriesTree::reads`.
    #[inline]
    pub fn reads(&self) -> usize
        ensures count { result ≡ self.now.tree.now.cursor.reads }
        ensures few { result ≤ length self.now.tree.now.start.rest.bytes }
    {
        self.tree.reads()
    }

    /// The list of the entry's children, before the first; nothing is read. Where no children
    /// follow, the list is closed at once.
    pub fn children(self) -> EntriesTreeIter<'abbrev, 'tree, R, A>
        ensures same_reference { result.tree.ghost_name ≡ self.entry.tree.ghost_name }
        ensures same_tree { result.tree.now ≡ self.entry.tree.now }
        ensures opens { result.is_open ≡ self.entry.tree.now.cursor.entry.has_children }
        ensures children { is_null self.entry.tree.now.cursor.entry ≡ false
            → list_of result.is_open result.depth ≡ children_of (node_at self.entry.tree.now) }
        ensures inside { is_null self.entry.tree.now.cursor.entry ≡ false → result.is_open ≡ true
            → IsInside result.depth result.tree.now }
        ensures shallow { unsigned_abs result.depth < 2 ^ 63 }
        ensures tree { IsTree result.tree.now }
    {
        let is_open = self.tree.entry().has_children();
        let depth = self.tree.next_depth();
        EntriesTreeIter {
            tree: self.tree,
            depth,
            is_open,
        }
    }
}

impl<'abbrev, 'tree, R: Reader, A: Allocator> EntriesTreeIter<'abbrev, 'tree, R, A> {
    /// How many entries were read since the root was asked for last, as `EntriesTree::reads`.
    #[inline]
    pub fn reads(&self) -> usize
        ensures count { result ≡ self.now.tree.now.cursor.reads }
        ensures few { result ≤ length self.now.tree.now.start.rest.bytes }
    {
        let tree = &*self.tree;
        tree.reads()
    }

    /// Goes to the next child, as `next` does, without lending it: `entry` and `node` are then the
    /// child's. Answers false at the null that closes the list, at the end of the bytes, and always
    /// when the list is closed.
    ///
    /// Refusals: those of `EntriesRaw::read_entry`. Every list of the tree is then at its end,
    /// until `root` is asked for.
    pub fn advance(&mut self) -> Result<bool>
        ensures same_reference { self.new.tree.ghost_name ≡ self.old.tree.ghost_name }
        ensures gone_on { self.old.is_open ≡ true → unsigned_abs self.old.depth < 2 ^ 63
            → HasGoneOn R.Offset.limit self.old.depth self.old.tree.now result self.new.tree.now }
        ensures moved { (result ≡ Ok false → ⊥)
            → (self.old.is_open ≡ true)
            × HasGoneOn R.Offset.limit self.old.depth self.old.tree.now result self.new.tree.now }
        ensures depth { self.new.depth ≡ self.old.depth }
        ensures opened { result ≡ Ok true → self.new.is_open ≡ true }
        ensures closes { result ≡ Ok false → self.new.is_open ≡ false }
        ensures stays { OnErr result (self.new.is_open ≡ true) }
        ensures closed { self.old.is_open ≡ false
            → (result ≡ Ok false) × (self.new.tree.now ≡ self.old.tree.now) }
        ensures over { IsOver self.old.tree.now.cursor → result ≡ Ok false }
    {
        if !self.is_open {
            return Ok(false);
        }
        if self.depth == isize::MIN {
            self.is_open = false;
            return Ok(false);
        }
        let found = self.tree.go_to_next(self.depth)?;
        if !found {
            self.is_open = false;
            return Ok(false);
        }
        Ok(true)
    }

    /// The entry that was read last: after an `advance` that answered true, the child.
    pub fn entry(&self) -> &DebuggingInformationEntry<R, A>
        ensures entry { entry_of R.view R.Offset.number result.now
            ≡ self.now.tree.now.cursor.entry }
        ensures offset { R.Offset.number result.now.offset.0 ≡ self.now.tree.now.cursor.offset }
        ensures depth { result.now.depth ≡ self.now.tree.now.cursor.depth }
    {
        let tree = &*self.tree;
        tree.entry()
    }

    /// The node that the tree stands on, whose entry is the one that was read last: after an
    /// `advance` that answered true, the child.
    pub fn node<'me>(&'me mut self) -> EntriesTreeNode<'abbrev, 'me, R, A>
        ensures tree { result.tree.now ≡ self.old.tree.now }
    {
        EntriesTreeNode {
            tree: &mut *self.tree,
        }
    }

    /// The next child: the next entry of the list's depth, before the null that closes the list.
    /// Answers none there, at the end of the bytes, and always when the list is closed. A list whose
    /// depth is the least number of its type has no child.
    ///
    /// An entry whose `DW_AT_sibling` leads on in the unit is left for where it leads, with what is
    /// below it unread. So the children are those of plain walking where these references are
    /// honest; where they are not, a child is still what decoding at its offset gives, with the
    /// list's depth.
    ///
    /// Refusals: those of `EntriesRaw::read_entry`. Every list of the tree is then at its end,
    /// until `root` is asked for.
    pub fn next<'me>(&'me mut self) -> Result<Option<EntriesTreeNode<'abbrev, 'me, R, A>>>
        ensures answers { let tree = self.old.tree.now in
            let lists = list_of self.old.is_open self.old.depth ∷ [] in
            unsigned_abs self.old.depth < 2 ^ 63
            → IsHonestFor R.Offset.limit self.old.depth tree.cursor
            → UnlessMemory result
            (next_answer (answer_of (option_map (λ node. node.tree.now)) result)
            ≡ (to_next tree.start.end (in_lists R.Offset.limit tree lists)).answer) }
        ensures child { let is_child =
            IsChild R.Offset.limit self.old.is_open self.old.depth self.old.tree.now in
            IfOk result (λ o. IfSome o (λ node. is_child node.tree.now)) }
        ensures refused { let cursor = self.old.tree.now.cursor in
            IfErr result
            (λ e. (last : CursorView) × IsRefused R.Offset.limit cursor e last
            × IsRefusedWithin R.Offset.limit self.old.depth cursor last) }
        ensures taken { let cursor = self.old.tree.now.cursor in let depth = self.old.depth in
            unsigned_abs depth < 2 ^ 63 → self.old.is_open ≡ true → cursor.depth ≡ depth
            → (t : ℕ) → followed_to cursor ≡ Some t
            → UnlessMemory result
            (next_answer (answer_of (option_map (λ node. node.tree.now)) result)
            ≡ (found_in depth []
            (first_of_rows cursor.raw.end depth cursor.offset
            (rows_from R.Offset.limit cursor.raw t depth))).answer) }
        ensures as_advance { let gone_on =
            HasGoneOn R.Offset.limit self.old.depth self.old.tree.now in
            self.old.is_open ≡ true → unsigned_abs self.old.depth < 2 ^ 63
            → (last : TreeView) × gone_on (answer_of is_some result) last }
        ensures closed { self.old.is_open ≡ false → result ≡ Ok None }
        ensures over { IsOver self.old.tree.now.cursor → result ≡ Ok None }
    {
        if !self.advance()? {
            return Ok(None);
        }
        Ok(Some(self.node()))
    }
}
