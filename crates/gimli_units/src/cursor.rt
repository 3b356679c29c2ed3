//! Cursors over the entries of a unit.

ghost use Rattle.std.specs.Prelude.{◌≡◌, ◌+◌, ◌-◌, ◌<◌, ◌≤◌, ◌^◌, length, unsigned_abs, Ok, Err};
ghost use Rattle.std.specs.Prelude.{Some, false, true, not, IfOk, IfErr, IfSome, IsOk, []};
ghost use Rattle.std.specs.Prelude.{◌&&◌, int_le};
ghost use Rattle.std.specs.Option.{option_map};
ghost use Rattle.gimli_base.specs.declared.error.Error.TheVariants.{OutOfMemory};
ghost use Rattle.gimli_units.specs.Entry.{entry_of, is_null, null_entry};
ghost use Rattle.gimli_units.specs.RawPlace.{next_offset_of};
ghost use Rattle.gimli_units.specs.CursorPlace.{some_of};
ghost use Rattle.gimli_units.specs.CursorModel.{CursorView, cursor_held, Goes, IsSound};
ghost use Rattle.gimli_units.specs.CursorStart.{before_first};
ghost use Rattle.gimli_units.specs.CursorContracts.{HasReadOn, HasWalked, HasWalkedOver};
ghost use Rattle.gimli_units.specs.SearchSteps.{HasRead, HasSought, leave_entry, reference_for};
ghost use Rattle.gimli_units.specs.SearchSteps.{HasPassed, HasPassedTo, IsRefusedAfter};
ghost use Rattle.gimli_units.specs.SearchSteps.{without_entry, passed_over};

use crate::{DebuggingInformationEntry, EntriesRaw, UnitOffset};
use gimli_base::{Reader, ReaderOffset, Result};
use std::alloc::Allocator;
use std::marker::Model;

/// A cursor over the entries of a unit, which lie one after the other as a tree is written in
/// depth-first order (DWARF 5, 2.3).
///
/// `next_entry` answers whether there was an entry or a null, and the other steps lend the entry.
/// After a refusal the walk is over.
#[derive(Drop)]
#[derive_where(Debug)]
pub struct EntriesCursor<'abbrev, R: Reader, A: Allocator> {
    raw: EntriesRaw<'abbrev, R, A>,
    // the entry that was read last, a null where there is no current one
    entry: DebuggingInformationEntry<R, A>,
    follows: bool,
    reads: usize,
}

impl<'abbrev, R: Reader, A: Allocator> Model for EntriesCursor<'abbrev, R, A> {
    ghost Value = { CursorView };

    ghost view = { λ c. cursor_held R.view R.Offset.number c.raw c.entry c.follows c.reads };

    ghost invariant = { λ c.
        IsSound (cursor_held R.view R.Offset.number c.raw c.entry c.follows c.reads) };
}

impl<'abbrev, R: Reader, A: Allocator + Copy> EntriesCursor<'abbrev, R, A> {
    /// A cursor before the first entry that `raw` reads. `follows`: it follows sibling references,
    /// or else reads every entry.
    pub(crate) fn new(alloc: A, raw: EntriesRaw<'abbrev, R, A>, follows: bool) -> Self
        requires fits { length raw.rest.bytes ≤ raw.end }
        requires shallow { unsigned_abs raw.depth + length raw.rest.bytes < 2 ^ 63 }
        ensures { result ≡ before_first follows raw.entry }
    {
        EntriesCursor {
            raw,
            entry: DebuggingInformationEntry::null(alloc),
            follows,
            reads: 0,
        }
    }

    /// A cursor that stands where this one stands. Refusal: `OutOfMemory`, only where there is a
    /// current entry with attributes.
    pub fn try_clone(&self, alloc: A) -> Result<Self>
        ensures value { IfOk result (λ c. c ≡ self.now) }
        ensures refusal { IfErr result (λ e. e ≡ OutOfMemory) }
        ensures without_memory { self.now.entry.attributes ≡ [] → IsOk result }
    {
        Ok(EntriesCursor {
            raw: self.raw.copy(),
            entry: self.entry.try_clone(alloc)?,
            follows: self.follows,
            reads: self.reads,
        })
    }
}

impl<'abbrev, R: Reader, A: Allocator> EntriesCursor<'abbrev, R, A> {
    /// The entry that the cursor stands on, if it is on one and not on a null.
    #[inline]
    pub fn current(&self) -> Option<&DebuggingInformationEntry<R, A>>
        ensures entry { option_map (λ e. entry_of R.view R.Offset.number e.now) result
            ≡ some_of self.now.entry }
        ensures offset { IfSome result (λ e. R.Offset.number e.now.offset.0 ≡ self.now.offset) }
        ensures depth { IfSome result (λ e. e.now.depth ≡ self.now.depth) }
    {
        if self.entry.is_null() {
            None
        } else {
            Some(&self.entry)
        }
    }

    /// The offset of the entry or the null that was read last, or of what was refused; 0 before the
    /// first step. A sibling that was sought up to the end of the bytes leaves the offset of the
    /// entry from which it was sought.
    #[inline]
    pub fn offset(&self) -> UnitOffset<R::Offset>
        ensures { R.Offset.number result.0 ≡ self.now.offset }
    {
        self.entry.offset
    }

    /// The depth of what `offset` names; 0 before the first step.
    #[inline]
    pub fn depth(&self) -> isize
        ensures { result ≡ self.now.depth }
    {
        self.entry.depth
    }

    /// The offset in the unit of what is read next, or of the end where nothing is left.
    #[inline]
    pub fn next_offset(&self) -> UnitOffset<R::Offset>
        ensures { R.Offset.number result.0 ≡ next_offset_of self.now.raw }
    {
        self.raw.next_offset()
    }

    /// The depth of what is read next: after a current entry with children, one more than its own.
    #[inline]
    pub fn next_depth(&self) -> isize
        ensures { result ≡ self.now.raw.depth }
    {
        self.raw.next_depth()
    }

    /// How many entries were read since the first step, nulls, passed and refused ones too; not
    /// those that a reference leads past.
    #[inline]
    pub fn reads(&self) -> usize
        ensures { result ≡ self.now.reads }
    {
        self.reads
    }

    /// Whether a search for a sibling follows sibling references.
    #[inline]
    pub fn follows(&self) -> bool
        ensures { result ≡ self.now.follows }
    {
        self.follows
    }

    /// The entry that was read last; a null where there is no current one. Its offset and depth are
    /// those of `offset` and `depth`.
    #[inline]
    pub(crate) fn last(&self) -> &DebuggingInformationEntry<R, A>
        ensures entry { entry_of R.view R.Offset.number result.now ≡ self.now.entry }
        ensures offset { R.Offset.number result.now.offset.0 ≡ self.now.offset }
        ensures depth { result.now.depth ≡ self.now.depth }
        ensures sound { IsSound self.now }
    {
        &self.entry
    }

    /// Begins anew where `raw` stands, before the first step: there is no current entry, and
    /// offset, depth and reads are 0. Whether references are followed stays.
    pub(crate) fn restart(&mut self, raw: EntriesRaw<'abbrev, R, A>)
        requires fits { length raw.rest.bytes ≤ raw.end }
        requires shallow { unsigned_abs raw.depth + length raw.rest.bytes < 2 ^ 63 }
        ensures { self.new ≡ before_first self.old.follows raw.entry }
    {
        let entry = &mut self.entry;
        entry.set_null();
        entry.offset = UnitOffset(R::Offset::from_u8(0));
        entry.depth = 0;
        self.raw = raw;
        self.reads = 0;
    }

    // Whether the cursor stands on an entry, and not on a null.
    #[inline(always)]
    fn is_on_entry(&self) -> bool
        ensures { result ≡ not (is_null self.now.entry) }
    {
        !self.entry.is_null()
    }

    /// Reads the next entry or null, in place of the one that was read last, and answers true. At
    /// the end of the bytes it answers false: the last one is then a null, and offset and depth
    /// stay. Refusals: those of `EntriesRaw::read_entry`; the last one is then a null, with the
    /// offset and the depth of what was refused, and nothing is left to read.
    #[inline(always)]
    pub(crate) fn read_next(&mut self) -> Result<bool>
        ensures read { HasRead R.Offset.limit self.old result self.new }
        ensures sound { IsSound self.old }
    {
        if self.raw.is_empty() {
            self.entry.set_null();
            return Ok(false);
        }
        self.reads += 1;
        match self.raw.read_entry(&mut self.entry) {
            Ok(_) => Ok(true),
            Err(error) => {
                self.raw.empty();
                Err(error)
            }
        }
    }

    // Where the sibling reference of the current entry leads, if references are followed and the
    // entry is at least as deep as `sought`, the depth of a search; else none. Whether the reader
    // can go there is not looked at.
    fn reference(&self, sought: isize) -> Option<UnitOffset<R::Offset>>
        ensures { option_map (λ o. R.Offset.number o.0) result ≡ reference_for sought self.now }
    {
        if self.entry.depth < sought {
            return None;
        }
        if !self.follows {
            return None;
        }
        self.entry.sibling()
    }

    // Leaves the current entry, in a search for the depth `sought`: for where its `reference`
    // leads, at the entry's depth, if the reader can go there (`EntriesRaw::go_to`). Else the
    // reader stays. Offset and depth stay, without a current entry.
    fn follow(&mut self, sought: isize)
        ensures { self.new ≡ leave_entry sought self.old }
    {
        match self.reference(sought) {
            Some(target) => {
                self.raw.go_to(target, self.entry.depth);
                self.entry.set_null();
            }
            None => self.entry.set_null(),
        }
    }

    /// Reads the next entry or null, and answers true; no reference is followed. At a null there is
    /// no current entry, but `offset` and `depth` are the null's. Answers false at the end, and
    /// then there is no current entry.
    ///
    /// Refusals: those of `EntriesRaw::read_entry`; the walk is then over, without a current entry,
    /// at the offset and the depth of what was refused.
    #[inline(always)]
    pub fn next_entry(&mut self) -> Result<bool>
        ensures { HasReadOn R.Offset.limit self.old result self.new }
    {
        self.read_next()
    }

    /// Reads on to the next entry that is no null, of whatever depth; no reference is followed.
    /// Answers whether there is one; without one, at the end, there is no current entry. Refusals:
    /// those of `next_entry`.
    pub(crate) fn advance_dfs(&mut self) -> Result<bool>
        ensures { HasWalked R.Offset.limit self.old result self.new }
    {
        let _ = &self.raw;
        'walk: while self.read_next()? {
            if self.is_on_entry() {
                return Ok(true);
            }
        }
        Ok(false)
    }

    /// Goes to the next sibling of the current entry, as `next_sibling` does. True: it is the
    /// current entry. False: there is none, and no current entry; without a current entry before,
    /// nothing moves. Refusals: those of `next_entry`.
    pub(crate) fn advance_sibling(&mut self) -> Result<bool>
        ensures { HasWalkedOver R.Offset.limit self.old result self.new }
    {
        if !self.is_on_entry() {
            return Ok(false);
        }
        let offset = self.entry.offset;
        let depth = self.entry.depth;
        self.seek(offset, depth)
    }

    // Sets what `offset` and `depth` answer, where there is no current entry. The reader stays.
    fn set_pair(&mut self, offset: UnitOffset<R::Offset>, depth: isize)
        requires shallow { unsigned_abs depth + length self.old.raw.rest.bytes < 2 ^ 63 }
        requires none { is_null self.old.entry ≡ true }
        ensures { self.new ≡ record self.old { offset = R.Offset.number offset.0; depth = depth } }
    {
        self.entry.offset = offset;
        self.entry.depth = depth;
    }

    // Puts the cursor where `raw` stands, without a current entry: `offset` and `depth` are those
    // of what was passed or refused last, and `reads` counts all that were read.
    #[inline(always)]
    fn set_place(
        &mut self,
        raw: EntriesRaw<'abbrev, R, A>,
        offset: UnitOffset<R::Offset>,
        depth: isize,
        reads: usize,
    )
        requires { IsSound
            (without_entry raw (R.Offset.number offset.0) depth self.old.follows reads) }
        ensures { self.new
            ≡ without_entry raw.entry (R.Offset.number offset.0) depth self.old.follows reads }
    {
        let entry = &mut self.entry;
        entry.set_null();
        entry.offset = offset;
        entry.depth = depth;
        self.raw = raw;
        self.reads = reads;
    }

    // Passes entries and nulls up to the first of the depth `sought`, which is read next then, or
    // to the end of the bytes. The sibling references of entries at least so deep are followed,
    // where `follows` is set. Refusals: those of `EntriesRaw::read_head`; nothing is then left to
    // read. Offset and depth are those of what was passed last, or refused.
    //
    // What the cursor knows of its place is kept in registers, and written when all are passed.
    #[inline(always)]
    fn pass_to(&mut self, sought: isize) -> Result<()>
        requires sound { IsSound self.old }
        requires none { self.old.entry ≡ null_entry }
        ensures passed { IfOk result (λ _. HasPassedTo R.Offset.limit sought self.old self.new) }
        ensures refused { IfErr result (λ e.
            IsRefusedAfter R.Offset.limit sought self.old e self.new) }
    {
        let follows = self.follows;
        let mut raw = self.raw.copy();
        let mut offset = self.entry.offset;
        let mut depth = self.entry.depth;
        let mut reads = self.reads;
        'passing: while raw.is_at_other_depth(sought) {
            offset = raw.next_offset();
            depth = raw.next_depth();
            reads += 1;
            match pass_on(&mut raw, follows, sought) {
                Ok(()) => {}
                Err(refusal) => {
                    self.set_place(raw, offset, depth, reads);
                    return Err(refusal);
                }
            }
        }
        self.set_place(raw, offset, depth, reads);
        Ok(())
    }

    /// Leaves the current entry and reads on to the first entry or null of a depth, past shallower
    /// ones too. Answers true at an entry, and false at a null. At the end of the input it answers
    /// false too, and `self.offset()` and `self.depth()` become `offset` and that depth. Where
    /// `follows` is set, the references of entries at least so deep are followed. Refusals: those
    /// of `EntriesRaw::read_entry`; nothing is then left to read.
    ///
    /// The attributes of an entry of another depth are passed, but for the reference: only an entry
    /// that may be answered is read as a whole, and memory is asked for it alone.
    pub(crate) fn seek(&mut self, offset: UnitOffset<R::Offset>, depth: isize) -> Result<bool>
        requires sound { IsSound self.old }
        requires shallow { unsigned_abs depth < 2 ^ 63 }
        ensures { HasSought R.Offset.limit depth (R.Offset.number offset.0) self.old result
            self.new }
    {
        self.follow(depth);
        if self.raw.is_at_other_depth(depth) {
            self.pass_to(depth)?;
        }
        if self.read_next()? {
            return Ok(self.is_on_entry());
        }
        self.set_pair(offset, depth);
        Ok(false)
    }
}

// Whether a sibling reference of an entry of this depth is followed in a search for the depth
// `sought`: references are followed, and the entry is at least so deep.
#[inline(always)]
fn is_followed(follows: bool, sought: isize, depth: isize) -> bool
    ensures { result ≡ (follows && int_le sought depth) }
{
    follows && sought <= depth
}

// Passes the next entry or null, without keeping its attributes, and goes to where its sibling
// reference leads, at the entry's depth, if that is followed (`is_followed`) and the reader can go
// there. There is something to read. Refusals: those of `EntriesRaw::read_head`; nothing is then
// left to read. What a cursor knows beside `raw` is its caller's.
#[inline(always)]
fn pass_on<R: Reader, A: Allocator>(
    raw: &mut EntriesRaw<R, A>,
    follows: bool,
    sought: isize,
) -> Result<()>
    requires some { length raw.old.rest.bytes ≡ 0 → ⊥ }
    requires shallow { unsigned_abs raw.old.depth + length raw.old.rest.bytes < 2 ^ 63 }
    ensures { (c : CursorView) → let old = record c { raw = raw.old; follows = follows } in
        HasPassed R.Offset.limit sought old result (passed_over old raw.new) }
{
    let depth = raw.next_depth();
    match raw.read_head_and_sibling() {
        Ok((_, Some(target))) => {
            if is_followed(follows, sought, depth) {
                raw.go_to(target, depth);
            }
            Ok(())
        }
        Ok((_, None)) => Ok(()),
        Err(error) => {
            raw.empty();
            Err(error)
        }
    }
}
