//! The steps of a cursor that lend their entry.

ghost use Rattle.std.specs.Prelude.{[]};
ghost use Rattle.std.specs.Borrow.{sem};
ghost use mir.Syntax.{named};
ghost use Rattle.gimli_units.specs.contracts.cursor.EntriesCursor.{the_row};
ghost use Rattle.gimli_units.specs.CursorContracts.{HasWalked, HasWalkedOver, LendsEntry};

use crate::{DebuggingInformationEntry, EntriesCursor};
use gimli_base::{Reader, Result};
use std::alloc::Allocator;

impl<'abbrev, R: Reader, A: Allocator> EntriesCursor<'abbrev, R, A> {
    /// Reads on to the next entry that is no null, of whatever depth, and lends it. No reference is
    /// followed. Answers `None` at the end, and then there is no current entry.
    ///
    /// Refusals: those of `next_entry`.
    pub fn next_dfs(&mut self) -> Result<Option<&DebuggingInformationEntry<R, A>>>
        // Once the loan ends the cursor is as `HasWalked` says, and what was lent was its current
        // entry.
        ensures* leaves { let row = the_row (record { mir = named 0; lft = [] }) R.row A.row
            R.Endian.row R.Offset.row R.Endian.Kept.row (record { view = R.view })
            (record { debug_output = R.debug_output })
            (record { big = R.Endian.big; to_kept = R.Endian.to_kept; order = R.Endian.order })
            (record { debug_output = R.Endian.debug_output }) (record { eq = R.Endian.eq })
            (record { number = R.Offset.number; limit = R.Offset.limit })
            (record { debug_output = R.Offset.debug_output }) (record { eq = R.Offset.eq })
            (record { cmp = R.Offset.cmp }) (record { partial_cmp = R.Offset.partial_cmp })
            A.Allocator in
            let step = HasWalked R.Offset.limit in
            sem 𝓛 (LendsEntry row (λ c. c) R.view R.Offset.number step self.entry result) }
    {
        self.advance_dfs()?;
        Ok(self.current())
    }

    /// Goes to the next sibling of the current entry, and lends it: the next entry of its depth,
    /// before the null that closes their list. Answers `None` where there is none, and then there
    /// is no current entry; at a null that closes the list, offset and depth are the null's, and at
    /// the end of the input the cursor is set back to the entry's offset and depth. Without a
    /// current entry it answers `None` and moves nothing.
    ///
    /// Where the cursor follows references, an entry whose `DW_AT_sibling` leads on in the unit is
    /// left for where it leads, with its children unread. So it answers as plain walking does where
    /// those references are honest. Whatever they are, an answered entry is what decoding at the
    /// cursor's offset gives, which need not be where a row of the unit begins.
    ///
    /// Refusals: those of `next_entry`.
    pub fn next_sibling(&mut self) -> Result<Option<&DebuggingInformationEntry<R, A>>>
        // Once the loan ends the cursor is as `HasWalkedOver` says, and what was lent was its
        // current entry.
        ensures* leaves { let row = the_row (record { mir = named 0; lft = [] }) R.row A.row
            R.Endian.row R.Offset.row R.Endian.Kept.row (record { view = R.view })
            (record { debug_output = R.debug_output })
            (record { big = R.Endian.big; to_kept = R.Endian.to_kept; order = R.Endian.order })
            (record { debug_output = R.Endian.debug_output }) (record { eq = R.Endian.eq })
            (record { number = R.Offset.number; limit = R.Offset.limit })
            (record { debug_output = R.Offset.debug_output }) (record { eq = R.Offset.eq })
            (record { cmp = R.Offset.cmp }) (record { partial_cmp = R.Offset.partial_cmp })
            A.Allocator in
            let step = HasWalkedOver R.Offset.limit in
            sem 𝓛 (LendsEntry row (λ c. c) R.view R.Offset.number step self.entry result) }
    {
        self.advance_sibling()?;
        Ok(self.current())
    }
}
