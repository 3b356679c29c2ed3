//! The ranges of a list, which know their base address.

ghost use Rattle.std.specs.Prelude.{◌≡◌, ◌<◌, length, unwrap_or, IsTrue, MatchResult, IfOk, IfSome};
ghost use Rattle.std.specs.Prelude.{IfNone, OnSome};
ghost use Rattle.std.specs.Option.{option_map};
ghost use Rattle.std.specs.Iterator.{at_most};
ghost use Rattle.gimli_base.specs.Address.{min_tombstone, table_address};
ghost use Rattle.gimli_base.specs.Offset.{answer_of};
ghost use Rattle.gimli_base.specs.Reading.{is_size};
ghost use Rattle.gimli_lists.specs.Places.{next_raw, raw_list_ahead, ListPlace, entry_conversion};
ghost use Rattle.gimli_lists.specs.Places.{InList};
ghost use Rattle.gimli_lists.specs.Places.{IsAfterEntries, IsSpent, read_from, IsNext};
ghost use Rattle.gimli_lists.specs.RawList.{IsFirstOf};
ghost use Rattle.gimli_lists.specs.RangeEntry.{range_entry_of, range_grammar};
ghost use Rattle.gimli_lists.specs.RangeReads.{range_grammar-takes};
ghost use Rattle.gimli_lists.specs.Ranges.{resolved_of, ranges_ahead};
ghost use Rattle.gimli_lists.specs.Resolved.{base_given, resolve, answer_then};
ghost use Rattle.gimli_base.specs.Reading.{transpose};
ghost use Rattle.gimli_base.specs.Sections.{addr_content};

use crate::next_item::{EntryWalk, next_item};
use crate::rnglists::Range;
use crate::rnglists::entry::{RawRngListEntry, RawRngListIter};
use gimli_base::{DebugAddr, DebugAddrBase, Reader, ReaderAddress, Result, Section};
use std::marker::Model;

/// The ranges of a list, in order.
#[derive(Debug, Drop)]
pub struct RngListIter<R: Reader> {
    raw: RawRngListIter<R>,
    // the base address that is known so far
    base_address: u64,
    debug_addr: DebugAddr<R>,
    debug_addr_base: DebugAddrBase<R::Offset>,
}

impl<R: Reader> Model for RngListIter<R> {
    ghost Value = { ListPlace };

    ghost view = { λ i.
        record {
          raw = i.raw;
          base = i.base_address;
          addresses = R.view i.debug_addr.section;
          table = R.Offset.number i.debug_addr_base.0;
        } };

    ghost invariant = { λ i. IsTrue (is_size i.raw.encoding.address_size) };
}

impl<R: Reader> RngListIter<R> {
    /// The ranges of what is left of a list, with a base address at hand. Addresses that are named
    /// by their index are those of the table that begins at `debug_addr_base` in `debug_addr`. The
    /// size of addresses has to be 1, 2, 4 or 8.
    pub(crate) fn new(
        raw: RawRngListIter<R>,
        base_address: u64,
        debug_addr: DebugAddr<R>,
        debug_addr_base: DebugAddrBase<R::Offset>,
    ) -> RngListIter<R>
        requires { IsTrue (is_size raw.encoding.address_size) }
        ensures { result
            ≡ record {
              raw = raw;
              base = base_address;
              addresses = addr_content R.view debug_addr;
              table =
                  R.Offset.number debug_addr_base.0;
            } }
    {
        RngListIter {
            raw,
            base_address,
            debug_addr,
            debug_addr_base,
        }
    }

    /// The next entry as it is written, or none after the last. The answer is for `convert_raw`,
    /// which has to see each entry in turn: an entry that gives a base address changes the base
    /// only there.
    ///
    /// Refusals: those of `RawRngListIter::next`; nothing is left then.
    pub fn next_raw(&mut self) -> Result<Option<RawRngListEntry<R::Offset>>>
        ensures value { (
          answer_of (option_map (range_entry_of R.Offset.number)) result,
          self.new.raw,
        )
            ≡ next_raw (range_grammar R.Offset.limit) self.old.raw }
        ensures ahead { IsFirstOf (answer_of (option_map (range_entry_of R.Offset.number)) result)
            (raw_list_ahead (range_grammar R.Offset.limit) self.old.raw)
            (raw_list_ahead (range_grammar R.Offset.limit) self.new.raw) }
        ensures same { self.new ≡ record self.old { raw = self.new.raw } }
        ensures takes { MatchResult result
            (λ entry. OnSome entry
            (length self.new.raw.rest.bytes < length self.old.raw.rest.bytes))
            (λ _. length self.new.raw.rest.bytes < length self.old.raw.rest.bytes) }
    {
        self.raw.next()
    }

    /// What an entry stands for: a range, or none. An entry that gives a base address changes the
    /// base for those after it.
    ///
    /// No range is given where it begins at or above the least address that stands for none (all
    /// ones less one), or not below its end, nor by a pair of offsets from a base that stands for
    /// none. Sums keep their lowest bytes, as many as an address has. Refusals, of the look-up of
    /// an address by its index: `UnexpectedEof`, `UnsupportedOffset`; the base and the rest of the
    /// list stay then.
    #[tactic(auto, unfolding(crate::specs::Places::entry_conversion))]
    pub fn convert_raw(&mut self, raw_range: RawRngListEntry<R::Offset>) -> Result<Option<Range>>
        ensures { (answer_of (option_map resolved_of) result, self.new)
            ≡ entry_conversion R.Offset.limit (range_entry_of R.Offset.number raw_range) self.old }
    {
        let size = self.raw.address_size();
        let mut base = self.base_address;
        let range = resolve_entry(
            raw_range,
            size,
            &mut base,
            &self.debug_addr,
            self.debug_addr_base,
        );
        self.base_address = base;
        range
    }

    /// The next range, or none after the last.
    ///
    /// Refusals: those of `RawRngListIter::next`, after which nothing is left, and those of
    /// `convert_raw`, after which the rest of the list is left. Both can be `UnexpectedEof` or
    /// `UnsupportedOffset`: the next call goes on with what is left, and answers none where that is
    /// nothing. Nothing is left after the last entry either.
    #[inline(always)]
    pub fn next(&mut self) -> Result<Option<Range>>
        ensures ahead { ranges_ahead R.Offset.limit self.old
            ≡ answer_then (answer_of (option_map resolved_of) result)
            (ranges_ahead R.Offset.limit self.new) }

        // The entries that stand for nothing are read, and the one after them; the base before the
        // others is at hand.
        ensures place { IsAfterEntries (range_grammar R.Offset.limit) R.Offset.limit
            (read_from (range_grammar R.Offset.limit) R.Offset.limit self.old) self.old self.new }
        ensures same { InList self.old self.new }
        ensures takes { MatchResult result
            (λ range. OnSome range
            (length self.new.raw.rest.bytes < length self.old.raw.rest.bytes))
            (λ _. length self.new.raw.rest.bytes < length self.old.raw.rest.bytes) }
        ensures ended { IfOk result (λ range. IfNone range (length self.new.raw.rest.bytes ≡ 0)) }

        // Where none of the entries that are left answers anything, nothing is left, whether the
        // list ends or is refused.
        ensures spent { IsSpent (range_grammar R.Offset.limit) R.Offset.limit self.old self.new }

        // A range begins below its end, and below the least address that stands for none.
        ensures sound { IfOk result
            (λ range. IfSome range
            (λ r. (r.begin < r.end)
            × (r.begin < min_tombstone self.old.raw.encoding.address_size))) }
    {
        next_item(self)
    }
}

impl<R: Reader> EntryWalk for RngListIter<R> {
    type Entry = RawRngListEntry<R::Offset>;

    type Item = Range;

    ghost Payload = { Unit {0} };

    ghost limit = { R.Offset.limit };

    ghost grammar = { range_grammar R.Offset.limit };

    ghost place = { λ s. s };

    ghost written = { range_entry_of R.Offset.number };

    ghost resolved = { resolved_of };

    #[inline]
    fn take_raw(&mut self) -> Result<Option<RawRngListEntry<R::Offset>>> {
        self.next_raw()
    }

    #[inline]
    fn convert(&mut self, raw: RawRngListEntry<R::Offset>) -> Result<Option<Range>> {
        self.convert_raw(raw)
    }

    ghost takes_bytes = { range_grammar-takes R.Offset.limit };
}

impl<R: Reader> Iterator for RngListIter<R> {
    type Item = Result<Range>;

    ghost next_gives = { λ s r t.
        IsNext (range_grammar R.Offset.limit) R.Offset.limit s
        (answer_of (option_map resolved_of) (transpose r)) t };

    ghost remaining = { λ s. at_most (length s.raw.rest.bytes) };

    // As the other `next`: a refusal is an item. Nothing is left after one of the list's bytes; after
    // one of what an entry stands for the rest of the list is left.
    fn next(&mut self) -> Option<Result<Range>> {
        RngListIter::next(self).transpose()
    }
}

/// What an entry stands for: a range, or none. `base` is the base address at hand, from which pairs
/// of offsets count. An entry that gives a base address puts it there, and stands for none.
///
/// A range is given only as `Range::if_kept` and `Range::kept_from` keep it. The size of addresses
/// has to be 1, 2, 4 or 8. Refusals, of the look-up of an address by its index, that of the
/// beginning first: `UnexpectedEof`, `UnsupportedOffset`; the base stays then.
#[inline(always)]
pub(crate) fn resolve_entry<R: Reader>(
    entry: RawRngListEntry<R::Offset>,
    size: u8,
    base: &mut u64,
    debug_addr: &DebugAddr<R>,
    debug_addr_base: DebugAddrBase<R::Offset>,
) -> Result<Option<Range>>
    requires { IsTrue (is_size size) }
    ensures value { answer_of (option_map resolved_of) result
        ≡ resolve size
        (λ index. table_address R.Offset.limit size (R.Offset.number debug_addr_base.0) index
        (addr_content R.view debug_addr.now)) base.old
        (range_entry_of R.Offset.number entry) }
    ensures given { base.new
        ≡ unwrap_or
        (base_given
        (λ index. table_address R.Offset.limit size (R.Offset.number debug_addr_base.0) index
        (addr_content R.view debug_addr.now))
        (range_entry_of R.Offset.number entry)) base.old }
{
    match entry {
        RawRngListEntry::BaseAddress { addr } => {
            *base = addr;
            Ok(None)
        }
        RawRngListEntry::BaseAddressx { addr } => {
            *base = debug_addr.get_address(size, debug_addr_base, addr)?;
            Ok(None)
        }
        RawRngListEntry::StartxEndx { begin, end } => {
            let begin = debug_addr.get_address(size, debug_addr_base, begin)?;
            let end = debug_addr.get_address(size, debug_addr_base, end)?;
            Ok(Range { begin, end }.if_kept(size))
        }
        RawRngListEntry::StartxLength { begin, length } => {
            let begin = debug_addr.get_address(size, debug_addr_base, begin)?;
            let end = begin.wrapping_add_sized(length, size);
            Ok(Range { begin, end }.if_kept(size))
        }
        RawRngListEntry::AddressOrOffsetPair { begin, end }
        | RawRngListEntry::OffsetPair { begin, end } => {
            Ok(Range { begin, end }.kept_from(*base, size))
        }
        RawRngListEntry::StartEnd { begin, end } => Ok(Range { begin, end }.if_kept(size)),
        RawRngListEntry::StartLength { begin, length } => {
            let end = begin.wrapping_add_sized(length, size);
            Ok(Range { begin, end }.if_kept(size))
        }
    }
}
