//! The locations of a list, which know their base address.

ghost use Rattle.std.specs.Prelude.{◌≡◌, ◌<◌, length, IsTrue, MatchResult, IfOk, IfSome, IfNone};
ghost use Rattle.std.specs.Prelude.{OnSome};
ghost use Rattle.std.specs.Option.{option_map};
ghost use Rattle.std.specs.Iterator.{at_most};
ghost use Rattle.gimli_base.specs.Address.{min_tombstone};
ghost use Rattle.gimli_base.specs.Offset.{answer_of};
ghost use Rattle.gimli_base.specs.Reading.{is_size};
ghost use Rattle.gimli_base.specs.View.{View};
ghost use Rattle.gimli_lists.specs.LocationEntry.{location_entry_of, location_grammar};
ghost use Rattle.gimli_lists.specs.LocationReads.{location_grammar-takes};
ghost use Rattle.gimli_lists.specs.Locations.{location_of, locations_ahead};
ghost use Rattle.gimli_lists.specs.Places.{next_raw, raw_list_ahead, ListPlace, entry_conversion};
ghost use Rattle.gimli_lists.specs.Places.{InList};
ghost use Rattle.gimli_lists.specs.Places.{IsAfterEntries, IsSpent, read_from, IsNext};
ghost use Rattle.gimli_lists.specs.RawList.{IsFirstOf};
ghost use Rattle.gimli_lists.specs.RangeEntry.{range_entry_of};
ghost use Rattle.gimli_lists.specs.Resolved.{answer_then};
ghost use Rattle.gimli_base.specs.Reading.{transpose};
ghost use Rattle.gimli_lists.specs.WithPayload.{with_payload};
ghost use Rattle.gimli_base.specs.Sections.{addr_content};

use crate::loclists::LocationListEntry;
use crate::loclists::entry::{RawLocListEntry, RawLocListIter};
use crate::next_item::{EntryWalk, next_item};
use crate::rnglists::iter::resolve_entry;
use crate::rnglists::{Range, RawRngListEntry};
use gimli_base::{DebugAddr, DebugAddrBase, Expression, Reader, Result, Section};
use std::marker::Model;

/// The locations of a list, in order.
#[derive(Debug, Drop)]
pub struct LocListIter<R: Reader> {
    raw: RawLocListIter<R>,
    // the base address that is known so far
    base_address: u64,
    debug_addr: DebugAddr<R>,
    debug_addr_base: DebugAddrBase<R::Offset>,
}

impl<R: Reader> Model for LocListIter<R> {
    ghost Value = { ListPlace };

    ghost view = { λ i.
        record {
          raw = i.raw;
          base = i.base_address;
          addresses = R.view i.debug_addr.section;
          table = R.Offset.number i.debug_addr_base.0;
        } };

    ghost invariant = { λ i. IsTrue (is_size i.raw.encoding.address_size) };
}

impl<R: Reader> LocListIter<R> {
    /// The locations of what is left of a list, with a base address at hand. Addresses that are
    /// named by their index are those of the table that begins at `debug_addr_base` in
    /// `debug_addr`. The size of addresses has to be 1, 2, 4 or 8.
    pub(crate) fn new(
        raw: RawLocListIter<R>,
        base_address: u64,
        debug_addr: DebugAddr<R>,
        debug_addr_base: DebugAddrBase<R::Offset>,
    ) -> LocListIter<R>
        requires { IsTrue (is_size raw.encoding.address_size) }
        ensures { result
            ≡ record {
              raw = raw;
              base = base_address;
              addresses = addr_content R.view debug_addr;
              table =
                  R.Offset.number debug_addr_base.0;
            } }
    {
        LocListIter {
            raw,
            base_address,
            debug_addr,
            debug_addr_base,
        }
    }

    /// The next entry as it is written, or none after the last. The answer is for `convert_raw`,
    /// which has to see each entry in turn: an entry that gives a base address changes the base
    /// only there.
    ///
    /// Refusals: those of `RawLocListIter::next`; nothing is left then.
    pub fn next_raw(&mut self) -> Result<Option<RawLocListEntry<R>>>
        ensures value { (
          answer_of (option_map (location_entry_of R.view R.Offset.number)) result,
          self.new.raw,
        ) ≡ next_raw (location_grammar R.Offset.limit) self.old.raw }
        ensures ahead { IsFirstOf
            (answer_of (option_map (location_entry_of R.view R.Offset.number)) result)
            (raw_list_ahead (location_grammar R.Offset.limit) self.old.raw)
            (raw_list_ahead (location_grammar R.Offset.limit) self.new.raw) }
        ensures same { self.new ≡ record self.old { raw = self.new.raw } }
        ensures takes { MatchResult result
            (λ entry. OnSome entry
            (length self.new.raw.rest.bytes < length self.old.raw.rest.bytes))
            (λ _. length self.new.raw.rest.bytes < length self.old.raw.rest.bytes) }
    {
        self.raw.next()
    }

    // What an entry stands for: `expr` at the range that `entry` stands for, or none where that
    // stands for none. The base address is changed by an entry that gives one. Refusals: those of
    // `resolve_entry`; the base and the rest of the list stay then.
    #[inline]
    #[tactic(auto, unfolding(crate::specs::Places::entry_conversion))]
    fn locate(
        &mut self,
        entry: RawRngListEntry<R::Offset>,
        expr: Expression<R>,
    ) -> Result<Option<LocationListEntry<R>>>
        ensures { (answer_of (option_map (location_of R.view)) result, self.new)
            ≡ entry_conversion R.Offset.limit
            (with_payload (R.view expr.0) (range_entry_of R.Offset.number entry)) self.old }
    {
        let size = self.raw.address_size();
        let mut base = self.base_address;
        let range = resolve_entry(
            entry,
            size,
            &mut base,
            &self.debug_addr,
            self.debug_addr_base,
        );
        self.base_address = base;
        match range? {
            Some(range) => Ok(Some(LocationListEntry { range, expr })),
            None => Ok(None),
        }
    }

    /// What an entry stands for: a location, or none. An entry that gives a base address changes
    /// the base for those after it. A default location has the addresses from 0 to the greatest
    /// number of 64 bits, whatever their size.
    ///
    /// No location is given where it begins at or above the least address that stands for none (all
    /// ones less one), or not below its end, nor by a pair of offsets from a base that stands for
    /// none. Sums keep their lowest bytes, as many as an address has. Refusals, of the look-up of
    /// an address by its index: `UnexpectedEof`, `UnsupportedOffset`; the base and the rest of the
    /// list stay then.
    #[tactic(auto, unfolding(crate::specs::Places::entry_conversion))]
    pub fn convert_raw(
        &mut self,
        raw_loc: RawLocListEntry<R>,
    ) -> Result<Option<LocationListEntry<R>>>
        ensures { let entry = location_entry_of R.view R.Offset.number raw_loc in
            (answer_of (option_map (location_of R.view)) result, self.new)
            ≡ entry_conversion R.Offset.limit entry self.old }
    {
        let (entry, expr) = match raw_loc {
            RawLocListEntry::BaseAddress { addr } => {
                self.base_address = addr;
                return Ok(None);
            }
            RawLocListEntry::BaseAddressx { addr } => {
                let size = self.raw.address_size();
                self.base_address = self
                    .debug_addr
                    .get_address(size, self.debug_addr_base, addr)?;
                return Ok(None);
            }
            RawLocListEntry::DefaultLocation { expr } => {
                let range = Range {
                    begin: 0,
                    end: u64::MAX,
                };
                return Ok(Some(LocationListEntry { range, expr }));
            }
            RawLocListEntry::StartxEndx { begin, end, expr } => {
                (RawRngListEntry::StartxEndx { begin, end }, expr)
            }
            RawLocListEntry::StartxLength {
                begin,
                length,
                expr,
            } => (RawRngListEntry::StartxLength { begin, length }, expr),
            RawLocListEntry::AddressOrOffsetPair { begin, end, expr } => {
                (RawRngListEntry::AddressOrOffsetPair { begin, end }, expr)
            }
            RawLocListEntry::OffsetPair { begin, end, expr } => {
                (RawRngListEntry::OffsetPair { begin, end }, expr)
            }
            RawLocListEntry::StartEnd { begin, end, expr } => {
                (RawRngListEntry::StartEnd { begin, end }, expr)
            }
            RawLocListEntry::StartLength {
                begin,
                length,
                expr,
            } => (RawRngListEntry::StartLength { begin, length }, expr),
        };
        self.locate(entry, expr)
    }

    /// The next location, or none after the last.
    ///
    /// Refusals: those of `RawLocListIter::next`, after which nothing is left, and those of
    /// `convert_raw`, after which the rest of the list is left. Both can be `UnexpectedEof` or
    /// `UnsupportedOffset`: the next call goes on with what is left, and answers none where that is
    /// nothing. Nothing is left after the last entry either.
    #[inline(always)]
    pub fn next(&mut self) -> Result<Option<LocationListEntry<R>>>
        ensures ahead { locations_ahead R.Offset.limit self.old
            ≡ answer_then (answer_of (option_map (location_of R.view)) result)
            (locations_ahead R.Offset.limit self.new) }

        // The entries that stand for nothing are read, and the one after them; the base before the
        // others is at hand.
        ensures place { IsAfterEntries (location_grammar R.Offset.limit) R.Offset.limit
            (read_from (location_grammar R.Offset.limit) R.Offset.limit self.old) self.old
            self.new }
        ensures same { InList self.old self.new }
        ensures takes { MatchResult result
            (λ location. OnSome location
            (length self.new.raw.rest.bytes < length self.old.raw.rest.bytes))
            (λ _. length self.new.raw.rest.bytes < length self.old.raw.rest.bytes) }
        ensures ended { IfOk result
            (λ location. IfNone location (length self.new.raw.rest.bytes ≡ 0)) }

        // Where none of the entries that are left answers anything, nothing is left, whether the
        // list ends or is refused.
        ensures spent { IsSpent (location_grammar R.Offset.limit) R.Offset.limit self.old self.new }

        // A location's range begins below its end, and below the least address that stands for
        // none.
        ensures sound { IfOk result
            (λ location. IfSome location
            (λ l. (l.range.begin < l.range.end)
            × (l.range.begin < min_tombstone self.old.raw.encoding.address_size))) }
    {
        next_item(self)
    }
}

impl<R: Reader> Iterator for LocListIter<R> {
    type Item = Result<LocationListEntry<R>>;

    ghost next_gives = { λ s r t.
        IsNext (location_grammar R.Offset.limit) R.Offset.limit s
        (answer_of (option_map (location_of R.view)) (transpose r)) t };

    ghost remaining = { λ s. at_most (length s.raw.rest.bytes) };

    // As the other `next`: a refusal is an item. Nothing is left after one of the list's bytes; after
    // one of what an entry stands for the rest of the list is left.
    fn next(&mut self) -> Option<Result<LocationListEntry<R>>> {
        LocListIter::next(self).transpose()
    }
}

impl<R: Reader> EntryWalk for LocListIter<R> {
    type Entry = RawLocListEntry<R>;

    type Item = LocationListEntry<R>;

    ghost Payload = { View };

    ghost limit = { R.Offset.limit };

    ghost grammar = { location_grammar R.Offset.limit };

    ghost place = { λ s. s };

    ghost written = { location_entry_of R.view R.Offset.number };

    ghost resolved = { location_of R.view };

    #[inline]
    fn take_raw(&mut self) -> Result<Option<RawLocListEntry<R>>> {
        self.next_raw()
    }

    #[inline]
    fn convert(&mut self, raw: RawLocListEntry<R>) -> Result<Option<LocationListEntry<R>>> {
        self.convert_raw(raw)
    }

    ghost takes_bytes = { location_grammar-takes R.Offset.limit };
}
