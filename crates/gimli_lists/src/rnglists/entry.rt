//! Range lists as they are written, before anything is done with base addresses.

ghost use Rattle.std.specs.Prelude.{◌≡◌, ◌==◌, ◌&&◌, ◌<◌, length, IsTrue, MatchResult, OnSome};
ghost use Rattle.std.specs.Prelude.{OnOk};
ghost use Rattle.std.specs.Option.{option_map};
ghost use Rattle.std.specs.Iterator.{at_most};
ghost use Rattle.gimli_base.specs.Address.{ones_sized};
ghost use Rattle.gimli_base.specs.Offset.{answer_of};
ghost use Rattle.gimli_base.specs.Reading.{read_of, is_size, answer_leaving, address_at};
ghost use Rattle.gimli_lists.specs.RawList.{IsFirstOf, pair_at, old_entry_at, index_at};
ghost use Rattle.gimli_lists.specs.RangeEntry.{range_entry_of, nothing_at, new_entry_at};
ghost use Rattle.gimli_lists.specs.RangeEntry.{range_grammar};
ghost use Rattle.gimli_lists.specs.RangeReads.{range_grammar-takes};
ghost use Rattle.gimli_lists.specs.Places.{RawListPlace, next_raw, raw_list_ahead};
ghost use Rattle.gimli_base.specs.Reading.{transpose};

use crate::lists::ListsFormat;
use crate::take_entry::{RawEntry, take_entry};
use gimli_base::{
    DW_RLE_base_address, DW_RLE_base_addressx, DW_RLE_end_of_list, DW_RLE_offset_pair,
    DW_RLE_start_end, DW_RLE_start_length, DW_RLE_startx_endx, DW_RLE_startx_length,
    DebugAddrIndex, DwRle, Encoding, Error, Reader, ReaderAddress, ReaderOffset, Result,
};
use std::marker::Model;

/// An entry of a range list, as it is written.
#[derive(Clone, Copy, Debug)]
pub enum RawRngListEntry<T> {
    /// A pair of versions up to 4, of addresses or of offsets from the base address.
    AddressOrOffsetPair {
        /// Where the range begins.
        begin: u64,
        /// Where it ends.
        end: u64,
    },
    /// A base address, from which later offsets count; `DW_RLE_base_address`, or in a list of
    /// `.debug_ranges` a pair whose first address is all ones.
    BaseAddress {
        /// The address.
        addr: u64,
    },
    /// A base address among those of the unit; `DW_RLE_base_addressx`.
    BaseAddressx {
        /// The index of the address.
        addr: DebugAddrIndex<T>,
    },
    /// Two addresses among those of the unit; `DW_RLE_startx_endx`.
    StartxEndx {
        /// The index of the address at which the range begins.
        begin: DebugAddrIndex<T>,
        /// The index of the address at which it ends.
        end: DebugAddrIndex<T>,
    },
    /// An address among those of the unit, and a number of bytes; `DW_RLE_startx_length`.
    StartxLength {
        /// The index of the address at which the range begins.
        begin: DebugAddrIndex<T>,
        /// The number of bytes.
        length: u64,
    },
    /// Two offsets from the base address; `DW_RLE_offset_pair`.
    OffsetPair {
        /// Where the range begins.
        begin: u64,
        /// Where it ends.
        end: u64,
    },
    /// Two addresses; `DW_RLE_start_end`.
    StartEnd {
        /// Where the range begins.
        begin: u64,
        /// Where it ends.
        end: u64,
    },
    /// An address and a number of bytes; `DW_RLE_start_length`.
    StartLength {
        /// Where the range begins.
        begin: u64,
        /// The number of bytes.
        length: u64,
    },
}

impl<T: ReaderOffset> RawRngListEntry<T> {
    /// The same entry.
    pub fn copy(&self) -> Self
        ensures { result ≡ self.now }
    {
        *self
    }
}

/// A pair of addresses of versions up to 4.
#[derive(Clone, Copy, Debug, PartialEq, Eq, Hash)]
pub(crate) struct RawRange {
    /// The first address.
    pub(crate) begin: u64,
    /// The second address.
    pub(crate) end: u64,
}

impl RawRange {
    /// Whether the pair ends a list: both addresses are 0.
    #[inline]
    pub(crate) fn is_end(self) -> bool
        ensures { result ≡ (self.begin == 0 && self.end == 0) }
    {
        self.begin == 0 && self.end == 0
    }

    /// Whether the pair gives a base address, which is then its second: the first is all ones in
    /// the size of an address. The size has to be 1, 2, 4 or 8.
    #[inline]
    pub(crate) fn is_base_address(self, address_size: u8) -> bool
        requires { IsTrue (is_size address_size) }
        ensures { result ≡ (self.begin == ones_sized address_size) }
    {
        self.begin == u64::ones_sized(address_size)
    }

    /// The next pair, of addresses of `address_size` bytes. Refusals: `UnsupportedAddressSize`,
    /// where the size is not 1, 2, 4 or 8; `UnexpectedEof`. The input is then left anywhere.
    #[inline(always)]
    #[tactic(auto, unfolding(crate::specs::RawList::pair_at, gimli_base::specs::Reading::address_at))]
    pub(crate) fn parse<R: Reader>(input: &mut R, address_size: u8) -> Result<RawRange>
        ensures value { read_of (answer_of (λ p. (p.begin, p.end)) result) (R.view input.new)
            ≡ pair_at address_size (R.view input.old) }
        ensures size { OnOk result (IsTrue (is_size address_size)) }
    {
        // (by a call of one width the compiler keeps the numbers in registers)
        if address_size == 8 {
            let low = input.read_u64()?;
            let high = input.read_u64()?;
            return Ok(RawRange {
                begin: low,
                end: high,
            });
        }
        let begin = input.read_address(address_size)?;
        let end = input.read_address(address_size)?;
        Ok(RawRange { begin, end })
    }
}

// Reads the next address of `address_size` bytes into `into`. Refusals: `UnsupportedAddressSize`,
// `UnexpectedEof`; the input is then left anywhere, and nothing is said of `into`.
//
// The address comes by a place of its own: out of a result of several widths the compiler takes it
// in pieces. That is for the entry that most lists are made of; in all of them it makes the loop
// larger and slower.
#[inline(always)]
#[tactic(auto, unfolding(gimli_base::specs::Reading::address_at))]
fn read_sized<R: Reader>(input: &mut R, address_size: u8, into: &mut u64) -> Result<()>
    ensures { read_of (answer_leaving into.new result) (R.view input.new)
        ≡ address_at address_size (R.view input.old) }
{
    *into = if address_size == 8 {
        input.read_u64()?
    } else {
        input.read_address(address_size)?
    };
    Ok(())
}

/// The next index of an address, an unsigned LEB128 number. Refusals: those of
/// `Reader::read_uleb128`; `UnsupportedOffset`, where it does not fit the reader's offsets. The
/// input is then left anywhere.
#[inline]
pub(crate) fn read_index<R: Reader>(input: &mut R) -> Result<DebugAddrIndex<R::Offset>>
    ensures { read_of (answer_of (λ i. R.Offset.number i.0) result) (R.view input.new)
        ≡ index_at R.Offset.limit (R.view input.old) }
{
    let number = input.read_uleb128()?;
    let index = R::Offset::from_u64(number)?;
    Ok(DebugAddrIndex(index))
}

// The next entry of versions up to 4, which is a pair of addresses; none where the pair ends the
// list. Refusals: those of `RawRange::parse`. The input is then left anywhere.
#[tactic(auto, unfolding(crate::specs::RawList::old_entry_at))]
fn parse_bare<R: Reader>(
    input: &mut R,
    address_size: u8,
) -> Result<Option<RawRngListEntry<R::Offset>>>
    ensures { read_of (answer_of (option_map (range_entry_of R.Offset.number)) result)
        (R.view input.new)
        ≡ old_entry_at nothing_at address_size (R.view input.old) }
{
    let range = RawRange::parse(input, address_size)?;
    if range.is_end() {
        Ok(None)
    } else if range.is_base_address(address_size) {
        Ok(Some(RawRngListEntry::BaseAddress { addr: range.end }))
    } else {
        Ok(Some(RawRngListEntry::AddressOrOffsetPair {
            begin: range.begin,
            end: range.end,
        }))
    }
}

// The next entry since version 5: a code, and then its operands in their order; none where the code
// is `DW_RLE_end_of_list`. Refusals: `UnexpectedEof`; `UnknownRangeListsEntry` of any other code;
// those of the first operand that has one. The input is then left anywhere.
#[tactic(auto, unfolding(crate::specs::RangeEntry::new_entry_at))]
fn parse_rle<R: Reader>(
    input: &mut R,
    address_size: u8,
) -> Result<Option<RawRngListEntry<R::Offset>>>
    ensures { read_of (answer_of (option_map (range_entry_of R.Offset.number)) result)
        (R.view input.new)
        ≡ new_entry_at R.Offset.limit address_size (R.view input.old) }
{
    let code = DwRle(input.read_u8()?);
    match code {
        DW_RLE_end_of_list => Ok(None),
        DW_RLE_base_addressx => {
            let addr = read_index(input)?;
            Ok(Some(RawRngListEntry::BaseAddressx { addr }))
        }
        DW_RLE_startx_endx => {
            let begin = read_index(input)?;
            let end = read_index(input)?;
            Ok(Some(RawRngListEntry::StartxEndx { begin, end }))
        }
        DW_RLE_startx_length => {
            let begin = read_index(input)?;
            let length = input.read_uleb128()?;
            Ok(Some(RawRngListEntry::StartxLength { begin, length }))
        }
        DW_RLE_offset_pair => {
            let begin = input.read_uleb128()?;
            let end = input.read_uleb128()?;
            Ok(Some(RawRngListEntry::OffsetPair { begin, end }))
        }
        DW_RLE_base_address => {
            let addr = input.read_address(address_size)?;
            Ok(Some(RawRngListEntry::BaseAddress { addr }))
        }
        DW_RLE_start_end => {
            let begin = input.read_address(address_size)?;
            let end = input.read_address(address_size)?;
            Ok(Some(RawRngListEntry::StartEnd { begin, end }))
        }
        DW_RLE_start_length => {
            let mut begin = 0;
            read_sized(input, address_size, &mut begin)?;
            let length = input.read_uleb128()?;
            Ok(Some(RawRngListEntry::StartLength { begin, length }))
        }
        _ => Err(Error::UnknownRangeListsEntry(code)),
    }
}

impl<R: Reader> RawEntry<R> for RawRngListEntry<R::Offset> {
    ghost Payload = { Unit {0} };

    ghost grammar = { range_grammar R.Offset.limit };

    ghost written = { range_entry_of R.Offset.number };

    fn parse(
        input: &mut R,
        encoding: Encoding,
        format: ListsFormat,
    ) -> Result<Option<RawRngListEntry<R::Offset>>> {
        match format {
            ListsFormat::Bare => parse_bare(input, encoding.address_size),
            ListsFormat::Coded => parse_rle(input, encoding.address_size),
        }
    }

    ghost takes_bytes = { range_grammar-takes R.Offset.limit };
}

/// The entries of a range list as they are written, one after the other.
#[derive(Debug, Drop)]
pub struct RawRngListIter<R: Reader> {
    input: R,
    encoding: Encoding,
    format: ListsFormat,
}

impl<R: Reader> Model for RawRngListIter<R> {
    ghost Value = { RawListPlace };

    ghost view = { λ i.
        record { rest = R.view i.input; encoding = i.encoding; format = i.format } };
}

impl<R: Reader> RawRngListIter<R> {
    /// The list that begins where the input begins, in a format, of a unit with this encoding.
    pub(crate) fn new(input: R, encoding: Encoding, format: ListsFormat) -> RawRngListIter<R>
        ensures { result ≡ record { rest = R.view input; encoding = encoding; format = format } }
    {
        RawRngListIter {
            input,
            encoding,
            format,
        }
    }

    /// The number of bytes of an address.
    pub(crate) fn address_size(&self) -> u8
        ensures { result ≡ self.now.encoding.address_size }
    {
        self.encoding.address_size
    }

    /// The next entry, or none where the list ends: at the entry that ends it, or at the end of the
    /// section.
    ///
    /// Refusals: `UnknownRangeListsEntry`, or of the entry's first operand that has one:
    /// `UnexpectedEof`, `BadUnsignedLeb128`, `UnsupportedAddressSize`, `UnsupportedOffset` for an
    /// index that does not fit. Nothing is left after the end, and after a refusal.
    pub fn next(&mut self) -> Result<Option<RawRngListEntry<R::Offset>>>
        ensures value { (answer_of (option_map (range_entry_of R.Offset.number)) result, self.new)
            ≡ next_raw (range_grammar R.Offset.limit) self.old }

        // An entry stands in front of those that are left; no entry and a refusal say how the list
        // ends.
        ensures ahead { IsFirstOf (answer_of (option_map (range_entry_of R.Offset.number)) result)
            (raw_list_ahead (range_grammar R.Offset.limit) self.old)
            (raw_list_ahead (range_grammar R.Offset.limit) self.new) }
        ensures takes { MatchResult result
            (λ entry. OnSome entry (length self.new.rest.bytes < length self.old.rest.bytes))
            (λ _. length self.new.rest.bytes < length self.old.rest.bytes) }
    {
        take_entry(&mut self.input, self.encoding, self.format)
    }
}

impl<R: Reader> Iterator for RawRngListIter<R> {
    type Item = Result<RawRngListEntry<R::Offset>>;

    ghost next_gives = { λ s r t.
        ((answer_of (option_map (range_entry_of R.Offset.number)) (transpose r), t)
        ≡ next_raw (range_grammar R.Offset.limit) s)
        × IsFirstOf (answer_of (option_map (range_entry_of R.Offset.number)) (transpose r))
        (raw_list_ahead (range_grammar R.Offset.limit) s)
        (raw_list_ahead (range_grammar R.Offset.limit) t) };

    ghost remaining = { λ s. at_most (length s.rest.bytes) };

    // As the other `next`: a refusal is an item, and nothing is left after it.
    fn next(&mut self) -> Option<Result<RawRngListEntry<R::Offset>>> {
        RawRngListIter::next(self).transpose()
    }
}
