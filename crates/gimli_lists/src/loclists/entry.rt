//! Location lists as they are written, before anything is done with base addresses.

ghost use Rattle.std.specs.Prelude.{◌≡◌, ◌<◌, length, MatchResult, OnSome};
ghost use Rattle.std.specs.Option.{option_map};
ghost use Rattle.std.specs.Iterator.{at_most};
ghost use Rattle.gimli_base.specs.Offset.{answer_of};
ghost use Rattle.gimli_base.specs.Reading.{read_of, address_at};
ghost use Rattle.gimli_lists.specs.LocationEntry.{location_entry_of, short_expression_at};
ghost use Rattle.gimli_lists.specs.LocationEntry.{expression_at, indexed_length_at};
ghost use Rattle.gimli_lists.specs.LocationEntry.{new_location_at, location_grammar};
ghost use Rattle.gimli_lists.specs.LocationReads.{location_grammar-takes};
ghost use Rattle.gimli_lists.specs.Places.{RawListPlace, next_raw, raw_list_ahead};
ghost use Rattle.gimli_lists.specs.RawList.{IsFirstOf, old_entry_at};
ghost use Rattle.gimli_base.specs.Reading.{transpose};

use crate::lists::ListsFormat;
use crate::rnglists::entry::{RawRange, read_index};
use crate::take_entry::{RawEntry, take_entry};
use gimli_base::{
    DW_LLE_base_address, DW_LLE_base_addressx, DW_LLE_default_location, DW_LLE_end_of_list,
    DW_LLE_offset_pair, DW_LLE_start_end, DW_LLE_start_length, DW_LLE_startx_endx,
    DW_LLE_startx_length, DebugAddrIndex, DwLle, Encoding, Error, Expression, Reader, ReaderOffset,
    Result,
};
use std::marker::Model;

/// An entry of a location list, as it is written. Each but a base address has an expression, which
/// says where the object is.
#[derive(Debug, Drop)]
pub enum RawLocListEntry<R, Offset = <R as Reader>::Offset> {
    /// A pair of versions up to 4, of addresses or of offsets from the base address.
    AddressOrOffsetPair {
        /// Where the range begins.
        begin: u64,
        /// Where it ends.
        end: u64,
        /// The expression.
        expr: Expression<R>,
    },
    /// A base address, from which later offsets count; `DW_LLE_base_address`, or in a list of
    /// `.debug_loc` a pair whose first address is all ones.
    BaseAddress {
        /// The address.
        addr: u64,
    },
    /// A base address among those of the unit; `DW_LLE_base_addressx`.
    BaseAddressx {
        /// The index of the address.
        addr: DebugAddrIndex<Offset>,
    },
    /// Two addresses among those of the unit; `DW_LLE_startx_endx`.
    StartxEndx {
        /// The index of the address at which the range begins.
        begin: DebugAddrIndex<Offset>,
        /// The index of the address at which it ends.
        end: DebugAddrIndex<Offset>,
        /// The expression.
        expr: Expression<R>,
    },
    /// An address among those of the unit, and a number of bytes; `DW_LLE_startx_length`.
    StartxLength {
        /// The index of the address at which the range begins.
        begin: DebugAddrIndex<Offset>,
        /// The number of bytes.
        length: u64,
        /// The expression.
        expr: Expression<R>,
    },
    /// Two offsets from the base address; `DW_LLE_offset_pair`.
    OffsetPair {
        /// Where the range begins.
        begin: u64,
        /// Where it ends.
        end: u64,
        /// The expression.
        expr: Expression<R>,
    },
    /// Where the object is at the addresses that no other entry names; `DW_LLE_default_location`.
    DefaultLocation {
        /// The expression.
        expr: Expression<R>,
    },
    /// Two addresses; `DW_LLE_start_end`.
    StartEnd {
        /// Where the range begins.
        begin: u64,
        /// Where it ends.
        end: u64,
        /// The expression.
        expr: Expression<R>,
    },
    /// An address and a number of bytes; `DW_LLE_start_length`.
    StartLength {
        /// Where the range begins.
        begin: u64,
        /// The number of bytes.
        length: u64,
        /// The expression.
        expr: Expression<R>,
    },
}

impl<R: Reader> RawLocListEntry<R> {
    /// The same entry, with an expression of the same bytes at the same place.
    pub fn copy(&self) -> RawLocListEntry<R>
        ensures { location_entry_of R.view R.Offset.number result
            ≡ location_entry_of R.view R.Offset.number self.now }
    {
        match self {
            RawLocListEntry::AddressOrOffsetPair { begin, end, expr } => {
                RawLocListEntry::AddressOrOffsetPair {
                    begin: *begin,
                    end: *end,
                    expr: expr.copy(),
                }
            }
            RawLocListEntry::BaseAddress { addr } => RawLocListEntry::BaseAddress { addr: *addr },
            RawLocListEntry::BaseAddressx { addr } => RawLocListEntry::BaseAddressx { addr: *addr },
            RawLocListEntry::StartxEndx { begin, end, expr } => RawLocListEntry::StartxEndx {
                begin: *begin,
                end: *end,
                expr: expr.copy(),
            },
            RawLocListEntry::StartxLength {
                begin,
                length,
                expr,
            } => RawLocListEntry::StartxLength {
                begin: *begin,
                length: *length,
                expr: expr.copy(),
            },
            RawLocListEntry::OffsetPair { begin, end, expr } => RawLocListEntry::OffsetPair {
                begin: *begin,
                end: *end,
                expr: expr.copy(),
            },
            RawLocListEntry::DefaultLocation { expr } => {
                RawLocListEntry::DefaultLocation { expr: expr.copy() }
            }
            RawLocListEntry::StartEnd { begin, end, expr } => RawLocListEntry::StartEnd {
                begin: *begin,
                end: *end,
                expr: expr.copy(),
            },
            RawLocListEntry::StartLength {
                begin,
                length,
                expr,
            } => RawLocListEntry::StartLength {
                begin: *begin,
                length: *length,
                expr: expr.copy(),
            },
        }
    }
}

// A length of 2 bytes, and an expression of that many bytes, which is answered without the length.
// Refusal: `UnexpectedEof`; the input is then left anywhere.
#[inline]
fn read_short_expression<R: Reader>(input: &mut R) -> Result<Expression<R>>
    ensures { read_of (answer_of (λ e. R.view e.0) result) (R.view input.new)
        ≡ short_expression_at (R.view input.old) }
{
    let length = input.read_u16()?;
    Ok(Expression(input.split(R::Offset::from_u16(length))?))
}

// The expression of an entry that has a code, after its length: a LEB128 number since version 5,
// and a number of 2 bytes in the versions before. Refusals: of the length `UnexpectedEof`, and
// since version 5 `BadUnsignedLeb128` and `UnsupportedOffset`; then `UnexpectedEof`, where fewer
// bytes are left. The input is then left anywhere.
#[inline]
fn read_expression<R: Reader>(input: &mut R, version: u16) -> Result<Expression<R>>
    ensures { read_of (answer_of (λ e. R.view e.0) result) (R.view input.new)
        ≡ expression_at R.Offset.limit version (R.view input.old) }
{
    if version < 5 {
        return read_short_expression(input);
    }
    let length = input.read_uleb128()?;
    Ok(Expression(input.split(R::Offset::from_u64(length)?)?))
}

// The number of bytes of a range that begins at an indexed address: a LEB128 number since version
// 5, and a number of 4 bytes in the versions before. Refusals: `UnexpectedEof`, and since version 5
// `BadUnsignedLeb128`. The input is then left anywhere.
fn read_indexed_length<R: Reader>(input: &mut R, version: u16) -> Result<u64>
    ensures { read_of result (R.view input.new) ≡ indexed_length_at version (R.view input.old) }
{
    if version < 5 {
        Ok(u64::from(input.read_u32()?))
    } else {
        input.read_uleb128()
    }
}

// The next address where a range begins or ends, of `address_size` bytes. Refusals:
// `UnsupportedAddressSize`, `UnexpectedEof`. The input is then left anywhere.
//
// It is read by a call, on a reader of its own: four places that read it would be more than the
// loop over entries has registers for.
#[inline(always)]
fn read_address_on_copy<R: Reader>(input: &mut R, address_size: u8) -> Result<u64>
    ensures { read_of result (R.view input.new) ≡ address_at address_size (R.view input.old) }
{
    let mut rest = input.copy();
    let address = read_address_by_call(&mut rest, address_size)?;
    *input = rest;
    Ok(address)
}

// `Reader::read_address`, as a call that is never inlined. After a refusal the input is left
// anywhere.
#[inline(never)]
fn read_address_by_call<R: Reader>(input: &mut R, address_size: u8) -> Result<u64>
    ensures { read_of result (R.view input.new) ≡ address_at address_size (R.view input.old) }
{
    input.read_address(address_size)
}

// The next entry of versions up to 4: a pair of addresses, and an expression unless the pair gives
// a base address; none where the pair ends the list. Refusals: those of `RawRange::parse`; then
// those of the expression. The input is then left anywhere.
#[tactic(auto, unfolding(crate::specs::RawList::old_entry_at))]
fn parse_bare<R: Reader>(input: &mut R, address_size: u8) -> Result<Option<RawLocListEntry<R>>>
    ensures { read_of (answer_of (option_map (location_entry_of R.view R.Offset.number)) result)
        (R.view input.new) ≡ old_entry_at short_expression_at address_size (R.view input.old) }
{
    let range = RawRange::parse(input, address_size)?;
    if range.is_end() {
        Ok(None)
    } else if range.is_base_address(address_size) {
        Ok(Some(RawLocListEntry::BaseAddress { addr: range.end }))
    } else {
        let expr = read_short_expression(input)?;
        Ok(Some(RawLocListEntry::AddressOrOffsetPair {
            begin: range.begin,
            end: range.end,
            expr,
        }))
    }
}

// The next entry with a code, which stands before its operands and its expression; none where the
// code is `DW_LLE_end_of_list`. Before version 5 it is one of a split file, whose lengths are
// written otherwise. Refusals: `UnexpectedEof`; `UnknownLocListsEntry` of any other code; those of
// the first operand that has one, or of the expression. The input is then left anywhere.
#[tactic(auto, unfolding(crate::specs::LocationEntry::new_location_at))]
fn parse_coded<R: Reader>(
    input: &mut R,
    version: u16,
    address_size: u8,
) -> Result<Option<RawLocListEntry<R>>>
    ensures { read_of (answer_of (option_map (location_entry_of R.view R.Offset.number)) result)
        (R.view input.new) ≡ new_location_at R.Offset.limit version address_size
        (R.view input.old) }
{
    let code = DwLle(input.read_u8()?);
    match code {
        DW_LLE_end_of_list => Ok(None),
        DW_LLE_base_addressx => {
            let addr = read_index(input)?;
            Ok(Some(RawLocListEntry::BaseAddressx { addr }))
        }
        DW_LLE_startx_endx => {
            let begin = read_index(input)?;
            let end = read_index(input)?;
            let expr = read_expression(input, version)?;
            Ok(Some(RawLocListEntry::StartxEndx { begin, end, expr }))
        }
        DW_LLE_startx_length => {
            let begin = read_index(input)?;
            let length = read_indexed_length(input, version)?;
            let expr = read_expression(input, version)?;
            Ok(Some(RawLocListEntry::StartxLength {
                begin,
                length,
                expr,
            }))
        }
        DW_LLE_offset_pair => {
            let begin = input.read_uleb128()?;
            let end = input.read_uleb128()?;
            let expr = read_expression(input, version)?;
            Ok(Some(RawLocListEntry::OffsetPair { begin, end, expr }))
        }
        DW_LLE_default_location => {
            let expr = read_expression(input, version)?;
            Ok(Some(RawLocListEntry::DefaultLocation { expr }))
        }
        DW_LLE_base_address => {
            let addr = input.read_address(address_size)?;
            Ok(Some(RawLocListEntry::BaseAddress { addr }))
        }
        DW_LLE_start_end => {
            let begin = read_address_on_copy(input, address_size)?;
            let end = read_address_on_copy(input, address_size)?;
            let expr = read_expression(input, version)?;
            Ok(Some(RawLocListEntry::StartEnd { begin, end, expr }))
        }
        DW_LLE_start_length => {
            let begin = read_address_on_copy(input, address_size)?;
            let length = input.read_uleb128()?;
            let expr = read_expression(input, version)?;
            Ok(Some(RawLocListEntry::StartLength {
                begin,
                length,
                expr,
            }))
        }
        _ => Err(Error::UnknownLocListsEntry(code)),
    }
}

impl<R: Reader> RawEntry<R> for RawLocListEntry<R> {
    ghost use Rattle.gimli_base.specs.View.{View};

    ghost Payload = { View };

    ghost grammar = { location_grammar R.Offset.limit };

    ghost written = { location_entry_of R.view R.Offset.number };

    fn parse(
        input: &mut R,
        encoding: Encoding,
        format: ListsFormat,
    ) -> Result<Option<RawLocListEntry<R>>> {
        match format {
            ListsFormat::Bare => parse_bare(input, encoding.address_size),
            ListsFormat::Coded => parse_coded(input, encoding.version, encoding.address_size),
        }
    }

    ghost takes_bytes = { location_grammar-takes R.Offset.limit };
}

/// The entries of a location list as they are written, one after the other.
#[derive(Debug, Drop)]
pub struct RawLocListIter<R: Reader> {
    input: R,
    encoding: Encoding,
    format: ListsFormat,
}

impl<R: Reader> Model for RawLocListIter<R> {
    ghost Value = { RawListPlace };

    ghost view = { λ i.
        record { rest = R.view i.input; encoding = i.encoding; format = i.format } };
}

impl<R: Reader> RawLocListIter<R> {
    /// The list that begins where the input begins, in a format, of a unit with this encoding.
    pub(crate) fn new(input: R, encoding: Encoding, format: ListsFormat) -> RawLocListIter<R>
        ensures { result ≡ record { rest = R.view input; encoding = encoding; format = format } }
    {
        RawLocListIter {
            input,
            encoding,
            format,
        }
    }

    /// The number of bytes of an address.
    pub(crate) fn address_size(&self) -> u8
        ensures { result ≡ self.now.encoding.address_size }
    {
        self.encoding.address_size
    }

    /// The next entry, or none where the list ends: at the entry that ends it, or at the end of the
    /// section.
    ///
    /// Its expression is the input's bytes at their place, without the length before them.
    /// Refusals: `UnknownLocListsEntry`, or of the entry's first operand that has one, and then of
    /// its expression: `UnexpectedEof`, `BadUnsignedLeb128`, `UnsupportedAddressSize`,
    /// `UnsupportedOffset` for an index or a length that does not fit. Nothing is left after the
    /// end, and after a refusal.
    pub fn next(&mut self) -> Result<Option<RawLocListEntry<R>>>
        ensures value { (
          answer_of (option_map (location_entry_of R.view R.Offset.number)) result,
          self.new,
        ) ≡ next_raw (location_grammar R.Offset.limit) self.old }

        // An entry stands in front of those that are left; no entry and a refusal say how the list
        // ends.
        ensures ahead { IsFirstOf
            (answer_of (option_map (location_entry_of R.view R.Offset.number)) result)
            (raw_list_ahead (location_grammar R.Offset.limit) self.old)
            (raw_list_ahead (location_grammar R.Offset.limit) self.new) }
        ensures takes { MatchResult result
            (λ entry. OnSome entry (length self.new.rest.bytes < length self.old.rest.bytes))
            (λ _. length self.new.rest.bytes < length self.old.rest.bytes) }
    {
        take_entry(&mut self.input, self.encoding, self.format)
    }
}

impl<R: Reader> Iterator for RawLocListIter<R> {
    type Item = Result<RawLocListEntry<R>>;

    ghost next_gives = { λ s r t.
        ((answer_of (option_map (location_entry_of R.view R.Offset.number)) (transpose r), t)
        ≡ next_raw (location_grammar R.Offset.limit) s)
        × IsFirstOf
        (answer_of (option_map (location_entry_of R.view R.Offset.number)) (transpose r))
        (raw_list_ahead (location_grammar R.Offset.limit) s)
        (raw_list_ahead (location_grammar R.Offset.limit) t) };

    ghost remaining = { λ s. at_most (length s.rest.bytes) };

    // As the other `next`: a refusal is an item, and nothing is left after it.
    fn next(&mut self) -> Option<Result<RawLocListEntry<R>>> {
        RawLocListIter::next(self).transpose()
    }
}
