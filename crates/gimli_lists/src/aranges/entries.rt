//! The ranges of a set, and how its tuples are read (DWARF 5, 6.1.2).

ghost use Rattle.std.specs.Prelude.{◌≡◌, ◌<◌, ◌++◌, length, IsTrue, MatchResult, OnSome, Ok, None};
ghost use Rattle.std.specs.Prelude.{[]};
ghost use Rattle.std.specs.Iterator.{at_most};
ghost use Rattle.std.specs.Option.{option_to_list, option_transpose};
ghost use Rattle.gimli_base.specs.Reading.{is_size};
ghost use Rattle.gimli_lists.specs.Aranges.{ArangesPlace, next_tuple, raw_entry, converted_arange};
ghost use Rattle.gimli_lists.specs.Aranges.{answer_to, first_of_tuples, next_raw_entry};
ghost use Rattle.gimli_lists.specs.Aranges.{next_arange, raw_entries, aranges_of, aranges_ahead};
ghost use Rattle.gimli_lists.specs.Aranges.{IsNextArange};

use crate::Range;
use crate::rnglists::entry::RawRange;
use gimli_base::{Encoding, Reader, ReaderAddress, ReaderOffset, Result};
use std::fmt::Debug;
use std::marker::Model;

/// The ranges of a set, one after the other.
#[derive(Debug, Drop)]
pub struct ArangeEntryIter<R: Reader> {
    input: R,
    encoding: Encoding,
}

impl<R: Reader> Model for ArangeEntryIter<R> {
    ghost Value = { ArangesPlace };

    ghost view = { λ a. record { rest = R.view a.input; encoding = a.encoding } };

    ghost invariant = { λ a. IsTrue (is_size a.encoding.address_size) };
}

impl<R: Reader> ArangeEntryIter<R> {
    // The ranges of a set whose tuples are these. The size of addresses has to be 1, 2, 4 or 8.
    pub(super) fn new(tuples: R, encoding: Encoding) -> Self
        requires { IsTrue (is_size encoding.address_size) }
        ensures { result ≡ record { rest = R.view tuples; encoding = encoding } }
    {
        ArangeEntryIter {
            input: tuples,
            encoding,
        }
    }

    /// An iterator that stands where this one stands.
    pub fn copy(&self) -> Self
        ensures { result ≡ self.now }
    {
        ArangeEntryIter {
            input: self.input.copy(),
            encoding: self.encoding,
        }
    }

    /// The next range, or none where no tuple is left. Tuples of two zeros, and those whose address
    /// stands for none, are passed; a range of length 0 is not. A last piece that is shorter than a
    /// tuple is none.
    ///
    /// Refusal: `AddressOverflow`, where the end does not fit the size of an address; the call
    /// after it goes on after that tuple.
    #[inline(always)]
    pub fn next(&mut self) -> Result<Option<ArangeEntry>>
        ensures value { result ≡ option_transpose (next_arange self.old).0 }
        ensures left { self.new ≡ (next_arange self.old).1 }
        ensures ahead { aranges_of self.old.encoding.address_size self.old.rest
            ≡ option_to_list (next_arange self.old).0
            ++ aranges_of self.new.encoding.address_size self.new.rest }
        ensures ended { result ≡ Ok None → aranges_ahead self.old ≡ [] }
        ensures takes { MatchResult result
            (λ entry. OnSome entry (length self.new.rest.bytes < length self.old.rest.bytes))
            (λ _. length self.new.rest.bytes < length self.old.rest.bytes) }
    {
        next_range(&mut self.input, self.encoding.address_size)
    }

    /// The next tuple that is not two zeros, or none where none is left. Its end is 0, and its
    /// address may be one that stands for none. The call is never refused.
    pub fn next_raw(&mut self) -> Result<Option<ArangeEntry>>
        ensures value { result ≡ Ok (next_raw_entry self.old).0 }
        ensures left { self.new ≡ (next_raw_entry self.old).1 }
        ensures ahead { raw_entries self.old.encoding.address_size self.old.rest
            ≡ option_to_list (next_raw_entry self.old).0
            ++ raw_entries self.new.encoding.address_size self.new.rest }
        ensures ended { let size = self.old.encoding.address_size in
            result ≡ Ok None → raw_entries size self.old.rest ≡ [] }
        ensures takes { MatchResult result
            (λ entry. OnSome entry (length self.new.rest.bytes < length self.old.rest.bytes))
            (λ _. length self.new.rest.bytes < length self.old.rest.bytes) }
    {
        next_entry(&mut self.input, self.encoding.address_size)
    }

    /// The range of a tuple that `next_raw` gave: its end is its beginning and its length. None
    /// where the address stands for none: it is all ones, or one less, in the size of an address.
    ///
    /// Refusal: `AddressOverflow`, where the end does not fit the size of an address.
    pub fn convert_raw(&self, entry: ArangeEntry) -> Result<Option<ArangeEntry>>
        ensures { result ≡ converted_arange self.now.encoding.address_size entry }
    {
        convert(entry, self.encoding.address_size)
    }
}

impl<R: Reader> Iterator for ArangeEntryIter<R> {
    type Item = Result<ArangeEntry>;

    ghost next_gives = { λ s r t. IsNextArange s r t };

    ghost remaining = { λ s. at_most (length s.rest.bytes) };

    // As the other `next`: a refusal is an item, and the call after it goes on after that tuple.
    fn next(&mut self) -> Option<Result<ArangeEntry>> {
        ArangeEntryIter::next(self).transpose()
    }
}

/// A range of addresses of a set, with its length.
///
/// Entries are ordered by their ranges, and those of the same range by their lengths.
#[derive(Clone, Copy, Debug, PartialEq, Eq, PartialOrd, Ord)]
pub struct ArangeEntry {
    range: Range,
    length: u64,
}

impl ArangeEntry {
    /// The same entry.
    pub fn copy(&self) -> Self
        ensures { result ≡ self.now }
    {
        *self
    }

    /// The first address.
    pub fn address(&self) -> u64
        ensures { result ≡ self.now.range.begin }
    {
        self.range.begin
    }

    /// The number of addresses.
    pub fn length(&self) -> u64
        ensures { result ≡ self.now.length }
    {
        self.length
    }

    /// The range; its end is 0 in an entry that `next_raw` gave.
    pub fn range(&self) -> Range
        ensures { result ≡ self.now.range }
    {
        self.range
    }
}

// The address and the length of the next tuple of a set, or none where fewer bytes are left than a
// tuple has; they are passed then. The call is never refused. The size of an address has to be 1,
// 2, 4 or 8.
#[inline(always)]
fn next_tuple<R: Reader>(input: &mut R, address_size: u8) -> Result<Option<(u64, u64)>>
    requires { IsTrue (is_size address_size) }
    ensures { (result, R.view input.new) ≡ next_tuple address_size (R.view input.old) }
{
    if input.len().into_u64() < u64::from(2 * address_size) {
        input.empty();
        return Ok(None);
    }
    // (the length has the size of an address, so that a tuple is read as a pair of addresses)
    let pair = RawRange::parse(input, address_size)?;
    Ok(Some((pair.begin, pair.end)))
}

// The entry of a tuple as it stands: its end is 0, and its address may be one that stands for none.
// Two zeros are none.
#[inline(always)]
fn raw_entry(address: u64, length: u64) -> Option<ArangeEntry>
    ensures { result ≡ raw_entry (address, length) }
{
    if address == 0 && length == 0 {
        return None;
    }
    let range = Range {
        begin: address,
        end: 0,
    };
    Some(ArangeEntry { range, length })
}

// The next tuple of a set that is not two zeros, as `raw_entry` makes it, or none where none is
// left. The call is never refused. The size of an address has to be 1, 2, 4 or 8.
#[inline(always)]
fn next_entry<R: Reader>(input: &mut R, address_size: u8) -> Result<Option<ArangeEntry>>
    requires { IsTrue (is_size address_size) }
    ensures value { result ≡ Ok (first_of_tuples raw_entry address_size (R.view input.old)).0 }
    ensures left { R.view input.new
        ≡ (first_of_tuples raw_entry address_size (R.view input.old)).1 }
    ensures takes { MatchResult result
        (λ entry. OnSome entry (length (R.view input.new).bytes < length (R.view input.old).bytes))
        (λ _. length (R.view input.new).bytes < length (R.view input.old).bytes) }
{
    while let Some((address, length)) = next_tuple(input, address_size)? {
        if let Some(entry) = raw_entry(address, length) {
            return Ok(Some(entry));
        }
    }
    Ok(None)
}

// The range of a tuple that `raw_entry` made, with its end, or none where its address stands for
// none. Refusal: `AddressOverflow`, where the end does not fit the size of an address, which has to
// be 1, 2, 4 or 8.
#[inline(always)]
fn convert(entry: ArangeEntry, address_size: u8) -> Result<Option<ArangeEntry>>
    requires { IsTrue (is_size address_size) }
    ensures { result ≡ converted_arange address_size entry }
{
    let begin = entry.range.begin;
    let length = entry.length;
    if begin >= u64::min_tombstone(address_size) {
        return Ok(None);
    }
    let end = begin.add_sized(length, address_size)?;
    let range = Range { begin, end };
    Ok(Some(ArangeEntry { range, length }))
}

// The next range of a set, or none where no tuple is left; two zeros, and tuples whose address
// stands for none, are passed. Refusal: that of `convert`; what follows the refused tuple is left
// then. The size of an address has to be 1, 2, 4 or 8.
#[inline(always)]
fn next_range<R: Reader>(input: &mut R, address_size: u8) -> Result<Option<ArangeEntry>>
    requires { IsTrue (is_size address_size) }
    ensures value { result
        ≡ option_transpose
        (first_of_tuples (answer_to address_size) address_size (R.view input.old)).0 }
    ensures left { R.view input.new
        ≡ (first_of_tuples (answer_to address_size) address_size (R.view input.old)).1 }
    ensures takes { MatchResult result
        (λ entry. OnSome entry (length (R.view input.new).bytes < length (R.view input.old).bytes))
        (λ _. length (R.view input.new).bytes < length (R.view input.old).bytes) }
{
    while let Some(raw_entry) = next_entry(input, address_size)? {
        if let Some(entry) = convert(raw_entry, address_size)? {
            return Ok(Some(entry));
        }
    }
    Ok(None)
}
