//! The reading of a list's next entry, of ranges or of locations alike.

ghost use Rattle.std.specs.Prelude.{◌≡◌, ◌<◌, length, MatchResult, OnSome};
ghost use Rattle.std.specs.Option.{option_map};
ghost use Rattle.gimli_base.specs.Offset.{answer_of};
ghost use Rattle.gimli_base.specs.Reading.{read_of};
ghost use Rattle.gimli_lists.specs.Places.{Grammar, TakesBytes, RawListPlace, next_raw};
ghost use Rattle.gimli_lists.specs.Places.{raw_list_ahead};
ghost use Rattle.gimli_lists.specs.RawList.{ListEntry, IsFirstOf};

use crate::lists::ListsFormat;
use gimli_base::{Encoding, Reader, Result};

/// An entry of a list, as it is written, and how it is read.
pub(crate) trait RawEntry<R: Reader>: Drop {
    // what stands after the operands of an entry
    ghost Payload: { Type 0 };

    // how the entries are read
    ghost grammar: { Grammar Payload };

    // the entry that code holds
    ghost written: { Self → ListEntry Payload };

    /// The next entry, in a format and of the version and size of addresses of `encoding`, or none
    /// where the entry that ends the list stands, which is passed too. Each takes a byte at least,
    /// so that an input without bytes is refused. After a refusal the input is left anywhere.
    fn parse(input: &mut R, encoding: Encoding, format: ListsFormat) -> Result<Option<Self>>
        ensures { read_of (answer_of (option_map written) result) (R.view input.new)
            ≡ grammar format encoding (R.view input.old) };

    ghost takes_bytes: { TakesBytes grammar };
}

/// Takes the next entry of a list, or none where it ends: at the entry that ends it, or where no
/// byte is left. Nothing is left after the end, and after a refusal. Refusals: those of
/// `RawEntry::parse`.
#[inline(always)]
#[tactic(auto, unfolding(crate::specs::RawList::next_entry, crate::specs::Places::next_raw))]
pub(crate) fn take_entry<R: Reader, E: RawEntry<R>>(
    input: &mut R,
    encoding: Encoding,
    format: ListsFormat,
) -> Result<Option<E>>
    ensures value { (
      answer_of (option_map E.written) result,
      (record { rest = R.view input.new; encoding = encoding; format = format }),
    )
        ≡ next_raw E.grammar
        (record { rest = R.view input.old; encoding = encoding; format = format }) }

    // An entry stands in front of those that are left; no entry and a refusal say how the list
    // ends.
    ensures ahead { IsFirstOf (answer_of (option_map E.written) result)
        (raw_list_ahead E.grammar
        (record { rest = R.view input.old; encoding = encoding; format = format }))
        (raw_list_ahead E.grammar
        (record { rest = R.view input.new; encoding = encoding; format = format })) }
    ensures takes { MatchResult result
        (λ entry. OnSome entry (length (R.view input.new).bytes < length (R.view input.old).bytes))
        (λ _. length (R.view input.new).bytes < length (R.view input.old).bytes) }
{
    if input.is_empty() {
        return Ok(None);
    }
    let mut rest = input.copy();
    match E::parse(&mut rest, encoding, format) {
        Ok(Some(entry)) => {
            *input = rest;
            Ok(Some(entry))
        }
        Ok(None) => {
            input.empty();
            Ok(None)
        }
        Err(error) => {
            input.empty();
            Err(error)
        }
    }
}
