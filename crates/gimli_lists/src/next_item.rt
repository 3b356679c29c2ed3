//! The walk over the entries of a list, of ranges or of locations alike, up to one that stands for
//! something.

ghost use Rattle.std.specs.Prelude.{◌≡◌, ℕ, ◌<◌, length, MatchResult, IfOk, IfSome, IfNone, OnSome};
ghost use Rattle.std.specs.Prelude.{None};
ghost use Rattle.std.specs.Option.{option_map};
ghost use Rattle.gimli_base.specs.Offset.{answer_of};
ghost use Rattle.gimli_lists.specs.Resolved.{IsSoundRange};
ghost use Rattle.gimli_lists.specs.Places.{Grammar, TakesBytes, ListPlace, next_raw};
ghost use Rattle.gimli_lists.specs.Places.{entry_conversion};
ghost use Rattle.gimli_lists.specs.Places.{answers_ahead, InList, IsAfterEntries, IsSpent};
ghost use Rattle.gimli_lists.specs.Places.{read_from, in_parts};
ghost use Rattle.gimli_lists.specs.RawList.{ListEntry};
ghost use Rattle.gimli_lists.specs.Resolved.{Resolved, answer_then};

use gimli_base::{Error, Result};

/// A list whose entries are read one by one, and whose base address each of them may change.
pub(crate) trait EntryWalk {
    /// An entry, as it is written.
    type Entry;
    /// What an entry stands for.
    type Item;

    // what stands after the operands of an entry
    ghost Payload: { Type 0 };

    // the offsets of the list's reader are the numbers below this
    ghost limit: { ℕ };

    // how the entries are read
    ghost grammar: { Grammar Payload };

    // where the walk stands
    ghost place: { Self → ListPlace };

    // the entry that code holds
    ghost written: { Self.Entry → ListEntry Payload };

    // what code holds of an entry's meaning
    ghost resolved: { Self.Item → Resolved Payload };

    /// Takes the next entry, or none after the last. The base address stays, also where an entry
    /// gives one. Nothing is left after the last entry, and after a refusal.
    fn take_raw(&mut self) -> Result<Option<Self::Entry>>
        ensures value { (answer_of (option_map written) result, (place self.new).raw)
            ≡ next_raw grammar (place self.old).raw }
        ensures same { place self.new ≡ record (place self.old) { raw = (place self.new).raw } }
        ensures takes { MatchResult result
            (λ entry. OnSome entry
            (length (place self.new).raw.rest.bytes < length (place self.old).raw.rest.bytes))
            (λ _. length (place self.new).raw.rest.bytes
            < length (place self.old).raw.rest.bytes) };

    /// What an entry stands for with the base address at hand, or none where it stands for nothing.
    /// An entry that gives a base address stands for nothing, and its base is at hand then. What is
    /// left of the list stays. Refusals are those of the look-up of an address by its index; the
    /// base stays then.
    fn convert(&mut self, raw: Self::Entry) -> Result<Option<Self::Item>>
        ensures { (answer_of (option_map resolved) result, place self.new)
            ≡ entry_conversion limit (written raw) (place self.old) };

    ghost takes_bytes: { TakesBytes grammar };
}

/// What the next entry stands for that stands for something, or none after the last entry. The
/// entries before it are taken too, and the base address that they give is at hand.
///
/// Refusals: those of `EntryWalk::take_raw`, after which nothing is left, and those of
/// `EntryWalk::convert`, after which the entries after the refused one are left.
///
/// The answer is put together where the call stands: one that comes as a whole through memory is
/// written in pieces and read as a word, which has to wait for them.
#[inline(always)]
pub(crate) fn next_item<W: EntryWalk>(walk: &mut W) -> Result<Option<W::Item>>
    ensures ahead { answers_ahead W.grammar W.limit (W.place walk.old)
        ≡ answer_then (answer_of (option_map W.resolved) result)
        (answers_ahead W.grammar W.limit (W.place walk.new)) }

    // The entries that stand for nothing are read, and the one after them; the base before the
    // others is at hand.
    ensures place { IsAfterEntries W.grammar W.limit
        (read_from W.grammar W.limit (W.place walk.old)) (W.place walk.old) (W.place walk.new) }
    ensures same { InList (W.place walk.old) (W.place walk.new) }
    ensures takes { MatchResult result
        (λ item.
        OnSome item
        (length (W.place walk.new).raw.rest.bytes < length (W.place walk.old).raw.rest.bytes))
        (λ _. length (W.place walk.new).raw.rest.bytes < length (W.place walk.old).raw.rest.bytes) }
    ensures ended { IfOk result
        (λ item. IfNone item (length (W.place walk.new).raw.rest.bytes ≡ 0)) }

    // Where none of the entries that are left answers anything, nothing is left, whether the list
    // ends or is refused.
    ensures spent { IsSpent W.grammar W.limit (W.place walk.old) (W.place walk.new) }

    // What stands for addresses begins below its end, and below the least address that stands for
    // none.
    ensures sound { IfOk result
        (λ item. IfSome item (λ i.
        IsSoundRange (W.place walk.old).raw.encoding.address_size (W.resolved i))) }
{
    let mut refusal = None;
    let item = item_in_parts(walk, &mut refusal);
    whole_answer(item, refusal)
}

// The answer whose two parts these are: the item, or without one the refusal, or without both none.
#[inline(always)]
fn whole_answer<T>(item: Option<T>, refusal: Option<Error>) -> Result<Option<T>>
    ensures { result ≡ in_parts item refusal }
{
    match item {
        Some(item) => Ok(Some(item)),
        None => match refusal {
            Some(error) => Err(error),
            None => Ok(None),
        },
    }
}

// The answer of `first_item` in two parts: what the entry stands for is answered, and a refusal is
// put into `refusal`, which has to be none before. After the last entry both are none.
fn item_in_parts<W: EntryWalk>(walk: &mut W, refusal: &mut Option<Error>) -> Option<W::Item>
    requires { refusal.old ≡ None }
    ensures ahead { answers_ahead W.grammar W.limit (W.place walk.old)
        ≡ answer_then (answer_of (option_map W.resolved) (in_parts result refusal.new))
        (answers_ahead W.grammar W.limit (W.place walk.new)) }
    ensures place { IsAfterEntries W.grammar W.limit
        (read_from W.grammar W.limit (W.place walk.old)) (W.place walk.old) (W.place walk.new) }
    ensures same { InList (W.place walk.old) (W.place walk.new) }
    ensures takes { MatchResult (in_parts result refusal.new)
        (λ item.
        OnSome item
        (length (W.place walk.new).raw.rest.bytes < length (W.place walk.old).raw.rest.bytes))
        (λ _. length (W.place walk.new).raw.rest.bytes < length (W.place walk.old).raw.rest.bytes) }
    ensures ended { IfOk (in_parts result refusal.new)
        (λ item. IfNone item (length (W.place walk.new).raw.rest.bytes ≡ 0)) }
    ensures spent { IsSpent W.grammar W.limit (W.place walk.old) (W.place walk.new) }
    ensures sound { IfOk (in_parts result refusal.new)
        (λ item. IfSome item (λ i.
        IsSoundRange (W.place walk.old).raw.encoding.address_size (W.resolved i))) }
{
    match first_item(walk) {
        Ok(item) => item,
        Err(error) => {
            *refusal = Some(error);
            None
        }
    }
}

// The answer of `next_item`, by the loop over the entries: each is taken and converted, up to the
// first that stands for something or is refused.
#[inline]
fn first_item<W: EntryWalk>(walk: &mut W) -> Result<Option<W::Item>>
    ensures ahead { answers_ahead W.grammar W.limit (W.place walk.old)
        ≡ answer_then (answer_of (option_map W.resolved) result)
        (answers_ahead W.grammar W.limit (W.place walk.new)) }
    ensures place { IsAfterEntries W.grammar W.limit
        (read_from W.grammar W.limit (W.place walk.old)) (W.place walk.old) (W.place walk.new) }
    ensures same { InList (W.place walk.old) (W.place walk.new) }
    ensures takes { MatchResult result
        (λ item.
        OnSome item
        (length (W.place walk.new).raw.rest.bytes < length (W.place walk.old).raw.rest.bytes))
        (λ _. length (W.place walk.new).raw.rest.bytes < length (W.place walk.old).raw.rest.bytes) }
    ensures ended { IfOk result
        (λ item. IfNone item (length (W.place walk.new).raw.rest.bytes ≡ 0)) }
    ensures spent { IsSpent W.grammar W.limit (W.place walk.old) (W.place walk.new) }
    ensures sound { IfOk result
        (λ item. IfSome item (λ i.
        IsSoundRange (W.place walk.old).raw.encoding.address_size (W.resolved i))) }
{
    'entries: while let Some(raw) = walk.take_raw()? {
        if let Some(item) = walk.convert(raw)? {
            return Ok(Some(item));
        }
    }
    Ok(None)
}
