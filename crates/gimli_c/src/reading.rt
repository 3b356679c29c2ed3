//! Entries that are read one after the other, each into the head of its row.

ghost use Rattle.std.specs.Prelude.{◌≡◌, ◌≢◌, ◌↔◌, true, [], map, length};
ghost use Rattle.std.specs.Prelude.{IsTrue, IsOk, IfOk, IfErr, OnOk, OnErr, MatchResult, Ok};
ghost use Rattle.gimli_base.specs.Table.{Table, codes_of};
ghost use Rattle.gimli_base.specs.Reading.{read_of, answer_leaving, map_read, UnlessMemory};
ghost use Rattle.gimli_units.specs.Entry.{attributes_at, abbreviation_at, entry_at, takes_memory};
ghost use Rattle.gimli_units.specs.RawPlace.{RawPlace, next_offset_of};
ghost use Rattle.gimli_units.specs.UnitHeld.{unit_view};
ghost use Rattle.gimli_base.specs.declared.error.Error.TheVariants.{OutOfMemory};
ghost use Rattle.gimli_c.specs.Attrs.{attr_of};
ghost use Rattle.gimli_c.specs.Heads.{null_head, declared_head, IsReadPast, IsReadWith, AsksMemory};
ghost use Rattle.gimli_c.specs.Heads.{GoesOn, IsOpened};
ghost use Rattle.gimli_c.specs.Fronts.{at, ahead_of, unit_ahead, IsIdle, StandsAt};
ghost use Rattle.gimli_c.specs.Status.{memory_refused, row_memory_refused};

use crate::attrs::Numbers;
use crate::status::{END, TOO_DEEP, refusal_status};
use gimli_base::{Abbreviation, AttributeSpecification, Reader, ReaderOffset, Result};
use gimli_units::{EntriesRaw, UnitHeader};
use std::alloc::Allocator;

/// What a row says of its entry: of a null zeros.
#[derive(Clone, Copy)]
pub(crate) struct Head {
    pub(crate) tag: u16,
    pub(crate) has_children: u8,
}

impl Head {
    /// The head of the null that closes a list of children.
    #[inline(always)]
    pub(crate) fn null() -> Head
        ensures { result ≡ null_head }
    {
        Head {
            tag: 0,
            has_children: 0,
        }
    }
}

/// A reader of the entries of a unit, one after the other, by a table of abbreviations.
///
/// A refused call leaves it as it was.
pub(crate) trait ReadEntries<R: Reader> {
    // where it stands
    ghost place: { Self → RawPlace };

    // the steps of its table are those of the attributes
    ghost has_steps: { Self → Type 0 };

    /// Whether no byte is left.
    fn is_empty(&self) -> bool
        ensures { IsTrue result ↔ (length (place self.now).rest.bytes ≡ 0) };

    /// The offset in the unit of what is read next.
    fn next_offset(&self) -> u64
        ensures { result ≡ next_offset_of (place self.now) };

    /// The depth of what is read next.
    fn next_depth(&self) -> isize
        ensures { result ≡ (place self.now).depth };

    /// Passes the next entry, a null too, and answers its head. Refusals: those of
    /// `EntriesRaw::read_entry` but `OutOfMemory`, as no attribute is kept. Where the steps of its
    /// table are not those of the attributes, it goes on anywhere.
    fn pass(&mut self) -> Result<Head>
        ensures past { has_steps self.old → IfOk result
            (λ head. IsReadPast R.Offset.limit (place self.old) head (place self.new)) }
        ensures refused { let p = place self.old in has_steps self.old →
            IfErr result (λ e. Err e
            ≡ entry_at R.Offset.limit p.encoding (codes_of p.abbreviations) p.rest) }
        ensures further { OnOk result (GoesOn (place self.old) (place self.new)) }
        ensures memory { IfErr result (λ e. e ≡ OutOfMemory → ⊥) }
        ensures kept { OnErr result (place self.new ≡ place self.old) }
        ensures steps { has_steps self.old → has_steps self.new };

    /// Reads the next entry, a null too, and answers its head; its attributes take the place of
    /// those in `numbers`. Refusals: those of `EntriesRaw::read_entry`; `OutOfMemory` only where
    /// the entry's declaration has attributes. After a refusal `numbers` are left anywhere.
    fn read<A: Allocator>(&mut self, numbers: &mut Numbers<A>) -> Result<Head>
        ensures past { IfOk result (λ head. IsReadWith R.Offset.limit (place self.old) head
            numbers.new.0.items (place self.new)) }
        ensures refused { let p = place self.old in
            IfErr result (λ e. (e ≡ OutOfMemory → ⊥) → Err e
            ≡ entry_at R.Offset.limit p.encoding (codes_of p.abbreviations) p.rest) }
        ensures memory { let p = place self.old in
            IfErr result (λ _. AsksMemory
            (entry_at R.Offset.limit p.encoding (codes_of p.abbreviations) p.rest)) }
        ensures takes { let p = place self.old in
            IfErr result (λ e. e ≡ OutOfMemory
            → takes_memory (abbreviation_at (codes_of p.abbreviations) p.rest) ≡ true) }
        ensures kept { OnErr result (place self.new ≡ place self.old) };
}

/// The reader of a unit's entries that was opened at an offset, where rows are read from there on.
/// Else the status of the call, the first of these: `END`, where the offset is the unit's end; the
/// refusal of opening the reader; `TOO_DEEP`, where depths from `depth` on may not fit an `isize`.
pub(crate) fn start_at<R: Reader, T: ReadEntries<R> + Drop>(
    unit: &UnitHeader<R>,
    opened: Result<T>,
    offset: R::Offset,
    depth: isize,
) -> std::result::Result<T, u32>
    requires { (t : Table)
        × IsOpened T.place (unit_view unit.now) t (R.Offset.number offset) opened }
    ensures opened { IfOk result (λ entries. opened ≡ Ok entries) }
    ensures stands { let place = at (R.Offset.number offset) depth in
        IfOk result (λ entries. StandsAt place (T.place entries)) }
    ensures ahead { let number = R.Offset.number offset in
        let place = at number depth in
        (t : Table) → IsOpened T.place (unit_view unit.now) t number opened
        → let ahead = unit_ahead R.Offset.limit (unit_view unit.now) (codes_of t) place in
        MatchResult result
        (λ entries. ahead ≡ Ok (ahead_of R.Offset.limit depth (T.place entries)))
        (λ status. IsIdle ahead place status) }
    ensures memory { IfErr result (λ status. status ≡ memory_refused → ⊥) }
    ensures row_memory { IfErr result (λ status. status ≡ row_memory_refused → ⊥) }
{
    let whole = unit.length_including_self().into_u64();
    let start = offset.into_u64();
    if start == whole {
        return Err(END);
    }
    let entries = match opened {
        Ok(entries) => entries,
        Err(error) => return Err(refusal_status(error)),
    };
    let left = whole - start;
    let steps = depth.unsigned_abs() as u64;
    if left >= 1 << 63 || steps >= (1 << 63) - left {
        return Err(TOO_DEEP);
    }
    Ok(entries)
}

impl<'abbrev, R: Reader, B: Allocator> ReadEntries<R> for EntriesRaw<'abbrev, R, B> {
    ghost place = { λ e. e };

    ghost has_steps = { λ _. Unit {0} };

    #[inline(always)]
    fn is_empty(&self) -> bool {
        self.is_empty()
    }

    #[inline(always)]
    fn next_offset(&self) -> u64 {
        self.next_offset().0.into_u64()
    }

    #[inline(always)]
    fn next_depth(&self) -> isize {
        self.next_depth()
    }

    #[inline(always)]
    fn pass(&mut self) -> Result<Head> {
        match self.read_head()? {
            Some(declared) => Ok(declared_head(declared)),
            None => Ok(Head::null()),
        }
    }

    #[inline(always)]
    fn read<A: Allocator>(&mut self, numbers: &mut Numbers<A>) -> Result<Head> {
        numbers.0.clear();
        let mut rest = self.copy();
        let Some(declared) = rest.read_abbreviation()? else {
            *self = rest;
            return Ok(Head::null());
        };
        let head = declared_head(declared);
        push_numbers(&mut rest, declared.attributes(), numbers)?;
        *self = rest;
        Ok(head)
    }
}

// The head of the entries of a declaration, by its tag and its `has_children`.
#[inline(always)]
fn declared_head<A: Allocator>(declared: &Abbreviation<A>) -> Head
    ensures value { result ≡ declared_head declared.now }
    ensures set { declared.now.tag.0 ≢ 0 }
{
    Head {
        tag: declared.tag().0,
        has_children: u8::from(declared.has_children()),
    }
}

// Reads the attributes of these specifications into an empty list. Refusals: `OutOfMemory`, which
// does not come where there are none; those of `EntriesRaw::read_attribute`. `entries` and the list
// are then left anywhere.
#[inline(always)]
fn push_numbers<R: Reader, A: Allocator, B: Allocator>(
    entries: &mut EntriesRaw<'_, R, B>,
    specifications: &[AttributeSpecification],
    numbers: &mut Numbers<A>,
) -> Result<()>
    requires { numbers.old.0.items ≡ [] }
    ensures value { UnlessMemory result
        (read_of (answer_leaving numbers.new.0.items result) entries.new.rest
        ≡ map_read (map attr_of)
        (attributes_at R.Offset.limit entries.old.encoding specifications.now entries.old.rest)) }
    ensures none { specifications.now ≡ [] → IsOk result }
    ensures same { entries.new ≡ record entries.old { rest = entries.new.rest } }
{
    numbers.0.reserve(specifications.len())?;
    let mut rest = entries.copy();
    for specification in specifications {
        rest.read_attribute_to(specification, numbers)?;
    }
    *entries = rest;
    Ok(())
}
