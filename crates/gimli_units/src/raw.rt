//! Entries that are read one after the other.

ghost use Rattle.std.specs.Prelude.{◌≡◌, ◌+◌, ◌-◌, ◌<◌, ◌≤◌, ◌^◌, ◌==◌, ◌↔◌, pos, ◌-ℤ◌, not};
ghost use Rattle.std.specs.Prelude.{length, map, IsTrue, IsOk, IfOk, IfErr, OnOk, OnErr, Option};
ghost use Rattle.std.specs.Prelude.{IfSome, ◌≢◌};
ghost use Rattle.std.specs.Prelude.{[], true, false, unsigned_abs, Some};
ghost use Rattle.std.specs.Option.{option_copied, option_map};
ghost use Rattle.std.specs.Ordering.{int_eq};
ghost use Rattle.gimli_base.specs.Offset.{answer_of};
ghost use Rattle.gimli_base.specs.View.{end_of_view};
ghost use Rattle.gimli_base.specs.Reading.{read_of, answer_leaving, UnlessMemory};
ghost use Rattle.gimli_base.specs.Reading.{PassesAs, map_read};
ghost use Rattle.gimli_base.specs.Table.{codes_of};
ghost use Rattle.gimli_units.specs.Value.{map_attribute};
ghost use Rattle.gimli_units.specs.Entry.{attribute_at, attributes_at, abbreviation_at, entry_at};
ghost use Rattle.gimli_units.specs.Entry.{entry_of, null_entry, is_null, takes_memory};
ghost use Rattle.gimli_units.specs.Head.{head, head_of, head_with_sibling, head_and_sibling};
ghost use Rattle.gimli_units.specs.Head.{IsDeclaredAt, sibling_below};
ghost use Rattle.gimli_units.specs.Passing.{pass_all, without_place, NamesPlaceOf};
ghost use Rattle.gimli_units.specs.RawPlace.{RawPlace, next_offset_of, below_flag, depth_read};
ghost use Rattle.gimli_units.specs.RawPlace.{depth_after, abbreviation_ahead, entry_ahead, Advances};
ghost use Rattle.gimli_units.specs.Taking.{HandedOver};
ghost use Rattle.gimli_units.specs.Honest.{within};
ghost use Rattle.gimli_units.specs.SearchSteps.{stands_at, stands_if};

use crate::attribute::sink::{AttributeSink, Return};
use crate::form::read_form;
use crate::pass::{pass_and_find_sibling, pass_declared};
use crate::skip::skip_all;
use crate::{Attribute, DebuggingInformationEntry, UnitOffset};
use gimli_base::{
    Abbreviation, Abbreviations, AttributeSpecification, Encoding, Error, Reader, ReaderOffset,
    Result,
};
use std::alloc::Allocator;
use std::marker::Model;

/// A reader of entries, of which each call says what is read next: an entry, or its code and its
/// attributes.
///
/// A refused call leaves it as it was.
#[derive(Drop)]
#[derive_where(Debug)]
pub struct EntriesRaw<'abbrev, R: Reader, A: Allocator> {
    input: R,
    encoding: Encoding,
    abbreviations: &'abbrev Abbreviations<A>,
    // the offset of the end of the input
    end_offset: UnitOffset<R::Offset>,
    depth: isize,
}

impl<'abbrev, R: Reader, A: Allocator> Model for EntriesRaw<'abbrev, R, A> {
    ghost Value = { RawPlace };

    ghost view = { λ e.
        record {
          rest = R.view e.input;
          encoding = e.encoding;
          abbreviations = e.abbreviations.now;
          end = R.Offset.number e.end_offset.0;
          depth = e.depth;
        } };

    ghost invariant = { λ e. (length (R.view e.input).bytes ≤ R.Offset.number e.end_offset.0)
        × (unsigned_abs e.depth + length (R.view e.input).bytes < 2 ^ 63) };
}

impl<'abbrev, R: Reader, A: Allocator> EntriesRaw<'abbrev, R, A> {
    /// A reader of the entries in `input`, whose first byte has the offset `offset` in its unit;
    /// what is read first has depth 0. The offset of the input's end has to fit the reader's
    /// offsets.
    pub fn new(
        input: R,
        encoding: Encoding,
        abbreviations: &'abbrev Abbreviations<A>,
        offset: UnitOffset<R::Offset>,
    ) -> Self
        requires { R.Offset.number offset.0 + length (R.view input).bytes < R.Offset.limit }
        ensures { result
            ≡ record {
              rest = R.view input;
              encoding = encoding;
              abbreviations = abbreviations.now;
              end = R.Offset.number offset.0 + length (R.view input).bytes;
              depth = pos 0;
            } }
    {
        let end = offset.0.checked_add(input.len()).unwrap();
        EntriesRaw {
            input,
            encoding,
            abbreviations,
            end_offset: UnitOffset(end),
            depth: 0,
        }
    }

    /// A reader that stands where this one stands.
    #[inline(always)]
    pub fn copy(&self) -> Self
        ensures { result ≡ self.now }
    {
        EntriesRaw {
            input: self.input.copy(),
            encoding: self.encoding,
            abbreviations: self.abbreviations,
            end_offset: self.end_offset,
            depth: self.depth,
        }
    }

    /// Whether no byte is left.
    #[inline]
    pub fn is_empty(&self) -> bool
        ensures { IsTrue result ↔ (length self.now.rest.bytes ≡ 0) }
    {
        self.input.is_empty()
    }

    /// The offset in the unit of what is read next, or of the input's end where no byte is left.
    #[inline]
    pub fn next_offset(&self) -> UnitOffset<R::Offset>
        ensures { R.Offset.number result.0 ≡ next_offset_of self.now }
    {
        UnitOffset(self.end_offset.0.checked_sub(self.input.len()).unwrap())
    }

    /// The depth of what is read next: it is one more after an entry with children, and one less
    /// after a null.
    #[inline]
    pub fn next_depth(&self) -> isize
        ensures { result ≡ self.now.depth }
    {
        self.depth
    }

    /// Whether something is left to read, an entry or a null, and its depth is not `depth`. False
    /// where nothing is left.
    #[inline(always)]
    pub(crate) fn is_at_other_depth(&self, depth: isize) -> bool
        ensures left { result ≡ true → length self.now.rest.bytes ≡ 0 → ⊥ }
        ensures other { result ≡ true → int_eq self.now.depth depth ≡ false }
        ensures same { result ≡ false → (length self.now.rest.bytes ≡ 0 → ⊥)
            → int_eq self.now.depth depth ≡ true }
    {
        !self.is_empty() && self.depth != depth
    }

    /// Passes all that is left, as `Reader::empty`: `next_offset` is then the end, and the depth
    /// stays.
    #[inline(always)]
    pub(crate) fn empty(&mut self)
        ensures { self.new ≡ stands_at self.old (end_of_view self.old.rest) self.old.depth }
    {
        self.input.empty();
    }

    /// Goes on to an offset in the unit, if it is not before `next_offset`, and not past the end of
    /// the input; `new_depth` is then the depth of what is read next. Else the reader stays as it
    /// was, its depth too.
    #[inline(always)]
    pub(crate) fn go_to(&mut self, offset: UnitOffset<R::Offset>, new_depth: isize)
        requires { unsigned_abs new_depth + length self.old.rest.bytes < 2 ^ 63 }
        ensures { self.new ≡ stands_if self.old
            (within (next_offset_of self.old) self.old.end (Some (R.Offset.number offset.0)))
            new_depth }
    {
        let Some(count) = offset.0.checked_sub(self.next_offset().0) else {
            return;
        };
        match self.input.skip(count) {
            Ok(()) => self.depth = new_depth,
            Err(_) => {}
        }
    }

    /// Reads the code of an entry alone: its declaration, or `None` for a null. The entry's
    /// attributes are then next, and `next_depth` is already that after the entry: one more where
    /// it has children, one less after a null.
    ///
    /// Refusals: `UnexpectedEof`, also where no byte is left, `BadUnsignedLeb128`,
    /// `InvalidAbbreviationCode`.
    #[inline(always)]
    pub fn read_abbreviation(&mut self) -> Result<Option<&'abbrev Abbreviation<A>>>
        ensures value { read_of (answer_of option_copied result) self.new.rest
            ≡ abbreviation_ahead self.old }
        ensures advances { Advances (λ r. depth_read (option_copied r) self.old.depth) self.old
            result self.new }
    {
        let mut rest = self.input.copy();
        let Some(abbreviation) = parse_abbreviation(&mut rest, self.abbreviations)? else {
            self.go_past_null(rest);
            return Ok(None);
        };
        self.go_past_entry(rest, abbreviation.has_children());
        Ok(Some(abbreviation))
    }

    // Goes on to `rest`, which stands after a null that was read: the depth is then one less.
    #[inline(always)]
    fn go_past_null(&mut self, rest: R)
        requires { length (R.view rest).bytes < length self.old.rest.bytes }
        ensures { self.new ≡ stands_at self.old (R.view rest) (self.old.depth -ℤ pos 1) }
    {
        self.input = rest;
        self.depth -= 1;
    }

    // Goes on to `rest`, which stands after an entry that was read, or after its code: the depth is
    // then one more where the entry has children.
    #[inline(always)]
    fn go_past_entry(&mut self, rest: R, has_children: bool)
        requires { length (R.view rest).bytes < length self.old.rest.bytes }
        ensures { self.new ≡ stands_at self.old (R.view rest)
            (below_flag has_children self.old.depth) }
    {
        self.input = rest;
        if has_children {
            self.depth += 1;
        }
    }

    /// Reads an entry, in place of the one in `entry`: its code, and its attributes. Answers true
    /// for an entry, and false for a null. `entry` then has the offset and the depth of what was
    /// read, a null's too.
    ///
    /// Refusals: those of `read_abbreviation`, then those of `read_attributes`; `entry` is then a
    /// null with the offset and the depth of what was refused. Memory is taken only where the
    /// declaration has attributes.
    #[inline(always)]
    #[tactic(auto, unfolding(crate::specs::Entry::entry_at))]
    pub fn read_entry(&mut self, entry: &mut DebuggingInformationEntry<R, A>) -> Result<bool>
        ensures value { let e = entry_of R.view R.Offset.number entry.new in
            UnlessMemory result (read_of (answer_leaving e result) self.new.rest
            ≡ entry_ahead R.Offset.limit self.old) }
        ensures without_memory { let e = entry_of R.view R.Offset.number entry.new in
            takes_memory (abbreviation_ahead self.old) ≡ false
            → read_of (answer_leaving e result) self.new.rest
            ≡ entry_ahead R.Offset.limit self.old }
        ensures some { IfOk result
            (λ some. some ≡ not (is_null (entry_of R.view R.Offset.number entry.new))) }
        ensures offset { R.Offset.number entry.new.offset.0 ≡ next_offset_of self.old }
        ensures entry_depth { entry.new.depth ≡ self.old.depth }
        ensures null { OnErr result (entry_of R.view R.Offset.number entry.new ≡ null_entry) }
        ensures advances { let e = entry_of R.view R.Offset.number entry.new in
            Advances (λ _. depth_after e self.old.depth) self.old result self.new }
    {
        entry.set_null();
        entry.depth = self.depth;
        entry.offset = self.next_offset();
        let mut rest = self.input.copy();
        let Some(abbreviation) = parse_abbreviation(&mut rest, self.abbreviations)? else {
            self.go_past_null(rest);
            return Ok(false);
        };
        let start = rest.copy();
        let specifications = abbreviation.attributes();
        let has_children = abbreviation.has_children();
        match self.read_values(&start, has_children, specifications, &mut entry.attrs) {
            Ok(()) => {
                entry.tag = abbreviation.tag();
                entry.has_children = abbreviation.has_children();
                Ok(true)
            }
            Err(error) => {
                entry.attrs.clear();
                Err(error)
            }
        }
    }

    // Reads the attributes of these specifications, which begin at `start`, into an empty list, and
    // goes past their entry. Refusals: those of `read_attributes`; the reader then stays as it was,
    // and the list is left with any attributes. They are read on a reader whose address no call
    // gets, so that it stays in registers.
    #[inline(never)]
    fn read_values(
        &mut self,
        start: &R,
        has_children: bool,
        specifications: &[AttributeSpecification],
        attrs: &mut Vec<Attribute<R>, A>,
    ) -> Result<()>
        requires shorter { length (R.view start.now).bytes < length self.old.rest.bytes }
        requires empty { attrs.old.items ≡ [] }
        ensures value { let read = map (map_attribute R.view R.Offset.number) attrs.new.items in
            UnlessMemory result (read_of (answer_leaving read result) self.new.rest
            ≡ attributes_at R.Offset.limit self.old.encoding specifications.now
            (R.view start.now)) }
        ensures none { specifications.now ≡ [] → IsOk result }
        ensures advances { Advances (λ _. below_flag has_children self.old.depth) self.old result
            self.new }
    {
        let mut rest = start.copy();
        parse_attributes(&mut rest, self.encoding, specifications, attrs)?;
        self.go_past_entry(rest, has_children);
        Ok(())
    }

    /// Reads what `read_entry` reads, but keeps no attribute. Answers the declaration of the entry,
    /// or `None` for a null.
    ///
    /// Refusals: those of `read_entry`, at the same bytes the same; no memory is taken.
    #[inline(always)]
    #[tactic(auto, unfolding(crate::specs::Entry::entry_at))]
    pub fn read_head(&mut self) -> Result<Option<&'abbrev Abbreviation<A>>>
        ensures value { read_of (answer_of (λ r. head_of (option_copied r)) result) self.new.rest
            ≡ map_read head (entry_ahead R.Offset.limit self.old) }
        ensures declared { let declared = codes_of self.old.abbreviations in
            IfOk result (λ r. IsDeclaredAt declared self.old.rest (option_copied r)) }
        ensures some { IfOk result (λ r. IfSome (option_copied r) (λ d. d.tag.0 ≢ 0)) }
        ensures advances { Advances (λ r. depth_read (option_copied r) self.old.depth) self.old
            result self.new }
    {
        let mut rest = self.input.copy();
        let Some(declared) = parse_abbreviation(&mut rest, self.abbreviations)? else {
            self.go_past_null(rest);
            return Ok(None);
        };
        // (it says that the tag is not 0)
        let _ = declared.tag();
        pass_declared(&mut rest, self.encoding, declared)?;
        self.go_past_entry(rest, declared.has_children());
        Ok(Some(declared))
    }

    /// The same as `read_head`, and beside it where an entry with children has its sibling: where
    /// its first `DW_AT_sibling` leads, if its value is a `UnitRef`, else none. The reference is
    /// not followed, and where it leads is not looked at.
    ///
    /// Refusals: those of `read_entry`, at the same bytes the same; no memory is taken.
    #[inline(always)]
    #[tactic(auto, unfolding(crate::specs::Entry::entry_at))]
    pub fn read_head_and_sibling(
        &mut self,
    ) -> Result<
        (
            Option<&'abbrev Abbreviation<A>>,
            Option<UnitOffset<R::Offset>>,
        ),
    >
        ensures value { read_of (answer_of (λ r.
            head_with_sibling (option_copied r.0) (option_map (λ o. R.Offset.number o.0) r.1))
            result) self.new.rest
            ≡ map_read head_and_sibling (entry_ahead R.Offset.limit self.old) }
        ensures declared { let declared = codes_of self.old.abbreviations in
            IfOk result (λ r. IsDeclaredAt declared self.old.rest (option_copied r.0)) }
        ensures some { IfOk result (λ r. IfSome (option_copied r.0) (λ d. d.tag.0 ≢ 0)) }
        ensures advances { Advances (λ r. depth_read (option_copied r.0) self.old.depth) self.old
            result self.new }
    {
        let mut rest = self.input.copy();
        let Some(declared) = parse_abbreviation(&mut rest, self.abbreviations)? else {
            self.go_past_null(rest);
            return Ok((None, None));
        };
        // (it says that the tag is not 0)
        let _ = declared.tag();
        let sibling = self.pass_values(rest, declared)?;
        Ok((Some(declared), sibling))
    }

    // Passes the attributes of an entry of this abbreviation, which begin in `rest`, and goes past
    // the entry. Answers where its sibling is, as `read_head_and_sibling`. Refusals: those of
    // `read_attribute`; the reader then stays as it was.
    #[inline(always)]
    fn pass_values(
        &mut self,
        mut rest: R,
        abbreviation: &Abbreviation<A>,
    ) -> Result<Option<UnitOffset<R::Offset>>>
        requires shorter { length (R.view rest).bytes < length self.old.rest.bytes }
        ensures value { read_of (answer_of (option_map (λ o. R.Offset.number o.0)) result)
            self.new.rest
            ≡ map_read (sibling_below abbreviation.now.has_children)
            (attributes_at R.Offset.limit self.old.encoding abbreviation.now.attributes
            (R.view rest)) }
        ensures advances { let flag = abbreviation.now.has_children in
            Advances (λ _. below_flag flag self.old.depth) self.old result self.new }
    {
        if abbreviation.has_children() {
            let sibling = pass_and_find_sibling(&mut rest, self.encoding, abbreviation)?;
            self.go_past_entry(rest, true);
            return Ok(sibling);
        }
        pass_declared(&mut rest, self.encoding, abbreviation)?;
        self.go_past_entry(rest, false);
        Ok(None)
    }

    /// Reads the attribute of a specification, whose value is next.
    ///
    /// Refusals: `UnexpectedEof`, `BadUnsignedLeb128`, `BadSignedLeb128`, `UnsupportedAddressSize`,
    /// `UnsupportedOffset`, `UnsupportedOffsetSize`, `UnknownForm`, and `InvalidImplicitConst`
    /// where an indirect form leads to implicit_const.
    #[inline(never)]
    pub fn read_attribute(&mut self, specification: AttributeSpecification) -> Result<Attribute<R>>
        ensures value { let answer = answer_of (map_attribute R.view R.Offset.number) result in
            read_of answer self.new.rest
            ≡ attribute_at R.Offset.limit self.old.encoding specification self.old.rest }
        ensures advances { Advances (λ _. self.old.depth) self.old result self.new }
    {
        self.read_attribute_inline(specification)
    }

    /// The same as `read_attribute`, put in place where it is called.
    ///
    /// Refusals: `UnexpectedEof`, `BadUnsignedLeb128`, `BadSignedLeb128`, `UnsupportedAddressSize`,
    /// `UnsupportedOffset`, `UnsupportedOffsetSize`, `UnknownForm`, `InvalidImplicitConst`.
    #[inline(always)]
    #[tactic(auto, using(crate::proofs::AttributeTurns::as_it_is))]
    pub fn read_attribute_inline(
        &mut self,
        specification: AttributeSpecification,
    ) -> Result<Attribute<R>>
        ensures value { let answer = answer_of (map_attribute R.view R.Offset.number) result in
            read_of answer self.new.rest
            ≡ attribute_at R.Offset.limit self.old.encoding specification self.old.rest }
        ensures advances { Advances (λ _. self.old.depth) self.old result self.new }
    {
        let mut rest = self.input.copy();
        let specification = &specification;
        let read = read_form::<R, Return, 0>(&mut rest, self.encoding, specification, &mut Return)?;
        self.input = rest;
        Ok(read)
    }

    /// Reads the attribute of a specification and hands it to a sink, which has room for it;
    /// answers what the sink answers. It is put in place where it is called, as
    /// `read_attribute_inline`.
    ///
    /// Refusals: those of `read_attribute`; the sink then stays too.
    #[inline(always)]
    pub fn read_attribute_to<T: AttributeSink<R>>(
        &mut self,
        specification: &AttributeSpecification,
        sink: &mut T,
    ) -> Result<T::Answer>
        requires { T.has_room sink.old }
        ensures taken { let s = specification.now in
            HandedOver T.meaning T.after_take sink.old sink.new result
            (attribute_at R.Offset.limit self.old.encoding s self.old.rest) self.new.rest }
        ensures advances { Advances (λ _. self.old.depth) self.old result self.new }
    {
        let mut rest = self.input.copy();
        let taken = read_form::<R, T, 1>(&mut rest, self.encoding, specification, sink)?;
        self.input = rest;
        Ok(taken)
    }

    /// Passes the attributes of these specifications; those of known sizes are passed together. It
    /// leaves what `read_attributes` leaves where that is not refused, and may pass what that
    /// refuses.
    ///
    /// Refusals, of the first that can't be passed: `UnexpectedEof`, whose place lies between the
    /// call's start and the input's end, `BadUnsignedLeb128`, `UnsupportedOffset`, `UnknownForm`.
    #[inline(always)]
    pub fn skip_attributes(&mut self, specifications: &[AttributeSpecification]) -> Result<()>
        ensures value { without_place (read_of result self.new.rest)
            ≡ without_place
            (pass_all R.Offset.limit self.old.encoding specifications.now self.old.rest) }
        ensures place { IfErr result (NamesPlaceOf self.old.rest) }
        ensures as_read { PassesAs (read_of result self.new.rest)
            (attributes_at R.Offset.limit self.old.encoding specifications.now self.old.rest) }
        ensures advances { Advances (λ _. self.old.depth) self.old result self.new }
    {
        let mut rest = self.input.copy();
        skip_all(&mut rest, self.encoding, specifications)?;
        self.input = rest;
        Ok(())
    }

    /// Reads the attributes of these specifications, in their order, in place of those in `attrs`;
    /// room for all is made first.
    ///
    /// Refusals: those of `read_attribute`, and `OutOfMemory`; `attrs` is then empty. Without
    /// specifications nothing is refused.
    pub fn read_attributes(
        &mut self,
        specifications: &[AttributeSpecification],
        attrs: &mut Vec<Attribute<R>, A>,
    ) -> Result<()>
        ensures value { let read = map (map_attribute R.view R.Offset.number) attrs.new.items in
            UnlessMemory result (read_of (answer_leaving read result) self.new.rest
            ≡ attributes_at R.Offset.limit self.old.encoding specifications.now self.old.rest) }
        ensures none { specifications.now ≡ [] → IsOk result }
        ensures empty { OnErr result (attrs.new.items ≡ []) }
        ensures advances { Advances (λ _. self.old.depth) self.old result self.new }
    {
        attrs.clear();
        let mut rest = self.input.copy();
        match parse_attributes(&mut rest, self.encoding, specifications, attrs) {
            Ok(()) => {
                self.input = rest;
                Ok(())
            }
            Err(error) => {
                attrs.clear();
                Err(error)
            }
        }
    }
}

// Reads the code of an entry: its declaration, or `None` for the code 0, that of a null. Refusals:
// `UnexpectedEof`, `BadUnsignedLeb128`, then `InvalidAbbreviationCode`; the input is then left
// anywhere.
#[inline(always)]
#[tactic(auto, unfolding(crate::specs::Entry::abbreviation_at))]
fn parse_abbreviation<'abbrev, R: Reader, A: Allocator>(
    input: &mut R,
    abbreviations: &'abbrev Abbreviations<A>,
) -> Result<Option<&'abbrev Abbreviation<A>>>
    ensures { read_of (answer_of option_copied result) (R.view input.new)
        ≡ abbreviation_at (codes_of abbreviations.now) (R.view input.old) }
{
    let code = input.read_uleb128()?;
    if code == 0 {
        return Ok(None);
    }
    let Some(abbreviation) = abbreviations.get(code) else {
        return Err(Error::InvalidAbbreviationCode(code));
    };
    Ok(Some(abbreviation))
}

// Reads the attributes of these specifications, in their order, into an empty list; room for all is
// made first. Refusals: `OutOfMemory`, and those of `read_attribute`, none without specifications;
// the input and the list are then left anywhere.
#[inline(always)]
fn parse_attributes<R: Reader, A: Allocator>(
    input: &mut R,
    encoding: Encoding,
    specifications: &[AttributeSpecification],
    attrs: &mut Vec<Attribute<R>, A>,
) -> Result<()>
    requires { attrs.old.items ≡ [] }
    ensures value { let read = map (map_attribute R.view R.Offset.number) attrs.new.items in
        UnlessMemory result (read_of (answer_leaving read result) (R.view input.new)
        ≡ attributes_at R.Offset.limit encoding specifications.now (R.view input.old)) }
    ensures none { specifications.now ≡ [] → IsOk result }
{
    attrs.reserve(specifications.len())?;
    for specification in specifications {
        read_form::<R, Vec<Attribute<R>, A>, 1>(input, encoding, specification, attrs)?;
    }
    Ok(())
}
