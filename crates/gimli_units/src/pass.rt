//! Passing attributes with the refusals of reading them: those of known sizes by their bytes, where
//! no value whose bytes are there is refused, and the others by reading them.

ghost use Rattle.std.specs.Prelude.{◌≡◌, ◌≤◌, ◌&&◌, length, nat_le, List, Ok, true, false};
ghost use Rattle.std.specs.Option.{option_map};
ghost use Rattle.gimli_base.specs.Offset.{answer_of};
ghost use Rattle.gimli_base.specs.Reading.{read_of, map_read, is_size};
ghost use Rattle.gimli_base.specs.View.{cut};
ghost use Rattle.gimli_base.specs.Abbreviations.{Specification};
ghost use Rattle.gimli_base.specs.Steps.{IsRun, step_size};
ghost use Rattle.gimli_units.specs.Kind.{unit_reference};
ghost use Rattle.gimli_units.specs.Entry.{attribute_at, attributes_at};
ghost use Rattle.gimli_units.specs.Sized.{left_by, sibling_at, sibling_after, found_at};
ghost use Rattle.gimli_units.specs.Sized.{found_numbers, reads_all, has_short_offsets};

use crate::UnitOffset;
use crate::attribute::sink::{Ignore, Return};
use crate::form::{read_form, read_of_variable_size};
use gimli_base::{
    Abbreviation, AttributeSpecification, DW_AT_sibling, Encoding, Reader, ReaderOffset, Result,
    Step,
};
use std::alloc::Allocator;

// Passes `size` bytes, which are there.
#[inline(always)]
fn pass_bytes<R: Reader>(input: &mut R, size: u64)
    requires { size ≤ length (R.view input.old).bytes }
    ensures { R.view input.new ≡ cut size (R.view input.old) }
{
    if size > 0
        && let Ok(size) = R::Offset::from_u64(size)
    {
        let _ = input.skip(size);
    }
}

// Whether addresses of so many bytes can be read: 1, 2, 4 or 8.
#[inline(always)]
fn is_valid_address_size(address_size: u8) -> bool
    ensures { result ≡ is_size address_size }
{
    address_size == 1 || address_size == 2 || address_size == 4 || address_size == 8
}

// True: no offset in the values of a step has more than four bytes. False: by the format, by a
// reference of 8 bytes, or by the size of an address in version 2, one may have.
#[inline(always)]
fn has_short_offsets(step: &Step, encoding: Encoding) -> bool
    ensures { result ≡ has_short_offsets encoding step.now }
{
    step.has_ref8 == 0
        && encoding.format.word_size() <= 4
        && (encoding.version != 2 || encoding.address_size <= 4)
}

// True: reading refuses no value of a step whose bytes are there. False: by the size of an address,
// or as an offset may not fit the reader's offsets, it may refuse one.
#[inline(always)]
fn reads_all<R: Reader>(step: &Step, encoding: Encoding) -> bool
    ensures { result ≡ reads_all R.Offset.limit encoding step.now }
{
    is_valid_address_size(encoding.address_size)
        && (R::Offset::from_u64(0xffff_ffff_ffff_ffff).is_ok()
            || (R::Offset::from_u64(0xffff_ffff).is_ok() && has_short_offsets(step, encoding)))
}

/// Passes the values of a step together, if all their bytes are left, and if reading refuses none
/// of them, as `reads_all` says. Answers whether it does; else the input stays.
#[inline(always)]
pub(crate) fn pass_step<R: Reader>(input: &mut R, encoding: Encoding, step: &Step) -> bool
    ensures decides { result ≡ (reads_all R.Offset.limit encoding step.now
        && nat_le (step_size encoding step.now) (length (R.view input.old).bytes)) }
    ensures bytes { result ≡ true
        → R.view input.new ≡ cut (step_size encoding step.now) (R.view input.old) }
    ensures passed { result ≡ true → (ss : List Specification) → IsRun step.now ss
        → Ok (tt, R.view input.new)
        ≡ left_by (attributes_at R.Offset.limit encoding ss (R.view input.old)) }
    ensures kept { result ≡ false → input.new ≡ input.old }
{
    let size = step.size(encoding);
    if input.len().into_u64() < size || !reads_all::<R>(step, encoding) {
        return false;
    }
    pass_bytes(input, size);
    true
}

// Passes the value of an attribute: leaves the input where reading it would. Refusals: those of
// `EntriesRaw::read_attribute`; the input is then left anywhere.
#[inline(always)]
#[tactic(auto, using(crate::proofs::AttributeTurns::passed_as))]
fn pass_value<R: Reader>(
    input: &mut R,
    encoding: Encoding,
    specification: &AttributeSpecification,
) -> Result<()>
    ensures { read_of result (R.view input.new)
        ≡ left_by (attribute_at R.Offset.limit encoding specification.now (R.view input.old)) }
{
    read_of_variable_size::<R, Ignore, 1>(input, encoding, specification, &mut Ignore)
}

// Reads the attribute of a specification, and answers where it leads, if its value is a `UnitRef`,
// else none. Refusals: those of `EntriesRaw::read_attribute`; the input is then left anywhere.
#[inline(never)]
#[tactic(auto, using(crate::proofs::AttributeTurns::as_it_is))]
fn read_reference<R: Reader>(
    input: &mut R,
    encoding: Encoding,
    specification: &AttributeSpecification,
) -> Result<Option<UnitOffset<R::Offset>>>
    ensures { read_of (answer_of (option_map (λ o. R.Offset.number o.0)) result)
        (R.view input.new)
        ≡ map_read (λ a. unit_reference a.value)
        (attribute_at R.Offset.limit encoding specification.now (R.view input.old)) }
{
    let attribute = read_form::<R, Return, 1>(input, encoding, specification, &mut Return)?;
    Ok(attribute.reference())
}

// As `read_reference`, by a call that gets a reader of its own, so that the caller's stays in
// registers. (It is a function of its own, as the place of that reader is cleared where its body
// begins.)
#[inline(always)]
fn read_reference_on_copy<R: Reader>(
    input: &mut R,
    encoding: Encoding,
    specification: &AttributeSpecification,
) -> Result<Option<UnitOffset<R::Offset>>>
    ensures { read_of (answer_of (option_map (λ o. R.Offset.number o.0)) result)
        (R.view input.new)
        ≡ map_read (λ a. unit_reference a.value)
        (attribute_at R.Offset.limit encoding specification.now (R.view input.old)) }
{
    let mut after = input.copy();
    let reference = read_reference(&mut after, encoding, specification)?;
    *input = after;
    Ok(reference)
}

// None before a `DW_AT_sibling` is found; then where the first leads, or none where its value is no
// `UnitRef`.
type Sibling<O> = Option<Option<UnitOffset<O>>>;

// Passes the value of an attribute; where it is a `DW_AT_sibling` and none is found yet, it is
// read. Answers what is found then: the same as before, or where it leads. Refusals: those of
// `EntriesRaw::read_attribute`; the input is then left anywhere.
#[inline(always)]
fn pass_one<R: Reader>(
    input: &mut R,
    encoding: Encoding,
    specification: &AttributeSpecification,
    found: Sibling<R::Offset>,
) -> Result<Sibling<R::Offset>>
    ensures { read_of (answer_of (found_numbers R.Offset.number) result) (R.view input.new)
        ≡ found_at R.Offset.limit encoding specification.now
        (found_numbers R.Offset.number found) (R.view input.old) }
{
    if found.is_some() || specification.name() != DW_AT_sibling {
        pass_value(input, encoding, specification)?;
        return Ok(found);
    }
    let reference = read_reference_on_copy(input, encoding, specification)?;
    Ok(Some(reference))
}

// Passes the values of these specifications one by one. Answers where the first `DW_AT_sibling`
// leads: by `found`, if that has one, else by these; none without one, and where its value is no
// `UnitRef`. Refusals: those of `EntriesRaw::read_attribute`; the input is then left anywhere.
#[inline(never)]
fn pass_each<R: Reader>(
    input: &mut R,
    encoding: Encoding,
    specifications: &[AttributeSpecification],
    found: Sibling<R::Offset>,
) -> Result<Option<UnitOffset<R::Offset>>>
    ensures { read_of (answer_of (option_map (λ o. R.Offset.number o.0)) result)
        (R.view input.new)
        ≡ sibling_after R.Offset.limit encoding specifications.now
        (found_numbers R.Offset.number found) (R.view input.old) }
{
    let mut found = found;
    let mut left = specifications;
    'values: while let Some((specification, others)) = left.split_first() {
        found = pass_one(input, encoding, specification, found)?;
        left = others;
    }
    Ok(found.flatten())
}

// As `pass_each`, by a call that gets a reader of its own, as in `read_reference_on_copy`.
#[inline(always)]
fn pass_each_on_copy<R: Reader>(
    input: &mut R,
    encoding: Encoding,
    specifications: &[AttributeSpecification],
    found: Sibling<R::Offset>,
) -> Result<Option<UnitOffset<R::Offset>>>
    ensures { read_of (answer_of (option_map (λ o. R.Offset.number o.0)) result)
        (R.view input.new)
        ≡ sibling_after R.Offset.limit encoding specifications.now
        (found_numbers R.Offset.number found) (R.view input.old) }
{
    let mut after = input.copy();
    let sibling = pass_each(&mut after, encoding, specifications, found)?;
    *input = after;
    Ok(sibling)
}

// Passes all values of an entry of this declaration by its steps, and answers as `pass_each`; where
// `found` is some, no reference is read. From a step on whose bytes are not there, or which reading
// may refuse, they are passed one by one. Refusals: those of `EntriesRaw::read_attribute`; the
// input is then left anywhere.
#[inline(always)]
fn pass_steps<R: Reader, A: Allocator>(
    input: &mut R,
    encoding: Encoding,
    declared: &Abbreviation<A>,
    found: Sibling<R::Offset>,
) -> Result<Option<UnitOffset<R::Offset>>>
    ensures { read_of (answer_of (option_map (λ o. R.Offset.number o.0)) result)
        (R.view input.new)
        ≡ sibling_after R.Offset.limit encoding declared.now.attributes
        (found_numbers R.Offset.number found) (R.view input.old) }
{
    let mut found = found;
    let mut steps = declared.steps();
    let mut left = declared.attributes();
    'steps: while let Some((step, others)) = steps.split_first() {
        if !pass_step(input, encoding, step) {
            break;
        }
        let Some((value, rest)) = left[step.values as usize..].split_first() else {
            return Ok(found.flatten());
        };
        found = pass_one(input, encoding, value, found)?;
        left = rest;
        steps = others;
    }
    pass_each_on_copy(input, encoding, left, found)
}

/// Passes all values of an entry of this declaration: leaves the input where reading its attributes
/// would, without taking memory. Refusals: those of `EntriesRaw::read_attribute`, the same as
/// reading; the input is then left anywhere.
#[inline(always)]
pub(crate) fn pass_declared<R: Reader, A: Allocator>(
    input: &mut R,
    encoding: Encoding,
    declared: &Abbreviation<A>,
) -> Result<()>
    ensures { read_of result (R.view input.new)
        ≡ left_by
        (attributes_at R.Offset.limit encoding declared.now.attributes (R.view input.old)) }
{
    if let Some(step) = declared.whole_step()
        && pass_step(input, encoding, step)
    {
        return Ok(());
    }
    let _ = pass_steps(input, encoding, declared, Some(None))?;
    Ok(())
}

/// As `pass_declared`, and answers where the first `DW_AT_sibling` leads, if its value is a
/// `UnitRef`, else none. Whether the entry has children is not looked at.
#[inline(always)]
pub(crate) fn pass_and_find_sibling<R: Reader, A: Allocator>(
    input: &mut R,
    encoding: Encoding,
    declared: &Abbreviation<A>,
) -> Result<Option<UnitOffset<R::Offset>>>
    ensures { read_of (answer_of (option_map (λ o. R.Offset.number o.0)) result)
        (R.view input.new)
        ≡ sibling_at R.Offset.limit encoding declared.now.attributes (R.view input.old) }
{
    pass_steps(input, encoding, declared, None)
}
