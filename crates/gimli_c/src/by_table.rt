//! Entries that are read one after the other by a table in a caller's buffers.

ghost use Rattle.std.specs.Prelude.{◌≡◌, ◌+◌, ◌-◌, ◌<◌, ◌≤◌, ◌^◌, map, length, unsigned_abs};
ghost use Rattle.std.specs.Prelude.{Some, List, [], IsOk, IfOk, IfErr, OnOk};
ghost use Rattle.std.specs.Option.{option_map};
ghost use Rattle.gimli_base.specs.Offset.{answer_of};
ghost use Rattle.gimli_base.specs.Reading.{read_of, answer_leaving, map_read, UnlessMemory};
ghost use Rattle.gimli_base.specs.Table.{codes_of};
ghost use Rattle.gimli_base.specs.declared.error.Error.TheVariants.{OutOfMemory};
ghost use Rattle.gimli_units.specs.Entry.{attribute_at, attributes_at, abbreviation_at};
ghost use Rattle.gimli_units.specs.Sized.{left_by};
ghost use Rattle.gimli_units.specs.UnitHeld.{unit_view};
ghost use Rattle.gimli_c.specs.Attrs.{attr_of};
ghost use Rattle.gimli_c.specs.Heads.{PlaceBy, IsOpened, place_after, table_head};
ghost use Rattle.gimli_c.specs.Tables.{specification_in, declaration_in, table_in, HasSteps};

use crate::attrs::Numbers;
use crate::reading::{Head, ReadEntries};
use crate::table::{GimliDeclaration, GimliSpecification, GimliTable};
use gimli_base::{Encoding, Error, Reader, ReaderOffset, Result};
use gimli_units::{Attribute, UnitHeader, UnitOffset};
use std::alloc::Allocator;
use std::marker::Model;

/// A reader of entries by a caller's table.
///
/// A refused call leaves it as it was.
#[derive(Drop)]
pub(crate) struct EntriesBy<'t, R: Reader> {
    input: R,
    encoding: Encoding,
    table: GimliTable<'t>,
    // the offset of the end of the input
    end: R::Offset,
    depth: isize,
}

impl<'t, R: Reader> Model for EntriesBy<'t, R> {
    ghost Value = { PlaceBy };

    ghost view = { λ e.
        record {
          place = record {
            rest = R.view e.input;
            encoding = e.encoding;
            abbreviations = table_in e.table;
            end = R.Offset.number e.end;
            depth = e.depth;
          };
          specifications = e.table.specifications.now;
        } };

    ghost invariant = { λ e. (length (R.view e.input).bytes ≤ R.Offset.number e.end)
        × (unsigned_abs e.depth + length (R.view e.input).bytes < 2 ^ 63) };
}

/// A reader of the entries of a unit from an offset on, at depth 0, by a caller's table in place of
/// the unit's own. Refusal: `OffsetOutOfBounds`.
pub(crate) fn entries_by<'t, R: Reader>(
    unit: &UnitHeader<R>,
    table: GimliTable<'t>,
    offset: R::Offset,
) -> Result<EntriesBy<'t, R>>
    ensures opened { IsOpened (λ e. e.place) (unit_view unit.now) (table_in table.entry)
        (R.Offset.number offset) result }
    ensures steps { HasSteps table.entry.specifications.now
        → IfOk result (λ e. HasSteps e.specifications) }
{
    let input = unit.range_from(UnitOffset(offset)..)?;
    Ok(EntriesBy {
        input,
        encoding: unit.encoding(),
        table,
        end: unit.length_including_self(),
        depth: 0,
    })
}

impl<'t, R: Reader> EntriesBy<'t, R> {
    // Goes on to `rest`, what is left after an entry with this head: the depth is one less after a
    // null, and one more after an entry with children. Answers the head.
    #[inline(always)]
    fn go_past(&mut self, rest: R, head: Head) -> Head
        requires { length (R.view rest).bytes < length self.old.place.rest.bytes }
        ensures head { result ≡ head }
        ensures place { self.new
            ≡ record self.old { place = place_after self.old.place (R.view rest) head } }
    {
        self.input = rest;
        if head.tag == 0 {
            self.depth -= 1;
        } else if head.has_children != 0 {
            self.depth += 1;
        }
        head
    }
}

impl<'t, R: Reader> ReadEntries<R> for EntriesBy<'t, R> {
    ghost place = { λ e. e.place };

    ghost has_steps = { λ e. HasSteps e.specifications };

    #[inline(always)]
    fn is_empty(&self) -> bool {
        self.input.is_empty()
    }

    #[inline(always)]
    fn next_offset(&self) -> u64 {
        self.end.into_u64() - self.input.len().into_u64()
    }

    #[inline(always)]
    fn next_depth(&self) -> isize {
        self.depth
    }

    // The input is copied, so that it stays in registers.
    #[inline(always)]
    fn pass(&mut self) -> Result<Head> {
        let mut rest = self.input.copy();
        let Some(declared) = next_declared(&mut rest, self.table)? else {
            return Ok(self.go_past(rest, Head::null()));
        };
        let specifications = declared.attributes_in(self.table.specifications);
        pass_steps_by(&mut rest, self.encoding, specifications)?;
        Ok(self.go_past(rest, head_by(declared)))
    }

    // Where the declaration's tag is 0, the entry is a null: its values are passed, none of them is
    // kept, and no memory is asked.
    #[inline(always)]
    fn read<A: Allocator>(&mut self, numbers: &mut Numbers<A>) -> Result<Head> {
        numbers.0.clear();
        let mut rest = self.input.copy();
        let Some(declared) = next_declared(&mut rest, self.table)? else {
            return Ok(self.go_past(rest, Head::null()));
        };
        let specifications = declared.attributes_in(self.table.specifications);
        if declared.tag == 0 {
            pass_values_by(&mut rest, self.encoding, specifications)?;
        } else {
            push_values_by(&mut rest, self.encoding, specifications, numbers)?;
        }
        Ok(self.go_past(rest, head_by(declared)))
    }
}

// Passes the values of these attributes, if the steps beside them are theirs; else it goes on
// anywhere ahead. Refusals: those of `EntriesRaw::read_attribute`, of the first value that is
// refused; the input is then left anywhere. From a step on whose bytes are not there, or of which
// reading may refuse a value, the values are passed one by one.
#[inline(always)]
fn pass_steps_by<R: Reader>(
    input: &mut R,
    encoding: Encoding,
    specifications: &[GimliSpecification],
) -> Result<()>
    ensures passed { let declared = map specification_in specifications.now in
        HasSteps specifications.now →
        read_of result (R.view input.new)
        ≡ left_by (attributes_at R.Offset.limit encoding declared (R.view input.old)) }
    ensures shorter { OnOk result
        (length (R.view input.new).bytes ≤ length (R.view input.old).bytes) }
    ensures memory { IfErr result (λ e. e ≡ OutOfMemory → ⊥) }
{
    let mut left = specifications;
    'steps: while let Some((first, _)) = left.split_first() {
        let step = first.step;
        let count = usize::from(step.values);
        if left.len() < count || !Attribute::pass_step(input, encoding, &step) {
            return pass_values_by(input, encoding, left);
        }
        let Some((value, others)) = left[count..].split_first() else {
            return Ok(());
        };
        pass_value_by(input, encoding, value)?;
        left = others;
    }
    Ok(())
}

// Passes the value of an attribute. Refusals: those of `EntriesRaw::read_attribute`; the input is
// then as it was. (It is a function of its own, so that its stack slots are cleared only where
// there is such a value.)
#[inline(always)]
fn pass_value_by<R: Reader>(
    input: &mut R,
    encoding: Encoding,
    attribute: &GimliSpecification,
) -> Result<()>
    ensures { read_of result (R.view input.new)
        ≡ left_by
        (attribute_at R.Offset.limit encoding (specification_in attribute.now) (R.view input.old)) }
{
    Attribute::pass(input, encoding, &attribute.specification())
}

// The head of the entries of a declaration; they are nulls where its tag is 0.
#[inline(always)]
fn head_by(declared: &GimliDeclaration) -> Head
    ensures { (ss : List GimliSpecification)
        → result ≡ table_head (declaration_in ss declared.now) }
{
    if declared.tag == 0 {
        return Head::null();
    }
    Head {
        tag: declared.tag,
        has_children: u8::from(declared.has_children != 0),
    }
}

// Reads the code of the next entry. Answers the declaration that stands in the table at the index
// one less than the code, or none for the code 0 of a null. Refusals: `UnexpectedEof`,
// `BadUnsignedLeb128`, `InvalidAbbreviationCode`; the input is then left anywhere.
#[inline(always)]
#[tactic(auto, unfolding(gimli_units::specs::Entry::abbreviation_at))]
fn next_declared<'t, R: Reader>(
    input: &mut R,
    table: GimliTable<'t>,
) -> Result<Option<&'t GimliDeclaration>>
    ensures { let ss = table.entry.specifications.now in
        let shown = option_map (λ d. declaration_in ss d.now) in
        read_of (answer_of shown result) (R.view input.new)
        ≡ abbreviation_at (codes_of (table_in table.entry)) (R.view input.old) }
{
    let code = input.read_uleb128()?;
    if code == 0 {
        return Ok(None);
    }
    match table.declarations.get((code - 1) as usize) {
        Some(declared) => Ok(Some(declared)),
        None => Err(Error::InvalidAbbreviationCode(code)),
    }
}

// Passes the values of these attributes one by one. Refusals: those of
// `EntriesRaw::read_attribute`, of the first value that is refused; the input is then as it was. It
// is a call that gets a reader of its own, so that the caller's stays in registers.
#[inline(always)]
fn pass_values_by<R: Reader>(
    input: &mut R,
    encoding: Encoding,
    specifications: &[GimliSpecification],
) -> Result<()>
    ensures { let declared = map specification_in specifications.now in
        read_of result (R.view input.new)
        ≡ left_by (attributes_at R.Offset.limit encoding declared (R.view input.old)) }
{
    let mut rest = input.copy();
    pass_each_by(&mut rest, encoding, specifications)?;
    *input = rest;
    Ok(())
}

// As `pass_values_by`; but where a value is refused, the input is left anywhere.
#[inline(never)]
fn pass_each_by<R: Reader>(
    input: &mut R,
    encoding: Encoding,
    specifications: &[GimliSpecification],
) -> Result<()>
    ensures { let declared = map specification_in specifications.now in
        read_of result (R.view input.new)
        ≡ left_by (attributes_at R.Offset.limit encoding declared (R.view input.old)) }
{
    let mut rest = input.copy();
    'each: for attribute in specifications {
        pass_value_by(&mut rest, encoding, attribute)?;
    }
    *input = rest;
    Ok(())
}

// Reads the attributes of these specifications into an empty list. Refusals: `OutOfMemory`, which
// does not come where there are none; those of `EntriesRaw::read_attribute`. The input and the list
// are then left anywhere.
#[inline(always)]
fn push_values_by<R: Reader, A: Allocator>(
    input: &mut R,
    encoding: Encoding,
    specifications: &[GimliSpecification],
    numbers: &mut Numbers<A>,
) -> Result<()>
    requires { numbers.old.0.items ≡ [] }
    ensures value { let declared = map specification_in specifications.now in
        UnlessMemory result
        (read_of (answer_leaving numbers.new.0.items result) (R.view input.new)
        ≡ map_read (map attr_of)
        (attributes_at R.Offset.limit encoding declared (R.view input.old))) }
    ensures none { specifications.now ≡ [] → IsOk result }
{
    numbers.0.reserve(specifications.len())?;
    let mut rest = input.copy();
    'each: for attribute in specifications {
        Attribute::read_to(&mut rest, encoding, &attribute.specification(), numbers)?;
    }
    *input = rest;
    Ok(())
}
