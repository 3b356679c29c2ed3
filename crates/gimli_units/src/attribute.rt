//! Attributes of entries.

ghost use Rattle.std.specs.Prelude.{◌≡◌, ◌^◌, List, Ok, true, false, OnErr};
ghost use Rattle.std.specs.Prelude.{◌&&◌, nat_le, length};
ghost use Rattle.std.specs.Option.{option_map};
ghost use Rattle.gimli_base.specs.Offset.{answer_of};
ghost use Rattle.gimli_base.specs.Reading.{read_of, map_read};
ghost use Rattle.gimli_units.specs.Entry.{attribute_at, attributes_at};
ghost use Rattle.gimli_units.specs.Sized.{left_by, reads_all};
ghost use Rattle.gimli_units.specs.Taking.{HandedOver};
ghost use Rattle.gimli_base.specs.Abbreviations.{Specification};
ghost use Rattle.gimli_base.specs.Steps.{IsRun, step_size};
ghost use Rattle.gimli_base.specs.View.{cut};
ghost use Rattle.gimli_units.specs.Value.{map_value, map_attribute};
ghost use Rattle.gimli_units.specs.Kind.{unit_reference};
ghost use Rattle.gimli_units.specs.NormalValue.{udata_of, sdata_of, sec_offset_of, exprloc_of};
ghost use Rattle.gimli_units.specs.NormalValue.{string_of, string_sup_of, below};
ghost use Rattle.gimli_base.specs.Sections.{str_content};

use crate::form::{read_form, read_of_variable_size};
use crate::pass::pass_step;
use crate::{AttributeValue, UnitOffset};
use gimli_base::{
    AttributeSpecification, DebugStr, DwAt, DwForm, Encoding, Expression, Reader, Result, Section,
    Step,
};
use sink::{AttributeSink, Ignore};

pub(crate) mod list;
mod normal;
pub(crate) mod sink;

/// An attribute of an entry: a name, the form of its declaration, and a value (DWARF 5, 7.5.4).
#[derive(Clone, Copy, Debug, PartialEq, Eq, Drop)]
pub struct Attribute<R, Offset = <R as Reader>::Offset> {
    name: DwAt,
    form: DwForm,
    value: AttributeValue<R, Offset>,
}

impl<R, Offset> Attribute<R, Offset> {
    /// The name.
    #[inline]
    pub fn name(&self) -> DwAt
        ensures { result ≡ self.now.name }
    {
        self.name
    }

    /// The form that the abbreviation declares.
    #[inline]
    pub fn form(&self) -> DwForm
        ensures { result ≡ self.now.form }
    {
        self.form
    }
}

impl<R: Reader> Attribute<R> {
    /// Reads the attribute of a specification from the input and hands it to a sink, which has room
    /// for it; answers what the sink answers. It is put in place where it is called. It is for
    /// those who keep declarations of their own: in a unit's entries
    /// `EntriesRaw::read_attribute_to` does the same.
    ///
    /// Refusals: those of `EntriesRaw::read_attribute`; the input and the sink then stay.
    #[inline(always)]
    pub fn read_to<T: AttributeSink<R>>(
        input: &mut R,
        encoding: Encoding,
        specification: &AttributeSpecification,
        sink: &mut T,
    ) -> Result<T::Answer>
        requires { T.has_room sink.old }
        ensures taken { HandedOver T.meaning T.after_take sink.old sink.new result
            (attribute_at R.Offset.limit encoding specification.now (R.view input.old))
            (R.view input.new) }
        ensures kept { OnErr result (input.new ≡ input.old) }
    {
        // (2, so that this is another copy of the function than that of a unit's entries)
        let mut rest = input.copy();
        let taken = read_form::<R, T, 2>(&mut rest, encoding, specification, sink)?;
        *input = rest;
        Ok(taken)
    }

    /// Passes the value of an attribute: leaves the input where reading it would. It is for those
    /// who keep declarations of their own, as `read_to`.
    ///
    /// Refusals: those of `EntriesRaw::read_attribute`; the input then stays.
    #[inline(always)]
    #[tactic(auto, using(crate::proofs::AttributeTurns::passed_as))]
    pub fn pass(
        input: &mut R,
        encoding: Encoding,
        specification: &AttributeSpecification,
    ) -> Result<()>
        ensures value { read_of result (R.view input.new)
            ≡ left_by
            (attribute_at R.Offset.limit encoding specification.now (R.view input.old)) }
        ensures kept { OnErr result (input.new ≡ input.old) }
    {
        // (2, as in `read_to`)
        let mut rest = input.copy();
        read_of_variable_size::<R, Ignore, 2>(&mut rest, encoding, specification, &mut Ignore)?;
        *input = rest;
        Ok(())
    }

    /// Passes the values of a step together (DWARF 5, 7.5.6), and answers true, if their bytes are
    /// left and reading refuses none of them: the encoding's addresses have 1, 2, 4 or 8 bytes, and
    /// the reader's offsets have 64 bits, or 32 where no offset among the values has more. Else it
    /// answers false, and the input stays.
    #[inline(always)]
    pub fn pass_step(input: &mut R, encoding: Encoding, step: &Step) -> bool
        ensures decides { result ≡ (reads_all R.Offset.limit encoding step.now
            && nat_le (step_size encoding step.now) (length (R.view input.old).bytes)) }
        ensures bytes { result ≡ true
            → R.view input.new ≡ cut (step_size encoding step.now) (R.view input.old) }
        ensures passed { result ≡ true → (ss : List Specification) → IsRun step.now ss
            → Ok (tt, R.view input.new)
            ≡ left_by (attributes_at R.Offset.limit encoding ss (R.view input.old)) }
        ensures kept { result ≡ false → input.new ≡ input.old }
    {
        pass_step(input, encoding, step)
    }

    /// The value as the form shows it.
    #[inline(always)]
    pub fn raw_value(&self) -> AttributeValue<R>
        ensures { map_value R.view R.Offset.number result
            ≡ map_value R.view R.Offset.number self.now.value }
    {
        self.value.copy()
    }

    /// The same attribute, its readers copied.
    #[inline]
    pub fn copy(&self) -> Attribute<R>
        ensures { map_attribute R.view R.Offset.number result
            ≡ map_attribute R.view R.Offset.number self.now }
    {
        Attribute {
            name: self.name,
            form: self.form,
            value: self.value.copy(),
        }
    }

    /// The offset of a `UnitRef`, in the unit. None for any other value, a reference into a section
    /// too.
    pub(crate) fn reference(&self) -> Option<UnitOffset<R::Offset>>
        ensures { option_map (λ o. R.Offset.number o.0) result
            ≡ unit_reference (map_value R.view R.Offset.number self.now.value) }
    {
        self.value.reference()
    }

    /// The value as an unsigned number, as `udata_value` answers it, if it is below 2^8; else none.
    pub fn u8_value(&self) -> Option<u8>
        ensures { result ≡ below (2 ^ 8)
            (udata_of (map_value R.view R.Offset.number self.now.value)) }
    {
        self.value.u8_value()
    }

    /// The value as an unsigned number, as `udata_value` answers it, if it is below 2^16; else
    /// none.
    pub fn u16_value(&self) -> Option<u16>
        ensures { result ≡ below (2 ^ 16)
            (udata_of (map_value R.view R.Offset.number self.now.value)) }
    {
        self.value.u16_value()
    }

    /// The value as an unsigned number, as `AttributeValue::udata_value`: of data of 1, 2, 4 or 8
    /// bytes, of a `Udata`, and of an `Sdata` that is not negative; else none. What the name makes
    /// of the value is not looked at.
    pub fn udata_value(&self) -> Option<u64>
        ensures { result ≡ udata_of (map_value R.view R.Offset.number self.now.value) }
    {
        self.value.udata_value()
    }

    /// The value as a signed number, as `AttributeValue::sdata_value`: of data of 1, 2, 4 or 8
    /// bytes in two's complement, of an `Sdata`, and of a `Udata` below 2^63; else none.
    pub fn sdata_value(&self) -> Option<i64>
        ensures { result ≡ sdata_of (map_value R.view R.Offset.number self.now.value) }
    {
        self.value.sdata_value()
    }

    /// The offset into a section, as the form sec_offset reads, or data4 and data8 under some
    /// names; none for any other value. Which section it is, the name says.
    pub fn offset_value(&self) -> Option<R::Offset>
        ensures { option_map R.Offset.number result
            ≡ sec_offset_of (map_value R.view R.Offset.number self.now.value) }
    {
        self.value.offset_value()
    }

    /// The value as an expression: of an `Exprloc`, and of a `Block`, as which versions 2 and 3
    /// write one. None for any other value.
    pub fn exprloc_value(&self) -> Option<Expression<R>>
        ensures { option_map (λ e. R.view e.0) result
            ≡ exprloc_of (map_value R.view R.Offset.number self.now.value) }
    {
        self.value.exprloc_value()
    }

    /// The value as the bytes of a text, without the zero that ends it: of a `String`, and of a
    /// `DebugStrRef` those at its offset in `debug_str`. None where `debug_str` has no text there,
    /// and for any other value, an index or an offset into another section too.
    pub fn string_value(&self, debug_str: &DebugStr<R>) -> Option<R>
        ensures { option_map R.view result
            ≡ string_of (str_content R.view debug_str.now)
            (map_value R.view R.Offset.number self.now.value) }
    {
        self.value.string_value(debug_str)
    }

    /// As `string_value`; and the text of a `DebugStrRefSup` is that at its offset in
    /// `debug_str_sup`, `.debug_str` of the supplementary file. None where that is not given, or
    /// has no text there.
    pub fn string_value_sup(
        &self,
        debug_str: &DebugStr<R>,
        debug_str_sup: Option<&DebugStr<R>>,
    ) -> Option<R>
        ensures { option_map R.view result
            ≡ string_sup_of (str_content R.view debug_str.now)
            (option_map (λ s. str_content R.view s.now) debug_str_sup.entry)
            (map_value R.view R.Offset.number self.now.value) }
    {
        self.value.string_value_sup(debug_str, debug_str_sup)
    }
}
