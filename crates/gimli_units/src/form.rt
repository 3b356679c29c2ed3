//! Reading the values of attributes by their forms, and handing them to a sink.

ghost use Rattle.std.specs.Prelude.{◌≡◌, ◌==◌, ◌&&◌, if◌then◌else◌, Ok, None, OnErr, false};
ghost use Rattle.gimli_base.specs.Offset.{answer_of};
ghost use Rattle.gimli_base.specs.Reading.{read_of, map_read, address_at, uint_offset_at, text_at};
ghost use Rattle.gimli_base.specs.Reading.{sized_offset_at, offset_at, word_size_of};
ghost use Rattle.gimli_units.specs.Value.{map_value};
ghost use Rattle.gimli_units.specs.Form.{is_section_name, uleb_offset_at, direct_at, form_at};
ghost use Rattle.gimli_units.specs.Form.{block_after};
ghost use Rattle.gimli_units.specs.Entry.{attribute_at};
ghost use Rattle.gimli_units.specs.Layout.{str_index, addr_index};
ghost use Rattle.gimli_units.specs.Taking.{has_fixed_size, has_variable_size, read_into, IfRead};
ghost use Rattle.gimli_units.specs.Taking.{HandedOver};

use crate::attribute::sink::AttributeSink;
use crate::{AttributeValue, DebugInfoOffset, UnitOffset};
use gimli_base::{
    AttributeSpecification, DW_AT_data_member_location, DW_AT_frame_base, DW_AT_location,
    DW_AT_macro_info, DW_AT_macros, DW_AT_ranges, DW_AT_return_addr, DW_AT_segment,
    DW_AT_start_scope, DW_AT_static_link, DW_AT_stmt_list, DW_AT_string_length, DW_AT_use_location,
    DW_AT_vtable_elem_location, DW_FORM_GNU_addr_index, DW_FORM_GNU_ref_alt, DW_FORM_GNU_str_index,
    DW_FORM_GNU_strp_alt, DW_FORM_addr, DW_FORM_addrx, DW_FORM_addrx1, DW_FORM_addrx2,
    DW_FORM_addrx3, DW_FORM_addrx4, DW_FORM_block, DW_FORM_block1, DW_FORM_block2, DW_FORM_block4,
    DW_FORM_data1, DW_FORM_data2, DW_FORM_data4, DW_FORM_data8, DW_FORM_data16, DW_FORM_exprloc,
    DW_FORM_flag, DW_FORM_flag_present, DW_FORM_implicit_const, DW_FORM_indirect,
    DW_FORM_line_strp, DW_FORM_loclistx, DW_FORM_own_addrx_offset, DW_FORM_ref_addr,
    DW_FORM_ref_sig8, DW_FORM_ref_sup4, DW_FORM_ref_sup8, DW_FORM_ref_udata, DW_FORM_ref1,
    DW_FORM_ref2, DW_FORM_ref4, DW_FORM_ref8, DW_FORM_rnglistx, DW_FORM_sdata, DW_FORM_sec_offset,
    DW_FORM_string, DW_FORM_strp, DW_FORM_strp_sup, DW_FORM_strx, DW_FORM_strx1, DW_FORM_strx2,
    DW_FORM_strx3, DW_FORM_strx4, DW_FORM_udata, DebugAddrIndex, DebugLineStrOffset,
    DebugLocListsIndex, DebugRngListsIndex, DebugStrOffset, DebugStrOffsetsIndex,
    DebugTypeSignature, DwAt, DwForm, Encoding, Error, Expression, Reader, ReaderOffset, Result,
};

// Whether data4 or data8 under this name is an offset into a section, if it has the width of the
// format's offsets. `DW_AT_data_member_location` is such a name in versions 2 and 3 alone, the
// others are in every version.
#[tactic(auto, unfolding(crate::specs::Form::is_section_name))]
fn allow_section_offset(name: DwAt, version: u16) -> bool
    ensures { result ≡ is_section_name name.0 version }
{
    match name {
        DW_AT_location
        | DW_AT_stmt_list
        | DW_AT_string_length
        | DW_AT_return_addr
        | DW_AT_start_scope
        | DW_AT_frame_base
        | DW_AT_macro_info
        | DW_AT_macros
        | DW_AT_segment
        | DW_AT_static_link
        | DW_AT_use_location
        | DW_AT_vtable_elem_location
        | DW_AT_ranges => true,
        DW_AT_data_member_location => version == 2 || version == 3,
        _ => false,
    }
}

// Whether data of `size` bytes under this name is an offset into a section: it has the width of the
// format's offsets, and the name is one of `allow_section_offset`.
#[inline(always)]
fn is_offset(encoding: Encoding, size: u8, name: DwAt) -> bool
    ensures { result ≡ (word_size_of encoding.format == size
        && is_section_name name.0 encoding.version) }
{
    encoding.format.word_size() == size && allow_section_offset(name, encoding.version)
}

// The next address, of `size` bytes. Refusals: `UnsupportedAddressSize` where that is not 1, 2, 4
// or 8, then `UnexpectedEof`; the input is then left anywhere. One of 8 bytes is read in place, and
// the others by a call that gets a reader of its own, so that the caller's stays in registers.
#[inline(always)]
#[tactic(auto, unfolding(gimli_base::specs::Reading::address_at))]
fn address<R: Reader>(input: &mut R, size: u8) -> Result<u64>
    ensures { read_of result (R.view input.new) ≡ address_at size (R.view input.old) }
{
    if size == 8 {
        return input.read_u64();
    }
    let mut rest = input.copy();
    let address = narrow_address(&mut rest, size)?;
    *input = rest;
    Ok(address)
}

// As `address`, by a call, whatever the size.
#[inline(never)]
fn narrow_address<R: Reader>(input: &mut R, size: u8) -> Result<u64>
    ensures { read_of result (R.view input.new) ≡ address_at size (R.view input.old) }
{
    input.read_address(size)
}

// The next three bytes as an offset or an index. Refusals: `UnexpectedEof`, `UnsupportedOffset`;
// the input is then left anywhere.
#[inline]
fn three_byte_offset<R: Reader>(input: &mut R) -> Result<R::Offset>
    ensures { read_of (answer_of R.Offset.number result) (R.view input.new)
        ≡ uint_offset_at R.Offset.limit 3 (R.view input.old) }
{
    R::Offset::from_u64(input.read_uint(3)?)
}

/// The next unsigned LEB128 number as an offset or an index. Refusals: `UnexpectedEof`,
/// `BadUnsignedLeb128`, and `UnsupportedOffset` where it does not fit the reader's offsets; the
/// input is then left anywhere.
#[inline(always)]
pub(crate) fn uleb128_offset<R: Reader>(input: &mut R) -> Result<R::Offset>
    ensures { read_of (answer_of R.Offset.number result) (R.view input.new)
        ≡ uleb_offset_at R.Offset.limit (R.view input.old) }
{
    R::Offset::from_u64(input.read_uleb128()?)
}

// The bytes of a block: a length of `size` bytes, 1, 2, 4 or 8, and then so many. Refusals: those
// of `read_sized_offset`, then `UnexpectedEof` of the block; the input is then left anywhere.
#[inline(always)]
fn sized_block<R: Reader>(input: &mut R, size: u8) -> Result<R>
    ensures { read_of (answer_of R.view result) (R.view input.new)
        ≡ block_after (sized_offset_at R.Offset.limit size (R.view input.old)) }
{
    let length = input.read_sized_offset(size)?;
    input.split(length)
}

// The bytes of a block: a length that is a LEB128 number, and then so many. Refusals: those of
// `uleb128_offset`, then `UnexpectedEof` of the block; the input is then left anywhere.
#[inline(always)]
fn uleb128_block<R: Reader>(input: &mut R) -> Result<R>
    ensures { read_of (answer_of R.view result) (R.view input.new)
        ≡ block_after (uleb_offset_at R.Offset.limit (R.view input.old)) }
{
    let length = uleb128_offset(input)?;
    input.split(length)
}

// The bytes of a text, up to the first zero, which is passed too. It reads as
// `read_null_terminated_slice` does, without its copy of the input. Refusal: `UnexpectedEof`,
// without a zero; the input is then left anywhere.
#[inline(always)]
#[tactic(auto, unfolding(gimli_base::specs::Reading::text_at))]
fn text<R: Reader>(input: &mut R) -> Result<R>
    ensures { read_of (answer_of R.view result) (R.view input.new) ≡ text_at (R.view input.old) }
{
    let length = input.find(0)?;
    let text = input.split(length)?;
    let _ = input.read_u8()?;
    Ok(text)
}

// The next offset of an entry in `.debug_info`, as the form ref_addr has it: of the size of an
// address in version 2, else of the format's width. Refusals: those of `sized_offset` in version 2,
// else `UnexpectedEof` and `UnsupportedOffset`; the input is then left anywhere. In version 2 it is
// read by a call, on a reader of its own, as an address is.
#[inline]
fn section_reference<R: Reader>(input: &mut R, encoding: Encoding) -> Result<R::Offset>
    ensures { let v = R.view input.old in let limit = R.Offset.limit in
        read_of (answer_of R.Offset.number result) (R.view input.new)
        ≡ (if encoding.version == 2 then sized_offset_at limit encoding.address_size v
        else offset_at limit encoding.format v) }
{
    if encoding.version != 2 {
        return input.read_offset(encoding.format);
    }
    let mut rest = input.copy();
    let offset = sized_offset(&mut rest, encoding.address_size)?;
    *input = rest;
    Ok(offset)
}

// The next `size` bytes as an offset, as `read_sized_offset` reads them, without its copy of the
// input. Refusals: `UnsupportedOffsetSize` where `size` is not 1, 2, 4 or 8, then `UnexpectedEof`,
// `UnsupportedOffset`; the input is then left anywhere.
#[inline(never)]
#[tactic(auto, using(gimli_base::proofs::OneByte::one_byte), unfolding(gimli_base::specs::Reading::sized_offset_at))]
fn sized_offset<R: Reader>(input: &mut R, size: u8) -> Result<R::Offset>
    ensures { read_of (answer_of R.Offset.number result) (R.view input.new)
        ≡ sized_offset_at R.Offset.limit size (R.view input.old) }
{
    let value = match size {
        1 => u64::from(input.read_u8()?),
        2 => u64::from(input.read_u16()?),
        4 => u64::from(input.read_u32()?),
        8 => input.read_u64()?,
        _ => return Err(Error::UnsupportedOffsetSize(size)),
    };
    R::Offset::from_u64(value)
}

// The value of the forms strx: an index into the unit's offsets in `.debug_str_offsets`.
#[inline(always)]
fn str_index<R: Reader>(index: R::Offset) -> AttributeValue<R>
    ensures { map_value R.view R.Offset.number result ≡ str_index (R.Offset.number index) }
{
    AttributeValue::DebugStrOffsetsIndex(DebugStrOffsetsIndex(index))
}

// The value of the forms addrx: an index into the unit's addresses in `.debug_addr`.
#[inline(always)]
fn addr_index<R: Reader>(index: R::Offset) -> AttributeValue<R>
    ensures { map_value R.view R.Offset.number result ≡ addr_index (R.Offset.number index) }
{
    AttributeValue::DebugAddrIndex(DebugAddrIndex(index))
}

// Hands over the value of one of these forms; with any other form it answers none. Each arm calls
// the sink itself, so that no code after the `match` has to take the value apart.
macro_rules! hand_over {
    ($form:expr, $sink:expr, $specification:expr; $($($code:ident)|+ => $value:expr,)*) => {
        match $form {
            $($($code)|+ => Ok(Some($sink.take($specification, $value))),)*
            _ => Ok(None),
        }
    };
}

// Reads the value of a form whose size is known before it is read, and hands the attribute of `s`
// to the sink. `None`: the form is not one of these, and nothing is read. Refusals:
// `UnexpectedEof`, `UnsupportedAddressSize`, `UnsupportedOffset`, `UnsupportedOffsetSize`,
// `InvalidImplicitConst`; the sink then stays, and the input is left anywhere.
#[inline(always)]
#[tactic(auto, unfolding(crate::specs::Form::direct_at, crate::specs::Taking::has_fixed_size, gimli_base::specs::Reading::sized_offset_at))]
fn read_fixed<R: Reader, T: AttributeSink<R>>(
    input: &mut R,
    encoding: Encoding,
    s: &AttributeSpecification,
    form: DwForm,
    sink: &mut T,
) -> Result<Option<T::Answer>>
    requires { T.has_room sink.old }
    ensures value { IfRead result (λ answer.
        read_of (answer_of (T.meaning sink.new) answer) (R.view input.new)
        ≡ read_into (T.after_take sink.old) R.Offset.limit encoding s.now form.0
        (R.view input.old)) }
    ensures refused { OnErr result (sink.new ≡ sink.old) }
    ensures others { result ≡ Ok None → (R.view input.new ≡ R.view input.old)
        × (sink.new ≡ sink.old) × (has_fixed_size form.0 ≡ false) }
{
    hand_over! { form, sink, s;
        DW_FORM_addr => AttributeValue::Addr(address(input, encoding.address_size)?),
        DW_FORM_data1 => AttributeValue::Data1(input.read_u8()?),
        DW_FORM_data2 => AttributeValue::Data2(input.read_u16()?),
        DW_FORM_data4 => if is_offset(encoding, 4, s.name()) {
            AttributeValue::SecOffset(input.read_sized_offset(4)?)
        } else {
            AttributeValue::Data4(input.read_u32()?)
        },
        DW_FORM_data8 => if is_offset(encoding, 8, s.name()) {
            AttributeValue::SecOffset(input.read_sized_offset(8)?)
        } else {
            AttributeValue::Data8(input.read_u64()?)
        },
        DW_FORM_data16 => AttributeValue::Data16(input.read_u128()?),
        DW_FORM_implicit_const => AttributeValue::Sdata(
            s.implicit_const_value().ok_or(Error::InvalidImplicitConst)?
        ),
        DW_FORM_flag => AttributeValue::Flag(input.read_u8()? != 0),
        DW_FORM_flag_present => AttributeValue::Flag(true),
        DW_FORM_sec_offset => AttributeValue::SecOffset(input.read_offset(encoding.format)?),
        DW_FORM_ref1 => AttributeValue::UnitRef(UnitOffset(input.read_sized_offset(1)?)),
        DW_FORM_ref2 => AttributeValue::UnitRef(UnitOffset(input.read_sized_offset(2)?)),
        DW_FORM_ref4 => AttributeValue::UnitRef(UnitOffset(input.read_sized_offset(4)?)),
        DW_FORM_ref8 => AttributeValue::UnitRef(UnitOffset(input.read_sized_offset(8)?)),
        DW_FORM_ref_addr => AttributeValue::DebugInfoRef(DebugInfoOffset(
            section_reference(input, encoding)?
        )),
        DW_FORM_ref_sig8 => AttributeValue::DebugTypesRef(DebugTypeSignature(input.read_u64()?)),
        DW_FORM_ref_sup4 => AttributeValue::DebugInfoRefSup(DebugInfoOffset(
            input.read_sized_offset(4)?
        )),
        DW_FORM_ref_sup8 => AttributeValue::DebugInfoRefSup(DebugInfoOffset(
            input.read_sized_offset(8)?
        )),
        DW_FORM_GNU_ref_alt => AttributeValue::DebugInfoRefSup(DebugInfoOffset(
            input.read_offset(encoding.format)?
        )),
        DW_FORM_strp => AttributeValue::DebugStrRef(DebugStrOffset(
            input.read_offset(encoding.format)?
        )),
        DW_FORM_strp_sup | DW_FORM_GNU_strp_alt => AttributeValue::DebugStrRefSup(DebugStrOffset(
            input.read_offset(encoding.format)?
        )),
        DW_FORM_line_strp => AttributeValue::DebugLineStrRef(DebugLineStrOffset(
            input.read_offset(encoding.format)?
        )),
        DW_FORM_strx1 => str_index(input.read_sized_offset(1)?),
        DW_FORM_strx2 => str_index(input.read_sized_offset(2)?),
        DW_FORM_strx3 => str_index(three_byte_offset(input)?),
        DW_FORM_strx4 => str_index(input.read_sized_offset(4)?),
        DW_FORM_addrx1 => addr_index(input.read_sized_offset(1)?),
        DW_FORM_addrx2 => addr_index(input.read_sized_offset(2)?),
        DW_FORM_addrx3 => addr_index(three_byte_offset(input)?),
        DW_FORM_addrx4 => addr_index(input.read_sized_offset(4)?),
    }
}

// As `read_fixed`, but of the forms of variable size, whose bytes tell how many they are. Refusals:
// `UnexpectedEof`, `BadUnsignedLeb128`, `BadSignedLeb128`, `UnsupportedOffset`.
#[inline(always)]
#[tactic(auto, unfolding(crate::specs::Form::direct_at, crate::specs::Taking::has_variable_size, gimli_base::specs::Reading::sized_offset_at))]
fn read_variable<R: Reader, T: AttributeSink<R>>(
    input: &mut R,
    encoding: Encoding,
    s: &AttributeSpecification,
    form: DwForm,
    sink: &mut T,
) -> Result<Option<T::Answer>>
    requires { T.has_room sink.old }
    ensures value { IfRead result (λ answer.
        read_of (answer_of (T.meaning sink.new) answer) (R.view input.new)
        ≡ read_into (T.after_take sink.old) R.Offset.limit encoding s.now form.0
        (R.view input.old)) }
    ensures refused { OnErr result (sink.new ≡ sink.old) }
    ensures others { result ≡ Ok None → (R.view input.new ≡ R.view input.old)
        × (sink.new ≡ sink.old) × (has_variable_size form.0 ≡ false) }
{
    hand_over! { form, sink, s;
        DW_FORM_block1 => AttributeValue::Block(sized_block(input, 1)?),
        DW_FORM_block2 => AttributeValue::Block(sized_block(input, 2)?),
        DW_FORM_block4 => AttributeValue::Block(sized_block(input, 4)?),
        DW_FORM_block => AttributeValue::Block(uleb128_block(input)?),
        DW_FORM_exprloc => AttributeValue::Exprloc(Expression(uleb128_block(input)?)),
        DW_FORM_udata => AttributeValue::Udata(input.read_uleb128()?),
        DW_FORM_sdata => AttributeValue::Sdata(input.read_sleb128()?),
        DW_FORM_string => AttributeValue::String(text(input)?),
        DW_FORM_ref_udata => AttributeValue::UnitRef(UnitOffset(uleb128_offset(input)?)),
        DW_FORM_strx | DW_FORM_GNU_str_index => str_index(uleb128_offset(input)?),
        DW_FORM_addrx | DW_FORM_GNU_addr_index => addr_index(uleb128_offset(input)?),
        DW_FORM_own_addrx_offset => AttributeValue::DebugAddrIndexOffset(
            DebugAddrIndex(uleb128_offset(input)?), input.read_u32()?
        ),
        DW_FORM_loclistx => AttributeValue::DebugLocListsIndex(DebugLocListsIndex(
            uleb128_offset(input)?
        )),
        DW_FORM_rnglistx => AttributeValue::DebugRngListsIndex(DebugRngListsIndex(
            uleb128_offset(input)?
        )),
    }
}

/// The form that a chain of indirect forms leads to, each of which is followed by the code of the
/// next; `form` itself, and nothing is read, where it is not indirect. Whether the code is that of
/// a form is not looked at. Refusals: `UnexpectedEof`, `BadUnsignedLeb128`; the input is then left
/// anywhere.
#[tactic(auto, unfolding(crate::specs::Form::form_at))]
pub(crate) fn direct_form<R: Reader>(input: &mut R, form: DwForm) -> Result<DwForm>
    ensures { read_of (answer_of (λ f. f.0) result) (R.view input.new)
        ≡ form_at form.0 (R.view input.old) }
{
    let mut form = form;
    'indirect: while form == DW_FORM_indirect {
        form = DwForm(input.read_uleb128_u16()?);
    }
    Ok(form)
}

// Reads the value of `form`, and hands the attribute of the specification to the sink. `form` is
// the specification's, or the one that it leads to. Refusals: those of `read_fixed` and of
// `read_variable`, and `UnknownForm` of any other form, an indirect one too. The sink then stays,
// and the input is left anywhere.
#[tactic(auto, using(crate::proofs::AttributeTurns::no_form))]
fn read_direct<R: Reader, T: AttributeSink<R>>(
    input: &mut R,
    encoding: Encoding,
    specification: &AttributeSpecification,
    form: DwForm,
    sink: &mut T,
) -> Result<T::Answer>
    requires { T.has_room sink.old }
    ensures value { read_of (answer_of (T.meaning sink.new) result) (R.view input.new)
        ≡ read_into (T.after_take sink.old) R.Offset.limit encoding specification.now form.0
        (R.view input.old) }
    ensures refused { OnErr result (sink.new ≡ sink.old) }
{
    if let Some(taken) = read_fixed(input, encoding, specification, form, sink)? {
        return Ok(taken);
    }
    if let Some(taken) = read_variable(input, encoding, specification, form, sink)? {
        return Ok(taken);
    }
    Err(Error::UnknownForm(form))
}

// Reads the attribute of a specification, whose form may be indirect, and hands it to the sink.
// Refusals: those of `direct_form`, then those of `read_direct`. The sink then stays, and the input
// is left anywhere.
#[inline(never)]
#[tactic(auto, using(crate::proofs::AttributeTurns::made_chained, crate::proofs::AttributeTurns::made_refused))]
fn read_any<R: Reader, T: AttributeSink<R>>(
    input: &mut R,
    encoding: Encoding,
    specification: &AttributeSpecification,
    sink: &mut T,
) -> Result<T::Answer>
    requires { T.has_room sink.old }
    ensures { HandedOver T.meaning T.after_take sink.old sink.new result
        (attribute_at R.Offset.limit encoding specification.now (R.view input.old))
        (R.view input.new) }
{
    // (it says that the form implicit_const has a number)
    let _ = specification.implicit_const_value();
    let form = direct_form(input, specification.form())?;
    read_direct(input, encoding, specification, form, sink)
}

// As `read_any`, where `COPY` is not 0 on a reader of its own. It is a function of its own, since
// the place of that reader is cleared where its body begins.
#[inline(always)]
fn read_on_copy<R: Reader, T: AttributeSink<R>, const COPY: usize>(
    input: &mut R,
    encoding: Encoding,
    specification: &AttributeSpecification,
    sink: &mut T,
) -> Result<T::Answer>
    requires { T.has_room sink.old }
    ensures { HandedOver T.meaning T.after_take sink.old sink.new result
        (attribute_at R.Offset.limit encoding specification.now (R.view input.old))
        (R.view input.new) }
{
    if COPY == 0 {
        return read_any(input, encoding, specification, sink);
    }
    let mut rest = input.copy();
    let taken = read_any(&mut rest, encoding, specification, sink)?;
    *input = rest;
    Ok(taken)
}

/// Reads the attribute of a specification, and hands it to the sink. Refusals: those of
/// `EntriesRaw::read_attribute`; the sink then stays, and the input is left anywhere.
///
/// Each form is put in place with what the sink makes of its value; a chain of indirect forms is
/// followed by a call, where `COPY` is not 0 on a reader of its own, so that the caller's stays in
/// registers. Each number is another copy of the function: the compiler puts one in place for one
/// caller.
#[inline(always)]
#[tactic(auto, using(crate::proofs::AttributeTurns::made_direct))]
pub(crate) fn read_form<R: Reader, T: AttributeSink<R>, const COPY: usize>(
    input: &mut R,
    encoding: Encoding,
    specification: &AttributeSpecification,
    sink: &mut T,
) -> Result<T::Answer>
    requires { T.has_room sink.old }
    ensures { HandedOver T.meaning T.after_take sink.old sink.new result
        (attribute_at R.Offset.limit encoding specification.now (R.view input.old))
        (R.view input.new) }
{
    // (it says that the form implicit_const has a number)
    let _ = specification.implicit_const_value();
    let form = specification.form();
    if form != DW_FORM_indirect
        && let Some(taken) = read_fixed(input, encoding, specification, form, sink)?
    {
        return Ok(taken);
    }
    read_of_variable_size::<R, T, COPY>(input, encoding, specification, sink)
}

/// As `read_form`, with the same answers for every form, but only the forms of variable size are
/// put in place; all others are read by the call.
#[inline(always)]
#[tactic(auto, using(crate::proofs::AttributeTurns::made_direct))]
pub(crate) fn read_of_variable_size<R: Reader, T: AttributeSink<R>, const COPY: usize>(
    input: &mut R,
    encoding: Encoding,
    specification: &AttributeSpecification,
    sink: &mut T,
) -> Result<T::Answer>
    requires { T.has_room sink.old }
    ensures { HandedOver T.meaning T.after_take sink.old sink.new result
        (attribute_at R.Offset.limit encoding specification.now (R.view input.old))
        (R.view input.new) }
{
    // (it says that the form implicit_const has a number)
    let _ = specification.implicit_const_value();
    let form = specification.form();
    if form != DW_FORM_indirect
        && let Some(taken) = read_variable(input, encoding, specification, form, sink)?
    {
        return Ok(taken);
    }
    read_on_copy::<R, T, COPY>(input, encoding, specification, sink)
}
