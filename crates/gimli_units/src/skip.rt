//! Passing the values of attributes by their lengths alone. What reading refuses for another reason
//! is passed here, and refused in the module `pass`.

ghost use Rattle.std.specs.Prelude.{◌≡◌, IfErr, Ok, None, false};
ghost use Rattle.gimli_base.specs.Reading.{read_of};
ghost use Rattle.gimli_units.specs.Passing.{pass_direct, pass_at, pass_all, without_place};
ghost use Rattle.gimli_units.specs.Passing.{NamesPlaceOf};
ghost use Rattle.gimli_units.specs.Taking.{has_variable_size, IfRead};

use crate::form::{direct_form, uleb128_offset};
use gimli_base::{
    AttributeSpecification, DW_FORM_GNU_addr_index, DW_FORM_GNU_str_index, DW_FORM_addrx,
    DW_FORM_block, DW_FORM_block1, DW_FORM_block2, DW_FORM_block4, DW_FORM_exprloc,
    DW_FORM_loclistx, DW_FORM_own_addrx_offset, DW_FORM_ref_udata, DW_FORM_rnglistx, DW_FORM_sdata,
    DW_FORM_string, DW_FORM_strx, DW_FORM_udata, DwForm, Encoding, Error, Reader, ReaderOffset,
    Result,
};

// Passes a value of `form`. Refusals: `UnexpectedEof`; `BadUnsignedLeb128` and `UnsupportedOffset`
// of the length of a block; `UnknownForm` of a form that is not known, and of an indirect one. The
// input is then left anywhere.
fn skip_direct<R: Reader>(input: &mut R, encoding: Encoding, form: DwForm) -> Result<()>
    ensures { read_of result (R.view input.new)
        ≡ pass_direct R.Offset.limit encoding form.0 (R.view input.old) }
{
    if let Some(size) = form.size(encoding) {
        return input.skip(R::Offset::from_u8(size));
    }
    match skip_variable(input, encoding, form)? {
        Some(()) => Ok(()),
        None => Err(Error::UnknownForm(form)),
    }
}

// Passes a value of a form of variable size, whose bytes tell how many they are. `None`: the form
// is not one of these, and nothing is passed. Refusals: `UnexpectedEof`; `BadUnsignedLeb128` and
// `UnsupportedOffset` of the length of a block. The input is then left anywhere.
#[tactic(auto, unfolding(crate::specs::Passing::pass_direct, crate::specs::Taking::has_variable_size, gimli_base::specs::Reading::sized_offset_at))]
fn skip_variable<R: Reader>(input: &mut R, encoding: Encoding, form: DwForm) -> Result<Option<()>>
    ensures value { IfRead result (λ answer. read_of answer (R.view input.new)
        ≡ pass_direct R.Offset.limit encoding form.0 (R.view input.old)) }
    ensures others { result ≡ Ok None → has_variable_size form.0 ≡ false }
{
    match form {
        DW_FORM_block1 => {
            let length = input.read_sized_offset(1)?;
            input.skip(length)?;
        }
        DW_FORM_block2 => {
            let length = input.read_sized_offset(2)?;
            input.skip(length)?;
        }
        DW_FORM_block4 => {
            let length = input.read_sized_offset(4)?;
            input.skip(length)?;
        }
        DW_FORM_block | DW_FORM_exprloc => {
            let length = uleb128_offset(input)?;
            input.skip(length)?;
        }
        DW_FORM_string => {
            let _ = input.read_null_terminated_slice()?;
        }
        DW_FORM_udata
        | DW_FORM_sdata
        | DW_FORM_ref_udata
        | DW_FORM_strx
        | DW_FORM_addrx
        | DW_FORM_loclistx
        | DW_FORM_rnglistx
        | DW_FORM_GNU_addr_index
        | DW_FORM_GNU_str_index => input.skip_leb128()?,
        DW_FORM_own_addrx_offset => {
            input.skip_leb128()?;
            input.skip(R::Offset::from_u8(4))?;
        }
        _ => return Ok(None),
    }
    Ok(Some(()))
}

// As `skip_rare`, by a call that gets a copy of the input, so that the caller's reader stays in
// registers.
#[inline(always)]
fn skip_value<R: Reader>(input: &mut R, encoding: Encoding, form: DwForm) -> Result<()>
    ensures { read_of result (R.view input.new)
        ≡ pass_at R.Offset.limit encoding form.0 (R.view input.old) }
{
    let mut rest = input.copy();
    skip_rare(&mut rest, encoding, form)?;
    *input = rest;
    Ok(())
}

// Passes a value of `form`, which may be indirect. Refusals: those of `direct_form`, then those of
// `skip_direct`. The input is then left anywhere.
#[inline(never)]
#[tactic(auto, unfolding(crate::specs::Passing::pass_at))]
fn skip_rare<R: Reader>(input: &mut R, encoding: Encoding, form: DwForm) -> Result<()>
    ensures { read_of result (R.view input.new)
        ≡ pass_at R.Offset.limit encoding form.0 (R.view input.old) }
{
    let form = direct_form(input, form)?;
    skip_direct(input, encoding, form)
}

/// Passes the values of these specifications, in their order; those of known sizes are passed
/// together.
///
/// Refusals, of the first value that can't be passed: `UnexpectedEof`, whose place lies between the
/// input's first byte and its end, `BadUnsignedLeb128`, `UnsupportedOffset`, `UnknownForm`. The
/// input is then left anywhere.
#[inline(always)]
pub(crate) fn skip_all<R: Reader>(
    input: &mut R,
    encoding: Encoding,
    specifications: &[AttributeSpecification],
) -> Result<()>
    ensures value { without_place (read_of result (R.view input.new))
        ≡ without_place (pass_all R.Offset.limit encoding specifications.now (R.view input.old)) }
    ensures place { IfErr result (NamesPlaceOf (R.view input.old)) }
{
    let mut pending = R::Offset::from_u8(0);
    'specifications: for specification in specifications {
        if let Some(size) = specification.size(encoding)
            && let Some(sum) = pending.checked_add(R::Offset::from_u8(size))
        {
            pending = sum;
            continue;
        }
        input.skip(pending)?;
        pending = R::Offset::from_u8(0);
        skip_value(input, encoding, specification.form())?;
    }
    input.skip(pending)
}
