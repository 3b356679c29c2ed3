//! The reading of a header.

ghost use Rattle.std.specs.Prelude.{◌≡◌, ◌+◌, ◌<◌, ◌≤◌, length, IfOk};
ghost use Rattle.gimli_base.specs.Offset.{answer_of};
ghost use Rattle.gimli_base.specs.Reading.{read_of};
ghost use Rattle.gimli_headers.specs.Header.{
  old_common_at,
  new_common_at,
  common_at,
  signature_at,
  type_at,
  fields_at,
  unit_at,
  implied_type,
  common_of,
};
ghost use Rattle.gimli_units.specs.Unit.{header_size, size_of_header};
ghost use Rattle.gimli_units.specs.UnitKind.{map_type};
ghost use Rattle.gimli_units.specs.UnitHeld.{unit_view};

use gimli_base::{
    DW_UT_compile, DW_UT_lo_user, DW_UT_partial, DW_UT_skeleton, DW_UT_split_compile,
    DW_UT_split_type, DW_UT_type, DebugAbbrevOffset, DebugTypeSignature, DwUt, DwoId, Encoding,
    Error, Format, Reader, Result, SectionId,
};
use gimli_units::{UnitHeader, UnitOffset, UnitSectionOffset, UnitType};

// What every header says.
#[derive(Clone, Copy)]
struct Common<Offset> {
    version: u16,
    unit_type: DwUt,
    debug_abbrev_offset: DebugAbbrevOffset<Offset>,
    address_size: u8,
}

// The type that a unit of versions 2 to 4 has by its section, as its header has no code for it:
// `DW_UT_type` in `.debug_types`, and `DW_UT_compile` in any other.
fn implied_type(section: SectionId) -> DwUt
    ensures { result.0 ≡ implied_type section }
{
    match section {
        SectionId::DebugTypes => DW_UT_type,
        _ => DW_UT_compile,
    }
}

// The fields of versions 2 to 4 after the version: the offset of the abbreviations and the size of
// an address, in this order; the type is that of the section. The first field that is refused is
// the refusal: `UnexpectedEof`, `UnsupportedOffset`, `UnsupportedAddressSize`. The input is then
// left anywhere.
#[tactic(auto, unfolding(crate::specs::Header::old_common_at))]
fn parse_old_common<R: Reader>(
    input: &mut R,
    section: SectionId,
    format: Format,
    version: u16,
) -> Result<Common<R::Offset>>
    ensures { read_of (answer_of (common_of R.Offset.number) result) (R.view input.new)
        ≡ old_common_at R.Offset.limit section format version (R.view input.old) }
{
    let debug_abbrev_offset = DebugAbbrevOffset(input.read_offset(format)?);
    let address_size = input.read_address_size()?;
    Ok(Common {
        version,
        unit_type: implied_type(section),
        debug_abbrev_offset,
        address_size,
    })
}

// The fields of version 5 after the version: the code of the type, which may be unknown, the size
// of an address and the offset of the abbreviations, in this order. The first field that is refused
// is the refusal: `UnexpectedEof`, `UnsupportedAddressSize`, `UnsupportedOffset`. The input is then
// left anywhere.
#[tactic(auto, unfolding(crate::specs::Header::new_common_at))]
fn parse_new_common<R: Reader>(
    input: &mut R,
    format: Format,
    version: u16,
) -> Result<Common<R::Offset>>
    ensures { read_of (answer_of (common_of R.Offset.number) result) (R.view input.new)
        ≡ new_common_at R.Offset.limit format version (R.view input.old) }
{
    let unit_type = DwUt(input.read_u8()?);
    let address_size = input.read_address_size()?;
    let debug_abbrev_offset = DebugAbbrevOffset(input.read_offset(format)?);
    Ok(Common {
        version,
        unit_type,
        debug_abbrev_offset,
        address_size,
    })
}

// The version and the fields after it, up to those that the type adds. Refusals: `UnexpectedEof`;
// `UnknownVersion` of a version other than 2 to 5; then those of the version's fields. The input is
// then left anywhere.
#[tactic(auto, unfolding(crate::specs::Header::common_at))]
fn parse_common<R: Reader>(
    input: &mut R,
    section: SectionId,
    format: Format,
) -> Result<Common<R::Offset>>
    ensures { read_of (answer_of (common_of R.Offset.number) result) (R.view input.new)
        ≡ common_at R.Offset.limit section format (R.view input.old) }
{
    let version = input.read_u16()?;
    if 2 <= version && version <= 4 {
        parse_old_common(input, section, format, version)
    } else if version == 5 {
        parse_new_common(input, format, version)
    } else {
        Err(Error::UnknownVersion(u64::from(version)))
    }
}

// The signature of a type, and the offset of the type's entry in the unit, in this order; whether
// an entry stands there is not looked at. Refusals: `UnexpectedEof`, `UnsupportedOffset`. The input
// is then left anywhere.
#[tactic(auto, unfolding(crate::specs::Header::signature_at))]
fn parse_signature<R: Reader>(
    input: &mut R,
    format: Format,
) -> Result<(DebugTypeSignature, UnitOffset<R::Offset>)>
    ensures { read_of (answer_of (λ p. (p.0.0, R.Offset.number p.1.0)) result) (R.view input.new)
        ≡ signature_at R.Offset.limit format (R.view input.old) }
{
    let type_signature = DebugTypeSignature(input.read_u64()?);
    let type_offset = UnitOffset(input.read_offset(format)?);
    Ok((type_signature, type_offset))
}

// The type of a code, with the fields that it adds to the header: a signature and an offset for
// `DW_UT_type` and `DW_UT_split_type`, an id for `DW_UT_skeleton` and `DW_UT_split_compile`, else
// none. A code from `DW_UT_lo_user` on is a vendor's type. Refusals: `UnknownUnitType` of any other
// code; those of the fields. The input is then left anywhere.
#[tactic(auto, unfolding(crate::specs::Header::type_at))]
fn parse_type<R: Reader>(input: &mut R, format: Format, code: DwUt) -> Result<UnitType<R::Offset>>
    ensures { read_of (answer_of (map_type R.Offset.number) result) (R.view input.new)
        ≡ type_at R.Offset.limit format code.0 (R.view input.old) }
{
    match code {
        DW_UT_compile => Ok(UnitType::Compilation),
        DW_UT_type => {
            let (type_signature, type_offset) = parse_signature(input, format)?;
            Ok(UnitType::TypeUnit {
                type_signature,
                type_offset,
            })
        }
        DW_UT_partial => Ok(UnitType::Partial),
        DW_UT_skeleton => Ok(UnitType::Skeleton(DwoId(input.read_u64()?))),
        DW_UT_split_compile => Ok(UnitType::SplitCompilation(DwoId(input.read_u64()?))),
        DW_UT_split_type => {
            let (type_signature, type_offset) = parse_signature(input, format)?;
            Ok(UnitType::SplitType {
                type_signature,
                type_offset,
            })
        }
        _ if code.0 >= DW_UT_lo_user.0 => Ok(UnitType::Vendor(code)),
        _ => Err(Error::UnknownUnitType(code)),
    }
}

/// The header of the next unit, which begins at `unit_offset` of `section`. The input is left at
/// the end of the whole unit, and the header keeps the bytes of the entries.
///
/// Refusals: those of `Reader::read_initial_length`; `UnexpectedEof` where the input ends before
/// the unit; those of the fields in their order, that of an unknown type last. The input is then
/// left anywhere.
#[tactic(auto, unfolding(crate::specs::Header::unit_at, crate::specs::Header::fields_at))]
pub(crate) fn parse_unit_header<R: Reader>(
    input: &mut R,
    section: SectionId,
    unit_offset: UnitSectionOffset<R::Offset>,
) -> Result<UnitHeader<R>>
    ensures value { read_of (answer_of unit_view result) (R.view input.new)
        ≡ unit_at R.Offset.limit section (R.Offset.number unit_offset.0) (R.view input.old) }
    ensures size { IfOk result (λ u. size_of_header (unit_view u) ≡ header_size (unit_view u)) }
{
    let (unit_length, format) = input.read_initial_length()?;
    let mut rest = input.split(unit_length)?;
    let common = parse_common(&mut rest, section, format)?;
    let unit_type = parse_type(&mut rest, format, common.unit_type)?;
    let encoding = Encoding {
        format,
        version: common.version,
        address_size: common.address_size,
    };
    Ok(UnitHeader::new(
        encoding,
        unit_length,
        unit_type,
        common.debug_abbrev_offset,
        section,
        unit_offset,
        rest,
    ))
}
