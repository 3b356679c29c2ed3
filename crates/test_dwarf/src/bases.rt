//! The bases of units, and the unit that holds an offset.

use crate::shown::{write_dwarf_error, write_offset};
use gimli_base::{Abbreviations, DebugAbbrev, DebugAddr, DwarfFileType, Reader, ReaderOffset};
use gimli_dwarf::{DwarfResult, UnitBases, unit_holding};
use gimli_headers::DebugInfo;
use gimli_units::{DebugInfoOffset, UnitHeader};
use std::alloc::Global;
use test_tables::{Call, Outcome, Stop, Text};

/// A unit with its table and its bases.
#[derive(Drop)]
pub(crate) struct Opened<R: Reader> {
    pub(crate) unit: UnitHeader<R>,
    pub(crate) table: Abbreviations<Global>,
    pub(crate) bases: DwarfResult<UnitBases<R::Offset>>,
}

/// The first unit of the case's `.debug_info`, as one of a file of the kind that the first word says: `main`
/// or `dwo`; or of `split` the second one, as the split unit of the first.
pub(crate) fn open_unit<R: Reader>(call: &Call<'_, R>) -> Outcome<Opened<R>> {
    match call.word(1)? {
        "main" => open_as(call, 0, DwarfFileType::Main, None),
        "dwo" => open_as(call, 0, DwarfFileType::Dwo, None),
        "split" => open_split(call),
        _ => Err(Stop::Lacks("no kind of file")),
    }
}

// The second unit, as the split unit of the first.
fn open_split<R: Reader>(call: &Call<'_, R>) -> Outcome<Opened<R>> {
    let skeleton = open_as(call, 0, DwarfFileType::Main, None)?;
    match &skeleton.bases {
        Ok(bases) => open_as(call, 1, DwarfFileType::Dwo, Some(*bases)),
        Err(_) => Err(Stop::Lacks("no skeleton")),
    }
}

// The unit of an index, with its bases.
fn open_as<R: Reader>(
    call: &Call<'_, R>,
    index: usize,
    file_type: DwarfFileType,
    skeleton: Option<UnitBases<R::Offset>>,
) -> Outcome<Opened<R>> {
    let unit = DebugInfo::from(call.section(0)?).units().nth(index);
    let unit = unit.ok_or(Stop::Lacks("no unit"))??;
    let table = unit.abbreviations(call.alloc, &DebugAbbrev::from(call.section(1)?))?;
    let addresses = DebugAddr::from(call.section(2)?);
    let skeleton = skeleton.as_ref();
    let bases = UnitBases::of(call.alloc, &unit, &table, &addresses, file_type, skeleton);
    Ok(Opened { unit, table, bases })
}

/// Writes the bases of a unit.
pub(crate) fn write_bases<R: Reader>(call: &Call<'_, R>, out: &mut Text) -> Outcome {
    let opened = open_unit(call)?;
    match &opened.bases {
        Ok(bases) => write_each_base(bases, out),
        Err(error) => write_dwarf_error(out, *error),
    }
    Ok(())
}

// Writes each base, or `-` where there is none.
fn write_each_base<O: ReaderOffset>(bases: &UnitBases<O>, out: &mut Text) {
    match bases.low_pc {
        Some(low_pc) => write!(out, "low_pc 0x{low_pc:x}"),
        None => write!(out, "low_pc -"),
    }
    write_offset("addr", bases.addr_base.map(|base| base.0), out);
    write_offset("str", bases.str_offsets_base.map(|base| base.0), out);
    write_offset("rnglists", bases.rnglists_base.map(|base| base.0), out);
    write_offset("loclists", bases.loclists_base.map(|base| base.0), out);
    write_offset("gnu", bases.gnu_ranges_base.map(|base| base.0), out);
}

/// Writes where the unit begins that holds an offset.
pub(crate) fn write_holding<R: Reader>(call: &Call<'_, R>, out: &mut Text) -> Outcome {
    let offset = DebugInfoOffset(call.offset_or_zero(1)?);
    match unit_holding(&DebugInfo::from(call.section(0)?), offset)? {
        Some(unit) => write!(out, "unit {}", unit.offset().0.into_u64()),
        None => write!(out, "none"),
    }
    Ok(())
}
