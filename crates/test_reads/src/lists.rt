//! Range lists and location lists: their entries as they are written, and the ranges or locations; headers of
//! sections of lists, and offsets in their tables.

use crate::items::write_items;
use crate::sections::{location_lists, range_lists};
use crate::shown::write_encoding;
use gimli_base::{
    DebugAddr, DebugAddrBase, DebugLocListsBase, DebugLocListsIndex, DebugRngListsBase,
    DebugRngListsIndex, LocationListsOffset, RangeListsOffset, Reader, ReaderOffset,
};
use gimli_lists::{ListsHeader, LocListIter, RngListIter};
use test_tables::{Call, Outcome, Text, hex_of, write_refusal};

// The sections of lists before version 5 and from it on: the first section of the case is that of the
// version, and the other is empty.
fn old_and_new<R: Reader>(call: &Call<'_, R>) -> Outcome<(R, R)> {
    let section = call.section(0)?;
    let mut none = section.copy();
    none.empty();
    match call.encoding(1)?.version {
        0..=4 => Ok((section, none)),
        _ => Ok((none, section)),
    }
}

// The offset of a list, which is the last word.
fn offset_of<R: Reader>(call: &Call<'_, R>) -> Outcome<R::Offset> {
    call.offset_or_zero(call.case.words.len().saturating_sub(1))
}

/// Writes the entries of a range list as they are written, and its ranges, each with the refusals where they
/// come; or the entries alone, where the words do not say how addresses are read.
pub(crate) fn write_ranges<R: Reader>(call: &Call<'_, R>, out: &mut Text) -> Outcome {
    let lists = range_lists(old_and_new(call)?);
    let raw = lists.raw_ranges(RangeListsOffset(offset_of(call)?), call.encoding(1)?)?;
    write_items("raw", raw, out);
    if call.case.words.len() > 5 {
        write_items("\nranges", ranges_of(call)?, out);
    }
    Ok(())
}

/// The ranges of a list.
pub(crate) fn ranges_of<R: Reader>(call: &Call<'_, R>) -> Outcome<RngListIter<R>> {
    let lists = range_lists(old_and_new(call)?);
    let (encoding, base) = (call.sized_encoding(1)?, call.number(4)?);
    let addr = DebugAddr::from(call.section(1)?);
    let addr_base = DebugAddrBase(call.offset_or_zero(5)?);
    let offset = RangeListsOffset(offset_of(call)?);
    Ok(lists.ranges(offset, encoding, base, &addr, addr_base)?)
}

/// Writes how many ranges and how many refusals a range list answers.
pub(crate) fn write_range_count<R: Reader>(call: &Call<'_, R>, out: &mut Text) -> Outcome {
    let (mut count, mut refused) = (0u64, 0u64);
    for answer in ranges_of(call)? {
        match answer {
            Ok(_) => count = count.saturating_add(1),
            Err(_) => refused = refused.saturating_add(1),
        }
    }
    write!(out, "{count} ranges, {refused} refusals");
    Ok(())
}

/// Writes the same of a location list as of a range list; `_dwo` is for that of a split file.
pub(crate) fn write_locations<R: Reader>(call: &Call<'_, R>, out: &mut Text) -> Outcome {
    let lists = location_lists(old_and_new(call)?);
    let (offset, encoding) = (LocationListsOffset(offset_of(call)?), call.encoding(1)?);
    let raw = match call.name() {
        "locations" => lists.raw_locations(offset, encoding),
        _ => lists.raw_locations_dwo(offset, encoding),
    };
    write_items("raw", raw?, out);
    if call.case.words.len() > 5 {
        write_items("\nlocations", locations_of(call)?, out);
    }
    Ok(())
}

/// The locations of a list.
pub(crate) fn locations_of<R: Reader>(call: &Call<'_, R>) -> Outcome<LocListIter<R>> {
    let lists = location_lists(old_and_new(call)?);
    let (encoding, base) = (call.sized_encoding(1)?, call.number(4)?);
    let addr = DebugAddr::from(call.section(1)?);
    let addr_base = DebugAddrBase(call.offset_or_zero(5)?);
    let offset = LocationListsOffset(offset_of(call)?);
    let locations = match call.name() {
        "locations_dwo" => lists.locations_dwo(offset, encoding, base, &addr, addr_base),
        _ => lists.locations(offset, encoding, base, &addr, addr_base),
    };
    Ok(locations?)
}

/// Writes the offset of a range list or a location list at an index.
pub(crate) fn write_list_offset<R: Reader>(call: &Call<'_, R>, out: &mut Text) -> Outcome {
    let (sections, encoding) = ((call.section(1)?, call.section(0)?), call.encoding(1)?);
    let (base, index) = (call.offset_or_zero(4)?, call.offset_or_zero(5)?);
    let offset = if call.name() == "range_offset" {
        let (base, index) = (DebugRngListsBase(base), DebugRngListsIndex(index));
        let lists = range_lists(sections);
        lists.get_offset(encoding, base, index)?.0
    } else {
        let (base, index) = (DebugLocListsBase(base), DebugLocListsIndex(index));
        let lists = location_lists(sections);
        lists.get_offset(encoding, base, index)?.0
    };
    write!(out, "{}", offset.into_u64());
    Ok(())
}

/// Writes the header at the beginning of a section, and after `left` what is left then.
pub(crate) fn write_lists_header<R: Reader>(call: &Call<'_, R>, out: &mut Text) -> Outcome {
    let mut input = call.section(0)?;
    match ListsHeader::parse(&mut input) {
        Ok(header) => {
            let (count, size) = (header.offset_entry_count, header.size());
            write_encoding(header.encoding, out);
            write!(out, " offsets {count} size {size}");
        }
        Err(error) => write_refusal(out, error),
    }
    write!(out, "\nleft ");
    hex_of(out, &input, " ");
    Ok(())
}
