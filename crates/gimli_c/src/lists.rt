//! Lists of ranges and of locations, at the value of an attribute.

ghost use Rattle.std.specs.Prelude.{◌≡◌, ◌<◌, ◌^◌, length, Ok, Err};
ghost use Rattle.gimli_lists.specs.Locations.{locations_ahead};
ghost use Rattle.gimli_lists.specs.Ranges.{ranges_ahead};
ghost use Rattle.gimli_units.specs.Value.{map_value};
ghost use Rattle.gimli_c.specs.Lists.{range_row, location_row, list_status, IsListed, if_sized};
ghost use Rattle.gimli_c.specs.Lists.{IsListResult, range_value, location_value, ranges_at};
ghost use Rattle.gimli_c.specs.Lists.{locations_at};
ghost use Rattle.gimli_c.specs.Units.{encoding_in};

use crate::attrs::GimliAttr;
use crate::bases::{GimliBases, bases_in};
use crate::sections::{GimliSections, dwarf_sections};
use crate::status::{END, MORE, NO_LIST, refusal_status, row_refused, unresolved};
use crate::unit::{GimliUnit, encoding_in};
use gimli_base::{
    DebugLocListsIndex, DebugRngListsIndex, Encoding, Endianity, Error, LocationListsOffset,
    RawRangeListsOffset, Reader, ReaderOffset,
};
use gimli_lists::{LocListIter, RngListIter};
use gimli_units::AttributeValue;

/// A range of addresses.
#[repr(C)]
#[derive(Clone, Copy, Debug)]
pub struct GimliRange {
    /// The first address.
    pub begin: u64,
    /// The address after the last.
    pub end: u64,
}

/// A range of addresses, and where the expression that holds there lies.
#[repr(C)]
#[derive(Clone, Copy, Debug)]
pub struct GimliLocation {
    /// The first address.
    pub begin: u64,
    /// The address after the last.
    pub end: u64,
    /// Where the expression lies in the section of the list.
    pub place: u64,
    /// The number of its bytes.
    pub length: u64,
}

/// What a call answers.
#[derive(Clone, Copy)]
pub(crate) struct Listed {
    pub(crate) count: usize,
    pub(crate) status: u32,
}

// How a unit's bytes are read, or the status of `UnsupportedAddressSize`, where its addresses do
// not have 1, 2, 4 or 8 bytes.
fn sized_encoding(unit: &GimliUnit) -> Result<Encoding, u32>
    ensures { result ≡ if_sized unit.now (Ok (encoding_in unit.now)) }
{
    if !matches!(unit.address_size, 1 | 2 | 4 | 8) {
        return Err(refusal_status(Error::UnsupportedAddressSize(unit.address_size)));
    }
    Ok(encoding_in(unit))
}

/// The outcome with this status where no list is read: nothing is counted.
pub(crate) fn no_items(status: u32) -> Listed
    ensures { result ≡ record { count = 0; status = status } }
{
    Listed { count: 0, status }
}

// The outcome of a list with `count` items and room for `room`: its status is `MORE` where not all
// have room, else `last`, that of what comes after the items.
fn list_outcome(room: usize, count: usize, last: u32) -> Listed
    ensures { result ≡ record { count = count; status = list_status room count last } }
{
    Listed {
        count,
        status: if room < count { MORE } else { last },
    }
}

// The value of an attribute that may name a range list: by an offset (kind 12) or by an index (26).
// Any other becomes a flag, which names none.
fn range_value<R: Reader<Offset = usize>>(attribute: &GimliAttr) -> AttributeValue<R>
    ensures { map_value R.view (λ n. n) result ≡ range_value attribute.now }
{
    let number = attribute.number as usize;
    match attribute.kind {
        12 => AttributeValue::RangeListsRef(RawRangeListsOffset(number)),
        26 => AttributeValue::DebugRngListsIndex(DebugRngListsIndex(number)),
        _ => AttributeValue::Flag(false),
    }
}

/// Fills `ranges` with those of the list that the value of an attribute names, as `fill_ranges`
/// does. Err is the status of a call that reads no list, and the buffer is as it was:
/// `UnsupportedAddressSize` comes first, then `NO_LIST`, `NO_BASE`, or the refusal of the index or
/// the offset.
pub(crate) fn find_ranges<E: Endianity>(
    sections: &GimliSections<'_>,
    endian: E,
    unit: &GimliUnit,
    attribute: &GimliAttr,
    bases: &GimliBases,
    ranges: &mut [GimliRange],
) -> Result<Listed, u32>
    ensures { let s = sections.now in
        let outcome = ranges_at (E.big endian) s unit.now attribute.now bases.now in
        IsListResult range_row outcome ranges.old ranges.new result }
{
    let bases = bases_in(bases, sized_encoding(unit)?);
    let sections = dwarf_sections(sections, endian);
    match bases.ranges(&range_value(attribute), &sections) {
        Ok(Some(mut list)) => Ok(fill_ranges(&mut list, ranges)),
        Ok(None) => Err(NO_LIST),
        Err(error) => Err(unresolved(error)),
    }
}

// Fills `ranges` with those of a list, as far as there is room, and counts all of them before the
// first refusal. Status `MORE`: there was no room for all. Else it is `END`, or that of the
// refusal; what is after the written ones stays. The list is left anywhere.
fn fill_ranges<R: Reader>(list: &mut RngListIter<R>, ranges: &mut [GimliRange]) -> Listed
    requires { length list.old.raw.rest.bytes < 2 ^ 63 }
    ensures { IsListed range_row (ranges_ahead R.Offset.limit list.old) ranges.old ranges.new
        result.count result.status }
{
    let mut count = 0;
    let last = 'found: loop {
        match list.next() {
            Ok(Some(range)) => {
                if count < ranges.len() {
                    ranges[count] = GimliRange {
                        begin: range.begin,
                        end: range.end,
                    };
                }
                count += 1;
            }
            Ok(None) => break END,
            Err(error) => break row_refused(error),
        }
    };
    list_outcome(ranges.len(), count, last)
}

// The value of an attribute that may name a location list: by an offset (kind 12) or by an index
// (21). Any other becomes a flag, which names none.
fn location_value<R: Reader<Offset = usize>>(attribute: &GimliAttr) -> AttributeValue<R>
    ensures { map_value R.view (λ n. n) result ≡ location_value attribute.now }
{
    let number = attribute.number as usize;
    match attribute.kind {
        12 => AttributeValue::LocationListsRef(LocationListsOffset(number)),
        21 => AttributeValue::DebugLocListsIndex(DebugLocListsIndex(number)),
        _ => AttributeValue::Flag(false),
    }
}

/// Fills `locations` with those of the list that the value of an attribute names, as
/// `fill_locations` does. Err is the status of a call that reads no list, and the buffer is as it
/// was: `UnsupportedAddressSize` comes first, then `NO_LIST`, `NO_BASE`, or the refusal of the
/// index or the offset.
pub(crate) fn find_locations<E: Endianity>(
    sections: &GimliSections<'_>,
    endian: E,
    unit: &GimliUnit,
    attribute: &GimliAttr,
    bases: &GimliBases,
    locations: &mut [GimliLocation],
) -> Result<Listed, u32>
    ensures { let s = sections.now in
        let outcome = locations_at (E.big endian) s unit.now attribute.now bases.now in
        IsListResult location_row outcome locations.old locations.new result }
{
    let bases = bases_in(bases, sized_encoding(unit)?);
    let sections = dwarf_sections(sections, endian);
    match bases.locations(&location_value(attribute), &sections) {
        Ok(Some(mut list)) => Ok(fill_locations(&mut list, locations)),
        Ok(None) => Err(NO_LIST),
        Err(error) => Err(unresolved(error)),
    }
}

// Fills `locations` with those of a list, as far as there is room, and counts all of them before
// the first refusal. Status `MORE`: there was no room for all. Else it is `END`, or that of the
// refusal; what is after the written ones stays. The list is left anywhere.
fn fill_locations<R: Reader>(list: &mut LocListIter<R>, locations: &mut [GimliLocation]) -> Listed
    requires { length list.old.raw.rest.bytes < 2 ^ 63 }
    ensures { IsListed location_row (locations_ahead R.Offset.limit list.old) locations.old
        locations.new result.count result.status }
{
    let mut count = 0;
    let last = 'found: loop {
        match list.next() {
            Ok(Some(location)) => {
                if count < locations.len() {
                    locations[count] = GimliLocation {
                        begin: location.range.begin,
                        end: location.range.end,
                        place: location.expr.0.offset_id().0,
                        length: location.expr.0.len().into_u64(),
                    };
                }
                count += 1;
            }
            Ok(None) => break END,
            Err(error) => break row_refused(error),
        }
    };
    list_outcome(locations.len(), count, last)
}
