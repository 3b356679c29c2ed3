//! What a validator reads: whether sibling references are honest, each attribute as it is written,
//! and the entries of lists as they are written.

use crate::fold::{mixed, refused};
use crate::lists::{Bases, Lists, SeenLists};
use crate::values::{with_place, with_raw_values};
use gimli_base::{Abbreviations, DebugAbbrev, Reader, ReaderOffset, Result};
use gimli_headers::{DebugInfo, first_false_sibling};
use gimli_units::{Attribute, EntriesRaw, UnitHeader};
use std::alloc::Global;

// A checksum with the next entry, its attributes and the lists that they name.
fn with_next<R: Reader>(
    sum: u64,
    entries: &mut EntriesRaw<'_, R, Global>,
    attributes: &mut Vec<Attribute<R>, Global>,
    lists: &Lists<R>,
    bases: &Bases<R::Offset>,
    seen: &mut SeenLists,
) -> Result<u64> {
    let place = with_place(
        sum,
        entries.next_offset().0.into_u64(),
        entries.next_depth(),
    );
    let Some(declared) = entries.read_abbreviation()? else {
        return Ok(mixed(place, 0));
    };
    entries.read_attributes(declared.attributes(), attributes)?;
    let tag = mixed(place, u64::from(declared.tag().0));
    let flag = mixed(tag, u64::from(declared.has_children()));
    let mut all = with_raw_values(flag, attributes);
    for attribute in attributes.iter() {
        // (the name makes an offset into a section one of a list)
        match attribute.offset_value() {
            Some(_) => all = lists.with_raw(all, bases, &attribute.value(), seen),
            None => {}
        }
    }
    Ok(all)
}

// A checksum with all entries of a unit.
fn with_entries<R: Reader>(
    alloc: Global,
    sum: u64,
    unit: &UnitHeader<R>,
    table: &Abbreviations<Global>,
    lists: &Lists<R>,
    seen: &mut SeenLists,
) -> Result<u64> {
    let mut attributes = Vec::new(alloc);
    let mut entries = unit.entries_raw(table, None)?;
    let bases = Bases::none(unit.encoding());
    let mut all = sum;
    for _ in 0..u64::MAX {
        if entries.is_empty() {
            break;
        }
        all = match with_next(all, &mut entries, &mut attributes, lists, &bases, seen) {
            Ok(more) => more,
            Err(error) => return Ok(refused(all, error)),
        };
    }
    Ok(all)
}

// A checksum with a unit.
fn with_unit<R: Reader>(
    alloc: Global,
    sum: u64,
    unit: &UnitHeader<R>,
    debug_abbrev: &DebugAbbrev<R>,
    lists: &Lists<R>,
    seen: &mut SeenLists,
) -> Result<u64> {
    let table = unit.abbreviations(alloc, debug_abbrev)?;
    let first = match first_false_sibling(alloc, unit, &table) {
        Ok(Some(offset)) => mixed(sum, offset.0.into_u64()),
        Ok(None) => mixed(sum, 0),
        Err(error) => refused(sum, error),
    };
    with_entries(alloc, first, unit, &table, lists, seen)
}

/// A checksum of the checks of all units of a section.
pub(crate) fn checksum<R: Reader>(alloc: Global, info: R, abbrev: R, lists: &Lists<R>) -> u64 {
    let debug_info = DebugInfo::from(info);
    let debug_abbrev = DebugAbbrev::from(abbrev);
    let mut units = debug_info.units();
    let mut seen = SeenLists::new(alloc);
    let mut sum = 0u64;
    for _ in 0..u64::MAX {
        match units.next() {
            Ok(Some(unit)) => {
                sum = match with_unit(alloc, sum, &unit, &debug_abbrev, lists, &mut seen) {
                    Ok(all) => all,
                    Err(error) => refused(sum, error),
                };
            }
            Ok(None) => break,
            Err(error) => sum = refused(sum, error),
        }
    }
    sum
}
