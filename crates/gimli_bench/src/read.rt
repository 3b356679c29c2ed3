//! All of a program: the value of each attribute, entries by reference, whole trees, and the ranges
//! and locations that attributes name.

use crate::fold::{mixed, refused};
use crate::lists::{Bases, Lists, SeenLists};
use crate::seen::Seen;
use crate::values::{with_entry, with_name, with_value};
use gimli_base::{Abbreviations, DebugAbbrev, Reader, ReaderOffset, Result};
use gimli_headers::DebugInfo;
use gimli_units::{AttributeValue, DebuggingInformationEntry, UnitHeader, UnitOffset};
use std::alloc::Global;

// One reference in so many is followed.
const FOLLOWED: usize = 8;

// What is found in entries: the references of the unit, those of them that were followed, and the
// lists of all units that were read.
#[derive(Drop)]
struct Found<Offset> {
    references: Vec<UnitOffset<Offset>>,
    followed: Seen,
    lists: SeenLists,
}

// A checksum with an entry and its values; its references are added to those found.
fn with_values<R: Reader>(
    sum: u64,
    entry: &DebuggingInformationEntry<R, Global>,
    lists: &Lists<R>,
    bases: &Bases<R::Offset>,
    found: &mut Found<R::Offset>,
) -> Result<u64> {
    let mut all = with_entry(sum, entry);
    for attribute in entry.attrs() {
        let value = attribute.value();
        all = with_value(with_name(all, attribute), &value);
        match &value {
            AttributeValue::UnitRef(offset) => found.references.push(*offset)?,
            AttributeValue::RangeListsRef(_)
            | AttributeValue::DebugRngListsIndex(_)
            | AttributeValue::LocationListsRef(_)
            | AttributeValue::DebugLocListsIndex(_) => {
                all = lists.with_value(all, bases, &value, &mut found.lists);
            }
            _ => {}
        }
    }
    Ok(all)
}

// A checksum with all entries of a unit and their values; their references are added to those found.
fn with_entries<R: Reader>(
    alloc: Global,
    sum: u64,
    unit: &UnitHeader<R>,
    table: &Abbreviations<Global>,
    lists: &Lists<R>,
    found: &mut Found<R::Offset>,
) -> Result<u64> {
    let mut cursor = unit.entries(alloc, table);
    let mut bases = Bases::none(unit.encoding());
    let mut all = sum;
    if let Some(root) = cursor.next_dfs()? {
        bases = lists.bases(unit.encoding(), root);
        all = with_values(all, root, lists, &bases, found)?;
    }
    for _ in 0..u64::MAX {
        match cursor.next_dfs() {
            Ok(Some(entry)) => all = with_values(all, entry, lists, &bases, found)?,
            Ok(None) => break,
            Err(error) => {
                all = refused(all, error);
                break;
            }
        }
    }
    Ok(mixed(all, cursor.reads() as u64))
}

// The first of some references that was not followed yet.
fn next_to_follow<O: ReaderOffset>(
    references: &[UnitOffset<O>],
    followed: &mut Seen,
) -> Option<UnitOffset<O>> {
    for offset in references {
        if followed.is_new(offset.0.into_u64()) {
            return Some(*offset);
        }
    }
    None
}

// A checksum with the entries that references lead to, none of them twice.
fn with_references<R: Reader>(
    alloc: Global,
    sum: u64,
    unit: &UnitHeader<R>,
    table: &Abbreviations<Global>,
    found: &mut Found<R::Offset>,
) -> u64 {
    found.followed.clear();
    let mut all = sum;
    for references in found.references.chunks(FOLLOWED) {
        let Some(offset) = next_to_follow(references, &mut found.followed) else {
            continue;
        };
        all = match unit.entry(alloc, table, offset) {
            Ok(entry) => mixed(with_entry(all, &entry), entry.attrs().len() as u64),
            Err(error) => refused(all, error),
        };
    }
    all
}

// A checksum with all nodes of a unit's tree.
fn with_tree<R: Reader>(
    alloc: Global,
    sum: u64,
    unit: &UnitHeader<R>,
    table: &Abbreviations<Global>,
) -> Result<u64> {
    let mut walker = unit.entries_tree(alloc, table, None)?.walk(alloc);
    walker.root()?;
    walker.enter()?;
    let mut all = sum;
    for _ in 0..u64::MAX {
        if walker.list_count() == 0 {
            break;
        }
        match walker.next() {
            Ok(true) => {}
            Ok(false) => {
                walker.leave();
                continue;
            }
            Err(error) => {
                all = refused(all, error);
                break;
            }
        }
        if let Some(entry) = walker.entry() {
            all = with_entry(all, entry);
        }
        walker.enter()?;
    }
    Ok(mixed(all, walker.reads() as u64))
}

// A checksum with a unit.
fn with_unit<R: Reader>(
    alloc: Global,
    sum: u64,
    unit: &UnitHeader<R>,
    debug_abbrev: &DebugAbbrev<R>,
    lists: &Lists<R>,
    found: &mut Found<R::Offset>,
) -> Result<u64> {
    let table = unit.abbreviations(alloc, debug_abbrev)?;
    found.references.clear();
    let entries = with_entries(alloc, sum, unit, &table, lists, found)?;
    let all = with_references(alloc, entries, unit, &table, found);
    with_tree(alloc, all, unit, &table)
}

/// A checksum of all that the units of a section say.
pub(crate) fn checksum<R: Reader>(alloc: Global, info: R, abbrev: R, lists: &Lists<R>) -> u64 {
    let debug_info = DebugInfo::from(info);
    let debug_abbrev = DebugAbbrev::from(abbrev);
    let mut found = Found {
        references: Vec::new(alloc),
        followed: Seen::new(alloc),
        lists: SeenLists::new(alloc),
    };
    let mut units = debug_info.units();
    let mut sum = 0u64;
    for _ in 0..u64::MAX {
        match units.next() {
            Ok(Some(unit)) => {
                sum = match with_unit(alloc, sum, &unit, &debug_abbrev, lists, &mut found) {
                    Ok(all) => all,
                    Err(error) => refused(sum, error),
                };
            }
            Ok(None) => break,
            Err(error) => sum = refused(sum, error),
        }
    }
    sum
}
