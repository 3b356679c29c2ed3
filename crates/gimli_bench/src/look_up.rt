//! What a debugger does where it begins: each unit's table and root, its functions with their
//! ranges, and the units of addresses.

use crate::fold::{mixed, refused};
use crate::input::{Input, Random};
use crate::lists::{Bases, Lists, SeenLists};
use crate::values::with_entry;
use gimli_base::{
    Abbreviations, DW_AT_high_pc, DW_AT_low_pc, DW_AT_ranges, DW_TAG_class_type, DW_TAG_namespace,
    DW_TAG_structure_type, DW_TAG_subprogram, DebugAbbrev, DwTag, EndianSlice, LittleEndian,
    Reader, ReaderOffset, Result,
};
use gimli_headers::DebugInfo;
use gimli_lists::{ArangeHeader, DebugAranges};
use gimli_units::{AttributeValue, DebuggingInformationEntry, UnitHeader};
use gimli_walk::unit_of_address;
use std::alloc::Global;

// A checksum with where the code of a function lies.
fn with_function<R: Reader>(
    sum: u64,
    lists: &Lists<R>,
    bases: &Bases<R::Offset>,
    entry: &DebuggingInformationEntry<R, Global>,
    seen: &mut SeenLists,
) -> u64 {
    let mut all = sum;
    if let Some(value) = entry.attr_value(DW_AT_low_pc) {
        if let Some(address) = lists.address(bases, &value) {
            all = mixed(all, address);
        }
        if let Some(AttributeValue::Udata(length)) = entry.attr_value(DW_AT_high_pc) {
            all = mixed(all, length);
        }
    }
    if let Some(value) = entry.attr_value(DW_AT_ranges) {
        all = lists.with_value(all, bases, &value, seen);
    }
    all
}

// A checksum with an entry and, if it is a function, where its code lies.
fn with_child<R: Reader>(
    sum: u64,
    lists: &Lists<R>,
    bases: &Bases<R::Offset>,
    entry: &DebuggingInformationEntry<R, Global>,
    seen: &mut SeenLists,
) -> u64 {
    let all = with_entry(sum, entry);
    if entry.tag() == DW_TAG_subprogram {
        with_function(all, lists, bases, entry, seen)
    } else {
        all
    }
}

// A checksum with the root of a unit and its children, from sibling to sibling, and where the unit's
// addresses and lists begin.
fn with_children<R: Reader>(
    alloc: Global,
    sum: u64,
    unit: &UnitHeader<R>,
    table: &Abbreviations<Global>,
    lists: &Lists<R>,
    seen: &mut SeenLists,
) -> Result<(u64, Bases<R::Offset>)> {
    let mut cursor = unit.entries(alloc, table);
    let mut bases = Bases::none(unit.encoding());
    let mut all = sum;
    match cursor.next_dfs()? {
        Some(root) => {
            bases = lists.bases(unit.encoding(), root);
            all = with_function(with_entry(all, root), lists, &bases, root, seen);
        }
        None => return Ok((all, bases)),
    }
    match cursor.next_dfs()? {
        Some(child) => all = with_child(all, lists, &bases, child, seen),
        None => return Ok((all, bases)),
    }
    for _ in 0..u64::MAX {
        match cursor.next_sibling() {
            Ok(Some(child)) => all = with_child(all, lists, &bases, child, seen),
            Ok(None) => break,
            Err(error) => {
                all = refused(all, error);
                break;
            }
        }
    }
    Ok((mixed(all, cursor.reads() as u64), bases))
}

// Whether functions are looked for among the children.
fn is_scope(tag: DwTag) -> bool {
    match tag {
        DW_TAG_namespace | DW_TAG_structure_type | DW_TAG_class_type => true,
        _ => false,
    }
}

// A checksum with all functions in namespaces and types, by a tree of which the rest is passed. Where
// the code of the root's own functions lies was asked before.
fn with_scopes<R: Reader>(
    alloc: Global,
    sum: u64,
    unit: &UnitHeader<R>,
    table: &Abbreviations<Global>,
    lists: &Lists<R>,
    bases: &Bases<R::Offset>,
    seen: &mut SeenLists,
) -> Result<u64> {
    let mut walker = unit.entries_tree(alloc, table, None)?.walk(alloc);
    walker.root()?;
    walker.enter()?;
    let mut all = sum;
    for _ in 0..u64::MAX {
        if walker.list_count() == 0 {
            break;
        }
        match walker.next() {
            Ok(true) => {}
            Ok(false) => {
                walker.leave();
                continue;
            }
            Err(error) => {
                all = refused(all, error);
                break;
            }
        }
        let is_inner = walker.list_count() > 1;
        let mut scope = false;
        if let Some(entry) = walker.entry() {
            all = if is_inner {
                with_child(all, lists, bases, entry, seen)
            } else {
                with_entry(all, entry)
            };
            scope = is_scope(entry.tag());
        }
        if scope {
            walker.enter()?;
        }
    }
    Ok(mixed(all, walker.reads() as u64))
}

// A checksum with the functions of a unit.
fn with_unit<R: Reader>(
    alloc: Global,
    sum: u64,
    unit: &UnitHeader<R>,
    debug_abbrev: &DebugAbbrev<R>,
    lists: &Lists<R>,
    seen: &mut SeenLists,
) -> Result<u64> {
    let table = unit.abbreviations(alloc, debug_abbrev)?;
    let (all, bases) = with_children(alloc, sum, unit, &table, lists, seen)?;
    with_scopes(alloc, all, unit, &table, lists, &bases, seen)
}

// A checksum with the ranges of a set.
fn with_set<R: Reader>(sum: u64, set: &ArangeHeader<R>) -> u64 {
    let mut all = mixed(sum, set.debug_info_offset().0.into_u64());
    let mut entries = set.entries();
    for _ in 0..u64::MAX {
        match entries.next() {
            Ok(Some(entry)) => all = mixed(mixed(all, entry.address()), entry.length()),
            Ok(None) => break,
            Err(error) => return refused(all, error),
        }
    }
    all
}

// The units of so many addresses are looked for, each in a part of its own of all addresses.
const LOOKED_FOR: u64 = 16;

const PART: u64 = 0x2000;

// A checksum with all sets, and with the units of some addresses.
fn with_aranges<R: Reader>(
    sum: u64,
    aranges: &DebugAranges<R>,
    random: &mut Random,
) -> Result<u64> {
    let mut all = sum;
    let mut headers = aranges.headers();
    for _ in 0..u64::MAX {
        match headers.next()? {
            Some(set) => all = with_set(all, &set),
            None => break,
        }
    }
    for part in 0..LOOKED_FOR {
        let address = 0x1000 + part * PART + random.below(PART);
        all = match unit_of_address(aranges, address)? {
            Some(offset) => mixed(all, offset.0.into_u64()),
            None => mixed(all, 1),
        };
    }
    Ok(all)
}

/// A checksum of the functions of all units and their ranges, and of the units of addresses.
pub(crate) fn checksum(alloc: Global, input: &Input, random: &mut Random) -> u64 {
    let info = DebugInfo::new(&input.info.bytes, LittleEndian);
    let abbrev = DebugAbbrev::new(&input.abbrev.bytes, LittleEndian);
    let lists = input.lists();
    let mut seen = SeenLists::new(alloc);
    let mut units = info.units();
    let mut sum = 0u64;
    for _ in 0..u64::MAX {
        match units.next() {
            Ok(Some(unit)) => {
                sum = match with_unit(alloc, sum, &unit, &abbrev, &lists, &mut seen) {
                    Ok(all) => all,
                    Err(error) => refused(sum, error),
                };
            }
            Ok(None) => break,
            Err(error) => sum = refused(sum, error),
        }
    }
    let aranges = DebugAranges::new(&input.aranges.bytes, LittleEndian);
    match with_aranges(sum, &aranges, random) {
        Ok(all) => all,
        Err(error) => refused(sum, error),
    }
}
