use crate::samples::{
    Entry, Part, TABLE_NESTED_STRINGS, THREE_NESTED, Table, part, table_of, unit_of,
};
use gimli_base::{DwTag, LittleEndian, Reader, ReaderOffset};
use gimli_units::{UnitHeader, UnitOffset};
use std::alloc::Global;
use std::process::Abort;
use std::test::Fail;

// An entry as it shows itself: whether it is a null, tag, children flag, number of attributes, offset and depth.
fn parts<R: Reader>(entry: &Entry<R>) -> (bool, u16, bool, usize, u64, isize) {
    let (is_null, tag, flag) = (entry.is_null(), entry.tag().0, entry.has_children());
    let (count, offset) = (entry.attrs().len(), entry.offset().0.into_u64());
    (is_null, tag, flag, count, offset, entry.depth())
}

// The unit of three nested strings, and its table.
fn nested(rt: &impl Abort, alloc: Global) -> Result<(UnitHeader<Part<'static>>, Table), Fail> {
    let bytes = THREE_NESTED.as_slice();
    let unit = unit_of(rt, part(&bytes[11..], LittleEndian));
    Ok((unit, table_of(alloc, &TABLE_NESTED_STRINGS)?))
}

// The second of the nested strings, which has an attribute.
fn second(rt: &impl Abort, alloc: Global) -> Result<Entry<Part<'static>>, Fail> {
    let (unit, table) = nested(rt, alloc)?;
    let mut entry = unit.entry(alloc, &table, UnitOffset(0x10))?;
    entry.depth = 1;
    Ok(entry)
}

#[test]
fn a_new_entry_has_its_parts(rt: HostRuntime) -> Result<(), Fail> {
    let attributes = second(&rt, rt.alloc())?.attrs;
    assert!(rt; attributes.len() == 1);
    let attribute = attributes[0];
    let entry = Entry::new(DwTag(0x34), true, attributes, UnitOffset(300));
    assert!(rt; parts(&entry) == (false, 0x34, true, 1, 300, 0));
    assert!(rt; entry.attrs() == [attribute].as_slice());
    Ok(())
}

#[test]
fn clones_and_copies_go_their_own_way(rt: HostRuntime) -> Result<(), Fail> {
    let (unit, table) = nested(&rt, rt.alloc())?;
    let entry = second(&rt, rt.alloc())?;
    let clone = entry.try_clone(rt.alloc())?;
    assert!(rt; parts(&clone) == parts(&entry) && clone.attrs() == entry.attrs());
    let mut cursor = unit.entries_plain(rt.alloc(), &table);
    assert!(rt; cursor.next_entry()?);
    let mut other = cursor.try_clone(rt.alloc())?;
    assert!(rt; !other.follows() && other.next_entry()?);
    assert!(rt; (cursor.offset().0, other.offset().0) == (0x0b, 0x10));
    let mut raw = unit.entries_raw(&table, None)?;
    let mut read = Entry::null(rt.alloc());
    assert!(rt; raw.read_entry(&mut read)?);
    let mut copy = raw.copy();
    assert!(rt; (copy.next_offset().0, copy.next_depth()) == (0x10, 1));
    assert!(rt; copy.read_entry(&mut read)?);
    assert!(rt; (copy.next_offset().0, raw.next_offset().0) == (0x15, 0x10));
    Ok(())
}

#[test]
fn a_list_lends_what_it_stands_on(rt: HostRuntime) -> Result<(), Fail> {
    let (unit, table) = nested(&rt, rt.alloc())?;
    let mut tree = unit.entries_tree(rt.alloc(), &table, None)?;
    let root = tree.root()?;
    assert!(rt; root.reads() == 1);
    let mut children = root.children();
    assert!(rt; children.advance()? && children.reads() == 2);
    assert!(rt; parts(children.entry()) == (false, 0x2e, true, 1, 0x10, 1));
    let node = children.node();
    assert!(rt; (node.reads(), node.entry().offset().0) == (2, 0x10));
    Ok(())
}

#[test]
fn the_tag_alone_tells_a_null(rt: HostRuntime) -> Result<(), Fail> {
    let read = second(&rt, rt.alloc())?;
    let mut entry = Entry::new(DwTag(0), true, read.attrs, UnitOffset(300));
    assert!(rt; parts(&entry) == (true, 0, true, 1, 300, 0));
    entry.tag = DwTag(1);
    entry.has_children = false;
    entry.attrs.clear();
    assert!(rt; parts(&entry) == (false, 1, false, 0, 300, 0));
    Ok(())
}

#[test]
fn a_null_has_no_part(rt: HostRuntime) -> Result<(), Fail> {
    let entry = Entry::<Part<'_>>::null(rt.alloc());
    assert!(rt; parts(&entry) == (true, 0, false, 0, 0, 0));
    // an entry becomes one where it stands
    let mut entry = second(&rt, rt.alloc())?;
    assert!(rt; parts(&entry) == (false, 0x2e, true, 1, 0x10, 1));
    entry.set_null();
    assert!(rt; parts(&entry) == (true, 0, false, 0, 0x10, 1));
    Ok(())
}
