//! The reader for callers of C: each call fills what its caller hands over, and keeps nothing.
//!
//! A status is 0 where there is more, 1 at the end, 2 at a place whose depth is out of range, 3
//! where a value names no list, 4 where the codes of a table are not in order, 5 where a value
//! counts from a base that the unit does not have, 6 where the attribute of a base has a value that
//! no base can have, 7 where a value is no text, 8 where it is no address, 256 and the number of
//! the refusal of a unit, of abbreviations or of an offset, and 512 and that of a row.
#![tactic(auto)]

ghost use Rattle.std.specs.Prelude.{◌≡◌, ◌<◌, ◌^◌, ℕ, take, length};
ghost use Rattle.gimli_base.specs.Table.{codes_of};
ghost use Rattle.gimli_c.specs.Units.{units_view, abbreviations_view, unit_outcome, section_unit};
ghost use Rattle.gimli_c.specs.Tables.{table_in, table_of, rows_by, IsTableAt, HasTableAt, Serves};
ghost use Rattle.gimli_c.specs.Tables.{HasSteps, NoTableRefused};
ghost use Rattle.gimli_c.specs.Fronts.{section_rows, IsRowsOutcome, IsRowsOutcomeIf, Resumes};
ghost use Rattle.gimli_c.specs.Fronts.{WritesFirst};
ghost use Rattle.gimli_c.specs.Entries.{IsEntriesOutcome};
ghost use Rattle.gimli_c.specs.Status.{more, end, memory_refused, row_memory_refused};
ghost use Rattle.gimli_c.specs.Status.{UnlessRefused};
ghost use Rattle.gimli_c.specs.Memory.{TableMemory, CheckMemory, RowTakesMemory, RowsTakeMemory};
ghost use Rattle.gimli_c.specs.Memory.{RowTakesMemoryBy};
ghost use Rattle.gimli_c.specs.Siblings.{section_sibling, section_false, IsRowOf, UnitIsHonest};
ghost use Rattle.gimli_c.specs.Addresses.{section_holding};
ghost use Rattle.gimli_c.specs.Bases.{section_bases, TakeNoMemory};
ghost use Rattle.gimli_c.specs.Values.{texts_in, text_at, address_at};
ghost use Rattle.gimli_base.specs.declared.common.SectionId.TheVariants.{DebugInfo as InfoSection};
ghost use Rattle.gimli_dwarf.specs.Holding.{unit_holding};
ghost use Rattle.gimli_headers.specs.Units.{header_at};
ghost use Rattle.gimli_c.specs.Holding.{section_held};
ghost use Rattle.gimli_c.specs.Units.{found_outcome};
ghost use Rattle.gimli_c.specs.Lists.{section_view, section_is_big, range_row, location_row, ranges_at};
ghost use Rattle.gimli_c.specs.Lists.{locations_at, IsListOutcome};

mod address;
mod attrs;
mod bases;
mod by_table;
mod entries;
mod first_false;
mod holding;
mod lists;
mod reading;
mod rows;
mod sections;
mod sibling;
mod status;
mod table;
mod unit;
mod values;

pub use attrs::GimliAttr;
pub use bases::GimliBases;
pub use entries::{GimliEntry, GimliFilled};
use gimli_base::{BigEndian, DebugAbbrev, LittleEndian};
use gimli_headers::DebugInfo;
use gimli_lists::DebugAranges;
use holding::HoldingSections;
pub use lists::{GimliLocation, GimliRange};
pub use rows::{GimliPlace, GimliRow};
pub use sections::GimliSections;
use sections::{dwarf_sections, unit_sections};
use std::alloc::Global;
pub use table::{GimliCounted, GimliDeclaration, GimliSpecification, GimliTable};
pub use unit::GimliUnit;
pub use values::GimliString;

// An expression with the byte order of a caller's sections, as `in_order!(sections, endian => ..)`.
// Each byte order is a type of its own, so that the code is compiled for both.
macro_rules! in_order {
    ($sections:ident, $endian:ident => $body:expr) => {
        if $sections.big == 0 {
            let $endian = LittleEndian;
            $body
        } else {
            let $endian = BigEndian;
            $body
        }
    };
}

/// Reads the header of the unit at an offset of `units`. Status 0: `unit` is that unit. Otherwise
/// `unit` is as it was. Status 1: the offset is that of the section's end. Any other: the offset or
/// the header was refused.
#[unsafe(no_mangle)]
pub extern "C" fn gimli_unit(sections: &GimliSections<'_>, offset: u64, unit: &mut GimliUnit) -> u32
    ensures { let s = sections.now in
        (result, unit.new)
        ≡ unit_outcome (units_view s) offset (section_unit s offset) unit.old }
{
    let offset = offset as usize;
    in_order!(sections, endian => unit::read_unit(&unit_sections(sections, endian), offset, unit))
}

/// Reads on in the unit at the offset `unit` of `units`, from a place of the unit on, as many rows
/// as there is room for in `rows`, entries and nulls, and leaves the place after them. `count` is
/// their number; what is after them in `rows` stays as it was. `units` and `abbreviations` are
/// read.
///
/// Status 0: `rows` is full, and there is more. Status 1: the unit ends after the rows. Status 2:
/// the depth of the place is out of range. From 512 on: what is read after the rows was refused.
/// Any other: the unit, its abbreviations or the place's offset was refused, the first of these
/// that is. 280 says that memory was refused for the abbreviations, which comes only where their
/// first declaration is read as far as its attributes.
#[unsafe(no_mangle)]
pub extern "C" fn gimli_rows(
    alloc: Global,
    sections: &GimliSections<'_>,
    unit: u64,
    place: &mut GimliPlace,
    rows: &mut [GimliRow],
    count: &mut usize,
) -> u32
    ensures outcome { let ahead = section_rows sections.now unit place.old in
        IsRowsOutcome ahead place.old rows.old place.new rows.new count.new result }
    ensures resumes { let ahead = section_rows sections.now unit place.old in
        Resumes ahead count.new (section_rows sections.now unit place.new) }
    ensures memory { let u = section_unit sections.now unit in
        TableMemory u (abbreviations_view sections.now) result }
{
    let unit = unit as usize;
    let offset = place.offset as usize;
    let outcome = in_order!(sections, endian => {
        let opened = unit_sections(sections, endian);
        rows::read_rows(alloc, &opened, unit, offset, place.depth, rows)
    });
    *count = outcome.count;
    *place = outcome.place;
    outcome.status
}

/// As `gimli_rows`, with the attributes of each row in `attrs`; `filled` says how many of each were
/// written. A row whose attributes have no space left is not written, nor are those after it, and
/// the place is at it; the status is then 0, and `filled.wanted` is the number of its attributes.
/// 536 says that memory was refused for the attributes of a row; the place is then after the rows,
/// at one whose declaration has attributes.
#[unsafe(no_mangle)]
pub extern "C" fn gimli_entries(
    alloc: Global,
    sections: &GimliSections<'_>,
    unit: u64,
    place: &mut GimliPlace,
    rows: &mut [GimliEntry],
    attrs: &mut [GimliAttr],
    filled: &mut GimliFilled,
) -> u32
    ensures outcome { let ahead = section_rows sections.now unit place.old in
        IsEntriesOutcome ahead place.old rows.old attrs.old place.new rows.new attrs.new filled.new
        result }
    ensures resumes { let ahead = section_rows sections.now unit place.old in
        Resumes ahead filled.new.rows (section_rows sections.now unit place.new) }
    ensures memory { let u = section_unit sections.now unit in
        TableMemory u (abbreviations_view sections.now) result }
    ensures row_memory { let u = section_unit sections.now unit in
        result ≡ row_memory_refused
        → RowTakesMemory u (abbreviations_view sections.now) place.new.offset }
{
    let unit = unit as usize;
    let offset = place.offset as usize;
    let outcome = in_order!(sections, endian => {
        let opened = unit_sections(sections, endian);
        entries::read_entries(alloc, &opened, unit, offset, place.depth, rows, attrs)
    });
    *filled = outcome.filled;
    *place = outcome.place;
    outcome.status
}

/// Reads the table of abbreviations at an offset of `abbreviations` into the caller's buffers, for
/// `gimli_rows_by` and `gimli_entries_by`.
///
/// Status 1: the declarations and their attributes are written, `counted` is how many they are, and
/// what is after them in the buffers stays as it was. By these each unit whose abbreviations are
/// there has its own rows. Otherwise the buffers are as they were. Status 0: there is no room for
/// all; `counted` is how many they are. Any other: `counted` is 0 and 0. Status 4: the codes of the
/// declarations, up to the first that is refused, are not 1, 2, .. in this order, so that one may
/// stand twice. From 256 on: the offset was refused, or a declaration after such codes.
#[unsafe(no_mangle)]
pub extern "C" fn gimli_table(
    sections: &GimliSections<'_>,
    offset: u64,
    declarations: &mut [GimliDeclaration],
    specifications: &mut [GimliSpecification],
    counted: &mut GimliCounted,
) -> u32
    ensures outcome { IsTableAt offset (abbreviations_view sections.now) declarations.old
        specifications.old declarations.new specifications.new counted.new result }
    ensures serves { let ds = take counted.new.declarations declarations.new in
        let ss = take counted.new.specifications specifications.new in
        result ≡ end → (s : GimliSections)
        → abbreviations_view s ≡ abbreviations_view sections.now
        → (unit : ℕ) → HasTableAt offset (section_unit s unit)
        → Serves s unit (table_of ds ss) }
    ensures steps { result ≡ end
        → HasSteps (take counted.new.specifications specifications.new) }
{
    let offset = offset as usize;
    let abbreviations = sections.abbreviations;
    let outcome = in_order!(sections, endian => {
        table::read_table(abbreviations, endian, offset, declarations, specifications)
    });
    *counted = outcome.counted;
    outcome.status
}

/// As `gimli_rows`, by a table in the caller's buffers in place of the unit's own: the rows are
/// those that its declarations give, if the steps of its attributes are theirs, as where
/// `gimli_table` wrote them. Those that it wrote and counted give the unit's own. Whatever the
/// table holds, `count` is at most the room for rows, and the rows after the first `count` stay as
/// they were; with status 0 and some room, the place is a later one. Of the sections only `units`
/// is read, and no memory is asked for: statuses 280 and 536 do not come.
#[unsafe(no_mangle)]
pub extern "C" fn gimli_rows_by(
    sections: &GimliSections<'_>,
    unit: u64,
    table: &GimliTable<'_>,
    place: &mut GimliPlace,
    rows: &mut [GimliRow],
    count: &mut usize,
) -> u32
    ensures outcome { let ahead = rows_by sections.now unit (table_in table.now) in
        IsRowsOutcomeIf (HasSteps table.now.specifications.now) (ahead place.old) place.old rows.old
        place.new rows.new count.new result }
    ensures resumes { let ahead = rows_by sections.now unit (table_in table.now) in
        HasSteps table.now.specifications.now →
        Resumes (ahead place.old) count.new (ahead place.new) }
    ensures first { WritesFirst rows.old rows.new count.new }
    ensures further { result ≡ more → 0 < length rows.old → place.old.offset < place.new.offset }
    ensures row_memory { result ≡ row_memory_refused → ⊥ }
    ensures memory { NoTableRefused (section_unit sections.now unit) result }
{
    let unit = unit as usize;
    let offset = place.offset as usize;
    let outcome = in_order!(sections, endian => {
        let opened = unit_sections(sections, endian);
        rows::read_rows_by(&opened, unit, *table, offset, place.depth, rows)
    });
    *count = outcome.count;
    *place = outcome.place;
    outcome.status
}

/// As `gimli_entries`, by a table in the caller's buffers in place of the unit's own, of which the
/// steps are not used. Of the sections only `units` is read. Memory is asked for the attributes of
/// a row alone: status 280 does not come, and 536 only where the declaration of the row at the
/// place has attributes.
#[unsafe(no_mangle)]
pub extern "C" fn gimli_entries_by(
    alloc: Global,
    sections: &GimliSections<'_>,
    unit: u64,
    table: &GimliTable<'_>,
    place: &mut GimliPlace,
    rows: &mut [GimliEntry],
    attrs: &mut [GimliAttr],
    filled: &mut GimliFilled,
) -> u32
    ensures outcome { let ahead = rows_by sections.now unit (table_in table.now) in
        IsEntriesOutcome (ahead place.old) place.old rows.old attrs.old place.new rows.new attrs.new
        filled.new result }
    ensures resumes { let ahead = rows_by sections.now unit (table_in table.now) in
        Resumes (ahead place.old) filled.new.rows (ahead place.new) }
    ensures memory { NoTableRefused (section_unit sections.now unit) result }
    ensures row_memory { let u = section_unit sections.now unit in
        let declared = codes_of (table_in table.now) in
        result ≡ row_memory_refused → RowTakesMemoryBy u declared place.new.offset }
{
    let unit = unit as usize;
    let offset = place.offset as usize;
    let depth = place.depth;
    let outcome = in_order!(sections, endian => {
        let opened = unit_sections(sections, endian);
        entries::read_entries_by(alloc, &opened, unit, *table, offset, depth, rows, attrs)
    });
    *filled = outcome.filled;
    *place = outcome.place;
    outcome.status
}

/// Finds the next sibling of the row at a place of the unit at the offset `unit` of `units`: the
/// next entry of its depth, before the null that closes their list. Of the place the offset is
/// read, and its depth becomes that of `row`. `units` and `abbreviations` are read.
///
/// Where `follows` is 0 all rows between are read. Else the references of entries are followed;
/// where they are honest, as `gimli_first_false` finds out, the answer is the same.
///
/// Status 0: `row` is the sibling, where references are honest or none is followed; whatever they
/// are, it stands after the place. Otherwise `row` is as it was. Status 1: there is none, or a null
/// stands at the place. From 512 on: what is read at the place or after it was refused. Any other:
/// the unit, its abbreviations or the offset was refused, the first of these that is. 280 says that
/// memory was refused for the abbreviations, as at `gimli_rows`, and 536 that it was for the
/// attributes of an entry at the place or after it, which comes only where a declaration there has
/// attributes.
#[unsafe(no_mangle)]
pub extern "C" fn gimli_sibling(
    alloc: Global,
    sections: &GimliSections<'_>,
    unit: u64,
    place: &GimliPlace,
    follows: u8,
    row: &mut GimliRow,
) -> u32
    ensures plain { follows ≡ 0 →
        UnlessRefused result ((result, row.new)
        ≡ section_sibling sections.now unit place.now.offset place.now.depth row.old) }
    ensures after { result ≡ more → place.now.offset < row.new.offset }
    ensures followed { UnitIsHonest sections.now unit place.now.offset →
        UnlessRefused result ((result, row.new)
        ≡ section_sibling sections.now unit place.now.offset place.now.depth row.old) }
    ensures kept { (result ≡ more → ⊥) → row.new ≡ row.old }
    ensures memory { let u = section_unit sections.now unit in
        TableMemory u (abbreviations_view sections.now) result }
    ensures row_memory { let u = section_unit sections.now unit in
        result ≡ row_memory_refused
        → RowsTakeMemory u (abbreviations_view sections.now) place.now.offset }
{
    let unit = unit as usize;
    let offset = place.offset as usize;
    let follows = follows != 0;
    in_order!(sections, endian => {
        let opened = unit_sections(sections, endian);
        sibling::find_sibling(alloc, &opened, unit, offset, place.depth, follows, row)
    })
}

/// Finds the first row of the unit at the offset `unit` of `units` whose sibling reference can be
/// followed and is false: it does not lead just past the null that closes its children. `units` and
/// `abbreviations` are read.
///
/// Status 0: it stands at `offset` of the unit. Otherwise `offset` is as it was. Status 1: there is
/// none, so from each row of the unit references may be followed. Any other: the unit or its
/// abbreviations were refused. 280 says that memory was refused: for the abbreviations, as at
/// `gimli_rows`, or for the check, which asks for some only where a reference can be followed. 536
/// does not come.
#[unsafe(no_mangle)]
pub extern "C" fn gimli_first_false(
    alloc: Global,
    sections: &GimliSections<'_>,
    unit: u64,
    offset: &mut u64,
) -> u32
    ensures outcome { (result ≡ memory_refused → ⊥) →
        (result, offset.new) ≡ section_false sections.now unit offset.old }
    ensures starts { result ≡ end → (at : ℕ) → IsRowOf sections.now unit at →
        UnitIsHonest sections.now unit at }
    ensures memory { let u = section_unit sections.now unit in
        CheckMemory (2 ^ 64) u (abbreviations_view sections.now) result }
{
    let unit = unit as usize;
    in_order!(sections, endian => {
        let opened = unit_sections(sections, endian);
        first_false::find_false(alloc, &opened, unit, offset)
    })
}

/// Finds where the unit of an address begins in `.debug_info`: that of the first set of `aranges`
/// with a range that holds the address. Only `aranges` is read.
///
/// Status 0: it begins at `offset`. Otherwise `offset` is as it was. Status 1: no set has such a
/// range. Any other: the header of a set was refused, and no set before it has such a range.
#[unsafe(no_mangle)]
pub extern "C" fn gimli_unit_of_address(
    sections: &GimliSections<'_>,
    address: u64,
    offset: &mut u64,
) -> u32
    ensures { (result, offset.new) ≡ section_holding sections.now address offset.old }
{
    in_order!(sections, endian => {
        let aranges = DebugAranges::new(sections.aranges, endian);
        address::find_unit(&aranges, address, offset)
    })
}

/// Finds the unit of `.debug_info` that holds an offset of the section, its header included: that
/// of a reference of the form `DW_FORM_ref_addr`. Only `units` is read, as `.debug_info`.
///
/// Status 0: `unit` is it. Otherwise `unit` is as it was. Status 1: the offset lies after the last
/// unit. Any other: the header of a unit was refused, and no unit before it holds the offset.
#[unsafe(no_mangle)]
pub extern "C" fn gimli_unit_holding(
    sections: &GimliSections<'_>,
    offset: u64,
    unit: &mut GimliUnit,
) -> u32
    ensures { (result, unit.new)
        ≡ found_outcome (unit_holding (2 ^ 64) InfoSection offset (units_view sections.now))
        unit.old }
{
    let offset = offset as usize;
    in_order!(sections, endian => {
        let debug_info = DebugInfo::new(sections.units, endian);
        holding::find_holding(&debug_info, offset, unit)
    })
}

/// Reads what the values of the unit at the offset `unit` of `units` count from, as its root says,
/// in whatever order its attributes stand. Where `dwo` is not 0 the unit is of a split file, and
/// the first of `skeleton`, if it has any, are the bases of its skeleton: then what lists count
/// from and the table of addresses are those. `units` and `abbreviations` are read, and `addresses`
/// where `DW_AT_low_pc` is an index.
///
/// Status 0: `bases` are they. Otherwise `bases` are as they were. Status 5: `DW_AT_low_pc` is an
/// index, and the unit has no table of addresses. Status 6: the attribute of a base is there, but
/// its value is no offset or no address, or lies in the first header of its section. Any other: the
/// unit, its abbreviations, its root or the address at an index was refused. 280 says that memory
/// was refused, which comes only where reading the abbreviations or the root takes memory.
#[unsafe(no_mangle)]
pub extern "C" fn gimli_unit_bases(
    alloc: Global,
    sections: &GimliSections<'_>,
    unit: u64,
    dwo: u8,
    skeleton: &[GimliBases],
    bases: &mut GimliBases,
) -> u32
    ensures outcome { (result ≡ memory_refused → ⊥) →
        (result, bases.new) ≡ section_bases sections.now unit dwo skeleton.now bases.old }
    ensures without_memory { let u = section_unit sections.now unit in
        TakeNoMemory u (abbreviations_view sections.now) →
        (result, bases.new) ≡ section_bases sections.now unit dwo skeleton.now bases.old }
    ensures kept { (result ≡ more → ⊥) → bases.new ≡ bases.old }
{
    let unit = unit as usize;
    in_order!(sections, endian => {
        let opened = unit_sections(sections, endian);
        let values = dwarf_sections(sections, endian);
        bases::read_bases(alloc, &opened, &values.debug_addr, unit, dwo, skeleton, bases)
    })
}

/// Says whether the unit at an offset of `units`, whose bases these are, holds an address. Where sets
/// of `aranges` are the unit's, their ranges say so: the section need not have each unit. Any other
/// unit holds the addresses of its root: those of the list of `DW_AT_ranges`, or else those from
/// `DW_AT_low_pc` up to `DW_AT_high_pc`. No set is one of a split unit, whose root has no address:
/// who wants its addresses asks its skeleton. `units` are read as `.debug_info`, and all sections but those
/// of locations and texts.
///
/// Status 0: it does. Status 1: it does not. Status 5: an address of the root or its list counts from
/// a base that the unit does not have. Any other: the unit or its abbreviations were refused; the
/// header of a set was, and no set of the unit before it holds the address; or, where it has no set,
/// its root, its list, or a range, where none before it holds the address. 280 says that memory was
/// refused.
#[unsafe(no_mangle)]
pub extern "C" fn gimli_unit_holds(
    alloc: Global,
    sections: &GimliSections<'_>,
    unit: u64,
    bases: &GimliBases,
    address: u64,
) -> u32
    ensures outcome { (result ≡ memory_refused → ⊥) →
        result ≡ section_held sections.now unit bases.now address }
    ensures without_memory { let s = sections.now in
        TakeNoMemory (header_at (2 ^ 64) InfoSection unit (units_view s)) (abbreviations_view s) →
        result ≡ section_held s unit bases.now address }
{
    let unit = unit as usize;
    in_order!(sections, endian => {
        let opened = HoldingSections {
            debug_info: DebugInfo::new(sections.units, endian),
            debug_abbrev: DebugAbbrev::new(sections.abbreviations, endian),
            aranges: DebugAranges::new(sections.aranges, endian),
            values: dwarf_sections(sections, endian),
        };
        holding::find_held(alloc, &opened, unit, bases, address)
    })
}

/// Finds the bytes of the text that the value of an attribute is, as `gimli_entries` writes it for
/// an entry of `unit`: in `units`, `strings`, `line_strings` or `sup_strings`, also by an index in
/// `str_offsets`, which counts from `bases`. The section of the text is read, and `str_offsets`.
///
/// Status 0: `string` says where it lies. Otherwise `string` is as it was. Status 7: the value is
/// no text. Status 5: it is an index, and the unit has no table of them. Any other: the index, the
/// offset or the text was refused.
#[unsafe(no_mangle)]
pub extern "C" fn gimli_attr_string(
    sections: &GimliSections<'_>,
    unit: &GimliUnit,
    attribute: &GimliAttr,
    bases: &GimliBases,
    string: &mut GimliString,
) -> u32
    ensures { let texts = texts_in (section_is_big sections.now) sections.now in
        (result, string.new)
        ≡ text_at (2 ^ 64) texts unit.now attribute.now bases.now string.old }
{
    in_order!(sections, endian => {
        let opened = dwarf_sections(sections, endian);
        values::find_string(&opened, unit, attribute, bases, string)
    })
}

/// Finds the address that the value of an attribute is, in place or by an index in `addresses`,
/// which counts from `bases`. Only `addresses` is read.
///
/// Status 0: it is `address`. Otherwise `address` is as it was. Status 8: the value is no address.
/// Status 5: it is an index, and the unit has no table of addresses. Any other: the index or the
/// size of addresses was refused.
#[unsafe(no_mangle)]
pub extern "C" fn gimli_attr_address(
    sections: &GimliSections<'_>,
    unit: &GimliUnit,
    attribute: &GimliAttr,
    bases: &GimliBases,
    address: &mut u64,
) -> u32
    ensures { let addresses = section_view (section_is_big sections.now) sections.now.addresses.now in
        (result, address.new)
        ≡ address_at (2 ^ 64) addresses unit.now attribute.now bases.now address.old }
{
    in_order!(sections, endian => {
        let opened = dwarf_sections(sections, endian);
        values::find_address(&opened, unit, attribute, bases, address)
    })
}

/// Finds the ranges of the list that the value of an attribute names, as `gimli_entries` writes it
/// for `DW_AT_ranges` of an entry of `unit`. `ranges` and `rnglists` are read, and `addresses`
/// where the list names addresses by index.
///
/// `count` is the number of all ranges before the first that is refused; as many as there is room
/// for are written, and what is after them in `into` stays as it was.
///
/// Status 0: there are more than were written. Status 1: the list ends after them. Status 3: the
/// value names no list. Status 5: the unit has no table that an index counts from, or no address or
/// offset that the list counts from. From 512 on: what is read after them was refused; so is each
/// address that is named by an index, where the unit has no table of addresses. Any other: the size
/// of addresses, the index or the offset was refused.
#[unsafe(no_mangle)]
pub extern "C" fn gimli_ranges(
    sections: &GimliSections<'_>,
    unit: &GimliUnit,
    attribute: &GimliAttr,
    bases: &GimliBases,
    into: &mut [GimliRange],
    count: &mut usize,
) -> u32
    ensures { let s = sections.now in
        let outcome = ranges_at (section_is_big s) s unit.now attribute.now bases.now in
        IsListOutcome range_row outcome into.old into.new count.new result }
{
    let found = in_order!(sections, endian => {
        lists::find_ranges(sections, endian, unit, attribute, bases, into)
    });
    let outcome = found.unwrap_or_else(lists::no_items);
    *count = outcome.count;
    outcome.status
}

/// Finds the locations of the list that the value of an attribute names, as `gimli_entries` writes
/// it for an entry of `unit`. `count`, `into` and the statuses are as those of `gimli_ranges`. Of
/// an expression the place in its section is written: in `loclists` from version 5 on, and else in
/// `loc`. These two are read, and `addresses`.
#[unsafe(no_mangle)]
pub extern "C" fn gimli_locations(
    sections: &GimliSections<'_>,
    unit: &GimliUnit,
    attribute: &GimliAttr,
    bases: &GimliBases,
    into: &mut [GimliLocation],
    count: &mut usize,
) -> u32
    ensures { let s = sections.now in
        let outcome = locations_at (section_is_big s) s unit.now attribute.now bases.now in
        IsListOutcome location_row outcome into.old into.new count.new result }
{
    let found = in_order!(sections, endian => {
        lists::find_locations(sections, endian, unit, attribute, bases, into)
    });
    let outcome = found.unwrap_or_else(lists::no_items);
    *count = outcome.count;
    outcome.status
}
