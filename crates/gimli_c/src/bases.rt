//! What the values of a unit count from, as numbers.

ghost use Rattle.std.specs.Prelude.{◌≡◌, ◌^◌, slice_get, Ok};
ghost use Rattle.std.specs.Option.{option_map};
ghost use Rattle.gimli_base.specs.Sections.{addr_content};
ghost use Rattle.gimli_base.specs.Table.{codes_of};
ghost use Rattle.gimli_units.specs.UnitHeld.{unit_view};
ghost use Rattle.gimli_dwarf.specs.Bases.{bases_view, resolved_as, UnlessMemoryRead};
ghost use Rattle.gimli_c.specs.Bases.{base_in, file_in, bases_in, number_of_base, number_of_file};
ghost use Rattle.gimli_c.specs.Bases.{bases_numbers, bases_by, bases_of_unit, bases_outcome};
ghost use Rattle.gimli_c.specs.Bases.{RootTakesNone, TakeNoMemory};
ghost use Rattle.gimli_c.specs.Status.{more, memory_refused};
ghost use Rattle.gimli_c.specs.Units.{unit_of, declarations_of};

use crate::sections::UnitSections;
use crate::status::{MORE, unresolved};
use gimli_base::{
    Abbreviations, DebugAbbrev, DebugAddr, DebugAddrBase, DebugLocListsBase, DebugRngListsBase,
    DebugStrOffsetsBase, DwarfFileType, Encoding, Reader, ReaderOffset, Section,
};
use gimli_dwarf::{DwarfResult, UnitBases, table_header_size};
use gimli_units::UnitHeader;
use std::alloc::Allocator;

/// What the values of a unit count from, as `gimli_unit_bases` fills it. Where a `no_..` is not 0,
/// the number of that name is none; and from version 5 on neither is one that lies in the first
/// header of its section. A value that counts from one that is none is refused.
#[repr(C)]
#[derive(Clone, Copy, Debug)]
pub struct GimliBases {
    /// The address from which lists count, up to an entry that gives another (`DW_AT_low_pc`).
    pub address: u64,
    /// Where the unit's table begins in `.debug_addr` (`DW_AT_addr_base`).
    pub addresses: u64,
    /// Where its table begins in `.debug_rnglists` (`DW_AT_rnglists_base`).
    pub rnglists: u64,
    /// Where its table begins in `.debug_loclists` (`DW_AT_loclists_base`).
    pub loclists: u64,
    /// Where its table begins in `.debug_str_offsets` (`DW_AT_str_offsets_base`).
    pub str_offsets: u64,
    /// What the offsets of range lists in a split unit of version 4 count from: its skeleton's
    /// `DW_AT_GNU_ranges_base`.
    pub gnu_ranges: u64,
    /// 0, or else the unit is one of a split file.
    pub dwo: u8,
    /// Whether there is no `address`.
    pub no_address: u8,
    /// Whether there is no `addresses`.
    pub no_addresses: u8,
    /// Whether there is no `rnglists`.
    pub no_rnglists: u8,
    /// Whether there is no `loclists`.
    pub no_loclists: u8,
    /// Whether there is no `str_offsets`.
    pub no_str_offsets: u8,
    /// Whether there is no `gnu_ranges`.
    pub no_gnu_ranges: u8,
}

// A base that a caller hands over; none where `missing` is not 0, or where `number` is less than
// `least`.
fn base_in(number: u64, missing: u8, least: usize) -> Option<usize>
    ensures { result ≡ base_in missing least number }
{
    let base = number as usize;
    if missing == 0 && least <= base {
        Some(base)
    } else {
        None
    }
}

// The kind of file that a caller's `dwo` names: `Main` where it is 0, else `Dwo`.
fn file_in(dwo: u8) -> DwarfFileType
    ensures { result ≡ file_in dwo }
{
    if dwo == 0 {
        DwarfFileType::Main
    } else {
        DwarfFileType::Dwo
    }
}

// The address from which lists count; none where `missing` is not 0.
fn low_pc_in(number: u64, missing: u8) -> Option<u64>
    ensures { result ≡ base_in missing 0 number }
{
    if missing == 0 { Some(number) } else { None }
}

// Where a table of addresses begins; none where `missing` is not 0, or where `number` is less than
// `least`.
fn addr_base_in(number: u64, missing: u8, least: usize) -> Option<DebugAddrBase<usize>>
    ensures { option_map (λ b. b.0) result ≡ base_in missing least number }
{
    base_in(number, missing, least).map(DebugAddrBase)
}

// Where a table of offsets of texts begins; none where `missing` is not 0, or where `number` is
// less than `least`.
fn str_offsets_base_in(number: u64, missing: u8, least: usize) -> Option<DebugStrOffsetsBase<usize>>
    ensures { option_map (λ b. b.0) result ≡ base_in missing least number }
{
    base_in(number, missing, least).map(DebugStrOffsetsBase)
}

// Where a table of offsets of range lists begins; none where `missing` is not 0, or where `number`
// is less than `least`.
fn rnglists_base_in(number: u64, missing: u8, least: usize) -> Option<DebugRngListsBase<usize>>
    ensures { option_map (λ b. b.0) result ≡ base_in missing least number }
{
    base_in(number, missing, least).map(DebugRngListsBase)
}

// Where a table of offsets of location lists begins; none where `missing` is not 0, or where
// `number` is less than `least`.
fn loclists_base_in(number: u64, missing: u8, least: usize) -> Option<DebugLocListsBase<usize>>
    ensures { option_map (λ b. b.0) result ≡ base_in missing least number }
{
    base_in(number, missing, least).map(DebugLocListsBase)
}

/// The bases of a unit that a caller hands over. One that is named as missing is none; so is, from
/// version 5 on, a table that would begin in the first header of its section.
pub(crate) fn bases_in(b: &GimliBases, encoding: Encoding) -> UnitBases<usize>
    ensures { bases_view (λ n. n) result ≡ bases_in encoding b.now }
{
    let split = DwarfFileType::Dwo;
    let table = table_header_size(encoding) as usize;
    let ranges = DebugRngListsBase::<usize>::default_for_encoding_and_file(encoding, split).0;
    let locations = DebugLocListsBase::<usize>::default_for_encoding_and_file(encoding, split).0;
    UnitBases {
        encoding,
        file_type: file_in(b.dwo),
        low_pc: low_pc_in(b.address, b.no_address),
        addr_base: addr_base_in(b.addresses, b.no_addresses, table),
        str_offsets_base: str_offsets_base_in(b.str_offsets, b.no_str_offsets, table),
        rnglists_base: rnglists_base_in(b.rnglists, b.no_rnglists, ranges),
        loclists_base: loclists_base_in(b.loclists, b.no_loclists, locations),
        gnu_ranges_base: rnglists_base_in(b.gnu_ranges, b.no_gnu_ranges, 0),
    }
}

// The address from which lists count, as its number and 0, or 0 and 1 where there is none.
fn low_pc_number(low_pc: Option<u64>) -> (u64, u8)
    ensures { result ≡ number_of_base low_pc }
{
    match low_pc {
        Some(low_pc) => (low_pc, 0),
        None => (0, 1),
    }
}

// Where a table of addresses begins, as its number and 0, or 0 and 1 where there is none.
fn addr_base_number<O: ReaderOffset>(base: Option<DebugAddrBase<O>>) -> (u64, u8)
    ensures { result ≡ number_of_base (option_map (λ b. O.number b.0) base) }
{
    match base {
        Some(base) => (base.0.into_u64(), 0),
        None => (0, 1),
    }
}

// Where a table of offsets of texts begins, as its number and 0, or 0 and 1 where there is none.
fn str_offsets_base_number<O: ReaderOffset>(base: Option<DebugStrOffsetsBase<O>>) -> (u64, u8)
    ensures { result ≡ number_of_base (option_map (λ b. O.number b.0) base) }
{
    match base {
        Some(base) => (base.0.into_u64(), 0),
        None => (0, 1),
    }
}

// Where a table of offsets of range lists begins, as its number and 0, or 0 and 1 where there is
// none.
fn rnglists_base_number<O: ReaderOffset>(base: Option<DebugRngListsBase<O>>) -> (u64, u8)
    ensures { result ≡ number_of_base (option_map (λ b. O.number b.0) base) }
{
    match base {
        Some(base) => (base.0.into_u64(), 0),
        None => (0, 1),
    }
}

// Where a table of offsets of location lists begins, as its number and 0, or 0 and 1 where there is
// none.
fn loclists_base_number<O: ReaderOffset>(base: Option<DebugLocListsBase<O>>) -> (u64, u8)
    ensures { result ≡ number_of_base (option_map (λ b. O.number b.0) base) }
{
    match base {
        Some(base) => (base.0.into_u64(), 0),
        None => (0, 1),
    }
}

// What `dwo` is for a kind of file: 0 for `Main`, 1 for `Dwo`.
fn file_number(file: DwarfFileType) -> u8
    ensures { result ≡ number_of_file file }
{
    match file {
        DwarfFileType::Main => 0,
        DwarfFileType::Dwo => 1,
    }
}

// The bases of a unit as a caller gets them: of one that is none, the number is 0 and its `no_..`
// is 1.
fn bases_numbers<O: ReaderOffset>(bases: &UnitBases<O>) -> GimliBases
    ensures { result ≡ bases_numbers (bases_view O.number bases.now) }
{
    let (address, no_address) = low_pc_number(bases.low_pc);
    let (addresses, no_addresses) = addr_base_number(bases.addr_base);
    let (rnglists, no_rnglists) = rnglists_base_number(bases.rnglists_base);
    let (loclists, no_loclists) = loclists_base_number(bases.loclists_base);
    let (str_offsets, no_str_offsets) = str_offsets_base_number(bases.str_offsets_base);
    let (gnu_ranges, no_gnu_ranges) = rnglists_base_number(bases.gnu_ranges_base);
    GimliBases {
        address,
        addresses,
        rnglists,
        loclists,
        str_offsets,
        gnu_ranges,
        dwo: file_number(bases.file_type),
        no_address,
        no_addresses,
        no_rnglists,
        no_loclists,
        no_str_offsets,
        no_gnu_ranges,
    }
}

/// Reads the bases of the unit at the offset `unit`. `MORE`: `bases` are they. Any other is the
/// status of a refusal, as `unresolved` gives it, and `bases` are as they were. Where `dwo` is not
/// 0 the unit is of a split file; the first of `skeleton`, if it has any, are the bases of its
/// skeleton.
pub(crate) fn read_bases<R: Reader<Offset = usize>, A: Allocator + Copy>(
    alloc: A,
    sections: &UnitSections<R>,
    debug_addr: &DebugAddr<R>,
    unit: usize,
    dwo: u8,
    skeleton: &[GimliBases],
    bases: &mut GimliBases,
) -> u32
    ensures outcome { let u = unit_of (2 ^ 64) R.view sections.now unit in
        let addresses = addr_content R.view debug_addr.now in
        (result ≡ memory_refused → ⊥) →
        (result, bases.new)
        ≡ bases_outcome (bases_of_unit (2 ^ 64) addresses (file_in dwo) (slice_get skeleton.now 0) u
        (declarations_of R.view sections.now)) bases.old }
    ensures without_memory { let u = unit_of (2 ^ 64) R.view sections.now unit in
        let addresses = addr_content R.view debug_addr.now in
        TakeNoMemory u (declarations_of R.view sections.now) →
        (result, bases.new)
        ≡ bases_outcome (bases_of_unit (2 ^ 64) addresses (file_in dwo) (slice_get skeleton.now 0) u
        (declarations_of R.view sections.now)) bases.old }
    ensures kept { (result ≡ more → ⊥) → bases.new ≡ bases.old }
{
    match bases_of_unit(alloc, sections, debug_addr, unit, file_in(dwo), skeleton) {
        Ok(found) => {
            *bases = bases_numbers(&found);
            MORE
        }
        Err(error) => unresolved(error),
    }
}

// The bases of the unit at an offset; the first of `skeleton`, if it has any, are those of its
// skeleton. Refusals, in this order: of the unit; those of `UnitHeader::abbreviations`; those of
// `UnitBases::of`.
fn bases_of_unit<R: Reader<Offset = usize>, A: Allocator + Copy>(
    alloc: A,
    sections: &UnitSections<R>,
    debug_addr: &DebugAddr<R>,
    unit: usize,
    file: DwarfFileType,
    skeleton: &[GimliBases],
) -> DwarfResult<UnitBases<usize>>
    ensures value { let u = unit_of (2 ^ 64) R.view sections.now unit in
        let addresses = addr_content R.view debug_addr.now in
        UnlessMemoryRead result (resolved_as (bases_view (λ n. n)) result
        ≡ bases_of_unit (2 ^ 64) addresses file (slice_get skeleton.now 0) u
        (declarations_of R.view sections.now)) }
    ensures without_memory { let u = unit_of (2 ^ 64) R.view sections.now unit in
        let addresses = addr_content R.view debug_addr.now in
        TakeNoMemory u (declarations_of R.view sections.now) →
        resolved_as (bases_view (λ n. n)) result
        ≡ bases_of_unit (2 ^ 64) addresses file (slice_get skeleton.now 0) u
        (declarations_of R.view sections.now) }
{
    let header = sections.header(unit)?;
    let table = header.abbreviations(alloc, &sections.abbreviations)?;
    bases_by(alloc, &header, &table, debug_addr, file, skeleton)
}

// The bases of a unit by its table of abbreviations; the first of `skeleton`, if it has any, are
// those of its skeleton. Refusals: those of `UnitBases::of`.
fn bases_by<R: Reader<Offset = usize>, A: Allocator + Copy>(
    alloc: A,
    unit: &UnitHeader<R>,
    table: &Abbreviations<A>,
    debug_addr: &DebugAddr<R>,
    file: DwarfFileType,
    skeleton: &[GimliBases],
) -> DwarfResult<UnitBases<usize>>
    ensures value { UnlessMemoryRead result (resolved_as (bases_view (λ n. n)) result
        ≡ bases_by (2 ^ 64) (addr_content R.view debug_addr.now) file (slice_get skeleton.now 0)
        (unit_view unit.now) (codes_of table.now)) }
    ensures without_memory { RootTakesNone (unit_view unit.now) (Ok (codes_of table.now)) →
        resolved_as (bases_view (λ n. n)) result
        ≡ bases_by (2 ^ 64) (addr_content R.view debug_addr.now) file (slice_get skeleton.now 0)
        (unit_view unit.now) (codes_of table.now) }
{
    match skeleton.get(0) {
        Some(skeleton) => {
            let skeleton = bases_in(skeleton, unit.encoding());
            UnitBases::of(alloc, unit, table, debug_addr, file, Some(&skeleton))
        }
        None => UnitBases::of(alloc, unit, table, debug_addr, file, None),
    }
}
