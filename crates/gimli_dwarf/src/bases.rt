//! What the values of a unit count from.

ghost use Rattle.std.specs.Prelude.{◌≡◌, false};
ghost use Rattle.std.specs.Option.{option_map};
ghost use Rattle.gimli_base.specs.Sections.{addr_content};
ghost use Rattle.gimli_base.specs.Table.{codes_of};
ghost use Rattle.gimli_units.specs.Entry.{entry_of};
ghost use Rattle.gimli_units.specs.Unit.{header_size, range_from, takes_memory_in};
ghost use Rattle.gimli_units.specs.UnitHeld.{unit_view};
ghost use Rattle.gimli_dwarf.specs.Bases.{bases_view, shared_view, resolved_as, offset_named};
ghost use Rattle.gimli_dwarf.specs.Bases.{table_base, split_default, table_header_size, addr_base_of};
ghost use Rattle.gimli_dwarf.specs.Bases.{str_offsets_base_of, lists_base_of, low_pc_named};
ghost use Rattle.gimli_dwarf.specs.Bases.{default_low_pc, own_bases, skeleton_bases, bases_with};
ghost use Rattle.gimli_dwarf.specs.Bases.{bases_of, unit_bases, UnlessMemoryRead};

use crate::values::address_at;
use crate::{DwarfError, DwarfResult};
use gimli_base::{
    Abbreviations, DW_AT_GNU_addr_base, DW_AT_GNU_ranges_base, DW_AT_addr_base,
    DW_AT_loclists_base, DW_AT_low_pc, DW_AT_rnglists_base, DW_AT_str_offsets_base, DebugAddr,
    DebugAddrBase, DebugLocListsBase, DebugRngListsBase, DebugStrOffsetsBase, DwAt, DwarfFileType,
    Encoding, Reader, ReaderOffset,
};
use gimli_units::{DebuggingInformationEntry, UnitHeader};
use std::alloc::Allocator;

/// What the values of a unit count from, as its root gives it, in whatever order its attributes
/// stand, and for a split unit its skeleton's (DWARF 5, 3.1.1 to 3.1.3). `None` is what nothing
/// gives.
#[derive(Clone, Copy, Debug, PartialEq, Eq)]
pub struct UnitBases<Offset> {
    /// How the unit's bytes are read.
    pub encoding: Encoding,
    /// The kind of the unit's file.
    pub file_type: DwarfFileType,
    /// The address from which the ranges and the locations of the unit's lists count, up to an
    /// entry that gives another: 0 where the root of a program's unit has no `DW_AT_low_pc`.
    pub low_pc: Option<u64>,
    /// Where the unit's addresses begin in `.debug_addr`.
    pub addr_base: Option<DebugAddrBase<Offset>>,
    /// Where the unit's table begins in `.debug_str_offsets`.
    pub str_offsets_base: Option<DebugStrOffsetsBase<Offset>>,
    /// Where the unit's table of offsets begins in `.debug_rnglists`.
    pub rnglists_base: Option<DebugRngListsBase<Offset>>,
    /// Where the unit's table of offsets begins in `.debug_loclists`.
    pub loclists_base: Option<DebugLocListsBase<Offset>>,
    /// What the offsets of range lists in a split unit of version 4 count from, as
    /// `DW_AT_GNU_ranges_base` of its skeleton gives it.
    pub gnu_ranges_base: Option<DebugRngListsBase<Offset>>,
}

// What a unit shares with its split unit.
#[derive(Clone, Copy)]
pub(crate) struct SharedBases<Offset> {
    addr_base: Option<DebugAddrBase<Offset>>,
    low_pc: Option<u64>,
    gnu_ranges_base: Option<DebugRngListsBase<Offset>>,
}

impl<Offset: ReaderOffset> UnitBases<Offset> {
    /// The bases of a unit, of which the root is read. `skeleton` is for a split unit: the table of
    /// addresses, `low_pc` and what range lists count from are then the skeleton's, and the root's
    /// attributes of these are not looked at. In a file of the kind `Dwo` a table of offsets of
    /// texts or lists begins after its section's header where the root does not say where. Before
    /// version 5 there is no table of offsets of lists.
    ///
    /// Refusals, in this order: those of `UnitHeader::entry`, of the root; without a skeleton those
    /// of `DW_AT_addr_base`, `DW_AT_GNU_addr_base`, `DW_AT_low_pc` and `DW_AT_GNU_ranges_base`;
    /// those of `DW_AT_str_offsets_base`, `DW_AT_rnglists_base` and `DW_AT_loclists_base`. An
    /// attribute is refused as `InvalidBase`; a `DW_AT_low_pc` that is an index as `MissingBase` of
    /// `DW_AT_addr_base`, or as `DebugAddr::get_address` refuses it.
    ///
    /// Memory is taken for the attributes of the root alone, and only where its declaration has
    /// attributes.
    pub fn of<R: Reader<Offset = Offset>, A: Allocator + Copy>(
        alloc: A,
        unit: &UnitHeader<R>,
        abbreviations: &Abbreviations<A>,
        debug_addr: &DebugAddr<R>,
        file_type: DwarfFileType,
        skeleton: Option<&UnitBases<Offset>>,
    ) -> DwarfResult<UnitBases<Offset>>
        ensures value { let skeleton = option_map (λ s. bases_view Offset.number s.now) skeleton.entry in
            UnlessMemoryRead result (resolved_as (bases_view Offset.number) result
            ≡ unit_bases Offset.limit (addr_content R.view debug_addr.now) file_type skeleton
            (unit_view unit.now) (codes_of abbreviations.now)) }
        ensures without_memory { let u = unit_view unit.now in
            let skeleton = option_map (λ s. bases_view Offset.number s.now) skeleton.entry in
            takes_memory_in (codes_of abbreviations.now) (range_from u (header_size u)) ≡ false
            → resolved_as (bases_view Offset.number) result
            ≡ unit_bases Offset.limit (addr_content R.view debug_addr.now) file_type skeleton u
            (codes_of abbreviations.now) }
    {
        let root = unit.entry(alloc, abbreviations, unit.root_offset())?;
        bases_of(&root, unit.encoding(), debug_addr, file_type, skeleton)
    }
}

// The bases of a unit by its root; the shared ones are those of its skeleton, if it has one.
// Refusals: without a skeleton those of `own_bases`; then those of `bases_with`.
fn bases_of<R: Reader, A: Allocator>(
    root: &DebuggingInformationEntry<R, A>,
    encoding: Encoding,
    debug_addr: &DebugAddr<R>,
    file_type: DwarfFileType,
    skeleton: Option<&UnitBases<R::Offset>>,
) -> DwarfResult<UnitBases<R::Offset>>
    ensures { let skeleton = option_map (λ s. bases_view R.Offset.number s.now) skeleton.entry in
        let attributes = (entry_of R.view R.Offset.number root.now).attributes in
        resolved_as (bases_view R.Offset.number) result
        ≡ bases_of R.Offset.limit (addr_content R.view debug_addr.now) encoding file_type skeleton
        attributes }
{
    let shared = match skeleton {
        Some(skeleton) => skeleton_bases(skeleton),
        None => own_bases(root, encoding, debug_addr, file_type)?,
    };
    bases_with(root, encoding, file_type, &shared)
}

// The shared bases of a split unit, which are its skeleton's. Where the skeleton has no
// `DW_AT_GNU_ranges_base`, range lists count from 0.
fn skeleton_bases<Offset: ReaderOffset>(skeleton: &UnitBases<Offset>) -> SharedBases<Offset>
    ensures { shared_view Offset.number result
        ≡ skeleton_bases (bases_view Offset.number skeleton.now) }
{
    let zero = DebugRngListsBase(Offset::from_u8(0));
    SharedBases {
        addr_base: skeleton.addr_base,
        low_pc: skeleton.low_pc,
        gnu_ranges_base: Some(skeleton.gnu_ranges_base.unwrap_or(zero)),
    }
}

// The shared bases of a unit without a skeleton, by its own root: `DW_AT_addr_base` (or
// `DW_AT_GNU_addr_base`), `DW_AT_low_pc` (without one, 0 in a file of the kind `Main`) and
// `DW_AT_GNU_ranges_base`. Refusals, in this order of attributes: `InvalidBase`; where
// `DW_AT_low_pc` is an index, `MissingBase` and those of `DebugAddr::get_address`.
fn own_bases<R: Reader, A: Allocator>(
    root: &DebuggingInformationEntry<R, A>,
    encoding: Encoding,
    debug_addr: &DebugAddr<R>,
    file_type: DwarfFileType,
) -> DwarfResult<SharedBases<R::Offset>>
    ensures { let attributes = (entry_of R.view R.Offset.number root.now).attributes in
        resolved_as (shared_view R.Offset.number) result
        ≡ own_bases R.Offset.limit (addr_content R.view debug_addr.now) encoding file_type
        attributes }
{
    let addr_base = addr_base_of(root, encoding)?;
    let low_pc = low_pc_named(root, encoding.address_size, addr_base, debug_addr)?;
    let gnu_ranges = offset_named(root, DW_AT_GNU_ranges_base)?;
    Ok(SharedBases {
        addr_base,
        low_pc: default_low_pc(file_type, low_pc),
        gnu_ranges_base: gnu_ranges.map(DebugRngListsBase),
    })
}

// The bases of a unit: those of `shared`, and by its root where its tables of offsets begin.
// Refusals: `InvalidBase` of `DW_AT_str_offsets_base`, `DW_AT_rnglists_base` and
// `DW_AT_loclists_base`, in this order.
fn bases_with<R: Reader, A: Allocator>(
    root: &DebuggingInformationEntry<R, A>,
    encoding: Encoding,
    file_type: DwarfFileType,
    shared: &SharedBases<R::Offset>,
) -> DwarfResult<UnitBases<R::Offset>>
    ensures { let attributes = (entry_of R.view R.Offset.number root.now).attributes in
        resolved_as (bases_view R.Offset.number) result
        ≡ bases_with encoding file_type attributes (shared_view R.Offset.number shared.now) }
{
    let texts = str_offsets_base_of(root, encoding, file_type)?;
    let ranges = lists_base_of(root, DW_AT_rnglists_base, encoding, file_type)?;
    let locations = lists_base_of(root, DW_AT_loclists_base, encoding, file_type)?;
    Ok(UnitBases {
        encoding,
        file_type,
        low_pc: shared.low_pc,
        addr_base: shared.addr_base,
        str_offsets_base: texts.map(DebugStrOffsetsBase),
        rnglists_base: ranges.map(DebugRngListsBase),
        loclists_base: locations.map(DebugLocListsBase),
        gnu_ranges_base: shared.gnu_ranges_base,
    })
}

// The offset into a section that the root's first attribute of a name has as its value; none
// without such an attribute. Refusal: `InvalidBase` of the name, where the value is no offset into
// a section.
fn offset_named<R: Reader, A: Allocator>(
    root: &DebuggingInformationEntry<R, A>,
    name: DwAt,
) -> DwarfResult<Option<R::Offset>>
    ensures { let attributes = (entry_of R.view R.Offset.number root.now).attributes in
        resolved_as (option_map R.Offset.number) result ≡ offset_named name.0 attributes }
{
    let Some(attribute) = root.attr(name) else {
        return Ok(None);
    };
    match attribute.offset_value() {
        Some(offset) => Ok(Some(offset)),
        None => Err(DwarfError::InvalidBase(name)),
    }
}

// Where a table begins in its section: at the offset of the attribute `name`, or without one at
// `default`, which may be none. `least` is the size of the section's header. Refusals: those of
// `offset_named`; `InvalidBase` of the name, where its offset is less than `least`.
fn table_base<R: Reader, A: Allocator>(
    root: &DebuggingInformationEntry<R, A>,
    name: DwAt,
    least: u8,
    default: Option<u8>,
) -> DwarfResult<Option<R::Offset>>
    ensures { let attributes = (entry_of R.view R.Offset.number root.now).attributes in
        resolved_as (option_map R.Offset.number) result
        ≡ table_base name.0 least default attributes }
{
    match offset_named(root, name)? {
        Some(base) if base.into_u64() < u64::from(least) => Err(DwarfError::InvalidBase(name)),
        Some(base) => Ok(Some(base)),
        None => match default {
            Some(default) => Ok(Some(R::Offset::from_u8(default))),
            None => Ok(None),
        },
    }
}

// Where a table begins without an attribute: at `least`, the size of its section's header, in a
// file of the kind `Dwo`; none in one of the kind `Main`.
fn split_default(file_type: DwarfFileType, least: u8) -> Option<u8>
    ensures { result ≡ split_default file_type least }
{
    match file_type {
        DwarfFileType::Main => None,
        DwarfFileType::Dwo => Some(least),
    }
}

/// The number of bytes of the header that a table of `.debug_addr` or of `.debug_str_offsets` has
/// from version 5 on (DWARF 5, 7.26 and 7.27): 8, or 16 in the format of 64 bits; 0 before. A base
/// that is less lies in the first header.
pub fn table_header_size(encoding: Encoding) -> u8
    ensures { result ≡ table_header_size encoding }
{
    if encoding.version < 5 {
        return 0;
    }
    encoding.format.initial_length_size() + 2 + 2
}

// Where the unit's addresses begin in `.debug_addr`: at the root's `DW_AT_addr_base`, or without
// one at its `DW_AT_GNU_addr_base`, or none. Refusal: `InvalidBase`, where one of them is no offset
// into a section, or the first is less than `table_header_size`.
fn addr_base_of<R: Reader, A: Allocator>(
    root: &DebuggingInformationEntry<R, A>,
    encoding: Encoding,
) -> DwarfResult<Option<DebugAddrBase<R::Offset>>>
    ensures { let attributes = (entry_of R.view R.Offset.number root.now).attributes in
        resolved_as (option_map (λ o. R.Offset.number o.0)) result
        ≡ addr_base_of encoding attributes }
{
    let base = match table_base(root, DW_AT_addr_base, table_header_size(encoding), None)? {
        Some(base) => Some(base),
        None => offset_named(root, DW_AT_GNU_addr_base)?,
    };
    Ok(base.map(DebugAddrBase))
}

// Where the unit's table begins in `.debug_str_offsets`: at the root's `DW_AT_str_offsets_base`, or
// without one as `split_default` says. Refusal: `InvalidBase`, where it is no offset into a
// section, or less than `table_header_size`.
fn str_offsets_base_of<R: Reader, A: Allocator>(
    root: &DebuggingInformationEntry<R, A>,
    encoding: Encoding,
    file_type: DwarfFileType,
) -> DwarfResult<Option<R::Offset>>
    ensures { let attributes = (entry_of R.view R.Offset.number root.now).attributes in
        resolved_as (option_map R.Offset.number) result
        ≡ str_offsets_base_of encoding file_type attributes }
{
    let least = table_header_size(encoding);
    table_base(
        root,
        DW_AT_str_offsets_base,
        least,
        split_default(file_type, least),
    )
}

// Where the unit's table of offsets of lists begins in `.debug_rnglists` or `.debug_loclists`: at
// the attribute `name`, or without one as `split_default` says. Before version 5 there is none, and
// the attribute is not looked at. Refusal: `InvalidBase`, where it is no offset into a section, or
// lies in the section's header.
fn lists_base_of<R: Reader, A: Allocator>(
    root: &DebuggingInformationEntry<R, A>,
    name: DwAt,
    encoding: Encoding,
    file_type: DwarfFileType,
) -> DwarfResult<Option<R::Offset>>
    ensures { let attributes = (entry_of R.view R.Offset.number root.now).attributes in
        resolved_as (option_map R.Offset.number) result
        ≡ lists_base_of name.0 encoding file_type attributes }
{
    if encoding.version < 5 {
        return Ok(None);
    }
    let least = encoding.format.initial_length_size() + 2 + 1 + 1 + 4;
    table_base(root, name, least, split_default(file_type, least))
}

// The address of the root's `DW_AT_low_pc`, in place or by its index in the table at `addr_base`;
// none without the attribute. Refusals: those of `address_at`; `InvalidBase` of `DW_AT_low_pc`,
// where its value is no address.
fn low_pc_named<R: Reader, A: Allocator>(
    root: &DebuggingInformationEntry<R, A>,
    address_size: u8,
    addr_base: Option<DebugAddrBase<R::Offset>>,
    debug_addr: &DebugAddr<R>,
) -> DwarfResult<Option<u64>>
    ensures { let attributes = (entry_of R.view R.Offset.number root.now).attributes in
        let base = option_map (λ o. R.Offset.number o.0) addr_base in
        result
        ≡ low_pc_named R.Offset.limit address_size base (addr_content R.view debug_addr.now)
        attributes }
{
    let Some(attribute) = root.attr(DW_AT_low_pc) else {
        return Ok(None);
    };
    match address_at(&attribute.raw_value(), address_size, addr_base, debug_addr)? {
        Some(low_pc) => Ok(Some(low_pc)),
        None => Err(DwarfError::InvalidBase(DW_AT_low_pc)),
    }
}

// The address from which a unit's lists count: `low_pc`, if its root gives one, or else 0 in a file
// of the kind `Main`, and none in one of the kind `Dwo`.
fn default_low_pc(file_type: DwarfFileType, low_pc: Option<u64>) -> Option<u64>
    ensures { result ≡ default_low_pc file_type low_pc }
{
    match (low_pc, file_type) {
        (None, DwarfFileType::Main) => Some(0),
        (low_pc, _) => low_pc,
    }
}
