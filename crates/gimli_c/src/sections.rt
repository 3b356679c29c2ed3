//! The sections that a caller names.

ghost use Rattle.std.specs.Prelude.{◌≡◌};
ghost use Rattle.gimli_base.specs.declared.common.SectionId.TheVariants.{DebugTypes as TypesSection};
ghost use Rattle.gimli_base.specs.Offset.{answer_of};
ghost use Rattle.gimli_headers.specs.Units.{header_at};
ghost use Rattle.gimli_units.specs.UnitHeld.{unit_view};
ghost use Rattle.gimli_base.specs.Sections.{addr_content};
ghost use Rattle.gimli_dwarf.specs.Values.{text_sections};
ghost use Rattle.gimli_c.specs.Lists.{section_view, range_sections, location_sections};
ghost use Rattle.gimli_c.specs.Values.{texts_in};
ghost use Rattle.gimli_c.specs.Units.{at_offset, section_id, units_id, unit_of};

use gimli_base::{DebugAbbrev, DebugAddr, DebugStr, EndianSlice, Endianity, Error, Reader, Result};
use gimli_dwarf::{DebugLineStr, DebugStrOffsets, DwarfSections};
use gimli_headers::{DebugInfo, DebugTypes};
use gimli_lists::{
    DebugLoc, DebugLocLists, DebugRanges, DebugRngLists, HasLists, LocationLists, RangeLists,
};
use gimli_units::{DebugInfoOffset, UnitHeader};

/// The sections that calls read. Each call reads those alone that its text names; the others may be
/// empty.
#[repr(C)]
#[derive(Clone, Copy, Debug)]
pub struct GimliSections<'a> {
    /// `.debug_info`, or `.debug_types`, as `types` says.
    pub units: &'a [u8],
    /// `.debug_abbrev`.
    pub abbreviations: &'a [u8],
    /// `.debug_addr`.
    pub addresses: &'a [u8],
    /// `.debug_aranges`.
    pub aranges: &'a [u8],
    /// `.debug_ranges`.
    pub ranges: &'a [u8],
    /// `.debug_rnglists`.
    pub rnglists: &'a [u8],
    /// `.debug_loc`.
    pub loc: &'a [u8],
    /// `.debug_loclists`.
    pub loclists: &'a [u8],
    /// `.debug_str`.
    pub strings: &'a [u8],
    /// `.debug_line_str`.
    pub line_strings: &'a [u8],
    /// `.debug_str_offsets`.
    pub str_offsets: &'a [u8],
    /// `.debug_str` of the supplementary file.
    pub sup_strings: &'a [u8],
    /// 0 where the lowest byte of a number comes first, else the highest does.
    pub big: u8,
    /// 0 where `units` are those of `.debug_info`, else they are those of `.debug_types`.
    pub types: u8,
}

/// Where the bytes of a text lie: the numbers of these sections among those of `GimliSections`.
pub(crate) const UNITS: u32 = 0;

pub(crate) const STRINGS: u32 = 8;

pub(crate) const LINE_STRINGS: u32 = 9;

pub(crate) const SUP_STRINGS: u32 = 11;

/// Where units are read.
#[derive(Drop)]
pub(crate) struct UnitSections<R> {
    pub(crate) units: R,
    pub(crate) abbreviations: DebugAbbrev<R>,
    pub(crate) types: bool,
}

/// The sections in which units are read, in the byte order `endian`, whatever `big` says.
pub(crate) fn unit_sections<'a, E: Endianity>(
    sections: &GimliSections<'a>,
    endian: E,
) -> UnitSections<EndianSlice<'a, E>>
    ensures units { ⟦<EndianSlice<'a, E> as Reader>⟧.view result.units
        ≡ record { big = E.big endian; place = 0; bytes = sections.now.units.now } }
    ensures declarations { ⟦<EndianSlice<'a, E> as Reader>⟧.view result.abbreviations.section
        ≡ record { big = E.big endian; place = 0; bytes = sections.now.abbreviations.now } }
    ensures kind { section_id result.types ≡ units_id sections.now }
{
    UnitSections {
        units: EndianSlice::new(sections.units, endian),
        abbreviations: DebugAbbrev::new(sections.abbreviations, endian),
        types: sections.types != 0,
    }
}

/// The sections in which values are resolved, in the byte order `endian`, whatever `big` says.
pub(crate) fn dwarf_sections<'a, E: Endianity>(
    sections: &GimliSections<'a>,
    endian: E,
) -> DwarfSections<EndianSlice<'a, E>>
    ensures addresses { addr_content ⟦<EndianSlice<'a, E> as Reader>⟧.view result.debug_addr
        ≡ section_view (E.big endian) sections.now.addresses.now }
    ensures texts { text_sections ⟦<EndianSlice<'a, E> as Reader>⟧.view result
        ≡ texts_in (E.big endian) sections.now }
    ensures ranges { ⟦<RangeLists<EndianSlice<'a, E>> as HasLists>⟧.lists result.ranges
        ≡ range_sections (E.big endian) sections.now }
    ensures locations { ⟦<LocationLists<EndianSlice<'a, E>> as HasLists>⟧.lists result.locations
        ≡ location_sections (E.big endian) sections.now }
{
    let ranges = DebugRanges::new(sections.ranges, endian);
    let rnglists = DebugRngLists::new(sections.rnglists, endian);
    let loc = DebugLoc::new(sections.loc, endian);
    let loclists = DebugLocLists::new(sections.loclists, endian);
    DwarfSections {
        debug_addr: DebugAddr::from(EndianSlice::new(sections.addresses, endian)),
        debug_str: DebugStr::from(EndianSlice::new(sections.strings, endian)),
        debug_line_str: DebugLineStr::from(EndianSlice::new(sections.line_strings, endian)),
        debug_str_offsets: DebugStrOffsets::from(EndianSlice::new(sections.str_offsets, endian)),
        debug_str_sup: DebugStr::from(EndianSlice::new(sections.sup_strings, endian)),
        ranges: RangeLists::new(ranges, rnglists),
        locations: LocationLists::new(loc, loclists),
    }
}

impl<R: Reader> UnitSections<R> {
    /// The header of the unit at an offset of the section of units. Its own offset is 0 where the
    /// section is `.debug_types`. Refusals: those of `DebugInfo::header_from_offset`; so
    /// `UnexpectedEof` at the section's end and after it.
    pub(crate) fn header(&self, offset: R::Offset) -> Result<UnitHeader<R>>
        ensures { let number = R.Offset.number offset in
            answer_of (λ h. at_offset number (unit_view h)) result
            ≡ unit_of R.Offset.limit R.view self.now number }
    {
        if self.types {
            type_header(&self.units, offset)
        } else {
            DebugInfo::from(self.units.copy()).header_from_offset(DebugInfoOffset(offset))
        }
    }
}

// The header of the unit at an offset of `.debug_types`. Its own offset is 0, as it is read by a
// section that begins there. Refusals: those of `DebugTypesUnitHeadersIter::next`, and
// `UnexpectedEof` at the section's end and after it.
fn type_header<R: Reader>(units: &R, offset: R::Offset) -> Result<UnitHeader<R>>
    ensures { let number = R.Offset.number offset in
        answer_of (λ h. at_offset number (unit_view h)) result
        ≡ header_at R.Offset.limit TypesSection number (R.view units.now) }
{
    let mut rest = units.copy();
    match rest.skip(offset) {
        Ok(()) => {}
        Err(error) => return Err(error),
    }
    let place = rest.offset_id();
    match DebugTypes::from(rest).units().next() {
        Ok(Some(header)) => Ok(header),
        Ok(None) => Err(Error::UnexpectedEof(place)),
        Err(error) => Err(error),
    }
}
