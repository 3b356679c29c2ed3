//! The section `.debug_info`, and its units.

ghost use Rattle.std.proofs.Common.{ap};
ghost use Rattle.std.specs.Prelude.{◌≡◌, ◌+◌, ◌<◌, length, MatchResult, IfOk, IfSome, OnSome};
ghost use Rattle.std.specs.Fn.{FnOnceTakesAt, FnOnceReturnsAt};
ghost use Rattle.std.specs.List.{All};
ghost use Rattle.std.specs.Option.{option_map};
ghost use Rattle.std.specs.Iterator.{at_most};
ghost use Rattle.gimli_base.specs.declared.common.SectionId.TheVariants.{DebugInfo as InfoSection};
ghost use Rattle.gimli_base.specs.Offset.{answer_of};
ghost use Rattle.gimli_base.specs.View.{View};
ghost use Rattle.gimli_units.specs.Unit.{header_size, size_of_header};
ghost use Rattle.gimli_headers.specs.Units.{UnitsPlace, next_unit, header_at};
ghost use Rattle.gimli_base.specs.Reading.{transpose};
ghost use Rattle.gimli_headers.specs.Units.{IsNextUnit, units_ahead, units_of, before_units, Tiles};
ghost use Rattle.gimli_headers.specs.Units.{IsHeaderAt};
ghost use Rattle.gimli_units.specs.UnitHeld.{unit_view};
ghost use Rattle.gimli_headers.specs.Sections.{info_content};

use crate::parse::parse_unit_header;
use crate::units::next_header;
use gimli_base::{EndianSlice, Endianity, Reader, ReaderOffset, Result, Section, SectionId};
use gimli_units::{DebugInfoOffset, UnitHeader, UnitSectionOffset};
use std::fmt::Debug;
use std::marker::Model;

/// The section `.debug_info` (DWARF 5, 7.5).
#[derive(Clone, Copy, Debug, Default)]
pub struct DebugInfo<R> {
    section: R,
}

impl<'a, E: Endianity> DebugInfo<EndianSlice<'a, E>> {
    /// The section of these bytes.
    pub fn new(bytes: &'a [u8], endian: E) -> Self
        ensures { ⟦<DebugInfo<EndianSlice<'a, E>> as Section<EndianSlice<'a, E>>>⟧.content result
            ≡ record { big = E.big endian; place = 0; bytes = bytes.now } }
    {
        DebugInfo {
            section: EndianSlice::new(bytes, endian),
        }
    }
}

impl<T> DebugInfo<T> {
    /// The section that is read by what `f` makes of this one's reader. `f` is called once.
    pub fn borrow<'a, R, F: FnOnce(&'a T) -> R>(&'a self, f: F) -> DebugInfo<R>
        requires { FnOnceTakesAt F.FnOnce f self.now.section }
        ensures { FnOnceReturnsAt F.FnOnce f self.now.section result.section }
    {
        DebugInfo {
            section: f(&self.section),
        }
    }
}

impl<R> From<R> for DebugInfo<R> {
    ghost from_gives = { λ r s. s.section ≡ r };

    fn from(section: R) -> Self {
        DebugInfo { section }
    }
}

impl<R: Reader> Section<R> for DebugInfo<R> {
    ghost section = { InfoSection };

    ghost content = { λ s. R.view s.section };

    ghost content_of_from = { λ _ _ same. ap R.view same };

    fn id() -> SectionId {
        SectionId::DebugInfo
    }

    fn reader(&self) -> &R {
        &self.section
    }
}

impl<R: Reader> DebugInfo<R> {
    /// The header of the unit that begins at an offset of the section; whatever stands there is
    /// read as one.
    ///
    /// Refusals: `UnexpectedEof`, where the offset lies after the section's end; then those of
    /// `DebugInfoUnitHeadersIter::next`.
    #[tactic(auto, unfolding(crate::specs::Units::header_at))]
    pub fn header_from_offset(&self, offset: DebugInfoOffset<R::Offset>) -> Result<UnitHeader<R>>
        ensures value { answer_of unit_view result
            ≡ header_at R.Offset.limit InfoSection (R.Offset.number offset.0)
            (info_content R.view self.now) }
        ensures size { IfOk result (λ u. size_of_header (unit_view u) ≡ header_size (unit_view u)) }
    {
        let mut input = self.section.copy();
        input.skip(offset.0)?;
        parse_unit_header(
            &mut input,
            SectionId::DebugInfo,
            UnitSectionOffset(offset.0),
        )
    }

    /// The units of the section, from its beginning on: they lie one after the other, and each has
    /// the header that stands at its offset.
    pub fn units(&self) -> DebugInfoUnitHeadersIter<R>
        ensures begin { result
            ≡ record { rest = info_content R.view self.now; offset = 0 } }
        ensures tiles { Tiles R.Offset.limit InfoSection
            (info_content R.view self.now) }
        ensures found { All
            (IsHeaderAt R.Offset.limit InfoSection
            (info_content R.view self.now))
            (units_of R.Offset.limit InfoSection
            (info_content R.view self.now)).items }
    {
        DebugInfoUnitHeadersIter {
            input: self.section.copy(),
            offset: UnitSectionOffset(R::Offset::from_u8(0)),
        }
    }
}

/// The units of `.debug_info`, one after the other.
#[derive(Debug, Drop)]
pub struct DebugInfoUnitHeadersIter<R: Reader> {
    input: R,
    // where the input begins in its section
    offset: UnitSectionOffset<R::Offset>,
}

impl<R: Reader> Model for DebugInfoUnitHeadersIter<R> {
    ghost Value = { UnitsPlace };

    ghost view = { λ u. record { rest = R.view u.input; offset = R.Offset.number u.offset.0 } };

    ghost invariant = { λ u. R.Offset.number u.offset.0 + length (R.view u.input).bytes
        < R.Offset.limit };
}

impl<R: Reader> DebugInfoUnitHeadersIter<R> {
    /// An iterator that stands where this one stands.
    pub fn copy(&self) -> Self
        ensures { result ≡ self.now }
    {
        DebugInfoUnitHeadersIter {
            input: self.input.copy(),
            offset: self.offset,
        }
    }

    /// The header of the next unit, or none at the end of the section. Of the unit's entries
    /// nothing is read.
    ///
    /// Refusals, of the first field that has one: `UnexpectedEof`, also where the section ends
    /// before the unit, `UnknownReservedLength`, `UnsupportedOffset`, `UnknownVersion` of a version
    /// other than 2 to 5, `UnsupportedAddressSize`, and after the fields that all units have
    /// `UnknownUnitType`. Nothing is left then, and the next call answers none.
    pub fn next(&mut self) -> Result<Option<UnitHeader<R>>>
        ensures value { (answer_of (option_map unit_view) result, self.new)
            ≡ next_unit R.Offset.limit InfoSection self.old }
        ensures ahead { units_ahead R.Offset.limit InfoSection self.old
            ≡ before_units (answer_of (option_map unit_view) result)
            (units_ahead R.Offset.limit InfoSection self.new) }
        ensures size { IfOk result
            (λ unit. IfSome unit (λ u. size_of_header (unit_view u) ≡ header_size (unit_view u))) }
        ensures takes { MatchResult result
            (λ unit. OnSome unit (length self.new.rest.bytes < length self.old.rest.bytes))
            (λ _. length self.new.rest.bytes < length self.old.rest.bytes) }
    {
        next_header(&mut self.input, &mut self.offset, SectionId::DebugInfo)
    }
}

impl<R: Reader> Iterator for DebugInfoUnitHeadersIter<R> {
    type Item = Result<UnitHeader<R>>;

    ghost next_gives = { λ s r t.
        IsNextUnit R.Offset.limit InfoSection s (answer_of (option_map unit_view) (transpose r))
        t };

    ghost remaining = { λ s. at_most (length s.rest.bytes) };

    // As the other `next`: a refusal is an item, and nothing is left after it.
    fn next(&mut self) -> Option<Result<UnitHeader<R>>> {
        DebugInfoUnitHeadersIter::next(self).transpose()
    }
}
