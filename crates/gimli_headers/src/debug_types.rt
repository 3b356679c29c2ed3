//! The section `.debug_types`, and its units.

ghost use Rattle.std.proofs.Common.{ap};
ghost use Rattle.std.specs.Prelude.{◌≡◌, ◌+◌, ◌<◌, length, MatchResult, IfOk, IfSome, OnSome};
ghost use Rattle.std.specs.Fn.{FnOnceTakesAt, FnOnceReturnsAt};
ghost use Rattle.std.specs.List.{All};
ghost use Rattle.std.specs.Option.{option_map};
ghost use Rattle.std.specs.Iterator.{at_most};
ghost use Rattle.gimli_base.specs.declared.common.SectionId.TheVariants.{DebugTypes as TypesSection};
ghost use Rattle.gimli_base.specs.Offset.{answer_of};
ghost use Rattle.gimli_base.specs.View.{View};
ghost use Rattle.gimli_units.specs.Unit.{header_size, size_of_header};
ghost use Rattle.gimli_headers.specs.Units.{UnitsPlace, next_unit, IsNextUnit};
ghost use Rattle.gimli_base.specs.Reading.{transpose};
ghost use Rattle.gimli_headers.specs.Units.{units_ahead, units_of, before_units, Tiles, IsHeaderAt};
ghost use Rattle.gimli_units.specs.UnitHeld.{unit_view};
ghost use Rattle.gimli_headers.specs.Sections.{types_content};

use crate::units::next_header;
use gimli_base::{EndianSlice, Endianity, Reader, ReaderOffset, Result, Section, SectionId};
use gimli_units::{UnitHeader, UnitSectionOffset};
use std::fmt::Debug;
use std::marker::Model;

/// The section `.debug_types` (DWARF 4, 7.5).
#[derive(Clone, Copy, Debug, Default)]
pub struct DebugTypes<R> {
    section: R,
}

impl<'a, E: Endianity> DebugTypes<EndianSlice<'a, E>> {
    /// The section of these bytes.
    pub fn new(bytes: &'a [u8], endian: E) -> Self
        ensures { ⟦<DebugTypes<EndianSlice<'a, E>> as Section<EndianSlice<'a, E>>>⟧.content result
            ≡ record { big = E.big endian; place = 0; bytes = bytes.now } }
    {
        DebugTypes {
            section: EndianSlice::new(bytes, endian),
        }
    }
}

impl<T> DebugTypes<T> {
    /// The section that is read by what `f` makes of this one's reader. `f` is called once.
    pub fn borrow<'a, R, F: FnOnce(&'a T) -> R>(&'a self, f: F) -> DebugTypes<R>
        requires { FnOnceTakesAt F.FnOnce f self.now.section }
        ensures { FnOnceReturnsAt F.FnOnce f self.now.section result.section }
    {
        DebugTypes {
            section: f(&self.section),
        }
    }
}

impl<R> From<R> for DebugTypes<R> {
    ghost from_gives = { λ r s. s.section ≡ r };

    fn from(section: R) -> Self {
        DebugTypes { section }
    }
}

impl<R: Reader> Section<R> for DebugTypes<R> {
    ghost section = { TypesSection };

    ghost content = { λ s. R.view s.section };

    ghost content_of_from = { λ _ _ same. ap R.view same };

    fn id() -> SectionId {
        SectionId::DebugTypes
    }

    fn reader(&self) -> &R {
        &self.section
    }
}

impl<R: Reader> DebugTypes<R> {
    /// The units of the section, from its beginning on: they lie one after the other, and each has
    /// the header that stands at its offset.
    pub fn units(&self) -> DebugTypesUnitHeadersIter<R>
        ensures begin { result
            ≡ record { rest = types_content R.view self.now; offset = 0 } }
        ensures tiles { Tiles R.Offset.limit TypesSection
            (types_content R.view self.now) }
        ensures found { All
            (IsHeaderAt R.Offset.limit TypesSection
            (types_content R.view self.now))
            (units_of R.Offset.limit TypesSection
            (types_content R.view self.now)).items }
    {
        DebugTypesUnitHeadersIter {
            input: self.section.copy(),
            offset: UnitSectionOffset(R::Offset::from_u8(0)),
        }
    }
}

/// The units of `.debug_types`, one after the other.
#[derive(Debug, Drop)]
pub struct DebugTypesUnitHeadersIter<R: Reader> {
    input: R,
    // where the input begins in its section
    offset: UnitSectionOffset<R::Offset>,
}

impl<R: Reader> Model for DebugTypesUnitHeadersIter<R> {
    ghost Value = { UnitsPlace };

    ghost view = { λ u. record { rest = R.view u.input; offset = R.Offset.number u.offset.0 } };

    ghost invariant = { λ u. R.Offset.number u.offset.0 + length (R.view u.input).bytes
        < R.Offset.limit };
}

impl<R: Reader> DebugTypesUnitHeadersIter<R> {
    /// An iterator that stands where this one stands.
    pub fn copy(&self) -> Self
        ensures { result ≡ self.now }
    {
        DebugTypesUnitHeadersIter {
            input: self.input.copy(),
            offset: self.offset,
        }
    }

    /// The header of the next unit, or none at the end of the section. Of the unit's entries
    /// nothing is read.
    ///
    /// Refusals, of the first field that has one: `UnexpectedEof`, also where the section ends
    /// before the unit, `UnknownReservedLength`, `UnsupportedOffset`, `UnknownVersion` of a version
    /// other than 2 to 5, `UnsupportedAddressSize`, and after the fields that all units have
    /// `UnknownUnitType`. Nothing is left then, and the next call answers none.
    pub fn next(&mut self) -> Result<Option<UnitHeader<R>>>
        ensures value { (answer_of (option_map unit_view) result, self.new)
            ≡ next_unit R.Offset.limit TypesSection self.old }
        ensures ahead { units_ahead R.Offset.limit TypesSection self.old
            ≡ before_units (answer_of (option_map unit_view) result)
            (units_ahead R.Offset.limit TypesSection self.new) }
        ensures size { IfOk result
            (λ unit. IfSome unit (λ u. size_of_header (unit_view u) ≡ header_size (unit_view u))) }
        ensures takes { MatchResult result
            (λ unit. OnSome unit (length self.new.rest.bytes < length self.old.rest.bytes))
            (λ _. length self.new.rest.bytes < length self.old.rest.bytes) }
    {
        next_header(&mut self.input, &mut self.offset, SectionId::DebugTypes)
    }
}

impl<R: Reader> Iterator for DebugTypesUnitHeadersIter<R> {
    type Item = Result<UnitHeader<R>>;

    ghost next_gives = { λ s r t.
        IsNextUnit R.Offset.limit TypesSection s (answer_of (option_map unit_view) (transpose r))
        t };

    ghost remaining = { λ s. at_most (length s.rest.bytes) };

    // As the other `next`: a refusal is an item, and nothing is left after it.
    fn next(&mut self) -> Option<Result<UnitHeader<R>>> {
        DebugTypesUnitHeadersIter::next(self).transpose()
    }
}
