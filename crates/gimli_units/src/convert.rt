//! Conversions between the offsets of a unit and those of its section.

ghost use Rattle.std.specs.Prelude.{◌≡◌, ◌+◌, ◌-◌, ◌<◌, Option, Some, None, IfSome, if◌then◌else◌};
ghost use Rattle.std.specs.Option.{option_map};
ghost use Rattle.gimli_units.specs.Unit.{in_bounds, is_debug_info, is_debug_types, within_unit};
ghost use Rattle.gimli_units.specs.UnitHeld.{unit_view};

use crate::{DebugInfoOffset, DebugTypesOffset, UnitHeader, UnitOffset, UnitSectionOffset};
use gimli_base::{Reader, ReaderOffset, SectionId};

impl<T: ReaderOffset> DebugInfoOffset<T> {
    /// The same offset as one of the unit's section, if that is `.debug_info`, else none. Whether
    /// it lies in the unit is not looked at.
    pub fn to_unit_section_offset<R: Reader<Offset = T>>(
        &self,
        unit: &UnitHeader<R>,
    ) -> Option<UnitSectionOffset<T>>
        ensures { option_map (λ o. T.number o.0) result
            ≡ (if is_debug_info (unit_view unit.now).section then Some (T.number self.now.0)
            else None) }
    {
        match unit.section() {
            SectionId::DebugInfo => Some(UnitSectionOffset(self.0)),
            _ => None,
        }
    }

    /// The offset as one in the unit, counted from the unit's beginning, if a byte of the unit's
    /// entries has it. None where the unit lies in another section, for an offset before the first
    /// entry, and from the unit's end on.
    pub fn to_unit_offset<R: Reader<Offset = T>>(
        &self,
        unit: &UnitHeader<R>,
    ) -> Option<UnitOffset<T>>
        ensures value { option_map (λ o. T.number o.0) result
            ≡ (if is_debug_info (unit_view unit.now).section
            then within_unit (unit_view unit.now) (T.number self.now.0) else None) }
        ensures back { IfSome result
            (λ o. (unit_view unit.now).offset + T.number o.0 ≡ T.number self.now.0) }
    {
        self.to_unit_section_offset(unit)?.to_unit_offset(unit)
    }
}

impl<T: ReaderOffset> DebugTypesOffset<T> {
    /// The same offset as one of the unit's section, if that is `.debug_types`, else none. Whether
    /// it lies in the unit is not looked at.
    pub fn to_unit_section_offset<R: Reader<Offset = T>>(
        &self,
        unit: &UnitHeader<R>,
    ) -> Option<UnitSectionOffset<T>>
        ensures { option_map (λ o. T.number o.0) result
            ≡ (if is_debug_types (unit_view unit.now).section then Some (T.number self.now.0)
            else None) }
    {
        match unit.section() {
            SectionId::DebugTypes => Some(UnitSectionOffset(self.0)),
            _ => None,
        }
    }

    /// The offset as one in the unit, counted from the unit's beginning, if a byte of the unit's
    /// entries has it. None where the unit lies in another section, for an offset before the first
    /// entry, and from the unit's end on.
    pub fn to_unit_offset<R: Reader<Offset = T>>(
        &self,
        unit: &UnitHeader<R>,
    ) -> Option<UnitOffset<T>>
        ensures value { option_map (λ o. T.number o.0) result
            ≡ (if is_debug_types (unit_view unit.now).section
            then within_unit (unit_view unit.now) (T.number self.now.0) else None) }
        ensures back { IfSome result
            (λ o. (unit_view unit.now).offset + T.number o.0 ≡ T.number self.now.0) }
    {
        let in_section = self.to_unit_section_offset(unit)?;
        in_section.to_unit_offset(unit)
    }
}

impl<T: ReaderOffset> UnitSectionOffset<T> {
    /// The offset as one in the unit, counted from the unit's beginning, if a byte of the unit's
    /// entries has it. None for an offset before the first entry, and from the unit's end on. It is
    /// taken as one of the unit's section.
    pub fn to_unit_offset<R: Reader<Offset = T>>(
        &self,
        unit: &UnitHeader<R>,
    ) -> Option<UnitOffset<T>>
        ensures value { option_map (λ o. T.number o.0) result
            ≡ within_unit (unit_view unit.now) (T.number self.now.0) }
        ensures back { IfSome result
            (λ o. (unit_view unit.now).offset + T.number o.0 ≡ T.number self.now.0) }
    {
        let offset = UnitOffset(self.0.checked_sub(unit.offset().0)?);
        if unit.is_in_bounds(offset) {
            Some(offset)
        } else {
            None
        }
    }

    /// The same offset as one of `.debug_info`, if the unit lies there, else none.
    pub fn to_debug_info_offset<R: Reader<Offset = T>>(
        &self,
        unit: &UnitHeader<R>,
    ) -> Option<DebugInfoOffset<T>>
        ensures { option_map (λ o. T.number o.0) result
            ≡ (if is_debug_info (unit_view unit.now).section then Some (T.number self.now.0)
            else None) }
    {
        match unit.section() {
            SectionId::DebugInfo => Some(DebugInfoOffset(self.0)),
            _ => None,
        }
    }

    /// The same offset as one of `.debug_types`, if the unit lies there, else none.
    pub fn to_debug_types_offset<R: Reader<Offset = T>>(
        &self,
        unit: &UnitHeader<R>,
    ) -> Option<DebugTypesOffset<T>>
        ensures { option_map (λ o. T.number o.0) result
            ≡ (if is_debug_types (unit_view unit.now).section then Some (T.number self.now.0)
            else None) }
    {
        match unit.section() {
            SectionId::DebugTypes => Some(DebugTypesOffset(self.0)),
            _ => None,
        }
    }
}

impl<T: ReaderOffset> UnitOffset<T> {
    /// Whether the offset is that of a byte of the unit's entries; the unit's end is none.
    pub fn is_in_bounds<R: Reader<Offset = T>>(&self, unit: &UnitHeader<R>) -> bool
        ensures { result ≡ in_bounds (unit_view unit.now) (T.number self.now.0) }
    {
        unit.is_in_bounds(*self)
    }

    /// The offset as one of the unit's section: the sum with the unit's own offset, which has to
    /// fit. Whether it is in bounds is not looked at.
    pub fn to_unit_section_offset<R: Reader<Offset = T>>(
        &self,
        unit: &UnitHeader<R>,
    ) -> UnitSectionOffset<T>
        requires { (unit_view unit.now).offset + T.number self.now.0 < T.limit }
        ensures { T.number result.0 ≡ (unit_view unit.now).offset + T.number self.now.0 }
    {
        UnitSectionOffset(unit.offset().0.checked_add(self.0).unwrap())
    }

    /// The offset as one of `.debug_info`, if the unit lies there, else none; the sum with the
    /// unit's own offset has to fit.
    pub fn to_debug_info_offset<R: Reader<Offset = T>>(
        &self,
        unit: &UnitHeader<R>,
    ) -> Option<DebugInfoOffset<T>>
        requires { (unit_view unit.now).offset + T.number self.now.0 < T.limit }
        ensures { option_map (λ o. T.number o.0) result
            ≡ (if is_debug_info (unit_view unit.now).section
            then Some ((unit_view unit.now).offset + T.number self.now.0) else None) }
    {
        self.to_unit_section_offset(unit).to_debug_info_offset(unit)
    }

    /// The offset as one of `.debug_types`, if the unit lies there, else none; the sum with the
    /// unit's own offset has to fit.
    pub fn to_debug_types_offset<R: Reader<Offset = T>>(
        &self,
        unit: &UnitHeader<R>,
    ) -> Option<DebugTypesOffset<T>>
        requires { (unit_view unit.now).offset + T.number self.now.0 < T.limit }
        ensures { option_map (λ o. T.number o.0) result
            ≡ (if is_debug_types (unit_view unit.now).section
            then Some ((unit_view unit.now).offset + T.number self.now.0) else None) }
    {
        self.to_unit_section_offset(unit)
            .to_debug_types_offset(unit)
    }
}
