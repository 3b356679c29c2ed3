//! Entries, as they are held.

ghost use Rattle.std.specs.Prelude.{◌≡◌, [], false, pos, map, IsOk, IfOk, IfErr};
ghost use Rattle.std.specs.Option.{option_map, option_copied, is_some};
ghost use Rattle.gimli_base.specs.declared.error.Error.TheVariants.{OutOfMemory};
ghost use Rattle.gimli_units.specs.Value.{map_value, map_attribute};
ghost use Rattle.gimli_units.specs.NormalValue.{normal_value};
ghost use Rattle.gimli_units.specs.Kind.{kind_of};
ghost use Rattle.gimli_units.specs.Honest.{target};
ghost use Rattle.gimli_units.specs.Entry.{Entry, null_entry, is_null, entry_of, first_of};

use crate::{Attribute, AttributeValue, UnitOffset};
use gimli_base::{DW_AT_sibling, DW_TAG_null, DwAt, DwTag, Reader, ReaderOffset, Result};
use std::alloc::Allocator;
use std::fmt::Debug;

/// An entry of a unit, or the null that closes a list of children (DWARF 5, 2.1 and 7.5.2).
#[derive(Drop)]
#[derive_where(Debug; R, Offset)]
pub struct DebuggingInformationEntry<R, A: Allocator, Offset = <R as Reader>::Offset> {
    /// The tag, 0 for a null.
    pub tag: DwTag,
    /// Whether children follow the entry.
    pub has_children: bool,
    /// The attributes, in the order of the declaration.
    pub attrs: Vec<Attribute<R, Offset>, A>,
    /// Where the entry stands in its unit.
    pub offset: UnitOffset<Offset>,
    /// How deep it stands below the place where the walk began.
    pub depth: isize,
}

impl<R: Reader, A: Allocator> DebuggingInformationEntry<R, A> {
    /// An entry of these parts, at depth 0.
    pub fn new(
        tag: DwTag,
        has_children: bool,
        attrs: Vec<Attribute<R>, A>,
        offset: UnitOffset<R::Offset>,
    ) -> Self
        ensures tag { result.tag ≡ tag }
        ensures has_children { result.has_children ≡ has_children }
        ensures attrs { result.attrs.items ≡ attrs.items }
        ensures offset { result.offset ≡ offset }
        ensures depth { result.depth ≡ pos 0 }
    {
        DebuggingInformationEntry {
            tag,
            has_children,
            attrs,
            offset,
            depth: 0,
        }
    }

    /// A null entry, at offset 0 and depth 0. No memory is taken.
    pub fn null(alloc: A) -> Self
        ensures null { entry_of R.view R.Offset.number result ≡ null_entry }
        ensures offset { R.Offset.number result.offset.0 ≡ 0 }
        ensures depth { result.depth ≡ pos 0 }
    {
        DebuggingInformationEntry {
            tag: DW_TAG_null,
            has_children: false,
            attrs: Vec::new(alloc),
            offset: UnitOffset(R::Offset::from_u8(0)),
            depth: 0,
        }
    }

    /// Makes it a null entry: tag 0, no children, no attributes. Offset and depth stay.
    #[inline]
    pub fn set_null(&mut self)
        ensures null { entry_of R.view R.Offset.number self.new ≡ null_entry }
        ensures offset { self.new.offset ≡ self.old.offset }
        ensures depth { self.new.depth ≡ self.old.depth }
    {
        self.tag = DW_TAG_null;
        self.has_children = false;
        self.attrs.clear();
    }

    /// Whether it is a null: its tag is 0.
    #[inline]
    pub fn is_null(&self) -> bool
        ensures { result ≡ is_null (entry_of R.view R.Offset.number self.now) }
    {
        self.tag == DW_TAG_null
    }

    /// The depth below the place where the walk began; negative past the null that ends the list in
    /// which it began.
    #[inline]
    pub fn depth(&self) -> isize
        ensures { result ≡ self.now.depth }
    {
        self.depth
    }

    /// The offset of the entry, or the null, in its unit.
    #[inline]
    pub fn offset(&self) -> UnitOffset<R::Offset>
        ensures { result ≡ self.now.offset }
    {
        self.offset
    }

    /// The tag, 0 for a null.
    #[inline]
    pub fn tag(&self) -> DwTag
        ensures { result ≡ self.now.tag }
    {
        self.tag
    }

    /// Whether children follow the entry, as its abbreviation declares; false for a null.
    #[inline]
    pub fn has_children(&self) -> bool
        ensures { result ≡ self.now.has_children }
    {
        self.has_children
    }

    /// The attributes, in the order of the declaration.
    #[inline]
    pub fn attrs(&self) -> &[Attribute<R>]
        ensures { result.now ≡ self.now.attrs.items }
    {
        &self.attrs
    }

    /// Whether there is an attribute of this name.
    pub fn has_attr(&self, name: DwAt) -> bool
        ensures { result ≡ is_some (first_of name.0 self.now.attrs.items) }
    {
        self.attr(name).is_some()
    }

    /// The first attribute of this name, if there is one.
    pub fn attr(&self, name: DwAt) -> Option<&Attribute<R>>
        ensures { option_copied result ≡ first_of name.0 self.now.attrs.items }
    {
        self.attrs.iter().find(|attr| attr.name() == name)
    }

    /// Where the first `DW_AT_sibling` leads, if its value is a `UnitRef`, an offset in the unit.
    /// None for a null, without children, and without such an attribute. The offset is as it is
    /// read: it may lead back, or out of the unit, and whether an entry begins there is not looked
    /// at (DWARF 5, 2.3).
    pub fn sibling(&self) -> Option<UnitOffset<R::Offset>>
        ensures { option_map (λ o. R.Offset.number o.0) result
            ≡ target (kind_of (entry_of R.view R.Offset.number self.now)) }
    {
        if self.is_null() || !self.has_children {
            return None;
        }
        match self.attr(DW_AT_sibling) {
            Some(attr) => attr.reference(),
            None => None,
        }
    }

    /// The value of the first attribute of this name, as its form shows it; none where there is no
    /// such attribute.
    pub fn attr_value_raw(&self, name: DwAt) -> Option<AttributeValue<R>>
        ensures { option_map (map_value R.view R.Offset.number) result
            ≡ option_map (λ a. map_value R.view R.Offset.number a.value)
            (first_of name.0 self.now.attrs.items) }
    {
        self.attr(name).map(|attr| attr.raw_value())
    }

    /// The value of the first attribute of this name, as the name makes it (`Attribute::value`);
    /// none where there is no such attribute.
    pub fn attr_value(&self, name: DwAt) -> Option<AttributeValue<R>>
        ensures { option_map (map_value R.view R.Offset.number) result
            ≡ option_map (λ a. normal_value a.name.0 (map_value R.view R.Offset.number a.value))
            (first_of name.0 self.now.attrs.items) }
    {
        self.attr(name).map(|attr| attr.value())
    }
}

impl<R: Reader, A: Allocator + Copy> DebuggingInformationEntry<R, A> {
    /// An entry of the same parts, with the same offset and depth; `alloc` is for its attributes.
    /// Refusal: `OutOfMemory`, only where it has attributes.
    pub fn try_clone(&self, alloc: A) -> Result<Self>
        ensures value { IfOk result
            (λ e. entry_of R.view R.Offset.number e ≡ entry_of R.view R.Offset.number self.now) }
        ensures offset { IfOk result (λ e. e.offset ≡ self.now.offset) }
        ensures depth { IfOk result (λ e. e.depth ≡ self.now.depth) }
        ensures refusal { IfErr result (λ e. e ≡ OutOfMemory) }
        ensures without_memory { self.now.attrs.items ≡ [] → IsOk result }
    {
        let attrs = copies(alloc, &self.attrs)?;
        Ok(DebuggingInformationEntry {
            tag: self.tag,
            has_children: self.has_children,
            attrs,
            offset: self.offset,
            depth: self.depth,
        })
    }
}

// A list of the same attributes, their readers copied. Refusal: `OutOfMemory`, never of an empty
// list.
fn copies<R: Reader, A: Allocator>(alloc: A, attrs: &[Attribute<R>]) -> Result<Vec<Attribute<R>, A>>
    ensures value { IfOk result
        (λ copies. map (map_attribute R.view R.Offset.number) copies.items
        ≡ map (map_attribute R.view R.Offset.number) attrs.now) }
    ensures refusal { IfErr result (λ e. e ≡ OutOfMemory) }
    ensures without_memory { attrs.now ≡ [] → IsOk result }
{
    let mut copies = Vec::new(alloc);
    copies.reserve(attrs.len())?;
    for attr in attrs {
        copies.push_reserved(attr.copy());
    }
    Ok(copies)
}
