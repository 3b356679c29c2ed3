//! Steps: runs of an entry's values that are passed together, without being read. Between two steps
//! one value is read by itself.

ghost use Rattle.std.specs.Prelude.{◌≡◌, IfSome, true, false};
ghost use Rattle.gimli_base.specs.Steps.{AddsValue, Joins, empty_step, is_sibling, step_size};

use crate::width::Width;
use crate::{AttributeSpecification, DW_AT_sibling, DW_FORM_ref_sup8, DW_FORM_ref8, Encoding};

/// A run of an entry's values that are passed together, since their forms fix their sizes (DWARF 5,
/// 7.5.6). After it the entry ends, or one value is read by itself.
///
/// Their bytes are counted by kinds, as only an encoding tells how many an address has.
#[repr(C)]
#[derive(Clone, Copy, Debug, PartialEq, Eq)]
pub struct Step {
    /// How many values are passed together.
    pub values: u16,
    /// The bytes of those whose size no encoding changes.
    pub bytes: u8,
    /// How many have the size of an address.
    pub addresses: u8,
    /// How many have the size of an offset.
    pub offsets: u8,
    /// How many have the size of an address in version 2, else of an offset.
    pub ref_addrs: u8,
    /// 1 where a reference of 8 bytes is among them, which a reader whose offsets are narrower may
    /// refuse, else 0.
    pub has_ref8: u8,
}

impl Step {
    /// A step of no values.
    #[inline]
    pub fn new() -> Step
        ensures { result ≡ empty_step }
    {
        Step {
            values: 0,
            bytes: 0,
            addresses: 0,
            offsets: 0,
            ref_addrs: 0,
            has_ref8: 0,
        }
    }

    /// Adds the value of an attribute. Answers true where it is added. Answers false, and the step
    /// is as it was, where the form does not fix the size, where a field has no room for it, and at
    /// the first DW_AT_sibling of a declaration. `is_seen`: an attribute before it is a
    /// DW_AT_sibling.
    #[inline(always)]
    pub fn push(&mut self, specification: &AttributeSpecification, is_seen: bool) -> bool
        ensures pushed { result ≡ true → AddsValue specification.now self.old self.new }
        ensures no_sibling { result ≡ true → is_seen ≡ false
            → is_sibling specification.now ≡ false }
        ensures kept { result ≡ false → self.new ≡ self.old }
    {
        if specification.name() == DW_AT_sibling && !is_seen {
            return false;
        }
        if self.values == u16::MAX {
            return false;
        }
        // (it says that the form implicit_const has a number)
        let _ = specification.implicit_const_value();
        let width = specification.width();
        if let Width::Fixed(size) = width {
            if size > 255 - self.bytes {
                return false;
            }
            self.bytes += size;
            self.values += 1;
            let form = specification.form();
            if form == DW_FORM_ref8 || form == DW_FORM_ref_sup8 {
                self.has_ref8 = 1;
            }
            return true;
        }
        match width {
            Width::Address if self.addresses < 255 => self.addresses += 1,
            Width::Word if self.offsets < 255 => self.offsets += 1,
            Width::Reference if self.ref_addrs < 255 => self.ref_addrs += 1,
            _ => return false,
        }
        self.values += 1;
        true
    }

    /// One step of these values, then that of `specification`, then those of `last`. None where the
    /// form of the attribute does not fix the size, and where a field has no room for the sum. The
    /// attribute may be a DW_AT_sibling.
    pub(crate) fn join(&self, specification: &AttributeSpecification, last: &Step) -> Option<Step>
        ensures { IfSome result (λ s. Joins self.now specification.now last.now s) }
    {
        let mut sum = *self;
        if !sum.push(specification, true) {
            return None;
        }
        Some(Step {
            values: sum.values.checked_add(last.values)?,
            bytes: sum.bytes.checked_add(last.bytes)?,
            addresses: sum.addresses.checked_add(last.addresses)?,
            offsets: sum.offsets.checked_add(last.offsets)?,
            ref_addrs: sum.ref_addrs.checked_add(last.ref_addrs)?,
            has_ref8: sum.has_ref8.max(last.has_ref8),
        })
    }

    /// The number of bytes of all values of the step under an encoding.
    #[inline(always)]
    pub fn size(&self, encoding: Encoding) -> u64
        ensures { result ≡ step_size encoding self.now }
    {
        let address = u64::from(encoding.address_size);
        let offset = u64::from(encoding.format.word_size());
        let sum = u64::from(self.bytes)
            + u64::from(self.addresses) * address
            + u64::from(self.offsets) * offset;
        // (few declarations have any)
        if self.ref_addrs == 0 {
            return sum;
        }
        let ref_addr = if encoding.version == 2 {
            address
        } else {
            offset
        };
        sum + u64::from(self.ref_addrs) * ref_addr
    }
}
