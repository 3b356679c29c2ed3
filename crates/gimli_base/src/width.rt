//! How many bytes the values of forms take.

ghost use Rattle.std.specs.Prelude.{◌≡◌};
ghost use Rattle.gimli_base.specs.Width.{width_of, size_in, form_size};

use crate::constants::forms::{
    DW_FORM_GNU_ref_alt, DW_FORM_GNU_strp_alt, DW_FORM_addr, DW_FORM_addrx1, DW_FORM_addrx2,
    DW_FORM_addrx3, DW_FORM_addrx4, DW_FORM_data1, DW_FORM_data2, DW_FORM_data4, DW_FORM_data8,
    DW_FORM_data16, DW_FORM_flag, DW_FORM_flag_present, DW_FORM_implicit_const, DW_FORM_line_strp,
    DW_FORM_ref_addr, DW_FORM_ref_sig8, DW_FORM_ref_sup4, DW_FORM_ref_sup8, DW_FORM_ref1,
    DW_FORM_ref2, DW_FORM_ref4, DW_FORM_ref8, DW_FORM_sec_offset, DW_FORM_strp, DW_FORM_strp_sup,
    DW_FORM_strx1, DW_FORM_strx2, DW_FORM_strx3, DW_FORM_strx4,
};
use crate::{DwForm, Encoding};

/// How many bytes the value of a form takes, where that is known before it is read (DWARF 5,
/// 7.5.6).
#[derive(Clone, Copy, Debug, PartialEq, Eq)]
pub(crate) enum Width {
    /// Only the bytes of the value tell, or the form is not known.
    // (it is the first, so that a place without an attribute is all zeros)
    Unknown,
    /// So many bytes.
    Fixed(u8),
    /// As many as the unit's addresses have.
    Address,
    /// As many as the format's offsets have.
    Word,
    /// In version 2 as many as the unit's addresses have, else as many as the format's offsets
    /// have.
    Reference,
}

impl Width {
    /// The width of a form; `Unknown` of a code that is no form, and of DW_FORM_indirect.
    //
    // It is laid into its caller, where tables tell the widths of low codes.
    #[inline(always)]
    pub(crate) fn of(form: DwForm) -> Width
        ensures { result ≡ width_of form.0 }
    {
        if form.0 < 128 {
            Width::look_up(form)
        } else {
            Width::look_up_vendor(form)
        }
    }

    // The width of a form of a vendor, whose code is not below 128: as `look_up`, by a call.
    #[inline(never)]
    fn look_up_vendor(form: DwForm) -> Width
        ensures { result ≡ width_of form.0 }
    {
        Width::look_up(form)
    }

    // The width of any form, as `of` answers it, in one list of all forms.
    #[inline(always)]
    #[tactic(auto, unfolding(crate::specs::Width::width_of))]
    fn look_up(form: DwForm) -> Width
        ensures { result ≡ width_of form.0 }
    {
        match form {
            DW_FORM_flag_present | DW_FORM_implicit_const => Width::Fixed(0),
            DW_FORM_data1 | DW_FORM_flag | DW_FORM_ref1 | DW_FORM_strx1 | DW_FORM_addrx1 =>
                Width::Fixed(1),
            DW_FORM_data2 | DW_FORM_ref2 | DW_FORM_strx2 | DW_FORM_addrx2 => Width::Fixed(2),
            DW_FORM_strx3 | DW_FORM_addrx3 => Width::Fixed(3),
            DW_FORM_data4 | DW_FORM_ref4 | DW_FORM_ref_sup4 | DW_FORM_strx4 | DW_FORM_addrx4 =>
                Width::Fixed(4),
            DW_FORM_data8 | DW_FORM_ref8 | DW_FORM_ref_sig8 | DW_FORM_ref_sup8 => Width::Fixed(8),
            DW_FORM_data16 => Width::Fixed(16),
            DW_FORM_addr => Width::Address,
            DW_FORM_strp
            | DW_FORM_sec_offset
            | DW_FORM_strp_sup
            | DW_FORM_line_strp
            | DW_FORM_GNU_ref_alt
            | DW_FORM_GNU_strp_alt => Width::Word,
            DW_FORM_ref_addr => Width::Reference,
            _ => Width::Unknown,
        }
    }

    /// The number of bytes under an encoding; none of `Unknown`.
    #[inline]
    pub(crate) fn size(self, encoding: Encoding) -> Option<u8>
        ensures { result ≡ size_in encoding self }
    {
        match self {
            Width::Fixed(size) => Some(size),
            Width::Address => Some(encoding.address_size),
            Width::Word => Some(encoding.format.word_size()),
            Width::Reference => {
                if encoding.version == 2 {
                    Some(encoding.address_size)
                } else {
                    Some(encoding.format.word_size())
                }
            }
            Width::Unknown => None,
        }
    }
}

impl DwForm {
    /// The number of bytes of the form's value under an encoding (DWARF 5, 7.5.6). None where it
    /// depends on the bytes, and where the form is not known.
    #[inline]
    pub fn size(self, encoding: Encoding) -> Option<u8>
        ensures { result ≡ form_size encoding self.0 }
    {
        Width::of(self).size(encoding)
    }
}
