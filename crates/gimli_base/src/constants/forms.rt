//! The codes of attributes' forms (DWARF 5, 7.5.6, table 7.6).

use super::DwForm;

/// The form that ends a declaration, together with the name of the same number.
pub const DW_FORM_null: DwForm = DwForm(0x00);

// Of the standard
pub const DW_FORM_addr: DwForm = DwForm(0x01);

pub const DW_FORM_block2: DwForm = DwForm(0x03);

pub const DW_FORM_block4: DwForm = DwForm(0x04);

pub const DW_FORM_data2: DwForm = DwForm(0x05);

pub const DW_FORM_data4: DwForm = DwForm(0x06);

pub const DW_FORM_data8: DwForm = DwForm(0x07);

pub const DW_FORM_string: DwForm = DwForm(0x08);

pub const DW_FORM_block: DwForm = DwForm(0x09);

pub const DW_FORM_block1: DwForm = DwForm(0x0a);

pub const DW_FORM_data1: DwForm = DwForm(0x0b);

pub const DW_FORM_flag: DwForm = DwForm(0x0c);

pub const DW_FORM_sdata: DwForm = DwForm(0x0d);

pub const DW_FORM_strp: DwForm = DwForm(0x0e);

pub const DW_FORM_udata: DwForm = DwForm(0x0f);

pub const DW_FORM_ref_addr: DwForm = DwForm(0x10);

pub const DW_FORM_ref1: DwForm = DwForm(0x11);

pub const DW_FORM_ref2: DwForm = DwForm(0x12);

pub const DW_FORM_ref4: DwForm = DwForm(0x13);

pub const DW_FORM_ref8: DwForm = DwForm(0x14);

pub const DW_FORM_ref_udata: DwForm = DwForm(0x15);

pub const DW_FORM_indirect: DwForm = DwForm(0x16);

pub const DW_FORM_sec_offset: DwForm = DwForm(0x17);

pub const DW_FORM_exprloc: DwForm = DwForm(0x18);

pub const DW_FORM_flag_present: DwForm = DwForm(0x19);

pub const DW_FORM_strx: DwForm = DwForm(0x1a);

pub const DW_FORM_addrx: DwForm = DwForm(0x1b);

pub const DW_FORM_ref_sup4: DwForm = DwForm(0x1c);

pub const DW_FORM_strp_sup: DwForm = DwForm(0x1d);

pub const DW_FORM_data16: DwForm = DwForm(0x1e);

pub const DW_FORM_line_strp: DwForm = DwForm(0x1f);

pub const DW_FORM_ref_sig8: DwForm = DwForm(0x20);

pub const DW_FORM_implicit_const: DwForm = DwForm(0x21);

pub const DW_FORM_loclistx: DwForm = DwForm(0x22);

pub const DW_FORM_rnglistx: DwForm = DwForm(0x23);

pub const DW_FORM_ref_sup8: DwForm = DwForm(0x24);

pub const DW_FORM_strx1: DwForm = DwForm(0x25);

pub const DW_FORM_strx2: DwForm = DwForm(0x26);

pub const DW_FORM_strx3: DwForm = DwForm(0x27);

pub const DW_FORM_strx4: DwForm = DwForm(0x28);

pub const DW_FORM_addrx1: DwForm = DwForm(0x29);

pub const DW_FORM_addrx2: DwForm = DwForm(0x2a);

pub const DW_FORM_addrx3: DwForm = DwForm(0x2b);

pub const DW_FORM_addrx4: DwForm = DwForm(0x2c);

// Of GNU
pub const DW_FORM_GNU_addr_index: DwForm = DwForm(0x1f01);

pub const DW_FORM_GNU_str_index: DwForm = DwForm(0x1f02);

pub const DW_FORM_GNU_ref_alt: DwForm = DwForm(0x1f20);

pub const DW_FORM_GNU_strp_alt: DwForm = DwForm(0x1f21);

/// The form of this project's own: the number of an address as LEB128, and then an offset from it
/// in 4 bytes.
pub const DW_FORM_own_addrx_offset: DwForm = DwForm(0x3f01);
