//! The codes of DWARF, each a number of its own kind (DWARF 5, 7).

pub(crate) mod attributes;
pub(crate) mod forms;
pub(crate) mod languages;
pub(crate) mod tags;

/// The code of a tag, of 16 bits (DWARF 5, 7.5.3, table 7.3).
#[derive(Clone, Copy, Debug, PartialEq, Eq, PartialOrd, Ord, Hash)]
pub struct DwTag(pub u16);

/// The code of an attribute's name, of 16 bits (DWARF 5, 7.5.4, table 7.5).
#[derive(Clone, Copy, Debug, PartialEq, Eq, PartialOrd, Ord, Hash)]
pub struct DwAt(pub u16);

/// The code of an attribute's form, of 16 bits (DWARF 5, 7.5.6, table 7.6).
#[derive(Clone, Copy, Debug, PartialEq, Eq, PartialOrd, Ord, Hash)]
pub struct DwForm(pub u16);

/// The code of a language, of 16 bits (DWARF 5, 7.12, table 7.17).
#[derive(Clone, Copy, Debug, PartialEq, Eq, PartialOrd, Ord, Hash)]
pub struct DwLang(pub u16);

/// The code of a unit's type (DWARF 5, 7.5.1, table 7.2).
#[derive(Clone, Copy, Debug, PartialEq, Eq, PartialOrd, Ord, Hash)]
pub struct DwUt(pub u8);

/// The code of an entry of a range list (DWARF 5, 7.25, table 7.30).
#[derive(Clone, Copy, Debug, PartialEq, Eq, PartialOrd, Ord, Hash)]
pub struct DwRle(pub u8);

/// The code of an entry of a location list (DWARF 5, 7.7.3, table 7.10).
#[derive(Clone, Copy, Debug, PartialEq, Eq, PartialOrd, Ord, Hash)]
pub struct DwLle(pub u8);

/// The code of the encoding of a base type (DWARF 5, 7.8, table 7.11).
#[derive(Clone, Copy, Debug, PartialEq, Eq, PartialOrd, Ord, Hash)]
pub struct DwAte(pub u8);

/// The code of how a decimal number has its sign (DWARF 5, 7.8, table 7.12).
#[derive(Clone, Copy, Debug, PartialEq, Eq, PartialOrd, Ord, Hash)]
pub struct DwDs(pub u8);

/// The code of a byte order (DWARF 5, 7.8, table 7.13).
#[derive(Clone, Copy, Debug, PartialEq, Eq, PartialOrd, Ord, Hash)]
pub struct DwEnd(pub u8);

/// The code of who may use a member (DWARF 5, 7.9, table 7.14).
#[derive(Clone, Copy, Debug, PartialEq, Eq, PartialOrd, Ord, Hash)]
pub struct DwAccess(pub u8);

/// The code of where a declaration is seen (DWARF 5, 7.10, table 7.15).
#[derive(Clone, Copy, Debug, PartialEq, Eq, PartialOrd, Ord, Hash)]
pub struct DwVis(pub u8);

/// The code of whether a member is virtual (DWARF 5, 7.11, table 7.16).
#[derive(Clone, Copy, Debug, PartialEq, Eq, PartialOrd, Ord, Hash)]
pub struct DwVirtuality(pub u8);

/// The code of a class of addresses (DWARF 5, 7.13).
#[derive(Clone, Copy, Debug, PartialEq, Eq, PartialOrd, Ord, Hash)]
pub struct DwAddr(pub u64);

/// The code of how the case of letters in identifiers counts (DWARF 5, 7.14, table 7.18).
#[derive(Clone, Copy, Debug, PartialEq, Eq, PartialOrd, Ord, Hash)]
pub struct DwId(pub u8);

/// The code of a calling convention (DWARF 5, 7.15, table 7.19).
#[derive(Clone, Copy, Debug, PartialEq, Eq, PartialOrd, Ord, Hash)]
pub struct DwCc(pub u8);

/// The code of whether a function is inlined (DWARF 5, 7.16, table 7.20).
#[derive(Clone, Copy, Debug, PartialEq, Eq, PartialOrd, Ord, Hash)]
pub struct DwInl(pub u8);

/// The code of the order of the elements of an array (DWARF 5, 7.17, table 7.21).
#[derive(Clone, Copy, Debug, PartialEq, Eq, PartialOrd, Ord, Hash)]
pub struct DwOrd(pub u8);

/// The byte of a declaration whose entries have no children (DWARF 5, 7.5.3, table 7.4).
pub const DW_CHILDREN_no: u8 = 0x00;
/// The byte of a declaration whose entries have children.
pub const DW_CHILDREN_yes: u8 = 0x01;

/// The code of a compilation unit (DWARF 5, 7.5.1.1).
pub const DW_UT_compile: DwUt = DwUt(0x01);
/// The code of a type unit (DWARF 5, 7.5.1.3).
pub const DW_UT_type: DwUt = DwUt(0x02);
/// The code of a partial unit (DWARF 5, 7.5.1.1).
pub const DW_UT_partial: DwUt = DwUt(0x03);
/// The code of a skeleton unit (DWARF 5, 7.5.1.2).
pub const DW_UT_skeleton: DwUt = DwUt(0x04);
/// The code of a split compilation unit (DWARF 5, 7.5.1.2).
pub const DW_UT_split_compile: DwUt = DwUt(0x05);
/// The code of a type unit of a split file (DWARF 5, 7.5.1.3).
pub const DW_UT_split_type: DwUt = DwUt(0x06);
// The first and the last code of vendors
pub const DW_UT_lo_user: DwUt = DwUt(0x80);

pub const DW_UT_hi_user: DwUt = DwUt(0xff);

// Entries of range lists
pub const DW_RLE_end_of_list: DwRle = DwRle(0x00);

pub const DW_RLE_base_addressx: DwRle = DwRle(0x01);

pub const DW_RLE_startx_endx: DwRle = DwRle(0x02);

pub const DW_RLE_startx_length: DwRle = DwRle(0x03);

pub const DW_RLE_offset_pair: DwRle = DwRle(0x04);

pub const DW_RLE_base_address: DwRle = DwRle(0x05);

pub const DW_RLE_start_end: DwRle = DwRle(0x06);

pub const DW_RLE_start_length: DwRle = DwRle(0x07);

// Entries of location lists
pub const DW_LLE_end_of_list: DwLle = DwLle(0x00);

pub const DW_LLE_base_addressx: DwLle = DwLle(0x01);

pub const DW_LLE_startx_endx: DwLle = DwLle(0x02);

pub const DW_LLE_startx_length: DwLle = DwLle(0x03);

pub const DW_LLE_offset_pair: DwLle = DwLle(0x04);

pub const DW_LLE_default_location: DwLle = DwLle(0x05);

pub const DW_LLE_base_address: DwLle = DwLle(0x06);

pub const DW_LLE_start_end: DwLle = DwLle(0x07);

pub const DW_LLE_start_length: DwLle = DwLle(0x08);

// Of GNU
pub const DW_LLE_GNU_view_pair: DwLle = DwLle(0x09);

// Encodings of base types
pub const DW_ATE_address: DwAte = DwAte(0x01);

pub const DW_ATE_boolean: DwAte = DwAte(0x02);

pub const DW_ATE_complex_float: DwAte = DwAte(0x03);

pub const DW_ATE_float: DwAte = DwAte(0x04);

pub const DW_ATE_signed: DwAte = DwAte(0x05);

pub const DW_ATE_signed_char: DwAte = DwAte(0x06);

pub const DW_ATE_unsigned: DwAte = DwAte(0x07);

pub const DW_ATE_unsigned_char: DwAte = DwAte(0x08);

pub const DW_ATE_imaginary_float: DwAte = DwAte(0x09);

pub const DW_ATE_packed_decimal: DwAte = DwAte(0x0a);

pub const DW_ATE_numeric_string: DwAte = DwAte(0x0b);

pub const DW_ATE_edited: DwAte = DwAte(0x0c);

pub const DW_ATE_signed_fixed: DwAte = DwAte(0x0d);

pub const DW_ATE_unsigned_fixed: DwAte = DwAte(0x0e);

pub const DW_ATE_decimal_float: DwAte = DwAte(0x0f);

pub const DW_ATE_UTF: DwAte = DwAte(0x10);

pub const DW_ATE_UCS: DwAte = DwAte(0x11);

pub const DW_ATE_ASCII: DwAte = DwAte(0x12);

// The first and the last code of vendors
pub const DW_ATE_lo_user: DwAte = DwAte(0x80);

pub const DW_ATE_hi_user: DwAte = DwAte(0xff);

// Signs of decimal numbers
pub const DW_DS_unsigned: DwDs = DwDs(0x01);

pub const DW_DS_leading_overpunch: DwDs = DwDs(0x02);

pub const DW_DS_trailing_overpunch: DwDs = DwDs(0x03);

pub const DW_DS_leading_separate: DwDs = DwDs(0x04);

pub const DW_DS_trailing_separate: DwDs = DwDs(0x05);

// Byte orders
pub const DW_END_default: DwEnd = DwEnd(0x00);

pub const DW_END_big: DwEnd = DwEnd(0x01);

pub const DW_END_little: DwEnd = DwEnd(0x02);

// The first and the last code of vendors
pub const DW_END_lo_user: DwEnd = DwEnd(0x40);

pub const DW_END_hi_user: DwEnd = DwEnd(0xff);

// Who may use a member
pub const DW_ACCESS_public: DwAccess = DwAccess(0x01);

pub const DW_ACCESS_protected: DwAccess = DwAccess(0x02);

pub const DW_ACCESS_private: DwAccess = DwAccess(0x03);

// Where a declaration is seen
pub const DW_VIS_local: DwVis = DwVis(0x01);

pub const DW_VIS_exported: DwVis = DwVis(0x02);

pub const DW_VIS_qualified: DwVis = DwVis(0x03);

// Whether a member is virtual
pub const DW_VIRTUALITY_none: DwVirtuality = DwVirtuality(0x00);

pub const DW_VIRTUALITY_virtual: DwVirtuality = DwVirtuality(0x01);

pub const DW_VIRTUALITY_pure_virtual: DwVirtuality = DwVirtuality(0x02);

// Classes of addresses
pub const DW_ADDR_none: DwAddr = DwAddr(0x00);

// Cases of identifiers
pub const DW_ID_case_sensitive: DwId = DwId(0x00);

pub const DW_ID_up_case: DwId = DwId(0x01);

pub const DW_ID_down_case: DwId = DwId(0x02);

pub const DW_ID_case_insensitive: DwId = DwId(0x03);

// Calling conventions
pub const DW_CC_normal: DwCc = DwCc(0x01);

pub const DW_CC_program: DwCc = DwCc(0x02);

pub const DW_CC_nocall: DwCc = DwCc(0x03);

pub const DW_CC_pass_by_reference: DwCc = DwCc(0x04);

pub const DW_CC_pass_by_value: DwCc = DwCc(0x05);

// The first and the last code of vendors
pub const DW_CC_lo_user: DwCc = DwCc(0x40);

pub const DW_CC_hi_user: DwCc = DwCc(0xff);

// Of GNU
pub const DW_CC_GNU_renesas_sh: DwCc = DwCc(0x40);

pub const DW_CC_GNU_borland_fastcall_i386: DwCc = DwCc(0x41);

// Of Borland
pub const DW_CC_BORLAND_safecall: DwCc = DwCc(0xb0);

pub const DW_CC_BORLAND_stdcall: DwCc = DwCc(0xb1);

pub const DW_CC_BORLAND_pascal: DwCc = DwCc(0xb2);

pub const DW_CC_BORLAND_msfastcall: DwCc = DwCc(0xb3);

pub const DW_CC_BORLAND_msreturn: DwCc = DwCc(0xb4);

pub const DW_CC_BORLAND_thiscall: DwCc = DwCc(0xb5);

pub const DW_CC_BORLAND_fastcall: DwCc = DwCc(0xb6);

// Of LLVM
pub const DW_CC_LLVM_vectorcall: DwCc = DwCc(0xc0);

pub const DW_CC_LLVM_Win64: DwCc = DwCc(0xc1);

pub const DW_CC_LLVM_X86_64SysV: DwCc = DwCc(0xc2);

pub const DW_CC_LLVM_AAPCS: DwCc = DwCc(0xc3);

pub const DW_CC_LLVM_AAPCS_VFP: DwCc = DwCc(0xc4);

pub const DW_CC_LLVM_IntelOclBicc: DwCc = DwCc(0xc5);

pub const DW_CC_LLVM_SpirFunction: DwCc = DwCc(0xc6);

pub const DW_CC_LLVM_OpenCLKernel: DwCc = DwCc(0xc7);

pub const DW_CC_LLVM_Swift: DwCc = DwCc(0xc8);

pub const DW_CC_LLVM_PreserveMost: DwCc = DwCc(0xc9);

pub const DW_CC_LLVM_PreserveAll: DwCc = DwCc(0xca);

pub const DW_CC_LLVM_X86RegCall: DwCc = DwCc(0xcb);

// Whether a function is inlined
pub const DW_INL_not_inlined: DwInl = DwInl(0x00);

pub const DW_INL_inlined: DwInl = DwInl(0x01);

pub const DW_INL_declared_not_inlined: DwInl = DwInl(0x02);

pub const DW_INL_declared_inlined: DwInl = DwInl(0x03);

// Orders of elements
pub const DW_ORD_row_major: DwOrd = DwOrd(0x00);

pub const DW_ORD_col_major: DwOrd = DwOrd(0x01);
