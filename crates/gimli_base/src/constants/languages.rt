//! The codes of languages (DWARF 5, 7.12, table 7.17).

use super::DwLang;

// Of the standard
pub const DW_LANG_C89: DwLang = DwLang(0x0001);

pub const DW_LANG_C: DwLang = DwLang(0x0002);

pub const DW_LANG_Ada83: DwLang = DwLang(0x0003);

pub const DW_LANG_C_plus_plus: DwLang = DwLang(0x0004);

pub const DW_LANG_Cobol74: DwLang = DwLang(0x0005);

pub const DW_LANG_Cobol85: DwLang = DwLang(0x0006);

pub const DW_LANG_Fortran77: DwLang = DwLang(0x0007);

pub const DW_LANG_Fortran90: DwLang = DwLang(0x0008);

pub const DW_LANG_Pascal83: DwLang = DwLang(0x0009);

pub const DW_LANG_Modula2: DwLang = DwLang(0x000a);

pub const DW_LANG_Java: DwLang = DwLang(0x000b);

pub const DW_LANG_C99: DwLang = DwLang(0x000c);

pub const DW_LANG_Ada95: DwLang = DwLang(0x000d);

pub const DW_LANG_Fortran95: DwLang = DwLang(0x000e);

pub const DW_LANG_PLI: DwLang = DwLang(0x000f);

pub const DW_LANG_ObjC: DwLang = DwLang(0x0010);

pub const DW_LANG_ObjC_plus_plus: DwLang = DwLang(0x0011);

pub const DW_LANG_UPC: DwLang = DwLang(0x0012);

pub const DW_LANG_D: DwLang = DwLang(0x0013);

pub const DW_LANG_Python: DwLang = DwLang(0x0014);

pub const DW_LANG_OpenCL: DwLang = DwLang(0x0015);

pub const DW_LANG_Go: DwLang = DwLang(0x0016);

pub const DW_LANG_Modula3: DwLang = DwLang(0x0017);

pub const DW_LANG_Haskell: DwLang = DwLang(0x0018);

pub const DW_LANG_C_plus_plus_03: DwLang = DwLang(0x0019);

pub const DW_LANG_C_plus_plus_11: DwLang = DwLang(0x001a);

pub const DW_LANG_OCaml: DwLang = DwLang(0x001b);

pub const DW_LANG_Rust: DwLang = DwLang(0x001c);

pub const DW_LANG_C11: DwLang = DwLang(0x001d);

pub const DW_LANG_Swift: DwLang = DwLang(0x001e);

pub const DW_LANG_Julia: DwLang = DwLang(0x001f);

pub const DW_LANG_Dylan: DwLang = DwLang(0x0020);

pub const DW_LANG_C_plus_plus_14: DwLang = DwLang(0x0021);

pub const DW_LANG_Fortran03: DwLang = DwLang(0x0022);

pub const DW_LANG_Fortran08: DwLang = DwLang(0x0023);

pub const DW_LANG_RenderScript: DwLang = DwLang(0x0024);

pub const DW_LANG_BLISS: DwLang = DwLang(0x0025);

// Given out since by the committee of DWARF
pub const DW_LANG_Kotlin: DwLang = DwLang(0x0026);

pub const DW_LANG_Zig: DwLang = DwLang(0x0027);

pub const DW_LANG_Crystal: DwLang = DwLang(0x0028);

pub const DW_LANG_C_plus_plus_17: DwLang = DwLang(0x002a);

pub const DW_LANG_C_plus_plus_20: DwLang = DwLang(0x002b);

pub const DW_LANG_C17: DwLang = DwLang(0x002c);

pub const DW_LANG_Fortran18: DwLang = DwLang(0x002d);

pub const DW_LANG_Ada2005: DwLang = DwLang(0x002e);

pub const DW_LANG_Ada2012: DwLang = DwLang(0x002f);

pub const DW_LANG_HIP: DwLang = DwLang(0x0030);

pub const DW_LANG_Assembly: DwLang = DwLang(0x0031);

// The first and the last code of vendors
pub const DW_LANG_lo_user: DwLang = DwLang(0x8000);

pub const DW_LANG_hi_user: DwLang = DwLang(0xffff);

// Of vendors
pub const DW_LANG_Mips_Assembler: DwLang = DwLang(0x8001);

pub const DW_LANG_GOOGLE_RenderScript: DwLang = DwLang(0x8e57);

pub const DW_LANG_SUN_Assembler: DwLang = DwLang(0x9001);

pub const DW_LANG_ALTIUM_Assembler: DwLang = DwLang(0x9101);

pub const DW_LANG_BORLAND_Delphi: DwLang = DwLang(0xb000);
