//! The numbers of the codes.

use gimli_base::*;
use test_tables::{Case, Outcome, Stop, Text};

// Codes: the name of each, and its number.
type Codes = &'static [(&'static str, u64)];

// The codes with these names.
macro_rules! codes {
    ($($code:ident)*) => {
        &[$((stringify!($code), $code.0 as u64)),*]
    };
}

/// Writes the number of a code's name.
pub(crate) fn write_code(case: &Case, out: &mut Text) -> Outcome {
    let name = case.word(1).unwrap_or("");
    let codes = match name.split("_").nth(1) {
        Some("TAG") => TAGS,
        Some("AT") => ATTRIBUTES,
        Some("FORM") => FORMS,
        Some("LANG") => LANGUAGES,
        Some("UT") => UNIT_TYPES,
        Some("RLE" | "LLE") => LIST_ENTRIES,
        Some("ATE" | "DS" | "END") => BASE_TYPES,
        Some("CC") => CONVENTIONS,
        Some("CHILDREN") => CHILDREN,
        _ => OTHERS,
    };
    let number = number_in(codes, name).ok_or(Stop::Lacks("no such code"))?;
    writeln!(out, "0x{number:x}");
    Ok(())
}

// The number of a name among codes.
fn number_in(codes: Codes, name: &str) -> Option<u64> {
    for (own, number) in codes {
        if *own == name {
            return Some(*number);
        }
    }
    None
}

// Tags.
static TAGS: Codes = codes![
    DW_TAG_null DW_TAG_array_type DW_TAG_class_type DW_TAG_formal_parameter DW_TAG_compile_unit
    DW_TAG_structure_type DW_TAG_base_type DW_TAG_subprogram DW_TAG_variable DW_TAG_imported_unit
    DW_TAG_condition DW_TAG_type_unit DW_TAG_call_site_parameter DW_TAG_skeleton_unit
    DW_TAG_immutable_type DW_TAG_lo_user DW_TAG_MIPS_loop DW_TAG_GNU_call_site
    DW_TAG_GNU_call_site_parameter DW_TAG_APPLE_property DW_TAG_LLVM_annotation
    DW_TAG_PGI_interface_block DW_TAG_BORLAND_Delphi_variant DW_TAG_hi_user
];

// Names of attributes.
static ATTRIBUTES: Codes = codes![
    DW_AT_null DW_AT_sibling DW_AT_location DW_AT_name DW_AT_ordering DW_AT_byte_size DW_AT_low_pc
    DW_AT_high_pc DW_AT_producer DW_AT_data_member_location DW_AT_macro_info DW_AT_type
    DW_AT_vtable_elem_location DW_AT_ranges DW_AT_linkage_name DW_AT_str_offsets_base
    DW_AT_rnglists_base DW_AT_dwo_name DW_AT_call_data_value DW_AT_defaulted DW_AT_loclists_base
    DW_AT_lo_user DW_AT_MIPS_fde DW_AT_MIPS_linkage_name DW_AT_MIPS_assumed_size DW_AT_sf_names
    DW_AT_GNU_vector DW_AT_GNU_call_site_value DW_AT_GNU_all_call_sites DW_AT_GNU_dwo_name
    DW_AT_GNU_dwo_id DW_AT_GNU_addr_base DW_AT_GNU_entry_view DW_AT_GNAT_descriptive_type
    DW_AT_GNU_bias DW_AT_PGI_lstride DW_AT_LLVM_include_path DW_AT_LLVM_tag_offset
    DW_AT_APPLE_optimized DW_AT_APPLE_sdk DW_AT_hi_user
];

// Forms.
static FORMS: Codes = codes![
    DW_FORM_null DW_FORM_addr DW_FORM_block2 DW_FORM_data2 DW_FORM_string DW_FORM_block1
    DW_FORM_data1 DW_FORM_udata DW_FORM_ref_addr DW_FORM_ref_udata DW_FORM_indirect
    DW_FORM_sec_offset DW_FORM_flag_present DW_FORM_data16 DW_FORM_line_strp DW_FORM_ref_sig8
    DW_FORM_implicit_const DW_FORM_rnglistx DW_FORM_strx1 DW_FORM_strx4 DW_FORM_addrx4
    DW_FORM_GNU_addr_index DW_FORM_GNU_str_index DW_FORM_GNU_ref_alt DW_FORM_GNU_strp_alt
    DW_FORM_own_addrx_offset
];

// Languages.
static LANGUAGES: Codes = codes![
    DW_LANG_C89 DW_LANG_C DW_LANG_C_plus_plus DW_LANG_Java DW_LANG_C99 DW_LANG_C_plus_plus_11
    DW_LANG_Rust DW_LANG_C11 DW_LANG_C_plus_plus_14 DW_LANG_BLISS DW_LANG_Zig
    DW_LANG_C_plus_plus_17 DW_LANG_C17 DW_LANG_Assembly DW_LANG_lo_user DW_LANG_Mips_Assembler
    DW_LANG_GOOGLE_RenderScript DW_LANG_BORLAND_Delphi DW_LANG_hi_user
];

// Types of units.
static UNIT_TYPES: Codes = codes![
    DW_UT_compile DW_UT_type DW_UT_partial DW_UT_skeleton DW_UT_split_compile DW_UT_split_type
    DW_UT_lo_user DW_UT_hi_user
];

// Entries of lists.
static LIST_ENTRIES: Codes = codes![
    DW_RLE_end_of_list DW_RLE_base_addressx DW_RLE_startx_endx DW_RLE_startx_length
    DW_RLE_offset_pair DW_RLE_base_address DW_RLE_start_end DW_RLE_start_length DW_LLE_end_of_list
    DW_LLE_base_addressx DW_LLE_startx_endx DW_LLE_startx_length DW_LLE_offset_pair
    DW_LLE_default_location DW_LLE_base_address DW_LLE_start_end DW_LLE_start_length
    DW_LLE_GNU_view_pair
];

// What base types tell: encodings, signs and byte orders.
static BASE_TYPES: Codes = codes![
    DW_ATE_address DW_ATE_boolean DW_ATE_signed DW_ATE_unsigned_char DW_ATE_decimal_float
    DW_ATE_UTF DW_ATE_ASCII DW_ATE_lo_user DW_ATE_hi_user DW_DS_unsigned DW_DS_leading_overpunch
    DW_DS_trailing_overpunch DW_DS_leading_separate DW_DS_trailing_separate DW_END_default
    DW_END_big DW_END_little DW_END_lo_user DW_END_hi_user
];

// Calling conventions.
static CONVENTIONS: Codes = codes![
    DW_CC_normal DW_CC_program DW_CC_nocall DW_CC_pass_by_reference DW_CC_pass_by_value
    DW_CC_lo_user DW_CC_GNU_renesas_sh DW_CC_GNU_borland_fastcall_i386 DW_CC_BORLAND_safecall
    DW_CC_BORLAND_fastcall DW_CC_LLVM_vectorcall DW_CC_LLVM_Swift DW_CC_LLVM_X86RegCall
    DW_CC_hi_user
];

// Flags of children.
static CHILDREN: Codes = &[
    ("DW_CHILDREN_no", DW_CHILDREN_no as u64),
    ("DW_CHILDREN_yes", DW_CHILDREN_yes as u64),
];

// The other codes.
static OTHERS: Codes = codes![
    DW_ACCESS_public DW_ACCESS_protected DW_ACCESS_private DW_VIS_local DW_VIS_exported
    DW_VIS_qualified DW_VIRTUALITY_none DW_VIRTUALITY_virtual DW_VIRTUALITY_pure_virtual
    DW_ID_case_sensitive DW_ID_up_case DW_ID_down_case DW_ID_case_insensitive DW_ORD_row_major
    DW_ORD_col_major DW_INL_not_inlined DW_INL_inlined DW_INL_declared_not_inlined
    DW_INL_declared_inlined DW_ADDR_none
];
