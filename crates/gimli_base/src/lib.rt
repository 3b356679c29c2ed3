//! Readers of bytes, offsets, refusals, constants and abbreviations: what every layer of a DWARF
//! reader stands on.
#![tactic(auto)]

mod abbrev;
mod addr;
mod address;
mod attributes;
mod common;
mod constants;
mod endian_slice;
mod endianity;
mod error;
mod expression;
mod leb128;
mod offset;
mod reader;
mod section;
mod step;
mod str;
mod whole_slice;
mod width;
mod words;

pub use abbrev::{Abbreviation, Abbreviations, AttributeSpecification, DebugAbbrev};
pub use addr::DebugAddr;
pub use address::ReaderAddress;
pub use common::{
    DebugAbbrevOffset, DebugAddrBase, DebugAddrIndex, DebugArangesOffset, DebugLineOffset,
    DebugLineStrOffset, DebugLocListsBase, DebugLocListsIndex, DebugMacinfoOffset,
    DebugMacroOffset, DebugRngListsBase, DebugRngListsIndex, DebugStrOffset, DebugStrOffsetsBase,
    DebugStrOffsetsIndex, DebugTypeSignature, DwarfFileType, DwoId, Encoding, Format,
    LocationListsOffset, RangeListsOffset, RawRangeListsOffset, ReaderOffsetId, SectionId,
};
pub use constants::{
    DwAccess, DwAddr, DwAt, DwAte, DwCc, DwDs, DwEnd, DwForm, DwId, DwInl, DwLang, DwLle, DwOrd,
    DwRle, DwTag, DwUt, DwVirtuality, DwVis,
};
pub use endian_slice::EndianSlice;
pub use endianity::{BigEndian, Endianity, LittleEndian, RunTimeEndian};
pub use error::{Error, Result};
pub use expression::Expression;
pub use offset::ReaderOffset;
pub use reader::Reader;
pub use section::Section;
pub use step::Step;
pub use str::DebugStr;
pub use whole_slice::WholeSlice;

// Attributes' names, up to those of version 2
pub use constants::attributes::{
    DW_AT_abstract_origin, DW_AT_accessibility, DW_AT_address_class, DW_AT_artificial,
    DW_AT_base_types, DW_AT_bit_offset, DW_AT_bit_size, DW_AT_bit_stride, DW_AT_byte_size,
    DW_AT_calling_convention, DW_AT_common_reference, DW_AT_comp_dir, DW_AT_const_value,
    DW_AT_containing_type, DW_AT_count, DW_AT_data_member_location, DW_AT_decl_column,
    DW_AT_decl_file, DW_AT_decl_line, DW_AT_declaration, DW_AT_default_value, DW_AT_discr,
    DW_AT_discr_list, DW_AT_discr_value, DW_AT_encoding, DW_AT_external, DW_AT_frame_base,
    DW_AT_friend, DW_AT_high_pc, DW_AT_identifier_case, DW_AT_import, DW_AT_inline,
    DW_AT_is_optional, DW_AT_language, DW_AT_location, DW_AT_low_pc, DW_AT_lower_bound,
    DW_AT_macro_info, DW_AT_name, DW_AT_namelist_item, DW_AT_null, DW_AT_ordering, DW_AT_priority,
    DW_AT_producer, DW_AT_prototyped, DW_AT_return_addr, DW_AT_segment, DW_AT_sibling,
    DW_AT_specification, DW_AT_start_scope, DW_AT_static_link, DW_AT_stmt_list,
    DW_AT_string_length, DW_AT_type, DW_AT_upper_bound, DW_AT_use_location,
    DW_AT_variable_parameter, DW_AT_virtuality, DW_AT_visibility, DW_AT_vtable_elem_location,
};

// Attributes' names since
pub use constants::attributes::{
    DW_AT_addr_base, DW_AT_alignment, DW_AT_allocated, DW_AT_associated, DW_AT_binary_scale,
    DW_AT_byte_stride, DW_AT_call_all_calls, DW_AT_call_all_source_calls,
    DW_AT_call_all_tail_calls, DW_AT_call_column, DW_AT_call_data_location, DW_AT_call_data_value,
    DW_AT_call_file, DW_AT_call_line, DW_AT_call_origin, DW_AT_call_parameter, DW_AT_call_pc,
    DW_AT_call_return_pc, DW_AT_call_tail_call, DW_AT_call_target, DW_AT_call_target_clobbered,
    DW_AT_call_value, DW_AT_const_expr, DW_AT_data_bit_offset, DW_AT_data_location,
    DW_AT_decimal_scale, DW_AT_decimal_sign, DW_AT_defaulted, DW_AT_deleted, DW_AT_description,
    DW_AT_digit_count, DW_AT_dwo_name, DW_AT_elemental, DW_AT_endianity, DW_AT_entry_pc,
    DW_AT_enum_class, DW_AT_explicit, DW_AT_export_symbols, DW_AT_extension, DW_AT_linkage_name,
    DW_AT_loclists_base, DW_AT_macros, DW_AT_main_subprogram, DW_AT_mutable, DW_AT_noreturn,
    DW_AT_object_pointer, DW_AT_picture_string, DW_AT_pure, DW_AT_ranges, DW_AT_rank,
    DW_AT_recursive, DW_AT_reference, DW_AT_rnglists_base, DW_AT_rvalue_reference, DW_AT_signature,
    DW_AT_small, DW_AT_str_offsets_base, DW_AT_string_length_bit_size,
    DW_AT_string_length_byte_size, DW_AT_threads_scaled, DW_AT_trampoline, DW_AT_use_UTF8,
};

// Attributes' names of vendors
pub use constants::attributes::{
    DW_AT_APPLE_block, DW_AT_APPLE_flags, DW_AT_APPLE_isa, DW_AT_APPLE_major_runtime_vers,
    DW_AT_APPLE_objc_complete_type, DW_AT_APPLE_objc_direct, DW_AT_APPLE_omit_frame_ptr,
    DW_AT_APPLE_optimized, DW_AT_APPLE_property, DW_AT_APPLE_property_attribute,
    DW_AT_APPLE_property_getter, DW_AT_APPLE_property_name, DW_AT_APPLE_property_setter,
    DW_AT_APPLE_runtime_class, DW_AT_APPLE_sdk, DW_AT_GNAT_descriptive_type, DW_AT_GNU_addr_base,
    DW_AT_GNU_all_call_sites, DW_AT_GNU_all_source_call_sites, DW_AT_GNU_all_tail_call_sites,
    DW_AT_GNU_bias, DW_AT_GNU_call_site_data_value, DW_AT_GNU_call_site_target,
    DW_AT_GNU_call_site_target_clobbered, DW_AT_GNU_call_site_value, DW_AT_GNU_deleted,
    DW_AT_GNU_denominator, DW_AT_GNU_discriminator, DW_AT_GNU_dwo_id, DW_AT_GNU_dwo_name,
    DW_AT_GNU_entry_view, DW_AT_GNU_exclusive_locks_required, DW_AT_GNU_guarded,
    DW_AT_GNU_guarded_by, DW_AT_GNU_locks_excluded, DW_AT_GNU_locviews, DW_AT_GNU_macros,
    DW_AT_GNU_numerator, DW_AT_GNU_odr_signature, DW_AT_GNU_pt_guarded, DW_AT_GNU_pt_guarded_by,
    DW_AT_GNU_pubnames, DW_AT_GNU_pubtypes, DW_AT_GNU_ranges_base, DW_AT_GNU_shared_locks_required,
    DW_AT_GNU_tail_call, DW_AT_GNU_template_name, DW_AT_GNU_vector, DW_AT_LLVM_config_macros,
    DW_AT_LLVM_include_path, DW_AT_LLVM_sysroot, DW_AT_LLVM_tag_offset, DW_AT_MIPS_abstract_name,
    DW_AT_MIPS_allocatable_dopetype, DW_AT_MIPS_assumed_shape_dopetype, DW_AT_MIPS_assumed_size,
    DW_AT_MIPS_clone_origin, DW_AT_MIPS_epilog_begin, DW_AT_MIPS_fde, DW_AT_MIPS_has_inlines,
    DW_AT_MIPS_linkage_name, DW_AT_MIPS_loop_begin, DW_AT_MIPS_loop_unroll_factor,
    DW_AT_MIPS_ptr_dopetype, DW_AT_MIPS_software_pipeline_depth, DW_AT_MIPS_stride,
    DW_AT_MIPS_stride_byte, DW_AT_MIPS_stride_elem, DW_AT_MIPS_tail_loop_begin, DW_AT_PGI_lbase,
    DW_AT_PGI_lstride, DW_AT_PGI_soffset, DW_AT_VMS_rtnbeg_pd_address, DW_AT_body_begin,
    DW_AT_body_end, DW_AT_hi_user, DW_AT_lo_user, DW_AT_mac_info, DW_AT_sf_names, DW_AT_src_coords,
    DW_AT_src_info, DW_AT_upc_threads_scaled, DW_AT_use_GNAT_descriptive_type,
};

// Forms
pub use constants::forms::{
    DW_FORM_GNU_addr_index, DW_FORM_GNU_ref_alt, DW_FORM_GNU_str_index, DW_FORM_GNU_strp_alt,
    DW_FORM_addr, DW_FORM_addrx, DW_FORM_addrx1, DW_FORM_addrx2, DW_FORM_addrx3, DW_FORM_addrx4,
    DW_FORM_block, DW_FORM_block1, DW_FORM_block2, DW_FORM_block4, DW_FORM_data1, DW_FORM_data2,
    DW_FORM_data4, DW_FORM_data8, DW_FORM_data16, DW_FORM_exprloc, DW_FORM_flag,
    DW_FORM_flag_present, DW_FORM_implicit_const, DW_FORM_indirect, DW_FORM_line_strp,
    DW_FORM_loclistx, DW_FORM_null, DW_FORM_own_addrx_offset, DW_FORM_ref_addr, DW_FORM_ref_sig8,
    DW_FORM_ref_sup4, DW_FORM_ref_sup8, DW_FORM_ref_udata, DW_FORM_ref1, DW_FORM_ref2,
    DW_FORM_ref4, DW_FORM_ref8, DW_FORM_rnglistx, DW_FORM_sdata, DW_FORM_sec_offset,
    DW_FORM_string, DW_FORM_strp, DW_FORM_strp_sup, DW_FORM_strx, DW_FORM_strx1, DW_FORM_strx2,
    DW_FORM_strx3, DW_FORM_strx4, DW_FORM_udata,
};

// Languages
pub use constants::languages::{
    DW_LANG_ALTIUM_Assembler, DW_LANG_Ada83, DW_LANG_Ada95, DW_LANG_Ada2005, DW_LANG_Ada2012,
    DW_LANG_Assembly, DW_LANG_BLISS, DW_LANG_BORLAND_Delphi, DW_LANG_C, DW_LANG_C_plus_plus,
    DW_LANG_C_plus_plus_03, DW_LANG_C_plus_plus_11, DW_LANG_C_plus_plus_14, DW_LANG_C_plus_plus_17,
    DW_LANG_C_plus_plus_20, DW_LANG_C11, DW_LANG_C17, DW_LANG_C89, DW_LANG_C99, DW_LANG_Cobol74,
    DW_LANG_Cobol85, DW_LANG_Crystal, DW_LANG_D, DW_LANG_Dylan, DW_LANG_Fortran03,
    DW_LANG_Fortran08, DW_LANG_Fortran18, DW_LANG_Fortran77, DW_LANG_Fortran90, DW_LANG_Fortran95,
    DW_LANG_GOOGLE_RenderScript, DW_LANG_Go, DW_LANG_HIP, DW_LANG_Haskell, DW_LANG_Java,
    DW_LANG_Julia, DW_LANG_Kotlin, DW_LANG_Mips_Assembler, DW_LANG_Modula2, DW_LANG_Modula3,
    DW_LANG_OCaml, DW_LANG_ObjC, DW_LANG_ObjC_plus_plus, DW_LANG_OpenCL, DW_LANG_PLI,
    DW_LANG_Pascal83, DW_LANG_Python, DW_LANG_RenderScript, DW_LANG_Rust, DW_LANG_SUN_Assembler,
    DW_LANG_Swift, DW_LANG_UPC, DW_LANG_Zig, DW_LANG_hi_user, DW_LANG_lo_user,
};

// Tags
pub use constants::tags::{
    DW_TAG_access_declaration, DW_TAG_array_type, DW_TAG_atomic_type, DW_TAG_base_type,
    DW_TAG_call_site, DW_TAG_call_site_parameter, DW_TAG_catch_block, DW_TAG_class_type,
    DW_TAG_coarray_type, DW_TAG_common_block, DW_TAG_common_inclusion, DW_TAG_compile_unit,
    DW_TAG_condition, DW_TAG_const_type, DW_TAG_constant, DW_TAG_dwarf_procedure,
    DW_TAG_dynamic_type, DW_TAG_entry_point, DW_TAG_enumeration_type, DW_TAG_enumerator,
    DW_TAG_file_type, DW_TAG_formal_parameter, DW_TAG_friend, DW_TAG_generic_subrange,
    DW_TAG_immutable_type, DW_TAG_imported_declaration, DW_TAG_imported_module,
    DW_TAG_imported_unit, DW_TAG_inheritance, DW_TAG_inlined_subroutine, DW_TAG_interface_type,
    DW_TAG_label, DW_TAG_lexical_block, DW_TAG_member, DW_TAG_module, DW_TAG_namelist,
    DW_TAG_namelist_item, DW_TAG_namespace, DW_TAG_null, DW_TAG_packed_type, DW_TAG_partial_unit,
    DW_TAG_pointer_type, DW_TAG_ptr_to_member_type, DW_TAG_reference_type, DW_TAG_restrict_type,
    DW_TAG_rvalue_reference_type, DW_TAG_set_type, DW_TAG_shared_type, DW_TAG_skeleton_unit,
    DW_TAG_string_type, DW_TAG_structure_type, DW_TAG_subprogram, DW_TAG_subrange_type,
    DW_TAG_subroutine_type, DW_TAG_template_alias, DW_TAG_template_type_parameter,
    DW_TAG_template_value_parameter, DW_TAG_thrown_type, DW_TAG_try_block, DW_TAG_type_unit,
    DW_TAG_typedef, DW_TAG_union_type, DW_TAG_unspecified_parameters, DW_TAG_unspecified_type,
    DW_TAG_variable, DW_TAG_variant, DW_TAG_variant_part, DW_TAG_volatile_type, DW_TAG_with_stmt,
};

// Tags of vendors
pub use constants::tags::{
    DW_TAG_APPLE_property, DW_TAG_BORLAND_Delphi_dynamic_array, DW_TAG_BORLAND_Delphi_set,
    DW_TAG_BORLAND_Delphi_string, DW_TAG_BORLAND_Delphi_variant, DW_TAG_BORLAND_property,
    DW_TAG_GNU_BINCL, DW_TAG_GNU_EINCL, DW_TAG_GNU_call_site, DW_TAG_GNU_call_site_parameter,
    DW_TAG_GNU_formal_parameter_pack, DW_TAG_GNU_template_parameter_pack,
    DW_TAG_GNU_template_template_param, DW_TAG_LLVM_annotation, DW_TAG_MIPS_loop,
    DW_TAG_PGI_interface_block, DW_TAG_PGI_kanji_type, DW_TAG_class_template, DW_TAG_format_label,
    DW_TAG_function_template, DW_TAG_hi_user, DW_TAG_lo_user, DW_TAG_upc_relaxed_type,
    DW_TAG_upc_shared_type, DW_TAG_upc_strict_type,
};

// Codes of one byte
pub use constants::{
    DW_ACCESS_private, DW_ACCESS_protected, DW_ACCESS_public, DW_ADDR_none, DW_ATE_ASCII,
    DW_ATE_UCS, DW_ATE_UTF, DW_ATE_address, DW_ATE_boolean, DW_ATE_complex_float,
    DW_ATE_decimal_float, DW_ATE_edited, DW_ATE_float, DW_ATE_hi_user, DW_ATE_imaginary_float,
    DW_ATE_lo_user, DW_ATE_numeric_string, DW_ATE_packed_decimal, DW_ATE_signed,
    DW_ATE_signed_char, DW_ATE_signed_fixed, DW_ATE_unsigned, DW_ATE_unsigned_char,
    DW_ATE_unsigned_fixed, DW_DS_leading_overpunch, DW_DS_leading_separate,
    DW_DS_trailing_overpunch, DW_DS_trailing_separate, DW_DS_unsigned, DW_END_big, DW_END_default,
    DW_END_hi_user, DW_END_little, DW_END_lo_user, DW_ID_case_insensitive, DW_ID_case_sensitive,
    DW_ID_down_case, DW_ID_up_case, DW_INL_declared_inlined, DW_INL_declared_not_inlined,
    DW_INL_inlined, DW_INL_not_inlined, DW_ORD_col_major, DW_ORD_row_major, DW_VIRTUALITY_none,
    DW_VIRTUALITY_pure_virtual, DW_VIRTUALITY_virtual, DW_VIS_exported, DW_VIS_local,
    DW_VIS_qualified,
};

// Codes of units, lists and calls
pub use constants::{
    DW_CC_BORLAND_fastcall, DW_CC_BORLAND_msfastcall, DW_CC_BORLAND_msreturn, DW_CC_BORLAND_pascal,
    DW_CC_BORLAND_safecall, DW_CC_BORLAND_stdcall, DW_CC_BORLAND_thiscall,
    DW_CC_GNU_borland_fastcall_i386, DW_CC_GNU_renesas_sh, DW_CC_LLVM_AAPCS, DW_CC_LLVM_AAPCS_VFP,
    DW_CC_LLVM_IntelOclBicc, DW_CC_LLVM_OpenCLKernel, DW_CC_LLVM_PreserveAll,
    DW_CC_LLVM_PreserveMost, DW_CC_LLVM_SpirFunction, DW_CC_LLVM_Swift, DW_CC_LLVM_Win64,
    DW_CC_LLVM_X86_64SysV, DW_CC_LLVM_X86RegCall, DW_CC_LLVM_vectorcall, DW_CC_hi_user,
    DW_CC_lo_user, DW_CC_nocall, DW_CC_normal, DW_CC_pass_by_reference, DW_CC_pass_by_value,
    DW_CC_program, DW_CHILDREN_no, DW_CHILDREN_yes, DW_LLE_GNU_view_pair, DW_LLE_base_address,
    DW_LLE_base_addressx, DW_LLE_default_location, DW_LLE_end_of_list, DW_LLE_offset_pair,
    DW_LLE_start_end, DW_LLE_start_length, DW_LLE_startx_endx, DW_LLE_startx_length,
    DW_RLE_base_address, DW_RLE_base_addressx, DW_RLE_end_of_list, DW_RLE_offset_pair,
    DW_RLE_start_end, DW_RLE_start_length, DW_RLE_startx_endx, DW_RLE_startx_length, DW_UT_compile,
    DW_UT_hi_user, DW_UT_lo_user, DW_UT_partial, DW_UT_skeleton, DW_UT_split_compile,
    DW_UT_split_type, DW_UT_type,
};
