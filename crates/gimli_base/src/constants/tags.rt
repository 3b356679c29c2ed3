//! The codes of tags (DWARF 5, 7.5.3, table 7.3).

use super::DwTag;

/// The tag of a null entry, which closes a list of children.
pub const DW_TAG_null: DwTag = DwTag(0x00);

// Of the standard
pub const DW_TAG_array_type: DwTag = DwTag(0x01);

pub const DW_TAG_class_type: DwTag = DwTag(0x02);

pub const DW_TAG_entry_point: DwTag = DwTag(0x03);

pub const DW_TAG_enumeration_type: DwTag = DwTag(0x04);

pub const DW_TAG_formal_parameter: DwTag = DwTag(0x05);

pub const DW_TAG_imported_declaration: DwTag = DwTag(0x08);

pub const DW_TAG_label: DwTag = DwTag(0x0a);

pub const DW_TAG_lexical_block: DwTag = DwTag(0x0b);

pub const DW_TAG_member: DwTag = DwTag(0x0d);

pub const DW_TAG_pointer_type: DwTag = DwTag(0x0f);

pub const DW_TAG_reference_type: DwTag = DwTag(0x10);

pub const DW_TAG_compile_unit: DwTag = DwTag(0x11);

pub const DW_TAG_string_type: DwTag = DwTag(0x12);

pub const DW_TAG_structure_type: DwTag = DwTag(0x13);

pub const DW_TAG_subroutine_type: DwTag = DwTag(0x15);

pub const DW_TAG_typedef: DwTag = DwTag(0x16);

pub const DW_TAG_union_type: DwTag = DwTag(0x17);

pub const DW_TAG_unspecified_parameters: DwTag = DwTag(0x18);

pub const DW_TAG_variant: DwTag = DwTag(0x19);

pub const DW_TAG_common_block: DwTag = DwTag(0x1a);

pub const DW_TAG_common_inclusion: DwTag = DwTag(0x1b);

pub const DW_TAG_inheritance: DwTag = DwTag(0x1c);

pub const DW_TAG_inlined_subroutine: DwTag = DwTag(0x1d);

pub const DW_TAG_module: DwTag = DwTag(0x1e);

pub const DW_TAG_ptr_to_member_type: DwTag = DwTag(0x1f);

pub const DW_TAG_set_type: DwTag = DwTag(0x20);

pub const DW_TAG_subrange_type: DwTag = DwTag(0x21);

pub const DW_TAG_with_stmt: DwTag = DwTag(0x22);

pub const DW_TAG_access_declaration: DwTag = DwTag(0x23);

pub const DW_TAG_base_type: DwTag = DwTag(0x24);

pub const DW_TAG_catch_block: DwTag = DwTag(0x25);

pub const DW_TAG_const_type: DwTag = DwTag(0x26);

pub const DW_TAG_constant: DwTag = DwTag(0x27);

pub const DW_TAG_enumerator: DwTag = DwTag(0x28);

pub const DW_TAG_file_type: DwTag = DwTag(0x29);

pub const DW_TAG_friend: DwTag = DwTag(0x2a);

pub const DW_TAG_namelist: DwTag = DwTag(0x2b);

pub const DW_TAG_namelist_item: DwTag = DwTag(0x2c);

pub const DW_TAG_packed_type: DwTag = DwTag(0x2d);

pub const DW_TAG_subprogram: DwTag = DwTag(0x2e);

pub const DW_TAG_template_type_parameter: DwTag = DwTag(0x2f);

pub const DW_TAG_template_value_parameter: DwTag = DwTag(0x30);

pub const DW_TAG_thrown_type: DwTag = DwTag(0x31);

pub const DW_TAG_try_block: DwTag = DwTag(0x32);

pub const DW_TAG_variant_part: DwTag = DwTag(0x33);

pub const DW_TAG_variable: DwTag = DwTag(0x34);

pub const DW_TAG_volatile_type: DwTag = DwTag(0x35);

pub const DW_TAG_dwarf_procedure: DwTag = DwTag(0x36);

pub const DW_TAG_restrict_type: DwTag = DwTag(0x37);

pub const DW_TAG_interface_type: DwTag = DwTag(0x38);

pub const DW_TAG_namespace: DwTag = DwTag(0x39);

pub const DW_TAG_imported_module: DwTag = DwTag(0x3a);

pub const DW_TAG_unspecified_type: DwTag = DwTag(0x3b);

pub const DW_TAG_partial_unit: DwTag = DwTag(0x3c);

pub const DW_TAG_imported_unit: DwTag = DwTag(0x3d);

pub const DW_TAG_condition: DwTag = DwTag(0x3f);

pub const DW_TAG_shared_type: DwTag = DwTag(0x40);

pub const DW_TAG_type_unit: DwTag = DwTag(0x41);

pub const DW_TAG_rvalue_reference_type: DwTag = DwTag(0x42);

pub const DW_TAG_template_alias: DwTag = DwTag(0x43);

pub const DW_TAG_coarray_type: DwTag = DwTag(0x44);

pub const DW_TAG_generic_subrange: DwTag = DwTag(0x45);

pub const DW_TAG_dynamic_type: DwTag = DwTag(0x46);

pub const DW_TAG_atomic_type: DwTag = DwTag(0x47);

pub const DW_TAG_call_site: DwTag = DwTag(0x48);

pub const DW_TAG_call_site_parameter: DwTag = DwTag(0x49);

pub const DW_TAG_skeleton_unit: DwTag = DwTag(0x4a);

pub const DW_TAG_immutable_type: DwTag = DwTag(0x4b);

// The first and the last code of vendors
pub const DW_TAG_lo_user: DwTag = DwTag(0x4080);

pub const DW_TAG_hi_user: DwTag = DwTag(0xffff);

// Of MIPS
pub const DW_TAG_MIPS_loop: DwTag = DwTag(0x4081);

// Of GNU, and those in use beside them
pub const DW_TAG_format_label: DwTag = DwTag(0x4101);

pub const DW_TAG_function_template: DwTag = DwTag(0x4102);

pub const DW_TAG_class_template: DwTag = DwTag(0x4103);

pub const DW_TAG_GNU_BINCL: DwTag = DwTag(0x4104);

pub const DW_TAG_GNU_EINCL: DwTag = DwTag(0x4105);

pub const DW_TAG_GNU_template_template_param: DwTag = DwTag(0x4106);

pub const DW_TAG_GNU_template_parameter_pack: DwTag = DwTag(0x4107);

pub const DW_TAG_GNU_formal_parameter_pack: DwTag = DwTag(0x4108);

pub const DW_TAG_GNU_call_site: DwTag = DwTag(0x4109);

pub const DW_TAG_GNU_call_site_parameter: DwTag = DwTag(0x410a);

// Of Apple
pub const DW_TAG_APPLE_property: DwTag = DwTag(0x4200);

// Of LLVM
pub const DW_TAG_LLVM_annotation: DwTag = DwTag(0x6000);

// Of Unified Parallel C
pub const DW_TAG_upc_shared_type: DwTag = DwTag(0x8765);

pub const DW_TAG_upc_strict_type: DwTag = DwTag(0x8766);

pub const DW_TAG_upc_relaxed_type: DwTag = DwTag(0x8767);

// Of PGI
pub const DW_TAG_PGI_kanji_type: DwTag = DwTag(0xa000);

pub const DW_TAG_PGI_interface_block: DwTag = DwTag(0xa020);

// Of Borland
pub const DW_TAG_BORLAND_property: DwTag = DwTag(0xb000);

pub const DW_TAG_BORLAND_Delphi_string: DwTag = DwTag(0xb001);

pub const DW_TAG_BORLAND_Delphi_dynamic_array: DwTag = DwTag(0xb002);

pub const DW_TAG_BORLAND_Delphi_set: DwTag = DwTag(0xb003);

pub const DW_TAG_BORLAND_Delphi_variant: DwTag = DwTag(0xb004);
