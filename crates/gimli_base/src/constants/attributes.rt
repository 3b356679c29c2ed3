//! The codes of attributes' names (DWARF 5, 7.5.4, table 7.5).

use super::DwAt;

/// The name that ends a declaration, together with the form of the same number.
pub const DW_AT_null: DwAt = DwAt(0x00);

// Of the standard; `bit_offset` and `macro_info` are of its versions up to 4
pub const DW_AT_sibling: DwAt = DwAt(0x01);

pub const DW_AT_location: DwAt = DwAt(0x02);

pub const DW_AT_name: DwAt = DwAt(0x03);

pub const DW_AT_ordering: DwAt = DwAt(0x09);

pub const DW_AT_byte_size: DwAt = DwAt(0x0b);

pub const DW_AT_bit_offset: DwAt = DwAt(0x0c);

pub const DW_AT_bit_size: DwAt = DwAt(0x0d);

pub const DW_AT_stmt_list: DwAt = DwAt(0x10);

pub const DW_AT_low_pc: DwAt = DwAt(0x11);

pub const DW_AT_high_pc: DwAt = DwAt(0x12);

pub const DW_AT_language: DwAt = DwAt(0x13);

pub const DW_AT_discr: DwAt = DwAt(0x15);

pub const DW_AT_discr_value: DwAt = DwAt(0x16);

pub const DW_AT_visibility: DwAt = DwAt(0x17);

pub const DW_AT_import: DwAt = DwAt(0x18);

pub const DW_AT_string_length: DwAt = DwAt(0x19);

pub const DW_AT_common_reference: DwAt = DwAt(0x1a);

pub const DW_AT_comp_dir: DwAt = DwAt(0x1b);

pub const DW_AT_const_value: DwAt = DwAt(0x1c);

pub const DW_AT_containing_type: DwAt = DwAt(0x1d);

pub const DW_AT_default_value: DwAt = DwAt(0x1e);

pub const DW_AT_inline: DwAt = DwAt(0x20);

pub const DW_AT_is_optional: DwAt = DwAt(0x21);

pub const DW_AT_lower_bound: DwAt = DwAt(0x22);

pub const DW_AT_producer: DwAt = DwAt(0x25);

pub const DW_AT_prototyped: DwAt = DwAt(0x27);

pub const DW_AT_return_addr: DwAt = DwAt(0x2a);

pub const DW_AT_start_scope: DwAt = DwAt(0x2c);

pub const DW_AT_bit_stride: DwAt = DwAt(0x2e);

pub const DW_AT_upper_bound: DwAt = DwAt(0x2f);

pub const DW_AT_abstract_origin: DwAt = DwAt(0x31);

pub const DW_AT_accessibility: DwAt = DwAt(0x32);

pub const DW_AT_address_class: DwAt = DwAt(0x33);

pub const DW_AT_artificial: DwAt = DwAt(0x34);

pub const DW_AT_base_types: DwAt = DwAt(0x35);

pub const DW_AT_calling_convention: DwAt = DwAt(0x36);

pub const DW_AT_count: DwAt = DwAt(0x37);

pub const DW_AT_data_member_location: DwAt = DwAt(0x38);

pub const DW_AT_decl_column: DwAt = DwAt(0x39);

pub const DW_AT_decl_file: DwAt = DwAt(0x3a);

pub const DW_AT_decl_line: DwAt = DwAt(0x3b);

pub const DW_AT_declaration: DwAt = DwAt(0x3c);

pub const DW_AT_discr_list: DwAt = DwAt(0x3d);

pub const DW_AT_encoding: DwAt = DwAt(0x3e);

pub const DW_AT_external: DwAt = DwAt(0x3f);

pub const DW_AT_frame_base: DwAt = DwAt(0x40);

pub const DW_AT_friend: DwAt = DwAt(0x41);

pub const DW_AT_identifier_case: DwAt = DwAt(0x42);

pub const DW_AT_macro_info: DwAt = DwAt(0x43);

pub const DW_AT_namelist_item: DwAt = DwAt(0x44);

pub const DW_AT_priority: DwAt = DwAt(0x45);

pub const DW_AT_segment: DwAt = DwAt(0x46);

pub const DW_AT_specification: DwAt = DwAt(0x47);

pub const DW_AT_static_link: DwAt = DwAt(0x48);

pub const DW_AT_type: DwAt = DwAt(0x49);

pub const DW_AT_use_location: DwAt = DwAt(0x4a);

pub const DW_AT_variable_parameter: DwAt = DwAt(0x4b);

pub const DW_AT_virtuality: DwAt = DwAt(0x4c);

pub const DW_AT_vtable_elem_location: DwAt = DwAt(0x4d);

pub const DW_AT_allocated: DwAt = DwAt(0x4e);

pub const DW_AT_associated: DwAt = DwAt(0x4f);

pub const DW_AT_data_location: DwAt = DwAt(0x50);

pub const DW_AT_byte_stride: DwAt = DwAt(0x51);

pub const DW_AT_entry_pc: DwAt = DwAt(0x52);

pub const DW_AT_use_UTF8: DwAt = DwAt(0x53);

pub const DW_AT_extension: DwAt = DwAt(0x54);

pub const DW_AT_ranges: DwAt = DwAt(0x55);

pub const DW_AT_trampoline: DwAt = DwAt(0x56);

pub const DW_AT_call_column: DwAt = DwAt(0x57);

pub const DW_AT_call_file: DwAt = DwAt(0x58);

pub const DW_AT_call_line: DwAt = DwAt(0x59);

pub const DW_AT_description: DwAt = DwAt(0x5a);

pub const DW_AT_binary_scale: DwAt = DwAt(0x5b);

pub const DW_AT_decimal_scale: DwAt = DwAt(0x5c);

pub const DW_AT_small: DwAt = DwAt(0x5d);

pub const DW_AT_decimal_sign: DwAt = DwAt(0x5e);

pub const DW_AT_digit_count: DwAt = DwAt(0x5f);

pub const DW_AT_picture_string: DwAt = DwAt(0x60);

pub const DW_AT_mutable: DwAt = DwAt(0x61);

pub const DW_AT_threads_scaled: DwAt = DwAt(0x62);

pub const DW_AT_explicit: DwAt = DwAt(0x63);

pub const DW_AT_object_pointer: DwAt = DwAt(0x64);

pub const DW_AT_endianity: DwAt = DwAt(0x65);

pub const DW_AT_elemental: DwAt = DwAt(0x66);

pub const DW_AT_pure: DwAt = DwAt(0x67);

pub const DW_AT_recursive: DwAt = DwAt(0x68);

pub const DW_AT_signature: DwAt = DwAt(0x69);

pub const DW_AT_main_subprogram: DwAt = DwAt(0x6a);

pub const DW_AT_data_bit_offset: DwAt = DwAt(0x6b);

pub const DW_AT_const_expr: DwAt = DwAt(0x6c);

pub const DW_AT_enum_class: DwAt = DwAt(0x6d);

pub const DW_AT_linkage_name: DwAt = DwAt(0x6e);

pub const DW_AT_string_length_bit_size: DwAt = DwAt(0x6f);

pub const DW_AT_string_length_byte_size: DwAt = DwAt(0x70);

pub const DW_AT_rank: DwAt = DwAt(0x71);

pub const DW_AT_str_offsets_base: DwAt = DwAt(0x72);

pub const DW_AT_addr_base: DwAt = DwAt(0x73);

pub const DW_AT_rnglists_base: DwAt = DwAt(0x74);

pub const DW_AT_dwo_name: DwAt = DwAt(0x76);

pub const DW_AT_reference: DwAt = DwAt(0x77);

pub const DW_AT_rvalue_reference: DwAt = DwAt(0x78);

pub const DW_AT_macros: DwAt = DwAt(0x79);

pub const DW_AT_call_all_calls: DwAt = DwAt(0x7a);

pub const DW_AT_call_all_source_calls: DwAt = DwAt(0x7b);

pub const DW_AT_call_all_tail_calls: DwAt = DwAt(0x7c);

pub const DW_AT_call_return_pc: DwAt = DwAt(0x7d);

pub const DW_AT_call_value: DwAt = DwAt(0x7e);

pub const DW_AT_call_origin: DwAt = DwAt(0x7f);

pub const DW_AT_call_parameter: DwAt = DwAt(0x80);

pub const DW_AT_call_pc: DwAt = DwAt(0x81);

pub const DW_AT_call_tail_call: DwAt = DwAt(0x82);

pub const DW_AT_call_target: DwAt = DwAt(0x83);

pub const DW_AT_call_target_clobbered: DwAt = DwAt(0x84);

pub const DW_AT_call_data_location: DwAt = DwAt(0x85);

pub const DW_AT_call_data_value: DwAt = DwAt(0x86);

pub const DW_AT_noreturn: DwAt = DwAt(0x87);

pub const DW_AT_alignment: DwAt = DwAt(0x88);

pub const DW_AT_export_symbols: DwAt = DwAt(0x89);

pub const DW_AT_deleted: DwAt = DwAt(0x8a);

pub const DW_AT_defaulted: DwAt = DwAt(0x8b);

pub const DW_AT_loclists_base: DwAt = DwAt(0x8c);

// The first and the last code of vendors
pub const DW_AT_lo_user: DwAt = DwAt(0x2000);

pub const DW_AT_hi_user: DwAt = DwAt(0x3fff);

// Of MIPS
pub const DW_AT_MIPS_fde: DwAt = DwAt(0x2001);

pub const DW_AT_MIPS_loop_begin: DwAt = DwAt(0x2002);

pub const DW_AT_MIPS_tail_loop_begin: DwAt = DwAt(0x2003);

pub const DW_AT_MIPS_epilog_begin: DwAt = DwAt(0x2004);

pub const DW_AT_MIPS_loop_unroll_factor: DwAt = DwAt(0x2005);

pub const DW_AT_MIPS_software_pipeline_depth: DwAt = DwAt(0x2006);

pub const DW_AT_MIPS_linkage_name: DwAt = DwAt(0x2007);

pub const DW_AT_MIPS_stride: DwAt = DwAt(0x2008);

pub const DW_AT_MIPS_abstract_name: DwAt = DwAt(0x2009);

pub const DW_AT_MIPS_clone_origin: DwAt = DwAt(0x200a);

pub const DW_AT_MIPS_has_inlines: DwAt = DwAt(0x200b);

pub const DW_AT_MIPS_stride_byte: DwAt = DwAt(0x200c);

pub const DW_AT_MIPS_stride_elem: DwAt = DwAt(0x200d);

pub const DW_AT_MIPS_ptr_dopetype: DwAt = DwAt(0x200e);

pub const DW_AT_MIPS_allocatable_dopetype: DwAt = DwAt(0x200f);

pub const DW_AT_MIPS_assumed_shape_dopetype: DwAt = DwAt(0x2010);

pub const DW_AT_MIPS_assumed_size: DwAt = DwAt(0x2011);

// Of GNU, and those in use beside them
pub const DW_AT_sf_names: DwAt = DwAt(0x2101);

pub const DW_AT_src_info: DwAt = DwAt(0x2102);

pub const DW_AT_mac_info: DwAt = DwAt(0x2103);

pub const DW_AT_src_coords: DwAt = DwAt(0x2104);

pub const DW_AT_body_begin: DwAt = DwAt(0x2105);

pub const DW_AT_body_end: DwAt = DwAt(0x2106);

pub const DW_AT_GNU_vector: DwAt = DwAt(0x2107);

pub const DW_AT_GNU_guarded_by: DwAt = DwAt(0x2108);

pub const DW_AT_GNU_pt_guarded_by: DwAt = DwAt(0x2109);

pub const DW_AT_GNU_guarded: DwAt = DwAt(0x210a);

pub const DW_AT_GNU_pt_guarded: DwAt = DwAt(0x210b);

pub const DW_AT_GNU_locks_excluded: DwAt = DwAt(0x210c);

pub const DW_AT_GNU_exclusive_locks_required: DwAt = DwAt(0x210d);

pub const DW_AT_GNU_shared_locks_required: DwAt = DwAt(0x210e);

pub const DW_AT_GNU_odr_signature: DwAt = DwAt(0x210f);

pub const DW_AT_GNU_template_name: DwAt = DwAt(0x2110);

pub const DW_AT_GNU_call_site_value: DwAt = DwAt(0x2111);

pub const DW_AT_GNU_call_site_data_value: DwAt = DwAt(0x2112);

pub const DW_AT_GNU_call_site_target: DwAt = DwAt(0x2113);

pub const DW_AT_GNU_call_site_target_clobbered: DwAt = DwAt(0x2114);

pub const DW_AT_GNU_tail_call: DwAt = DwAt(0x2115);

pub const DW_AT_GNU_all_tail_call_sites: DwAt = DwAt(0x2116);

pub const DW_AT_GNU_all_call_sites: DwAt = DwAt(0x2117);

pub const DW_AT_GNU_all_source_call_sites: DwAt = DwAt(0x2118);

pub const DW_AT_GNU_macros: DwAt = DwAt(0x2119);

pub const DW_AT_GNU_deleted: DwAt = DwAt(0x211a);

pub const DW_AT_GNU_dwo_name: DwAt = DwAt(0x2130);

pub const DW_AT_GNU_dwo_id: DwAt = DwAt(0x2131);

pub const DW_AT_GNU_ranges_base: DwAt = DwAt(0x2132);

pub const DW_AT_GNU_addr_base: DwAt = DwAt(0x2133);

pub const DW_AT_GNU_pubnames: DwAt = DwAt(0x2134);

pub const DW_AT_GNU_pubtypes: DwAt = DwAt(0x2135);

pub const DW_AT_GNU_discriminator: DwAt = DwAt(0x2136);

pub const DW_AT_GNU_locviews: DwAt = DwAt(0x2137);

pub const DW_AT_GNU_entry_view: DwAt = DwAt(0x2138);

// Of VMS and of the Ada compiler of GNU
pub const DW_AT_VMS_rtnbeg_pd_address: DwAt = DwAt(0x2201);

pub const DW_AT_use_GNAT_descriptive_type: DwAt = DwAt(0x2301);

pub const DW_AT_GNAT_descriptive_type: DwAt = DwAt(0x2302);

pub const DW_AT_GNU_numerator: DwAt = DwAt(0x2303);

pub const DW_AT_GNU_denominator: DwAt = DwAt(0x2304);

pub const DW_AT_GNU_bias: DwAt = DwAt(0x2305);

// Of Unified Parallel C and of PGI
pub const DW_AT_upc_threads_scaled: DwAt = DwAt(0x3210);

pub const DW_AT_PGI_lbase: DwAt = DwAt(0x3a00);

pub const DW_AT_PGI_soffset: DwAt = DwAt(0x3a01);

pub const DW_AT_PGI_lstride: DwAt = DwAt(0x3a02);

// Of LLVM
pub const DW_AT_LLVM_include_path: DwAt = DwAt(0x3e00);

pub const DW_AT_LLVM_config_macros: DwAt = DwAt(0x3e01);

pub const DW_AT_LLVM_sysroot: DwAt = DwAt(0x3e02);

pub const DW_AT_LLVM_tag_offset: DwAt = DwAt(0x3e03);

// Of Apple
pub const DW_AT_APPLE_optimized: DwAt = DwAt(0x3fe1);

pub const DW_AT_APPLE_flags: DwAt = DwAt(0x3fe2);

pub const DW_AT_APPLE_isa: DwAt = DwAt(0x3fe3);

pub const DW_AT_APPLE_block: DwAt = DwAt(0x3fe4);

pub const DW_AT_APPLE_major_runtime_vers: DwAt = DwAt(0x3fe5);

pub const DW_AT_APPLE_runtime_class: DwAt = DwAt(0x3fe6);

pub const DW_AT_APPLE_omit_frame_ptr: DwAt = DwAt(0x3fe7);

pub const DW_AT_APPLE_property_name: DwAt = DwAt(0x3fe8);

pub const DW_AT_APPLE_property_getter: DwAt = DwAt(0x3fe9);

pub const DW_AT_APPLE_property_setter: DwAt = DwAt(0x3fea);

pub const DW_AT_APPLE_property_attribute: DwAt = DwAt(0x3feb);

pub const DW_AT_APPLE_objc_complete_type: DwAt = DwAt(0x3fec);

pub const DW_AT_APPLE_property: DwAt = DwAt(0x3fed);

pub const DW_AT_APPLE_objc_direct: DwAt = DwAt(0x3fee);

pub const DW_AT_APPLE_sdk: DwAt = DwAt(0x3fef);
