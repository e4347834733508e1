//! The numbers of DWARF 4 and 5 under the standard's names.
//!
//! Each group names the section and table of DWARF 5 that lists it; DWARF 4 gives the ones that it
//! has the same numbers. Names with `GNU` are GCC's.

// DWARF 5, section 7.5.3, table 7.3: tags.
pub const DW_TAG_array_type: u16 = 0x01;

pub const DW_TAG_class_type: u16 = 0x02;

pub const DW_TAG_entry_point: u16 = 0x03;

pub const DW_TAG_enumeration_type: u16 = 0x04;

pub const DW_TAG_formal_parameter: u16 = 0x05;

pub const DW_TAG_imported_declaration: u16 = 0x08;

pub const DW_TAG_label: u16 = 0x0a;

pub const DW_TAG_lexical_block: u16 = 0x0b;

pub const DW_TAG_member: u16 = 0x0d;

pub const DW_TAG_pointer_type: u16 = 0x0f;

pub const DW_TAG_reference_type: u16 = 0x10;

pub const DW_TAG_compile_unit: u16 = 0x11;

pub const DW_TAG_string_type: u16 = 0x12;

pub const DW_TAG_structure_type: u16 = 0x13;

pub const DW_TAG_subroutine_type: u16 = 0x15;

pub const DW_TAG_typedef: u16 = 0x16;

pub const DW_TAG_union_type: u16 = 0x17;

pub const DW_TAG_unspecified_parameters: u16 = 0x18;

pub const DW_TAG_variant: u16 = 0x19;

pub const DW_TAG_common_block: u16 = 0x1a;

pub const DW_TAG_common_inclusion: u16 = 0x1b;

pub const DW_TAG_inheritance: u16 = 0x1c;

pub const DW_TAG_inlined_subroutine: u16 = 0x1d;

pub const DW_TAG_module: u16 = 0x1e;

pub const DW_TAG_ptr_to_member_type: u16 = 0x1f;

pub const DW_TAG_set_type: u16 = 0x20;

pub const DW_TAG_subrange_type: u16 = 0x21;

pub const DW_TAG_with_stmt: u16 = 0x22;

pub const DW_TAG_access_declaration: u16 = 0x23;

pub const DW_TAG_base_type: u16 = 0x24;

pub const DW_TAG_catch_block: u16 = 0x25;

pub const DW_TAG_const_type: u16 = 0x26;

pub const DW_TAG_constant: u16 = 0x27;

pub const DW_TAG_enumerator: u16 = 0x28;

pub const DW_TAG_file_type: u16 = 0x29;

pub const DW_TAG_friend: u16 = 0x2a;

pub const DW_TAG_namelist: u16 = 0x2b;

pub const DW_TAG_namelist_item: u16 = 0x2c;

pub const DW_TAG_packed_type: u16 = 0x2d;

pub const DW_TAG_subprogram: u16 = 0x2e;

pub const DW_TAG_template_type_parameter: u16 = 0x2f;

pub const DW_TAG_template_value_parameter: u16 = 0x30;

pub const DW_TAG_thrown_type: u16 = 0x31;

pub const DW_TAG_try_block: u16 = 0x32;

pub const DW_TAG_variant_part: u16 = 0x33;

pub const DW_TAG_variable: u16 = 0x34;

pub const DW_TAG_volatile_type: u16 = 0x35;

pub const DW_TAG_dwarf_procedure: u16 = 0x36;

pub const DW_TAG_restrict_type: u16 = 0x37;

pub const DW_TAG_interface_type: u16 = 0x38;

pub const DW_TAG_namespace: u16 = 0x39;

pub const DW_TAG_imported_module: u16 = 0x3a;

pub const DW_TAG_unspecified_type: u16 = 0x3b;

pub const DW_TAG_partial_unit: u16 = 0x3c;

pub const DW_TAG_imported_unit: u16 = 0x3d;

pub const DW_TAG_condition: u16 = 0x3f;

pub const DW_TAG_shared_type: u16 = 0x40;

pub const DW_TAG_type_unit: u16 = 0x41;

pub const DW_TAG_rvalue_reference_type: u16 = 0x42;

pub const DW_TAG_template_alias: u16 = 0x43;

pub const DW_TAG_coarray_type: u16 = 0x44;

pub const DW_TAG_generic_subrange: u16 = 0x45;

pub const DW_TAG_dynamic_type: u16 = 0x46;

pub const DW_TAG_atomic_type: u16 = 0x47;

pub const DW_TAG_call_site: u16 = 0x48;

pub const DW_TAG_call_site_parameter: u16 = 0x49;

pub const DW_TAG_skeleton_unit: u16 = 0x4a;

pub const DW_TAG_immutable_type: u16 = 0x4b;

pub const DW_TAG_GNU_template_template_param: u16 = 0x4106;

pub const DW_TAG_GNU_template_parameter_pack: u16 = 0x4107;

pub const DW_TAG_GNU_call_site: u16 = 0x4109;

// DWARF 5, section 7.5.4, table 7.5: attributes.
pub const DW_AT_sibling: u16 = 0x01;

pub const DW_AT_location: u16 = 0x02;

pub const DW_AT_name: u16 = 0x03;

pub const DW_AT_ordering: u16 = 0x09;

pub const DW_AT_byte_size: u16 = 0x0b;

pub const DW_AT_bit_offset: u16 = 0x0c;

pub const DW_AT_bit_size: u16 = 0x0d;

pub const DW_AT_stmt_list: u16 = 0x10;

pub const DW_AT_low_pc: u16 = 0x11;

pub const DW_AT_high_pc: u16 = 0x12;

pub const DW_AT_language: u16 = 0x13;

pub const DW_AT_discr: u16 = 0x15;

pub const DW_AT_discr_value: u16 = 0x16;

pub const DW_AT_visibility: u16 = 0x17;

pub const DW_AT_import: u16 = 0x18;

pub const DW_AT_string_length: u16 = 0x19;

pub const DW_AT_common_reference: u16 = 0x1a;

pub const DW_AT_comp_dir: u16 = 0x1b;

pub const DW_AT_const_value: u16 = 0x1c;

pub const DW_AT_containing_type: u16 = 0x1d;

pub const DW_AT_default_value: u16 = 0x1e;

pub const DW_AT_inline: u16 = 0x20;

pub const DW_AT_is_optional: u16 = 0x21;

pub const DW_AT_lower_bound: u16 = 0x22;

pub const DW_AT_producer: u16 = 0x25;

pub const DW_AT_prototyped: u16 = 0x27;

pub const DW_AT_return_addr: u16 = 0x2a;

pub const DW_AT_start_scope: u16 = 0x2c;

pub const DW_AT_bit_stride: u16 = 0x2e;

pub const DW_AT_upper_bound: u16 = 0x2f;

pub const DW_AT_abstract_origin: u16 = 0x31;

pub const DW_AT_accessibility: u16 = 0x32;

pub const DW_AT_address_class: u16 = 0x33;

pub const DW_AT_artificial: u16 = 0x34;

pub const DW_AT_base_types: u16 = 0x35;

pub const DW_AT_calling_convention: u16 = 0x36;

pub const DW_AT_count: u16 = 0x37;

pub const DW_AT_data_member_location: u16 = 0x38;

pub const DW_AT_decl_column: u16 = 0x39;

pub const DW_AT_decl_file: u16 = 0x3a;

pub const DW_AT_decl_line: u16 = 0x3b;

pub const DW_AT_declaration: u16 = 0x3c;

pub const DW_AT_discr_list: u16 = 0x3d;

pub const DW_AT_encoding: u16 = 0x3e;

pub const DW_AT_external: u16 = 0x3f;

pub const DW_AT_frame_base: u16 = 0x40;

pub const DW_AT_friend: u16 = 0x41;

pub const DW_AT_identifier_case: u16 = 0x42;

pub const DW_AT_macro_info: u16 = 0x43;

pub const DW_AT_namelist_item: u16 = 0x44;

pub const DW_AT_priority: u16 = 0x45;

pub const DW_AT_segment: u16 = 0x46;

pub const DW_AT_specification: u16 = 0x47;

pub const DW_AT_static_link: u16 = 0x48;

pub const DW_AT_type: u16 = 0x49;

pub const DW_AT_use_location: u16 = 0x4a;

pub const DW_AT_variable_parameter: u16 = 0x4b;

pub const DW_AT_virtuality: u16 = 0x4c;

pub const DW_AT_vtable_elem_location: u16 = 0x4d;

pub const DW_AT_allocated: u16 = 0x4e;

pub const DW_AT_associated: u16 = 0x4f;

pub const DW_AT_data_location: u16 = 0x50;

pub const DW_AT_byte_stride: u16 = 0x51;

pub const DW_AT_entry_pc: u16 = 0x52;

pub const DW_AT_use_UTF8: u16 = 0x53;

pub const DW_AT_extension: u16 = 0x54;

pub const DW_AT_ranges: u16 = 0x55;

pub const DW_AT_trampoline: u16 = 0x56;

pub const DW_AT_call_column: u16 = 0x57;

pub const DW_AT_call_file: u16 = 0x58;

pub const DW_AT_call_line: u16 = 0x59;

pub const DW_AT_description: u16 = 0x5a;

pub const DW_AT_binary_scale: u16 = 0x5b;

pub const DW_AT_decimal_scale: u16 = 0x5c;

pub const DW_AT_small: u16 = 0x5d;

pub const DW_AT_decimal_sign: u16 = 0x5e;

pub const DW_AT_digit_count: u16 = 0x5f;

pub const DW_AT_picture_string: u16 = 0x60;

pub const DW_AT_mutable: u16 = 0x61;

pub const DW_AT_threads_scaled: u16 = 0x62;

pub const DW_AT_explicit: u16 = 0x63;

pub const DW_AT_object_pointer: u16 = 0x64;

pub const DW_AT_endianity: u16 = 0x65;

pub const DW_AT_elemental: u16 = 0x66;

pub const DW_AT_pure: u16 = 0x67;

pub const DW_AT_recursive: u16 = 0x68;

pub const DW_AT_signature: u16 = 0x69;

pub const DW_AT_main_subprogram: u16 = 0x6a;

pub const DW_AT_data_bit_offset: u16 = 0x6b;

pub const DW_AT_const_expr: u16 = 0x6c;

pub const DW_AT_enum_class: u16 = 0x6d;

pub const DW_AT_linkage_name: u16 = 0x6e;

pub const DW_AT_string_length_bit_size: u16 = 0x6f;

pub const DW_AT_string_length_byte_size: u16 = 0x70;

pub const DW_AT_rank: u16 = 0x71;

pub const DW_AT_str_offsets_base: u16 = 0x72;

pub const DW_AT_addr_base: u16 = 0x73;

pub const DW_AT_rnglists_base: u16 = 0x74;

pub const DW_AT_dwo_id: u16 = 0x75;

pub const DW_AT_dwo_name: u16 = 0x76;

pub const DW_AT_reference: u16 = 0x77;

pub const DW_AT_rvalue_reference: u16 = 0x78;

pub const DW_AT_macros: u16 = 0x79;

pub const DW_AT_call_all_calls: u16 = 0x7a;

pub const DW_AT_call_all_source_calls: u16 = 0x7b;

pub const DW_AT_call_all_tail_calls: u16 = 0x7c;

pub const DW_AT_call_return_pc: u16 = 0x7d;

pub const DW_AT_call_value: u16 = 0x7e;

pub const DW_AT_call_origin: u16 = 0x7f;

pub const DW_AT_call_parameter: u16 = 0x80;

pub const DW_AT_call_pc: u16 = 0x81;

pub const DW_AT_call_tail_call: u16 = 0x82;

pub const DW_AT_call_target: u16 = 0x83;

pub const DW_AT_call_target_clobbered: u16 = 0x84;

pub const DW_AT_call_data_location: u16 = 0x85;

pub const DW_AT_call_data_value: u16 = 0x86;

pub const DW_AT_noreturn: u16 = 0x87;

pub const DW_AT_alignment: u16 = 0x88;

pub const DW_AT_export_symbols: u16 = 0x89;

pub const DW_AT_deleted: u16 = 0x8a;

pub const DW_AT_defaulted: u16 = 0x8b;

pub const DW_AT_loclists_base: u16 = 0x8c;

pub const DW_AT_GNU_dwo_name: u16 = 0x2130;

// DWARF 5, section 7.5.6, table 7.6: forms of attribute values.
pub const DW_FORM_addr: u16 = 0x01;

pub const DW_FORM_block2: u16 = 0x03;

pub const DW_FORM_block4: u16 = 0x04;

pub const DW_FORM_data2: u16 = 0x05;

pub const DW_FORM_data4: u16 = 0x06;

pub const DW_FORM_data8: u16 = 0x07;

pub const DW_FORM_string: u16 = 0x08;

pub const DW_FORM_block: u16 = 0x09;

pub const DW_FORM_block1: u16 = 0x0a;

pub const DW_FORM_data1: u16 = 0x0b;

pub const DW_FORM_flag: u16 = 0x0c;

pub const DW_FORM_sdata: u16 = 0x0d;

pub const DW_FORM_strp: u16 = 0x0e;

pub const DW_FORM_udata: u16 = 0x0f;

pub const DW_FORM_ref_addr: u16 = 0x10;

pub const DW_FORM_ref1: u16 = 0x11;

pub const DW_FORM_ref2: u16 = 0x12;

pub const DW_FORM_ref4: u16 = 0x13;

pub const DW_FORM_ref8: u16 = 0x14;

pub const DW_FORM_ref_udata: u16 = 0x15;

pub const DW_FORM_indirect: u16 = 0x16;

pub const DW_FORM_sec_offset: u16 = 0x17;

pub const DW_FORM_exprloc: u16 = 0x18;

pub const DW_FORM_flag_present: u16 = 0x19;

pub const DW_FORM_ref_sig8: u16 = 0x20;

pub const DW_FORM_strx: u16 = 0x1a;

pub const DW_FORM_addrx: u16 = 0x1b;

pub const DW_FORM_ref_sup4: u16 = 0x1c;

pub const DW_FORM_strp_sup: u16 = 0x1d;

pub const DW_FORM_data16: u16 = 0x1e;

pub const DW_FORM_line_strp: u16 = 0x1f;

pub const DW_FORM_implicit_const: u16 = 0x21;

pub const DW_FORM_loclistx: u16 = 0x22;

pub const DW_FORM_rnglistx: u16 = 0x23;

pub const DW_FORM_ref_sup8: u16 = 0x24;

pub const DW_FORM_strx1: u16 = 0x25;

pub const DW_FORM_strx2: u16 = 0x26;

pub const DW_FORM_strx3: u16 = 0x27;

pub const DW_FORM_strx4: u16 = 0x28;

pub const DW_FORM_addrx1: u16 = 0x29;

pub const DW_FORM_addrx2: u16 = 0x2a;

pub const DW_FORM_addrx3: u16 = 0x2b;

pub const DW_FORM_addrx4: u16 = 0x2c;

// DWARF 5, section 7.7.1, table 7.9: operations of expressions.
pub const DW_OP_addr: u8 = 0x03;

pub const DW_OP_deref: u8 = 0x06;

pub const DW_OP_const1u: u8 = 0x08;

pub const DW_OP_const1s: u8 = 0x09;

pub const DW_OP_const2u: u8 = 0x0a;

pub const DW_OP_const2s: u8 = 0x0b;

pub const DW_OP_const4u: u8 = 0x0c;

pub const DW_OP_const4s: u8 = 0x0d;

pub const DW_OP_const8u: u8 = 0x0e;

pub const DW_OP_const8s: u8 = 0x0f;

pub const DW_OP_constu: u8 = 0x10;

pub const DW_OP_consts: u8 = 0x11;

pub const DW_OP_dup: u8 = 0x12;

pub const DW_OP_drop: u8 = 0x13;

pub const DW_OP_over: u8 = 0x14;

pub const DW_OP_pick: u8 = 0x15;

pub const DW_OP_swap: u8 = 0x16;

pub const DW_OP_rot: u8 = 0x17;

pub const DW_OP_xderef: u8 = 0x18;

pub const DW_OP_abs: u8 = 0x19;

pub const DW_OP_and: u8 = 0x1a;

pub const DW_OP_div: u8 = 0x1b;

pub const DW_OP_minus: u8 = 0x1c;

pub const DW_OP_mod: u8 = 0x1d;

pub const DW_OP_mul: u8 = 0x1e;

pub const DW_OP_neg: u8 = 0x1f;

pub const DW_OP_not: u8 = 0x20;

pub const DW_OP_or: u8 = 0x21;

pub const DW_OP_plus: u8 = 0x22;

pub const DW_OP_plus_uconst: u8 = 0x23;

pub const DW_OP_shl: u8 = 0x24;

pub const DW_OP_shr: u8 = 0x25;

pub const DW_OP_shra: u8 = 0x26;

pub const DW_OP_xor: u8 = 0x27;

pub const DW_OP_bra: u8 = 0x28;

pub const DW_OP_eq: u8 = 0x29;

pub const DW_OP_ge: u8 = 0x2a;

pub const DW_OP_gt: u8 = 0x2b;

pub const DW_OP_le: u8 = 0x2c;

pub const DW_OP_lt: u8 = 0x2d;

pub const DW_OP_ne: u8 = 0x2e;

pub const DW_OP_skip: u8 = 0x2f;

pub const DW_OP_lit0: u8 = 0x30;

pub const DW_OP_lit1: u8 = 0x31;

pub const DW_OP_lit2: u8 = 0x32;

pub const DW_OP_lit3: u8 = 0x33;

pub const DW_OP_lit4: u8 = 0x34;

pub const DW_OP_lit5: u8 = 0x35;

pub const DW_OP_lit6: u8 = 0x36;

pub const DW_OP_lit7: u8 = 0x37;

pub const DW_OP_lit8: u8 = 0x38;

pub const DW_OP_lit9: u8 = 0x39;

pub const DW_OP_lit10: u8 = 0x3a;

pub const DW_OP_lit11: u8 = 0x3b;

pub const DW_OP_lit12: u8 = 0x3c;

pub const DW_OP_lit13: u8 = 0x3d;

pub const DW_OP_lit14: u8 = 0x3e;

pub const DW_OP_lit15: u8 = 0x3f;

pub const DW_OP_lit16: u8 = 0x40;

pub const DW_OP_lit17: u8 = 0x41;

pub const DW_OP_lit18: u8 = 0x42;

pub const DW_OP_lit19: u8 = 0x43;

pub const DW_OP_lit20: u8 = 0x44;

pub const DW_OP_lit21: u8 = 0x45;

pub const DW_OP_lit22: u8 = 0x46;

pub const DW_OP_lit23: u8 = 0x47;

pub const DW_OP_lit24: u8 = 0x48;

pub const DW_OP_lit25: u8 = 0x49;

pub const DW_OP_lit26: u8 = 0x4a;

pub const DW_OP_lit27: u8 = 0x4b;

pub const DW_OP_lit28: u8 = 0x4c;

pub const DW_OP_lit29: u8 = 0x4d;

pub const DW_OP_lit30: u8 = 0x4e;

pub const DW_OP_lit31: u8 = 0x4f;

pub const DW_OP_reg0: u8 = 0x50;

pub const DW_OP_reg1: u8 = 0x51;

pub const DW_OP_reg2: u8 = 0x52;

pub const DW_OP_reg3: u8 = 0x53;

pub const DW_OP_reg4: u8 = 0x54;

pub const DW_OP_reg5: u8 = 0x55;

pub const DW_OP_reg6: u8 = 0x56;

pub const DW_OP_reg7: u8 = 0x57;

pub const DW_OP_reg8: u8 = 0x58;

pub const DW_OP_reg9: u8 = 0x59;

pub const DW_OP_reg10: u8 = 0x5a;

pub const DW_OP_reg11: u8 = 0x5b;

pub const DW_OP_reg12: u8 = 0x5c;

pub const DW_OP_reg13: u8 = 0x5d;

pub const DW_OP_reg14: u8 = 0x5e;

pub const DW_OP_reg15: u8 = 0x5f;

pub const DW_OP_reg16: u8 = 0x60;

pub const DW_OP_reg17: u8 = 0x61;

pub const DW_OP_reg18: u8 = 0x62;

pub const DW_OP_reg19: u8 = 0x63;

pub const DW_OP_reg20: u8 = 0x64;

pub const DW_OP_reg21: u8 = 0x65;

pub const DW_OP_reg22: u8 = 0x66;

pub const DW_OP_reg23: u8 = 0x67;

pub const DW_OP_reg24: u8 = 0x68;

pub const DW_OP_reg25: u8 = 0x69;

pub const DW_OP_reg26: u8 = 0x6a;

pub const DW_OP_reg27: u8 = 0x6b;

pub const DW_OP_reg28: u8 = 0x6c;

pub const DW_OP_reg29: u8 = 0x6d;

pub const DW_OP_reg30: u8 = 0x6e;

pub const DW_OP_reg31: u8 = 0x6f;

pub const DW_OP_breg0: u8 = 0x70;

pub const DW_OP_breg1: u8 = 0x71;

pub const DW_OP_breg2: u8 = 0x72;

pub const DW_OP_breg3: u8 = 0x73;

pub const DW_OP_breg4: u8 = 0x74;

pub const DW_OP_breg5: u8 = 0x75;

pub const DW_OP_breg6: u8 = 0x76;

pub const DW_OP_breg7: u8 = 0x77;

pub const DW_OP_breg8: u8 = 0x78;

pub const DW_OP_breg9: u8 = 0x79;

pub const DW_OP_breg10: u8 = 0x7a;

pub const DW_OP_breg11: u8 = 0x7b;

pub const DW_OP_breg12: u8 = 0x7c;

pub const DW_OP_breg13: u8 = 0x7d;

pub const DW_OP_breg14: u8 = 0x7e;

pub const DW_OP_breg15: u8 = 0x7f;

pub const DW_OP_breg16: u8 = 0x80;

pub const DW_OP_breg17: u8 = 0x81;

pub const DW_OP_breg18: u8 = 0x82;

pub const DW_OP_breg19: u8 = 0x83;

pub const DW_OP_breg20: u8 = 0x84;

pub const DW_OP_breg21: u8 = 0x85;

pub const DW_OP_breg22: u8 = 0x86;

pub const DW_OP_breg23: u8 = 0x87;

pub const DW_OP_breg24: u8 = 0x88;

pub const DW_OP_breg25: u8 = 0x89;

pub const DW_OP_breg26: u8 = 0x8a;

pub const DW_OP_breg27: u8 = 0x8b;

pub const DW_OP_breg28: u8 = 0x8c;

pub const DW_OP_breg29: u8 = 0x8d;

pub const DW_OP_breg30: u8 = 0x8e;

pub const DW_OP_breg31: u8 = 0x8f;

pub const DW_OP_regx: u8 = 0x90;

pub const DW_OP_fbreg: u8 = 0x91;

pub const DW_OP_bregx: u8 = 0x92;

pub const DW_OP_piece: u8 = 0x93;

pub const DW_OP_deref_size: u8 = 0x94;

pub const DW_OP_xderef_size: u8 = 0x95;

pub const DW_OP_nop: u8 = 0x96;

pub const DW_OP_push_object_address: u8 = 0x97;

pub const DW_OP_call2: u8 = 0x98;

pub const DW_OP_call4: u8 = 0x99;

pub const DW_OP_call_ref: u8 = 0x9a;

pub const DW_OP_form_tls_address: u8 = 0x9b;

pub const DW_OP_call_frame_cfa: u8 = 0x9c;

pub const DW_OP_bit_piece: u8 = 0x9d;

pub const DW_OP_implicit_value: u8 = 0x9e;

pub const DW_OP_stack_value: u8 = 0x9f;

pub const DW_OP_implicit_pointer: u8 = 0xa0;

pub const DW_OP_addrx: u8 = 0xa1;

pub const DW_OP_constx: u8 = 0xa2;

pub const DW_OP_entry_value: u8 = 0xa3;

pub const DW_OP_const_type: u8 = 0xa4;

pub const DW_OP_regval_type: u8 = 0xa5;

pub const DW_OP_deref_type: u8 = 0xa6;

pub const DW_OP_xderef_type: u8 = 0xa7;

pub const DW_OP_convert: u8 = 0xa8;

pub const DW_OP_reinterpret: u8 = 0xa9;

pub const DW_OP_GNU_push_tls_address: u8 = 0xe0;

pub const DW_OP_GNU_entry_value: u8 = 0xf3;

// DWARF 5, section 7.12, table 7.17: languages.
pub const DW_LANG_C89: u16 = 0x01;

pub const DW_LANG_C: u16 = 0x02;

pub const DW_LANG_Ada83: u16 = 0x03;

pub const DW_LANG_C_plus_plus: u16 = 0x04;

pub const DW_LANG_Cobol74: u16 = 0x05;

pub const DW_LANG_Cobol85: u16 = 0x06;

pub const DW_LANG_Fortran77: u16 = 0x07;

pub const DW_LANG_Fortran90: u16 = 0x08;

pub const DW_LANG_Pascal83: u16 = 0x09;

pub const DW_LANG_Modula2: u16 = 0x0a;

pub const DW_LANG_Java: u16 = 0x0b;

pub const DW_LANG_C99: u16 = 0x0c;

pub const DW_LANG_Ada95: u16 = 0x0d;

pub const DW_LANG_Fortran95: u16 = 0x0e;

pub const DW_LANG_PLI: u16 = 0x0f;

pub const DW_LANG_ObjC: u16 = 0x10;

pub const DW_LANG_ObjC_plus_plus: u16 = 0x11;

pub const DW_LANG_UPC: u16 = 0x12;

pub const DW_LANG_D: u16 = 0x13;

pub const DW_LANG_Python: u16 = 0x14;

pub const DW_LANG_OpenCL: u16 = 0x15;

pub const DW_LANG_Go: u16 = 0x16;

pub const DW_LANG_Modula3: u16 = 0x17;

pub const DW_LANG_Haskell: u16 = 0x18;

pub const DW_LANG_C_plus_plus_03: u16 = 0x19;

pub const DW_LANG_C_plus_plus_11: u16 = 0x1a;

pub const DW_LANG_OCaml: u16 = 0x1b;

pub const DW_LANG_Rust: u16 = 0x1c;

pub const DW_LANG_C11: u16 = 0x1d;

pub const DW_LANG_Swift: u16 = 0x1e;

pub const DW_LANG_Julia: u16 = 0x1f;

pub const DW_LANG_Dylan: u16 = 0x20;

pub const DW_LANG_C_plus_plus_14: u16 = 0x21;

pub const DW_LANG_Fortran03: u16 = 0x22;

pub const DW_LANG_Fortran08: u16 = 0x23;

pub const DW_LANG_RenderScript: u16 = 0x24;

pub const DW_LANG_BLISS: u16 = 0x25;

// DWARF 5, section 7.22, table 7.25: standard operations of line programs.
pub const DW_LNS_extended_op: u8 = 0x00;

pub const DW_LNS_copy: u8 = 0x01;

pub const DW_LNS_advance_pc: u8 = 0x02;

pub const DW_LNS_advance_line: u8 = 0x03;

pub const DW_LNS_set_file: u8 = 0x04;

pub const DW_LNS_set_column: u8 = 0x05;

pub const DW_LNS_negate_stmt: u8 = 0x06;

pub const DW_LNS_set_basic_block: u8 = 0x07;

pub const DW_LNS_const_add_pc: u8 = 0x08;

pub const DW_LNS_fixed_advance_pc: u8 = 0x09;

pub const DW_LNS_set_prologue_end: u8 = 0x0a;

pub const DW_LNS_set_epilogue_begin: u8 = 0x0b;

pub const DW_LNS_set_isa: u8 = 0x0c;

// DWARF 5, section 7.22, table 7.26: extended operations of line programs.
pub const DW_LNE_end_sequence: u8 = 0x01;

pub const DW_LNE_set_address: u8 = 0x02;

pub const DW_LNE_define_file: u8 = 0x03;

pub const DW_LNE_set_discriminator: u8 = 0x04;

// DWARF 5, section 7.22, table 7.27: contents of line table entries.
pub const DW_LNCT_path: u16 = 0x01;

pub const DW_LNCT_directory_index: u16 = 0x02;

pub const DW_LNCT_timestamp: u16 = 0x03;

pub const DW_LNCT_size: u16 = 0x04;

pub const DW_LNCT_MD5: u16 = 0x05;

// DWARF 5, section 7.25, table 7.30: kinds of range list entries.
pub const DW_RLE_end_of_list: u8 = 0x00;

pub const DW_RLE_base_addressx: u8 = 0x01;

pub const DW_RLE_startx_endx: u8 = 0x02;

pub const DW_RLE_startx_length: u8 = 0x03;

pub const DW_RLE_offset_pair: u8 = 0x04;

pub const DW_RLE_base_address: u8 = 0x05;

pub const DW_RLE_start_end: u8 = 0x06;

pub const DW_RLE_start_length: u8 = 0x07;

// DWARF 5, section 7.7.3, table 7.10: kinds of location list entries.
pub const DW_LLE_end_of_list: u8 = 0x00;

pub const DW_LLE_base_addressx: u8 = 0x01;

pub const DW_LLE_startx_endx: u8 = 0x02;

pub const DW_LLE_startx_length: u8 = 0x03;

pub const DW_LLE_offset_pair: u8 = 0x04;

pub const DW_LLE_default_location: u8 = 0x05;

pub const DW_LLE_base_address: u8 = 0x06;

pub const DW_LLE_start_end: u8 = 0x07;

pub const DW_LLE_start_length: u8 = 0x08;

// DWARF 5, section 7.5.1, table 7.2: kinds of units.
pub const DW_UT_compile: u8 = 0x01;

pub const DW_UT_type: u8 = 0x02;

pub const DW_UT_partial: u8 = 0x03;

pub const DW_UT_skeleton: u8 = 0x04;

pub const DW_UT_split_compile: u8 = 0x05;

pub const DW_UT_split_type: u8 = 0x06;

// The versions of units that are read and written (DWARF 4, section 7.5.1.1; DWARF 5, section 7.5.1).
pub const DWARF_4: u16 = 4;

pub const DWARF_5: u16 = 5;

// DWARF 5, section 7.2.2: lengths.
/// "The values 0xfffffff0 through 0xffffffff are reserved" for lengths.
pub const LENGTH_RESERVED: u32 = 0xffff_fff0;

// DWARF 5, section 7.24: call frame information.
/// The id of a CIE.
pub const DW_CIE_ID: u32 = 0xffff_ffff;

// DWARF 4, section 7.4, the 32-bit format: the bytes of an address of the targets, of an offset, and of the header of a
// unit of version 4 (section 7.5.1.1). DWARF 5: of the header of a compile unit (section 7.5.1.1).
pub const ADDRESS_SIZE: u8 = 8;

pub const OFFSET_SIZE: u8 = 4;

pub const UNIT_HEADER_SIZE: u8 = 11;

pub const UNIT_5_HEADER_SIZE: u8 = 12;

// The line programs that are written (DWARF 4, section 6.2.4): line_base, which is -5, line_range and opcode_base.
pub const LINE_BASE: u8 = 0xfb;

pub const LINE_RANGE: u8 = 14;

pub const OPCODE_BASE: u8 = 13;

// Apple's accelerator tables (LLVM's `AppleAcceleratorTable`, and its "Source Level Debugging with LLVM"): the magic number
// "HASH", the version, the hash function of Daniel J. Bernstein with its first value, and the one atom that is written.
pub const APPLE_HASH_MAGIC: u32 = 0x4841_5348;

pub const APPLE_HASH_VERSION: u16 = 1;

pub const DW_hash_function_djb: u16 = 0;

pub const DJB_HASH_START: u32 = 5381;

pub const DW_ATOM_die_offset: u16 = 1;
