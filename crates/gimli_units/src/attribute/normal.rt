//! The value of an attribute as its name makes it.

ghost use Rattle.std.specs.Prelude.{◌≡◌};
ghost use Rattle.gimli_units.specs.Value.{map_value};
ghost use Rattle.gimli_units.specs.NormalValue.{normal_value};

use super::Attribute;
use crate::AttributeValue;
use gimli_base::{
    DW_AT_GNU_addr_base, DW_AT_GNU_dwo_id, DW_AT_GNU_ranges_base, DW_AT_accessibility,
    DW_AT_addr_base, DW_AT_address_class, DW_AT_allocated, DW_AT_associated, DW_AT_bit_offset,
    DW_AT_bit_size, DW_AT_bit_stride, DW_AT_byte_size, DW_AT_byte_stride, DW_AT_call_column,
    DW_AT_call_data_location, DW_AT_call_data_value, DW_AT_call_file, DW_AT_call_line,
    DW_AT_call_origin, DW_AT_call_target, DW_AT_call_target_clobbered, DW_AT_call_value,
    DW_AT_calling_convention, DW_AT_count, DW_AT_data_location, DW_AT_data_member_location,
    DW_AT_decimal_sign, DW_AT_decl_column, DW_AT_decl_file, DW_AT_decl_line, DW_AT_encoding,
    DW_AT_endianity, DW_AT_frame_base, DW_AT_high_pc, DW_AT_identifier_case, DW_AT_inline,
    DW_AT_language, DW_AT_location, DW_AT_loclists_base, DW_AT_lower_bound, DW_AT_macro_info,
    DW_AT_macros, DW_AT_ordering, DW_AT_ranges, DW_AT_rank, DW_AT_return_addr, DW_AT_rnglists_base,
    DW_AT_segment, DW_AT_start_scope, DW_AT_static_link, DW_AT_stmt_list, DW_AT_str_offsets_base,
    DW_AT_string_length, DW_AT_upper_bound, DW_AT_use_location, DW_AT_virtuality, DW_AT_visibility,
    DW_AT_vtable_elem_location, DebugAddrBase, DebugLineOffset, DebugLocListsBase,
    DebugMacinfoOffset, DebugMacroOffset, DebugRngListsBase, DebugStrOffsetsBase, DwAccess, DwAddr,
    DwAte, DwCc, DwDs, DwEnd, DwId, DwInl, DwLang, DwOrd, DwVirtuality, DwVis, DwoId,
    LocationListsOffset, RawRangeListsOffset, Reader,
};

impl<R: Reader> Attribute<R> {
    /// The value as the name makes it: the first of the name's conversions that applies, else the
    /// value as the form shows it (DWARF 5, 7.5.4, table 7.5). A conversion is `udata_value`,
    /// `u8_value`, `u16_value`, `offset_value` or `exprloc_value`; no section is looked into.
    #[tactic(auto, unfolding(crate::specs::NormalValue::normal_value))]
    pub fn value(&self) -> AttributeValue<R>
        ensures { map_value R.view R.Offset.number result
            ≡ normal_value self.now.name.0 (map_value R.view R.Offset.number self.now.value) }
    {
        macro_rules! converted {
            ($call:ident, $variant:ident) => {
                if let Some(value) = self.$call() {
                    return AttributeValue::$variant(value);
                }
            };
        }
        macro_rules! wrapped {
            ($call:ident, $variant:ident, $wrapper:ident) => {
                if let Some(value) = self.$call() {
                    return AttributeValue::$variant($wrapper(value));
                }
            };
        }
        macro_rules! exprloc {
            () => {
                if let Some(value) = self.exprloc_value() {
                    return AttributeValue::Exprloc(value);
                }
            };
        }
        match self.name {
            DW_AT_location
            | DW_AT_string_length
            | DW_AT_return_addr
            | DW_AT_frame_base
            | DW_AT_segment
            | DW_AT_static_link
            | DW_AT_use_location
            | DW_AT_vtable_elem_location => {
                exprloc!();
                wrapped!(offset_value, LocationListsRef, LocationListsOffset);
                self.raw_value()
            }
            DW_AT_data_member_location => {
                converted!(udata_value, Udata);
                exprloc!();
                wrapped!(offset_value, LocationListsRef, LocationListsOffset);
                self.raw_value()
            }
            DW_AT_byte_size
            | DW_AT_bit_offset
            | DW_AT_bit_size
            | DW_AT_bit_stride
            | DW_AT_byte_stride => {
                converted!(udata_value, Udata);
                exprloc!();
                self.raw_value()
            }
            DW_AT_high_pc
            | DW_AT_decl_column
            | DW_AT_decl_line
            | DW_AT_call_column
            | DW_AT_call_line => {
                converted!(udata_value, Udata);
                self.raw_value()
            }
            DW_AT_decl_file | DW_AT_call_file => {
                converted!(udata_value, FileIndex);
                self.raw_value()
            }
            DW_AT_address_class => {
                wrapped!(udata_value, AddressClass, DwAddr);
                self.raw_value()
            }
            DW_AT_language => {
                wrapped!(u16_value, Language, DwLang);
                self.raw_value()
            }
            DW_AT_ordering => {
                wrapped!(u8_value, Ordering, DwOrd);
                self.raw_value()
            }
            DW_AT_visibility => {
                wrapped!(u8_value, Visibility, DwVis);
                self.raw_value()
            }
            DW_AT_inline => {
                wrapped!(u8_value, Inline, DwInl);
                self.raw_value()
            }
            DW_AT_accessibility => {
                wrapped!(u8_value, Accessibility, DwAccess);
                self.raw_value()
            }
            DW_AT_calling_convention => {
                wrapped!(u8_value, CallingConvention, DwCc);
                self.raw_value()
            }
            DW_AT_encoding => {
                wrapped!(u8_value, Encoding, DwAte);
                self.raw_value()
            }
            DW_AT_identifier_case => {
                wrapped!(u8_value, IdentifierCase, DwId);
                self.raw_value()
            }
            DW_AT_virtuality => {
                wrapped!(u8_value, Virtuality, DwVirtuality);
                self.raw_value()
            }
            DW_AT_decimal_sign => {
                wrapped!(u8_value, DecimalSign, DwDs);
                self.raw_value()
            }
            DW_AT_endianity => {
                wrapped!(u8_value, Endianity, DwEnd);
                self.raw_value()
            }
            DW_AT_lower_bound
            | DW_AT_upper_bound
            | DW_AT_count
            | DW_AT_allocated
            | DW_AT_associated
            | DW_AT_data_location
            | DW_AT_rank
            | DW_AT_call_value
            | DW_AT_call_origin
            | DW_AT_call_target
            | DW_AT_call_target_clobbered
            | DW_AT_call_data_location
            | DW_AT_call_data_value => {
                exprloc!();
                self.raw_value()
            }
            DW_AT_stmt_list => {
                wrapped!(offset_value, DebugLineRef, DebugLineOffset);
                self.raw_value()
            }
            DW_AT_start_scope | DW_AT_ranges => {
                wrapped!(offset_value, RangeListsRef, RawRangeListsOffset);
                self.raw_value()
            }
            DW_AT_macro_info => {
                wrapped!(offset_value, DebugMacinfoRef, DebugMacinfoOffset);
                self.raw_value()
            }
            DW_AT_macros => {
                wrapped!(offset_value, DebugMacroRef, DebugMacroOffset);
                self.raw_value()
            }
            DW_AT_str_offsets_base => {
                wrapped!(offset_value, DebugStrOffsetsBase, DebugStrOffsetsBase);
                self.raw_value()
            }
            DW_AT_addr_base | DW_AT_GNU_addr_base => {
                wrapped!(offset_value, DebugAddrBase, DebugAddrBase);
                self.raw_value()
            }
            DW_AT_rnglists_base | DW_AT_GNU_ranges_base => {
                wrapped!(offset_value, DebugRngListsBase, DebugRngListsBase);
                self.raw_value()
            }
            DW_AT_loclists_base => {
                wrapped!(offset_value, DebugLocListsBase, DebugLocListsBase);
                self.raw_value()
            }
            DW_AT_GNU_dwo_id => {
                wrapped!(udata_value, DwoId, DwoId);
                self.raw_value()
            }
            _ => self.raw_value(),
        }
    }
}
