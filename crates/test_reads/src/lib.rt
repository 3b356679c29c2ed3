//! The calls of one read, value, entry or list, which rows of tables name.
#![tactic(auto)]

mod abbreviations;
mod addresses;
mod aranges;
mod attributes;
mod constants;
mod conversions;
mod entries;
mod heads;
mod inputs;
mod items;
mod lists;
mod names;
mod numbers;
mod offsets;
mod reads;
mod refusals;
mod sections;
mod shown;
mod texts;
mod together;
mod turns;
mod units;
mod values;

use crate::abbreviations::{write_abbreviations, write_codes, write_unit_table};
use crate::addresses::{write_address, write_each_size, write_of_size, write_tombstones};
use crate::aranges::{write_aranges, write_set};
use crate::attributes::write_attribute;
use crate::constants::write_code;
use crate::entries::{write_entries, write_entry, write_found};
use crate::heads::write_heads;
use crate::lists::{
    write_list_offset, write_lists_header, write_locations, write_range_count, write_ranges,
};
use crate::names::write_names;
use crate::numbers::{write_bases, write_format, write_offset, write_two_offsets};
use crate::offsets::{write_range, write_section_offset, write_unit_offset};
use crate::reads::{write_reads, write_sizes};
use crate::refusals::write_error;
use crate::sections::write_place;
use crate::texts::{write_text, write_texts};
use crate::together::{write_passed, write_read_together};
use crate::turns::write_turns;
use crate::units::{write_header, write_info, write_info_at, write_types};
use gimli_base::Reader;
use test_tables::{Call, Outcome, Stop, Text};

/// Writes what a call of one read, value, entry or list answers.
pub fn write_read<R: Reader + PartialEq>(call: &Call<'_, R>, out: &mut Text) -> Outcome {
    match call.name() {
        "read" => write_reads(call, out),
        "sizes" => write_sizes(call, out),
        "offset" => write_offset(call, out),
        "add" | "sub" | "compare" => write_two_offsets(call, out),
        "format" => write_format(call, out),
        "bases" => write_bases(call, out),
        "address" => write_address(call, out),
        "address_sizes" => write_each_size(call, out),
        "ones" | "tombstone" | "sum" | "wrapped" => write_of_size(call, out),
        "code" => write_code(call.case, out),
        "refusal" => write_error(call.case, out),
        "lookup" => write_place(call, out),
        "info" => write_info(call, out),
        "types" => write_types(call, out),
        "info_at" => write_info_at(call, out),
        "header" => write_header(call, out),
        "range" => write_range(call, out),
        "tombstones" => write_tombstones(call, out),
        "section_offset" => write_section_offset(call, out),
        "unit_offset" => write_unit_offset(call, out),
        _ => write_of_entry(call, out),
    }
}

// Writes what a call of abbreviations, entries, attributes, texts and lists answers.
fn write_of_entry<R: Reader>(call: &Call<'_, R>, out: &mut Text) -> Outcome {
    match call.name() {
        "abbrev" => write_abbreviations(call, out),
        "abbreviations" => write_unit_table(call, out),
        "codes" => write_codes(call, out),
        "entries" => write_entries(call, out),
        "entry" => write_entry(call, out),
        "find" => write_found(call, out),
        "heads" | "same_heads" => write_heads(call, out),
        "attribute" | "inline" | "taken" | "debug" | "size" => write_attribute(call, out),
        "names" | "raw_names" => write_names(call, out),
        "pass" => write_passed(call, out),
        "list" => write_read_together(call, out),
        "text" => write_text(call, out),
        "texts" => write_texts(call, out),
        "ranges" => write_ranges(call, out),
        "count_ranges" => write_range_count(call, out),
        "locations" | "locations_dwo" => write_locations(call, out),
        "range_offset" | "location_offset" => write_list_offset(call, out),
        "lists_header" => write_lists_header(call, out),
        "aranges" => write_aranges(call, out),
        "set" => write_set(call, out),
        "range_turns" | "location_turns" | "set_turns" => write_turns(call, out),
        _ => Err(Stop::Lacks("no such call")),
    }
}
