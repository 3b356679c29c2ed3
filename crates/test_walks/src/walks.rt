//! The calls of walks: what cursors, trees, runs and the words of the program answer.

mod entries;
mod files;
mod steps;

use crate::runs::write_section_run;
use crate::texts::{write_dump, write_with_status};
use crate::walks::entries::{write_entries, write_entry_at, write_raw};
use crate::walks::files::try_file;
use crate::walks::steps::{write_walk_at, write_walked};
use gimli_base::Reader;
use test_tables::{Call, Outcome, Text};

/// Writes what a call of walks answers, where the files that rows name lie in a folder.
pub fn write_walk<R: Reader>(
    rt: &HostRuntime,
    folder: &str,
    call: &Call<'_, R>,
    out: &mut Text,
) -> Outcome {
    match call.name() {
        "file" => try_file(rt, folder, call.case, out),
        "rows" | "words" => write_with_status(call, call.alloc, 0, out),
        "dump_to_vec" => write_dump(call, call.alloc, out),
        "cursor" | "plain" | "tree" => write_walked(call, out),
        "cursor_at" | "plain_at" | "tree_at" => write_walk_at(call, out),
        "raw" => write_raw(call, out),
        "entries" => write_entries(call, out),
        "entry" => write_entry_at(call, out),
        _ => write_section_run(call, call.alloc, out),
    }
}
