//! Tries the tables of tests: reads, numbers, abbreviations, units, entries, attributes and lists; bases, and
//! values by them; walks; and calls that memory is refused for.
#![tactic(auto)]

use gimli_base::Reader;
use std::{env, io};
use test_dwarf::write_dwarf;
use test_reads::write_read;
use test_tables::{Call, Calls, Outcome, Program, Text, try_tables};
use test_walks::{write_refused, write_walk};

fn main(rt: HostRuntime) -> io::Result<()> {
    let mut is_above = false;
    for name in env::args(&rt)?.skip(1) {
        is_above = is_above || name.as_str().starts_with("data/");
    }
    let folder = folder_of(is_above);
    try_tables(&rt, &Vectors { rt: &rt, folder })
}

// The folder of the files that rows name, which lie beside the tables.
fn folder_of(is_above: bool) -> &'static str {
    if is_above { "data/" } else { "" }
}

// The program: the handle of the files that rows name, and the folder that they lie in.
#[derive(Drop)]
struct Vectors<'a> {
    rt: &'a HostRuntime,
    folder: &'a str,
}

impl<'a> Program for Vectors<'a> {
    fn answer<R: Reader + PartialEq>(&self, call: &Call<'_, R>, out: &mut Text) -> Outcome {
        match call.case.calls {
            Calls::Reads => write_read(call, out),
            Calls::Dwarf => write_dwarf(call, out),
            Calls::Walks => write_walk(self.rt, self.folder, call, out),
            Calls::Memory => write_refused(call, out),
        }
    }
}
