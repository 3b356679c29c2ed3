//! The jobs that users of the libraries wait for, on sections of real programs, as a program to be
//! timed. It prints a digest of all results and no times.
//!
//! The words: a job (or `all`), how many copies of each program are read, how many times, a number that makes
//! the inputs others of the same kind, and the names of programs, whose sections are the files
//! `NAME.info`, `NAME.abbrev` and so on. Before each pass other values are written into entries,
//! tables and lists.
#![tactic(auto)]

mod awkward;
mod check;
mod fold;
mod input;
mod list_places;
mod lists;
mod look_up;
mod places;
mod read;
mod seen;
mod values;

use crate::awkward::Awkward;
use crate::fold::{folded, mixed};
use crate::input::{Input, Needs, Random};
use gimli_base::{EndianSlice, LittleEndian};
use gimli_walk::dump_text;
use std::alloc::Global;
use std::env;
use std::io::{self, Error, ErrorKind};

// What is done with each program.
#[derive(Clone, Copy, Debug, PartialEq, Eq)]
enum Job {
    // each row of each unit, as text
    List,
    // what a debugger does at its start: tables, functions, ranges, units of addresses
    LookUp,
    // every attribute's value, every tree, entries by reference, ranges and locations
    Read,
    // sibling references, every attribute as it is written, raw lists
    Check,
    // the same of sections that no compiler here writes
    Awkward,
}

// The jobs of a word.
fn jobs_of(word: &str) -> &'static [Job] {
    match word {
        "list" => &[Job::List],
        "look_up" => &[Job::LookUp],
        "read" => &[Job::Read],
        "check" => &[Job::Check],
        "awkward" => &[Job::Awkward],
        "all" => &[Job::List, Job::LookUp, Job::Read, Job::Check, Job::Awkward],
        _ => &[],
    }
}

// What a job asks for.
fn needs_of(job: Job) -> Needs {
    match job {
        Job::LookUp => Needs {
            tags: true,
            ranges: true,
            locations: false,
        },
        Job::Read | Job::Check => Needs {
            tags: false,
            ranges: true,
            locations: true,
        },
        Job::List | Job::Awkward => Needs {
            tags: false,
            ranges: false,
            locations: false,
        },
    }
}

// The lines of a dump, as a number.
fn list(alloc: Global, input: &Input, text: &mut Vec<u8>) -> u64 {
    text.clear();
    match dump_text(alloc, &input.info.bytes, &input.abbrev.bytes, text) {
        Ok(status) => mixed(folded(text), u64::from(status)),
        Err(_) => 3,
    }
}

// One pass of a job over a program.
fn pass(alloc: Global, job: Job, input: &Input, text: &mut Vec<u8>, random: &mut Random) -> u64 {
    match job {
        Job::LookUp => look_up::checksum(alloc, input, random),
        Job::Read => read::checksum(
            alloc,
            EndianSlice::new(&input.info.bytes, LittleEndian),
            EndianSlice::new(&input.abbrev.bytes, LittleEndian),
            &input.lists(),
        ),
        Job::Check => check::checksum(
            alloc,
            EndianSlice::new(&input.info.bytes, LittleEndian),
            EndianSlice::new(&input.abbrev.bytes, LittleEndian),
            &input.lists(),
        ),
        Job::List | Job::Awkward => list(alloc, input, text),
    }
}

// All passes of a job over the programs of these names.
fn passes(
    rt: &HostRuntime,
    job: Job,
    copies: u64,
    count: u64,
    random: &mut Random,
    names: &[String],
) -> io::Result<u64> {
    let alloc = rt.alloc();
    let mut inputs = Vec::new(alloc);
    for name in names {
        inputs.push(Input::load(rt, name, copies, needs_of(job))?)?;
    }
    let mut text = Vec::new(alloc);
    let mut sum = 0u64;
    for _ in 0..count {
        for input in &mut inputs {
            input.vary(random);
            sum = mixed(sum, pass(alloc, job, input, &mut text, random));
        }
    }
    Ok(sum)
}

// All passes over awkward sections, which the number makes.
fn awkward_passes(
    rt: &HostRuntime,
    copies: u64,
    count: u64,
    random: &mut Random,
) -> io::Result<u64> {
    let alloc = rt.alloc();
    let mut sections = Awkward::made(alloc, copies, random)?;
    let mut sum = 0u64;
    for _ in 0..count {
        sum = mixed(sum, sections.pass(alloc, random));
    }
    Ok(sum)
}

// The number in a word.
fn number(words: &[String], at: usize) -> Option<u64> {
    words.get(at)?.parse().ok()
}

// Does what the words say; where they say nothing, no job is done.
fn run(rt: &HostRuntime, words: &[String]) -> io::Result<u64> {
    let (Some(word), Some(copies), Some(count), Some(seed), Some(names)) = (
        words.first(),
        number(words, 1),
        number(words, 2),
        number(words, 3),
        words.get(4..),
    ) else {
        return Err(Error::from(ErrorKind::InvalidInput));
    };
    let mut random = Random::new(seed);
    let mut sum = 0u64;
    for job in jobs_of(word) {
        let of_job = match job {
            Job::Awkward => awkward_passes(rt, copies, count, &mut random)?,
            _ => passes(rt, *job, copies, count, &mut random, names)?,
        };
        sum = mixed(sum, of_job);
    }
    Ok(sum)
}

fn main(rt: HostRuntime) -> io::Result<()> {
    let mut words = Vec::new(rt.alloc());
    for word in env::args(&rt)?.skip(1) {
        words.push(word)?;
    }
    let sum = run(&rt, &words)?;
    println!(rt; "{sum:016x}")
}
