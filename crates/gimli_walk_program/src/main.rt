//! The program: it reads files of sections, and writes walks over their first unit, dumps of all
//! units, or the unit to which an address belongs. It hands its words, files and streams to
//! `run_words` of `gimli_walk`; begin there.
#![tactic(auto)]

use gimli_walk::run_words;
use std::io::{self, BufWriter, ErrorKind};
use std::process::ExitCode;
use std::{env, fs};

// The words after the program's name, or none where one is no UTF-8. Refusal: that of memory.
fn words_of(rt: &HostRuntime) -> io::Result<Vec<String>> {
    let mut words = Vec::new(rt.alloc());
    match env::args(rt) {
        Ok(args) => {
            for word in args.skip(1) {
                words.push(word)?;
            }
        }
        Err(error) if error.kind() == ErrorKind::InvalidData => {}
        Err(error) => return Err(error),
    }
    Ok(words)
}

// Does what the words say, and answers the exit status. Refusal: that of memory for the words, or
// for what is written.
fn run(rt: &HostRuntime) -> io::Result<u8> {
    let owned = words_of(rt)?;
    let mut words = Vec::new(rt.alloc());
    for word in &owned {
        words.push(word.as_str())?;
    }
    let read = |name: &str| fs::read(rt, name).ok();
    let mut out = BufWriter::new(rt.alloc(), rt.stdout())?;
    Ok(run_words(rt.alloc(), &words, read, &mut out, &mut rt.stderr()))
}

fn main(rt: HostRuntime) -> ExitCode {
    ExitCode::from(run(&rt).unwrap_or(3))
}
