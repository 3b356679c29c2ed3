//! The rows of pairs of section files.

use gimli_walk::run_words;
use std::fs;
use test_tables::{Case, Outcome, Stop, Text};

/// Writes what a word of the program says of the files `NAME.info` and `NAME.abbrev`, and then the status.
/// The words of the case are that word and `NAME`, and the files lie in a folder. The lines of `check` are
/// written; those of another word are compared with `NAME.WORD`, and what is written is whether they are
/// the same, or else from which line on they are others.
pub(crate) fn try_file(rt: &HostRuntime, folder: &str, case: &Case, out: &mut Text) -> Outcome {
    let alloc = rt.alloc();
    let word = case.word(1).unwrap_or("");
    let name = case.word(2).unwrap_or("");
    let info = format!(in alloc; "{folder}{name}.info")?;
    let abbrev = format!(in alloc; "{folder}{name}.abbrev")?;
    let read = |name: &str| fs::read(rt, name).ok();
    let mut found = Vec::new(alloc);
    let words = [word, info.as_str(), abbrev.as_str()];
    let status = run_words(alloc, &words, &read, &mut found, &mut rt.stderr());
    if word == "check" {
        out.push_bytes(&found);
    } else {
        let wanted = format!(in alloc; "{folder}{name}.{word}")?;
        let Ok(wanted) = fs::read(rt, &wanted) else {
            return Err(Stop::Lacks("no such file"));
        };
        write_difference(&wanted, &found, out);
    }
    writeln!(out, "status {status}");
    Ok(())
}

// Writes whether two texts are the same, or else which line is the first that they do not share.
fn write_difference(wanted: &[u8], found: &[u8], out: &mut Text) {
    if wanted == found {
        return writeln!(out, "its lines");
    }
    let mut line = 1_u64;
    for (byte, other) in found.iter().zip(wanted) {
        if byte != other {
            break;
        }
        line = line.saturating_add(u64::from(*byte == b'\n'));
    }
    writeln!(out, "other lines, from line {line}");
}
