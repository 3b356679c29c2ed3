//! The lines of tables.

use crate::answers::is_answer;
use crate::bytes::Names;
use crate::case::{Calls, Case, parse_case};
use crate::program::{Program, Trial};
use crate::text::Text;
use std::alloc::Global;
use std::io::{self, Write};
use std::{env, fs};

/// Tries each table that a word names: writes the rows that are answered otherwise, and the counts. The
/// words that do not end in `.txt` are files that rows name.
pub fn try_tables<P: Program>(rt: &HostRuntime, program: &P) -> io::Result<()> {
    let mut stdout = rt.stdout();
    for name in env::args(rt)?.skip(1) {
        if name.as_str().ends_with(".txt") {
            let text = fs::read_to_string(rt, &name)?;
            let answers = try_table(rt.alloc(), program, &name, &text)?;
            stdout.write_all(&answers)?;
        }
    }
    stdout.flush()
}

// Tries a table. Answers the rows that are answered otherwise, and the counts.
fn try_table<P: Program>(
    alloc: Global,
    program: &P,
    name: &str,
    text: &str,
) -> io::Result<Vec<u8>> {
    let mut table = Table {
        alloc,
        program,
        calls: Calls::Reads,
        names: Names::new(alloc),
        cases: 0,
        differ: 0,
    };
    let mut out = Text::new(alloc);
    for line in text.lines() {
        table.try_line(line, &mut out)?;
    }
    let (cases, differ) = (table.cases, table.differ);
    writeln!(out, "{name}: {cases} cases, {differ} differ");
    Ok(out.finish()?)
}

// A table, the names that its lines gave, how many cases were tried, and how many answers differ.
#[derive(Drop)]
struct Table<'a, P> {
    alloc: Global,
    program: &'a P,
    calls: Calls,
    names: Names,
    cases: u64,
    differ: u64,
}

// What a line `over FIRST LAST ROW` says: a row that is tried for each byte from the first to the last.
fn parse_over(line: &str) -> Option<(u8, u8, &str)> {
    let (first, rest) = line.strip_prefix("over ")?.split_once(" ")?;
    let (last, row) = rest.split_once(" ")?;
    Some((first.parse::<u8>().ok()?, last.parse::<u8>().ok()?, row))
}

impl<'a, P: Program> Table<'a, P> {
    // Tries the rows of a line, if it is neither empty nor a comment, and names neither bytes nor whose calls
    // follow.
    fn try_line(&mut self, line: &str, out: &mut Text) -> io::Result<()> {
        if line.is_empty() || line.starts_with("#") || self.names.take_line(line).is_some() {
            return Ok(());
        }
        if let Some(calls) = Calls::parse(line) {
            self.calls = calls;
            return Ok(());
        }
        match parse_over(line) {
            Some(over) => self.try_rows(over, out),
            None => self.try_row(line, out),
        }
    }

    // Tries a row for each byte, which stands for `{hex}` in two digits, and for `{dec}` in decimal ones.
    fn try_rows(&mut self, over: (u8, u8, &str), out: &mut Text) -> io::Result<()> {
        let (first, last, row) = over;
        for byte in first..=last {
            let hex = format!(in self.alloc; "{byte:02x}")?;
            let dec = format!(in self.alloc; "{byte}")?;
            let row = row.replace(self.alloc, "{hex}", &hex)?;
            let row = row.replace(self.alloc, "{dec}", &dec)?;
            self.try_row(&row, out)?;
        }
        Ok(())
    }

    // Tries a row.
    fn try_row(&mut self, row: &str, out: &mut Text) -> io::Result<()> {
        self.cases = self.cases.saturating_add(1);
        let Some(case) = parse_case(self.alloc, &self.names, self.calls, row) else {
            self.differ = self.differ.saturating_add(1);
            writeln!(out, "no case: {row}");
            return Ok(());
        };
        self.try_case(row, &case, out)
    }

    // Tries a case over both readers, in each of its byte orders.
    fn try_case(&mut self, row: &str, case: &Case, out: &mut Text) -> io::Result<()> {
        for endian in case.orders {
            for is_wide in [true, false] {
                let trial = Trial {
                    program: self.program,
                    alloc: self.alloc,
                    is_wide,
                    endian: *endian,
                };
                if trial.differs(row, case, out)? {
                    self.differ = self.differ.saturating_add(1);
                }
            }
        }
        Ok(())
    }
}

impl<'a, P: Program> Trial<'a, P> {
    // Whether a case is answered otherwise than it wants, and then writes the row with the answer.
    fn differs(&self, row: &str, case: &Case, out: &mut Text) -> io::Result<bool> {
        let found = self.find(case)?;
        let found = str::from_utf8(&found).unwrap_or("no text");
        let wanted = match case.calls {
            // (what is answered where memory is refused is compared there, and what differs is written)
            Calls::Memory => "",
            _ if self.is_wide => &case.wide,
            _ => &case.narrow,
        };
        let differs = !is_answer(wanted, found);
        if differs {
            writeln!(out, "{row}\n  answered: {found}");
        }
        Ok(differs)
    }
}
