//! A dump that is taken into memory.

ghost use Rattle.std.specs.Prelude.{◌≡◌, ◌≢◌, ◌^◌, [], All, IfOk, IfErr, OnErr, Some, false};
ghost use Rattle.gimli_base.specs.declared.common.SectionId.TheVariants.{DebugInfo as InfoSection};
ghost use Rattle.gimli_base.specs.declared.error.Error.TheVariants.{OutOfMemory};
ghost use Rattle.gimli_headers.specs.Units.{units_of};
ghost use Rattle.gimli_walk.specs.Text.{Wrote, WroteAll, little_view, unit_takes_memory};
ghost use Rattle.gimli_walk.specs.Dump.{dump_of};

use crate::dump_text;
use gimli_base::{Error, Result};
use std::alloc::Allocator;
use std::io::{self, Write};
use std::mem;

// Bytes as a writer that takes all that it is handed by one copy.
#[derive(Drop)]
struct Bytes<A: Allocator>(Vec<u8, A>);

impl<A: Allocator> Write for Bytes<A> {
    ghost contents = { λ b. Some b.0.items };

    fn write(&mut self, bytes: &[u8]) -> io::Result<usize> {
        self.0.write(bytes)
    }

    fn flush(&mut self) -> io::Result<()> {
        Ok(())
    }

    // (the one that a list of bytes has goes over what is left to be written, in a loop)
    #[inline(always)]
    fn write_all(&mut self, bytes: &[u8]) -> io::Result<()> {
        self.0.extend_from_slice(bytes)?;
        Ok(())
    }
}

/// Puts what `dump_text` writes of these sections onto the end of `text`, and answers the exit
/// status: 1 where a refusal was met, else 0.
///
/// Where memory is refused for a table of abbreviations, whole lines from the front and then
/// `error 24` are put onto `text`, and the status is 1; which tables take some, `dump_text` says.
///
/// Refusal: `OutOfMemory`, where memory is refused for the lines; of an empty section there are
/// none. `text` then holds what it held before; an empty one keeps the room that it has grown to.
pub fn dump_to_vec<A: Allocator + Copy>(
    alloc: A,
    info: &[u8],
    abbreviations: &[u8],
    text: &mut Vec<u8, A>,
) -> Result<u8>
    ensures text { let dump = dump_of info.now abbreviations.now in
        IfOk result (λ status. Wrote (Some text.old.items) (Some text.new.items) dump status) }
    ensures without_memory { let dump = dump_of info.now abbreviations.now in
        let units = (units_of (2 ^ 64) InfoSection (little_view info.now)).items in
        All (λ u. unit_takes_memory (little_view abbreviations.now) u ≡ false) units →
        IfOk result (λ status. WroteAll (Some text.old.items) (Some text.new.items) dump status) }
    ensures refused { IfErr result (λ e. (e ≡ OutOfMemory) × (info.now ≢ [])) }
    ensures kept { OnErr result (text.new.items ≡ text.old.items) }
{
    if info.is_empty() {
        return Ok(0);
    }
    if text.is_empty() {
        return fill(alloc, info, abbreviations, text);
    }
    let mut lines = Vec::new(alloc);
    let status = fill(alloc, info, abbreviations, &mut lines)?;
    text.extend_from_slice(&lines)?;
    Ok(status)
}

// As `dump_to_vec`, for an empty `text`, whose room is used. Refusal: `OutOfMemory`, where memory
// is refused for the lines; `text` is then empty.
fn fill<A: Allocator + Copy>(
    alloc: A,
    info: &[u8],
    abbreviations: &[u8],
    text: &mut Vec<u8, A>,
) -> Result<u8>
    requires { text.old.items ≡ [] }
    ensures text { let dump = dump_of info.now abbreviations.now in
        IfOk result (λ status. Wrote (Some []) (Some text.new.items) dump status) }
    ensures without_memory { let dump = dump_of info.now abbreviations.now in
        let units = (units_of (2 ^ 64) InfoSection (little_view info.now)).items in
        All (λ u. unit_takes_memory (little_view abbreviations.now) u ≡ false) units →
        IfOk result (λ status. WroteAll (Some []) (Some text.new.items) dump status) }
    ensures refused { IfErr result (λ e. e ≡ OutOfMemory) }
    ensures kept { OnErr result (text.new.items ≡ []) }
{
    let mut lines = Bytes(mem::replace(text, Vec::new(alloc)));
    let written = dump_text(alloc, info, abbreviations, &mut lines);
    let Bytes(bytes) = lines;
    *text = bytes;
    match written {
        Ok(status) => Ok(status),
        Err(_) => {
            text.clear();
            Err(Error::OutOfMemory)
        }
    }
}
