//! The words of the command line.

ghost use Rattle.std.specs.Prelude.{◌≡◌, ◌⊎◌, true, false};
ghost use Rattle.std.specs.Io.KnownBytes.{Keeps};
ghost use Rattle.gimli_walk.specs.declared.mode.Mode.TheVariants.{Rows, Check};
ghost use Rattle.gimli_walk.specs.Text.{WroteAll};
ghost use Rattle.gimli_walk.specs.UnitOfAddress.{find_of};
ghost use Rattle.gimli_walk.specs.Words.{word, AsksRows, AsksCheck, AsksDump, AsksFind, AsksCursor};
ghost use Rattle.gimli_walk.specs.Words.{AsksPlain, AsksTree, SaysNothing};
ghost use Rattle.gimli_walk.specs.Words.{cursor_step_of, tree_step_of, cursor_mode, tree_mode};
ghost use Rattle.gimli_walk.specs.Words.{OfTwoFiles, OfFile, SaysWalk, SaysPlainWalk, SaysDump};
ghost use Rattle.gimli_walk.specs.Words.{BySteps, AtAddress};

use crate::letters::{Lettered, address_in, are_steps, steps_in};
use crate::{CursorStep, Mode, TreeStep, dump_text, find_text, walk_text};
use std::alloc::Allocator;
use std::io::Write;

const USAGE: &str = "usage: gimli_walk rows|cursor|tree INFO ABBREV [STEPS]\n";

/// Does what the words after the program's name say, and answers the exit status.
///
/// `rows`, `check` and `dump` stand before the names of two files, those of `.debug_info` and
/// `.debug_abbrev`; `cursor`, `plain` and `tree` before these and the letters of steps; `find`
/// before the name of a file, that of `.debug_aranges`, and an address in hexadecimal. The letters
/// are `e`, `d` and `s` for the steps of a cursor, in the order of `CursorStep`, and `r`, `n`, `i`
/// and `o` for those of a tree, in the order of `TreeStep`. `read` gives the bytes of a file, or
/// none where it can't be read.
///
/// Status 2 is that of words, letters or an address that say nothing: no file is read then, nothing
/// is written to `out`, and the usage to `err`. Status 3 is that of a file that can't be read,
/// whose name is written to `err`, of a write that failed, or of memory refused for the steps; any
/// other is that of the text.
pub fn run_words<A: Allocator + Copy, F: FnMut(&str) -> Option<Vec<u8>>, W: Write, E: Write>(
    alloc: A,
    words: &[&str],
    read: F,
    out: &mut W,
    err: &mut E,
) -> u8
    requires { F.IsAlwaysCallable read }
    ensures usage { SaysNothing words.now → (result ≡ 2) × (out.new ≡ out.old) }
    ensures rows { let old = W.contents out.old in
        let new = W.contents out.new in
        AsksRows words.now →
        OfTwoFiles F.FnMut (λ v. v.items) read (word words.now 1) (word words.now 2) old new
        (SaysPlainWalk Rows old new) result }
    ensures check { let old = W.contents out.old in
        let new = W.contents out.new in
        AsksCheck words.now →
        OfTwoFiles F.FnMut (λ v. v.items) read (word words.now 1) (word words.now 2) old new
        (SaysPlainWalk Check old new) result }
    ensures dump { let old = W.contents out.old in
        let new = W.contents out.new in
        AsksDump words.now →
        OfTwoFiles F.FnMut (λ v. v.items) read (word words.now 1) (word words.now 2) old new
        (SaysDump old new) result }
    ensures find { let old = W.contents out.old in
        let new = W.contents out.new in
        AsksFind words.now → AtAddress (word words.now 2) old new (λ address.
        OfFile F.FnMut (λ v. v.items) read (word words.now 1) old new
        (λ bytes. WroteAll old new (find_of address bytes))) result }
    ensures cursor { let old = W.contents out.old in
        let new = W.contents out.new in
        AsksCursor words.now → BySteps cursor_step_of (word words.now 3) old new (λ steps.
        OfTwoFiles F.FnMut (λ v. v.items) read (word words.now 1) (word words.now 2) old new
        (SaysWalk (cursor_mode true steps) old new)) result }
    ensures plain { let old = W.contents out.old in
        let new = W.contents out.new in
        AsksPlain words.now → BySteps cursor_step_of (word words.now 3) old new (λ steps.
        OfTwoFiles F.FnMut (λ v. v.items) read (word words.now 1) (word words.now 2) old new
        (SaysWalk (cursor_mode false steps) old new)) result }
    ensures tree { let old = W.contents out.old in
        let new = W.contents out.new in
        AsksTree words.now → BySteps tree_step_of (word words.now 3) old new (λ steps.
        OfTwoFiles F.FnMut (λ v. v.items) read (word words.now 1) (word words.now 2) old new
        (SaysWalk (tree_mode steps) old new)) result }
{
    match words {
        ["rows", info, abbrev] => walk_files(alloc, Mode::Rows, info, abbrev, read, out, err),
        ["check", info, abbrev] => walk_files(alloc, Mode::Check, info, abbrev, read, out, err),
        ["dump", info, abbrev] => dump_files(alloc, info, abbrev, read, out, err),
        ["find", aranges, address] => find_file(aranges, address, read, out, err),
        ["cursor", info, abbrev, letters] => {
            walk_cursor(alloc, true, [info, abbrev, letters], read, out, err)
        }
        ["plain", info, abbrev, letters] => {
            walk_cursor(alloc, false, [info, abbrev, letters], read, out, err)
        }
        ["tree", info, abbrev, letters] => {
            walk_tree(alloc, [info, abbrev, letters], read, out, err)
        }
        _ => usage(err),
    }
}

// Walks as `walk_files` does, by the steps of a cursor that letters name; `follows` says whether it
// follows sibling references. `words` are the names of the files of `.debug_info` and
// `.debug_abbrev`, and the letters. Answers the exit status: 2 where a letter names no step, 3
// where memory for the steps is refused, and in both cases no file is read; else that of
// `walk_files`.
fn walk_cursor<A: Allocator + Copy, F: FnMut(&str) -> Option<Vec<u8>>, W: Write, E: Write>(
    alloc: A,
    follows: bool,
    words: [&str; 3],
    read: F,
    out: &mut W,
    err: &mut E,
) -> u8
    requires { F.IsAlwaysCallable read }
    ensures { let old = W.contents out.old in
        let new = W.contents out.new in
        let info = word words.entry 0 in
        let table = word words.entry 1 in
        BySteps cursor_step_of (word words.entry 2) old new (λ steps.
        OfTwoFiles F.FnMut (λ v. v.items) read info table old new
        (SaysWalk (cursor_mode follows steps) old new)) result }
{
    let [info, abbrev, letters] = words;
    if !are_steps::<CursorStep>(letters) {
        return usage(err);
    }
    let Ok(steps) = steps_in(alloc, letters) else {
        return 3;
    };
    let mode = if follows {
        Mode::Cursor(&steps)
    } else {
        Mode::Plain(&steps)
    };
    walk_files(alloc, mode, info, abbrev, read, out, err)
}

// Walks as `walk_files` does, by the steps of a tree that letters name. `words` and the exit status
// are as in `walk_cursor`.
fn walk_tree<A: Allocator + Copy, F: FnMut(&str) -> Option<Vec<u8>>, W: Write, E: Write>(
    alloc: A,
    words: [&str; 3],
    read: F,
    out: &mut W,
    err: &mut E,
) -> u8
    requires { F.IsAlwaysCallable read }
    ensures { let old = W.contents out.old in
        let new = W.contents out.new in
        let info = word words.entry 0 in
        let table = word words.entry 1 in
        BySteps tree_step_of (word words.entry 2) old new (λ steps.
        OfTwoFiles F.FnMut (λ v. v.items) read info table old new
        (SaysWalk (tree_mode steps) old new)) result }
{
    let [info, abbrev, letters] = words;
    if !are_steps::<TreeStep>(letters) {
        return usage(err);
    }
    let Ok(steps) = steps_in(alloc, letters) else {
        return 3;
    };
    walk_files(alloc, Mode::Tree(&steps), info, abbrev, read, out, err)
}

// Reads the files of `.debug_info` and `.debug_abbrev`, in this order, and writes what `walk_text`
// writes of them. Answers the exit status: 3 where a file can't be read, and then nothing is
// written to `out`, or where a write failed; else that of `walk_text`.
fn walk_files<A: Allocator + Copy, F: FnMut(&str) -> Option<Vec<u8>>, W: Write, E: Write>(
    alloc: A,
    mode: Mode<'_>,
    info: &str,
    abbrev: &str,
    mut read: F,
    out: &mut W,
    err: &mut E,
) -> u8
    requires { F.IsAlwaysCallable read }
    ensures { let old = W.contents out.old in
        let new = W.contents out.new in
        OfTwoFiles F.FnMut (λ v. v.items) read info.now abbrev.now old new
        (SaysWalk mode.entry old new) result }
{
    let Some(info_bytes) = read(info) else {
        return cannot_read(err, info);
    };
    let Some(abbrev_bytes) = read(abbrev) else {
        return cannot_read(err, abbrev);
    };
    let status = walk_text(alloc, mode, &info_bytes, &abbrev_bytes, out).unwrap_or(3);
    flush_status(status, out)
}

// Reads the files of `.debug_info` and `.debug_abbrev`, in this order, and writes what `dump_text`
// writes of them. Answers the exit status: 3 where a file can't be read, and then nothing is
// written to `out`, or where a write failed; else that of `dump_text`.
fn dump_files<A: Allocator + Copy, F: FnMut(&str) -> Option<Vec<u8>>, W: Write, E: Write>(
    alloc: A,
    info: &str,
    abbrev: &str,
    mut read: F,
    out: &mut W,
    err: &mut E,
) -> u8
    requires { F.IsAlwaysCallable read }
    ensures { let old = W.contents out.old in
        let new = W.contents out.new in
        OfTwoFiles F.FnMut (λ v. v.items) read info.now abbrev.now old new
        (SaysDump old new) result }
{
    let Some(info_bytes) = read(info) else {
        return cannot_read(err, info);
    };
    let Some(abbrev_bytes) = read(abbrev) else {
        return cannot_read(err, abbrev);
    };
    let status = dump_text(alloc, &info_bytes, &abbrev_bytes, out).unwrap_or(3);
    flush_status(status, out)
}

// Writes what `find_text` writes of an address, whose digits are `letters`, and of a file of
// `.debug_aranges`. Answers the exit status: 2 where the letters write no address, and no file is
// read; 3 where the file can't be read or a write failed; else that of `find_text`.
fn find_file<F: FnMut(&str) -> Option<Vec<u8>>, W: Write, E: Write>(
    aranges: &str,
    letters: &str,
    mut read: F,
    out: &mut W,
    err: &mut E,
) -> u8
    requires { F.IsAlwaysCallable read }
    ensures { let old = W.contents out.old in
        let new = W.contents out.new in
        AtAddress letters.now old new (λ address.
        OfFile F.FnMut (λ v. v.items) read aranges.now old new
        (λ bytes. WroteAll old new (find_of address bytes))) result }
{
    let Some(address) = address_in(letters) else {
        return usage(err);
    };
    let Some(bytes) = read(aranges) else {
        return cannot_read(err, aranges);
    };
    let status = find_text(address, &bytes, out).unwrap_or(3);
    flush_status(status, out)
}

// Flushes `out`, and answers this status, or 3 where that fails.
fn flush_status<W: Write>(status: u8, out: &mut W) -> u8
    ensures { (result ≡ 3) ⊎ ((result ≡ status) × Keeps (W.contents out.old) (W.contents out.new)) }
{
    if out.flush().is_err() { 3 } else { status }
}

// Writes to `err` how the program is called, and answers status 2, also where that write fails.
fn usage<E: Write>(err: &mut E) -> u8
    ensures { result ≡ 2 }
{
    let _ = err.write_all(USAGE.as_bytes());
    2
}

// Writes to `err` which file can't be read, and answers status 3, also where that write fails.
fn cannot_read<E: Write>(err: &mut E, name: &str) -> u8
    ensures { result ≡ 3 }
{
    let _ = write!(err, "cannot read {name}\n");
    3
}
