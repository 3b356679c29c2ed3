//! The lines of a walk.

ghost use Rattle.std.specs.Prelude.{◌≡◌, ◌≤◌, OnOk, drop};
ghost use Rattle.std.specs.Io.KnownBytes.{Appends};
ghost use Rattle.gimli_base.specs.Refusal.{number_of};
ghost use Rattle.gimli_walk.specs.declared.lines.Stop.TheVariants.{Write as WriteStop};
ghost use Rattle.gimli_walk.specs.Lines.{row_line, end_line, no_unit_line, error_line};
ghost use Rattle.gimli_walk.specs.Lines.{error_line_at, unit_line, honest_line, false_line};

use crate::digits::{put_byte, put_hexadecimal, put_short, put_signed};
use gimli_base::Error;
use std::io::Write;

/// A write that failed.
#[derive(Clone, Copy, Debug, PartialEq, Eq)]
pub struct WriteFault;

/// Why lines end before their last one.
#[derive(Clone, Copy, Debug, PartialEq, Eq)]
pub(crate) enum Stop {
    /// Memory was refused, between two lines.
    Memory,
    /// A write failed.
    Write,
}

impl From<WriteFault> for Stop {
    ghost from_gives = { λ _ s. s ≡ WriteStop };

    fn from(_fault: WriteFault) -> Stop {
        Stop::Write
    }
}

// Puts the line of a row, as `write_row` says, at the end of a buffer, and answers where it begins.
// It has at most 45 bytes: 16 digits, a sign and 19 digits, 4 digits, the flag, three spaces and
// the end.
#[inline(always)]
fn put_row(offset: u64, depth: isize, tag: u16, has_children: bool, line: &mut [u8; 48]) -> usize
    ensures within { result ≤ 48 }
    ensures value { drop result line.new ≡ row_line offset depth tag has_children }
{
    let flag = u8::from(has_children);
    let end = put_byte(b'\n', 48, line);
    let flag_at = put_byte(b'0' + flag, end, line);
    let gap = put_byte(b' ', flag_at, line);
    let tag_at = put_short(tag, gap, line);
    let gap = put_byte(b' ', tag_at, line);
    let depth_at = put_signed(depth, gap, line);
    let gap = put_byte(b' ', depth_at, line);
    put_hexadecimal(offset, gap, line)
}

/// Writes the line of a row: its offset in hexadecimal, its depth in decimal, its tag in
/// hexadecimal, and `has_children` as 1 or 0. It is put together in `line`, whatever stands there,
/// and written at once.
pub(crate) fn write_row<W: Write>(
    out: &mut W,
    line: &mut [u8; 48],
    offset: u64,
    depth: isize,
    tag: u16,
    has_children: bool,
) -> Result<(), WriteFault>
    ensures { OnOk result
        (Appends (W.contents out.old) (W.contents out.new)
        (row_line offset depth tag has_children)) }
{
    let begin = put_row(offset, depth, tag, has_children, line);
    let text: &[u8] = line;
    out.write_all(&text[begin..]).map_err(|_| WriteFault)
}

/// Writes the line `end`: after the last row of a unit, or for a list of children that is at its
/// end.
pub(crate) fn write_end<W: Write>(out: &mut W) -> Result<(), WriteFault>
    ensures { OnOk result (Appends (W.contents out.old) (W.contents out.new) end_line) }
{
    out.write_all(b"end\n").map_err(|_| WriteFault)
}

/// Writes the line `no unit`, of a section without units.
pub(crate) fn write_no_unit<W: Write>(out: &mut W) -> Result<(), WriteFault>
    ensures { OnOk result (Appends (W.contents out.old) (W.contents out.new) no_unit_line) }
{
    out.write_all(b"no unit\n").map_err(|_| WriteFault)
}

/// Writes the line of a refusal: `error` and its number.
#[tactic(auto, unfolding(crate::specs::Lines::error_line))]
pub(crate) fn write_error<W: Write>(out: &mut W, error: Error) -> Result<(), WriteFault>
    ensures { OnOk result
        (Appends (W.contents out.old) (W.contents out.new) (error_line (number_of error))) }
{
    let number = error.number();
    write!(out, "error {number}\n").map_err(|_| WriteFault)
}

/// Writes the line of a refusal at an offset of the unit: `error`, its number, and the offset in
/// hexadecimal.
#[tactic(auto, unfolding(crate::specs::Lines::error_line_at))]
pub(crate) fn write_error_at<W: Write>(
    out: &mut W,
    error: Error,
    offset: u64,
) -> Result<(), WriteFault>
    ensures { OnOk result
        (Appends (W.contents out.old) (W.contents out.new)
        (error_line_at (number_of error) offset)) }
{
    let number = error.number();
    write!(out, "error {number} {offset:x}\n").map_err(|_| WriteFault)
}

/// Writes the line of a unit: `unit`, its offset and the number of its type in hexadecimal, and
/// between them its version in decimal.
#[tactic(auto, unfolding(crate::specs::Lines::unit_line))]
pub(crate) fn write_unit_line<W: Write>(
    out: &mut W,
    offset: u64,
    version: u16,
    type_number: u8,
) -> Result<(), WriteFault>
    ensures { OnOk result
        (Appends (W.contents out.old) (W.contents out.new) (unit_line offset version type_number)) }
{
    write!(out, "unit {offset:x} {version} {type_number:x}\n").map_err(|_| WriteFault)
}

/// Writes the line `honest`, of a unit whose sibling references are.
pub(crate) fn write_honest<W: Write>(out: &mut W) -> Result<(), WriteFault>
    ensures { OnOk result (Appends (W.contents out.old) (W.contents out.new) honest_line) }
{
    out.write_all(b"honest\n").map_err(|_| WriteFault)
}

/// Writes the line of an entry whose sibling reference is false: `false`, and in hexadecimal the
/// entry's offset in the unit.
#[tactic(auto, unfolding(crate::specs::Lines::false_line))]
pub(crate) fn write_false<W: Write>(out: &mut W, offset: u64) -> Result<(), WriteFault>
    ensures { OnOk result (Appends (W.contents out.old) (W.contents out.new) (false_line offset)) }
{
    write!(out, "false {offset:x}\n").map_err(|_| WriteFault)
}
