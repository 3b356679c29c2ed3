//! The unit to which an address belongs.

ghost use Rattle.std.specs.Prelude.{◌≡◌, OnOk, IfOk};
ghost use Rattle.std.specs.Io.KnownBytes.{Appends};
ghost use Rattle.std.specs.Option.{option_map};
ghost use Rattle.gimli_base.specs.Offset.{answer_of};
ghost use Rattle.gimli_walk.specs.UnitOfAddress.{unit_holding, found_line, none_line, find_of};
ghost use Rattle.gimli_walk.specs.Text.{WroteAll};
ghost use Rattle.gimli_lists.specs.Sections.{aranges_content};

use crate::lines::{WriteFault, write_error};
use gimli_base::{LittleEndian, Reader, ReaderOffset, Result, Section};
use gimli_lists::DebugAranges;
use gimli_units::DebugInfoOffset;
use std::io::Write;
use std::result::Result as StdResult;

/// Where the unit begins in `.debug_info` to which an address belongs: that of the first set, in
/// order, with a range that holds the address; none where no set has one. Tuples whose end does not
/// fit are passed over. No memory is asked for.
///
/// Refusals: those of the header of a set, where no set before it holds the address.
pub fn unit_of_address<R: Reader>(
    aranges: &DebugAranges<R>,
    address: u64,
) -> Result<Option<DebugInfoOffset<R::Offset>>>
    ensures { let section = aranges_content R.view aranges.now in
        answer_of (option_map (λ o. R.Offset.number o.0)) result
        ≡ unit_holding R.Offset.limit address section }
{
    let mut headers = aranges.headers();
    'sets: loop {
        match headers.next() {
            Ok(Some(header)) => {
                if header.holds(address) {
                    return Ok(Some(header.debug_info_offset()));
                }
            }
            Ok(None) => return Ok(None),
            Err(error) => return Err(error),
        }
    }
}

// Writes the line of a unit that was found: `unit`, and in hexadecimal its offset in `.debug_info`.
#[tactic(auto, unfolding(crate::specs::UnitOfAddress::found_line))]
fn write_found<W: Write>(out: &mut W, offset: u64) -> StdResult<(), WriteFault>
    ensures { OnOk result (Appends (W.contents out.old) (W.contents out.new) (found_line offset)) }
{
    write!(out, "unit {offset:x}\n").map_err(|_| WriteFault)
}

// Writes the line `none`, where no unit was found.
fn write_none<W: Write>(out: &mut W) -> StdResult<(), WriteFault>
    ensures { OnOk result (Appends (W.contents out.old) (W.contents out.new) none_line) }
{
    out.write_all(b"none\n").map_err(|_| WriteFault)
}

/// Writes where the unit begins to which an address belongs, as `unit OFFSET` in hexadecimal, or
/// `none`, or `error` and the number of the refusal, and answers the exit status: 1 where a refusal
/// was met, else 0. The section is little endian. The search takes no memory.
///
/// Refusal: `WriteFault`, where `out` refuses a write. Nothing more is written then, and nothing is
/// said of what was written before.
pub fn find_text<W: Write>(address: u64, aranges: &[u8], out: &mut W) -> StdResult<u8, WriteFault>
    ensures { let text = find_of address aranges.now in
        IfOk result (λ status. WroteAll (W.contents out.old) (W.contents out.new) text status) }
{
    let debug_aranges = DebugAranges::new(aranges, LittleEndian);
    match unit_of_address(&debug_aranges, address) {
        Ok(Some(offset)) => {
            write_found(out, offset.0.into_u64())?;
            Ok(0)
        }
        Ok(None) => {
            write_none(out)?;
            Ok(0)
        }
        Err(error) => {
            write_error(out, error)?;
            Ok(1)
        }
    }
}
