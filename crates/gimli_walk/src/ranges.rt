//! Whole runs over a list of ranges.

ghost use Rattle.std.specs.Prelude.{IsTrue};
ghost use Rattle.gimli_base.specs.Offset.{answer_of};
ghost use Rattle.gimli_base.specs.Reading.{is_size};
ghost use Rattle.gimli_lists.specs.Ranges.{resolved_of, range_answers};
ghost use Rattle.gimli_walk.specs.Runs.{RunsAs, answers_of_run};
ghost use Rattle.gimli_base.specs.Sections.{addr_content};

use crate::run::{Run, run_all};
use gimli_base::{DebugAddr, DebugAddrBase, Encoding, RangeListsOffset, Reader, Result, Section};
use gimli_lists::{HasLists, Range, RangeLists};
use std::alloc::Allocator;

/// The answers of the range list at an offset of the section in which a unit with this encoding has
/// its lists: the ranges in order, and each refusal where it comes.
///
/// Offsets count from `base` on, until an entry gives another base address. Addresses that are
/// named by their index are those of the table that begins at `addr_base` in `addr`. The encoding's
/// size of addresses has to be 1, 2, 4 or 8. Refusal: `UnexpectedEof`, where the offset lies after
/// the section's end. Where memory for the answers is refused the run is stopped, and holds the
/// answers before.
#[tactic(auto, unfolding(gimli_lists::specs::Places::list_answers))]
pub fn run_ranges<R: Reader, A: Allocator + Copy>(
    alloc: A,
    lists: &RangeLists<R>,
    offset: RangeListsOffset<R::Offset>,
    encoding: Encoding,
    base: u64,
    addr: &DebugAddr<R>,
    addr_base: DebugAddrBase<R::Offset>,
) -> Result<Run<Result<Range>, A>>
    requires { IsTrue (is_size encoding.address_size) }
    ensures { let addresses = addr_content R.view addr.now in
        let sections = ⟦<RangeLists<R> as HasLists>⟧.lists lists.now in
        RunsAs (answer_of (answers_of_run (answer_of resolved_of)) result)
        (range_answers R.Offset.limit (R.Offset.number offset.0) encoding base addresses
        (R.Offset.number addr_base.0) sections) }
{
    let ranges = lists.ranges(offset, encoding, base, addr, addr_base)?;
    Ok(run_all(alloc, ranges))
}
