//! Runs over range lists and location lists.

use crate::runs::write_run;
use gimli_base::{
    DebugAddr, DebugAddrBase, LocationListsOffset, RangeListsOffset, Reader, ReaderOffset,
};
use gimli_lists::{DebugLoc, DebugLocLists, DebugRanges, DebugRngLists, LocationLists, RangeLists};
use gimli_walk::{run_locations, run_ranges};
use std::alloc::Allocator;
use test_tables::{Call, Outcome, Text};

/// Writes each range or location of a list, and each refusal where it comes.
pub(crate) fn write_list<R: Reader, A: Allocator + Copy>(
    call: &Call<'_, R>,
    heap: A,
    out: &mut Text,
) -> Outcome {
    let encoding = call.sized_encoding(1)?;
    let base = call.case.number(4).unwrap_or(0);
    let offset = call.offset_or_zero(5)?;
    let (section, same) = (call.section(0)?, call.section(0)?);
    let addr = DebugAddr::from(call.second_or_end()?);
    let addr_base = DebugAddrBase(R::Offset::from_u8(0));
    if call.name() == "ranges" {
        let lists = RangeLists::new(DebugRanges::from(section), DebugRngLists::from(same));
        let at = RangeListsOffset(offset);
        let run = run_ranges(heap, &lists, at, encoding, base, &addr, addr_base)?;
        write_run(&run, out);
        return Ok(());
    }
    // whether the section is that of a split file
    let dwo = call.name() == "locations_dwo";
    let lists = LocationLists::new(DebugLoc::from(section), DebugLocLists::from(same));
    let at = LocationListsOffset(offset);
    let run = run_locations(heap, &lists, at, encoding, base, &addr, addr_base, dwo)?;
    write_run(&run, out);
    Ok(())
}
