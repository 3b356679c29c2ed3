//! Whole runs over a list of locations.

ghost use Rattle.std.specs.Prelude.{◌≡◌, IsTrue};
ghost use Rattle.gimli_base.specs.Offset.{answer_of};
ghost use Rattle.gimli_base.specs.Reading.{is_size};
ghost use Rattle.gimli_lists.specs.Locations.{location_format, location_of, location_answers};
ghost use Rattle.gimli_lists.specs.Places.{list_place_at};
ghost use Rattle.gimli_walk.specs.Runs.{RunsAs, answers_of_run};
ghost use Rattle.gimli_base.specs.Sections.{addr_content};

use crate::run::{Run, run_all};
use gimli_base::{
    DebugAddr, DebugAddrBase, Encoding, LocationListsOffset, Reader, Result, Section,
};
use gimli_lists::{HasLists, LocListIter, LocationListEntry, LocationLists};
use std::alloc::Allocator;

/// The answers of the location list at an offset of the section in which a unit with this encoding
/// has its lists: the locations in order, and each refusal where it comes. `dwo` says that the
/// sections are those of a split file.
///
/// Offsets count from `base` on, until an entry gives another base address. Addresses that are
/// named by their index are those of the table that begins at `addr_base` in `addr`. The encoding's
/// size of addresses has to be 1, 2, 4 or 8. Refusal: `UnexpectedEof`, where the offset lies after
/// the section's end. Where memory for the answers is refused the run is stopped, and holds the
/// answers before.
#[tactic(auto, unfolding(gimli_lists::specs::Places::list_answers))]
pub fn run_locations<R: Reader, A: Allocator + Copy>(
    alloc: A,
    lists: &LocationLists<R>,
    offset: LocationListsOffset<R::Offset>,
    encoding: Encoding,
    base: u64,
    addr: &DebugAddr<R>,
    addr_base: DebugAddrBase<R::Offset>,
    dwo: bool,
) -> Result<Run<Result<LocationListEntry<R>>, A>>
    requires { IsTrue (is_size encoding.address_size) }
    ensures { let addresses = addr_content R.view addr.now in
        let sections = ⟦<LocationLists<R> as HasLists>⟧.lists lists.now in
        RunsAs (answer_of (answers_of_run (answer_of (location_of R.view))) result)
        (location_answers R.Offset.limit dwo (R.Offset.number offset.0) encoding base addresses
        (R.Offset.number addr_base.0) sections) }
{
    let locations = begin(lists, offset, encoding, base, addr, addr_base, dwo)?;
    Ok(run_all(alloc, locations))
}

// The locations of the list at an offset, from the first on; the parameters are those of
// `run_locations`. Refusal: `UnexpectedEof`, where the offset lies after the section's end.
fn begin<R: Reader>(
    lists: &LocationLists<R>,
    offset: LocationListsOffset<R::Offset>,
    encoding: Encoding,
    base: u64,
    addr: &DebugAddr<R>,
    addr_base: DebugAddrBase<R::Offset>,
    dwo: bool,
) -> Result<LocListIter<R>>
    requires { IsTrue (is_size encoding.address_size) }
    ensures { let format = location_format dwo encoding.version in
        let addresses = addr_content R.view addr.now in
        let sections = ⟦<LocationLists<R> as HasLists>⟧.lists lists.now in
        result ≡ list_place_at format (R.Offset.number offset.0) encoding base addresses
        (R.Offset.number addr_base.0) sections }
{
    if dwo {
        lists.locations_dwo(offset, encoding, base, addr, addr_base)
    } else {
        lists.locations(offset, encoding, base, addr, addr_base)
    }
}
