//! Places of sections, and of the pairs of sections that have lists.

use gimli_base::{
    DebugAbbrev, DebugAddr, DebugStr, Reader, ReaderOffset, ReaderOffsetId, Section, SectionId,
};
use gimli_headers::{DebugInfo, DebugTypes};
use gimli_lists::{
    DebugAranges, DebugLoc, DebugLocLists, DebugRanges, DebugRngLists, LocationLists, RangeLists,
};
use test_tables::{Call, Outcome, Stop, Text};

/// The range lists of both sections, of which the first is that of versions before 5.
pub(crate) fn range_lists<R: Reader>((old, new): (R, R)) -> RangeLists<R> {
    RangeLists::new(DebugRanges::from(old), DebugRngLists::from(new))
}

/// The location lists of both sections, in the same order.
pub(crate) fn location_lists<R: Reader>((old, new): (R, R)) -> LocationLists<R> {
    LocationLists::new(DebugLoc::from(old), DebugLocLists::from(new))
}

/// Writes the section, and the number of its bytes before a place, if it is one of the section's or of the
/// pair's.
pub(crate) fn write_place<R: Reader>(call: &Call<'_, R>, out: &mut Text) -> Outcome {
    match find_place(call, ReaderOffsetId(call.number(2)?))? {
        Some((section, before)) => write!(out, "{section:?} {}", before.into_u64()),
        None => write!(out, "none"),
    }
    Ok(())
}

// A section, and the number of its bytes before a place.
type Found<R> = Option<(SectionId, <R as Reader>::Offset)>;

// Finds a place in the section of a name, or in a pair of sections.
fn find_place<R: Reader>(call: &Call<'_, R>, place: ReaderOffsetId) -> Outcome<Found<R>> {
    let section = call.section(0)?;
    Ok(match call.case.word(1) {
        Some("abbrev") => find::<DebugAbbrev<R>, R>(section, place),
        Some("addr") => find::<DebugAddr<R>, R>(section, place),
        Some("str") => find::<DebugStr<R>, R>(section, place),
        Some("info") => find::<DebugInfo<R>, R>(section, place),
        Some("types") => find::<DebugTypes<R>, R>(section, place),
        Some("aranges") => find::<DebugAranges<R>, R>(section, place),
        _ => find_in_lists(call, place)?,
    })
}

// Finds a place in the section of a kind.
fn find<S: Section<R> + Drop, R: Reader>(section: R, place: ReaderOffsetId) -> Found<R> {
    S::from(section).lookup_offset_id(place)
}

// Finds a place in the pair of sections that have lists.
fn find_in_lists<R: Reader>(call: &Call<'_, R>, place: ReaderOffsetId) -> Outcome<Found<R>> {
    let both = (call.section(0)?, call.section(1)?);
    match call.case.word(1) {
        Some("ranges") => Ok(range_lists(both).lookup_offset_id(place)),
        Some("locations") => Ok(location_lists(both).lookup_offset_id(place)),
        _ => Err(Stop::Lacks("no section")),
    }
}
