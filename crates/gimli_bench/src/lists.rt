//! The ranges and the locations of entries.

use crate::fold::{mixed, refused, with_ends};
use crate::seen::Seen;
use gimli_base::{
    DW_AT_addr_base, DW_AT_loclists_base, DW_AT_low_pc, DW_AT_rnglists_base, DebugAddr,
    DebugAddrBase, DebugLocListsBase, DebugRngListsBase, Encoding, LocationListsOffset,
    RangeListsOffset, Reader, ReaderOffset, Result,
};
use gimli_lists::{
    LocListIter, LocationLists, RangeLists, RawLocListEntry, RawRngListEntry, RngListIter,
};
use gimli_units::{AttributeValue, DebuggingInformationEntry};
use std::alloc::Global;

/// The sections of lists, and of the addresses that they name.
#[derive(Drop)]
pub(crate) struct Lists<R> {
    pub(crate) ranges: RangeLists<R>,
    pub(crate) locations: LocationLists<R>,
    pub(crate) addresses: DebugAddr<R>,
}

/// The offsets of the lists that were read in a pass.
#[derive(Drop)]
pub(crate) struct SeenLists {
    ranges: Seen,
    locations: Seen,
}

impl SeenLists {
    /// None.
    pub(crate) fn new(alloc: Global) -> Self {
        SeenLists {
            ranges: Seen::new(alloc),
            locations: Seen::new(alloc),
        }
    }
}

/// Where a unit's addresses and lists begin, as its root says.
#[derive(Clone, Copy)]
pub(crate) struct Bases<Offset> {
    pub(crate) encoding: Encoding,
    low_pc: u64,
    addr: DebugAddrBase<Offset>,
    rnglists: DebugRngListsBase<Offset>,
    loclists: DebugLocListsBase<Offset>,
}

impl<O: ReaderOffset> Bases<O> {
    /// Those of a unit whose root says nothing.
    pub(crate) fn none(encoding: Encoding) -> Self {
        Bases {
            encoding,
            low_pc: 0,
            addr: DebugAddrBase(O::from_u8(8)),
            rnglists: DebugRngListsBase(O::from_u8(12)),
            loclists: DebugLocListsBase(O::from_u8(12)),
        }
    }
}

impl<R: Reader> Lists<R> {
    /// The bases that a root gives.
    pub(crate) fn bases(
        &self,
        encoding: Encoding,
        root: &DebuggingInformationEntry<R, Global>,
    ) -> Bases<R::Offset> {
        let mut bases = Bases::none(encoding);
        let addr = root.attr_value(DW_AT_addr_base);
        match &addr {
            Some(AttributeValue::DebugAddrBase(base)) => bases.addr = *base,
            _ => {}
        }
        let rnglists = root.attr_value(DW_AT_rnglists_base);
        match &rnglists {
            Some(AttributeValue::DebugRngListsBase(base)) => bases.rnglists = *base,
            _ => {}
        }
        let loclists = root.attr_value(DW_AT_loclists_base);
        match &loclists {
            Some(AttributeValue::DebugLocListsBase(base)) => bases.loclists = *base,
            _ => {}
        }
        let low_pc = root.attr_value(DW_AT_low_pc);
        match &low_pc {
            Some(value) => bases.low_pc = self.address(&bases, value).unwrap_or(0),
            None => {}
        }
        bases
    }

    /// The address that a value is, if it is one.
    pub(crate) fn address(
        &self,
        bases: &Bases<R::Offset>,
        value: &AttributeValue<R>,
    ) -> Option<u64> {
        match value {
            AttributeValue::Addr(address) => Some(*address),
            AttributeValue::DebugAddrIndex(index) => self
                .addresses
                .get_address(8, bases.addr, *index)
                .ok(),
            _ => None,
        }
    }

    // The offset of the list of ranges that a value names, if it names one.
    fn range_list(
        &self,
        bases: &Bases<R::Offset>,
        value: &AttributeValue<R>,
    ) -> Result<Option<RangeListsOffset<R::Offset>>> {
        match value {
            AttributeValue::RangeListsRef(offset) => Ok(Some(RangeListsOffset(offset.0))),
            AttributeValue::DebugRngListsIndex(index) => {
                let ranges = &self.ranges;
                Ok(Some(ranges.get_offset(bases.encoding, bases.rnglists, *index)?))
            }
            _ => Ok(None),
        }
    }

    // The offset of the list of locations that a value names, if it names one.
    fn location_list(
        &self,
        bases: &Bases<R::Offset>,
        value: &AttributeValue<R>,
    ) -> Result<Option<LocationListsOffset<R::Offset>>> {
        match value {
            AttributeValue::LocationListsRef(offset) => Ok(Some(*offset)),
            AttributeValue::DebugLocListsIndex(index) => {
                let locations = &self.locations;
                Ok(Some(locations.get_offset(bases.encoding, bases.loclists, *index)?))
            }
            _ => Ok(None),
        }
    }

    /// A checksum with the ranges or the locations that a value names, if their list is new.
    pub(crate) fn with_value(
        &self,
        sum: u64,
        bases: &Bases<R::Offset>,
        value: &AttributeValue<R>,
        seen: &mut SeenLists,
    ) -> u64 {
        match self.with_resolved(sum, bases, value, seen) {
            Ok(all) => all,
            Err(error) => refused(sum, error),
        }
    }

    // The same, or the refusal of an offset.
    fn with_resolved(
        &self,
        sum: u64,
        bases: &Bases<R::Offset>,
        value: &AttributeValue<R>,
        seen: &mut SeenLists,
    ) -> Result<u64> {
        let mut encoding = bases.encoding;
        encoding.address_size = 8;
        let addresses = &self.addresses;
        if let Some(offset) = self.range_list(bases, value)? {
            if seen.ranges.is_new(offset.0.into_u64()) {
                let ranges = &self.ranges;
                let mut list = ranges.ranges(
                    offset,
                    encoding,
                    bases.low_pc,
                    addresses,
                    bases.addr,
                )?;
                return Ok(with_ranges(sum, &mut list));
            }
        }
        if let Some(offset) = self.location_list(bases, value)? {
            if seen.locations.is_new(offset.0.into_u64()) {
                let locations = &self.locations;
                let mut list = locations.locations(
                    offset,
                    encoding,
                    bases.low_pc,
                    addresses,
                    bases.addr,
                )?;
                return Ok(with_locations(sum, &mut list));
            }
        }
        Ok(sum)
    }

    /// A checksum with the entries, as they are written, of the list that a value names, if the list
    /// is new.
    pub(crate) fn with_raw(
        &self,
        sum: u64,
        bases: &Bases<R::Offset>,
        value: &AttributeValue<R>,
        seen: &mut SeenLists,
    ) -> u64 {
        match self.with_written(sum, bases, value, seen) {
            Ok(all) => all,
            Err(error) => refused(sum, error),
        }
    }

    // The same, or the refusal of an offset.
    fn with_written(
        &self,
        sum: u64,
        bases: &Bases<R::Offset>,
        value: &AttributeValue<R>,
        seen: &mut SeenLists,
    ) -> Result<u64> {
        if let Some(offset) = self.range_list(bases, value)? {
            if seen.ranges.is_new(offset.0.into_u64()) {
                return self.with_raw_ranges(sum, bases.encoding, offset);
            }
        }
        if let Some(offset) = self.location_list(bases, value)? {
            if seen.locations.is_new(offset.0.into_u64()) {
                return self.with_raw_locations(sum, bases.encoding, offset);
            }
        }
        Ok(sum)
    }

    // The same of a list of ranges.
    fn with_raw_ranges(
        &self,
        sum: u64,
        encoding: Encoding,
        offset: RangeListsOffset<R::Offset>,
    ) -> Result<u64> {
        let mut list = self.ranges.raw_ranges(offset, encoding)?;
        let mut all = sum;
        for _ in 0..u64::MAX {
            match list.next() {
                Ok(Some(entry)) => all = with_range_entry(all, &entry),
                Ok(None) => break,
                Err(error) => return Ok(refused(all, error)),
            }
        }
        Ok(all)
    }

    // The same of a list of locations.
    fn with_raw_locations(
        &self,
        sum: u64,
        encoding: Encoding,
        offset: LocationListsOffset<R::Offset>,
    ) -> Result<u64> {
        let mut list = self.locations.raw_locations(offset, encoding)?;
        let mut all = sum;
        for _ in 0..u64::MAX {
            match list.next() {
                Ok(Some(entry)) => all = with_location_entry(all, &entry),
                Ok(None) => break,
                Err(error) => return Ok(refused(all, error)),
            }
        }
        Ok(all)
    }
}

// A checksum with the kind of an entry and its two numbers.
fn with_numbers(sum: u64, kind: u64, first: u64, second: u64) -> u64 {
    mixed(mixed(mixed(sum, kind), first), second)
}

// A checksum with an entry of a list of ranges, as it is written.
fn with_range_entry<O: ReaderOffset>(sum: u64, entry: &RawRngListEntry<O>) -> u64 {
    let (kind, first, second) = match entry {
        RawRngListEntry::AddressOrOffsetPair { begin, end } => (1, *begin, *end),
        RawRngListEntry::BaseAddress { addr } => (2, *addr, 0),
        RawRngListEntry::BaseAddressx { addr } => (3, addr.0.into_u64(), 0),
        RawRngListEntry::StartxEndx { begin, end } => (4, begin.0.into_u64(), end.0.into_u64()),
        RawRngListEntry::StartxLength { begin, length } => (5, begin.0.into_u64(), *length),
        RawRngListEntry::OffsetPair { begin, end } => (6, *begin, *end),
        RawRngListEntry::StartEnd { begin, end } => (7, *begin, *end),
        RawRngListEntry::StartLength { begin, length } => (8, *begin, *length),
    };
    with_numbers(sum, kind, first, second)
}

// A checksum with an entry of a list of locations, as it is written.
fn with_location_entry<R: Reader>(sum: u64, entry: &RawLocListEntry<R>) -> u64 {
    let (kind, first, second, expr) = match entry {
        RawLocListEntry::AddressOrOffsetPair { begin, end, expr } => (1, *begin, *end, expr),
        RawLocListEntry::BaseAddress { addr } => return with_numbers(sum, 2, *addr, 0),
        RawLocListEntry::BaseAddressx { addr } => {
            return with_numbers(sum, 3, addr.0.into_u64(), 0);
        }
        RawLocListEntry::StartxEndx { begin, end, expr } => {
            (4, begin.0.into_u64(), end.0.into_u64(), expr)
        }
        RawLocListEntry::StartxLength {
            begin,
            length,
            expr,
        } => (5, begin.0.into_u64(), *length, expr),
        RawLocListEntry::OffsetPair { begin, end, expr } => (6, *begin, *end, expr),
        RawLocListEntry::DefaultLocation { expr } => (7, 0, 0, expr),
        RawLocListEntry::StartEnd { begin, end, expr } => (8, *begin, *end, expr),
        RawLocListEntry::StartLength {
            begin,
            length,
            expr,
        } => (9, *begin, *length, expr),
    };
    with_ends(with_numbers(sum, kind, first, second), &expr.0)
}

// A checksum with the ranges of a list.
#[inline(never)]
fn with_ranges<R: Reader>(sum: u64, ranges: &mut RngListIter<R>) -> u64 {
    let mut all = sum;
    for _ in 0..u64::MAX {
        match ranges.next() {
            Ok(Some(range)) => all = mixed(mixed(all, range.begin), range.end),
            Ok(None) => break,
            Err(error) => return refused(all, error),
        }
    }
    all
}

// A checksum with the locations of a list.
#[inline(never)]
fn with_locations<R: Reader>(sum: u64, locations: &mut LocListIter<R>) -> u64 {
    let mut all = sum;
    for _ in 0..u64::MAX {
        match locations.next() {
            Ok(Some(entry)) => {
                let range = mixed(mixed(all, entry.range.begin), entry.range.end);
                all = with_ends(range, &entry.expr.0);
            }
            Ok(None) => break,
            Err(error) => return refused(all, error),
        }
    }
    all
}
