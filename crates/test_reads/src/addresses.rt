//! Addresses of a table, sums of addresses, and addresses that stand for none.

use crate::units::unit_of;
use gimli_base::{DebugAddr, DebugAddrBase, DebugAddrIndex, Error, Reader, ReaderAddress};
use test_tables::{Call, Outcome, Stop, Text};

// The address of a size at an index of the table at a base, both of which are words from an index on.
fn address_at<R: Reader>(call: &Call<'_, R>, size: u8, index: usize) -> Outcome<u64> {
    let base = DebugAddrBase(call.offset_or_zero(index)?);
    let index = DebugAddrIndex(call.offset_or_zero(index.saturating_add(1))?);
    Ok(DebugAddr::from(call.section(0)?).get_address(size, base, index)?)
}

/// Writes the address of a size at an index of the table at a base.
pub(crate) fn write_address<R: Reader>(call: &Call<'_, R>, out: &mut Text) -> Outcome {
    let Ok(size) = u8::try_from(call.number(1)?) else {
        return Err(Stop::Lacks("no size"));
    };
    let address = address_at(call, size, 2)?;
    write!(out, "0x{address:x}");
    Ok(())
}

/// Writes the address of each size at an index of the table at a base, without sizes that are refused as
/// such.
pub(crate) fn write_each_size<R: Reader>(call: &Call<'_, R>, out: &mut Text) -> Outcome {
    for size in 0..=255_u8 {
        match address_at(call, size, 1) {
            Err(Stop::Refused(Error::UnsupportedAddressSize(own))) if own == size => {}
            Ok(address) => writeln!(out, "{size} 0x{address:x}"),
            Err(stop) => {
                write!(out, "{size} ");
                stop.write(out);
            }
        }
    }
    Ok(())
}

/// Writes the address of all ones of a size, its least tombstone, the sum of an address and a length, or what
/// is left of the sum in its lowest bytes.
pub(crate) fn write_of_size<R: Reader>(call: &Call<'_, R>, out: &mut Text) -> Outcome {
    let size = call.size(1)?;
    let address = match call.name() {
        "ones" => u64::ones_sized(size),
        "tombstone" => u64::min_tombstone(size),
        "sum" => call.number(2)?.add_sized(call.number(3)?, size)?,
        _ => call.number(2)?.wrapping_add_sized(call.number(3)?, size),
    };
    write!(out, "0x{address:x}");
    Ok(())
}

/// Writes for each address whether it stands for none in a unit, whose addresses have 1, 2, 4 or 8 bytes.
pub(crate) fn write_tombstones<R: Reader>(call: &Call<'_, R>, out: &mut Text) -> Outcome {
    let unit = unit_of(call)?;
    let size = unit.address_size();
    if size != 1 && size != 2 && size != 4 && size != 8 {
        return Err(Stop::Lacks("no size"));
    }
    for index in 3..call.case.words.len() {
        let is_none = unit.is_tombstone_address(call.number(index)?);
        writeln!(out, "{}", if is_none { "none" } else { "some" });
    }
    Ok(())
}
