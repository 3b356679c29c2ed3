//! The unit of an address.

ghost use Rattle.std.specs.Prelude.{◌≡◌};
ghost use Rattle.gimli_walk.specs.UnitOfAddress.{unit_holding};
ghost use Rattle.gimli_c.specs.Addresses.{holding_outcome};
ghost use Rattle.gimli_lists.specs.Sections.{aranges_content};

use crate::status::{END, MORE, refusal_status};
use gimli_base::{Reader, ReaderOffset, Section};
use gimli_lists::DebugAranges;
use gimli_walk::unit_of_address;

/// Finds where the unit of an address begins in `.debug_info`, as `unit_of_address`. `MORE`:
/// `offset` is it. `END`: no set holds the address. Any other is the status of a refusal. Unless it
/// is `MORE`, `offset` is as it was.
pub(crate) fn find_unit<R: Reader>(aranges: &DebugAranges<R>, address: u64, offset: &mut u64) -> u32
    ensures { let section = aranges_content R.view aranges.now in
        (result, offset.new)
        ≡ holding_outcome (unit_holding R.Offset.limit address section) offset.old }
{
    match unit_of_address(aranges, address) {
        Ok(Some(unit)) => {
            *offset = unit.0.into_u64();
            MORE
        }
        Ok(None) => END,
        Err(error) => refusal_status(error),
    }
}
