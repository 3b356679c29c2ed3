//! The section of addresses (DWARF 5, 7.27).

ghost use Rattle.std.proofs.Common.{ap};
ghost use Rattle.std.specs.Prelude.{◌≡◌};
ghost use Rattle.gimli_base.specs.declared.common.SectionId.TheVariants.{DebugAddr as AddrSection};
ghost use Rattle.gimli_base.specs.Address.{table_address};
ghost use Rattle.gimli_base.specs.Sections.{addr_content};

use crate::{
    DebugAddrBase, DebugAddrIndex, Error, Reader, ReaderOffset, Result, Section, SectionId,
};

/// The section `.debug_addr`.
#[derive(Clone, Copy, Debug, Default, Drop)]
pub struct DebugAddr<R> {
    section: R,
}

impl<R> From<R> for DebugAddr<R> {
    ghost from_gives = { λ r s. s.section ≡ r };

    fn from(section: R) -> Self {
        DebugAddr { section }
    }
}

impl<R: Reader> Section<R> for DebugAddr<R> {
    ghost section = { AddrSection };

    ghost content = { λ s. R.view s.section };

    ghost content_of_from = { λ _ _ same. ap R.view same };

    fn id() -> SectionId {
        SectionId::DebugAddr
    }

    fn reader(&self) -> &R {
        &self.section
    }
}

impl<R: Reader> DebugAddr<R> {
    /// The address at an index of the table that begins at `base`, an offset of the section, with
    /// addresses of `address_size` bytes.
    ///
    /// Refusals, in this order: `UnexpectedEof`, with the section's first place, where the base
    /// lies after the section's end; `UnsupportedOffset`, where the number of bytes before the
    /// address does not fit the reader's offsets; `UnexpectedEof`, with the table's place, where
    /// the address would begin after the section's end; `UnsupportedAddressSize`, where the size is
    /// not 1, 2, 4 or 8; `UnexpectedEof`, with the address's place, where its bytes are not all
    /// there.
    #[tactic(auto, unfolding(crate::specs::Address::table_address))]
    pub fn get_address(
        &self,
        address_size: u8,
        base: DebugAddrBase<R::Offset>,
        index: DebugAddrIndex<R::Offset>,
    ) -> Result<u64>
        ensures { result ≡ table_address R.Offset.limit address_size (R.Offset.number base.0)
            (R.Offset.number index.0) (addr_content R.view self.now) }
    {
        let mut input = self.section.copy();
        input.skip(base.0)?;
        let before = index
            .0
            .into_u64()
            .checked_mul(u64::from(address_size))
            .ok_or(Error::UnsupportedOffset)?;
        input.skip(R::Offset::from_u64(before)?)?;
        input.read_address(address_size)
    }
}
