//! The section `.debug_loclists`.

ghost use Rattle.std.proofs.Common.{ap};
ghost use Rattle.std.specs.Prelude.{◌≡◌};
ghost use Rattle.gimli_base.specs.declared.common.SectionId.TheVariants.{DebugLocLists as LocListsSection};

use gimli_base::{EndianSlice, Endianity, Reader, Section, SectionId};

/// The section `.debug_loclists` (DWARF 5, 7.29).
#[derive(Clone, Copy, Debug, Default, Drop)]
pub struct DebugLocLists<R> {
    pub(crate) section: R,
}

impl<'a, E: Endianity> DebugLocLists<EndianSlice<'a, E>> {
    /// The section of these bytes.
    pub fn new(bytes: &'a [u8], endian: E) -> Self
        ensures { ⟦<DebugLocLists<EndianSlice<'a, E>> as Section<EndianSlice<'a, E>>>⟧.content
            result ≡ record { big = E.big endian; place = 0; bytes = bytes.now } }
    {
        DebugLocLists {
            section: EndianSlice::new(bytes, endian),
        }
    }
}

impl<R> From<R> for DebugLocLists<R> {
    ghost from_gives = { λ r s. s.section ≡ r };

    fn from(section: R) -> Self {
        DebugLocLists { section }
    }
}

impl<R: Reader> Section<R> for DebugLocLists<R> {
    ghost section = { LocListsSection };

    ghost content = { λ s. R.view s.section };

    ghost content_of_from = { λ _ _ same. ap R.view same };

    fn id() -> SectionId {
        SectionId::DebugLocLists
    }

    fn reader(&self) -> &R {
        &self.section
    }
}
