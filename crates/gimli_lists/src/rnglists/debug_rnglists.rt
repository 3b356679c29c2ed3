//! The section `.debug_rnglists`.

ghost use Rattle.std.proofs.Common.{ap};
ghost use Rattle.std.specs.Prelude.{◌≡◌};
ghost use Rattle.gimli_base.specs.declared.common.SectionId.TheVariants.{DebugRngLists as RngListsSection};

use gimli_base::{EndianSlice, Endianity, Reader, Section, SectionId};

/// The section `.debug_rnglists` (DWARF 5, 7.28).
#[derive(Clone, Copy, Debug, Default, Drop)]
pub struct DebugRngLists<R> {
    pub(crate) section: R,
}

impl<'a, E: Endianity> DebugRngLists<EndianSlice<'a, E>> {
    /// The section of these bytes.
    pub fn new(bytes: &'a [u8], endian: E) -> Self
        ensures { ⟦<DebugRngLists<EndianSlice<'a, E>> as Section<EndianSlice<'a, E>>>⟧.content
            result ≡ record { big = E.big endian; place = 0; bytes = bytes.now } }
    {
        DebugRngLists {
            section: EndianSlice::new(bytes, endian),
        }
    }
}

impl<R> From<R> for DebugRngLists<R> {
    ghost from_gives = { λ r s. s.section ≡ r };

    fn from(section: R) -> Self {
        DebugRngLists { section }
    }
}

impl<R: Reader> Section<R> for DebugRngLists<R> {
    ghost section = { RngListsSection };

    ghost content = { λ s. R.view s.section };

    ghost content_of_from = { λ _ _ same. ap R.view same };

    fn id() -> SectionId {
        SectionId::DebugRngLists
    }

    fn reader(&self) -> &R {
        &self.section
    }
}
