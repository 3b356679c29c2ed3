//! The section `.debug_ranges`.

ghost use Rattle.std.proofs.Common.{ap};
ghost use Rattle.std.specs.Prelude.{◌≡◌};
ghost use Rattle.gimli_base.specs.declared.common.SectionId.TheVariants.{DebugRanges as RangesSection};

use gimli_base::{EndianSlice, Endianity, Reader, Section, SectionId};

/// The section `.debug_ranges` (DWARF 4, 2.17.3).
#[derive(Clone, Copy, Debug, Default, Drop)]
pub struct DebugRanges<R> {
    pub(crate) section: R,
}

impl<'a, E: Endianity> DebugRanges<EndianSlice<'a, E>> {
    /// The section of these bytes.
    pub fn new(bytes: &'a [u8], endian: E) -> Self
        ensures { ⟦<DebugRanges<EndianSlice<'a, E>> as Section<EndianSlice<'a, E>>>⟧.content result
            ≡ record { big = E.big endian; place = 0; bytes = bytes.now } }
    {
        DebugRanges {
            section: EndianSlice::new(bytes, endian),
        }
    }
}

impl<R> From<R> for DebugRanges<R> {
    ghost from_gives = { λ r s. s.section ≡ r };

    fn from(section: R) -> Self {
        DebugRanges { section }
    }
}

impl<R: Reader> Section<R> for DebugRanges<R> {
    ghost section = { RangesSection };

    ghost content = { λ s. R.view s.section };

    ghost content_of_from = { λ _ _ same. ap R.view same };

    fn id() -> SectionId {
        SectionId::DebugRanges
    }

    fn reader(&self) -> &R {
        &self.section
    }
}
