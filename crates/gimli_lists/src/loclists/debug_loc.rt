//! The section `.debug_loc`.

ghost use Rattle.std.proofs.Common.{ap};
ghost use Rattle.std.specs.Prelude.{◌≡◌};
ghost use Rattle.gimli_base.specs.declared.common.SectionId.TheVariants.{DebugLoc as LocSection};

use gimli_base::{EndianSlice, Endianity, Reader, Section, SectionId};

/// The section `.debug_loc` (DWARF 4, 2.6.2).
#[derive(Clone, Copy, Debug, Default, Drop)]
pub struct DebugLoc<R> {
    pub(crate) section: R,
}

impl<'a, E: Endianity> DebugLoc<EndianSlice<'a, E>> {
    /// The section of these bytes.
    pub fn new(bytes: &'a [u8], endian: E) -> Self
        ensures { ⟦<DebugLoc<EndianSlice<'a, E>> as Section<EndianSlice<'a, E>>>⟧.content result
            ≡ record { big = E.big endian; place = 0; bytes = bytes.now } }
    {
        DebugLoc {
            section: EndianSlice::new(bytes, endian),
        }
    }
}

impl<R> From<R> for DebugLoc<R> {
    ghost from_gives = { λ r s. s.section ≡ r };

    fn from(section: R) -> Self {
        DebugLoc { section }
    }
}

impl<R: Reader> Section<R> for DebugLoc<R> {
    ghost section = { LocSection };

    ghost content = { λ s. R.view s.section };

    ghost content_of_from = { λ _ _ same. ap R.view same };

    fn id() -> SectionId {
        SectionId::DebugLoc
    }

    fn reader(&self) -> &R {
        &self.section
    }
}
