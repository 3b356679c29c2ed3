//! The section of strings (DWARF 5, 7.26).

ghost use Rattle.std.proofs.Common.{ap};
ghost use Rattle.std.specs.Prelude.{◌≡◌};
ghost use Rattle.gimli_base.specs.declared.common.SectionId.TheVariants.{DebugStr as StrSection};
ghost use Rattle.gimli_base.specs.Offset.{answer_of};
ghost use Rattle.gimli_base.specs.Reading.{text_from};
ghost use Rattle.gimli_base.specs.Sections.{str_content};

use crate::{DebugStrOffset, EndianSlice, Endianity, Reader, Result, Section, SectionId};

/// The section `.debug_str`.
#[derive(Clone, Copy, Debug, Default, Drop)]
pub struct DebugStr<R> {
    section: R,
}

impl<'a, E: Endianity> DebugStr<EndianSlice<'a, E>> {
    /// The section of these bytes, in the byte order `endian`. Its first place is 0.
    pub fn new(bytes: &'a [u8], endian: E) -> Self
        ensures { ⟦<DebugStr<EndianSlice<'a, E>> as Section<EndianSlice<'a, E>>>⟧.content result
            ≡ record { big = E.big endian; place = 0; bytes = bytes.now } }
    {
        DebugStr {
            section: EndianSlice::new(bytes, endian),
        }
    }
}

impl<R> From<R> for DebugStr<R> {
    ghost from_gives = { λ r s. s.section ≡ r };

    fn from(section: R) -> Self {
        DebugStr { section }
    }
}

impl<R: Reader> Section<R> for DebugStr<R> {
    ghost section = { StrSection };

    ghost content = { λ s. R.view s.section };

    ghost content_of_from = { λ _ _ same. ap R.view same };

    fn id() -> SectionId {
        SectionId::DebugStr
    }

    fn reader(&self) -> &R {
        &self.section
    }
}

impl<R: Reader> DebugStr<R> {
    /// The string at an offset of the section: its bytes before the first zero.
    ///
    /// Refusal: `UnexpectedEof`, where the offset lies after the section's end, with the section's
    /// first place, and where no zero follows, with the place where the string begins.
    #[tactic(auto, unfolding(crate::specs::Reading::text_from))]
    pub fn get_str(&self, offset: DebugStrOffset<R::Offset>) -> Result<R>
        ensures { answer_of R.view result
            ≡ text_from (R.Offset.number offset.0)
            (str_content R.view self.now) }
    {
        let mut input = self.section.copy();
        input.skip(offset.0)?;
        input.read_null_terminated_slice()
    }
}
