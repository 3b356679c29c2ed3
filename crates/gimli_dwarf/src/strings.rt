//! Sections of texts, and of their offsets (DWARF 5, 7.26).

ghost use Rattle.std.specs.Prelude.{◌≡◌};
ghost use Rattle.gimli_base.specs.Offset.{answer_of};
ghost use Rattle.gimli_base.specs.Reading.{text_from};
ghost use Rattle.gimli_dwarf.specs.Texts.{line_str_content, str_offsets_content, text_offset};

use gimli_base::{
    DebugLineStrOffset, DebugStrOffset, DebugStrOffsetsBase, DebugStrOffsetsIndex, Error, Format,
    Reader, ReaderOffset, Result,
};

/// The section `.debug_line_str`.
#[derive(Clone, Copy, Debug, Default, Drop)]
pub struct DebugLineStr<R> {
    section: R,
}

impl<R> From<R> for DebugLineStr<R> {
    ghost from_gives = { λ r s. s.section ≡ r };

    fn from(section: R) -> Self {
        DebugLineStr { section }
    }
}

impl<R: Reader> DebugLineStr<R> {
    /// The string at an offset of the section: its bytes before the first zero.
    ///
    /// Refusal: `UnexpectedEof`, where the offset lies after the section's end, with the section's
    /// first place, and where no zero follows, with the place where the string begins.
    #[tactic(auto, unfolding(gimli_base::specs::Reading::text_from))]
    pub fn get_str(&self, offset: DebugLineStrOffset<R::Offset>) -> Result<R>
        ensures { answer_of R.view result
            ≡ text_from (R.Offset.number offset.0) (line_str_content R.view self.now) }
    {
        let mut input = self.section.copy();
        input.skip(offset.0)?;
        input.read_null_terminated_slice()
    }
}

/// The section `.debug_str_offsets`.
#[derive(Clone, Copy, Debug, Default, Drop)]
pub struct DebugStrOffsets<R> {
    section: R,
}

impl<R> From<R> for DebugStrOffsets<R> {
    ghost from_gives = { λ r s. s.section ≡ r };

    fn from(section: R) -> Self {
        DebugStrOffsets { section }
    }
}

impl<R: Reader> DebugStrOffsets<R> {
    /// The offset in `.debug_str` at an index of the table that begins at `base`, which is a unit's
    /// `DW_AT_str_offsets_base`.
    ///
    /// Refusals, of the first step that has one: `UnexpectedEof`, where the base lies after the
    /// section's end; `UnsupportedOffset`, where the number of bytes before the index does not fit
    /// the reader's offsets; `UnexpectedEof`, where the offset would not end in the section;
    /// `UnsupportedOffset`, where the offset does not fit. Whether it lies in `.debug_str` is not
    /// looked at.
    #[tactic(auto, unfolding(crate::specs::Texts::text_offset))]
    pub fn get_str_offset(
        &self,
        format: Format,
        base: DebugStrOffsetsBase<R::Offset>,
        index: DebugStrOffsetsIndex<R::Offset>,
    ) -> Result<DebugStrOffset<R::Offset>>
        ensures { answer_of (λ o. R.Offset.number o.0) result
            ≡ text_offset R.Offset.limit format (R.Offset.number base.0) (R.Offset.number index.0)
            (str_offsets_content R.view self.now) }
    {
        let mut input = self.section.copy();
        input.skip(base.0)?;
        let before = index
            .0
            .into_u64()
            .checked_mul(u64::from(format.word_size()))
            .ok_or(Error::UnsupportedOffset)?;
        input.skip(R::Offset::from_u64(before)?)?;
        let offset = input.read_offset(format)?;
        Ok(DebugStrOffset(offset))
    }
}
