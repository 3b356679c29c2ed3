//! Sections of debugging information.

ghost use Rattle.std.specs.Prelude.{◌≡◌, IfSome};
ghost use Rattle.std.specs.Option.{option_map};
ghost use Rattle.gimli_base.specs.declared.common.SectionId.{SectionId as Name};
ghost use Rattle.gimli_base.specs.View.{View};
ghost use Rattle.gimli_base.specs.Reading.{lookup_at};

use crate::{Reader, ReaderOffsetId, SectionId};

/// A section that is read by `R`.
pub trait Section<R: Reader>: From<R> {
    // which section it is
    ghost section: { Name };

    // what the section holds
    ghost content: { Self → View };

    /// Which section it is.
    fn id() -> SectionId
        ensures { result ≡ section };

    /// The reader of the whole section.
    fn reader(&self) -> &R
        ensures { R.view result.now ≡ content self.now };

    // a section made from a reader holds what that reads
    ghost content_of_from: { (r : R) → (s : Self) → Self.From.from_gives r s
        → content s ≡ R.view r };

    /// Another section of the same bytes, at the same place and in the same byte order.
    final fn copy(&self) -> Self
        ensures { content result ≡ content self.now }
    {
        Self::from(self.reader().copy())
    }

    /// Which section it is, and the number of its bytes before the place `id`. The section's end is
    /// such a place too. None where `id` lies before the section's first place or after its end.
    final fn lookup_offset_id(&self, id: ReaderOffsetId) -> Option<(SectionId, R::Offset)>
        ensures number { option_map (λ p. R.Offset.number p.1) result
            ≡ lookup_at id.0 (content self.now) }
        ensures named { IfSome result (λ p. p.0 ≡ section) }
    {
        self.reader()
            .lookup_offset_id(id)
            .map(|offset| (Self::id(), offset))
    }
}
