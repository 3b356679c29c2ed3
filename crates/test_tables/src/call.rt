//! A call with its arguments.

ghost use Rattle.std.specs.Prelude.{IsTrue, IfOk};
ghost use Rattle.gimli_base.specs.Reading.{is_size};

use crate::case::Case;
use crate::stop::{Outcome, Stop};
use gimli_base::{Encoding, Reader, ReaderOffset};
use std::alloc::Global;

/// A call of a case over readers of one kind.
#[derive(Drop)]
pub struct Call<'a, R> {
    /// Where what is answered is kept.
    pub alloc: Global,
    /// The words.
    pub case: &'a Case,
    /// The answer that is wanted over these readers.
    pub wanted: &'a str,
    /// The sections of the case, and empty ones after them where it has fewer than two.
    pub sections: Vec<R>,
}

impl<'a, R: Reader> Call<'a, R> {
    /// The name of the call.
    pub fn name(&self) -> &str {
        match self.case.word(0) {
            Some(name) => name,
            None => "",
        }
    }

    /// The word at an index.
    pub fn word(&self, index: usize) -> Outcome<&str> {
        self.case.word(index).ok_or(Stop::Lacks("no word"))
    }

    /// The number at an index of the words.
    pub fn number(&self, index: usize) -> Outcome<u64> {
        self.case.number(index).ok_or(Stop::Lacks("no number"))
    }

    /// The encoding of the three words from an index on.
    pub fn encoding(&self, index: usize) -> Outcome<Encoding> {
        self.case.encoding(index).ok_or(Stop::Lacks("no case"))
    }

    /// The number of bytes of an address that a word gives.
    pub fn size(&self, index: usize) -> Outcome<u8>
        ensures { IfOk result (λ s. IsTrue (is_size s)) }
    {
        match self.case.word(index) {
            Some("1") => Ok(1),
            Some("2") => Ok(2),
            Some("4") => Ok(4),
            Some("8") => Ok(8),
            _ => Err(Stop::Lacks("no size")),
        }
    }

    /// The encoding of the three words from an index on, whose addresses have 1, 2, 4 or 8 bytes.
    pub fn sized_encoding(&self, index: usize) -> Outcome<Encoding>
        ensures { IfOk result (λ e. IsTrue (is_size e.address_size)) }
    {
        let mut encoding = self.encoding(index)?;
        encoding.address_size = self.size(index.saturating_add(2))?;
        Ok(encoding)
    }

    /// The offset at an index of the words, or none where there is no number.
    pub fn offset(&self, index: usize) -> Outcome<Option<R::Offset>> {
        match self.case.number(index) {
            Some(number) => Ok(Some(R::Offset::from_u64(number)?)),
            None => Ok(None),
        }
    }

    /// The offset at an index of the words, or 0 where there is no number.
    pub fn offset_or_zero(&self, index: usize) -> Outcome<R::Offset> {
        Ok(R::Offset::from_u64(self.case.number(index).unwrap_or(0))?)
    }

    /// The section of an index.
    pub fn section(&self, index: usize) -> Outcome<R> {
        let section = self.sections.get(index);
        Ok(section.ok_or(Stop::Lacks("no section"))?.copy())
    }

    /// The second section, or the end of the first where the case has one alone.
    pub fn second_or_end(&self) -> Outcome<R> {
        if self.case.sections.len() >= 2 {
            return self.section(1);
        }
        let mut end = self.section(0)?;
        end.empty();
        Ok(end)
    }
}
