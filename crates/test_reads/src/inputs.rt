//! The bytes of entries and of attributes, and readers of them.

use gimli_base::{
    Abbreviations, AttributeSpecification, DebugAbbrev, DebugAbbrevOffset, Encoding, LittleEndian,
    Reader, ReaderOffset, Result,
};
use gimli_units::{Attribute, EntriesRaw, UnitOffset};
use std::alloc::Global;
use test_tables::{Call, Outcome};

/// A reader of entries.
pub(crate) type Raw<'abbrev, R> = EntriesRaw<'abbrev, R, Global>;

/// The bytes of entries or attributes, how they are read, and the table of the declarations.
#[derive(Drop)]
pub(crate) struct Input<R: Reader> {
    pub(crate) reader: R,
    pub(crate) encoding: Encoding,
    pub(crate) table: Abbreviations<Global>,
}

impl<R: Reader> Input<R> {
    /// The attributes in the first section of a case, whose encoding begins at an index of the words; the
    /// table has no declarations.
    pub(crate) fn of_attributes(call: &Call<'_, R>, index: usize) -> Outcome<Input<R>> {
        let section = DebugAbbrev::new(&[0], LittleEndian);
        Ok(Input {
            reader: call.section(0)?,
            encoding: call.encoding(index)?,
            table: section.abbreviations(call.alloc, DebugAbbrevOffset(0))?,
        })
    }

    /// The entries in the first section of a case, whose table begins the second one.
    pub(crate) fn of_entries(call: &Call<'_, R>, encoding: Encoding) -> Outcome<Input<R>> {
        let begin = DebugAbbrevOffset(R::Offset::from_u8(0));
        Ok(Input {
            reader: call.section(0)?,
            encoding,
            table: DebugAbbrev::from(call.section(1)?).abbreviations(call.alloc, begin)?,
        })
    }

    /// A reader of the bytes, which begins at the offset 0.
    pub(crate) fn raw(&self) -> Raw<'_, R> {
        self.raw_of(&self.reader)
    }

    /// The same of other bytes.
    pub(crate) fn raw_of(&self, bytes: &R) -> Raw<'_, R> {
        let zero = UnitOffset(R::Offset::from_u8(0));
        EntriesRaw::new(bytes.copy(), self.encoding, &self.table, zero)
    }

    /// What reading the first attribute answers.
    pub(crate) fn read(&self, declared: AttributeSpecification) -> Result<Attribute<R>> {
        self.raw().read_attribute(declared)
    }
}
