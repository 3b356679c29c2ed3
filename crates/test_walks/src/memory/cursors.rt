//! Walks of cursors, and of the reader of entries.

use crate::cursors::{take_step, write_stand};
use crate::entries::{write_found, write_places};
use crate::memory::trial::Heap;
use crate::memory::walks::Walk;
use gimli_base::{Abbreviations, Reader, ReaderOffset, Result};
use gimli_units::{
    Attribute, AttributeValue, DebuggingInformationEntry, EntriesCursor, EntriesRaw,
};
use test_tables::Text;

/// A cursor, and the allocator that a clone of it is made with.
#[derive(Drop)]
pub(crate) struct Cursor<'table, 'h, R: Reader> {
    pub(crate) cursor: EntriesCursor<'table, R, Heap<'h>>,
    pub(crate) heap: Heap<'h>,
}

impl<'table, 'h, R: Reader> Walk for Cursor<'table, 'h, R> {
    // Besides the steps `c` puts a clone in the cursor's place.
    fn take(&mut self, letter: u8) -> Result<bool> {
        if letter != b'c' {
            return take_step(&mut self.cursor, letter);
        }
        self.cursor = self.cursor.try_clone(self.heap)?;
        Ok(true)
    }

    fn show(&self, out: &mut Text) {
        write_stand(&self.cursor, out);
        write!(out, " reads {}", self.cursor.reads());
    }
}

/// A reader of entries with the entry that it fills, its table, and the allocator that a clone of the entry
/// is made with.
#[derive(Drop)]
pub(crate) struct Raw<'table, 'h, R: Reader> {
    pub(crate) raw: EntriesRaw<'table, R, Heap<'h>>,
    pub(crate) entry: DebuggingInformationEntry<R, Heap<'h>>,
    pub(crate) table: &'table Abbreviations<Heap<'h>>,
    pub(crate) heap: Heap<'h>,
}

impl<'table, 'h, R: Reader> Raw<'table, 'h, R> {
    // Reads the attributes of a code.
    fn read_values(&mut self, code: u8) -> Result<bool> {
        let specifications = match self.table.get(u64::from(code)) {
            Some(declared) => declared.attributes(),
            None => &[],
        };
        self.raw
            .read_attributes(specifications, &mut self.entry.attrs)?;
        Ok(true)
    }
}

impl<'table, 'h, R: Reader> Walk for Raw<'table, 'h, R> {
    // `x` reads an entry, a digit the attributes of that code; `c` puts a clone in the entry's place.
    fn take(&mut self, letter: u8) -> Result<bool> {
        match letter {
            b'x' => self.raw.read_entry(&mut self.entry),
            b'c' => {
                self.entry = self.entry.try_clone(self.heap)?;
                Ok(true)
            }
            b'0'..=b'9' => self.read_values(letter - b'0'),
            _ => Ok(false),
        }
    }

    fn show(&self, out: &mut Text) {
        let entry = &self.entry;
        let read = if entry.is_null() { None } else { Some(entry) };
        write_found(read, true, out);
        let last = (entry.offset().0.into_u64(), entry.depth());
        let next = (self.raw.next_offset().0.into_u64(), self.raw.next_depth());
        write_places(last, next, out);
        write_values(entry.attrs(), out);
    }
}

/// Writes the values of attributes of one byte, and of references.
pub(crate) fn write_values<R: Reader>(of: &[Attribute<R>], out: &mut Text) {
    write!(out, " has");
    for attribute in of {
        let value = attribute.raw_value();
        match &value {
            AttributeValue::Data1(byte) => write!(out, " {byte:x}"),
            AttributeValue::UnitRef(offset) => write!(out, " to {:x}", offset.0.into_u64()),
            AttributeValue::String(text) => write!(out, " text {}", text.len().into_u64()),
            _ => write!(out, " other"),
        }
    }
}
