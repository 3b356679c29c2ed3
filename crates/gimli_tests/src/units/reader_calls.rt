//! Which calls a reader gets for the heads of entries as compilers write them, and for attributes that are
//! passed: a user's own reader may do much work for each call.

ghost use Rattle.std.proofs.Common.{rules};

use crate::samples::{Entry, Table, encoding, table_of, table_with};
use crate::units::hostile::is_form;
use crate::units::samples::{pass, raw_in, read, specification};
use gimli_base::{EndianSlice, LittleEndian, Reader, ReaderOffsetId};
use std::alloc::Global;
use std::cell::Cell;
use std::process::Abort;
use std::test::Fail;

// How often a reader and its copies were copied, asked to skip, and asked to read or to skip.
#[derive(Debug, Default, Drop)]
struct Counts {
    copies: Cell<u64>,
    skips: Cell<u64>,
    others: Cell<u64>,
}

// Counts one more.
fn count(cell: &Cell<u64>) {
    cell.set(cell.get().saturating_add(1));
}

// A reader over a slice that counts its calls.
#[derive(Debug, Drop)]
struct CountingReader<'a> {
    inner: EndianSlice<'a, LittleEndian>,
    counts: &'a Counts,
}

impl<'a> Reader for CountingReader<'a> {
    type Endian = LittleEndian;

    type Offset = usize;

    ghost view = { λ r. ⟦<EndianSlice<'a, LittleEndian> as Reader>⟧.view r.inner };

    fn endian(&self) -> LittleEndian {
        self.inner.endian()
    }

    fn len(&self) -> usize {
        self.inner.len()
    }

    fn offset_id(&self) -> ReaderOffsetId {
        self.inner.offset_id()
    }

    fn copy(&self) -> Self {
        count(&self.counts.copies);
        let (inner, counts) = (self.inner.copy(), self.counts);
        CountingReader { inner, counts }
    }

    fn skip(&mut self, n: usize) -> gimli_base::Result<()> {
        count(&self.counts.skips);
        count(&self.counts.others);
        self.inner.skip(n)
    }

    fn split(&mut self, n: usize) -> gimli_base::Result<Self> {
        count(&self.counts.others);
        let (inner, counts) = (self.inner.split(n)?, self.counts);
        Ok(CountingReader { inner, counts })
    }

    fn read_u8(&mut self) -> gimli_base::Result<u8> {
        count(&self.counts.others);
        self.inner.read_u8()
    }

    fn read_slice(&mut self, into: &mut [u8]) -> gimli_base::Result<()> {
        count(&self.counts.others);
        self.inner.read_slice(into)
    }

    fn find(&self, byte: u8) -> gimli_base::Result<usize> {
        count(&self.counts.others);
        self.inner.find(byte)
    }

    ghost length_fits = { Prim.search rules };

    ghost length_fits_offset = { Prim.search rules };

    ghost end_fits = { Prim.search rules };

    ghost bytes_fit = { Prim.search rules };
}

// A reader of these bytes, and where it counts.
fn reader_of<'a>(bytes: &'a [u8], counts: &'a Counts) -> CountingReader<'a> {
    let inner = EndianSlice::new(bytes, LittleEndian);
    CountingReader { inner, counts }
}

// The attributes of a function, a structure and a variable, by gcc: the name and the form of each in turn.
const FUNCTION: &[u8] =
    b"\x3f\x19\x03\x0e\x3a\x0b\x3b\x0b\x39\x0b\x6e\x0e\x49\x13\x11\x01\x12\x07\x40\x18\x7a\x19\x01\x13";

const STRUCTURE: &[u8] = b"\x03\x0e\x0b\x0b\x3a\x0b\x3b\x0b\x39\x0b\x01\x13";

const VARIABLE: &[u8] = b"\x03\x0e\x3a\x0b\x3b\x0b\x39\x0b\x49\x13\x02\x18";

// Those of a function by clang.
const BY_CLANG: &[u8] = b"\x11\x1b\x12\x06\x40\x18\x6e\x25\x03\x25\x3a\x0b\x3b\x0b\x49\x13\x3f\x19";

// Those of a structure of Rust.
const RUST_STRUCTURE: &[u8] = b"\x03\x0e\x0b\x0b\x32\x0b\x22\x0f";

// The attributes of entries as compilers write them, and how often a reader may be called for the
// head of one, with children and without: once for the code, once for each run of values of known widths, twice
// for an expression, once for a LEB128 number, and once for a reference to a sibling where one is sought.
const USUAL: [(&[u8], u64, u64); 6] = [
    (&[], 1, 1),
    (FUNCTION, 5, 5),
    (STRUCTURE, 3, 2),
    (VARIABLE, 4, 4),
    (BY_CLANG, 6, 6),
    (RUST_STRUCTURE, 3, 3),
];

// Reads the head of an entry and the whole entry, over so many bytes. The head copies the reader no more often,
// tells it no more, and no more than so often.
fn tells_little(rt: &impl Abort, alloc: Global, table: &Table, bytes: &[u8], most: u64) {
    let (passing, reading) = (Counts::default(), Counts::default());
    let passed = raw_in(encoding(4, 4), reader_of(bytes, &passing), table).read_head_and_sibling();
    let mut entry = Entry::null(alloc);
    let read = raw_in(encoding(4, 4), reader_of(bytes, &reading), table).read_entry(&mut entry);
    assert!(rt; passed.is_ok() && read.is_ok());
    assert!(rt; passing.copies.get() <= reading.copies.get());
    assert!(rt; passing.others.get() <= reading.others.get());
    assert!(rt; passing.others.get() <= most);
}

#[test]
fn heads_of_usual_entries_tell_a_reader_little(rt: HostRuntime) -> Result<(), Fail> {
    for (given, with_children, alone) in USUAL {
        for (flag, most) in [(1, with_children), (0, alone)] {
            let table = table_with(rt.alloc(), flag, given, 1)?;
            tells_little(&rt, rt.alloc(), &table, &[0x01; 120], most);
            tells_little(&rt, rt.alloc(), &table, &[0x01; 50], most);
        }
    }
    Ok(())
}

// A head takes a reader of its own, one for the code, one for a reference to a sibling with what stands after it,
// and one to look for the reference.
#[test]
fn heads_with_a_reference_copy_a_reader_seldom(rt: HostRuntime) -> Result<(), Fail> {
    for (given, most) in [(b"\x01\x13\x0b\x0b", 4), (b"\x01\x13\x03\x08", 4)] {
        let table = table_with(rt.alloc(), 1, given, 1)?;
        let counts = Counts::default();
        let reader = reader_of(&[1, 0, 0, 0, 0, 0, 0], &counts);
        let mut raw = raw_in(encoding(4, 4), reader, &table);
        assert!(rt; raw.read_head_and_sibling().is_ok() && counts.copies.get() <= most);
    }
    Ok(())
}

// How often a reader skips where it passes forms that have all its bytes.
fn skips_of(rt: &impl Abort, alloc: Global, forms: &[u16], bytes: &[u8]) -> Result<u64, Fail> {
    let mut given = Vec::new(alloc);
    for form in forms {
        given.push(specification(rt, 0x2000, *form))?;
    }
    let table = table_of(alloc, &[0])?;
    let counts = Counts::default();
    let mut raw = raw_in(encoding(4, 4), reader_of(bytes, &counts), &table);
    pass(&mut raw, &given)?;
    assert!(rt; raw.is_empty());
    Ok(counts.skips.get())
}

#[test]
fn passes_forms_of_known_sizes_by_one_skip(rt: HostRuntime) -> Result<(), Fail> {
    assert!(rt; skips_of(&rt, rt.alloc(), &[0x06, 0x05, 0x0c], &[1; 7])? == 1);
    // of no bytes too
    assert!(rt; skips_of(&rt, rt.alloc(), &[0x19, 0x0b, 0x19, 0x14], &[0; 9])? == 1);
    Ok(())
}

// How often a reader is copied where an attribute of this form is read from these bytes, in this version.
fn copies_of(rt: &impl Abort, table: &Table, version: u16, form: u16, bytes: &[u8]) -> u64 {
    let counts = Counts::default();
    let mut raw = raw_in(encoding(version, 4), reader_of(bytes, &counts), table);
    let _ = read(&mut raw, specification(rt, 0x2000, form));
    counts.copies.get()
}

// The call takes a reader of its own, and a number that is read in several steps one more; so does each code of
// an indirect form.
#[test]
fn a_read_attribute_copies_a_reader_seldom(rt: HostRuntime) -> Result<(), Fail> {
    let bytes = b"\x01\x01\x01\x01\x01\x01\x01\x01\x01\x01\x01\x01\x01\x01\x01\x01\0";
    let table = table_of(rt.alloc(), &[0])?;
    for form in 0..=0xffff {
        // implicit_const has no bytes, and indirect stands below
        if is_form(form) && form != 0x21 && form != 0x16 {
            assert!(rt; copies_of(&rt, &table, 2, form, bytes) <= 2, "{form:x}");
            assert!(rt; copies_of(&rt, &table, 5, form, bytes) <= 2, "{form:x}");
        }
    }
    // a text, and one without its zero
    assert!(rt; copies_of(&rt, &table, 5, 0x08, bytes) <= 1);
    assert!(rt; copies_of(&rt, &table, 5, 0x08, &[1; 8]) <= 1);
    assert!(rt; copies_of(&rt, &table, 2, 0x16, &[0x10, 1, 1, 1, 1]) <= 3);
    assert!(rt; copies_of(&rt, &table, 5, 0x16, &[0x16, 0x08, 1, 1, 0]) <= 3);
    Ok(())
}
