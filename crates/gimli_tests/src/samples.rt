//! The readers, tables and units that the tests try, and what they ask of them.

ghost use Rattle.std.specs.Prelude.{◌≡◌};

use gimli_base::{
    Abbreviations, DebugAbbrev, DebugAbbrevOffset, Encoding, EndianSlice, Endianity, Error, Format,
    LittleEndian, Reader, ReaderOffset, ReaderOffsetId, SectionId, WholeSlice,
};
use gimli_units::{DebuggingInformationEntry, EntriesRaw, UnitHeader, UnitSectionOffset, UnitType};
use std::alloc::Global;
use std::fmt::Debug;
use std::hash::{DefaultHasher, Hash, Hasher};
use std::process::Abort;
use std::test::Fail;

/// Code 1: the tag 0x2e, children, and the attribute 0x03 of form string.
pub(crate) const TABLE_NESTED_STRINGS: [u8; 8] = [0x01, 0x2e, 0x01, 0x03, 0x08, 0x00, 0x00, 0x00];

/// A unit of three nested strings, each the child of the one before, and the three nulls that close their lists.
pub(crate) const THREE_NESTED: &[u8; 29] =
    b"\x19\0\0\0\x04\0\0\0\0\0\x04\x01foo\0\x01foo\0\x01foo\0\0\0\0";

/// A reader of the kind that most tests take.
pub(crate) type Part<'a> = EndianSlice<'a, LittleEndian>;

/// A reader of entries one after the other.
pub(crate) type Raw<'a, R> = EntriesRaw<'a, R, Global>;

/// An entry.
pub(crate) type Entry<R> = DebuggingInformationEntry<R, Global>;

/// A table of declarations.
pub(crate) type Table = Abbreviations<Global>;

/// A reader that keeps what is left of these bytes, from the place 100 on.
pub(crate) fn part<E: Endianity>(bytes: &[u8], endian: E) -> EndianSlice<'_, E> {
    let _length = bytes.len();
    EndianSlice::new_at(bytes, endian, 100)
}

/// A reader that keeps these bytes and where in them it stands, from the place 100 on.
pub(crate) fn whole<'a, E: Endianity>(
    rt: &impl Abort,
    bytes: &'a [u8],
    endian: E,
) -> WholeSlice<'a, E> {
    assert!(rt; bytes.len() < 0x100_0000);
    WholeSlice::new_at(bytes, endian, 100)
}

/// The table with which these bytes begin.
pub(crate) fn table_of(alloc: Global, bytes: &[u8]) -> gimli_base::Result<Table> {
    DebugAbbrev::new(bytes, LittleEndian).abbreviations(alloc, DebugAbbrevOffset(0))
}

/// The table of one declaration, with the code 1, the tag 0x34, this flag, and so many times these attributes.
pub(crate) fn table_with(alloc: Global, flag: u8, attrs: &[u8], count: u32) -> Result<Table, Fail> {
    let mut bytes = Vec::from_slice(alloc, &[0x01, 0x34, flag])?;
    for _ in 0..count {
        bytes.extend_from_slice(attrs)?;
    }
    bytes.extend_from_slice(&[0x00, 0x00, 0x00])?;
    Ok(table_of(alloc, bytes.as_slice())?)
}

/// The 32-bit format, a version, and a number of bytes of an address.
pub(crate) fn encoding(version: u16, address_size: u8) -> Encoding
    ensures { result.address_size ≡ address_size }
{
    Encoding {
        format: Format::Dwarf32,
        version,
        address_size,
    }
}

/// The compilation unit of version 4 with these entries, the first of them at 11.
pub(crate) fn unit_of<R: Reader>(rt: &impl Abort, entries: R) -> UnitHeader<R> {
    let zero = R::Offset::from_u8(0);
    let unit_length = R::Offset::from_u8(7)
        .checked_add(entries.len())
        .expect(rt, "too long");
    let whole = R::Offset::from_u8(12).checked_add(unit_length);
    assert!(rt; whole.is_some());
    UnitHeader::new(
        encoding(4, 4),
        unit_length,
        UnitType::Compilation,
        DebugAbbrevOffset(zero),
        SectionId::DebugInfo,
        UnitSectionOffset(zero),
        entries,
    )
}

/// The next item of an iterator.
pub(crate) fn next_of<I: Iterator>(items: &mut I) -> Option<I::Item>
    requires { I.can_next items.now }
{
    items.next()
}

/// What a call finds that refuses nothing, and has something left.
pub(crate) fn found<T>(rt: &impl Abort, answer: gimli_base::Result<Option<T>>) -> T {
    answer.expect(rt, "refused").expect(rt, "nothing left")
}

/// The refusal of missing bytes at a place.
pub(crate) fn end_at(place: u64) -> Error {
    Error::UnexpectedEof(ReaderOffsetId(place))
}

/// Whether a reader has these bytes left, the first of them at a place, and no other.
pub(crate) fn has_bytes_at<R: Reader>(reader: &R, bytes: &[u8], place: u64) -> bool {
    let mut rest = reader.copy();
    for byte in bytes {
        if rest.read_u8() != Ok(*byte) {
            return false;
        }
    }
    rest.is_empty() && reader.offset_id() == ReaderOffsetId(place)
}

/// What a hash function makes of a value.
pub(crate) fn hash_of<T: Hash>(value: &T) -> u64 {
    let mut state = DefaultHasher::new();
    value.hash(&mut state);
    state.finish()
}

/// Tries a value with others that are equal to it, and with others that are not.
pub(crate) fn compares<T: Copy + Debug + PartialEq + Hash>(
    rt: &impl Abort,
    value: T,
    same: [T; 2],
    others: [T; 4],
) {
    for other in same {
        assert!(rt; value == other);
        assert!(rt; hash_of(&value) == hash_of(&other));
    }
    for other in others {
        assert_ne!(rt; value, other);
        assert_ne!(rt; hash_of(&value), hash_of(&other));
    }
}
