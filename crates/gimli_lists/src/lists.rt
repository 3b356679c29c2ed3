//! What sections of range lists and of location lists share: their header, and where their lists
//! begin.

ghost use Rattle.std.specs.Prelude.{◌≡◌, OnErr};
ghost use Rattle.gimli_base.specs.declared.common.Format.TheVariants.{Dwarf32};
ghost use Rattle.gimli_base.specs.ListsBase.{lists_header_size};
ghost use Rattle.gimli_base.specs.Offset.{answer_of};
ghost use Rattle.gimli_base.specs.Reading.{read_of};
ghost use Rattle.gimli_lists.specs.ListsHeader.{header_of, lists_fields_at, lists_header_at};
ghost use Rattle.gimli_lists.specs.Places.{ListSections, list_offset};

use gimli_base::{Encoding, Error, Format, Reader, ReaderOffset, Result};

/// The header of `.debug_rnglists` or of `.debug_loclists` (DWARF 5, 7.28 and 7.29).
#[derive(Clone, Copy, Debug)]
pub struct ListsHeader {
    /// How the bytes after the header are read.
    pub encoding: Encoding,
    /// How many offsets follow the header.
    pub offset_entry_count: u32,
}

impl Default for ListsHeader {
    ghost is_default = { λ h. h ≡ header_of Dwarf32 5 0 0 };

    // A header of the format of 32 bits and version 5, with addresses of 0 bytes and no offsets.
    fn default() -> Self {
        ListsHeader {
            encoding: Encoding {
                format: Format::Dwarf32,
                version: 5,
                address_size: 0,
            },
            offset_entry_count: 0,
        }
    }
}

impl ListsHeader {
    /// The number of bytes of the header: 12, or 20 in the format of 64 bits.
    pub fn size(self) -> u8
        ensures { result ≡ lists_header_size self.encoding.format }
    {
        self.encoding.format.initial_length_size() + 2 + 1 + 1 + 4
    }

    /// Reads the next header, and leaves the bytes after it up to the end that its length field
    /// gives.
    ///
    /// Refusals, of the first field that has one: `UnexpectedEof` of each, also where the input
    /// ends before that end, `UnknownReservedLength`, `UnsupportedOffset`, `UnknownVersion` of a
    /// version other than 5, `UnsupportedAddressSize`, `UnsupportedSegmentSize` of segment
    /// selectors that take bytes. The input is then as it was.
    #[tactic(auto, unfolding(crate::specs::ListsHeader::lists_header_at))]
    pub fn parse<R: Reader>(input: &mut R) -> Result<ListsHeader>
        ensures value { read_of result (R.view input.new)
            ≡ lists_header_at R.Offset.limit (R.view input.old) }
        ensures kept { OnErr result (R.view input.new ≡ R.view input.old) }
    {
        let mut rest = input.copy();
        let (length, format) = rest.read_initial_length()?;
        rest.truncate(length)?;
        let header = parse_fields(&mut rest, format)?;
        *input = rest;
        Ok(header)
    }
}

// The version, the size of an address, the size of a segment selector and the number of offsets, in
// this order; the first that is refused is the refusal. The input is then left anywhere.
#[tactic(auto, unfolding(crate::specs::ListsHeader::lists_fields_at))]
fn parse_fields<R: Reader>(input: &mut R, format: Format) -> Result<ListsHeader>
    ensures { read_of result (R.view input.new) ≡ lists_fields_at format (R.view input.old) }
{
    let version = input.read_u16()?;
    if version != 5 {
        return Err(Error::UnknownVersion(u64::from(version)));
    }
    let address_size = input.read_address_size()?;
    let segment_selector_size = input.read_u8()?;
    if segment_selector_size != 0 {
        return Err(Error::UnsupportedSegmentSize(segment_selector_size));
    }
    let offset_entry_count = input.read_u32()?;
    let encoding = Encoding {
        format,
        version,
        address_size,
    };
    Ok(ListsHeader {
        encoding,
        offset_entry_count,
    })
}

/// What stands for two sections of lists in contracts: their bytes.
pub trait HasLists {
    // the two sections
    ghost lists: { Self → ListSections };
}

/// How a list is written.
#[derive(Clone, Copy, Debug, PartialEq, Eq)]
pub(crate) enum ListsFormat {
    /// Pairs of addresses, up to version 4.
    Bare,
    /// A code and operands: since version 5, and in split files before it.
    Coded,
}

/// The offset in its section of the list at an index of the table of offsets that begins at `base`.
/// The offsets in the table count from `base`. Whether the list lies in the section is not looked
/// at.
///
/// Refusals, of the first step that has one: `UnexpectedEof`, where the base lies after the
/// section's end; `UnsupportedOffset`, where the number of bytes before the index does not fit the
/// reader's offsets; `UnexpectedEof`, where the offset in the table would not end in the section;
/// `UnsupportedOffset`, where that offset, or its sum with the base, does not fit.
#[tactic(auto, unfolding(crate::specs::Places::list_offset))]
pub(crate) fn offset_of_list<R: Reader>(
    section: &R,
    format: Format,
    base: R::Offset,
    index: R::Offset,
) -> Result<R::Offset>
    ensures { answer_of R.Offset.number result
        ≡ list_offset R.Offset.limit format (R.Offset.number base) (R.Offset.number index)
        (R.view section.now) }
{
    let mut input = section.copy();
    input.skip(base)?;
    let before = index
        .into_u64()
        .checked_mul(u64::from(format.word_size()))
        .ok_or(Error::UnsupportedOffset)?;
    input.skip(R::Offset::from_u64(before)?)?;
    let offset = input.read_offset(format)?;
    base.checked_add(offset).ok_or(Error::UnsupportedOffset)
}
