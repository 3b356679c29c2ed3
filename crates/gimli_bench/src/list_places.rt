//! The places of bytes in tables of abbreviations and in lists that are written anew.

use crate::places::{
    Place, byte_at, push, push_any, push_expression, push_name, push_number, push_signed, push_tag,
};
use gimli_base::{EndianSlice, LittleEndian, Reader, Result};

// Bytes that are read from the first on.
#[derive(Drop)]
struct Parser<'a> {
    bytes: &'a [u8],
    left: EndianSlice<'a, LittleEndian>,
}

impl<'a> Parser<'a> {
    fn new(bytes: &'a [u8]) -> Self {
        Parser {
            bytes,
            left: EndianSlice::new(bytes, LittleEndian),
        }
    }

    // Where the next byte is.
    fn at(&self) -> usize {
        self.bytes.len().wrapping_sub(self.left.len())
    }

    // The next byte, which is not passed.
    fn next(&self) -> u8 {
        byte_at(self.bytes, self.at())
    }

    fn number(&mut self) -> Result<u64> {
        self.left.read_uleb128()
    }
}

// The places in a declaration, after its code.
fn places_of_declaration(
    parser: &mut Parser<'_>,
    keeps_asked: bool,
    places: &mut Vec<Place>,
) -> Result<()> {
    let at = parser.at();
    let tag = parser.number()?;
    push_tag(places, at, tag, keeps_asked)?;
    parser.left.read_u8()?;
    for _ in 0..u64::MAX {
        let at = parser.at();
        let name = parser.number()?;
        let form = parser.number()?;
        if name == 0 && form == 0 {
            break;
        }
        push_name(places, at, name)?;
        // (an implicit constant stands in the table)
        if form == 0x21 {
            push_signed(places, parser.at(), parser.next())?;
            parser.left.read_sleb128()?;
        }
    }
    Ok(())
}

/// The places in tables of abbreviations that follow one another.
pub(crate) fn places_of_tables(
    bytes: &[u8],
    keeps_asked: bool,
    places: &mut Vec<Place>,
) -> Result<()> {
    let mut parser = Parser::new(bytes);
    for _ in 0..u64::MAX {
        if parser.left.is_empty() {
            break;
        }
        if parser.number()? != 0 {
            places_of_declaration(&mut parser, keeps_asked, places)?;
        }
    }
    Ok(())
}

// The places of two addresses of which the first is lower: their lowest bytes, or that of the
// second alone where they differ in no other.
fn push_addresses(places: &mut Vec<Place>, at: usize, begin: u64, end: u64) -> Result<()> {
    let second = at.wrapping_add(8);
    if begin / 256 < end / 256 {
        push_any(places, at)?;
        push_any(places, second)?;
    } else if begin < end {
        let low = (begin % 256) as u8;
        push(
            places,
            second,
            low.saturating_add(1),
            254u8.saturating_sub(low),
        )?;
    }
    Ok(())
}

// The places in the next pair of a list of version 4, and in its expression; whether it is no end.
fn places_of_pair(
    parser: &mut Parser<'_>,
    has_expressions: bool,
    places: &mut Vec<Place>,
) -> Result<bool> {
    let at = parser.at();
    let begin = parser.left.read_u64()?;
    let end = parser.left.read_u64()?;
    if begin == u64::MAX {
        push_any(places, at.wrapping_add(8))?;
        return Ok(true);
    }
    push_addresses(places, at, begin, end)?;
    if begin == 0 && end == 0 {
        return Ok(false);
    }
    if has_expressions {
        let length = parser.left.read_u16()?;
        push_expression(places, parser.bytes, parser.at(), length as usize)?;
        parser.left.skip(length as usize)?;
    }
    Ok(true)
}

/// The places in the lists of ranges of version 4 that follow one another.
pub(crate) fn places_of_ranges(bytes: &[u8], places: &mut Vec<Place>) -> Result<()> {
    let mut parser = Parser::new(bytes);
    for _ in 0..u64::MAX {
        if parser.left.is_empty() {
            break;
        }
        places_of_pair(&mut parser, false, places)?;
    }
    Ok(())
}

/// The places in a list of locations of version 4, which begins at an offset.
pub(crate) fn places_of_locations(
    bytes: &[u8],
    start: usize,
    places: &mut Vec<Place>,
) -> Result<()> {
    let mut parser = Parser::new(bytes);
    parser.left.skip(start)?;
    for _ in 0..u64::MAX {
        if !places_of_pair(&mut parser, true, places)? {
            break;
        }
    }
    Ok(())
}

// Passes a number of bytes that is not 0, and its place.
fn push_length(parser: &mut Parser<'_>, places: &mut Vec<Place>) -> Result<()> {
    push_number(places, parser.at(), parser.next(), 1)?;
    parser.number()?;
    Ok(())
}

// Passes two offsets of which the first is lower, and their places.
fn push_offsets(parser: &mut Parser<'_>, places: &mut Vec<Place>) -> Result<()> {
    let first_at = parser.at();
    let first = parser.next();
    let begin = parser.number()?;
    let second_at = parser.at();
    let second = parser.next();
    let end = parser.number()?;
    let high = second & 0x80;
    if begin / 128 < end / 128 {
        push_number(places, first_at, first, 0)?;
        push(places, second_at, high, 127)?;
    } else if begin < end {
        let low = (begin % 128) as u8;
        let least = low.saturating_add(1);
        push(
            places,
            second_at,
            high.saturating_add(least),
            126u8.saturating_sub(low),
        )?;
    }
    Ok(())
}

// Passes an entry of a list of version 5, and its places; its kind is given. The kinds of
// locations are those of ranges with numbers that differ from 5 on.
fn places_of_kind(parser: &mut Parser<'_>, kind: u8, places: &mut Vec<Place>) -> Result<()> {
    match kind {
        // base_addressx
        1 => {
            parser.number()?;
        }
        // startx_endx
        2 => {
            parser.number()?;
            parser.number()?;
        }
        // startx_length
        3 => {
            parser.number()?;
            push_length(parser, places)?;
        }
        4 => push_offsets(parser, places)?,
        // base_address
        5 => {
            push_any(places, parser.at())?;
            parser.left.skip(8)?;
        }
        // start_end
        6 => {
            let at = parser.at();
            let begin = parser.left.read_u64()?;
            let end = parser.left.read_u64()?;
            push_addresses(places, at, begin, end)?;
        }
        // start_length
        7 => {
            push_any(places, parser.at())?;
            parser.left.skip(8)?;
            push_length(parser, places)?;
        }
        _ => {}
    }
    Ok(())
}

// Passes an entry of a list of version 5, and its places.
fn places_of_entry(
    parser: &mut Parser<'_>,
    has_expressions: bool,
    places: &mut Vec<Place>,
) -> Result<()> {
    let kind = parser.left.read_u8()?;
    if !has_expressions {
        return places_of_kind(parser, kind, places);
    }
    match kind {
        0 => return Ok(()),
        // default_location
        5 => {}
        6..=8 => places_of_kind(parser, kind.saturating_sub(1), places)?,
        _ => places_of_kind(parser, kind, places)?,
    }
    if kind == 1 || kind == 6 {
        return Ok(());
    }
    let length = parser.number()? as usize;
    push_expression(places, parser.bytes, parser.at(), length)?;
    parser.left.skip(length)
}

/// The places in the lists of version 5 of a section: sets of 8-byte addresses, each with its header
/// and its table of offsets, after which its lists follow one another.
pub(crate) fn places_of_sets(
    bytes: &[u8],
    has_expressions: bool,
    places: &mut Vec<Place>,
) -> Result<()> {
    let mut parser = Parser::new(bytes);
    for _ in 0..u64::MAX {
        if parser.left.is_empty() {
            break;
        }
        let size = parser.left.read_u32()? as usize;
        let end = parser.at().wrapping_add(size);
        parser.left.skip(4)?;
        let offsets = parser.left.read_u32()?;
        for _ in 0..offsets {
            parser.left.read_u32()?;
        }
        for _ in 0..u64::MAX {
            if parser.at() >= end {
                break;
            }
            places_of_entry(&mut parser, has_expressions, places)?;
        }
    }
    Ok(())
}

/// The places of the lowest bytes of the addresses that are not 0 in sets that follow one another,
/// each with its header.
pub(crate) fn places_of_addresses(bytes: &[u8], places: &mut Vec<Place>) -> Result<()> {
    let mut parser = Parser::new(bytes);
    for _ in 0..u64::MAX {
        if parser.left.is_empty() {
            break;
        }
        let size = parser.left.read_u32()? as usize;
        let end = parser.at().wrapping_add(size);
        parser.left.skip(4)?;
        for _ in 0..u64::MAX {
            if parser.at() >= end {
                break;
            }
            let at = parser.at();
            if parser.left.read_u64()? != 0 {
                push_any(places, at)?;
            }
        }
    }
    Ok(())
}

/// The places of the lowest bytes of the addresses in a set of `.debug_aranges`, whose pairs begin at
/// 16 and end with two zeros.
pub(crate) fn places_of_pairs(bytes: &[u8], places: &mut Vec<Place>) -> Result<()> {
    let mut parser = Parser::new(bytes);
    if bytes.len() < 16 {
        return Ok(());
    }
    parser.left.skip(16)?;
    for _ in 0..u64::MAX {
        if parser.left.is_empty() {
            break;
        }
        let at = parser.at();
        let address = parser.left.read_u64()?;
        let length = parser.left.read_u64()?;
        if address == 0 && length == 0 {
            break;
        }
        push_any(places, at)?;
    }
    Ok(())
}
