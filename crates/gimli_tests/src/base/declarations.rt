use crate::samples::{Table, encoding, table_with};
use gimli_base::{
    Abbreviation, AttributeSpecification, DwAt, DwForm, Encoding, EndianSlice, Error, Format,
    LittleEndian, Reader,
};
use std::alloc::Global;
use std::process::Abort;
use std::test::Fail;

// Attributes of two bytes, of the size of an address, of none, and in LEB128.
const MIXED: &[u8; 8] = b"\x3a\x05\x11\x01\x3f\x19\x0b\x0f";

#[test]
fn are_equal_where_all_parts_are(rt: HostRuntime) {
    let made = AttributeSpecification::new(DwAt(0x3b), DwForm(0x21), Some(-1));
    let same = AttributeSpecification::new(DwAt(0x3b), DwForm(0x21), Some(-1));
    let other = AttributeSpecification::new(DwAt(0x3b), DwForm(0x21), Some(1));
    assert!(rt; made == same && made != other);
}

// A name with a form; one whose form has its number here; the two zeros; and a name without a form,
// which is refused and leaves the input.
#[test]
fn declared_attributes_are_read_one_by_one(rt: HostRuntime) -> Result<(), Fail> {
    let bytes = [0x03, 0x08, 0x49, 0x21, 0x7f, 0, 0, 0x02, 0, 0x05];
    let mut input = EndianSlice::new(&bytes, LittleEndian);
    let name = AttributeSpecification::new(DwAt(0x03), DwForm(0x08), None);
    assert_eq!(rt; AttributeSpecification::read(&mut input), Ok(Some(name)));
    let constant = AttributeSpecification::new(DwAt(0x49), DwForm(0x21), Some(-1));
    assert_eq!(rt;
        AttributeSpecification::read(&mut input),
        Ok(Some(constant))
    );
    assert_eq!(rt; AttributeSpecification::read(&mut input), Ok(None));
    assert_eq!(rt;
        AttributeSpecification::read(&mut input),
        Err(Error::AttributeFormZero)
    );
    assert_eq!(rt; input.read_u8(), Ok(2));
    Ok(())
}

// The encodings: version 4 and version 5, with the narrowest and the widest addresses and offsets; and
// version 2, whose ref_addr is as wide as an address, with others.
const ENCODINGS: [(Format, u16, u8); 4] = [
    (Format::Dwarf32, 4, 4),
    (Format::Dwarf64, 5, 8),
    (Format::Dwarf32, 2, 8),
    (Format::Dwarf64, 2, 4),
];

// The bytes of values under each of these encodings, where they are known.
type Widths = [Option<u64>; 4];

// The forms addr, strp, ref_addr, data16, flag_present and udata, and the bytes of a value of each.
const FORMS: [(u8, Widths); 6] = [
    (0x01, [Some(4), Some(8), Some(8), Some(4)]),
    (0x0e, [Some(4), Some(8), Some(4), Some(8)]),
    (0x10, [Some(4), Some(8), Some(8), Some(4)]),
    (0x1e, [Some(16); 4]),
    (0x19, [Some(0); 4]),
    (0x0f, [None; 4]),
];

// The sizes of a declaration's attributes together, by its steps and the values between them, if
// each is known.
fn sum_by_steps(declared: &Abbreviation<Global>, encoding: Encoding) -> Option<u64> {
    let mut sum = 0u64;
    let mut left = declared.attributes();
    for step in declared.steps() {
        sum = sum.saturating_add(step.size(encoding));
        let Some((value, rest)) = left.get(step.values as usize..)?.split_first() else {
            return Some(sum);
        };
        sum = sum.saturating_add(u64::from(value.size(encoding)?));
        left = rest;
    }
    None
}

// Tries the declaration of a table, whose attributes have so many times these bytes together.
fn tries_sizes(rt: &impl Abort, table: &Table, widths: Widths, times: u32) {
    let declared = table.get(1).expect(rt, "declared");
    for ((format, version, address_size), width) in ENCODINGS.into_iter().zip(widths) {
        let mut given = encoding(version, address_size);
        given.format = format;
        let size = width.map(|width| width.saturating_mul(u64::from(times)));
        assert_eq!(rt; declared.attributes_size(given), size);
        assert_eq!(rt; sum_by_steps(declared, given), size);
        let whole = declared.whole_step().map(|step| step.size(given));
        assert!(rt; whole == size || declared.steps().len() > 1);
    }
}

#[test]
fn attributes_have_the_sum_of_their_sizes(rt: HostRuntime) -> Result<(), Fail> {
    let known = table_with(rt.alloc(), 0, &MIXED[..6], 1)?;
    tries_sizes(&rt, &known, [Some(6), Some(10), Some(10), Some(6)], 1);
    tries_sizes(&rt, &table_with(rt.alloc(), 0, MIXED, 1)?, [None; 4], 1);
    tries_sizes(&rt, &table_with(rt.alloc(), 0, &[], 1)?, [Some(0); 4], 1);
    Ok(())
}

#[test]
fn many_attributes_have_the_sum_of_their_sizes(rt: HostRuntime) -> Result<(), Fail> {
    for (form, widths) in FORMS {
        for count in [12, 13, 14, 65_535, 65_536] {
            let table = table_with(rt.alloc(), 0, &[0x3a, form], count)?;
            tries_sizes(&rt, &table, widths, count);
        }
    }
    Ok(())
}

// Two bytes, a sibling of four and an address.
const WITH_SIBLING: &[u8; 6] = b"\x3a\x05\x01\x13\x11\x01";

#[test]
fn sibling_of_known_size_is_between_two_steps(rt: HostRuntime) -> Result<(), Fail> {
    for count in [1, 2] {
        let table = table_with(rt.alloc(), 0, WITH_SIBLING, count)?;
        tries_sizes(&rt, &table, [Some(10), Some(14), Some(14), Some(10)], count);
        let declared = table.get(1).expect(&rt, "declared");
        assert_eq!(rt; declared.steps().len(), 2);
        assert_eq!(rt;
            declared.whole_step().map(|step| u32::from(step.values)),
            Some(3 * count)
        );
    }
    Ok(())
}

// Two bytes, a reference and an address: by ref4, and by ref8 and ref_sup8, which have eight bytes
// in every format.
#[test]
fn step_tells_a_reference_of_8_bytes(rt: HostRuntime) -> Result<(), Fail> {
    for (form, has_ref8) in [(0x13, 0), (0x14, 1), (0x24, 1)] {
        let table = table_with(rt.alloc(), 0, &[0x3a, 0x05, 0x49, form, 0x11, 0x01], 1)?;
        let declared = table.get(1).expect(&rt, "declared");
        assert_eq!(rt;
            declared.whole_step().map(|step| step.has_ref8),
            Some(has_ref8)
        );
    }
    Ok(())
}

#[test]
fn sibling_of_unknown_size_is_in_no_step(rt: HostRuntime) -> Result<(), Fail> {
    let table = table_with(rt.alloc(), 0, b"\x3a\x05\x01\x15\x11\x01", 1)?;
    tries_sizes(&rt, &table, [None; 4], 1);
    let declared = table.get(1).expect(&rt, "declared");
    assert_eq!(rt; declared.steps().len(), 2);
    assert!(rt; declared.whole_step().is_none());
    Ok(())
}
