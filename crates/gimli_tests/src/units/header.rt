use crate::samples::encoding;
use crate::units::samples::{unit_of, usual};
use gimli_base::{
    DW_UT_hi_user, DW_UT_lo_user, DebugTypeSignature, DwoId, Encoding, Format, SectionId,
};
use gimli_units::{UnitOffset, UnitType};
use std::test::Fail;

// The type unit of a signature and of the offset of the type's entry, or that of a split file.
macro_rules! type_unit {
    ($variant:ident, $signature:expr, $offset:expr) => {
        UnitType::$variant {
            type_signature: DebugTypeSignature($signature),
            type_offset: UnitOffset($offset),
        }
    };
}

// Each type of unit, with the size of its header in the 32-bit format and in the 64-bit format, in a
// version other than 5; and then the same types with other parts.
fn unit_types() -> [(UnitType<usize>, usize, usize); 14] {
    [
        (UnitType::Compilation, 11, 23),
        (type_unit!(TypeUnit, 5, 6), 23, 39),
        (UnitType::Partial, 11, 23),
        (UnitType::Skeleton(DwoId(5)), 19, 31),
        (UnitType::SplitCompilation(DwoId(5)), 19, 31),
        (type_unit!(SplitType, 5, 6), 23, 39),
        (UnitType::Vendor(DW_UT_lo_user), 11, 23),
        (type_unit!(TypeUnit, 7, 6), 23, 39),
        (type_unit!(TypeUnit, 5, 7), 23, 39),
        (UnitType::Skeleton(DwoId(7)), 19, 31),
        (UnitType::SplitCompilation(DwoId(7)), 19, 31),
        (type_unit!(SplitType, 7, 6), 23, 39),
        (type_unit!(SplitType, 5, 7), 23, 39),
        (UnitType::Vendor(DW_UT_hi_user), 11, 23),
    ]
}

// The 64-bit format, a version, and addresses of 4 bytes.
fn of_64_bits_in(version: u16) -> Encoding {
    let mut given = encoding(version, 4);
    given.format = Format::Dwarf64;
    given
}

#[test]
fn types_that_no_bytes_give_have_sizes(rt: HostRuntime) {
    for (unit_type, of_32_bits, of_64_bits) in unit_types() {
        for version in [2, 3, 4, 6] {
            let mut parts = usual();
            parts.unit_type = unit_type;
            parts.encoding = encoding(version, 4);
            let unit = unit_of(&rt, parts);
            assert_eq!(rt; unit.size_of_header(), of_32_bits, "{unit_type:?}");
            assert!(rt; unit.type_() == unit_type);
            parts.encoding = of_64_bits_in(version);
            let unit = unit_of(&rt, parts);
            assert_eq!(rt; unit.size_of_header(), of_64_bits, "{unit_type:?}");
        }
    }
}

#[test]
fn types_of_other_variants_or_parts_differ(rt: HostRuntime) {
    for (i, (first, ..)) in unit_types().into_iter().enumerate() {
        for (j, (second, ..)) in unit_types().into_iter().enumerate() {
            assert_eq!(rt; first == second, i == j, "{first:?} {second:?}");
        }
    }
}

#[test]
fn units_with_other_parts_differ(rt: HostRuntime) -> Result<(), Fail> {
    let unit = unit_of(&rt, usual());
    assert!(rt; unit.copy() == unit);
    assert!(rt; unit.clone()? == unit);
    let mut others = [usual(); 9];
    others[0].length = 0x11;
    others[1].unit_type = UnitType::Partial;
    others[2].section = SectionId::DebugTypes;
    others[3].offset = 1;
    others[4].abbreviations = 1;
    others[5].encoding = of_64_bits_in(4);
    // versions and sizes that no bytes give are shown too
    others[6].encoding = encoding(0xffff, 4);
    others[7].encoding = encoding(4, 0xff);
    others[8].entries = &[0x01, 0x0f, 0x02, 0x00, 0x02, 0x0f, 0x03, 0x00, 0x01];
    for other in others {
        let found = unit_of(&rt, other);
        assert!(rt; found != unit && found.encoding() == other.encoding);
        assert!(rt; found.version() == other.encoding.version);
        assert!(rt; found.address_size() == other.encoding.address_size);
    }
    Ok(())
}
