use gimli_base::{BigEndian, Endianity, LittleEndian, RunTimeEndian};
use std::process::Abort;

// Tries a byte order: which byte comes first in it, and that its kept form gives it back.
fn tries_order<E: Endianity>(rt: &impl Abort, endian: E, is_big: bool) {
    assert!(rt; endian.is_big_endian() == is_big);
    assert!(rt; E::from_kept(endian.to_kept()) == endian);
}

#[test]
fn tries_each_order(rt: HostRuntime) {
    tries_order(&rt, LittleEndian, false);
    tries_order(&rt, BigEndian, true);
    tries_order(&rt, RunTimeEndian::Little, false);
    tries_order(&rt, RunTimeEndian::Big, true);
    assert!(rt; LittleEndian::default() == LittleEndian);
    assert!(rt; BigEndian::default() == BigEndian);
}
