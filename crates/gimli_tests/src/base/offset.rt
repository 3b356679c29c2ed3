use gimli_base::ReaderOffset;

// Offsets of `u64` belong to neither reader of the tables.
#[test]
fn reaches_the_limits_of_64_bits(rt: HostRuntime) {
    let high = u64::from_u64(u64::MAX).expect(&rt, "the last offset");
    let (zero, one) = (u64::from_u8(0), u64::from_u16(1));
    let below = high.checked_sub(one).expect(&rt, "the offset before");
    assert!(rt; high.into_u64() == u64::MAX);
    assert!(rt; u64::from_u32(u32::MAX).into_u64() == 0xffff_ffff);
    assert!(rt; below.checked_add(one) == Some(high));
    assert!(rt; high.checked_add(zero) == Some(high));
    assert!(rt; high.checked_add(one) == None);
    assert!(rt; zero.checked_sub(one) == None);
    assert!(rt; zero < one && one < below && below < high);
}
