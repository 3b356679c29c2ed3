//! Tests of `gimli_lists`, of what no row of a table can show.

use std::alloc::Global;
use std::fmt::Debug;
use std::process::Abort;
use std::test::Fail;

// Tries that lists show the sections of others.
fn shows<L: Debug>(rt: &impl Abort, alloc: Global, lists: &L, wanted: &L) -> Result<(), Fail> {
    let shown = format!(in alloc; "{lists:?}")?;
    assert!(rt; shown == format!(in alloc; "{wanted:?}")?);
    Ok(())
}

// Tries that both sections of lists are borrowed, the older one first, and then copied.
macro_rules! tries_borrowed {
    ($rt:expr, $lists:ident, $old:ident, $new:ident) => {{
        let alloc = $rt.alloc();
        let old = $old::from([1, 2, 3].to_vec(alloc)?);
        let owned = $lists::new(old, $new::from([4, 5].to_vec(alloc)?));
        let mut lengths = 0_u64;
        let borrowed = owned.borrow(|bytes| {
            lengths = lengths.wrapping_mul(16).wrapping_add(bytes.len() as u64);
            EndianSlice::new(bytes, LittleEndian)
        });
        assert!($rt; lengths == 0x32);
        let old = $old::new(&[1, 2, 3], LittleEndian);
        let wanted = $lists::new(old, $new::new(&[4, 5], LittleEndian));
        shows(&$rt, alloc, &borrowed, &wanted)?;
        shows(&$rt, alloc, &borrowed.copy(), &wanted)
    }};
}

mod aranges;
mod loclists;
mod rnglists;
