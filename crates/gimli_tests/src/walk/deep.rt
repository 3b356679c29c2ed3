use gimli_walk::{Mode, TreeStep, walk_text};
use std::test::Fail;

// The number of the lists, each inside the one before it.
const DEPTH: u16 = 60_000;

// A declaration of code 1: the tag 0x2e, children, and no attribute.
const TABLE: [u8; 6] = [0x01, 0x2e, 0x01, 0x00, 0x00, 0x00];

#[test]
fn walks_into_60000_nested_lists(rt: HostRuntime) -> Result<(), Fail> {
    let alloc = rt.alloc();
    // after the length field are seven bytes of the header
    let [low, high] = (DEPTH + 7).to_le_bytes();
    let mut info = Vec::from_slice(alloc, &[low, high, 0, 0, 0x04, 0, 0, 0, 0, 0, 0x04])?;
    let mut steps = Vec::from_slice(alloc, &[TreeStep::Root])?;
    for _ in 0..DEPTH {
        info.push(0x01)?;
        steps.push(TreeStep::Enter)?;
        steps.push(TreeStep::Next)?;
    }
    let mut out = Vec::new(alloc);
    assert!(rt; walk_text(alloc, Mode::Tree(&steps), &info, &TABLE, &mut out) == Ok(0));
    assert!(rt; out.iter().filter(|byte| **byte == b'\n').count() == 120_001);
    assert!(rt; out.starts_with(b"node b 0 2e 1\nentered\nnode c 1 2e 1\nentered\n"));
    assert!(rt; out.ends_with(b"node ea6a 59999 2e 1\nentered\nend\n"));
    Ok(())
}
