use gimli_walk::{CursorStep, Mode, TreeStep, walk_text};
use std::alloc::Global;
use std::process::Abort;
use test_failing::{Failing, Refusal};

// A unit of eight entries without attributes.
const EIGHT: &[u8] = b"\x0f\0\0\0\x04\0\0\0\0\0\x04\x01\x01\x01\x01\x01\x01\x01\x01";

const E: CursorStep = CursorStep::NextEntry;

const R: TreeStep = TreeStep::Root;

// How often a walk over it asks for memory.
fn requests_of(rt: &impl Abort, alloc: Global, mode: Mode<'_>) -> u64 {
    let heap = Failing::new(alloc, Refusal::Never);
    let mut out = Vec::new(alloc);
    let status = walk_text(&heap, mode, EIGHT, &[0x01, 0x34, 0, 0, 0, 0], &mut out);
    assert!(rt; status == Ok(0));
    heap.requests()
}

#[test]
fn more_steps_ask_for_no_more_memory(rt: HostRuntime) {
    let few = requests_of(&rt, rt.alloc(), Mode::Cursor(&[E; 2]));
    assert!(rt; requests_of(&rt, rt.alloc(), Mode::Cursor(&[E; 200])) == few);
    assert!(rt; requests_of(&rt, rt.alloc(), Mode::Plain(&[E; 200])) == few);
    let nodes = requests_of(&rt, rt.alloc(), Mode::Tree(&[R; 2]));
    assert!(rt; requests_of(&rt, rt.alloc(), Mode::Tree(&[R; 200])) == nodes);
}
