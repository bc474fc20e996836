//! A generated scenario.
use crate::tests::common::assert_bytes;
use scenario_generator::{OPENING_BYTES, generate};

/// What `gen 0 1` has behind its opening.
const ONE_FRAME: &str = "\
rx 6 02000000001202000000001788b50000
serve
end
";

#[test]
fn one_generated_frame(rt: HostRuntime) {
    let text = generate(rt.alloc(), 0, 1).expect(&rt, "memory");
    let behind = text.as_slice().get(OPENING_BYTES..);
    let behind = behind.expect(&rt, "an opening");
    assert_bytes(&rt, behind, ONE_FRAME.as_bytes(), "gen 0 1");
}
