use crate::same::same;
use crew::Ring;
use std::process::Abort;
use web_call::{Bell, Turn};

/// Waits so often as there are turns expected.
fn expect_turns<R: Abort, B: Bell>(rt: &R, bell: &mut B, expected: &[Turn]) {
    for turn in expected {
        same(rt, &bell.wait(), turn, &expected);
    }
}

/// Each bell gives its own Looks, one for each ring since it was made, and none for one behind the end.
#[test]
fn gives_a_look_for_each_ring_from_then_on(rt: HostRuntime) {
    let ring = Ring::new();
    ring.ring(&rt);
    let mut first = ring.bell(&rt);
    ring.ring(&rt);
    let mut second = ring.bell(&rt);
    ring.ring(&rt);
    expect_turns(&rt, &mut first, &[Turn::Look, Turn::Look]);
    ring.ring(&rt);
    ring.end(&rt);
    ring.ring(&rt);
    let two = [Turn::Look, Turn::Look, Turn::End, Turn::End];
    expect_turns(&rt, &mut second, &two);
    expect_turns(&rt, &mut first, &[Turn::Look, Turn::End]);
    expect_turns(&rt, &mut ring.bell(&rt), &[Turn::End]);
}
