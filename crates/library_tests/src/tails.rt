use crate::same::same;
use std::alloc::{AllocError, Global};
use tail::Tail;
use test_support::Scarcity;

/// More items than any list has here.
const MOST: u64 = 1_000;

/// Puts the numbers from the length of the list up to before `end` at its end, with room taken for each.
fn put(tail: &mut Tail<u64>, end: u64) -> Result<(), AllocError> {
    for number in tail.len()..end {
        tail.reserve(1)?;
        if tail.len() < MOST {
            tail.push(number);
        }
    }
    Ok(())
}

#[test]
fn a_tail_at_its_limit_takes_no_memory(rt: HostRuntime) {
    let alloc: Global = rt.alloc();
    let mut full = Tail::new(alloc, Some(16));
    put(&mut full, 40).expect(&rt, "memory");
    let mut empty: Tail<u64> = Tail::new(alloc, Some(16));
    let scarcity = Scarcity::with_small_room(alloc).expect(&rt, "memory");
    let rest = scarcity.leave(0).expect(&rt, "memory");
    let is_refused = empty.reserve(1).is_err();
    let goes_on = put(&mut full, 80).is_ok();
    drop(rest);
    drop(scarcity);
    let found = (is_refused, goes_on, full.capacity());
    same(&rt, &found, &(true, true, 32), &"without memory");
}
