//! The numbers of sessions.

use crate::same::same;
use chronicle::SessionNumbers;

#[test]
fn sessions_stay_at_the_greatest_number(rt: HostRuntime) {
    let numbers = SessionNumbers::after(u32::MAX - 1);
    same(&rt, &numbers.take(), &u32::MAX, &"the last");
    same(&rt, &numbers.take(), &u32::MAX, &"it stays");
}
