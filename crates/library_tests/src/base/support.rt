use crate::same::same;

// A comparison that always holds would let every test pass that rests on it.
#[test]
#[should_panic]
fn a_difference_ends_a_test(rt: HostRuntime) {
    same(&rt, &7, &8, &"another value");
}
