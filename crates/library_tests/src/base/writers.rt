use crate::same::holds;
use log_lines::{Outlet, Writer};

/// An outlet that the process does not have open.
const CLOSED: Outlet = Outlet {
    descriptor: 1_000_000,
    is_shared: true,
    is_journal: false,
};

#[test]
fn what_a_closed_descriptor_does_not_take_waits(rt: HostRuntime) {
    let mut writer = Writer::new(rt.alloc(), CLOSED).expect(&rt, "memory");
    writer.push(b"line\n");
    holds(&rt, writer.write_now(), "the line waits");
}
