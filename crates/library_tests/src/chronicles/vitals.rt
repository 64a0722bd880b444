//! What is to be watched in a server.

use crate::same::same;
use chronicle::{Chronicle, Newest, StoreFault, Who};

static FAULTS: [StoreFault; 6] = [
    StoreFault::Unknown,
    StoreFault::Moved,
    StoreFault::System(0),
    StoreFault::System(1),
    StoreFault::System(28),
    StoreFault::System(u32::MAX),
];

#[test]
fn a_fault_of_the_store_is_told_until_a_change_is_stored(rt: HostRuntime) {
    let chronicle = Chronicle::new(rt.alloc()).expect(&rt, "memory");
    let vitals = chronicle.vitals();
    same(&rt, &vitals.store_fault(), &None, &"the start");
    for fault in &FAULTS {
        vitals.not_stored(*fault);
        same(&rt, &vitals.store_fault(), &Some(*fault), fault);
    }
    vitals.stored();
    same(&rt, &vitals.store_fault(), &None, &"the end");
}

#[test]
fn the_newest_report_of_a_service_has_its_time(rt: HostRuntime) {
    let chronicle = Chronicle::new(rt.alloc()).expect(&rt, "memory");
    let vitals = chronicle.vitals();
    for place in 4..8 {
        chronicle.note(place, 10 * u64::from(place), Who::Setup);
    }
    chronicle.keep(5, Newest::Change, 4);
    same(
        &rt,
        &vitals.reported(5),
        &None,
        &"a change that was no report",
    );
    chronicle.keep(15, Newest::Report, 5);
    same(&rt, &vitals.reported(15), &Some(50), &"a report");
    chronicle.keep(15, Newest::Report, 6);
    chronicle.keep(15, Newest::Change, 7);
    same(&rt, &vitals.reported(15), &Some(60), &"a later report");
    same(&rt, &vitals.reported(5), &None, &"another service");
    same(&rt, &vitals.reported(16), &None, &"a slot that is none");
}

#[test]
fn refusals_are_counted_by_their_reason(rt: HostRuntime) {
    let chronicle = Chronicle::new(rt.alloc()).expect(&rt, "memory");
    for reason in [0, 7, 7, 8] {
        chronicle.refuse(1, Who::Setup, reason);
    }
    for (reason, count) in [(0, 1), (1, 0), (7, 2), (8, 0)] {
        same(&rt, &chronicle.vitals().refusals(reason), &count, &reason);
    }
}
