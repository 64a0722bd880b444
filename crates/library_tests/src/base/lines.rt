use crate::same::same;
use log_lines::{Event, Line, Status, Who};

const TIME: &str = "2026-11-26T01:45:09.123456Z";

/// Lines that no check of a run brings about.
static LINES: [(Event<'static>, &str); 5] = [
    (
        Event::Changed {
            name: "db",
            old: Status::Unknown,
            new: Status::Serving,
            place: 4711,
            who: Who::Setup,
            call: "pass db",
        },
        "2026-11-26T01:45:09.123456Z INFO  db: unknown -> serving, entry 4711 (setup: pass db)\n",
    ),
    (
        Event::Dropped(1),
        "2026-11-26T01:45:09.123456Z WARN  1 line dropped, since nobody took those before\n",
    ),
    (
        Event::Lost(1),
        "2026-11-26T01:45:09.123456Z WARN  1 refusal written over before it was told\n",
    ),
    (
        Event::Lost(20),
        "2026-11-26T01:45:09.123456Z WARN  20 refusals written over before they were told\n",
    ),
    (
        Event::Forgotten(1),
        "2026-11-26T01:45:09.123456Z WARN  1 entry forgotten before being told\n",
    ),
];

#[test]
fn tells_what_no_check_brings_about(rt: HostRuntime) {
    for &(event, expected) in &LINES {
        let found = Line { time: TIME, event }
            .to_string(rt.alloc())
            .expect(&rt, "memory");
        same(&rt, &found.as_str(), &expected, &"line");
    }
}
