//! What a round of a loop asks its door.

use crate::same::same;
use crate::serving::loops::{client, serving};
use crate::serving::recorder::asked_in_round;
use crate::serving::stage::staged_of;
use desk_core::Setting;
use live_server::ServerLimits;
use std::io::Write;
use test_support::requests::{CHECK_OF_EMPTY, WATCH_OF_EMPTY};

const LIMITS: ServerLimits = ServerLimits {
    connections: 30,
    watches: 30,
};

/// Of twenty Watches that have forty changes to be told a round tells four, each 32 changes, and then other rounds tell the others. Where
/// each has eight left a round tells sixteen. Watches look behind all else, for which the door is renewed once.
#[test]
fn a_round_tells_its_watches_little_and_behind_all_else(rt: HostRuntime) {
    let alloc = rt.alloc();
    let mut staged = staged_of(&rt, alloc);
    let (mut server, news, addr) = serving(&rt, alloc, LIMITS);
    let mut watches = Vec::new(alloc);
    for _ in 0..20 {
        let watch = client(&rt, addr, WATCH_OF_EMPTY);
        watches.push(watch).expect(&rt, "memory");
    }
    let mut check = client(&rt, addr, b"");
    for _ in 0..2 {
        let _ = asked_in_round(&rt, &mut server, &mut staged.door(), &news);
    }
    for _ in 0..20 {
        staged.set(Setting::Down);
        staged.set(Setting::Up);
    }
    news.change();
    let first = asked_in_round(&rt, &mut server, &mut staged.door(), &news);
    check.write_all(CHECK_OF_EMPTY).expect(&rt, "a request");
    let second = asked_in_round(&rt, &mut server, &mut staged.door(), &news);
    for _ in 0..4 {
        let _ = asked_in_round(&rt, &mut server, &mut staged.door(), &news);
    }
    let last = asked_in_round(&rt, &mut server, &mut staged.door(), &news);
    let expected = ((*b"rsss", 129), (*b"crss", 130), (*b"rsss", 145));
    same(&rt, &(first, second, last), &expected, &"the rounds");
}
