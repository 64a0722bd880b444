//! What is known of entries.

use crate::same::same;
use chronicle::{Chronicle, Newest, Note, Who, time_text};
use std::process::Abort;

/// When an entry was made, in microseconds, and who asked for it.
type Known = Option<(u64, Who)>;

fn expect(rt: &impl Abort, chronicle: &Chronicle, place: u32, known: Known) {
    let expected = match known {
        Some((micros, who)) => Some(Note {
            time: time_text(micros),
            who,
        }),
        None => None,
    };
    same(rt, &chronicle.noted(place), &expected, &place);
}

/// What is known behind 100,000 entries of setup, which the first nine entries have come before.
static KNOWN: [(u32, Known); 10] = [
    (3, None),
    (4, Some((4, Who::Session(4)))),
    (5, Some((5, Who::Session(5)))),
    (6, None),
    (7, Some((7, Who::Session(7)))),
    (8, None),
    (34_463, None),
    (34_464, Some((9, Who::Setup))),
    (99_999, Some((9, Who::Setup))),
    (100_000, None),
];

// Far more entries come than are kept.
#[test]
fn the_newest_of_a_service_stays_known(rt: HostRuntime) {
    let chronicle = Chronicle::new(rt.alloc()).expect(&rt, "memory");
    for place in 0..9 {
        chronicle.note(place, u64::from(place), Who::Session(place));
    }
    chronicle.keep(3, Newest::Change, 4);
    chronicle.keep(3, Newest::Report, 5);
    chronicle.keep(15, Newest::Report, 6);
    chronicle.keep(15, Newest::Report, 7);
    // an older one, and one that is not known
    chronicle.keep(15, Newest::Report, 6);
    chronicle.keep(15, Newest::Report, 9);
    chronicle.note_all(100_000, 9, Who::Setup);
    for &(place, known) in &KNOWN {
        expect(&rt, &chronicle, place, known);
    }
}

/// Places far behind one another, of which each is the newest of its service when it is kept.
static FAR: [u32; 4] = [10, 0x7fff_ffff, 0x8000_0014, 0xfffe_fffe];

#[test]
fn the_newest_is_known_however_far_behind_the_one_before(rt: HostRuntime) {
    let chronicle = Chronicle::new(rt.alloc()).expect(&rt, "memory");
    for &place in &FAR {
        let (micros, who) = (u64::from(place), Who::Session(place));
        chronicle.note(place, micros, who);
        chronicle.keep(3, Newest::Change, place);
        // It has the place of its slot among the newest entries.
        chronicle.note(place.saturating_add(65_536), 0, Who::Setup);
        expect(&rt, &chronicle, place, Some((micros, who)));
    }
}
