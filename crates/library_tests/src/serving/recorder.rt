//! What a loop asks its door.

use desk_core::{Behind, Watch};
use health_wire::Serving;
use live_server::{EventServer, News};
use plain::Inquiry;
use std::alloc::{AllocError, Global};
use std::process::Abort;
use std::time::Clock;
use web_call::Door;

/// The most that a recorder takes down.
const MOST: usize = 4;

/// A door that takes down what it is asked first: a Check as `c`, an opening as `o`, a step as `s`, a plain request as `t`, and that it is renewed as `r`. It
/// counts all.
#[derive(Drop)]
struct Recorder<'a, D: Door> {
    door: &'a mut D,
    asked: [u8; MOST],
    count: usize,
}

impl<D: Door> Recorder<'_, D> {
    ghost use Rattle.std.specs.Prelude.{◌≡◌};

    fn note(&mut self, asked: u8)
        ensures { self.new.door ≡ self.old.door }
    {
        if let Some(place) = self.asked.get_mut(self.count) {
            *place = asked;
        }
        self.count = self.count.saturating_add(1);
    }
}

impl<D: Door> Door for Recorder<'_, D> {
    ghost names = { λ recorder. D.names recorder.door.now };

    ghost seen = { λ recorder. D.seen recorder.door.now };

    ghost follows = { D.follows };

    ghost kept = { D.kept };

    ghost is_plain = { D.is_plain };

    ghost stays = { λ a b. D.stays a.door.now b.door.now };

    ghost stays_self = { λ a. D.stays_self a.door.now };

    ghost stays_on = { λ a b c. D.stays_on a.door.now b.door.now c.door.now };

    fn check(&mut self, name: &str) -> Option<Serving> {
        self.note(b'c');
        self.door.check(name)
    }

    fn open(&mut self, name: &str) -> (Watch, Serving) {
        self.note(b'o');
        self.door.open(name)
    }

    fn step(&mut self, watch: &mut Watch) -> Result<Option<Serving>, Behind> {
        self.note(b's');
        self.door.step(watch)
    }

    fn answers_plainly(&self) -> bool {
        self.door.answers_plainly()
    }

    fn tell(&mut self, alloc: Global, inquiry: &Inquiry<'_>) -> Result<Vec<u8>, AllocError> {
        self.note(b't');
        self.door.tell(alloc, inquiry)
    }

    fn renew(&mut self) {
        self.note(b'r');
        self.door.renew();
    }
}

/// What a loop asks its door first in a round, and how often it asks it.
pub(crate) fn asked_in_round<R: Abort + Clock, D: Door>(
    rt: &R,
    server: &mut EventServer,
    door: &mut D,
    news: &News,
) -> ([u8; MOST], usize) {
    let mut recorder = Recorder {
        door,
        asked: [b'.'; MOST],
        count: 0,
    };
    server.round(rt, &mut recorder, news).expect(rt, "a round");
    (recorder.asked, recorder.count)
}
