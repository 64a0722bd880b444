ghost use Rattle.std.specs.Prelude.{◌≡◌, true, false};

use std::marker::Model;
use std::sync::{Condvar, Mutex, Wait};
use web_call::{Bell, Turn};

/// How often a ring was rung, and whether it has ended.
#[derive(Clone, Copy)]
struct Rung {
    rings: u64,
    ended: bool,
}

impl Rung {
    ghost use Rattle.crew.specs.Ring.{rings_after};

    fn new() -> Rung
        ensures { result ≡ record { rings = 0; ended = false } }
    {
        Rung {
            rings: 0,
            ended: false,
        }
    }

    // Counts one ring more. After the end none is counted, and none past the greatest number.
    fn ring(&mut self)
        ensures rings { self.new.rings ≡ rings_after self.old.ended self.old.rings }
        ensures ended { self.new.ended ≡ self.old.ended }
    {
        if !self.ended {
            self.rings = self.rings.saturating_add(1);
        }
    }

    fn end(&mut self)
        ensures { self.new ≡ record self.old { ended = true } }
    {
        self.ended = true;
    }
}

/// What tells bells in other threads that something may have changed, until it is ended.
#[derive(Drop)]
pub struct Ring {
    rung: Mutex<Rung>,
    changed: Condvar,
}

impl Ring {
    /// A ring that was not rung.
    pub fn new() -> Ring {
        Ring {
            rung: Mutex::new(Rung::new()),
            changed: Condvar::new(),
        }
    }

    /// Gives each bell one Look more. It does nothing after the end, or once 2^64 - 1 rings were counted.
    pub fn ring<R: Wait>(&self, rt: &R) {
        self.rung.lock(rt).ring();
        self.changed.notify_all();
    }

    /// Ends the ring: each bell gives the Looks that it has left, and then ends.
    pub fn end<R: Wait>(&self, rt: &R) {
        self.rung.lock(rt).end();
        self.changed.notify_all();
    }

    /// A bell that gives one Look for each ring from now on.
    pub fn bell<'a, R: Wait>(&'a self, rt: &'a R) -> RingBell<'a, R>
        ensures { result ≡ record { given = 0; is_over = false } }
    {
        let heard = self.rung.lock(rt).rings;
        RingBell {
            rt,
            ring: self,
            start: heard,
            heard,
            over: false,
        }
    }
}

/// A bell that waits for a ring, and ends with it. Contracts see how many Looks it has given, and whether it is over.
#[derive(Drop)]
pub struct RingBell<'a, R: Wait> {
    rt: &'a R,
    ring: &'a Ring,
    // How many rings were counted when it was made, and how many of all it has told.
    start: u64,
    heard: u64,
    over: bool,
}

impl<'a, R: Wait> Model for RingBell<'a, R> {
    ghost use Rattle.std.specs.Prelude.{◌-◌, ◌≤◌};
    ghost use Rattle.crew.specs.Ring.{Told};

    ghost Value = { Told };

    ghost view = { λ bell. record { given = bell.heard - bell.start; is_over = bell.over } };

    ghost invariant = { λ bell. bell.start ≤ bell.heard };
}

impl<R: Wait> Bell for RingBell<'_, R> {
    ghost given = { λ bell. bell.given };

    ghost is_over = { λ bell. bell.is_over };

    fn wait(&mut self) -> Turn {
        if self.over {
            return Turn::End;
        }
        let (rt, ring, heard) = (self.rt, self.ring, self.heard);
        let rung = ring.changed.wait_while(rt, ring.rung.lock(rt), |rung| {
            rung.rings <= heard && !rung.ended
        });
        if heard < rung.rings {
            self.heard = heard + 1;
            Turn::Look
        } else {
            self.over = true;
            Turn::End
        }
    }
}
