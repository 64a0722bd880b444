//! The thread of a watchdog.

use crate::gauges::Gauges;
use desk_core::Keep;
use diary::{Diary, Ending};
use hall::{Hall, Seat};
use live_server::News;
use mio::{Events, Poll, Token, Waker};
use probe_core::Probe;
use std::alloc::Global;
use std::net::Net;
use std::sync::Wait;
use std::time::{Clock, Duration};
use std::{io, thread};
use watchdog::Watchdog;

/// The token of what wakes it.
const WAKER: Token = Token(0);

/// How many milliseconds a round is put off where the system has no clock or no poll for it.
const RETRY_MILLIS: u64 = 100;

/// How many milliseconds the next round may be away while a diary is kept, so that its lines come soon.
const TELLING_MILLIS: u64 = 50;

/// A diary, and what it is told of how much the server holds.
#[derive(Drop)]
struct Telling {
    diary: Diary,
    gauges: Gauges,
}

/// Lets a watchdog have its rounds until all is to end, and tells a diary, if there is one, what has come about.
pub struct WatchdogLoop {
    watchdog: Watchdog,
    telling: Option<Telling>,
    poll: Poll,
    events: Events,
}

impl Drop for WatchdogLoop {
    fn drop(self) {
        let WatchdogLoop {
            watchdog: _,
            telling: _,
            poll: _,
            events: _,
        } = self;
    }
}

impl WatchdogLoop {
    ghost use Rattle.std.specs.Prelude.{◌≡◌, IfOk};
    ghost use Rattle.hall.specs.Seats.{IsOf};
    ghost use Rattle.live_run.specs.Watched.{guards_in};
    ghost use Rattle.watchdog.specs.Watching.{HasWatched, guards_of};

    /// A loop that nothing wakes yet.
    pub fn new<R: Net>(rt: &R, alloc: Global, watchdog: Watchdog) -> io::Result<WatchdogLoop>
        ensures { IfOk result (λ made. guards_in made ≡ guards_of watchdog) }
    {
        Ok(WatchdogLoop {
            watchdog,
            telling: None,
            poll: Poll::new(rt)?,
            events: Events::with_capacity(alloc, 1)?,
        })
    }

    /// The same, with a diary that follows the registry by the watchdog's seat, and the server by its gauges.
    pub fn with_diary(self, diary: Diary, gauges: Gauges) -> WatchdogLoop
        ensures { guards_in result ≡ guards_in self }
    {
        let WatchdogLoop {
            watchdog,
            telling: _,
            poll,
            events,
        } = self;
        WatchdogLoop {
            watchdog,
            telling: Some(Telling { diary, gauges }),
            poll,
            events,
        }
    }

    /// What wakes it while it waits: for an expectation that is set, and at the end.
    pub fn waker(&self) -> io::Result<Waker> {
        Waker::new(self.poll.registry(), WAKER)
    }

    /// Has rounds until all is to end, and tells the diary why.
    pub(crate) fn run<R: Wait + Clock, P: Probe, K: Keep>(
        &mut self,
        rt: &R,
        hall: &Hall<P, K>,
        seat: &mut Seat<P, K>,
        news: &News,
    )
        requires ours { IsOf hall.now seat.old }
        ensures watched { HasWatched K.kept (guards_in self.old) seat.old (guards_in self.new)
            seat.new }
        ensures ours { IsOf hall.now seat.new }
    {
        self.rounds(rt, hall, seat, news);
        self.tell_end(rt, hall, seat, ending_of(news));
    }

    /// Has rounds until all is to end.
    fn rounds<R: Wait + Clock, P: Probe, K: Keep>(
        &mut self,
        rt: &R,
        hall: &Hall<P, K>,
        seat: &mut Seat<P, K>,
        news: &News,
    )
        requires ours { IsOf hall.now seat.old }
        ensures watched { HasWatched K.kept (guards_in self.old) seat.old (guards_in self.new)
            seat.new }
        ensures ours { IsOf hall.now seat.new }
    {
        for _ in rt.forever() {
            if news.has_ended() {
                return;
            }
            let patience = self.round(rt, hall, seat, news);
            if self.poll.poll(&mut self.events, Some(patience)).is_err() {
                thread::sleep(rt, Duration::from_millis(RETRY_MILLIS));
            }
        }
    }

    /// A round, and how long the next may be away. Loops are told where a status changed, and the diary, once all threads have begun, what
    /// has come about.
    fn round<R: Wait + Clock, P: Probe, K: Keep>(
        &mut self,
        rt: &R,
        hall: &Hall<P, K>,
        seat: &mut Seat<P, K>,
        news: &News,
    ) -> Duration
        requires ours { IsOf hall.now seat.old }
        ensures watched { HasWatched K.kept (guards_in self.old) seat.old (guards_in self.new)
            seat.new }
        ensures ours { IsOf hall.now seat.new }
    {
        let patience = self.watch(rt, hall, seat, news);
        if news.awaits_threads() {
            return patience.min(Duration::from_millis(TELLING_MILLIS));
        }
        patience.min(self.tell(rt, hall, seat))
    }

    /// A round of the watchdog, and how long its next may be away. Loops are told where a status changed.
    fn watch<R: Wait + Clock, P: Probe, K: Keep>(
        &mut self,
        rt: &R,
        hall: &Hall<P, K>,
        seat: &mut Seat<P, K>,
        news: &News,
    ) -> Duration
        requires ours { IsOf hall.now seat.old }
        ensures watched { HasWatched K.kept (guards_in self.old) seat.old (guards_in self.new)
            seat.new }
        ensures ours { IsOf hall.now seat.new }
    {
        let Ok(round) = self.watchdog.round(rt, rt, hall, seat) else {
            return Duration::from_millis(RETRY_MILLIS);
        };
        if round.shows {
            news.change();
        }
        self.watchdog.patience(round.at)
    }

    /// Tells the diary, if there is one, what has come about, and how long it can be left alone then.
    #[tactic(auto, using(crate::proofs::WatchLemmas::watched_by_look, crate::proofs::WatchLemmas::unwatched))]
    fn tell<R: Wait + Clock, P: Probe, K: Keep>(
        &mut self,
        rt: &R,
        hall: &Hall<P, K>,
        seat: &mut Seat<P, K>,
    ) -> Duration
        requires ours { IsOf hall.now seat.old }
        ensures watched { HasWatched K.kept (guards_in self.old) seat.old (guards_in self.new)
            seat.new }
        ensures ours { IsOf hall.now seat.new }
    {
        match &mut self.telling {
            Some(telling) => {
                let held = telling.gauges.held();
                telling.diary.follow(rt, rt, hall, seat, held);
                patience_of(&telling.diary)
            }
            None => Duration::MAX,
        }
    }

    /// Tells the diary, if there is one, how all ended.
    #[tactic(auto, using(crate::proofs::WatchLemmas::watched_by_look, crate::proofs::WatchLemmas::unwatched))]
    fn tell_end<R: Wait + Clock, P: Probe, K: Keep>(
        &mut self,
        rt: &R,
        hall: &Hall<P, K>,
        seat: &mut Seat<P, K>,
        ending: Ending,
    )
        requires ours { IsOf hall.now seat.old }
        ensures watched { HasWatched K.kept (guards_in self.old) seat.old (guards_in self.new)
            seat.new }
        ensures ours { IsOf hall.now seat.new }
    {
        match &mut self.telling {
            Some(telling) => {
                let held = telling.gauges.held();
                telling.diary.end(rt, rt, hall, seat, held, ending);
            }
            None => {}
        }
    }
}

/// How a run ended whose news these are.
fn ending_of(news: &News) -> Ending {
    if news.lacks_threads() {
        Ending::LacksThreads
    } else if news.awaits_threads() {
        Ending::StoppedEarly
    } else {
        Ending::Stopped
    }
}

/// How long a diary can be left alone.
fn patience_of(diary: &Diary) -> Duration {
    if diary.has_more() {
        Duration::from_millis(0)
    } else {
        Duration::from_millis(TELLING_MILLIS)
    }
}
