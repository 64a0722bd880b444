//! The loop that looks at all targets.

use crate::clock::Stopwatch;
use crate::desk::Desk;
use crate::ledger::Ledger;
use crate::post::Post;
use crate::sink::Sink;
use mio::{Events, Poll, Token};
use std::alloc::Global;
use std::net::Net;
use std::sync::Wait;
use std::thread;
use std::time::{Clock, Duration};

/// How many milliseconds a round is put off where the system has no clock or no poll for it.
const RETRY_MILLIS: u64 = 100;

/// How many milliseconds a round waits at most.
const MAX_MILLIS: u64 = 60_000;

pub(crate) struct Tower<'a> {
    poll: Poll,
    events: Events,
    watch: Stopwatch,
    posts: Vec<Post<'a>>,
    ledger: Ledger<'a>,
    once: bool,
}

impl Drop for Tower<'_> {
    fn drop(self) {
        let Tower {
            poll: _,
            events: _,
            watch: _,
            posts: _,
            ledger: _,
            once: _,
        } = self;
    }
}

impl<'a> Tower<'a> {
    ghost use Rattle.std.specs.Prelude.{◌<◌, ◌^◌};

    pub(crate) fn new(
        poll: Poll,
        events: Events,
        watch: Stopwatch,
        posts: Vec<Post<'a>>,
        ledger: Ledger<'a>,
        once: bool,
    ) -> Tower<'a> {
        Tower {
            poll,
            events,
            watch,
            posts,
            ledger,
            once,
        }
    }

    /// What the newest looks came to.
    pub(crate) fn into_ledger(self) -> Ledger<'a> {
        let Tower {
            poll: _,
            events: _,
            watch: _,
            posts: _,
            ledger,
            once: _,
        } = self;
        ledger
    }

    /// Looks until the sink has enough of it, or once. Then nobody is asked for anything any more.
    pub(crate) fn run<R, S>(&mut self, rt: &R, alloc: Global, desk: &Desk, sink: &mut S)
    where
        R: Wait + Clock + Net,
        S: Sink,
    {
        for _ in rt.forever() {
            let now = self.watch.millis(rt);
            if let Some(now) = now {
                self.begin_and_wait(rt, alloc, desk, sink, now);
            }
            if self.has_ended(sink) {
                desk.close(rt);
                return;
            }
            match now {
                Some(now) => self.listen(rt, alloc, desk, sink, now),
                None => thread::sleep(rt, Duration::from_millis(RETRY_MILLIS)),
            }
            self.ledger.tell_notes(rt, desk, sink);
        }
    }

    fn has_ended<S: Sink>(&self, sink: &S) -> bool {
        if !sink.goes_on() {
            return true;
        }
        self.once && self.ledger.is_full()
    }

    /// Waits until something happens or is due, and lets the looks go on.
    fn listen<R, S>(&mut self, rt: &R, alloc: Global, desk: &Desk, sink: &mut S, now: u64)
    where
        R: Wait + Clock + Net,
        S: Sink,
    {
        let patience = self.patience(now);
        if self.poll.poll(&mut self.events, Some(patience)).is_err() {
            thread::sleep(rt, Duration::from_millis(RETRY_MILLIS));
        }
        let now = self.watch.millis(rt).unwrap_or(now);
        self.take_found(rt, alloc, desk, sink, now);
        self.take_events(rt, alloc, desk, sink, now);
    }

    /// How long nothing has to be done unless something happens.
    fn patience(&self, now: u64) -> Duration {
        let mut until = now.saturating_add(MAX_MILLIS);
        for post in &self.posts {
            until = until.min(post.until());
        }
        Duration::from_millis(until.saturating_sub(now).max(1))
    }

    /// Begins the looks that are due, and lets time pass for the others.
    fn begin_and_wait<R, S>(&mut self, rt: &R, alloc: Global, desk: &Desk, sink: &mut S, now: u64)
    where
        R: Wait + Net,
        S: Sink,
        requires { now < 2 ^ 63 }
    {
        for place in 0..self.posts.len() {
            let is_done = self.once && self.ledger.has(place);
            let Some(post) = self.posts.get_mut(place) else {
                return;
            };
            if !is_done {
                post.begin(alloc, now);
            }
            let told = post.wait(rt, alloc, self.poll.registry(), desk, now);
            self.ledger.enter(rt, desk, sink, place, told);
        }
    }

    /// Hands on the addresses that have come.
    fn take_found<R, S>(&mut self, rt: &R, alloc: Global, desk: &Desk, sink: &mut S, now: u64)
    where
        R: Wait + Net,
        S: Sink,
    {
        for _ in 0..self.posts.len() {
            let Some(found) = desk.found.take(rt) else {
                return;
            };
            let place = found.place;
            if let Some(post) = self.posts.get_mut(place) {
                let told = post.resolved(rt, alloc, self.poll.registry(), desk, now, found);
                self.ledger.enter(rt, desk, sink, place, told);
            }
        }
    }

    /// Lets the looks go on at whose connections something happened.
    fn take_events<R, S>(&mut self, rt: &R, alloc: Global, desk: &Desk, sink: &mut S, now: u64)
    where
        R: Wait + Net,
        S: Sink,
    {
        for event in self.events.iter() {
            let Token(place) = event.token();
            if let Some(post) = self.posts.get_mut(place) {
                let told = post.ready(rt, alloc, self.poll.registry(), desk, now);
                self.ledger.enter(rt, desk, sink, place, told);
            }
        }
    }
}
