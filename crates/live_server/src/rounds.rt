//! The rounds of a loop.

ghost use Rattle.std.specs.Prelude.{◌≡◌};
ghost use Rattle.live_server.specs.Loop.{table_of};
ghost use Rattle.live_server.specs.Settled.{KeepsAccount};

use crate::accept::Accept;
use crate::conversations::{Conversations, Counts};
use crate::event_loop::EventLoop;
use crate::handler::Handler;
use crate::news::News;
use crate::places::{Places, Taken};
use crate::queue::{Queue, RETRY_MILLIS};
use crate::tally::{Tallied, Tally};
use crate::turns::{Ending, FIRST_TOKEN, Round};
use mio::{Events, Poll, Registry, Token, Waker};
use reactor::{Machine, Ready, Socket};
use std::alloc::{AllocError, Global};
use std::net::Net;
use std::sync::{Arc, Wait};
use std::time::{Clock, Duration, Instant};
use std::{io, thread};

/// The token of the socket that connections come to.
const LISTENER: Token = Token(0);

/// The token of what wakes a loop.
const WAKER: Token = Token(1);

/// How many milliseconds a round waits at most. A sweep comes no sooner behind another, but for the one of those that have sent nothing
/// when all is to end, and so in less than twice as many where rounds are short.
const TICK_MILLIS: u64 = 100;

/// How many milliseconds a connection that has sent nothing has, once all is to end.
const SILENCE_MILLIS: u64 = 200;

/// How many milliseconds what is left may take then.
const END_MILLIS: u64 = 30_000;

/// The most connections that are accepted in a round.
const MOST_ACCEPTED: usize = 256;

const MOST_EVENTS: usize = 256;

impl<A: Accept<S>, S: Socket, M: Machine> EventLoop<A, S, M> {
    ghost use Rattle.std.specs.Prelude.{◌≡◌, ◌-◌, ◌^◌, min, IfOk};
    ghost use Rattle.reactor.specs.Table.{IsAccounted, held_count, watch_count};
    ghost use Rattle.std.specs.Arc.{arc_value};
    ghost use Rattle.live_server.specs.Loop.{empty_table, held_by, taken_by};
    ghost use Rattle.live_server.specs.Places.{HasPlaces, limits_of};
    ghost use Rattle.live_server.specs.Settled.{AreSettled, KeepsAccount};

    /// A loop over a socket that listens, which takes its places of these.
    pub fn new<R: Net + Clock>(
        rt: &R,
        alloc: Global,
        acceptor: A,
        places: Arc<Places>,
    ) -> io::Result<EventLoop<A, S, M>>
        ensures { IfOk result (λ server. held_by server ≡ empty_table (limits_of (arc_value places))) }
    {
        Ok(EventLoop {
            poll: Poll::new(rt)?,
            events: Events::with_capacity(alloc, MOST_EVENTS)?,
            acceptor,
            queue: Queue::Waiting,
            lacks_place: false,
            swept: Instant::now(rt)?,
            silence_ends_at: None,
            ends_at: None,
            conversations: Conversations::new(alloc, Taken::new(places))?,
            tally: Arc::new(alloc, Tally::new())?,
        })
    }

    /// What wakes the loop while it waits.
    pub fn waker(&self) -> io::Result<Waker> {
        Waker::new(self.poll.registry(), WAKER)
    }

    /// What the loop counts, for others to read while it serves.
    pub fn tally(&self) -> Result<Arc<Tally>, AllocError> {
        self.tally.clone()
    }

    /// Where it takes its memory.
    pub fn allocator(&self) -> Global {
        self.conversations.alloc
    }

    /// The socket that connections come to.
    pub fn acceptor(&self) -> &A {
        &self.acceptor
    }

    /// How many connections are held.
    pub fn connections(&self) -> usize
        ensures count { result ≡ held_count (held_by self.now) }
        ensures accounted { IsAccounted (held_by self.now) }
        ensures placed { HasPlaces (taken_by self.now) (held_by self.now) }
    {
        self.conversations.table().len()
    }

    /// How many of them have a Watch's place.
    pub fn watches(&self) -> usize
        ensures count { result ≡ watch_count (held_by self.now) }
        ensures settled { AreSettled M.watches M.waiting (held_by self.now) }
    {
        self.conversations.table().watches()
    }

    /// How many conversations have ended, which stays at its greatest number once it has come to it.
    pub fn ended(&self) -> u64
        ensures { result ≡ min (held_by self.now).ended (2 ^ 64 - 1) }
    {
        self.conversations.table().ended()
    }

    /// What has become of some of those.
    pub fn counts(&self) -> Counts {
        self.conversations.counts()
    }

    /// Serves until all is to end and no connection is left. A loop is told news by one `News` for as long as it is there.
    pub fn run<R: Wait + Clock, H: Handler<S, M>>(&mut self, rt: &R, handler: &mut H, news: &News)
        requires ready { H.is_ready handler.old }
        ensures account { KeepsAccount (held_by self.old) (held_by self.new) }
        ensures ready { H.is_ready handler.new }
        ensures stays { H.stays handler.old handler.new }
        ensures all { held_count (held_by self.new) ≡ 0 }
    {
        for _ in rt.forever() {
            if self.round(rt, handler, news).is_err() {
                thread::sleep(rt, Duration::from_millis(RETRY_MILLIS));
            }
            self.publish();
            if self.acceptor.is_closed() && self.connections() == 0 {
                return;
            }
        }
    }

    /// Tells what it counts to those who have its tally.
    fn publish(&self) {
        let table = self.conversations.table();
        let counts = self.conversations.counts();
        self.tally.store(Tallied {
            connections: table.len() as u64,
            watches: table.watches() as u64,
            ended: table.ended(),
            given_up: counts.given_up,
            behind: counts.behind,
            refused: counts.refused,
            gone: counts.gone,
        });
    }

    /// Waits for events, and does what they ask for. Watches come behind all others, so that no Check and no line is answered between
    /// their looks. It accepts last, so that no key is used again among the events of one round. Where the poll fails there are none,
    /// and the rest is done all the same.
    pub fn round<R: Clock, H: Handler<S, M>>(
        &mut self,
        rt: &R,
        handler: &mut H,
        news: &News,
    ) -> io::Result<()>
        requires ready { H.is_ready handler.old }
        ensures account { KeepsAccount (held_by self.old) (held_by self.new) }
        ensures ready { H.is_ready handler.new }
        ensures stays { H.stays handler.old handler.new }
    {
        let timeout = Duration::from_millis(self.timeout());
        let polled = self.poll.poll(&mut self.events, Some(timeout));
        let now = Instant::now(rt).unwrap_or(self.swept);
        self.report(now);
        if is_waiting(&self.events) {
            self.queue = self.queue.reported();
        }
        let round = Round::new(now, news);
        let events = &self.events;
        let registry = self.poll.registry();
        let conversations = &mut self.conversations;
        take_events(
            events,
            Named::Others,
            registry,
            conversations,
            handler,
            round,
        );
        // What was made in a turn is looked at at once, and an end is begun.
        let round = Round::new(now, news);
        handler.renew();
        take_events(
            events,
            Named::Watches,
            registry,
            conversations,
            handler,
            round,
        );
        conversations.look(registry, handler, round);
        self.sweep(round.now);
        self.accept(handler, round);
        if self.conversations.is_waited_for() {
            news.wake();
        }
        polled
    }

    /// Accepts no more: clients that come are refused. Those that have sent nothing have two tenths of a second, and what is left has
    /// thirty seconds.
    fn close(&mut self, now: Instant)
        ensures { held_by self.new ≡ held_by self.old }
    {
        if !self.acceptor.is_closed() {
            self.acceptor.close(&self.poll, LISTENER);
            self.silence_ends_at = now.checked_add(Duration::from_millis(SILENCE_MILLIS));
            self.ends_at = now.checked_add(Duration::from_millis(END_MILLIS));
        }
        self.queue = Queue::Empty;
    }

    /// Has connections reported to this loop until it is closed. Where that fails, they are looked for a tenth of a second later.
    fn report(&mut self, now: Instant)
        ensures { held_by self.new ≡ held_by self.old }
    {
        let is_reported = self.acceptor.report(&self.poll, LISTENER).is_ok();
        if !is_reported && self.queue == Queue::Empty {
            self.queue = Queue::failed(now);
        }
    }

    /// Whether it accepts connections that wait.
    fn accepts(&self) -> bool {
        self.queue == Queue::Waiting && !self.lacks_place
    }

    /// How many milliseconds the next round may wait.
    fn timeout(&self) -> u64 {
        if self.conversations.is_looking() || self.accepts() {
            return 0;
        }
        match self.queue {
            Queue::Failed(_) => RETRY_MILLIS,
            _ => TICK_MILLIS,
        }
    }

    /// Whether the time of those that have sent nothing has come since the last sweep.
    fn is_silence_over(&self, now: Instant) -> bool {
        self.silence_ends_at
            .is_some_and(|end| self.swept < end && end <= now)
    }

    fn sweep(&mut self, now: Instant)
        ensures account { KeepsAccount (held_by self.old) (held_by self.new) }
    {
        let next = self.swept.checked_add(Duration::from_millis(TICK_MILLIS));
        if next.is_none_or(|next| next <= now) || self.is_silence_over(now) {
            self.swept = now;
            let left = if self.ends_at.is_some_and(|end| end <= now) {
                Ending::All
            } else if self.silence_ends_at.is_some_and(|end| end <= now) {
                Ending::Silent
            } else {
                Ending::Late
            };
            self.conversations.sweep(now, left);
        }
    }

    /// Accepts connections that wait, while places are free, unless all is to end.
    fn accept<H: Handler<S, M>>(&mut self, handler: &mut H, round: Round)
        requires ready { H.is_ready handler.old }
        ensures account { KeepsAccount (held_by self.old) (held_by self.new) }
        ensures ready { H.is_ready handler.new }
        ensures stays { H.stays handler.old handler.new }
    {
        if round.ends {
            return self.close(round.now);
        }
        self.queue = self.queue.retried(round.now);
        self.lacks_place = false;
        for _ in 0..MOST_ACCEPTED {
            if !self.accepts() {
                return;
            }
            self.accept_one(handler, round);
        }
    }

    fn accept_one<H: Handler<S, M>>(&mut self, handler: &mut H, round: Round)
        requires ready { H.is_ready handler.old }
        ensures account { KeepsAccount (held_by self.old) (held_by self.new) }
        ensures ready { H.is_ready handler.new }
        ensures stays { H.stays handler.old handler.new }
    {
        let Some(vacancy) = self.conversations.vacancy() else {
            self.lacks_place = true;
            return;
        };
        match self.acceptor.accept() {
            Ok(stream) => {
                let registry = self.poll.registry();
                let conversations = &mut self.conversations;
                if !conversations.take_in(registry, handler, stream, vacancy, round) {
                    self.queue = Queue::failed(round.now);
                }
            }
            Err(error) => {
                self.conversations.leave(vacancy);
                self.queue = Queue::behind(error.kind(), round.now);
            }
        }
    }
}

/// Whether connections wait to be accepted.
fn is_waiting(events: &Events) -> bool {
    events.iter().any(|event| event.token() == LISTENER)
}

/// Which of the connections that events name take their turns.
#[derive(Clone, Copy)]
enum Named {
    /// Those with an open Watch.
    Watches,
    Others,
}

/// Has connections take turns that events name.
fn take_events<S: Socket, M: Machine, H: Handler<S, M>>(
    events: &Events,
    named: Named,
    registry: &Registry,
    conversations: &mut Conversations<S, M>,
    handler: &mut H,
    round: Round,
)
    requires ready { H.is_ready handler.old }
    ensures account { KeepsAccount (table_of conversations.old) (table_of conversations.new) }
    ensures ready { H.is_ready handler.new }
    ensures stays { H.stays handler.old handler.new }
{
    for event in events.iter() {
        let Token(token) = event.token();
        if token >= FIRST_TOKEN {
            let key = token - FIRST_TOKEN;
            let ready = Ready::of(event);
            match (named, conversations.is_watching(key)) {
                (Named::Others, false) => {
                    conversations.turn(registry, handler, key, round, Some(ready));
                }
                (Named::Watches, true) => {
                    conversations.meet_event(registry, handler, key, round, ready);
                }
                _ => {}
            }
        }
    }
}
