//! The turns that a loop's connections take.

ghost use Rattle.std.specs.Prelude.{◌≡◌, true, IsFalse};
ghost use Rattle.reactor.specs.Table.{place_at};
ghost use Rattle.live_server.specs.Held.{held_in};
ghost use Rattle.live_server.specs.Settled.{AreSettled, AreSettledBut, KeepsAccount, is_settled};

use crate::conversations::{Conversations, Counts, Look};
use crate::handler::Handler;
use crate::held::Held;
use crate::news::News;
use crate::places::{Taken, Vacancy};
use mio::{Registry, Token};
use reactor::{Connection, End, Left, MOST_TAKEN, Machine, Occasion, Ready, Socket, Table};
use std::alloc::{AllocError, Global};
use std::time::{Duration, Instant};
use web_call::{Turn, Why};

/// The token of the first key.
pub(crate) const FIRST_TOKEN: usize = 2;

/// How much the turns of a round's looks may cost, where one that sends nothing costs 1. So a Check waits for some hundred messages to
/// Watches, however much there is to tell.
const ROUND_COST: usize = 64;

/// What a turn costs behind which the conversation could go on: it has done 64 pieces of work.
const GAVE_WAY_COST: usize = 16;

/// What a turn costs that has sent bytes and comes to rest: it may have done almost as many.
const SENT_COST: usize = 4;

/// The most keys that a round's looks pass.
const MOST_PASSED: usize = 256;

/// How many milliseconds a conversation has been quiet for at least that makes room for another.
const QUIET_MILLIS: u64 = 1_000;

/// When a round of a loop is, how many changes there were by then, and whether all is to end.
#[derive(Clone, Copy)]
pub(crate) struct Round {
    pub(crate) now: Instant,
    pub(crate) changes: u64,
    pub(crate) ends: bool,
}

impl Round {
    /// What the news are now.
    pub(crate) fn new(now: Instant, news: &News) -> Round {
        Round {
            now,
            changes: news.changes(),
            ends: news.has_ended(),
        }
    }
}

/// Which conversations are given up.
#[derive(Clone, Copy)]
pub(crate) enum Ending {
    /// Those whose time is up.
    Late,
    /// Those too whose peer has sent nothing.
    Silent,
    All,
}

/// Whether a key holds an open Watch.
fn is_watching<S, M: Machine>(table: &Table<Connection<S, M>>, key: usize) -> bool
    ensures { IsFalse result → is_settled M.watches M.waiting (place_at table.now key) ≡ true }
{
    match table.get(key) {
        Some(connection) => connection.is_watching(),
        None => false,
    }
}

/// Whether a conversation was ended since its time was up, or ended by itself.
#[derive(Clone, Copy, Debug, PartialEq, Eq)]
enum Cause {
    Time,
    Turn,
}

/// The end of a conversation, which is counted.
fn remove<S: Socket, M: Machine>(
    held: &mut Held<S, M>,
    counts: &mut Counts,
    key: usize,
    end: End,
    cause: Cause,
)
    ensures account { KeepsAccount (held_in held.old) (held_in held.new) }
    ensures settled { AreSettledBut M.watches M.waiting key (held_in held.old)
        → AreSettled M.watches M.waiting (held_in held.new) }
{
    let Some(connection) = held.remove(key) else {
        return;
    };
    match (end, cause) {
        (End::GivenUp(_), Cause::Time) => counts.given_up = counts.given_up.saturating_add(1),
        (End::GivenUp(_), Cause::Turn) => counts.gone = counts.gone.saturating_add(1),
        (End::Done, _) if connection.machine().is_behind() => {
            counts.behind = counts.behind.saturating_add(1);
        }
        (End::Done | End::PeerLeft, _) => {}
    }
}

impl<S: Socket, M: Machine> Conversations<S, M> {
    ghost use Rattle.std.specs.Prelude.{◌≡◌, IfOk};
    ghost use Rattle.live_server.specs.Loop.{empty_table, table_of};
    ghost use Rattle.live_server.specs.Places.{limits_behind, taken_with};
    ghost use Rattle.live_server.specs.Settled.{AreSettled, KeepsAccount};

    pub(crate) fn new(alloc: Global, taken: Taken) -> Result<Conversations<S, M>, AllocError>
        requires none { taken ≡ taken_with taken 0 0 }
        ensures { IfOk result (λ conversations. table_of conversations ≡ empty_table (limits_behind taken)) }
    {
        Ok(Conversations {
            alloc,
            held: Held::new(alloc, taken),
            counts: Counts {
                given_up: 0,
                behind: 0,
                refused: 0,
                gone: 0,
            },
            seen: 0,
            has_more: false,
            look: None,
            buffer: Box::new(alloc, [0; MOST_TAKEN])?,
        })
    }

    pub(crate) fn table(&self) -> &Table<Connection<S, M>>
        ensures table { result.now ≡ table_of self.now }
        ensures settled { AreSettled M.watches M.waiting result.now }
    {
        self.held.table()
    }

    /// Takes a place for a connection. Where none is free, all loops are woken once one is.
    pub(crate) fn vacancy(&self) -> Option<Vacancy> {
        self.held.vacancy()
    }

    /// Gives a place back for which no connection is held.
    pub(crate) fn leave(&self, vacancy: Vacancy) {
        self.held.leave(vacancy);
    }

    /// Whether a loop waits for a place for a connection, and one is free. It tells so once.
    pub(crate) fn is_waited_for(&self) -> bool {
        self.held.is_waited_for()
    }

    pub(crate) fn counts(&self) -> Counts {
        self.counts
    }

    /// Whether a look for changes is not at its end.
    pub(crate) fn is_looking(&self) -> bool {
        self.look.is_some()
    }

    /// A turn of what a key holds, which is removed where it is over.
    fn turn_of<H: Handler<S, M>>(
        &mut self,
        handler: &mut H,
        key: usize,
        round: Round,
        ready: Option<Ready>,
    ) -> Option<Left>
        requires ready { H.is_ready handler.old }
        ensures account { KeepsAccount (table_of self.old) (table_of self.new) }
        ensures ready { H.is_ready handler.new }
        ensures stays { H.stays handler.old handler.new }
    {
        let mut occasion = Occasion {
            now: round.now,
            then: if round.ends { Turn::End } else { Turn::Look },
            ready,
        };
        let held = &mut self.held;
        let left = held.turn(key, self.alloc, handler, &mut *self.buffer, occasion)?;
        if let Left::Over(end) = left {
            remove(held, &mut self.counts, key, end, Cause::Turn);
            return Some(left);
        }
        if round.ends || !is_watching(held.table(), key) || held.admit(key) {
            return Some(left);
        }
        // It was told its status, and ends for want of a place.
        self.counts.refused = self.counts.refused.saturating_add(1);
        occasion.then = Turn::End;
        occasion.ready = None;
        let left = held.turn(key, self.alloc, handler, &mut *self.buffer, occasion)?;
        if let Left::Over(end) = left {
            remove(held, &mut self.counts, key, end, Cause::Turn);
        }
        Some(left)
    }

    /// A turn of a registered connection, for what was reported of its socket, or for a change. An open Watch is ended only where it
    /// has been told all changes.
    pub(crate) fn turn<H: Handler<S, M>>(
        &mut self,
        registry: &Registry,
        handler: &mut H,
        key: usize,
        round: Round,
        ready: Option<Ready>,
    )
        requires ready { H.is_ready handler.old }
        ensures account { KeepsAccount (table_of self.old) (table_of self.new) }
        ensures ready { H.is_ready handler.new }
        ensures stays { H.stays handler.old handler.new }
    {
        if !round.ends || !is_watching(self.table(), key) {
            return self.turn_once(registry, handler, key, round, ready);
        }
        let waited_for = if self.may_look(key) { None } else { ready };
        let still = Round {
            ends: false,
            ..round
        };
        self.turn_once(registry, handler, key, still, waited_for);
        if !self.is_told(key) {
            return;
        }
        self.turn_once(registry, handler, key, round, ready);
    }

    /// What was reported of the socket of an open Watch. Where that waits for a change it is seen whether its client has left; else it
    /// has a turn in the next look, since what a round tells its Watches is bounded.
    pub(crate) fn meet_event<H: Handler<S, M>>(
        &mut self,
        registry: &Registry,
        handler: &mut H,
        key: usize,
        round: Round,
        ready: Ready,
    )
        requires ready { H.is_ready handler.old }
        ensures account { KeepsAccount (table_of self.old) (table_of self.new) }
        ensures ready { H.is_ready handler.new }
        ensures stays { H.stays handler.old handler.new }
    {
        if round.ends || self.may_look(key) {
            return self.turn(registry, handler, key, round, Some(ready));
        }
        self.held.put_off(key, ready);
        self.has_more = true;
    }

    /// A turn of a registered connection. An open Watch that could go on waits for the next look.
    fn turn_once<H: Handler<S, M>>(
        &mut self,
        registry: &Registry,
        handler: &mut H,
        key: usize,
        round: Round,
        ready: Option<Ready>,
    )
        requires ready { H.is_ready handler.old }
        ensures account { KeepsAccount (table_of self.old) (table_of self.new) }
        ensures ready { H.is_ready handler.new }
        ensures stays { H.stays handler.old handler.new }
    {
        match self.turn_of(handler, key, round, ready) {
            Some(Left::Ready) if self.could_go_on(key) => self.has_more = true,
            Some(Left::Ready) => self.report(registry, key),
            Some(Left::Waits | Left::Over(_)) | None => {}
        }
    }

    /// Takes in a connection that was accepted, in this place, and takes its first turn; where it is not over it is registered. Where it
    /// can't be taken in, it is closed, its place is given back, and it counts as no conversation.
    pub(crate) fn take_in<H: Handler<S, M>>(
        &mut self,
        registry: &Registry,
        handler: &mut H,
        stream: S,
        vacancy: Vacancy,
        round: Round,
    ) -> bool
        requires ready { H.is_ready handler.old }
        ensures account { KeepsAccount (table_of self.old) (table_of self.new) }
        ensures ready { H.is_ready handler.new }
        ensures stays { H.stays handler.old handler.new }
    {
        if handler.is_full(self.held.talking()) {
            self.make_room(round.now);
        }
        let talking = self.held.talking();
        let Some(connection) = handler.open(self.alloc, stream, round.now, talking) else {
            self.held.leave(vacancy);
            return false;
        };
        let Some(key) = self.held.insert(connection, vacancy) else {
            return false;
        };
        match self.turn_of(handler, key, round, None) {
            Some(Left::Waits | Left::Ready) => self.report(registry, key),
            Some(Left::Over(_)) | None => {}
        }
        true
    }

    /// Looks for what has changed, and goes on with Watches that gave way, a part of the keys in each round. A look that comes to its
    /// end behind a change begins anew. Once all is to end each connection has a turn for that.
    pub(crate) fn look<H: Handler<S, M>>(
        &mut self,
        registry: &Registry,
        handler: &mut H,
        round: Round,
    )
        requires ready { H.is_ready handler.old }
        ensures account { KeepsAccount (table_of self.old) (table_of self.new) }
        ensures ready { H.is_ready handler.new }
        ensures stays { H.stays handler.old handler.new }
    {
        self.begin_look(round);
        let mut cost: usize = 0;
        for _ in 0..MOST_PASSED {
            if cost >= ROUND_COST {
                break;
            }
            let Some((key, is_for_all)) = self.next_look() else {
                break;
            };
            if round.ends || self.could_go_on(key) || (is_for_all && self.may_look(key)) {
                self.turn(registry, handler, key, round, None);
                cost = cost.saturating_add(self.cost_of(key, round.now));
            }
        }
        self.begin_look(round);
    }

    /// What the turn of a key has cost that it had now.
    fn cost_of(&self, key: usize, now: Instant) -> usize {
        if self.could_go_on(key) {
            return GAVE_WAY_COST;
        }
        match self.table().get(key) {
            Some(connection) if connection.quiet_since() < now => 1,
            Some(_) | None => SENT_COST,
        }
    }

    /// Begins a look where none is under way: for all if something has changed since the last of these began, and else for those that
    /// could go on, if there are any.
    fn begin_look(&mut self, round: Round)
        ensures { table_of self.new ≡ table_of self.old }
    {
        let is_for_all = round.changes != self.seen;
        if self.look.is_some() || !(is_for_all || self.has_more) {
            return;
        }
        self.seen = round.changes;
        self.has_more = false;
        self.look = Some(Look {
            from: 0,
            is_for_all,
        });
    }

    /// The next key of a look that holds a connection, and whether the look is for all.
    fn next_look(&mut self) -> Option<(usize, bool)>
        ensures { table_of self.new ≡ table_of self.old }
    {
        let Look { from, is_for_all } = self.look?;
        let Some(key) = self.table().next_key(from) else {
            self.look = None;
            return None;
        };
        self.look = key.checked_add(1).map(|from| Look { from, is_for_all });
        Some((key, is_for_all))
    }

    /// Whether a key holds an open Watch.
    pub(crate) fn is_watching(&self, key: usize) -> bool {
        is_watching(self.table(), key)
    }

    /// Whether a key holds an open Watch to which all is sent.
    fn may_look(&self, key: usize) -> bool {
        match self.table().get(key) {
            Some(connection) => connection.may_look(),
            None => false,
        }
    }

    /// Whether a key holds an open Watch whose last turn could have gone on.
    fn could_go_on(&self, key: usize) -> bool {
        match self.table().get(key) {
            Some(connection) => connection.is_watching() && connection.gave_way(),
            None => false,
        }
    }

    /// Whether a key holds an open Watch that has been told all changes.
    fn is_told(&self, key: usize) -> bool {
        match self.table().get(key) {
            Some(connection) => connection.may_look() && !connection.gave_way(),
            None => false,
        }
    }

    /// Gives conversations up.
    pub(crate) fn sweep(&mut self, now: Instant, ending: Ending)
        ensures account { KeepsAccount (table_of self.old) (table_of self.new) }
    {
        let mut from = 0;
        for _ in 0..self.table().len() {
            let Some(key) = self.table().next_key(from) else {
                return;
            };
            self.end_if_late(key, now, ending);
            from = key.saturating_add(1);
        }
    }

    fn end_if_late(&mut self, key: usize, now: Instant, ending: Ending)
        ensures account { KeepsAccount (table_of self.old) (table_of self.new) }
    {
        if let Some(connection) = self.table().get(key) {
            let is_over = match ending {
                Ending::Late => false,
                Ending::Silent => connection.is_silent(),
                Ending::All => true,
            };
            if is_over || connection.is_late(now) {
                let end = connection.late_end();
                self.end(key, end, Cause::Time);
            }
        }
    }

    /// Ends the conversation that has been quiet for longest, if that is a second or more.
    fn make_room(&mut self, now: Instant)
        ensures account { KeepsAccount (table_of self.old) (table_of self.new) }
    {
        let Some((key, since)) = self.quietest() else {
            return;
        };
        let until = since.checked_add(Duration::from_millis(QUIET_MILLIS));
        if until.is_some_and(|until| until <= now) {
            self.end(key, End::GivenUp(Why::Read), Cause::Turn);
        }
    }

    /// The key of the conversation that has been quiet for longest, and since when. One that is over is none.
    fn quietest(&self) -> Option<(usize, Instant)> {
        let mut found: Option<(usize, Instant)> = None;
        let mut from = 0;
        for _ in 0..self.table().len() {
            let Some(key) = self.table().next_key(from) else {
                break;
            };
            if let Some(connection) = self.table().get(key) {
                let since = connection.quiet_since();
                if !connection.is_draining() && found.is_none_or(|(_, first)| since < first) {
                    found = Some((key, since));
                }
            }
            from = key.saturating_add(1);
        }
        found
    }

    /// Has the poll report the connection's socket. Where that fails its conversation is given up, as one that can't read.
    fn report(&mut self, registry: &Registry, key: usize)
        ensures account { KeepsAccount (table_of self.old) (table_of self.new) }
    {
        let token = Token(key.saturating_add(FIRST_TOKEN));
        if self.held.report(registry, key, token).is_err() {
            self.end(key, End::GivenUp(Why::Read), Cause::Turn);
        }
    }

    fn end(&mut self, key: usize, end: End, cause: Cause)
        ensures account { KeepsAccount (table_of self.old) (table_of self.new) }
    {
        remove(&mut self.held, &mut self.counts, key, end, cause);
    }
}
