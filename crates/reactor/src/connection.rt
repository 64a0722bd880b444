ghost use Rattle.reactor.specs.Times.{IsAfter};

use crate::host::Host;
use crate::link::{Last, Link};
use crate::machine::Machine;
use crate::past::Past;
use crate::socket::Socket;
use crate::turning::{Fate, turn};
use mio::event::Event;
use mio::{Interest, Registry, Token};
use std::alloc::Global;
use std::io;
use std::time::{Duration, Instant};
use web_call::{Turn, Why};

/// How many milliseconds a peer may take no byte while bytes wait for it.
const SEND_MILLIS: u64 = 30_000;

/// How many milliseconds what a peer sends behind its end is thrown away.
const DRAIN_MILLIS: u64 = 100;

/// How many bytes of it.
const MAX_DRAINED: usize = 65_536;

/// The most reads of it in a row.
const MOST_READS: usize = 64;

/// How a conversation ended.
#[derive(Clone, Copy, Debug, PartialEq, Eq)]
pub enum End {
    /// All is answered and sent.
    Done,
    /// It could not go on.
    GivenUp(Why),
    /// Its peer has left while it waited for a change, and all was sent.
    PeerLeft,
}

/// How a turn leaves a connection.
#[derive(Clone, Copy, Debug, PartialEq, Eq)]
pub enum Left {
    /// It waits for its socket, or for a change.
    Waits,
    /// Its socket has to be reported anew: it may go on at once, or it is the first time that it waits for room.
    Ready,
    /// It is over, and ended so.
    Over(End),
}

/// What a poll reported of a socket.
#[derive(Clone, Copy)]
pub struct Ready {
    pub readable: bool,
    pub writable: bool,
}

/// Why a connection has a turn, and when.
#[derive(Clone, Copy)]
pub struct Occasion {
    pub now: Instant,
    /// Whether what waits for a change looks or ends.
    pub then: Turn,
    /// What was reported of its socket, where it has the turn for that.
    pub ready: Option<Ready>,
}

/// What was read of what is thrown away.
#[derive(Clone, Copy)]
enum Drained {
    /// There may be more.
    More,
    /// There is no more yet.
    Waits,
    /// The peer has closed its side, or the socket failed.
    Closed,
    /// The peer has sent too much.
    TooMuch,
}

/// What the system reports of a socket.
#[derive(Clone, Copy)]
enum Reported {
    Nothing,
    Input,
    InputAndRoom,
}

/// A connection, with the machine of its conversation.
///
/// A peer that has to hurry has the time that its machine names, and one that takes nothing while bytes wait for it has thirty seconds;
/// the connection tells only that it is late. Where all is sent and its peer may still be sending, what that sends is thrown away for a
/// tenth of a second: a socket that is closed with unread bytes is reset, and the peer could lose the end of what was sent. At every
/// moment its machine is what a conversation comes to that has moved all that this one has.
#[derive(Drop)]
pub struct Connection<S, M: Machine> {
    link: Link<S>,
    machine: M,
    past: Past,
    /// Whether all is sent, and what comes is thrown away.
    is_draining: bool,
    /// Whether bytes came behind what the machine takes.
    is_followed: bool,
    /// Whether there may be bytes that were reported and not read.
    has_input: bool,
    /// Whether its last turn could have gone on.
    gave_way: bool,
    reported: Reported,
    drained: usize,
    until: Option<Instant>,
    /// When bytes of its machine last went over it, either way.
    quiet_since: Instant,
    ghost stands: { ∥ M.stands past.moved machine ∥₁ },
}

/// A time so many milliseconds from now; none where the clock does not go so far.
fn after(now: Instant, millis: u64) -> Option<Instant>
    ensures { IsAfter now millis result }
{
    now.checked_add(Duration::from_millis(millis))
}

impl Ready {
    /// What an event says. A socket that failed, or whose peer sends or takes no more, is ready for both, so that the next call tells
    /// it.
    pub fn of(event: &Event) -> Ready {
        let is_over = event.is_error() || event.is_read_closed() || event.is_write_closed();
        Ready {
            readable: is_over || event.is_readable(),
            writable: is_over || event.is_writable(),
        }
    }
}

impl<S, M: Machine> Connection<S, M> {
    ghost use Rattle.std.specs.Prelude.{◌≡◌, false, true};
    ghost use Rattle.reactor.specs.Connection.{may_look_at, state_of, stream_of, watches_at};
    ghost use Rattle.reactor.specs.Moved.{nothing_moved};

    /// A connection that was accepted now, of a machine that begins.
    pub fn new(stream: S, machine: M, now: Instant) -> Connection<S, M>
        requires begins { M.begins machine }
        ensures stream { stream_of result ≡ stream }
        ensures machine { (state_of result).machine ≡ machine }
        ensures past { (state_of result).past ≡ nothing_moved }
        ensures talks { (state_of result).is_draining ≡ false }
    {
        Connection {
            link: Link::new(stream),
            machine,
            past: Past::new(),
            is_draining: false,
            is_followed: false,
            has_input: false,
            gave_way: false,
            reported: Reported::Nothing,
            drained: 0,
            until: M::PATIENCE.and_then(|millis| after(now, millis)),
            quiet_since: now,
        }
    }

    /// What its bytes go over.
    pub fn stream(&self) -> &S
        ensures { result.now ≡ stream_of self.now }
    {
        self.link.stream()
    }

    /// Its machine, which is what a conversation comes to that has moved all that this one has.
    pub fn machine(&self) -> &M
        ensures machine { result.now ≡ (state_of self.now).machine }
        ensures stands { ∥ M.stands (state_of self.now).past result.now ∥₁ }
    {
        &self.machine
    }

    /// Whether it waits for nothing but what its peer sends.
    fn is_reading(&self) -> bool
        ensures { result ≡ true → may_look_at M.watches M.waiting (state_of self.now) ≡ false }
    {
        if self.is_draining {
            return true;
        }
        self.machine.to_send().is_empty() && self.machine.room() > 0
    }

    /// Whether its machine is told changes as they come.
    pub fn is_watching(&self) -> bool
        ensures { result ≡ watches_at M.watches (state_of self.now) }
    {
        !self.is_draining && self.machine.is_watching()
    }

    /// Whether it is told changes as they come, has sent all, and waits for the next.
    pub fn may_look(&self) -> bool
        ensures { result ≡ may_look_at M.watches M.waiting (state_of self.now) }
    {
        self.is_watching() && self.machine.to_send().is_empty() && !self.gave_way
    }

    /// Whether all is sent, and what comes is thrown away.
    pub fn is_draining(&self) -> bool
        ensures { result ≡ (state_of self.now).is_draining }
    {
        self.is_draining
    }

    /// Whether its last turn could have gone on.
    pub fn gave_way(&self) -> bool
        ensures { result ≡ (state_of self.now).gave_way }
    {
        self.gave_way
    }

    /// Whether nothing that its peer sent was read.
    pub fn is_silent(&self) -> bool {
        !self.link.has_read()
    }

    /// Since when its machine has neither read nor sent a byte.
    pub fn quiet_since(&self) -> Instant {
        self.quiet_since
    }

    /// Leaves what was reported of its socket to a turn that it has for another reason: it may go on then.
    pub fn put_off(&mut self, ready: Ready)
        ensures machine { (state_of self.new).machine ≡ (state_of self.old).machine }
        ensures past { (state_of self.new).past ≡ (state_of self.old).past }
        ensures draining { (state_of self.new).is_draining ≡ (state_of self.old).is_draining }
        ensures stream { stream_of self.new ≡ stream_of self.old }
        ensures until { (state_of self.new).until ≡ (state_of self.old).until }
        ensures looks { may_look_at M.watches M.waiting (state_of self.old) ≡ false
            → may_look_at M.watches M.waiting (state_of self.new) ≡ false }
    {
        self.has_input = self.has_input || ready.readable;
        self.gave_way = self.gave_way || self.waits_for(ready);
    }

    /// Whether its time is up.
    pub fn is_late(&self, now: Instant) -> bool {
        self.until.is_some_and(|until| until <= now)
    }

    /// How it ends where its time is up.
    pub fn late_end(&self) -> End {
        if self.is_draining {
            End::Done
        } else if self.is_reading() {
            End::GivenUp(Why::Read)
        } else {
            End::GivenUp(Why::Write)
        }
    }

    /// Whether what was reported is what it waits for.
    fn waits_for(&self, ready: Ready) -> bool
        ensures { result ≡ false → may_look_at M.watches M.waiting (state_of self.now) ≡ false }
    {
        if self.gave_way {
            true
        } else if self.is_reading() {
            ready.readable
        } else if self.machine.to_send().is_empty() {
            true
        } else {
            ready.writable
        }
    }
}

impl<S: Socket, M: Machine> Connection<S, M> {
    ghost use Rattle.std.specs.Prelude.{◌≡◌, ◌≢◌, ◌<◌, ◌⊎◌, [], false, true, ℕ, List, None, Some, IsTrue, is_some, length};
    ghost use Rattle.std.specs.Option.{OnSome};
    ghost use Rattle.reactor.specs.Connection.{ConnectionHasServed, HasThrown, is_over, may_look_at, state_of, stream_of};
    ghost use Rattle.reactor.specs.Times.{HasTime};
    ghost use Rattle.reactor.specs.Moved.{Moved};
    ghost use Rattle.reactor.specs.declared.connection.End.TheVariants.{Done};
    ghost use Rattle.reactor.specs.declared.connection.Left.TheVariants.{Over};

    /// Has the poll report its socket under this token, now and each time that it becomes ready for what is waited for: for what its
    /// peer sends, and, once it wants no more of that for now or may go on at once, for room.
    pub fn report(&mut self, registry: &Registry, token: Token) -> io::Result<()>
        ensures state { state_of self.new ≡ state_of self.old }
        ensures remaining { S.remaining (stream_of self.new) ≡ S.remaining (stream_of self.old) }
        ensures contents { S.contents (stream_of self.new) ≡ S.contents (stream_of self.old) }
    {
        let is_first = self.reported == Reported::Nothing;
        let interest = if self.is_reading() && !self.gave_way {
            self.reported = Reported::Input;
            Interest::READABLE
        } else {
            self.reported = Reported::InputAndRoom;
            Interest::READABLE | Interest::WRITABLE
        };
        if is_first {
            self.link.register(registry, token, interest)
        } else {
            self.link.reregister(registry, token, interest)
        }
    }

    /// Reads once what is thrown away.
    fn drain_once(&mut self, buffer: &mut [u8]) -> Drained
        requires room { 0 < length buffer.old }
        ensures state { state_of self.new ≡ state_of self.old }
        ensures thrown { (thrown : List ℕ)
            × HasThrown S.remaining S.contents self.old self.new thrown }
        ensures len { length buffer.new ≡ length buffer.old }
    {
        if let Some(count) = self.link.read(buffer) {
            self.drained = self.drained.saturating_add(count);
        }
        match self.link.reads() {
            Last::Went | Last::Interrupted if self.drained > MAX_DRAINED => Drained::TooMuch,
            Last::Went | Last::Interrupted => Drained::More,
            Last::Waits => {
                self.has_input = false;
                Drained::Waits
            }
            Last::Ended | Last::Failed => Drained::Closed,
        }
    }

    /// Throws away what the peer has sent.
    fn drain(&mut self, buffer: &mut [u8]) -> Drained
        requires room { 0 < length buffer.old }
        ensures state { state_of self.new ≡ state_of self.old }
        ensures thrown { (thrown : List ℕ)
            × HasThrown S.remaining S.contents self.old self.new thrown }
        ensures len { length buffer.new ≡ length buffer.old }
    {
        for _ in 0..MOST_READS {
            match self.drain_once(buffer) {
                Drained::More => {}
                drained => return drained,
            }
        }
        Drained::More
    }

    /// Throws more away of what the peer sends behind its end.
    fn drain_on(&mut self, buffer: &mut [u8]) -> Left
        requires room { 0 < length buffer.old }
        ensures state { state_of self.new ≡ state_of self.old }
        ensures end { (end : End) → result ≡ Over end → end ≡ Done }
        ensures thrown { (thrown : List ℕ)
            × HasThrown S.remaining S.contents self.old self.new thrown }
    {
        match self.drain(buffer) {
            Drained::More => Left::Ready,
            Drained::Waits => Left::Waits,
            Drained::Closed | Drained::TooMuch => Left::Over(End::Done),
        }
    }

    /// Whether a read finds nothing, and none did before.
    fn finds_none(&mut self, buffer: &mut [u8]) -> bool
        requires room { 0 < length buffer.old }
        ensures state { state_of self.new ≡ state_of self.old }
        ensures thrown { (thrown : List ℕ)
            × HasThrown S.remaining S.contents self.old self.new thrown }
        ensures len { length buffer.new ≡ length buffer.old }
    {
        match self.drain(buffer) {
            Drained::Closed => true,
            Drained::Waits => self.drained == 0,
            Drained::More | Drained::TooMuch => false,
        }
    }

    /// A machine that waits: for bytes, for room, or for a change. What the peer of one that waits for a change sends is thrown away,
    /// and so it is seen whether it has left.
    fn rest(&mut self, buffer: &mut [u8]) -> Left
        requires room { 0 < length buffer.old }
        ensures state { state_of self.new ≡ state_of self.old }
        ensures undone { result ≡ Over Done → ⊥ }
        ensures thrown { (thrown : List ℕ)
            × HasThrown S.remaining S.contents self.old self.new thrown }
    {
        if self.is_reading() {
            return Left::Waits;
        }
        if !self.may_look() {
            return match self.reported {
                Reported::InputAndRoom => Left::Waits,
                Reported::Nothing | Reported::Input => Left::Ready,
            };
        }
        if !self.has_input {
            return Left::Waits;
        }
        match self.drain(buffer) {
            Drained::More => Left::Ready,
            Drained::Waits => Left::Waits,
            Drained::Closed => Left::Over(End::PeerLeft),
            Drained::TooMuch => Left::Over(End::GivenUp(Why::Read)),
        }
    }

    /// Gives it time behind a turn of its machine.
    fn renew(&mut self, now: Instant)
        ensures machine { (state_of self.new).machine ≡ (state_of self.old).machine }
        ensures past { (state_of self.new).past ≡ (state_of self.old).past }
        ensures draining { (state_of self.new).is_draining ≡ (state_of self.old).is_draining }
        ensures gave_way { (state_of self.new).gave_way ≡ (state_of self.old).gave_way }
        ensures stream { stream_of self.new ≡ stream_of self.old }
        ensures time { HasTime M.takes M.waiting (is_some M.PATIENCE) now
            (state_of self.old).machine (state_of self.old).until (state_of self.new).until }
    {
        self.until = if !self.machine.to_send().is_empty() {
            after(now, SEND_MILLIS)
        } else if self.machine.room() > 0 && M::PATIENCE.is_some() {
            self.until
        } else {
            None
        };
    }

    /// Whether its peer may still be sending.
    fn may_come(&mut self, buffer: &mut [u8]) -> bool
        requires room { 0 < length buffer.old }
        ensures state { state_of self.new ≡ state_of self.old }
        ensures thrown { (thrown : List ℕ)
            × HasThrown S.remaining S.contents self.old self.new thrown }
        ensures len { length buffer.new ≡ length buffer.old }
    {
        if self.is_followed || self.machine.may_be_sent_more() {
            return true;
        }
        !self.finds_none(buffer)
    }

    /// All is sent. Where its peer may still be sending, that sees the end, while what it sends can be read.
    fn finish(&mut self, buffer: &mut [u8], now: Instant) -> Left
        requires room { 0 < length buffer.old }
        requires way { (state_of self.old).gave_way ≡ false }
        ensures machine { (state_of self.new).machine ≡ (state_of self.old).machine }
        ensures past { (state_of self.new).past ≡ (state_of self.old).past }
        ensures draining { is_over result ≡ false → (state_of self.new).is_draining ≡ true }
        ensures end { (end : End) → result ≡ Over end → end ≡ Done }
        ensures thrown { (thrown : List ℕ)
            × HasThrown S.remaining S.contents self.old self.new thrown }
    {
        if !self.may_come(buffer) || !self.close(now) {
            return Left::Over(End::Done);
        }
        self.drain_on(buffer)
    }

    /// Ends what is sent, so that what comes is thrown away. It tells whether that can be.
    pub fn close(&mut self, now: Instant) -> bool
        ensures machine { (state_of self.new).machine ≡ (state_of self.old).machine }
        ensures past { (state_of self.new).past ≡ (state_of self.old).past }
        ensures gave_way { (state_of self.new).gave_way ≡ (state_of self.old).gave_way }
        ensures remaining { S.remaining (stream_of self.new) ≡ S.remaining (stream_of self.old) }
        ensures contents { S.contents (stream_of self.new) ≡ S.contents (stream_of self.old) }
        ensures drains { IsTrue result → (state_of self.new).is_draining ≡ true }
    {
        if self.link.shut().is_err() {
            return false;
        }
        self.is_draining = true;
        self.until = after(now, DRAIN_MILLIS);
        true
    }

    /// A turn of its machine, or of what is thrown away, unless what was reported is not what it waits for. One that waits for a change
    /// looks where it is told of one, and not for what was reported of its socket.
    pub fn turn<H: Host<M>>(
        &mut self,
        alloc: Global,
        host: &mut H,
        buffer: &mut [u8],
        occasion: Occasion,
    ) -> Left
        requires room { 0 < length buffer.old }
        ensures served { (state_of self.old).is_draining ≡ false → (moved : Moved) × (thrown : List ℕ)
            × ConnectionHasServed S.remaining S.contents (H.goes occasion.then) (H.is_done occasion.then) M.waiting
            self.old self.new host.old host.new result moved thrown }
        ensures drained { (state_of self.old).is_draining ≡ true → (host.new ≡ host.old)
            × (state_of self.new ≡ state_of self.old)
            × ((end : End) → result ≡ Over end → end ≡ Done)
            × ((thrown : List ℕ) × HasThrown S.remaining S.contents self.old self.new thrown) }
        ensures admitted { occasion.then ≡ Turn.End → is_over result ≡ false
            → may_look_at M.watches M.waiting (state_of self.new) ≡ false }
        ensures time { is_over result ≡ false → (state_of self.new).is_draining ≡ false
            → ((state_of self.new).machine ≡ (state_of self.old).machine)
            × ((state_of self.new).until ≡ (state_of self.old).until)
            ⊎ HasTime M.takes M.waiting (is_some M.PATIENCE) occasion.now
            (state_of self.new).machine (state_of self.old).until (state_of self.new).until }
        ensures stays { H.stays host.old host.new }
    {
        if let Some(ready) = occasion.ready {
            self.has_input = self.has_input || ready.readable;
            if !self.waits_for(ready) {
                return Left::Waits;
            }
            if self.may_look() && occasion.then == Turn::Look {
                return self.rest(buffer);
            }
        }
        if self.is_draining {
            return self.drain_on(buffer);
        }
        self.go_on(alloc, host, buffer, occasion)
    }

    /// Notes when bytes went over it, and has each change sent at once to a peer that is told changes from now on: else one that comes
    /// soon behind another would wait for the peer's acknowledgement of that.
    fn note_turn(&mut self, was_watching: bool, now: Instant)
        ensures state { state_of self.new ≡ state_of self.old }
        ensures remaining { S.remaining (stream_of self.new) ≡ S.remaining (stream_of self.old) }
        ensures contents { S.contents (stream_of self.new) ≡ S.contents (stream_of self.old) }
    {
        if self.link.has_moved() {
            self.quiet_since = now;
        }
        if self.machine.is_watching() && !was_watching {
            self.link.send_at_once();
        }
    }

    /// A turn of its machine.
    fn go_on<H: Host<M>>(
        &mut self,
        alloc: Global,
        host: &mut H,
        buffer: &mut [u8],
        occasion: Occasion,
    ) -> Left
        requires room { 0 < length buffer.old }
        requires talks { (state_of self.old).is_draining ≡ false }
        ensures served { (moved : Moved) × (thrown : List ℕ)
            × ConnectionHasServed S.remaining S.contents (H.goes occasion.then) (H.is_done occasion.then) M.waiting
            self.old self.new host.old host.new result moved thrown }
        ensures admitted { occasion.then ≡ Turn.End → is_over result ≡ false
            → may_look_at M.watches M.waiting (state_of self.new) ≡ false }
        ensures time { is_over result ≡ false → (state_of self.new).is_draining ≡ false
            → HasTime M.takes M.waiting (is_some M.PATIENCE) occasion.now
            (state_of self.new).machine (state_of self.old).until (state_of self.new).until }
        ensures stays { H.stays host.old host.new }
    {
        let was_watching = self.machine.is_watching();
        self.link.renew();
        let turned = turn(
            alloc,
            &mut self.link,
            host,
            &mut self.machine,
            &mut self.past,
            buffer,
            occasion.then,
        );
        self.is_followed = self.is_followed || turned.is_followed;
        self.gave_way = turned.fate == Fate::GoesOn;
        self.note_turn(was_watching, occasion.now);
        match turned.fate {
            Fate::Rests => {
                self.renew(occasion.now);
                self.rest(buffer)
            }
            Fate::GoesOn => {
                self.renew(occasion.now);
                Left::Ready
            }
            Fate::Done => self.finish(buffer, occasion.now),
            Fate::GivenUp(why) => Left::Over(End::GivenUp(why)),
        }
    }
}
