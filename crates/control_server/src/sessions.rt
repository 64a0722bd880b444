//! The sessions of a control place, each with the seat of its key, as the handler of their connections.

ghost use Rattle.std.specs.Prelude.{◌≡◌, ◌<◌, length, true, IfSome};
ghost use Rattle.std.specs.List.{All};
ghost use Rattle.reactor.specs.Connection.{state_of};
ghost use Rattle.reactor.specs.Moved.{Moved};
ghost use Rattle.hall.specs.Seats.{IsOf};
ghost use Rattle.control.specs.Session.{begun};
ghost use Rattle.control_server.specs.Connection.{IsQuiet, SpeaksAt, SpeaksBy, session_of};
ghost use Rattle.control_server.specs.Seats.{IsByKey, SeatsHaveMet};
ghost use Rattle.crew.specs.HallDoor.{door_hall, door_seat};

use crate::context::Context;
use crate::overview::Overview;
use chronicle::wall_micros;
use control::{ControlStream, Session, Terms};
use crew::HallDoor;
use desk_core::Keep;
use hall::Seat;
use handover::Notifier;
use live_server::{Handler, Tally, Visit};
use probe_core::{Maker, Probe};
use reactor::{Attendant, Connection, End, Left, Occasion};
use std::alloc::Global;
use std::io::Write;
use std::marker::PhantomData;
use std::sync::atomic::{AtomicU64, Ordering};
use std::sync::{Arc, Wait};
use std::time::{Clock, Instant};
use watchdog::Expectations;
use web_call::{Turn, Why};

/// The most sessions at once.
pub const MAX_SESSIONS: u16 = 16;

/// The most connections of the control place: those of sessions, and as many whose sessions are over. Each has a seat.
pub const SESSION_SEATS: u16 = 32;

/// What a client is told that is one too many.
const TOO_MANY: &[u8] = b"too many sessions\n";

/// A connection of the control place, with its session.
type SessionConnection = Connection<ControlStream, Session>;

/// What sessions are held over, and their seats.
#[derive(Drop)]
pub(crate) struct Sessions<'s, 'a, 'b, R, P: Probe, K: Keep, M> {
    pub(crate) context: &'a Context<'b, R, P, K, M>,
    pub(crate) seats: &'s mut [Seat<P, K>],
    pub(crate) tallies: &'a [Arc<Tally>],
    /// What they expect of services.
    pub(crate) expectations: &'a Expectations,
    /// Not 0 once a session was told to stop the server.
    pub(crate) stops: &'a AtomicU64,
    /// What holds for them.
    pub(crate) terms: Terms,
    /// Whether they come over TCP.
    pub(crate) over_tcp: bool,
    /// Tells a supervisor that the server was told to stop.
    pub(crate) notifier: &'a Notifier,
}

/// A session of this number that begins now.
fn begin(
    alloc: Global,
    stream: ControlStream,
    now: Instant,
    number: u32,
) -> Option<SessionConnection>
    ensures { IfSome result (λ connection. (session_of connection ≡ begun) × IsQuiet connection) }
{
    // An answer is a line by itself, and waits for no other.
    let _ = stream.set_nodelay(true);
    let session = Session::new(alloc).ok()?.with_number(number);
    Some(Connection::new(stream, session, now))
}

/// A client that is one too many is told so. Its connection stays until that is taken.
fn turn_away(alloc: Global, stream: ControlStream, now: Instant) -> Option<SessionConnection>
    ensures quiet { IfSome result (λ connection. IsQuiet connection) }
    ensures over { IfSome result (λ connection. (state_of connection).is_draining ≡ true) }
{
    let _ = (&stream).write(TOO_MANY);
    let mut connection = begin(alloc, stream, now, 0)?;
    if connection.close(now) {
        Some(connection)
    } else {
        None
    }
}

/// A turn of a connection's session by this seat.
fn turn_by<R: Wait, P: Probe, K: Keep, M: Maker<P>>(
    alloc: Global,
    context: &Context<'_, R, P, K, M>,
    overview: Overview<'_>,
    connection: &mut SessionConnection,
    seat: &mut Seat<P, K>,
    buffer: &mut [u8],
    occasion: Occasion,
) -> Left
    requires seat { IsOf context.now.hall.now seat.old }
    requires room { 0 < length buffer.old }
    ensures { (moved : Moved) × SpeaksBy K.kept overview.entry.terms context.now.hall.now.names
        seat.old seat.new
        (session_of connection.old) (session_of connection.new) moved }
{
    overview.sit(seat.number());
    let mut door = HallDoor::new(context.rt, context.hall, seat);
    turn_over(
        alloc,
        &mut door,
        overview,
        context.maker,
        connection,
        buffer,
        occasion,
    )
}

/// The same over a door.
fn turn_over<R: Wait, P: Probe, K: Keep, M: Maker<P>>(
    alloc: Global,
    door: &mut HallDoor<'_, R, P, K>,
    server: Overview<'_>,
    maker: &M,
    connection: &mut SessionConnection,
    buffer: &mut [u8],
    occasion: Occasion,
) -> Left
    requires room { 0 < length buffer.old }
    ensures reference { door.new.seat.ghost_name ≡ door.old.seat.ghost_name }
    ensures spoken { (moved : Moved) × SpeaksBy K.kept server.entry.terms (door_hall door.old).names
        (door_seat door.old)
        (door_seat door.new) (session_of connection.old) (session_of connection.new) moved }
{
    let mut attendant = Attendant {
        console: door,
        server,
        maker,
        of: PhantomData,
    };
    turn_at(alloc, &mut attendant, connection, buffer, occasion)
}

/// The same over an attendant at a door.
fn turn_at<R: Wait, P: Probe, K: Keep, M: Maker<P>>(
    alloc: Global,
    attendant: &mut Attendant<'_, P, HallDoor<'_, R, P, K>, Overview<'_>, M>,
    connection: &mut SessionConnection,
    buffer: &mut [u8],
    occasion: Occasion,
) -> Left
    requires room { 0 < length buffer.old }
    ensures reference { attendant.new.console.ghost_name ≡ attendant.old.console.ghost_name }
    ensures seat { attendant.new.console.now.seat.ghost_name
        ≡ attendant.old.console.now.seat.ghost_name }
    ensures spoken { (moved : Moved) × SpeaksBy K.kept attendant.old.server.terms
        (door_hall attendant.old.console.now).names
        (door_seat attendant.old.console.now) (door_seat attendant.new.console.now)
        (session_of connection.old) (session_of connection.new) moved }
{
    connection.turn(alloc, attendant, buffer, occasion)
}

/// A turn of a connection's session by the seat of its key. Once all is to end it only sends what waits.
fn turn_by_key<R: Wait, P: Probe, K: Keep, M: Maker<P>>(
    alloc: Global,
    context: &Context<'_, R, P, K, M>,
    overview: Overview<'_>,
    seats: &mut [Seat<P, K>],
    connection: &mut SessionConnection,
    buffer: &mut [u8],
    visit: Visit,
) -> Left
    requires ours { All (IsOf context.now.hall.now) seats.old }
    requires room { 0 < length buffer.old }
    ensures met { SeatsHaveMet K.kept overview.entry.terms context.now.hall.now.names
        seats.old seats.new }
    ensures ours { All (IsOf context.now.hall.now) seats.new }
    ensures own { IsByKey visit.key seats.old seats.new }
    ensures spoken { (moved : Moved) × SpeaksAt K.kept overview.entry.terms
        context.now.hall.now.names visit.key seats.old seats.new
        (session_of connection.old) (session_of connection.new) moved }
{
    let key = visit.key;
    if key >= seats.len() {
        return Left::Over(End::GivenUp(Why::NoMemory));
    }
    turn_by(
        alloc,
        context,
        overview,
        connection,
        &mut seats[key],
        buffer,
        visit.occasion,
    )
}

impl<R: Wait + Clock, P: Probe, K: Keep, M: Maker<P>> Handler<ControlStream, Session>
    for Sessions<'_, '_, '_, R, P, K, M> {
    ghost use Rattle.std.specs.List.{All};
    ghost use Rattle.hall.specs.Seats.{IsOf};
    ghost use Rattle.control_server.specs.Sessions.{HaveMet, met_further, met_none};

    ghost is_ready = { λ s. All (IsOf s.context.now.hall.now) s.seats.now };

    ghost stays = { HaveMet K.kept };

    fn open(
        &mut self,
        alloc: Global,
        stream: ControlStream,
        now: Instant,
        talking: usize,
    ) -> Option<SessionConnection> {
        if self.is_full(talking) {
            return turn_away(alloc, stream, now);
        }
        let number = self.expectations.chronicle().next_session();
        begin(alloc, stream, now, number)
    }

    fn is_full(&self, talking: usize) -> bool {
        talking >= self.seats.len().min(usize::from(MAX_SESSIONS))
    }

    fn turn(
        &mut self,
        alloc: Global,
        visit: Visit,
        connection: &mut SessionConnection,
        buffer: &mut [u8],
    ) -> Left {
        // Another session may have stopped the server since the round began.
        let mut visit = visit;
        if self.context.news.has_ended() {
            visit.occasion.then = Turn::End;
        }
        let overview = Overview {
            news: self.context.news,
            tallies: self.tallies,
            expectations: self.expectations,
            session: connection.machine().number(),
            micros: wall_micros(self.context.rt),
            sessions: visit.talking as u64,
            stops: self.stops,
            terms: self.terms,
            over_tcp: self.over_tcp,
        };
        let left = turn_by_key(
            alloc,
            self.context,
            overview,
            self.seats,
            connection,
            buffer,
            visit,
        );
        // The answer to `stop` was sent by then, unless it has to wait for room.
        if self.stops.load(Ordering::SeqCst) != 0 && !self.context.news.has_ended() {
            self.context.news.end();
            let _ = self.notifier.stopping();
        }
        left
    }

    ghost stays_self = { met_none K.kept };

    ghost stays_on = { met_further K.kept };
}
