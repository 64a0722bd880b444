ghost use Rattle.std.specs.Prelude.{◌≡◌, ℕ, IfSome};
ghost use Rattle.reactor.specs.Table.{place_at};
ghost use Rattle.reactor.specs.Connection.{state_of};
ghost use Rattle.reactor.specs.Talking.{IsSessionOf};
ghost use Rattle.control_server.specs.Server.{sessions_of};

use crate::acceptor::ControlAcceptor;
use crate::context::Context;
use crate::sessions::{SESSION_SEATS, Sessions};
use control::{ControlListener, ControlStream, Session, Terms};
use desk_core::Keep;
use hall::Seat;
use handover::Notifier;
use live_server::{EventLoop, Places, ServerLimits, Tally, connections_stand};
use probe_core::{Maker, Probe};
use std::alloc::{AllocError, Global};
use std::io;
use std::net::Net;
use std::rt::Files;
use std::sync::atomic::AtomicU64;
use std::sync::{Arc, Wait};
use std::time::Clock;
use watchdog::Expectations;

/// The connections of a control place. No Watches are among them.
const LIMITS: ServerLimits = ServerLimits {
    connections: SESSION_SEATS as usize,
    watches: 0,
};

/// The loop over the sessions of a server, in one thread.
pub struct ControlServer {
    sessions: EventLoop<ControlAcceptor, ControlStream, Session>,
    tallies: Vec<Arc<Tally>>,
    /// Not 0 once a session was told to stop the server.
    stops: AtomicU64,
    /// What holds for its sessions.
    terms: Terms,
    /// Whether they come over TCP.
    over_tcp: bool,
    /// Tells a supervisor that the server was told to stop.
    notifier: Notifier,
    /// What its sessions expect of services.
    expectations: Arc<Expectations>,
}

impl Drop for ControlServer {
    fn drop(self) {
        let ControlServer {
            sessions: _,
            tallies: _,
            stops: _,
            terms: _,
            over_tcp: _,
            notifier: _,
            expectations: _,
        } = self;
    }
}

impl ControlServer {
    ghost use Rattle.std.specs.Prelude.{◌≡◌, ◌↔◌, IfOk, IsTrue, None};
    ghost use Rattle.std.specs.List.{All};
    ghost use Rattle.hall.specs.Seats.{IsOf};
    ghost use Rattle.reactor.specs.Table.{held_count};
    ghost use Rattle.control.specs.Listener.{path_listened};
    ghost use Rattle.control_server.specs.Server.{is_over_tcp, sessions_of, terms_of};
    ghost use Rattle.control_server.specs.Seats.{SeatsHaveMet};
    ghost use Rattle.live_server.specs.Settled.{KeepsAccount};

    /// A loop over a place whose sessions may ask for so much, tell what the loops with these tallies
    /// count, and say what is expected of services.
    pub fn new<R: Net + Clock>(
        rt: &R,
        alloc: Global,
        listener: ControlListener,
        tallies: Vec<Arc<Tally>>,
        terms: Terms,
        expectations: Arc<Expectations>,
    ) -> io::Result<ControlServer>
        ensures terms { IfOk result (λ server. terms_of server ≡ terms) }
        ensures tcp { IfOk result (λ server. IsTrue (is_over_tcp server)
            ↔ (path_listened listener ≡ None)) }
    {
        let over_tcp = listener.is_tcp();
        let places = Arc::new(alloc, Places::new(LIMITS))?;
        Ok(ControlServer {
            sessions: EventLoop::new(rt, alloc, ControlAcceptor::new(listener), places)?,
            tallies,
            stops: AtomicU64::new(0),
            terms,
            over_tcp,
            notifier: Notifier::nobody(),
            expectations,
        })
    }

    /// The same loop, which tells a supervisor once a session stops the server.
    pub fn notifying(self, notifier: Notifier) -> ControlServer
        ensures terms { terms_of result ≡ terms_of self }
        ensures tcp { is_over_tcp result ≡ is_over_tcp self }
        ensures sessions { sessions_of result ≡ sessions_of self }
    {
        let ControlServer {
            sessions,
            tallies,
            stops,
            terms,
            over_tcp,
            notifier: _,
            expectations,
        } = self;
        ControlServer {
            sessions,
            tallies,
            stops,
            terms,
            over_tcp,
            notifier,
            expectations,
        }
    }

    /// What its loop counts, for others to read while it holds sessions: those that are over and wait for their last answer to be
    /// taken are among its connections.
    pub fn tally(&self) -> Result<Arc<Tally>, AllocError> {
        self.sessions.tally()
    }

    /// Takes the file of a Unix socket away, once it accepts no more, where it is still this one's.
    pub fn remove_file<R: Files>(&self, rt: &R) -> io::Result<()> {
        self.sessions.acceptor().remove_file(rt)
    }

    /// Holds sessions until all is to end, what is left to send is sent or given up, and no connection is held.
    pub fn run<R, P: Probe, K: Keep, M: Maker<P>>(
        &mut self,
        context: &Context<'_, R, P, K, M>,
        seats: &mut [Seat<P, K>],
    )
    where
        R: Wait + Clock,
        requires ours { All (IsOf context.now.hall.now) seats.old }
        ensures met { SeatsHaveMet K.kept (terms_of self.old) context.now.hall.now.names
            seats.old seats.new }
        ensures ours { All (IsOf context.now.hall.now) seats.new }
        ensures account { KeepsAccount (sessions_of self.old) (sessions_of self.new) }
        ensures all { held_count (sessions_of self.new) ≡ 0 }
        ensures terms { terms_of self.new ≡ terms_of self.old }
    {
        let mut handler = Sessions {
            context,
            seats,
            tallies: self.tallies.as_slice(),
            expectations: &self.expectations,
            stops: &self.stops,
            terms: self.terms,
            over_tcp: self.over_tcp,
            notifier: &self.notifier,
        };
        self.sessions.run(context.rt, &mut handler, context.news);
    }
}

/// At any moment, what a key holds is a connection of one session, which is what all comes to that it has moved since it began.
pub fn sessions_stand(server: &ControlServer)
    ensures { (key : ℕ) → IfSome (place_at (sessions_of server.now) key) (λ place.
        ∥ IsSessionOf (state_of place.connection).past (state_of place.connection).machine ∥₁) }
{
    connections_stand(&server.sessions);
}
