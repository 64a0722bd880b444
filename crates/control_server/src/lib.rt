//! The place where a running server is asked for changes: sessions over sockets, each with a seat of a hall.
//!
//! # A caller
//!
//! ```rust
//! #![tactic(auto)]
//!
//! ghost use Rattle.std.specs.List.{All};
//! ghost use Rattle.control_server.specs.Seats.{SeatsHaveMet};
//! ghost use Rattle.control_server.specs.Server.{terms_of};
//! ghost use Rattle.hall.specs.Seats.{IsOf};
//!
//! use control_server::{Context, ControlServer};
//! use desk_core::Keep;
//! use hall::Seat;
//! use probe_core::{Maker, Probe};
//! use std::fs::Files;
//! use std::io;
//! use std::sync::Wait;
//! use std::time::Clock;
//!
//! /// Holds sessions until all is to end, and then takes the file of its socket away, if it has one.
//! pub fn hold_sessions<R, P: Probe, K: Keep, M: Maker<P>>(
//!     server: &mut ControlServer,
//!     context: &Context<'_, R, P, K, M>,
//!     seats: &mut [Seat<P, K>],
//! ) -> io::Result<()>
//! where
//!     R: Wait + Clock + Files,
//!     requires ours { All (IsOf context.now.hall.now) seats.old }
//!     ensures met { SeatsHaveMet K.kept (terms_of server.old) context.now.hall.now.names seats.old seats.new }
//!     ensures ours { All (IsOf context.now.hall.now) seats.new }
//! {
//!     server.run(context, seats);
//!     server.remove_file(context.rt)
//! }
//! ```
#![tactic(auto)]

mod acceptor;
mod context;
mod control_server;
mod laws;
mod overview;
mod sessions;

pub use context::Context;
pub use control_server::{ControlServer, sessions_stand};
pub use laws::{lines_make_changes, reports_tell_findings, turns_make_a_session};
pub use overview::Overview;
pub use sessions::{MAX_SESSIONS, SESSION_SEATS};
