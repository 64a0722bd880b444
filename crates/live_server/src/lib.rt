//! A server of calls over sockets that runs until it is told to end, in bounded memory.
//!
//! # A caller
//!
//! ```rust
//! #![tactic(auto)]
//!
//! ghost use Rattle.std.specs.Prelude.{◌≡◌};
//! ghost use Rattle.reactor.specs.Table.{held_count};
//! ghost use Rattle.live_server.specs.Loop.{held_by};
//!
//! use live_server::{EventServer, News};
//! use std::sync::Wait;
//! use std::time::Clock;
//! use web_call::Door;
//!
//! /// Serves until all is to end, and tells how many connections have ended.
//! pub fn serve_to_the_end<R: Wait + Clock, D: Door>(
//!     rt: &R,
//!     server: &mut EventServer,
//!     door: &mut D,
//!     news: &News,
//! ) -> u64
//!     ensures all { held_count (held_by server.new) ≡ 0 }
//!     ensures names { D.names door.new ≡ D.names door.old }
//! {
//!     server.run(rt, door, news);
//!     server.ended()
//! }
//! ```
#![tactic(auto)]

mod accept;
mod acceptor;
mod caller;
mod calling;
mod conversations;
mod event_loop;
mod handler;
mod held;
mod laws;
mod news;
mod places;
mod queue;
mod rounds;
mod tally;
mod turns;

pub use accept::Accept;
pub use acceptor::Acceptor;
pub use caller::{Caller, Entrance};
pub use conversations::Counts;
pub use event_loop::{EventLoop, EventServer};
pub use handler::{Handler, Visit};
pub use laws::{calls_stand, connections_stand};
pub use news::News;
pub use places::{Places, ServerLimits};
pub use queue::Queue;
pub use tally::{Tallied, Tally};
