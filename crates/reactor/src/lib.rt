//! Conversations over connections, each taken as far as it goes without waiting, so that one thread holds thousands of them,
//! and the table that it holds them in.
//!
//! # A caller
//!
//! ```rust
//! #![tactic(auto)]
//!
//! ghost use Rattle.std.specs.Prelude.{◌≡◌};
//!
//! use reactor::{Fate, Link, Past, Stream, turn};
//! use std::alloc::Global;
//! use web_call::{Call, Door, Turn};
//!
//! /// Takes a call as far as it goes without waiting. It says whether its connection is to be closed.
//! pub fn is_over<S: Stream, D: Door>(
//!     alloc: Global,
//!     link: &mut Link<S>,
//!     door: &mut D,
//!     call: &mut Call,
//!     past: &mut Past,
//! ) -> bool
//!     ensures names { D.names door.new ≡ D.names door.old }
//! {
//!     let mut buffer = [0u8; 512];
//!     link.renew();
//!     let turned = turn(alloc, link, door, call, past, &mut buffer, Turn::Look);
//!     matches!(turned.fate, Fate::Done | Fate::GivenUp(_))
//! }
//! ```
#![tactic(auto)]

mod calling;
mod connection;
mod held_connection;
mod host;
mod laws;
mod link;
mod machine;
mod past;
mod refused;
mod socket;
mod stream;
mod table;
mod talking;
mod turning;

pub use calling::MOST_TAKEN;
pub use connection::{Connection, End, Left, Occasion, Ready};
pub use host::{Host, Step};
pub use laws::{counts_change, histories_chain, one_key_changes, sessions_end, turns_chain};
pub use link::{Last, Link};
pub use machine::Machine;
pub use past::Past;
pub use refused::{NotTaken, Refused};
pub use socket::Socket;
pub use stream::Stream;
pub use table::Table;
pub use talking::Attendant;
pub use turning::{Fate, Turned, turn};
