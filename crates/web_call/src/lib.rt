//! One HTTP exchange: a request in, its response out, over any reader and writer.
//!
//! # A caller
//!
//! ```rust
//! #![tactic(auto)]
//!
//! ghost use Rattle.std.specs.Prelude.{◌≡◌, ◌≤◌, ◌+◌, IsTrue};
//! ghost use Rattle.web_call.specs.Tap.{tap_failed};
//!
//! use std::alloc::Global;
//! use std::io::{Read, Write};
//! use web_call::{Bell, Door, Limits, Tap, exchange};
//!
//! /// Serves one call, of a Watch at most a hundred looks. It says whether the call was answered whole.
//! pub fn serve<R: Read, W: Write, D: Door, B: Bell>(
//!     alloc: Global,
//!     reader: &mut Tap<R>,
//!     writer: &mut Tap<W>,
//!     door: &mut D,
//!     bell: &mut B,
//! ) -> bool
//!     ensures answered { IsTrue result → tap_failed writer.new ≡ tap_failed writer.old }
//!     ensures looks { B.given bell.new ≤ B.given bell.old + 100 }
//!     ensures names { D.names door.new ≡ D.names door.old }
//! {
//!     match exchange(alloc, reader, writer, door, bell, Limits { looks: 100 }) {
//!         Ok(_) => true,
//!         Err(_) => false,
//!     }
//! }
//! ```
#![tactic(auto)]

mod ask;
mod bell;
mod board_door;
mod call;
mod content_length;
mod content_type;
mod desk_door;
mod door;
mod exchanging;
mod head;
mod head_limits;
mod intake;
mod laws;
mod lines;
mod method;
mod outcome;
mod outgoing;
mod response;
mod response_texts;
pub mod staged;
mod tap;
mod text;

pub use ask::{Ask, ask_of, one_ask};
pub use bell::{Bell, Turn};
pub use board_door::BoardDoor;
pub use call::Call;
pub use content_length::length_of;
pub use desk_door::DeskDoor;
pub use door::Door;
pub use exchanging::{ExchangeFault, Limits, Why, exchange};
pub use head::{Headed, head_of, is_too_large};
pub use head_limits::{HEAD_END, MAX_HEAD_LEN, MAX_LINE_FEEDS, MAX_LINES};
pub use laws::{never_behind, one_head, whole_calls};
pub use lines::{count_named, first_named, is_named};
pub use method::Method;
pub use outcome::Outcome;
pub use response::{check_body, status_body};
pub use response_texts::{check_text, refuse_text, status_text, watch_head};
pub use tap::Tap;
