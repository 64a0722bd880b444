//! A client of the health service: one call of gRPC-Web over any reader and writer.
//!
//! # A caller
//!
//! ```rust
//! #![tactic(auto)]
//!
//! ghost use Rattle.std.specs.Prelude.{◌≤◌, length, OnOk};
//! ghost use Rattle.client.specs.Request.{WritesRequest};
//!
//! use client::{AskFault, ask};
//! use std::alloc::Global;
//! use std::io::{Read, Write};
//! use web_call::Method;
//!
//! /// The number of a service's status, if the server has one for it.
//! pub fn status_of<R: Read, W: Write>(
//!     alloc: Global,
//!     reader: &mut R,
//!     writer: &mut W,
//!     name: &str,
//! ) -> Result<Option<u64>, AskFault>
//!     requires name { length name.now ≤ 1048576 }
//!     ensures sent { OnOk result (WritesRequest Method.Check name.now (W.contents writer.old) (W.contents writer.new)) }
//! {
//!     let told = ask(alloc, reader, writer, Method::Check, name, 1)?;
//!     Ok(told.statuses.first().copied())
//! }
//! ```
#![tactic(auto)]

mod ask_fault;
mod asking;
mod grpc_frames;
mod http_framing;
mod kept;
mod laws;
mod lent;
mod listener;
mod reply;
mod request;
mod response_body;
mod told;
mod transfer;
mod watching;

pub use ask_fault::AskFault;
pub use asking::{ask, ask_through};
pub use laws::{frames_tell, one_answer, written_frames_tell, written_trailers_tell};
pub use lent::Lent;
pub use listener::Listener;
pub use told::{Ended, Told};
pub use watching::watch_through;
