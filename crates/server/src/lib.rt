//! A server of health checks: a hall that a script sets up, and a crew that serves connections over it.
//!
//! # A caller
//!
//! ```rust
//! #![tactic(auto)]
//!
//! ghost use Rattle.std.specs.Prelude.{◌≡◌, IfOk, vec_len};
//!
//! use probe_core::{Maker, Probe};
//! use script::Script;
//! use server::{Capacity, ServeFault, Served, hall_of, serve};
//! use std::alloc::Global;
//! use std::net::TcpListener;
//! use std::sync::Wait;
//! use std::thread::Threads;
//!
//! /// Serves ten calls by two workers over a hall that a script sets up. The third seat makes the orders of the script.
//! pub fn serve_ten<R, P: Probe + Send, M: Maker<P>>(
//!     rt: &R,
//!     alloc: Global,
//!     script: Script,
//!     maker: &M,
//!     listener: &TcpListener,
//! ) -> Result<Served<P>, ServeFault>
//! where
//!     R: Wait + Threads + Sync,
//!     ensures calls { IfOk result (λ served. vec_len served.calls ≡ 10) }
//!     ensures most { IfOk result (λ served. served.desk.max_entries ≡ script.max) }
//! {
//!     let Ok(made) = hall_of(rt, alloc, script, maker, 3) else {
//!         return Err(ServeFault::NoMemory);
//!     };
//!     let capacity = Capacity {
//!         workers: 2,
//!         calls: 10,
//!     };
//!     serve(rt, alloc, made, listener, capacity)
//! }
//! ```
#![tactic(auto)]

mod accept;
mod again;
mod again_fault;
mod crew_server;
mod request_reader;
mod response_writer;
mod serve_fault;
mod served;
mod setup;
mod storing;

pub use accept::{Accept, ends_of};
pub use again::hall_again;
pub use again_fault::AgainFault;
pub use crew_server::{Capacity, serve};
pub use request_reader::{RequestReader, discard};
pub use response_writer::ResponseWriter;
pub use serve_fault::ServeFault;
pub use served::Served;
pub use setup::{SetUpHall, hall_of, run_setup};
