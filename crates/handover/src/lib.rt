//! What a supervisor such as systemd hands a process, and is told by it.
//!
//! # A caller
//!
//! ```rust
//! #![tactic(auto)]
//!
//! ghost use Rattle.std.specs.Prelude.{◌≡◌, drop};
//!
//! use handover::HandedOver;
//! use std::io;
//! use std::net::TcpListener;
//!
//! /// The next socket that was handed over, or else the one that is made. Of those that were handed over at most one is taken.
//! pub fn listener<F>(handed: &mut HandedOver, make: F) -> io::Result<TcpListener>
//! where
//!     F: FnOnce() -> io::Result<TcpListener> + Drop,
//!     requires { F.pre make }
//!     ensures { handed.new ≡ drop 1 handed.old }
//! {
//!     match handed.take() {
//!         Some(listener) => listener,
//!         None => make(),
//!     }
//! }
//! ```
#![tactic(auto)]

mod address;
mod handed_over;
mod listener;
mod notifier;
mod number;
mod signals;
mod standard;

pub use crate::handed_over::{HandedOver, sockets_for};
pub use crate::notifier::Notifier;
pub use crate::signals::StopSignals;
pub use crate::standard::open_standard_descriptors;
