//! Probes: what the events of a service make of its status, by its kind.
//!
//! # A caller
//!
//! ```rust
//! #![tactic(auto)]
//!
//! ghost use Rattle.std.specs.Prelude.{◌≡◌};
//! ghost use Rattle.probe_core.specs.Rule.{fits, is_up_at, memory_next};
//!
//! use probe_core::{Event, Probe};
//!
//! /// Lets a probe hear an event, and says whether the service is up after it.
//! pub fn is_up_after<P: Probe>(probe: &mut P, event: Event) -> bool
//!     ensures up { result ≡ is_up_at (P.rule probe.old) (memory_next (P.rule probe.old) event (P.memory probe.old)) }
//!     ensures rule { P.rule probe.new ≡ P.rule probe.old }
//! {
//!     probe.note(event);
//!     probe.is_up()
//! }
//! ```
#![tactic(auto)]

mod depends;
mod event;
mod laws;
mod maker;
mod manual;
mod probe;
mod rule;
mod start;
mod threshold;
pub mod tracked;

pub use depends::Depends;
pub use event::Event;
pub use laws::{memory_tells_status, plain_threshold};
pub use maker::{FnMaker, Maker, ProbeFn};
pub use manual::Manual;
pub use probe::Probe;
pub use rule::Rule;
pub use start::Start;
pub use threshold::Threshold;
