//! The registry of services: their names, their probes and the journal of all changes.
//!
//! # A caller
//!
//! ```rust
//! #![tactic(auto)]
//!
//! ghost use Rattle.std.specs.Prelude.{◌≡◌, true, false};
//! ghost use Rattle.desk_core.specs.Desk.{HasAnswered};
//!
//! use desk_core::{Call, Desk, Finding, Refusal, Reply, Slot};
//! use probe_core::Probe;
//!
//! /// Tells the registry whether a service was reached.
//! pub fn report<P: Probe>(desk: &mut Desk<P>, slot: Slot, is_reached: bool) -> Result<Reply, Refusal>
//!     ensures reached { is_reached ≡ true → HasAnswered desk.old desk.new 0 (Call.Observe slot Finding.Pass) result }
//!     ensures missed { is_reached ≡ false → HasAnswered desk.old desk.new 0 (Call.Observe slot Finding.Fail) result }
//! {
//!     if is_reached {
//!         desk.observe(0, slot, Finding::Pass)
//!     } else {
//!         desk.observe(0, slot, Finding::Fail)
//!     }
//! }
//! ```
#![tactic(auto)]

mod board;
mod cache;
mod call;
mod catalogue;
mod change;
mod console;
mod desk;
mod entry;
mod extent;
mod history;
mod keep;
mod latest;
mod lawful;
mod laws;
mod made;
mod marks;
mod name;
mod order;
mod owned;
mod reason;
mod recall;
mod refusal;
mod registrar;
mod registration;
mod reply;
mod ruled;
mod slot;
mod slots;
mod standing;
mod status;
mod status_word;
mod store;
mod transcript;
mod watch;

pub use board::{board_entries, board_status};
pub use call::{Call, Finding, Setting};
pub use catalogue::{Catalogue, CatalogueFault};
pub use change::Change;
pub use console::Console;
pub use desk::Desk;
pub use entry::Entry;
pub use extent::Extent;
pub use keep::{Capacity, Keep, KeepAll, KeepMany};
pub use laws::{
    behind_for_good, changes_grow, depends_on_all, events_decide, faultless_names,
    kept_changes_suffice, last_call_decides, last_change_is_shown, legal_fronts, legal_growth,
    nothing_is_taken_back, one_outcome, reasons_name_entries, reasons_tell_statuses,
    slots_and_names, steps_leave_none_out, tells_changes_alone, walks_tell_the_story,
    watchers_end_up_right,
};
pub use made::{Effect, Made};
pub use name::Name;
pub use order::Order;
pub use reason::{Cause, Reason};
pub use recall::Recall;
pub use refusal::Refusal;
pub use registrar::{Registrar, carry_out};
pub use registration::{Handed, Registered};
pub use reply::Reply;
pub use ruled::Ruled;
pub use slot::Slot;
pub use standing::Standing;
pub use store::NotStored;
pub use transcript::Transcript;
pub use watch::{Behind, Watch};
