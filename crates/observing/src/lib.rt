//! Looks at services from outside, over sockets that do not wait, and tells a control place what each look came to. A look itself opens
//! no socket and reads no clock.
#![tactic(auto)]

mod answer;
mod clock;
mod desk;
mod event;
mod exiting;
mod health;
mod http;
mod kind;
mod laws;
mod ledger;
mod look;
mod lookout;
mod mailbox;
mod note;
mod observed;
mod observer;
mod post;
mod report;
mod resolver;
mod sink;
mod stage;
mod steps;
mod target;
mod target_fault;
mod teller;
mod terms;
mod timetable;
mod told;
mod tower;
mod url;
mod verdict;
mod work;

pub use crate::answer::{Answer, answer_of};
pub use crate::event::Event;
pub use crate::exiting::exit_status;
pub use crate::health::{health_answer, health_request};
pub use crate::http::{MAX_ANSWER_LEN, http_answer, http_request};
pub use crate::kind::Kind;
pub use crate::laws::one_report_each;
pub use crate::look::Look;
pub use crate::lookout::Lookout;
pub use crate::note::Note;
pub use crate::observed::{ObserveFault, Observed, Telling};
pub use crate::observer::{observe, observe_once};
pub use crate::sink::Sink;
pub use crate::stage::{Dial, Stage, Step};
pub use crate::target::Target;
pub use crate::target_fault::TargetFault;
pub use crate::terms::Terms;
pub use crate::timetable::Timetable;
pub use crate::verdict::{Verdict, Why};
