//! What is answered to requests of plain HTTP that are no calls.
#![tactic(auto)]

mod answering;
mod escapes;
mod figures;
mod inquiry;
mod metrics;
mod page;
mod response;
mod services;
mod status_text;
mod target;
mod verb;
mod version;

pub use answering::answer;
pub use figures::{Figures, Refused};
pub use inquiry::{Inquiry, inquiry_of};
pub use version::VERSION;
