//! What commands print of a server's answers: a table of services, or JSON.
#![tactic(auto)]

mod entry;
mod layout;
mod moment;
mod names;
mod row;
mod rows;
mod standing;
mod status;
mod words;

pub use crate::entry::entry_json;
pub use crate::layout::table;
pub use crate::moment::Moment;
pub use crate::names::names_in;
pub use crate::row::{Row, read_standing};
pub use crate::rows::rows_json;
pub use crate::status::Status;
