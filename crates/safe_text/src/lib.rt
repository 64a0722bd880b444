//! Texts that somebody else chose, as they are printed: nothing in them moves a cursor, begins a line or turns the text around.
//!
//! # A caller
//!
//! ```rust
//! #![tactic(auto)]
//!
//! use safe_text::SafeText;
//! use std::alloc::{AllocError, Global};
//!
//! /// What a server's answer is printed as.
//! pub fn told(alloc: Global, answer: &str) -> Result<String, AllocError> {
//!     let answer = SafeText(answer);
//!     format!(in alloc; "the server answered {answer}")
//! }
//! ```
#![tactic(auto)]

mod bytes;
mod laws;
mod safe_char;
mod safe_json;
mod safe_text;

pub use crate::bytes::{SafeBytes, printable};
pub use crate::laws::nothing_unsafe;
pub use crate::safe_json::SafeJson;
pub use crate::safe_text::SafeText;
