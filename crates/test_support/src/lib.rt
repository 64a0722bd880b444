//! What tests share: a process without memory, a reader and a writer that fail at a chosen call, and sample requests. No program
//! uses it.
#![tactic(auto)]

mod faulty;
pub mod requests;
mod scarcity;

pub use faulty::{Fault, FaultyReader, FaultyWriter};
pub use scarcity::Scarcity;
