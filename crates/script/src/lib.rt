//! Scripts: lines of text that set a registry up, change it and ask it.
//!
//! # A caller
//!
//! ```rust
//! #![tactic(auto)]
//!
//! ghost use Rattle.std.specs.Prelude.{◌≡◌, ◌≢◌, IfOk, IfErr};
//! ghost use Rattle.script.specs.Run.{IsScriptRun};
//! ghost use Rattle.script.specs.Script.{ScriptParts, IsScript, IsScriptFault};
//!
//! use probe_core::{Maker, Probe};
//! use script::{Mode, ScriptFault, read_script, run_script};
//! use std::alloc::Global;
//!
//! /// Runs the text of a script. It gives what the lines come to, or the first fault of the text.
//! pub fn replay<P: Probe, M: Maker<P>>(
//!     alloc: Global,
//!     text: &[u8],
//!     maker: &M,
//! ) -> Result<Vec<u8>, ScriptFault>
//!     ensures ran { IfOk result (λ output. (script : ScriptParts)
//!         × IsScript Mode.Replay text.now script × IsScriptRun script output.items) }
//!     ensures fault { IfErr result (λ fault. fault ≢ ScriptFault.NoMemory
//!         → IsScriptFault Mode.Replay text.now fault) }
//! {
//!     let script = read_script(alloc, text, Mode::Replay)?;
//!     Ok(run_script(alloc, script, maker)?)
//! }
//! ```
#![tactic(auto)]

mod catalogue_complaint;
mod complaint;
mod expectation;
mod expected;
mod explanation;
mod laws;
mod line;
mod name;
mod number;
mod opening;
mod order;
mod outcome;
mod probes;
mod question;
mod quoted;
mod reading;
mod replay;
mod rule;
mod run;
mod script;
mod script_bytes;
mod script_fault;
mod setup;
mod text_lines;
mod texts;
mod words;

pub use expectation::{Expectation, ScriptExpectation, read_expectation};
pub use expected::{Expected, RefusedExpectation, expected_of};
pub use explanation::explain;
pub use laws::{changes_in_place, one_expectation, one_script};
pub use line::{Line, read_line};
pub use probes::{probe_for, probes_for};
pub use question::{Question, read_question};
pub use reading::read_script;
pub use replay::run_script;
pub use script::{Mode, Script};
pub use script_bytes::read_script_bytes;
pub use script_fault::ScriptFault;
pub use setup::set_up;
pub use text_lines::without_cr;
pub use texts::{changed_text, checked_text};
