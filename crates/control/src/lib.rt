//! The control place of a server: where it is asked for changes while it runs, the sessions that are held there, and a client of one.
//!
//! A place is a loopback address, or a Unix socket that only its owner may use. A session is lines of text that change a registry and
//! ask it, and their answers.
//!
//! # A server's caller
//!
//! ```rust
//! #![tactic(auto)]
//!
//! ghost use Rattle.std.specs.Prelude.{◌≡◌, [], IsTrue, IsFalse};
//! ghost use Rattle.control.specs.Session.{behind_line};
//!
//! use control::{Server, Session};
//! use desk_core::Console;
//! use probe_core::{Maker, Probe};
//! use std::alloc::Global;
//!
//! /// Answers the next line of a session, if a whole one has come. Its answer then waits to be sent.
//! pub fn answer_next<P: Probe, C: Console<P>, V: Server, M: Maker<P>>(
//!     alloc: Global,
//!     session: &mut Session,
//!     console: &mut C,
//!     server: &mut V,
//!     maker: &M,
//! ) -> bool
//!     requires sent { session.old.waiting ≡ [] }
//!     ensures answered { IsTrue result → session.new.unread ≡ behind_line session.old.unread }
//!     ensures none { IsFalse result → session.new ≡ session.old }
//!     ensures names { C.names console.new ≡ C.names console.old }
//! {
//!     if !session.has_line() {
//!         return false;
//!     }
//!     session.answer(alloc, console, server, maker);
//!     true
//! }
//! ```
//!
//! # A client's caller
//!
//! ```rust
//! #![tactic(auto)]
//!
//! ghost use Rattle.std.specs.Prelude.{OnOk};
//! ghost use Rattle.std.specs.Io.KnownBytes.{Appends};
//! ghost use Rattle.control.specs.Line.{IsPartOfLine, ended};
//!
//! use control::{AnswerFault, is_refused, tell};
//! use std::alloc::Global;
//! use std::io::{Read, Write};
//!
//! /// Sends a line, and says whether the server did what it asks for.
//! pub fn is_done<R: Read, W: Write>(
//!     alloc: Global,
//!     reader: &mut R,
//!     writer: &mut W,
//!     line: &[u8],
//! ) -> Result<bool, AnswerFault>
//!     requires one_line { IsPartOfLine line.now }
//!     ensures sent { OnOk result (Appends (W.contents writer.old) (W.contents writer.new) (ended line.now)) }
//! {
//!     match tell(alloc, reader, writer, line)? {
//!         Some(answer) => Ok(!is_refused(&answer)),
//!         None => Ok(false),
//!     }
//! }
//! ```
#![tactic(auto)]

mod answer;
mod answer_fault;
mod answering;
mod cause;
mod client;
mod description;
mod description_text;
mod entry_text;
mod expected;
mod laws;
mod line;
mod line_end;
mod listener;
mod meeting;
mod place;
mod reading;
mod reasons;
mod recollection;
mod refusals;
mod request;
mod rights;
mod sending;
mod server;
mod session;
mod session_terms;
mod stats;
mod stream;
mod telling;
mod terms;
mod unix_place;
mod web_line;
mod words;
mod writing;

pub use answer::Answer;
pub use answer_fault::AnswerFault;
pub use cause::Cause;
pub use client::{ControlClient, connect, connect_within};
pub use description::Description;
pub use entry_text::{call_text, push_done, push_note};
pub use expected::Expected;
pub use laws::{one_meeting, one_request};
pub use line::{LINE_ROOM, MAX_LINE_LEN, is_one_line, is_silent};
pub use line_end::LineEnd;
pub use listener::ControlListener;
pub use place::Place;
pub use reading::read_line;
pub use recollection::Recollection;
pub use refusals::{is_refused, is_turned_away};
pub use request::Request;
pub use rights::Rights;
pub use server::Server;
pub use session::Session;
pub use session_terms::SessionTerms;
pub use stats::{Counts, Ended, OpenNow, Stats};
pub use stream::ControlStream;
pub use telling::tell;
pub use terms::Terms;
pub use unix_place::{Access, UnixPlace};
