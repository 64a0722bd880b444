//! Message and trailer frames of gRPC-Web, and gRPC's status codes.
//!
//! # A caller
//!
//! ```rust
//! #![tactic(auto)]
//!
//! ghost use Rattle.std.specs.Prelude.{◌≡◌, ◌<◌, ◌^◌, ◌++◌, [], length, IfOk};
//! ghost use Rattle.grpc_frame.specs.declared.code.Code.TheVariants as status;
//! ghost use Rattle.grpc_frame.specs.Frame.{frame};
//! ghost use Rattle.grpc_frame.specs.Trailers.{block};
//!
//! use grpc_frame::{Code, NoMemory, put_message, put_trailers};
//! use std::alloc::Global;
//!
//! /// The body of a response whose call went well: its message, and then its trailers.
//! pub fn response_body(alloc: Global, message: &[u8]) -> Result<Vec<u8>, NoMemory>
//!     requires short { length message.now < 2 ^ 32 }
//!     ensures body { IfOk result (λ body.
//!         body.items ≡ frame 0 message.now ++ frame 128 (block status.Ok [])) }
//! {
//!     let mut body = Vec::new(alloc);
//!     put_message(&mut body, message)?;
//!     put_trailers(&mut body, Code::Ok, "")?;
//!     Ok(body)
//! }
//! ```
#![tactic(auto)]

mod code;
mod fault;
mod frame;
mod laws;
mod lines;
mod message;
mod splitter;
mod trailers;

pub use code::Code;
pub use fault::{FrameFault, NoMemory, SplitFault, TrailerFault};
pub use frame::Frame;
pub use laws::{
    any_cutting, first_frame, one_answer, one_cut, read_back, stays_too_long, trailers_read_back,
    whole_frame, written_frames,
};
pub use lines::trim;
pub use message::{one_message, put_message};
pub use splitter::Splitter;
pub use trailers::{Trailers, put_trailers, read_trailers};
