//! The two messages of gRPC's health service, in the Protocol Buffers wire format.
//!
//! # A caller
//!
//! ```rust
//! #![tactic(auto)]
//!
//! ghost use Rattle.std.specs.Prelude.{◌≡◌, IfOk, IfErr};
//! ghost use Rattle.health_wire.specs.declared.serving.Serving.TheVariants.{Serving as IsServing};
//! ghost use Rattle.health_wire.specs.Request.{IsRequest, IsRequestFault};
//! ghost use Rattle.health_wire.specs.Response.{response_bytes};
//!
//! use health_wire::{Message, Serving, WireFault, read_request, write_response};
//!
//! /// Answers a request where one service is known, which is serving.
//! pub fn answer(request: &[u8], known: &str) -> Result<Message, WireFault>
//!     ensures serving { IfOk result (λ message.
//!         message ≡ response_bytes IsServing → IsRequest request.now known.now) }
//!     ensures fault { IfErr result (λ fault. IsRequestFault request.now fault) }
//! {
//!     let name = read_request(request)?;
//!     if name == known {
//!         Ok(write_response(Serving::Serving))
//!     } else {
//!         Ok(write_response(Serving::ServiceUnknown))
//!     }
//! }
//! ```
#![tactic(auto)]

mod fault;
mod field;
mod laws;
mod message;
mod request;
mod response;
mod serving;
mod varint;

pub use fault::{NoMemory, WireFault};
pub use field::{Field, Value};
pub use laws::{one_reading, one_request, one_spelling, round_trip};
pub use message::fields;
pub use request::{read_request, write_request};
pub use response::{Message, read_response, write_response};
pub use serving::Serving;
