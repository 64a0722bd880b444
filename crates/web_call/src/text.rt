ghost use Rattle.std.specs.Prelude.{◌≡◌, ◌≤◌, ◌+◌, ◌∷◌, [], ℕ, flat_map, length, Some, None, IfOk};
ghost use Rattle.desk_core.specs.Watch.{told};
ghost use Rattle.grpc_frame.specs.Trailers.{IsStatusText};
ghost use Rattle.web_call.specs.Pieces.{plain, text_of};
ghost use Rattle.web_call.specs.Text.{bytes_of, text_bytes, ends_by, frames_by, IsTextOf};
ghost use Rattle.web_call.specs.ResponseTexts.{IsRefusal, refusal_pieces, status_pieces, check_pieces, message_chunk, watch_head_text, watch_end};

use crate::response_texts::{
    check_text, end_chunk, first_chunk, message_chunk, refuse_text, status_text,
};
use grpc_frame::Code;
use health_wire::Serving;
use std::alloc::{AllocError, Global};

/// What stands behind the frame in a chunk.
const CHUNK_END: &[u8] = b"\r\n";

/// What stands behind the frame of a Watch's trailers: the end of their chunk, and the last chunk.
const LAST_CHUNK: &[u8] = b"\r\n0\r\n\r\n";

/// The length of the frame of OK's trailers: a flag, a length of four bytes, and `grpc-status:0` as a line.
const OK_TRAILERS_LEN: usize = 20;

/// The bytes of a text: made for one call, or the program's own.
#[derive(Drop)]
pub(crate) enum Bytes {
    Made(Vec<u8>),
    Fixed(&'static [u8]),
}

/// A text that is sent, and where its frames end, of which it has two at most.
#[derive(Drop)]
pub(crate) struct Text {
    bytes: Bytes,
    first_end: Option<usize>,
    second_end: Option<usize>,
}

impl Text {
    pub(crate) fn bytes(&self) -> &[u8]
        ensures { result.now ≡ text_bytes self.now }
    {
        match &self.bytes {
            Bytes::Made(bytes) => bytes.as_slice(),
            Bytes::Fixed(bytes) => *bytes,
        }
    }

    /// How many of its frames are whole among its first `len` bytes.
    pub(crate) fn frames_by(&self, len: usize) -> u32
        ensures { result ≡ frames_by self.now len }
    {
        ends_by(self.first_end, len) + ends_by(self.second_end, len)
    }

    /// A text without a byte.
    pub(crate) fn none() -> Text
        ensures { IsTextOf result [] }
    {
        Text {
            bytes: Bytes::Fixed(b""),
            first_end: None,
            second_end: None,
        }
    }

    /// The response to a request that is refused by HTTP.
    pub(crate) fn refusal(alloc: Global, http: u16) -> Result<Text, AllocError>
        requires { IsRefusal http }
        ensures { IfOk result (λ text. IsTextOf text (refusal_pieces http)) }
    {
        Ok(Text {
            bytes: Bytes::Made(refuse_text(alloc, http)?),
            first_end: None,
            second_end: None,
        })
    }

    /// The response to a plain request.
    pub(crate) fn plain(bytes: Vec<u8>) -> Text
        ensures { IsTextOf result (plain bytes.items ∷ []) }
    {
        Text {
            bytes: Bytes::Made(bytes),
            first_end: None,
            second_end: None,
        }
    }

    /// The response to a call that ends with a status alone.
    pub(crate) fn status(alloc: Global, code: Code, text: &str) -> Result<Text, AllocError>
        requires { IsStatusText text.now }
        ensures { IfOk result (λ answer. IsTextOf answer (status_pieces code text.now)) }
    {
        let bytes = status_text(alloc, code, text)?;
        let end = bytes.len();
        Ok(Text {
            bytes: Bytes::Made(bytes),
            first_end: Some(end),
            second_end: None,
        })
    }

    /// The response to a Check, for a status or for a name that is not registered.
    pub(crate) fn check(alloc: Global, status: Option<Serving>) -> Result<Text, AllocError>
        ensures { IfOk result (λ text. IsTextOf text (check_pieces status)) }
    {
        if status.is_none() {
            return Text::status(alloc, Code::NotFound, "unknown service");
        }
        let bytes = check_text(alloc, status)?;
        let end = bytes.len();
        Ok(Text {
            bytes: Bytes::Made(bytes),
            first_end: Some(end - OK_TRAILERS_LEN),
            second_end: Some(end),
        })
    }

    /// The head of a Watch's response and its first message.
    pub(crate) fn first(status: Serving) -> Text
        ensures { IsTextOf result (plain watch_head_text ∷ message_chunk status) }
    {
        Text::chunk(first_chunk(status), CHUNK_END)
    }

    /// A later message of a Watch.
    fn message(status: Serving) -> Text
        ensures { IsTextOf result (message_chunk status) }
    {
        Text::chunk(message_chunk(status), CHUNK_END)
    }

    /// What a Watch tells after a step with this answer: a message, or nothing.
    pub(crate) fn told(answer: Option<Serving>) -> Text
        ensures { IsTextOf result (flat_map message_chunk (told answer)) }
    {
        match answer {
            Some(status) => Text::message(status),
            None => Text::none(),
        }
    }

    /// The end of a Watch.
    pub(crate) fn end() -> Text
        ensures { IsTextOf result watch_end }
    {
        Text::chunk(end_chunk(), LAST_CHUNK)
    }

    /// A text of one frame, behind which these bytes stand.
    fn chunk(bytes: &'static [u8], behind: &[u8]) -> Text
        requires { length behind.now ≤ length bytes.now }
        ensures bytes { text_bytes result ≡ bytes.now }
        ensures first { (place : ℕ) × (result.first_end ≡ Some place)
            × (place + length behind.now ≡ length (text_bytes result)) }
        ensures second { result.second_end ≡ None }
    {
        Text {
            bytes: Bytes::Fixed(bytes),
            first_end: Some(bytes.len() - behind.len()),
            second_end: None,
        }
    }
}

fn ends_by(end: Option<usize>, len: usize) -> u32
    ensures { result ≡ ends_by end len }
{
    match end {
        Some(place) if place <= len => 1,
        _ => 0,
    }
}
