ghost use Rattle.std.specs.Prelude.{◌≡◌, ◌+◌, ◌^◌, ◌<◌, ◌≤◌, ◌++◌, length, vec_len, vec_capacity, IfOk, IfErr, IfSome, IfNone, OnOk, OnErr};
ghost use Rattle.grpc_frame.specs.Frame.{frame};
ghost use Rattle.grpc_frame.specs.Message.{BeginsWith, BeginsWithNone, IsOneMessage, fault_at};

use crate::frame::open_frame;
use crate::{FrameFault, NoMemory};

const MESSAGE: u8 = 0;

/// The message of a request's body, which has to be just one. Faults are met from the left, and the first one counts.
#[tactic(auto, using(crate::proofs::Messages::exits))]
pub fn one_message(body: &[u8]) -> Result<&[u8], FrameFault>
    ensures message { IfOk result (λ message. IsOneMessage body.now (Ok message.now)) }
    ensures fault { IfErr result (λ fault. IsOneMessage body.now (Err fault)) }
{
    let Some((message, rest)) = message_at(body) else {
        return Err(fault_at(body));
    };
    if rest.is_empty() {
        return Ok(message);
    }
    match message_at(rest) {
        Some(_) => Err(FrameFault::MoreThanOne),
        None => Err(fault_at(rest)),
    }
}

/// Appends the frame of an uncompressed message.
pub fn put_message(out: &mut Vec<u8>, message: &[u8]) -> Result<(), NoMemory>
    requires { length message.now < 2 ^ 32 }
    ensures ok { OnOk result (out.new.items ≡ out.old.items ++ frame 0 message.now) }
    ensures err { OnErr result (out.new.items ≡ out.old.items) }
    ensures capacity { vec_capacity out.old ≤ vec_capacity out.new }
    ensures full { OnErr result
        (vec_capacity out.old < vec_len out.old + length (frame 0 message.now)) }
{
    open_frame(out, MESSAGE, message.len())?;
    out.extend_from_slice(message).unwrap();
    Ok(())
}

fn message_at(bytes: &[u8]) -> Option<(&[u8], &[u8])>
    ensures found { IfSome result (λ x. BeginsWith bytes.now x.0.now x.1.now) }
    ensures none { IfNone result (BeginsWithNone bytes.now) }
{
    let [MESSAGE, a, b, c, d, rest @ ..] = bytes else {
        return None;
    };
    let len = u32::from_be_bytes([*a, *b, *c, *d]) as usize;
    if len > rest.len() {
        return None;
    }
    Some(rest.split_at(len))
}

fn fault_at(bytes: &[u8]) -> FrameFault
    ensures { result ≡ fault_at bytes.now }
{
    match bytes {
        [] => FrameFault::NoMessage,
        [0, ..] => FrameFault::Truncated,
        [1, ..] => FrameFault::Compressed,
        [2..=127, ..] => FrameFault::BadFlag,
        _ => FrameFault::TrailerInRequest,
    }
}
