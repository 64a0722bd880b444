ghost use Rattle.std.specs.Prelude.{◌≡◌, ◌≢◌, ◌≤◌, ◌<◌, [], ◌++◌, length, ℕ, OnOk, OnErr, IfOk, IfErr, IfSome, IfNone, IsErrOf};
ghost use Rattle.grpc_frame.specs.Frame.{frame};
ghost use Rattle.grpc_frame.specs.Split.{BeginsWithNoFrame, max_content_len};
ghost use Rattle.client.specs.GrpcFrames.{IsSoundFront, FitsIn, IsFlagged, missing_in};
ghost use Rattle.client.specs.Reply.{IsOfResponse};

use crate::ask_fault::AskFault;
use grpc_frame::{Frame, SplitFault, Splitter};

pub(crate) const MESSAGE: u8 = 0;

const TRAILERS: u8 = 0x80;

/// How many bytes of a frame are missing to its flag, to the end of its length, or to its end. A whole one is taken at once, so that
/// there is always one.
pub(crate) fn missing_in(rest: &[u8]) -> usize
    ensures value { result ≡ missing_in rest.now }
    ensures some { 1 ≤ result }
{
    match rest {
        [] => 1,
        [_] => 4,
        [_, _] => 3,
        [_, _, _] => 2,
        [_, _, _, _] => 1,
        [_, a, b, c, d, part @ ..] => {
            let len = u32::from_be_bytes([*a, *b, *c, *d]) as usize;
            len.saturating_sub(part.len()).max(1)
        }
    }
}

/// Refuses a flag that no frame of a response has, and a frame that would end behind the body.
fn check_front(rest: &[u8], more: usize) -> Result<(), AskFault>
    ensures flagged { OnOk result (IsFlagged rest.now) }
    ensures fits { OnOk result (FitsIn more rest.now) }
    ensures fault { IfErr result (λ fault. fault ≡ AskFault.BadResponse) }
    ensures bad { OnErr result (¬ IsSoundFront more rest.now) }
{
    match rest {
        [] => Ok(()),
        [flag, ..] if *flag != MESSAGE && *flag != TRAILERS => Err(AskFault::BadResponse),
        [_, a, b, c, d, part @ ..] => {
            let len = u32::from_be_bytes([*a, *b, *c, *d]) as usize;
            if len > part.len() && len - part.len() > more {
                Err(AskFault::BadResponse)
            } else {
                Ok(())
            }
        }
        _ => Ok(()),
    }
}

/// Feeds bytes of content, and takes the frame that ends with them. So many bytes may still come.
pub(crate) fn next_frame(
    splitter: &mut Splitter,
    piece: &[u8],
    more: usize,
) -> Result<Option<Frame>, AskFault>
    requires { length piece.now ≤ missing_in splitter.old }
    ensures frame { IfOk result (λ taken. IfSome taken (λ one. BeginsWithNoFrame splitter.old
        → (splitter.old ++ piece.now ≡ frame one.flag one.body.items)
        × (length one.body.items ≤ max_content_len) × (splitter.new ≡ []))) }
    ensures flag { IfOk result (λ taken. IfSome taken (λ one. one.flag ≢ 0 → one.flag ≡ 128)) }
    ensures none { IfOk result (λ taken. IfNone taken ((splitter.new ≡ splitter.old ++ piece.now)
        × BeginsWithNoFrame splitter.new)) }
    ensures sound { IfOk result (λ taken. IfNone taken (IsSoundFront more splitter.new)) }
    ensures bad { IsErrOf result AskFault.BadResponse
        → ¬ IsSoundFront more (splitter.old ++ piece.now) }
    ensures faults { IfErr result IsOfResponse }
    ensures refused { (status : ℕ) → ¬ IsErrOf result (AskFault.Http status) }
{
    splitter.feed(piece)?;
    check_front(splitter.rest(), more)?;
    match splitter.take() {
        Ok(taken) => Ok(taken),
        Err(SplitFault::NoMemory) => Err(AskFault::NoMemory),
        Err(SplitFault::TooLong) => Err(AskFault::BadResponse),
    }
}
