ghost use Rattle.std.specs.Prelude.{◌≡◌, ◌≢◌, ◌≤◌, ◌<◌, ◌+◌, ◌*◌, ◌∷◌, [], ◌++◌, ℕ, List, true, false, length, IfOk, IfErr, OnErr, IsErrOf};
ghost use Rattle.grpc_frame.specs.Frame.{frame};
ghost use Rattle.grpc_frame.specs.Split.{BeginsWithNoFrame, max_content_len};
ghost use Rattle.client.specs.GrpcFrames.{missing_in};
ghost use Rattle.client.specs.Reply.{IsBad, IsGoingOn, IsOfResponse, is_enough};
ghost use Rattle.client.specs.Growth.{Grows};
ghost use Rattle.client.specs.ResponseBody.{owed_by};
ghost use Rattle.client.specs.Stages.{IsEnding, StandsAt, owed_at, statuses_at};

use super::{Heard, Reading, ReplyStage, Wanted};
use crate::ask_fault::AskFault;
use crate::grpc_frames::{MESSAGE, next_frame};
use crate::response_body::ResponseBody;
use crate::told::{Ended, Told};
use grpc_frame::{Frame, read_trailers};
use health_wire::read_response;
use web_call::Method;

/// Whether so many statuses are all that is asked for.
fn is_enough(call: Wanted, count: usize) -> bool
    ensures { result ≡ is_enough call.method call.most count }
{
    match call.method {
        Method::Check => false,
        Method::Watch => count >= call.most as usize,
    }
}

/// Whether the body may end without trailers.
fn may_be_cut(call: Wanted) -> bool
    ensures watch { result ≡ true → call.method ≡ Method.Watch }
    ensures check { result ≡ false → call.method ≡ Method.Check }
{
    matches!(call.method, Method::Watch)
}

/// What comes behind all that was heard: more of the body, or its end, which a Watch may have without trailers.
pub(super) fn settled(
    call: Wanted,
    body: ResponseBody,
    heard: Heard,
) -> Result<ReplyStage, AskFault>
    ensures ok { IfOk result (λ stage. (bytes head : List ℕ)
        → IsGoingOn call.method call.most bytes body.next body.more
        heard.statuses.items heard.splitter
        → StandsAt call.method call.most bytes head stage) }
    ensures bad { OnErr result ((bytes : List ℕ)
        → IsGoingOn call.method call.most bytes body.next body.more
        heard.statuses.items heard.splitter
        → IsBad call.method call.most bytes) }
    ensures fault { IfErr result (λ fault. fault ≡ AskFault.BadResponse) }
    ensures same { IfOk result (λ stage. statuses_at stage ≡ heard.statuses.items) }
    ensures fewer { IfOk result (λ stage. (len : ℕ)
        → owed_at len stage ≤ owed_by body.next body.more) }
{
    if body.wanted() > 0 {
        return Ok(ReplyStage::Body(Reading { body, heard }));
    }
    if !heard.splitter.rest().is_empty() {
        return Err(AskFault::BadResponse);
    }
    if !may_be_cut(call) {
        return Err(AskFault::BadResponse);
    }
    Ok(ReplyStage::Told(Told {
        statuses: heard.statuses,
        end: None,
    }))
}

/// What is told with the frame of a message, which is all that came behind the statuses.
fn with_message(
    call: Wanted,
    body: ResponseBody,
    mut heard: Heard,
    message: &[u8],
) -> Result<ReplyStage, AskFault>
    ensures ok { IfOk result (λ stage. (bytes head : List ℕ) → heard.splitter ≡ []
        → length message.now ≤ max_content_len
        → IsEnding call.method call.most bytes body.next body.more heard.statuses.items
        (frame 0 message.now)
        → StandsAt call.method call.most bytes head stage) }
    ensures bad { IsErrOf result AskFault.BadResponse
        → (bytes : List ℕ) → heard.splitter ≡ [] → length message.now ≤ max_content_len
        → IsEnding call.method call.most bytes body.next body.more heard.statuses.items
        (frame 0 message.now)
        → IsBad call.method call.most bytes }
    ensures faults { IfErr result IsOfResponse }
    ensures refused { (status : ℕ) → ¬ IsErrOf result (AskFault.Http status) }
    ensures grows { IfOk result (λ stage. (bytes : List ℕ) → length message.now ≤ max_content_len
        → IsEnding call.method call.most bytes body.next body.more heard.statuses.items
        (frame 0 message.now)
        → Grows call.method bytes heard.statuses.items (statuses_at stage)) }
    ensures fewer { IfOk result (λ stage. (len : ℕ)
        → owed_at len stage ≤ owed_by body.next body.more) }
{
    let status = match read_response(message) {
        Ok(status) => status,
        Err(_) => return Err(AskFault::BadResponse),
    };
    heard.statuses.push(status)?;
    if is_enough(call, heard.statuses.len()) {
        return Ok(ReplyStage::Told(Told {
            statuses: heard.statuses,
            end: None,
        }));
    }
    settled(call, body, heard)
}

/// What is told with the frame of trailers, behind which nothing may stand: PROTOCOL-WEB.md of grpc has them last in the body.
fn with_trailers(
    call: Wanted,
    body: &ResponseBody,
    statuses: Vec<u64>,
    block: &[u8],
) -> Result<ReplyStage, AskFault>
    ensures ok { IfOk result (λ stage. (bytes head : List ℕ) → length block.now ≤ max_content_len
        → IsEnding call.method call.most bytes body.now.next body.now.more statuses.items
        (frame 128 block.now)
        → StandsAt call.method call.most bytes head stage) }
    ensures bad { IsErrOf result AskFault.BadResponse → (bytes : List ℕ)
        → length block.now ≤ max_content_len
        → IsEnding call.method call.most bytes body.now.next body.now.more statuses.items
        (frame 128 block.now)
        → IsBad call.method call.most bytes }
    ensures faults { IfErr result IsOfResponse }
    ensures refused { (status : ℕ) → ¬ IsErrOf result (AskFault.Http status) }
    ensures same { IfOk result (λ stage. statuses_at stage ≡ statuses.items) }
    ensures fewer { IfOk result (λ stage. (len : ℕ) → owed_at len stage ≡ 0) }
{
    if body.has_left() {
        return Err(AskFault::BadResponse);
    }
    match read_trailers(block) {
        Ok(trailers) => Ok(ReplyStage::Told(Told {
            statuses,
            end: Some(Ended {
                code: trailers.code,
                text: trailers.text.to_vec(call.alloc)?,
            }),
        })),
        Err(_) => Err(AskFault::BadResponse),
    }
}

/// What is told with a frame, which is all that came behind the statuses.
fn with_frame(
    call: Wanted,
    body: ResponseBody,
    heard: Heard,
    taken: &Frame,
) -> Result<ReplyStage, AskFault>
    requires { taken.now.flag ≢ 0 → taken.now.flag ≡ 128 }
    ensures ok { IfOk result (λ stage. (bytes head : List ℕ) → heard.splitter ≡ []
        → length taken.now.body.items ≤ max_content_len
        → IsEnding call.method call.most bytes body.next body.more heard.statuses.items
        (frame taken.now.flag taken.now.body.items)
        → StandsAt call.method call.most bytes head stage) }
    ensures bad { IsErrOf result AskFault.BadResponse
        → (bytes : List ℕ) → heard.splitter ≡ [] → length taken.now.body.items ≤ max_content_len
        → IsEnding call.method call.most bytes body.next body.more heard.statuses.items
        (frame taken.now.flag taken.now.body.items)
        → IsBad call.method call.most bytes }
    ensures faults { IfErr result IsOfResponse }
    ensures refused { (status : ℕ) → ¬ IsErrOf result (AskFault.Http status) }
    ensures grows { IfOk result (λ stage. (bytes : List ℕ)
        → length taken.now.body.items ≤ max_content_len
        → IsEnding call.method call.most bytes body.next body.more heard.statuses.items
        (frame taken.now.flag taken.now.body.items)
        → Grows call.method bytes heard.statuses.items (statuses_at stage)) }
    ensures fewer { IfOk result (λ stage. (len : ℕ)
        → owed_at len stage ≤ owed_by body.next body.more) }
{
    if taken.flag == MESSAGE {
        with_message(call, body, heard, &taken.body)
    } else {
        with_trailers(call, &body, heard.statuses, &taken.body)
    }
}

/// What is told with more content.
pub(super) fn with_content(
    call: Wanted,
    body: ResponseBody,
    mut heard: Heard,
    piece: &[u8],
) -> Result<ReplyStage, AskFault>
    requires { length piece.now ≤ missing_in heard.splitter }
    ensures ok { IfOk result (λ stage. (bytes head : List ℕ) → BeginsWithNoFrame heard.splitter
        → IsEnding call.method call.most bytes body.next body.more
        heard.statuses.items (heard.splitter ++ piece.now)
        → StandsAt call.method call.most bytes head stage) }
    ensures bad { IsErrOf result AskFault.BadResponse → (bytes : List ℕ)
        → BeginsWithNoFrame heard.splitter
        → IsEnding call.method call.most bytes body.next body.more
        heard.statuses.items (heard.splitter ++ piece.now)
        → IsBad call.method call.most bytes }
    ensures faults { IfErr result IsOfResponse }
    ensures refused { (status : ℕ) → ¬ IsErrOf result (AskFault.Http status) }
    ensures grows { IfOk result (λ stage. (bytes : List ℕ) → BeginsWithNoFrame heard.splitter
        → IsEnding call.method call.most bytes body.next body.more
        heard.statuses.items (heard.splitter ++ piece.now)
        → Grows call.method bytes heard.statuses.items (statuses_at stage)) }
    ensures fewer { IfOk result (λ stage. (len : ℕ)
        → owed_at len stage ≤ owed_by body.next body.more) }
{
    let taken = match next_frame(&mut heard.splitter, piece, body.more) {
        Ok(taken) => taken,
        Err(fault) => return Err(fault),
    };
    match taken {
        Some(taken) => with_frame(call, body, heard, &taken),
        None => settled(call, body, heard),
    }
}
