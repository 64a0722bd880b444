ghost use Rattle.std.specs.Prelude.{None, ◌≡◌, ◌≤◌, ◌<◌, ◌⊎◌, [], ◌∷◌, ◌++◌, ℕ, List, true, false, nat_le, ◌||◌, length, vec_len, IfOk, IfErr, IsErrOf};
ghost use Rattle.client.specs.declared.reply.ReplyStage.TheVariants as stages;
ghost use Rattle.client.specs.GrpcFrames.{missing_in};
ghost use Rattle.client.specs.Growth.{Grows};
ghost use Rattle.client.specs.Reply.{IsBad, IsGoingOn, IsOfResponse, IsRefused, IsTold};
ghost use Rattle.client.specs.ResponseBody.{is_content, owed_by, wanted_by};
ghost use Rattle.client.specs.Stages.{Holds, StandsAt, method_of, most_of, owed_at, owed_of, statuses_at, statuses_of, wanted_of};
ghost use Rattle.web_call.specs.InputHead.{IsHead, IsOpenHead, ends_blank};

use super::hearing::{settled, with_content};
use super::{Heard, Reading, Reply, ReplyStage, Wanted};
use crate::ask_fault::AskFault;
use crate::grpc_frames::missing_in;
use crate::http_framing::framing_of;
use crate::response_body::ResponseBody;
use crate::told::Told;
use grpc_frame::Splitter;
use std::alloc::{AllocError, Global};
use web_call::{HEAD_END, MAX_HEAD_LEN, Method};

/// What is known behind a whole head.
fn behind_head(call: Wanted, head: &[u8]) -> Result<ReplyStage, AskFault>
    ensures ok { IfOk result (λ stage. (other : List ℕ) → IsHead head.now
        → StandsAt call.method call.most head.now other stage) }
    ensures bad { IsErrOf result AskFault.BadResponse → IsHead head.now
        → IsBad call.method call.most head.now }
    ensures http { (status : ℕ) → IsErrOf result (AskFault.Http status) → IsHead head.now
        → IsRefused head.now status }
    ensures faults { IfErr result IsOfResponse }
    ensures none { IfOk result (λ stage. statuses_at stage ≡ []) }
    ensures fewer { IfOk result (λ stage. (len : ℕ) → owed_at len stage ≤ 73014444164) }
{
    let framing = match framing_of(call.method, head) {
        Ok(framing) => framing,
        Err(fault) => return Err(fault),
    };
    let heard = Heard {
        splitter: Splitter::new(call.alloc),
        statuses: Vec::new(call.alloc),
    };
    settled(call, ResponseBody::new(framing), heard)
}

/// What is known with more bytes of the body.
fn behind_body(call: Wanted, reading: Reading, piece: &[u8]) -> Result<ReplyStage, AskFault>
    requires some { 0 < length piece.now }
    requires body { length piece.now ≤ wanted_by reading.body.next }
    requires frame { is_content reading.body.next ≡ true
        → length piece.now ≤ missing_in reading.heard.splitter }
    ensures ok { IfOk result (λ stage. (bytes head : List ℕ)
        → IsGoingOn call.method call.most bytes reading.body.next reading.body.more
        reading.heard.statuses.items reading.heard.splitter
        → StandsAt call.method call.most (bytes ++ piece.now) head stage) }
    ensures bad { IsErrOf result AskFault.BadResponse → (bytes : List ℕ)
        → IsGoingOn call.method call.most bytes reading.body.next reading.body.more
        reading.heard.statuses.items reading.heard.splitter
        → IsBad call.method call.most (bytes ++ piece.now) }
    ensures faults { IfErr result IsOfResponse }
    ensures refused { (status : ℕ) → ¬ IsErrOf result (AskFault.Http status) }
    ensures grows { IfOk result (λ stage. (bytes : List ℕ)
        → IsGoingOn call.method call.most bytes reading.body.next reading.body.more
        reading.heard.statuses.items reading.heard.splitter
        → Grows call.method (bytes ++ piece.now) reading.heard.statuses.items (statuses_at stage)) }
    ensures fewer { IfOk result (λ stage. (len : ℕ)
        → owed_at len stage < owed_by reading.body.next reading.body.more) }
{
    let Reading { body, heard } = reading;
    let is_content = body.is_content();
    let body = match body.after(piece) {
        Ok(body) => body,
        Err(fault) => return Err(fault),
    };
    if is_content {
        with_content(call, body, heard, piece)
    } else {
        settled(call, body, heard)
    }
}

/// Whether so many bytes are all that is read as a head.
fn is_head(bytes: &[u8]) -> bool
    ensures value { result ≡ (nat_le 8192 (length bytes.now) || ends_blank bytes.now) }
    ensures short { result ≡ false → length bytes.now < 8192 }
{
    bytes.len() >= MAX_HEAD_LEN || bytes.ends_with(HEAD_END)
}

/// A response whose head has one more byte.
fn head_after(call: Wanted, mut head: Vec<u8>, byte: u8) -> Result<Reply, AskFault>
    ensures ok { IfOk result (λ reply. IsOpenHead head.items
        → Holds (head.items ++ byte ∷ []) reply) }
    ensures bad { IsErrOf result AskFault.BadResponse → IsOpenHead head.items
        → IsBad call.method call.most (head.items ++ byte ∷ []) }
    ensures http { (status : ℕ) → IsErrOf result (AskFault.Http status) → IsOpenHead head.items
        → IsRefused (head.items ++ byte ∷ []) status }
    ensures faults { IfErr result IsOfResponse }
    ensures call { IfOk result (λ reply.
        (method_of reply ≡ call.method) × (most_of reply ≡ call.most)) }
    ensures none { IfOk result (λ reply. statuses_of reply ≡ []) }
    ensures fewer { IfOk result (λ reply. owed_of reply < owed_at (length head.items) stages.Head) }
{
    head.push(byte)?;
    if !is_head(&head) {
        return Ok(Reply {
            call,
            head,
            stage: ReplyStage::Head,
        });
    }
    match behind_head(call, &head) {
        Ok(stage) => Ok(Reply { call, head, stage }),
        Err(fault) => Err(fault),
    }
}

impl Reply {
    /// A response of which nothing has come. A Check doesn't look at `most`.
    pub(crate) fn new(alloc: Global, method: Method, most: u32) -> Result<Reply, AllocError>
        requires { 1 ≤ most }
        ensures begun { IfOk result (λ reply. Holds [] reply) }
        ensures none { IfOk result (λ reply. statuses_of reply ≡ []) }
        ensures call { IfOk result (λ reply. (method_of reply ≡ method) × (most_of reply ≡ most)) }
    {
        Ok(Reply {
            call: Wanted {
                alloc,
                method,
                most,
            },
            head: Vec::with_capacity(alloc, MAX_HEAD_LEN)?,
            stage: ReplyStage::Head,
        })
    }

    /// How many bytes it takes at once, at most: none once all is told.
    pub(crate) fn wanted(&self) -> usize
        ensures { result ≡ wanted_of self.now }
    {
        match &self.stage {
            ReplyStage::Head => 1,
            ReplyStage::Body(reading) => {
                let wanted = reading.body.wanted();
                if reading.body.is_content() {
                    wanted.min(missing_in(reading.heard.splitter.rest()))
                } else {
                    wanted
                }
            }
            ReplyStage::Told(_) => 0,
        }
    }

    /// The response with these bytes, or the fault that they show.
    pub(crate) fn give(self, piece: &[u8]) -> Result<Reply, AskFault>
        requires some { 0 < length piece.now }
        requires within { length piece.now ≤ wanted_of self }
        ensures ok { IfOk result (λ reply. (bytes : List ℕ)
            → Holds bytes self → Holds (bytes ++ piece.now) reply) }
        ensures bad { IsErrOf result AskFault.BadResponse → (bytes : List ℕ)
            → Holds bytes self → IsBad (method_of self) (most_of self) (bytes ++ piece.now) }
        ensures http { (status : ℕ) → IsErrOf result (AskFault.Http status) → (bytes : List ℕ)
            → Holds bytes self → IsRefused (bytes ++ piece.now) status }
        ensures faults { IfErr result IsOfResponse }
        ensures call { IfOk result (λ reply.
            (method_of reply ≡ method_of self) × (most_of reply ≡ most_of self)) }
        ensures grows { IfOk result (λ reply. (bytes : List ℕ) → Holds bytes self
            → Grows (method_of self) (bytes ++ piece.now) (statuses_of self) (statuses_of reply)) }
        ensures fewer { IfOk result (λ reply. owed_of reply < owed_of self) }
    {
        let Reply { call, head, stage } = self;
        match stage {
            ReplyStage::Head => head_after(call, head, piece[0]),
            ReplyStage::Body(reading) => match behind_body(call, reading, piece) {
                Ok(stage) => Ok(Reply { call, head, stage }),
                Err(fault) => Err(fault),
            },
            ReplyStage::Told(_) => unreachable!(),
        }
    }

    /// The statuses that it has told so far.
    pub(crate) fn statuses(&self) -> &[u64]
        ensures { result.now ≡ statuses_of self.now }
    {
        match &self.stage {
            ReplyStage::Head => &[],
            ReplyStage::Body(reading) => &reading.heard.statuses,
            ReplyStage::Told(told) => &told.statuses,
        }
    }

    /// What it has told so far, where it is left.
    pub(crate) fn leave(self) -> Told
        ensures statuses { result.statuses.items ≡ statuses_of self }
        ensures end { result.end ≡ None }
    {
        let Reply {
            call,
            head: _,
            stage,
        } = self;
        let statuses = match stage {
            ReplyStage::Head => Vec::new(call.alloc),
            ReplyStage::Body(reading) => reading.heard.statuses,
            ReplyStage::Told(told) => told.statuses,
        };
        Told {
            statuses,
            end: None,
        }
    }

    /// What it told.
    pub(crate) fn into_told(self) -> Told
        requires { wanted_of self ≡ 0 }
        ensures told { (bytes : List ℕ) → Holds bytes self
            → IsTold (method_of self) (most_of self) bytes result.statuses.items result.end }
        ensures statuses { result.statuses.items ≡ statuses_of self }
    {
        let Reply {
            call: _,
            head: _,
            stage,
        } = self;
        match stage {
            ReplyStage::Told(told) => told,
            ReplyStage::Head => unreachable!(),
            ReplyStage::Body(_) => unreachable!(),
        }
    }
}
