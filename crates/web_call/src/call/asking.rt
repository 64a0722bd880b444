ghost use Rattle.std.specs.Prelude.{◌≡◌, ◌≤◌, ◌⊎◌, ◌↔◌, ◌∷◌, ◌++◌, [], ℕ, List, length, true, false, not, Some, IfOk, IfSome, IsNone, IsSome};
ghost use Rattle.desk_core.specs.declared.entry.Entry.{Entry};
ghost use Rattle.web_call.specs.declared.call.CallStage.TheVariants as stages;
ghost use Rattle.plain.specs.Answer.{IsInquiryOf};
ghost use Rattle.plain.specs.Inquiry.{asked_of};
ghost use Rattle.web_call.specs.Head.{IsHeaded, is_too_large};
ghost use Rattle.web_call.specs.HeadAnswer.{Asked};
ghost use Rattle.web_call.specs.Outgoing.{GoesOut};
ghost use Rattle.web_call.specs.declared.outgoing.Outgoing.{Outgoing};
ghost use Rattle.web_call.specs.Past.{Past, Carries, CarriesFor, IsReading, Stands, with_asked};
ghost use Rattle.web_call.specs.Reading.{is_whole as is_whole_reading};
ghost use Rattle.web_call.specs.Pieces.{Piece};
ghost use Rattle.web_call.specs.Request.{IsRequested};
ghost use Rattle.web_call.specs.Stages.{IsLeftBehind, IsPast, is_whole, is_watching, is_answered, is_starved, ends_watch, ending_of, to_send};
ghost use Rattle.web_call.specs.Answer.{IsOfCall, check_code, source_of};
ghost use Rattle.web_call.specs.Text.{IsTextOf};
ghost use Rattle.web_call.specs.ResponseTexts.{watch_end};
ghost use Rattle.web_call.specs.Walk.{AsksDoor};

use super::{Call, CallStage};
use crate::ask::{Ask, ask_of};
use crate::door::Door;
use crate::head::{Headed, head_of, is_too_large};
use crate::intake::Intake;
use crate::method::Method;
use crate::outcome::Outcome;
use crate::outgoing::Outgoing;
use crate::text::Text;
use desk_core::Behind;
use grpc_frame::Code;
use health_wire::Serving;
use plain::{Inquiry, inquiry_of};
use std::alloc::{AllocError, Global};

/// A call that ends with this text, or one for which an allocation failed.
fn last(text: Result<Text, AllocError>, outcome: Outcome) -> Call
    ensures told { (part : List Piece) → IfOk text (λ made. IsTextOf made part)
        → ((result.stage ≡ stages.Ending outcome) × GoesOut result.outgoing [] part [])
        ⊎ ((result.stage ≡ stages.Starved) × GoesOut result.outgoing [] [] []) }
    ensures ready { is_answered result ≡ not (is_starved result) }
    ensures no_end { ends_watch (Some outcome) ≡ false → ends_watch (ending_of result) ≡ false }
{
    match text {
        Ok(text) => Call {
            stage: CallStage::Ending(outcome),
            outgoing: Outgoing::new(text),
        },
        Err(_) => starved(),
    }
}

/// A call for which an allocation failed.
fn starved() -> Call
    ensures stage { result.stage ≡ stages.Starved }
    ensures goes { GoesOut result.outgoing [] [] [] }
{
    Call {
        stage: CallStage::Starved,
        outgoing: Outgoing::new(Text::none()),
    }
}

fn check_code(status: Option<Serving>) -> Code
    ensures { result ≡ check_code status }
{
    match status {
        Some(_) => Code::Ok,
        None => Code::NotFound,
    }
}

/// A call whose request has this method and this body.
fn answer_body<D: Door>(alloc: Global, door: &mut D, method: Method, body: &[u8]) -> Call
    ensures asked { (asked : List (List Entry)) × (length asked ≤ 1)
        × AsksDoor D.seen D.follows door.old door.new asked
        × ((head received : List ℕ) → IsOfCall D.is_plain head → IsRequested head body.now received
        → IsHeaded head (Asked method (length body.now))
        → Stands (source_of (D.names door.old) D.kept D.is_plain)
        (record { received = received; sent = []; asked = asked }) result) }
    ensures ready { is_answered result ≡ not (is_starved result) }
    ensures no_end { ends_watch (ending_of result) ≡ false }
    ensures names { D.names door.new ≡ D.names door.old }
    ensures stays { D.stays door.old door.new }
{
    match ask_of(method, body) {
        Ask::Status(code, text) => last(Text::status(alloc, code, text), Outcome::Status(code)),
        Ask::Check(name) => {
            let status = door.check(name);
            last(
                Text::check(alloc, status),
                Outcome::Status(check_code(status)),
            )
        }
        Ask::Watch(name) => {
            let (watch, status) = door.open(name);
            Call {
                stage: CallStage::Watching(watch),
                outgoing: Outgoing::new(Text::first(status)),
            }
        }
    }
}

/// What the head of a request asks plainly, at a door that answers such requests.
fn plain_of<'a, D: Door>(door: &D, head: &'a [u8]) -> Option<Inquiry<'a>>
    ensures call { IsNone result → IsOfCall D.is_plain head.now }
    ensures plain { IsSome result → D.is_plain ≡ true }
    ensures within { IsSome result → is_too_large head.now ≡ false }
    ensures asked { IfSome result (λ inquiry. IsInquiryOf head.now (asked_of inquiry)) }
{
    if !door.answers_plainly() || is_too_large(head) {
        return None;
    }
    inquiry_of(head)
}

/// A call whose request is plain, and whole.
fn answer_plainly<D: Door>(alloc: Global, door: &mut D, inquiry: &Inquiry<'_>) -> Call
    requires { D.is_plain ≡ true }
    ensures asks { AsksDoor D.seen D.follows door.old door.new (D.seen door.new ∷ []) }
    ensures stands { (head received : List ℕ) → IsInquiryOf head (asked_of inquiry.now)
        → is_too_large head ≡ false → IsRequested head [] received
        → Stands (source_of (D.names door.old) D.kept D.is_plain)
        (record { received = received; sent = []; asked = D.seen door.new ∷ [] }) result }
    ensures ready { is_answered result ≡ not (is_starved result) }
    ensures no_end { ends_watch (ending_of result) ≡ false }
    ensures names { D.names door.new ≡ D.names door.old }
    ensures stays { D.stays door.old door.new }
{
    match door.tell(alloc, inquiry) {
        Ok(text) => Call {
            stage: CallStage::Ending(Outcome::Plain),
            outgoing: Outgoing::new(Text::plain(text)),
        },
        Err(_) => starved(),
    }
}

/// A call whose request this is, which is whole.
fn answer_request<D: Door>(alloc: Global, door: &mut D, intake: &Intake) -> Call
    requires { is_whole_reading intake.now.reading ≡ true }
    ensures asked { (asked : List (List Entry)) × (length asked ≤ 1)
        × AsksDoor D.seen D.follows door.old door.new asked
        × ((past : Past) (outgoing : Outgoing) → IsReading past intake.now outgoing
        → Stands (source_of (D.names door.old) D.kept D.is_plain) (with_asked asked past) result) }
    ensures ready { is_answered result ≡ not (is_starved result) }
    ensures no_end { ends_watch (ending_of result) ≡ false }
    ensures names { D.names door.new ≡ D.names door.old }
    ensures stays { D.stays door.old door.new }
{
    let head = intake.head();
    if let Some(inquiry) = plain_of(door, head) {
        return answer_plainly(alloc, door, &inquiry);
    }
    match head_of(head) {
        Headed::Http(http) => last(Text::refusal(alloc, http), Outcome::Http(http)),
        Headed::Status(code, text) => last(Text::status(alloc, code, text), Outcome::Status(code)),
        Headed::Body { method, .. } => answer_body(alloc, door, method, intake.body()),
    }
}

impl Call {
    /// Answers the request, which is whole: asks the door once for a Check or a Watch, and nobody where the request is refused.
    pub fn answer<D: Door>(&mut self, alloc: Global, door: &mut D)
        requires { is_whole self.old ≡ true }
        ensures asked { (asked : List (List Entry)) × (length asked ≤ 1)
            × AsksDoor D.seen D.follows door.old door.new asked
            × CarriesFor (source_of (D.names door.old) D.kept D.is_plain) self.old self.new
            (with_asked asked) }
        ensures ready { is_answered self.new ≡ not (is_starved self.new) }
        ensures no_end { ends_watch (ending_of self.new) ≡ false }
        ensures names { D.names door.new ≡ D.names door.old }
        ensures stays { D.stays door.old door.new }
    {
        let CallStage::Reading(intake) = &self.stage else {
            unreachable!()
        };
        let call = answer_request(alloc, door, intake);
        *self = call;
    }

    /// Takes a step of the Watch, where all is sent that it was told so far, and has what the step answers to send. A Watch that is
    /// behind is ended, and has its trailers to send.
    pub fn look<D: Door>(&mut self, door: &mut D)
        requires { (is_watching self.old ≡ true) × (to_send self.old ≡ []) }
        ensures asks { AsksDoor D.seen D.follows door.old door.new (D.seen door.new ∷ []) }
        ensures looked { CarriesFor (source_of (D.names door.old) D.kept D.is_plain) self.old self.new
            (with_asked (D.seen door.new ∷ [])) }
        ensures rests { is_watching self.new ≡ true → to_send self.new ≡ []
            → IsPast (D.seen door.new) self.new }
        ensures behind { is_watching self.new ≡ false
            ↔ IsLeftBehind D.kept (D.seen door.new) self.old }
        ensures ended { is_watching self.new ≡ false → (messages : ℕ)
            × (ending_of self.new ≡ Some (Outcome.Behind messages)) }
        ensures answered { is_answered self.new ≡ true }
        ensures names { D.names door.new ≡ D.names door.old }
        ensures stays { D.stays door.old door.new }
    {
        let CallStage::Watching(watch) = &mut self.stage else {
            unreachable!()
        };
        match door.step(watch) {
            Ok(answer) => self.outgoing.follow(Text::told(answer)),
            Err(Behind) => {
                let messages = self.frames();
                self.close(Outcome::Behind { messages });
            }
        }
    }

    /// Ends the Watch, where all is sent that it was told, and has its trailers to send.
    pub fn end(&mut self)
        requires watching { is_watching self.old ≡ true }
        requires told { to_send self.old ≡ [] }
        ensures ended { Carries self.old self.new (λ past. past) }
        ensures outcome { (messages : ℕ) × (ending_of self.new ≡ Some (Outcome.Watched messages)) }
        ensures answered { is_answered self.new ≡ true }
    {
        let messages = self.frames();
        self.close(Outcome::Watched { messages });
    }

    /// Has the trailers of a Watch to send, and ends so.
    fn close(&mut self, outcome: Outcome)
        requires { to_send self.old ≡ [] }
        ensures stage { self.new.stage ≡ stages.Ending outcome }
        ensures goes { (done part : List Piece) (sent : List ℕ)
            → GoesOut self.old.outgoing done part sent
            → GoesOut self.new.outgoing (done ++ part) watch_end sent }
    {
        self.outgoing.follow(Text::end());
        self.stage = CallStage::Ending(outcome);
    }
}
