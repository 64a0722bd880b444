ghost use Rattle.std.specs.Prelude.{◌≡◌, ◌≢◌, ◌≤◌, ◌-◌, ◌+◌, ◌⊎◌, ◌++◌, [], ℕ, List, Option, Some, true, false, cond, not, length, IfOk, IfErr, OnOk};
ghost use Rattle.std.specs.Bool.{OnTrue, OnFalse};
ghost use Rattle.std.specs.Io.KnownBytes.{Appends, Consumes, IsAtEnd};
ghost use Rattle.desk_core.specs.declared.entry.Entry.{Entry};
ghost use Rattle.web_call.specs.declared.outcome.Outcome.{Outcome};
ghost use Rattle.web_call.specs.Answer.{IsAnswered, Sends, source_of};
ghost use Rattle.web_call.specs.Exchange.{HasEnded, Meets, ReadsCut, Starves};
ghost use Rattle.web_call.specs.InputHead.{IsHead};
ghost use Rattle.web_call.specs.Past.{Carries, CarriesFor, with_asked, with_received, with_sent};
ghost use Rattle.web_call.specs.Pieces.{Piece, text_of, IsCut};
ghost use Rattle.web_call.specs.Stages.{being_sent, ending_of, ends_watch, is_answered, is_open, is_starved, is_watching, to_send};
ghost use Rattle.web_call.specs.Tap.{tap_inner, tap_failed, tap_idle};
ghost use Rattle.web_call.specs.Walk.{AsksDoor};

use crate::bell::{Bell, Turn};
use crate::call::Call;
use crate::door::Door;
use crate::outcome::Outcome;
use crate::tap::Tap;
use std::alloc::Global;
use std::io::{Read, Write};

/// The most bytes that a read asks for.
const BUFFER_LEN: usize = 512;

/// What one exchange may cost.
#[derive(Clone, Copy)]
pub struct Limits {
    /// The most Looks that a Watch takes.
    pub looks: u32,
}

/// Why an exchange failed.
#[derive(Clone, Copy, Debug, PartialEq, Eq)]
pub enum Why {
    /// A read returned an error, or the input ended before the request was whole.
    Read = 1,
    /// A write or a flush returned an error, or a write took no byte.
    Write = 2,
    /// Memory ran out, before anything was written.
    NoMemory = 3,
}

/// An exchange that failed, and how many message and trailer frames went out whole by then.
#[derive(Clone, Copy, Debug, PartialEq, Eq)]
pub struct ExchangeFault {
    pub why: Why,
    pub frames: u32,
}

impl ExchangeFault {
    ghost use Rattle.std.specs.Prelude.{◌≡◌};

    fn read() -> ExchangeFault
        ensures { result ≡ record { why = Why.Read; frames = 0 } }
    {
        ExchangeFault {
            why: Why::Read,
            frames: 0,
        }
    }

    fn no_memory() -> ExchangeFault
        ensures { result ≡ record { why = Why.NoMemory; frames = 0 } }
    {
        ExchangeFault {
            why: Why::NoMemory,
            frames: 0,
        }
    }

    fn write(frames: u32) -> ExchangeFault
        ensures { result ≡ record { why = Why.Write; frames = frames } }
    {
        ExchangeFault {
            why: Why::Write,
            frames,
        }
    }
}

/// Reads what the call wants, and none behind it. It is false at an error of any kind, and where the input ends before.
fn receive<R: Read>(alloc: Global, reader: &mut Tap<R>, call: &mut Call) -> bool
    requires { is_open call.old ≡ true }
    ensures received { (bytes : List ℕ)
        × Consumes (R.remaining (tap_inner reader.old)) (R.remaining (tap_inner reader.new)) bytes
        × Carries call.old call.new (with_received bytes) }
    ensures kept { OnTrue result (tap_failed reader.new ≡ tap_failed reader.old) }
    ensures idle { tap_idle reader.new ≡ tap_idle reader.old }
    ensures cause { OnFalse result ((tap_failed reader.new ≡ true)
        ⊎ IsAtEnd (R.remaining (tap_inner reader.new))) }
    ensures ends { OnTrue result (is_open call.new ≡ false) }
    ensures is_open { OnFalse result (is_open call.new ≡ true) }
    ensures unanswered { is_answered call.new ≡ is_answered call.old }
{
    let mut buffer = [0u8; BUFFER_LEN];
    while call.wanted() > 0 {
        let room = call.wanted().min(BUFFER_LEN);
        let Ok(count) = reader.read(&mut buffer[..room]) else {
            return false;
        };
        if count == 0 {
            return false;
        }
        call.give(alloc, &buffer[..count]);
    }
    true
}

/// Answers the request, unless the allocation for it failed.
fn reply<D: Door>(alloc: Global, door: &mut D, call: &mut Call)
    requires read { is_open call.old ≡ false }
    requires unanswered { is_answered call.old ≡ false }
    ensures asked { (asked : List (List Entry)) × (length asked ≤ 1)
        × AsksDoor D.seen D.follows door.old door.new asked
        × CarriesFor (source_of (D.names door.old) D.kept D.is_plain) call.old call.new
        (with_asked asked) }
    ensures ready { is_answered call.new ≡ not (is_starved call.new) }
    ensures no_end { ends_watch (ending_of call.new) ≡ false }
    ensures names { D.names door.new ≡ D.names door.old }
    ensures stays { D.stays door.old door.new }
{
    if call.is_whole() {
        call.answer(alloc, door);
    }
}

/// Writes what the call has to send, and flushes it; where that is nothing, it does neither. It is false at an error of any
/// kind, and at a write that takes no byte.
fn send<W: Write>(writer: &mut Tap<W>, call: &mut Call) -> bool
    ensures sent { (bytes : List ℕ)
        × Appends (W.contents (tap_inner writer.old)) (W.contents (tap_inner writer.new)) bytes
        × Carries call.old call.new (with_sent bytes) }
    ensures kept { OnTrue result (tap_failed writer.new ≡ tap_failed writer.old) }
    ensures failed { OnFalse result (tap_failed writer.new ≡ true) }
    ensures idle { tap_idle writer.new ≡ tap_idle writer.old }
    ensures all { OnTrue result (to_send call.new ≡ []) }
    ensures some { OnFalse result (being_sent call.new ≢ []) }
    ensures watching { is_watching call.new ≡ is_watching call.old }
    ensures ending { ending_of call.new ≡ ending_of call.old }
    ensures answered { is_answered call.new ≡ is_answered call.old }
{
    if call.to_send().is_empty() {
        return true;
    }
    while !call.to_send().is_empty() {
        let Ok(count) = writer.write(call.to_send()) else {
            return false;
        };
        if count == 0 {
            return false;
        }
        call.sent(count);
    }
    writer.flush().is_ok()
}

/// Looks, where there may be a Look more and the bell gives one, or else ends the Watch, which a Look ends too that finds it behind. It
/// tells how many Looks there were.
fn step<D: Door, B: Bell>(door: &mut D, bell: &mut B, call: &mut Call, had: u32, looks: u32) -> u32
    requires told { (is_watching call.old ≡ true) × (to_send call.old ≡ []) }
    requires most { had ≤ looks }
    ensures asked { (more : List (List Entry)) × AsksDoor D.seen D.follows door.old door.new more
        × CarriesFor (source_of (D.names door.old) D.kept D.is_plain) call.old call.new
        (with_asked more)
        × (result ≡ had + length more) × (B.given bell.new ≡ B.given bell.old + length more) }
    ensures most { result ≤ looks }
    ensures goes_on { is_watching call.new ≡ true → result ≡ had + 1 }
    ensures answered { is_answered call.new ≡ true }
    ensures ends { is_watching call.new ≡ false → (messages : ℕ)
        × (((ending_of call.new ≡ Some (Outcome.Watched messages))
        × HasEnded result looks (B.is_over bell.new))
        ⊎ (ending_of call.new ≡ Some (Outcome.Behind messages))) }
    ensures names { D.names door.new ≡ D.names door.old }
    ensures stays { D.stays door.old door.new }
{
    if had < looks && bell.wait() == Turn::Look {
        call.look(door);
        had + 1
    } else {
        call.end();
        had
    }
}

/// Reads one request, answers it, and is done: every response says `connection: close`.
///
/// The head is read with a call of `read` for each byte, so that all behind the request stays unread: a reader for which calls
/// are dear has to be buffered. The writer is flushed after the last byte, and in a Watch after each message too. An error of any
/// kind ends the exchange at once, `Interrupted` too. It waits where the reader, the writer, the door or the bell does. Memory is
/// taken for the head, the body and the response, and none after the first byte is written. No read and no write of its own is of an
/// empty buffer. Neither tap may have failed or been idle before, or they say nothing of this exchange.
pub fn exchange<R: Read, W: Write, D: Door, B: Bell>(
    alloc: Global,
    reader: &mut Tap<R>,
    writer: &mut Tap<W>,
    door: &mut D,
    bell: &mut B,
    limits: Limits,
) -> Result<Outcome, ExchangeFault>
    // The request was read to its end and no further, and its whole answer was written.
    ensures ok { IfOk result (λ outcome.
        (head body : List ℕ) × (asked : List (List Entry)) × (pieces : List Piece) × IsHead head
        × Consumes (R.remaining (tap_inner reader.old)) (R.remaining (tap_inner reader.new))
        (head ++ body)
        × Meets D.seen D.follows B.given B.is_over limits.looks door.old door.new bell.old bell.new
        asked (Some outcome)
        × IsAnswered (record {
          source = source_of (D.names door.old) D.kept D.is_plain;
          asked = asked;
          head = head;
          body = body;
        }) pieces outcome
        × Appends (W.contents (tap_inner writer.old)) (W.contents (tap_inner writer.new))
        (text_of pieces)) }
    ensures kept { OnOk result ((tap_failed reader.new ≡ tap_failed reader.old)
        × (tap_failed writer.new ≡ tap_failed writer.old)) }

    // The reader failed, or ended within the request: nothing was written, and nobody was asked.
    ensures read { IfErr result (λ fault. fault.why ≡ Why.Read → (fault.frames ≡ 0)
        × ((tap_failed reader.new ≡ true) ⊎ IsAtEnd (R.remaining (tap_inner reader.new)))
        × ReadsCut (R.remaining (tap_inner reader.old)) (R.remaining (tap_inner reader.new))
        × (writer.new ≡ writer.old) × (door.new ≡ door.old) × (bell.new ≡ bell.old)) }

    // Memory was wanted for the head, before anything was read, for the body or for the response, and nothing was written.
    ensures no_memory { IfErr result (λ fault. fault.why ≡ Why.NoMemory → (fault.frames ≡ 0)
        × Starves D.is_plain D.seen D.follows door.old door.new
        (R.remaining (tap_inner reader.old)) (R.remaining (tap_inner reader.new))
        × (writer.new ≡ writer.old) × (bell.new ≡ bell.old)
        × (tap_failed reader.new ≡ tap_failed reader.old)) }

    // The writer failed: of the answer, as far as its turns went, a front was written.
    ensures write { IfErr result (λ fault. fault.why ≡ Why.Write → (tap_failed writer.new ≡ true)
        × (tap_failed reader.new ≡ tap_failed reader.old)
        × ((head body : List ℕ) × (asked : List (List Entry)) × (done part : List Piece)
        × (ending : Option Outcome) × IsHead head
        × Consumes (R.remaining (tap_inner reader.old)) (R.remaining (tap_inner reader.new))
        (head ++ body)
        × Meets D.seen D.follows B.given B.is_over limits.looks door.old door.new bell.old bell.new
        asked ending
        × Sends (record {
          source = source_of (D.names door.old) D.kept D.is_plain;
          asked = asked;
          head = head;
          body = body;
        }) done part ending
        × (part ≢ [])
        × IsCut done part (W.contents (tap_inner writer.old)) (W.contents (tap_inner writer.new))
        fault.frames)) }

    ensures idle { (tap_idle reader.new ≡ tap_idle reader.old)
        × (tap_idle writer.new ≡ tap_idle writer.old) }
    ensures looks { B.given bell.new ≤ B.given bell.old + limits.looks }
    ensures names { D.names door.new ≡ D.names door.old }
    ensures stays { D.stays door.old door.new }
{
    let Ok(mut call) = Call::new(alloc) else {
        return Err(ExchangeFault::no_memory());
    };
    if !receive(alloc, reader, &mut call) {
        return Err(ExchangeFault::read());
    }
    reply(alloc, door, &mut call);
    if call.is_starved() {
        return Err(ExchangeFault::no_memory());
    }
    let mut had = 0;
    let mut is_sent = send(writer, &mut call);
    while is_sent && call.is_watching() {
        had = step(door, bell, &mut call, had, limits.looks);
        is_sent = send(writer, &mut call);
    }
    match call.outcome() {
        Some(outcome) if is_sent => Ok(outcome),
        _ => Err(ExchangeFault::write(call.frames())),
    }
}
