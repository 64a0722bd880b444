ghost use Rattle.std.specs.Prelude.{◌≡◌, ◌≢◌, ◌≤◌, ◌<◌, ◌↔◌, ℕ, List, [], length, true, IfSome, IfNone};
ghost use Rattle.std.specs.Bool.{OnTrue, OnFalse};
ghost use Rattle.std.specs.Io.KnownBytes.{Appends, Consumes};
ghost use Rattle.reactor.specs.Link.{link_reads, link_stream, link_writes, has_stopped};
ghost use Rattle.reactor.specs.Moved.{Moved, followed_by, only_ended, only_sent};
ghost use Rattle.reactor.specs.Turn.{FindsEnd, HasMoved, HasRead, HasWorked, Leaves, LeavesAt, fate_of, stepped};

use crate::host::{Host, Step};
use crate::link::{Last, Link};
use crate::machine::Machine;
use crate::past::{Part, Past};
use crate::stream::Stream;
use std::alloc::Global;
use web_call::{Turn, Why};

/// The most pieces of work that a turn does before it gives way: a read, a write, or a step of the host.
const MOST: usize = 64;

/// How a turn leaves its machine.
#[derive(Clone, Copy, Debug, PartialEq, Eq)]
pub enum Fate {
    /// It waits: for a byte, for room to write, or for a change.
    Rests,
    /// It may go on at once, and gives way to others.
    GoesOn,
    /// All is answered and sent.
    Done,
    /// It can't go on.
    GivenUp(Why),
}

/// A turn of a machine.
#[derive(Clone, Copy)]
pub struct Turned {
    /// How it leaves the machine.
    pub fate: Fate,
    /// Whether bytes came behind what the machine takes, which were thrown away.
    pub is_followed: bool,
}

/// What a piece of work came to.
#[derive(Clone, Copy)]
enum Piece {
    /// There may be more to do at once.
    Went,
    /// The same, and bytes came behind what the machine takes.
    Followed,
    /// There is nothing more to do in this turn.
    Stops(Fate),
}

/// The fate of a machine that wants to read or to write.
fn fate_of(why: Why, last: Last) -> Fate
    ensures { result ≡ fate_of why last }
{
    match last {
        Last::Waits => Fate::Rests,
        Last::Went | Last::Interrupted => Fate::GoesOn,
        Last::Ended | Last::Failed => Fate::GivenUp(why),
    }
}

/// Writes once, and tells whether bytes went.
fn send_some<S: Stream, M: Machine>(link: &mut Link<S>, machine: &mut M, past: &mut Past) -> bool
    requires { M.waiting machine.old ≢ [] }
    ensures sent { OnTrue result ((sent : List ℕ) × (0 < length sent)
        × Appends (S.contents (link_stream link.old)) (S.contents (link_stream link.new)) sent
        × M.moves machine.old machine.new (only_sent sent)
        × (past.new.moved ≡ followed_by past.old.moved (only_sent sent))) }
    ensures stopped { OnFalse result ((machine.new ≡ machine.old) × (past.new ≡ past.old)
        × (has_stopped (link_writes link.new) ≡ true)
        × Appends (S.contents (link_stream link.old)) (S.contents (link_stream link.new)) []) }
    ensures reads { link_reads link.new ≡ link_reads link.old }
    ensures remaining { S.remaining (link_stream link.new) ≡ S.remaining (link_stream link.old) }
{
    let bytes = machine.to_send();
    let Some(count) = link.write(bytes) else {
        return false;
    };
    *past = past.and(&Part::Sent(&bytes[..count]));
    machine.sent(count);
    true
}

/// Reads once, and gives the machine what is its own. It tells whether bytes stand behind that; none where it has stopped.
fn read_some<S: Stream, M: Machine>(
    alloc: Global,
    link: &mut Link<S>,
    machine: &mut M,
    past: &mut Past,
    buffer: &mut [u8],
) -> Option<bool>
    requires room { 0 < length buffer.old }
    requires takes { 0 < M.takes machine.old }
    ensures read { IfSome result (λ is_followed. (bytes : List ℕ) × (behind : ℕ)
        × HasRead (S.remaining (link_stream link.old)) (S.remaining (link_stream link.new))
        M.moves M.is_closed machine.old machine.new past.old.moved past.new.moved bytes behind
        × ((is_followed ≡ true) ↔ (0 < behind)) × (behind ≤ length buffer.old)) }
    ensures stopped { IfNone result ((machine.new ≡ machine.old) × (past.new ≡ past.old)
        × (has_stopped (link_reads link.new) ≡ true)
        × Consumes (S.remaining (link_stream link.old)) (S.remaining (link_stream link.new)) []) }
    ensures ended { FindsEnd S.remaining link.new }
    ensures writes { link_writes link.new ≡ link_writes link.old }
    ensures contents { S.contents (link_stream link.new) ≡ S.contents (link_stream link.old) }
    ensures len { length buffer.new ≡ length buffer.old }
{
    let most = machine.room().min(buffer.len());
    let count = link.read(&mut buffer[..most])?;
    let taken = machine.give(alloc, &buffer[..count]);
    *past = past.and(&Part::Read(&buffer[..count], count - taken));
    Some(taken < count)
}

/// What there is to do where a read has stopped: a machine that goes on without more bytes goes on.
fn stop_reading<M: Machine>(last: Last, machine: &mut M, past: &mut Past) -> Piece
    requires stopped { has_stopped last ≡ true }
    requires takes { 0 < M.takes machine.old }
    ensures went { result ≡ Piece.Went
        → (last ≡ Last.Ended) × M.moves machine.old machine.new only_ended
        × (past.new.moved ≡ followed_by past.old.moved only_ended) }
    ensures stops { result ≢ Piece.Went
        → (machine.new ≡ machine.old) × (past.new ≡ past.old)
        × (result ≡ Piece.Stops (fate_of Why.Read last)) }
{
    if last == Last::Ended && machine.end_input() {
        *past = past.and(&Part::Ended);
        return Piece::Went;
    }
    Piece::Stops(fate_of(Why::Read, last))
}

/// Has the host take a step.
fn take_step<M: Machine, H: Host<M>>(
    alloc: Global,
    host: &mut H,
    machine: &mut M,
    past: &mut Past,
    then: Turn,
) -> Step
    requires { M.waiting machine.old ≡ [] }
    ensures goes { H.goes then host.old host.new machine.old machine.new
        (stepped (H.source host.new) result) }
    ensures grows { past.new.moved
        ≡ followed_by past.old.moved (stepped (H.source host.new) result) }
    ensures leaves { LeavesAt M.takes M.waiting (H.idle then) (H.rests then host.new) (H.is_done then)
        H.is_starved result machine.new }
{
    let step = host.step(alloc, machine, then);
    *past = past.stepped(host, &step);
    step
}

/// Does one piece of work: it sends what waits, or has the host take a step, and reads where that wants bytes.
fn work<S: Stream, M: Machine, H: Host<M>>(
    alloc: Global,
    link: &mut Link<S>,
    host: &mut H,
    machine: &mut M,
    past: &mut Past,
    buffer: &mut [u8],
    then: Turn,
) -> Piece
    requires room { 0 < length buffer.old }
    ensures worked { (moved : Moved)
        × HasMoved S.remaining S.contents (H.goes then) link.old link.new host.old host.new
        machine.old machine.new past.old.moved past.new.moved moved
        × HasWorked M.takes M.waiting (H.idle then) (H.rests then host.new) (H.is_done then) H.is_starved M.is_closed
        result (link_reads link.new) (link_writes link.new) machine.new moved
        × (moved.behind ≤ length buffer.old) }
    ensures ended { FindsEnd S.remaining link.old → FindsEnd S.remaining link.new }
    ensures closed { M.is_closed machine.old ≡ true → link_reads link.new ≡ link_reads link.old }
    ensures len { length buffer.new ≡ length buffer.old }
{
    if !machine.to_send().is_empty() {
        if send_some(link, machine, past) {
            return Piece::Went;
        }
        return Piece::Stops(fate_of(Why::Write, link.writes()));
    }
    match take_step(alloc, host, machine, past, then) {
        Step::Went => Piece::Went,
        Step::Rests => Piece::Stops(Fate::Rests),
        Step::Done => Piece::Stops(Fate::Done),
        Step::Starved => Piece::Stops(Fate::GivenUp(Why::NoMemory)),
        Step::Wants => match read_some(alloc, link, machine, past, buffer) {
            Some(true) => Piece::Followed,
            Some(false) => Piece::Went,
            None => stop_reading(link.reads(), machine, past),
        },
    }
}

/// Goes on with a machine as far as it goes without waiting: sends what waits, has the host take a step with it, and reads where that
/// wants bytes.
///
/// Bytes that come behind what the machine takes are thrown away. The link is renewed, or new, for each turn. The buffer is a place for
/// what is read, and holds nothing afterwards that is wanted. What was moved is put behind the past.
pub fn turn<S: Stream, M: Machine, H: Host<M>>(
    alloc: Global,
    link: &mut Link<S>,
    host: &mut H,
    machine: &mut M,
    past: &mut Past,
    buffer: &mut [u8],
    then: Turn,
) -> Turned
    requires room { 0 < length buffer.old }
    requires reads { link_reads link.old ≡ Last.Went }
    requires writes { link_writes link.old ≡ Last.Went }
    ensures turned { (moved : Moved)
        × HasMoved S.remaining S.contents (H.goes then) link.old link.new host.old host.new
        machine.old machine.new past.old.moved past.new.moved moved
        × Leaves M.takes M.waiting (H.idle then) (H.rests then host.new) (H.is_done then) H.is_starved
        (link_reads link.new) (link_writes link.new) machine.new moved result.fate
        × (moved.behind ≤ length buffer.old) × ((result.is_followed ≡ true) ↔ (0 < moved.behind)) }
    ensures ended { FindsEnd S.remaining link.new }
    ensures closed { M.is_closed machine.old ≡ true → link_reads link.new ≡ Last.Went }
{
    let mut is_followed = false;
    let mut pieces = 0;
    while pieces < MOST {
        match work(alloc, link, host, machine, past, buffer, then) {
            Piece::Went => {}
            Piece::Followed => is_followed = true,
            Piece::Stops(fate) => return Turned { fate, is_followed },
        }
        pieces += 1;
    }
    Turned {
        fate: Fate::GoesOn,
        is_followed,
    }
}
