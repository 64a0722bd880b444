ghost use Rattle.std.specs.Prelude.{◌≡◌, ◌≤◌, length};
ghost use Rattle.control.specs.Session.{ends_open, first_line};

use crate::answer::Answer;
use crate::answering::answer_line;
use crate::server::Server;
use crate::writing::write_answer;
use desk_core::{Catalogue, Console};
use probe_core::{Maker, Probe};
use std::alloc::{AllocError, Global};
use std::marker::Model;

/// The most bytes of a line, and the LF after it. Behind so many there is room for the LF that closes the last line.
const MOST_UNREAD: usize = 1_025;

/// Room for each answer that tells what came of a change.
const LEAST_ROOM: usize = 32;

/// Lines of text that somebody sends, and their answers, apart from who reads and writes them.
///
/// Whoever holds a session gives it bytes while it has room; lets it answer where it has a line and nothing waits to be sent; and sends
/// what it has to send.
#[derive(Drop)]
pub struct Session {
    unread: Vec<u8>,
    waiting: Vec<u8>,
    is_over: bool,
    has_ended: bool,
    /// By which a server tells it from others.
    number: u32,
}

impl Model for Session {
    ghost use Rattle.std.specs.Prelude.{◌≤◌, vec_capacity};
    ghost use Rattle.control.specs.Session.{SessionState, IsWithin};

    ghost Value = { SessionState };

    ghost view = { λ session. record { unread = session.unread.items; waiting = session.waiting.items; is_over = session.is_over; has_ended = session.has_ended } };

    ghost invariant = { λ session. IsWithin session.unread.items × (1026 ≤ vec_capacity session.unread) × (32 ≤ vec_capacity session.waiting) };
}

impl Session {
    ghost use Rattle.std.specs.Prelude.{◌≡◌, ◌-◌, ◌≤◌, ◌++◌, ◌↔◌, [], drop, false, min, take, length, IfOk, IsTrue};
    ghost use Rattle.control.specs.Beside.{IsLineMetBeside};
    ghost use Rattle.control.specs.Talk.{IsCut};
    ghost use Rattle.control.specs.Text.{IsTold, answer_text, ends_session};
    ghost use Rattle.control.specs.Session.{HasLine, IsWithin, at_end, begun, ends_open, first_line, behind_line, with_unread, with_waiting};

    /// A session that was given nothing yet. It takes the memory of its lines.
    pub fn new(alloc: Global) -> Result<Session, AllocError>
        ensures { IfOk result (λ session. session ≡ begun) }
    {
        Ok(Session {
            unread: Vec::with_capacity(alloc, MOST_UNREAD + 1)?,
            waiting: Vec::with_capacity(alloc, LEAST_ROOM)?,
            is_over: false,
            has_ended: false,
            number: 0,
        })
    }

    /// The same with a number by which a server tells it from others; that of a new one is 0.
    pub fn with_number(mut self, number: u32) -> Session
        ensures { result ≡ self }
    {
        self.number = number;
        self
    }

    pub fn number(&self) -> u32 {
        self.number
    }

    /// How many bytes it takes now.
    pub fn room(&self) -> usize
        ensures { result ≡ 1025 - length self.now.unread }
    {
        MOST_UNREAD.saturating_sub(self.unread.len())
    }

    /// Takes as many of the bytes as there is room for, and tells how many.
    pub fn give(&mut self, bytes: &[u8]) -> usize
        ensures count { result ≡ min (length bytes.now) (1025 - length self.old.unread) }
        ensures state { self.new ≡ with_unread (self.old.unread ++ take result bytes.now) self.old }
    {
        let count = bytes.len().min(self.room());
        self.unread.extend_from_slice(&bytes[..count]).unwrap();
        count
    }

    /// No more bytes come: what stands after the last LF is a line too.
    pub fn end(&mut self)
        ensures state { self.new ≡ at_end self.old }
        ensures closed { length (first_line self.new.unread) ≤ 1024
            → ends_open self.new.unread ≡ false }
    {
        if ends_open(&self.unread) && line_len(&self.unread) < MOST_UNREAD {
            self.unread.push(b'\n').unwrap();
        }
        self.has_ended = true;
    }

    /// Whether it was told that no more bytes come.
    pub fn has_ended(&self) -> bool
        ensures { result ≡ self.now.has_ended }
    {
        self.has_ended
    }

    /// Whether there is a line to answer.
    pub fn has_line(&self) -> bool
        ensures { IsTrue result ↔ HasLine self.now }
    {
        !self.is_over && (self.unread.len() >= MOST_UNREAD || self.unread.contains(&b'\n'))
    }

    /// What waits to be sent.
    pub fn to_send(&self) -> &[u8]
        ensures { result.now ≡ self.now.waiting }
    {
        &self.waiting
    }

    /// So many bytes of that were sent.
    pub fn sent(&mut self, count: usize)
        requires { count ≤ length self.old.waiting }
        ensures { self.new ≡ with_waiting (drop count self.old.waiting) self.old }
    {
        self.waiting.drain(..count);
    }

    /// Whether its last line was answered: one that is too long or none of a session, or `stop`.
    pub fn is_over(&self) -> bool
        ensures { result ≡ self.now.is_over }
    {
        self.is_over
    }

    /// Answers the first line, and takes it away. The probe of a line that registers a service is made before the change is asked for.
    pub fn answer<P: Probe, C: Console<P>, V: Server, M: Maker<P>>(
        &mut self,
        alloc: Global,
        console: &mut C,
        server: &mut V,
        maker: &M,
    ) -> Answer
        requires line { HasLine self.old }
        requires sent { self.old.waiting ≡ [] }
        ensures names { C.names console.new ≡ C.names console.old }
        ensures met { IsLineMetBeside C.seen C.kept C.looks C.answers V.terms V.counted V.woken
            V.expected V.stopped (C.names console.old) (console.old, server.old)
            (console.new, server.new)
            (first_line self.old.unread) result }
        ensures cut { IsCut self.old.unread (first_line self.old.unread)
            (behind_line self.old.unread) }
        ensures unread { self.new.unread ≡ behind_line self.old.unread }
        ensures ended { self.new.has_ended ≡ self.old.has_ended }
        ensures waiting { self.new.waiting ≡ answer_text (C.names console.old) result }
        ensures over { self.new.is_over ≡ ends_session result }
    {
        let answer = answer_line(alloc, console, server, maker, self.first_line());
        self.drop_line();
        let told = self.say(alloc, console.catalogue(), answer);
        self.is_over = told.ends_session();
        told
    }

    fn first_line(&self) -> &[u8]
        ensures value { result.now ≡ first_line self.now.unread }
        ensures within { IsWithin self.now.unread }
    {
        let len = line_len(&self.unread);
        &self.unread[..len]
    }

    /// Takes the first line away, with its LF.
    fn drop_line(&mut self)
        ensures { self.new ≡ with_unread (behind_line self.old.unread) self.old }
    {
        let len = line_len(&self.unread);
        let end = self.unread.len().min(len + 1);
        self.unread.drain(..end);
    }

    /// Writes the line of an answer. Where there is no memory for a long one, which was told where nothing was changed, it says that.
    fn say(&mut self, alloc: Global, catalogue: &Catalogue, answer: Answer) -> Answer
        requires sent { self.old.waiting ≡ [] }
        ensures state { self.new ≡ with_waiting (answer_text catalogue.now result) self.old }
        ensures told { IsTold answer result }
    {
        if write_answer(alloc, catalogue, &mut self.waiting, &answer).is_ok() {
            return answer;
        }
        write_answer(alloc, catalogue, &mut self.waiting, &Answer::OutOfMemory).unwrap();
        Answer::OutOfMemory
    }
}

/// Whether bytes stand behind the last LF.
fn ends_open(bytes: &[u8]) -> bool
    ensures { result ≡ ends_open bytes.now }
{
    match bytes {
        [] => false,
        [.., last] => *last != b'\n',
    }
}

/// How long the first line is.
fn line_len(bytes: &[u8]) -> usize
    ensures within { result ≤ length bytes.now }
    ensures value { result ≡ length (first_line bytes.now) }
{
    for place in 0..bytes.len() {
        if bytes[place] == b'\n' {
            return place;
        }
    }
    bytes.len()
}
