ghost use Rattle.std.specs.Prelude.{◌≡◌, ◌≤◌, ◌<◌, ◌-◌, ◌+◌, ◌⊎◌, ◌∷◌, [], ◌++◌, ℕ, List, length, take, false, true, nat_lt, vec_len, vec_capacity, IfOk};
ghost use Rattle.web_call.specs.Head.{IsHeaded};
ghost use Rattle.web_call.specs.HeadAnswer.{HeadAnswer};
ghost use Rattle.web_call.specs.InputHead.{IsHead, IsOpenHead, ends_blank};
ghost use Rattle.web_call.specs.Intake.{AreRead, HasHead, HasRead, body_len};
ghost use Rattle.web_call.specs.Reading.{is_open, wanted, some_wanted, head_wanted, body_left, owed};

use super::{Intake, Reading};
use crate::head::{Headed, head_of};
use crate::head_limits::{HEAD_END, MAX_HEAD_LEN};
use std::alloc::{AllocError, Global};

/// Whether bytes are a head that are none without the last of them.
fn ends_head(head: &[u8]) -> bool
    ensures ends { result ≡ true → (ends_blank head.now ≡ true) ⊎ (8192 ≤ length head.now) }
    ensures goes_on { result ≡ false → (ends_blank head.now ≡ false) × (length head.now < 8192) }
{
    head.len() >= MAX_HEAD_LEN || head.ends_with(HEAD_END)
}

/// How far these bytes have come, which are no head without the last of them. Memory is taken for a body that they ask for.
fn after_head(alloc: Global, head: &[u8], body: &mut Vec<u8>) -> Reading
    requires some { 0 < length head.now }
    requires within { length head.now ≤ 8192 }
    ensures read { IsOpenHead (take (length head.now - 1) head.now) → body.old.items ≡ []
        → AreRead result head.now body.new.items }
    ensures empty { body.old.items ≡ [] → body.new.items ≡ [] }
    ensures within { length head.now + head_wanted result ≤ 8192 }
    ensures room { vec_len body.new + body_left result ≤ vec_capacity body.new }
    ensures more { 1 ≤ some_wanted result }
    ensures few { owed result (length head.now) + 1 ≤ owed Reading.Head (length head.now - 1) }
{
    if !ends_head(head) {
        return Reading::Head;
    }
    match head_of(head) {
        Headed::Http(_) => Reading::Whole,
        Headed::Status(_, _) => Reading::Whole,
        Headed::Body { length, .. } => before_body(alloc, length, body),
    }
}

/// How far a request has come behind a head that asks for a body of this length.
fn before_body(alloc: Global, len: u32, body: &mut Vec<u8>) -> Reading
    ensures read { (head : List ℕ) (answer : HeadAnswer) → IsHead head → IsHeaded head answer
        → body_len answer ≡ len
        → body.old.items ≡ [] → AreRead result head body.new.items }
    ensures empty { body.old.items ≡ [] → body.new.items ≡ [] }
    ensures room { vec_len body.new + body_left result ≤ vec_capacity body.new }
    ensures head { head_wanted result ≡ 0 }
    ensures more { 1 ≤ some_wanted result }
    ensures owed { (n : ℕ) → owed result n ≤ len }
{
    if len == 0 {
        return Reading::Whole;
    }
    let Ok(room) = Vec::with_capacity(alloc, len as usize) else {
        return Reading::Starved;
    };
    *body = room;
    Reading::Body { left: len }
}

/// How far a request has come of whose body so many bytes are to come.
fn after_body(left: u32) -> Reading
    ensures read { (head body : List ℕ) → HasHead head (length body) left
        → AreRead result head body }
    ensures wanted { wanted result ≡ left }
    ensures left { body_left result ≡ left }
    ensures head { head_wanted result ≡ 0 }
    ensures more { 1 ≤ some_wanted result }
    ensures owed { (len : ℕ) → owed result len ≡ left }
    ensures is_open { is_open result ≡ nat_lt 0 left }
{
    if left == 0 {
        Reading::Whole
    } else {
        Reading::Body { left }
    }
}

impl Intake {
    /// Nothing was read. Memory is taken for the longest head.
    pub(crate) fn new(alloc: Global) -> Result<Intake, AllocError>
        ensures reading { IfOk result (λ intake. intake.reading ≡ Reading.Head) }
        ensures read { IfOk result (λ intake. HasRead intake []) }
    {
        Ok(Intake {
            head: Vec::with_capacity(alloc, MAX_HEAD_LEN)?,
            body: Vec::new(alloc),
            reading: Reading::Head,
        })
    }

    pub(crate) fn reading(&self) -> Reading
        ensures { result ≡ self.now.reading }
    {
        self.reading
    }

    pub(crate) fn head(&self) -> &[u8]
        ensures { result.now ≡ self.now.head.items }
    {
        &self.head
    }

    pub(crate) fn body(&self) -> &[u8]
        ensures { result.now ≡ self.now.body.items }
    {
        &self.body
    }

    /// How many bytes are wanted at least; none where no more are.
    pub(crate) fn wanted(&self) -> usize
        ensures value { result ≡ wanted self.now.reading }
        ensures is_open { is_open self.now.reading ≡ nat_lt 0 result }
    {
        match self.reading {
            Reading::Head => 1,
            Reading::Body { left } => left as usize,
            Reading::Whole | Reading::Starved => 0,
        }
    }

    /// Takes bytes up to the end of the request, and tells how many.
    pub(crate) fn give(&mut self, alloc: Global, bytes: &[u8]) -> usize
        ensures bound { result ≤ length bytes.now }
        ensures read { (received : List ℕ) → HasRead self.old received
            → HasRead self.new (received ++ take result bytes.now) }
        ensures rest { result < length bytes.now → is_open self.new.reading ≡ false }
        ensures all { length bytes.now ≤ wanted self.old.reading → result ≡ length bytes.now }
        ensures closed { is_open self.old.reading ≡ false → (result ≡ 0) × (self.new ≡ self.old) }
        ensures owes { owed self.new.reading (vec_len self.new.head) + result
            ≤ owed self.old.reading (vec_len self.old.head) }
    {
        let taken = self.give_head(alloc, bytes);
        taken + self.give_body(&bytes[taken..])
    }

    /// Takes bytes up to the end of the head.
    fn give_head(&mut self, alloc: Global, bytes: &[u8]) -> usize
        ensures bound { result ≤ length bytes.now }
        ensures read { (received : List ℕ) → HasRead self.old received
            → HasRead self.new (received ++ take result bytes.now) }
        ensures rest { result < length bytes.now → head_wanted self.new.reading ≡ 0 }
        ensures some { 0 < head_wanted self.old.reading → 0 < length bytes.now → 0 < result }
        ensures closed { head_wanted self.old.reading ≡ 0 → (result ≡ 0) × (self.new ≡ self.old) }
        ensures owes { owed self.new.reading (vec_len self.new.head) + result
            ≤ owed self.old.reading (vec_len self.old.head) }
    {
        let mut taken = 0;
        while taken < bytes.len() && self.reading == Reading::Head {
            self.push(alloc, bytes[taken]);
            taken += 1;
        }
        taken
    }

    fn push(&mut self, alloc: Global, byte: u8)
        requires { self.old.reading ≡ Reading.Head }
        ensures read { (received : List ℕ) → HasRead self.old received
            → HasRead self.new (received ++ byte ∷ []) }
        ensures owes { owed self.new.reading (vec_len self.new.head) + 1
            ≤ owed self.old.reading (vec_len self.old.head) }
    {
        self.head.push_reserved(byte);
        self.reading = after_head(alloc, &self.head, &mut self.body);
    }

    /// Takes bytes up to the end of the body, where the head is whole.
    fn give_body(&mut self, bytes: &[u8]) -> usize
        ensures bound { result ≤ length bytes.now }
        ensures read { (received : List ℕ) → HasRead self.old received
            → HasRead self.new (received ++ take result bytes.now) }
        ensures rest { head_wanted self.old.reading ≡ 0 → result < length bytes.now
            → is_open self.new.reading ≡ false }
        ensures all { length bytes.now ≤ body_left self.old.reading → result ≡ length bytes.now }
        ensures closed { body_left self.old.reading ≡ 0 → (result ≡ 0) × (self.new ≡ self.old) }
        ensures owes { owed self.new.reading (vec_len self.new.head) + result
            ≤ owed self.old.reading (vec_len self.old.head) }
    {
        let Reading::Body { left } = self.reading else {
            return 0;
        };
        let count = bytes.len().min(left as usize);
        self.body.extend_from_slice(&bytes[..count]).unwrap();
        self.reading = after_body(left - count as u32);
        count
    }
}
