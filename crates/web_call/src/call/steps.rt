ghost use Rattle.std.specs.Prelude.{◌≡◌, ◌≤◌, ◌<◌, ◌+◌, ℕ, List, length, take, true, false, nat_lt, IfOk};
ghost use Rattle.web_call.specs.Answer.{Source};
ghost use Rattle.web_call.specs.Past.{Stands, Carries, begun, with_received, with_sent};
ghost use Rattle.web_call.specs.Stages.{is_open, is_whole, is_watching, is_starved, is_answered, wanted_by, owed, to_send, being_sent, ending_of, outcome_of, is_done, frames_of, may_ask};

use super::{Call, CallStage};
use crate::intake::{Intake, Reading};
use crate::outcome::Outcome;
use crate::outgoing::Outgoing;
use crate::text::Text;
use std::alloc::{AllocError, Global};

impl Call {
    /// A call of which nothing was received. Memory is taken for the longest head.
    pub fn new(alloc: Global) -> Result<Call, AllocError>
        ensures begun { IfOk result (λ call. (source : Source) → Stands source begun call) }
        ensures is_open { IfOk result (λ call. is_open call ≡ true) }
    {
        Ok(Call {
            stage: CallStage::Reading(Intake::new(alloc)?),
            outgoing: Outgoing::new(Text::none()),
        })
    }

    /// How many bytes of the request are wanted at least: 1 in its head, and then all that are left of its body. None are where it
    /// wants no more.
    pub fn wanted(&self) -> usize
        ensures value { result ≡ wanted_by self.now }
        ensures is_open { is_open self.now ≡ nat_lt 0 result }
    {
        match &self.stage {
            CallStage::Reading(intake) => intake.wanted(),
            _ => 0,
        }
    }

    /// Takes bytes up to the end of the request, and tells how many. What stands behind is not its own.
    pub fn give(&mut self, alloc: Global, bytes: &[u8]) -> usize
        ensures bound { result ≤ length bytes.now }
        ensures carries { Carries self.old self.new (with_received (take result bytes.now)) }
        ensures rest { result < length bytes.now → is_open self.new ≡ false }
        ensures all { length bytes.now ≤ wanted_by self.old → result ≡ length bytes.now }
        ensures closed { is_open self.old ≡ false → (result ≡ 0) × (self.new ≡ self.old) }
        ensures owes { owed self.new + result ≤ owed self.old }
        ensures unanswered { is_answered self.new ≡ is_answered self.old }
    {
        match &mut self.stage {
            CallStage::Reading(intake) => intake.give(alloc, bytes),
            _ => 0,
        }
    }

    /// Whether the request is whole and waits to be answered.
    pub fn is_whole(&self) -> bool
        ensures { result ≡ is_whole self.now }
    {
        match &self.stage {
            CallStage::Reading(intake) => intake.reading() == Reading::Whole,
            _ => false,
        }
    }

    /// Whether a Watch is open, which may look and be ended where all is sent.
    pub fn is_watching(&self) -> bool
        ensures { result ≡ is_watching self.now }
    {
        match &self.stage {
            CallStage::Watching(_) => true,
            _ => false,
        }
    }

    /// Whether an allocation failed, for the body or for the answer. Then nothing is sent, and the call is at its end.
    pub fn is_starved(&self) -> bool
        ensures { result ≡ is_starved self.now }
    {
        match &self.stage {
            CallStage::Reading(intake) => intake.reading() == Reading::Starved,
            CallStage::Starved => true,
            _ => false,
        }
    }

    /// What is still to be sent.
    pub fn to_send(&self) -> &[u8]
        ensures { result.now ≡ to_send self.now }
    {
        self.outgoing.left()
    }

    /// So many bytes of it were sent.
    pub fn sent(&mut self, count: usize)
        requires { count ≤ length (to_send self.old) }
        ensures left { length (to_send self.new) + count ≡ length (to_send self.old) }
        ensures carries { Carries self.old self.new (with_sent (take count (to_send self.old))) }
        ensures watching { is_watching self.new ≡ is_watching self.old }
        ensures ending { ending_of self.new ≡ ending_of self.old }
        ensures answered { is_answered self.new ≡ is_answered self.old }
        ensures text { being_sent self.new ≡ being_sent self.old }
        ensures reads { (is_open self.new ≡ is_open self.old)
            × (may_ask self.new ≡ may_ask self.old) }
    {
        self.outgoing.advance(count);
    }

    /// How many message and trailer frames went out whole; the count stays at its greatest number once it has reached it.
    pub fn frames(&self) -> u32
        ensures { result ≡ frames_of self.now }
    {
        self.outgoing.frames()
    }

    /// How the call ended, once the last of its answer is sent.
    pub fn outcome(&self) -> Option<Outcome>
        ensures { result ≡ outcome_of self.now }
    {
        match &self.stage {
            CallStage::Ending(outcome) if self.to_send().is_empty() => Some(*outcome),
            _ => None,
        }
    }

    /// Whether the call is at its end: the last of its answer is sent, or an allocation failed.
    pub fn is_done(&self) -> bool
        ensures { result ≡ is_done self.now }
    {
        self.outcome().is_some() || self.is_starved()
    }
}
