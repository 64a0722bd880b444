use crate::answer::{Answer, answer_of};
use crate::event::Event;
use crate::kind::Kind;
use crate::stage::{Stage, Step};
use crate::steps::{on_closed, on_connected, on_refused, on_resolved, on_waited};
use crate::verdict::{Verdict, Why};
use std::alloc::Global;

/// One look at a target. Readings of the clock are in milliseconds.
#[derive(Drop)]
pub struct Look {
    kind: Kind,
    ends: u64,
    stage: Stage,
    bytes: Vec<u8>,
}

impl Look {
    ghost use Rattle.std.specs.Prelude.{◌≡◌, ◌≤◌, ◌<◌, ◌++◌, ◌+◌, false, ⊤, [], Some};
    ghost use Rattle.observing.specs.Stage.{is_over};
    ghost use Rattle.observing.specs.Answer.{Tells};
    ghost use Rattle.observing.specs.declared.answer.Answer.{Answer};
    ghost use Rattle.observing.specs.Look.{HasBytes, HasHeard, IsKept, MatchAnswer, MatchReport, Meets, OnCame, step_on, bytes_of, ends_of, kind_of, looks_in, reports_in, stage_of, until_of};

    /// A look that ends at this reading at the latest.
    pub fn new(alloc: Global, kind: Kind, ends: u64) -> Look
        ensures kind { kind_of result ≡ kind }
        ensures ends { ends_of result ≡ ends }
        ensures stage { stage_of result ≡ Stage.Naming }
        ensures bytes { bytes_of result ≡ [] }
    {
        Look {
            kind,
            ends,
            stage: Stage::Naming,
            bytes: Vec::new(alloc),
        }
    }

    /// One that has ended.
    pub fn over(alloc: Global, kind: Kind) -> Look
        ensures { stage_of result ≡ Stage.Over }
    {
        Look {
            kind,
            ends: 0,
            stage: Stage::Over,
            bytes: Vec::new(alloc),
        }
    }

    /// What it asks for next.
    pub fn stage(&self) -> Stage
        ensures { result ≡ stage_of self.now }
    {
        self.stage
    }

    /// The reading at which it wants to hear that time has passed.
    pub fn until(&self) -> u64
        ensures { result ≡ until_of (stage_of self.now) (ends_of self.now) }
    {
        match self.stage {
            Stage::Dialling(dial) => dial.until,
            Stage::Naming | Stage::Reading | Stage::Over => self.ends,
        }
    }

    /// Tells it what happened at this reading. The report is told once, when the look ends.
    pub fn hear(&mut self, at: u64, event: Event<'_>) -> Option<Verdict>
        ensures heard { HasHeard self.old at event.entry result self.new }
        ensures once { looks_in self.old ≡ looks_in self.new + reports_in result }
        ensures late { is_over (stage_of self.old) ≡ false → ends_of self.old ≤ at
            → result ≡ Some (Verdict.Fail Why.Late) }
    {
        match self.step(at, event) {
            Step::Stays => None,
            Step::Goes(stage) => {
                self.stage = stage;
                None
            }
            Step::Reports(verdict) => {
                self.stage = Stage::Over;
                Some(verdict)
            }
        }
    }

    /// What comes of it. At the limit a look is late, whatever happened.
    fn step(&mut self, at: u64, event: Event<'_>) -> Step
        ensures meets { Meets self.old at event.entry result }
        ensures bytes { HasBytes self.old event.entry result self.new }
        ensures kept { IsKept self.old self.new }
        ensures stage { stage_of self.new ≡ stage_of self.old }
    {
        if self.stage.is_over() {
            return Step::Stays;
        }
        if self.ends <= at {
            return Step::Reports(Verdict::Fail(Why::Late));
        }
        match event {
            Event::Resolved(count) => on_resolved(self.stage, self.ends, at, count),
            Event::Connected => on_connected(self.stage, self.kind),
            Event::Refused => on_refused(self.stage, self.ends, at),
            Event::Came(bytes) => self.came(bytes),
            Event::Closed => on_closed(self.stage),
            Event::Waited => on_waited(self.stage, self.ends, at),
        }
    }

    /// Bytes came: they count where they are read.
    fn came(&mut self, bytes: &[u8]) -> Step
        ensures came { OnCame (stage_of self.old) (kind_of self.old) (bytes_of self.old) bytes.now
            result }
        ensures bytes { HasBytes self.old (Event.Came bytes.entry) result self.new }
        ensures kept { IsKept self.old self.new }
        ensures stage { stage_of self.new ≡ stage_of self.old }
    {
        match self.stage {
            Stage::Reading => self.read(bytes),
            Stage::Naming | Stage::Dialling(_) | Stage::Over => Step::Stays,
        }
    }

    /// What the bytes tell, with those that came before.
    fn read(&mut self, bytes: &[u8]) -> Step
        ensures told { (answer : Answer)
            × Tells (kind_of self.old) (bytes_of self.old ++ bytes.now) answer
            × (result ≡ step_on answer) }
        ensures bytes { MatchReport result ⊤ (bytes_of self.new ≡ bytes_of self.old ++ bytes.now) }
        ensures kept { IsKept self.old self.new }
        ensures stage { stage_of self.new ≡ stage_of self.old }
    {
        match self.answer_with(bytes) {
            Answer::Open => Step::Stays,
            Answer::Told(verdict) => Step::Reports(verdict),
        }
    }

    fn answer_with(&mut self, bytes: &[u8]) -> Answer
        ensures told { Tells (kind_of self.old) (bytes_of self.old ++ bytes.now) result }
        ensures bytes { MatchAnswer result (bytes_of self.new ≡ bytes_of self.old ++ bytes.now) ⊤ }
        ensures kept { IsKept self.old self.new }
        ensures stage { stage_of self.new ≡ stage_of self.old }
    {
        match self.bytes.extend_from_slice(bytes) {
            Ok(()) => answer_of(*self.bytes.allocator(), self.kind, &self.bytes),
            Err(_) => Answer::Told(Verdict::Fail(Why::OutOfMemory)),
        }
    }
}
