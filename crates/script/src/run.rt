use crate::line::Line;
use crate::outcome::Outcome;
use desk_core::{Call, Catalogue, Desk, Effect, Refusal, Registrar, Slot, Watch};
use health_wire::Serving;
use probe_core::Probe;
use std::alloc::{AllocError, Global};
use std::marker::Model;

/// The seat whose changes those of a run are.
const SEAT: u16 = 0;

/// A registry of one thread that meets the lines of a script, and the watches that they opened, in order.
#[derive(Drop)]
pub struct Run<P: Probe> {
    catalogue: Catalogue,
    desk: Desk<P>,
    watches: Vec<Watch>,
}

impl<P: Probe> Model for Run<P> {
    ghost use Rattle.std.specs.Prelude.{◌≡◌, false};
    ghost use Rattle.desk_core.specs.Past.{past};
    ghost use Rattle.script.specs.Run.{RunState};

    ghost Value = { RunState };

    ghost view = { λ run. record {
      names = run.catalogue;
      max_entries = run.desk.max_entries;
      entries = past run.desk.journal;
      watches = run.watches.items;
    } };

    ghost invariant = { λ run. run.desk.is_stored ≡ false };
}

impl<P: Probe> Run<P> {
    ghost use Rattle.std.specs.Prelude.{◌≡◌, ◌<◌, [], ◌∷◌, ◌++◌, length, IfOk, OnOk};
    ghost use Rattle.std.specs.Option.{option_map};
    ghost use Rattle.desk_core.specs.Changes.{changes_of};
    ghost use Rattle.desk_core.specs.Status.{shown};
    ghost use Rattle.desk_core.specs.Watch.{opened};
    ghost use Rattle.script.specs.Run.{opening, with_watches, IsStepped, IsLineRun};
    ghost use Rattle.script.specs.Rules.{rule_in};
    ghost use Rattle.script.specs.Script.{IsStepOfOpened};

    pub fn new(alloc: Global, catalogue: Catalogue, max_entries: u32) -> Run<P>
        ensures { result ≡ opening catalogue max_entries }
    {
        Run {
            catalogue,
            desk: Desk::new(alloc, max_entries),
            watches: Vec::new(alloc),
        }
    }

    /// Does what a line says, with a probe of its rule where it registers one.
    pub fn meet(&mut self, line: &Line, probe: Option<P>) -> Result<Outcome, AllocError>
        requires opened { IsStepOfOpened line.now (length self.old.watches) }
        requires ruled { option_map P.rule probe ≡ rule_in line.now }
        ensures { IfOk result (λ outcome. IsLineRun self.old line.now self.new outcome) }
    {
        match line {
            Line::Register(..) | Line::Retire(_) | Line::Order(_) => {
                let call = line.call(&self.catalogue).unwrap();
                Ok(Outcome::Changed(self.change(call, probe).result))
            }
            Line::Check(name) => {
                let slot = self.catalogue.slot(name.as_str());
                Ok(Outcome::Checked(self.desk.check(slot)))
            }
            Line::Open(name) => {
                let slot = self.catalogue.slot(name.as_str());
                self.open(slot)
            }
            Line::Step(number) => Ok(Outcome::Stepped(self.step(*number as usize))),
            Line::Board => Ok(Outcome::Board(self.desk.board())),
        }
    }

    fn open(&mut self, slot: Option<Slot>) -> Result<Outcome, AllocError>
        ensures watch { OnOk result (self.new ≡ with_watches self.old
            (self.old.watches ++ opened (changes_of self.old.entries) slot ∷ [])) }
        ensures shown { IfOk result (λ outcome.
            outcome ≡ Outcome.Opened (length self.old.watches) (shown self.old.entries slot)) }
    {
        let number = self.watches.len();
        let (watch, status) = self.desk.open(slot);
        self.watches.push(watch)?;
        Ok(Outcome::Opened(number, status))
    }

    fn step(&mut self, number: usize) -> Option<Serving>
        requires { number < length self.old.watches }
        ensures { IsStepped self.old number self.new result }
    {
        let watch = &mut self.watches[number];
        self.desk.step(watch)
    }
}

impl<P: Probe> Registrar<P> for Run<P> {
    ghost use Rattle.std.specs.Prelude.{◌≡◌, ◌-◌, ◌↔◌, Some, IfSome, IfOk, IfErr, IsTrue, length};
    ghost use Rattle.std.specs.Option.{option_map};
    ghost use Rattle.desk_core.specs.Changes.{Shows};
    ghost use Rattle.desk_core.specs.Mutation.{rule_of};
    ghost use Rattle.desk_core.specs.Refusal.{refused_effect};
    ghost use Rattle.script.specs.Run.{IsChanged};

    ghost names = { λ run. run.names };

    ghost seen = { λ run. run.entries };

    ghost answers = { IsChanged };

    fn catalogue(&self) -> &Catalogue {
        &self.catalogue
    }

    fn change(&mut self, call: Option<Call>, probe: Option<P>) -> Effect
        requires ruled { IfSome call (λ c. option_map P.rule probe ≡ rule_of c) }
        ensures names { self.new.names ≡ self.old.names }
        ensures answered { IsChanged self.old self.new call result.result }
        ensures shows { IfOk result.result (λ reply.
            IsTrue result.shows ↔ Shows self.new.entries) }
        ensures refused { IfErr result.result (λ refusal. result ≡ refused_effect refusal) }
        ensures placed { IfOk result.result (λ reply.
            result.at ≡ Some (length self.new.entries - 1)) }
    {
        let Some(call) = call else {
            return Effect::of_refusal(Refusal::NotListed);
        };
        match self.desk.change(SEAT, call, probe) {
            Ok(made) => made.effect(),
            Err((refusal, _)) => Effect::of_refusal(refusal),
        }
    }
}
