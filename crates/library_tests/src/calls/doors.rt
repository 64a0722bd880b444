//! A registry that forgets, and its door.

use crate::keeping::KeepFour;
use desk_core::{Behind, Catalogue, Desk, Setting, Slot, Watch};
use health_wire::Serving;
use plain::Inquiry;
use probe_core::Manual;
use std::alloc::{AllocError, Global};
use web_call::Door;

/// The names of its catalogue.
pub(crate) static NAMES: [&str; 2] = ["a", ""];

/// A door over its own desk, on which the empty name alone is registered. The name is serving, and set down and up in turn before each
/// step, so often as a list says. It counts how often it was asked.
#[derive(Drop)]
pub(crate) struct Flipping<'a> {
    desk: Desk<Manual, KeepFour>,
    catalogue: &'a Catalogue,
    flips: &'a [u32],
    is_down: bool,
    pub(crate) asked: u32,
}

impl<'a> Flipping<'a> {
    pub(crate) fn new(alloc: Global, catalogue: &'a Catalogue, flips: &'a [u32]) -> Flipping<'a> {
        let mut desk = Desk::new(alloc, 200);
        if let Some(slot) = catalogue.slot("") {
            let _ = desk.register(0, slot, Manual::new());
        }
        Flipping {
            desk,
            catalogue,
            flips,
            is_down: false,
            asked: 0,
        }
    }
}

/// Sets the slot down and up in turn, so many times, and tells whether it is down then.
fn flip(desk: &mut Desk<Manual, KeepFour>, slot: Slot, was_down: bool, times: u32) -> bool {
    let mut is_down = was_down;
    for _ in 0..times {
        is_down = !is_down;
        let setting = if is_down { Setting::Down } else { Setting::Up };
        let _ = desk.set(0, slot, setting);
    }
    is_down
}

impl Door for Flipping<'_> {
    ghost use Rattle.std.specs.Prelude.{⊤, ◌≡◌, ℕ, List, IfOk, Some, false};
    ghost use Rattle.desk_core.specs.Legal.{IsLegal};
    ghost use Rattle.plain.specs.Answer.{IsInquiryOf, IsTold};
    ghost use Rattle.plain.specs.Inquiry.{asked_of};
    ghost use Rattle.desk_core.specs.Past.{past};

    ghost names = { λ door. door.catalogue.now };

    ghost seen = { λ door. past door.desk.journal };

    ghost follows = { λ _ _. ⊤ };

    ghost kept = { Some 4 };

    ghost is_plain = { false };

    ghost stays = { λ _ _. ⊤ };

    ghost stays_self = { λ _. tt };

    ghost stays_on = { λ _ _ _ _ _. tt };

    fn check(&mut self, name: &str) -> Option<Serving> {
        self.asked = self.asked.saturating_add(1);
        self.desk.check(self.catalogue.slot(name))
    }

    fn open(&mut self, name: &str) -> (Watch, Serving) {
        self.asked = self.asked.saturating_add(1);
        self.desk.open(self.catalogue.slot(name))
    }

    fn step(&mut self, watch: &mut Watch) -> Result<Option<Serving>, Behind> {
        self.asked = self.asked.saturating_add(1);
        if let ([times, rest @ ..], Some(slot)) = (self.flips, self.catalogue.slot("")) {
            self.flips = rest;
            self.is_down = flip(&mut self.desk, slot, self.is_down, *times);
        }
        self.desk.step_kept(watch)
    }

    fn answers_plainly(&self) -> bool {
        false
    }

    /// It is never asked, since it answers no plain requests.
    fn tell(&mut self, _alloc: Global, inquiry: &Inquiry<'_>) -> Result<Vec<u8>, AllocError>
        ensures names { self.new.catalogue.now ≡ self.old.catalogue.now }
        ensures legal { IsLegal (past self.new.desk.journal) }
        ensures follows { ⊤ }
        ensures stays { ⊤ }
        ensures told { (head : List ℕ) → IsInquiryOf head (asked_of inquiry.now) → IfOk result
            (λ text. IsTold self.old.catalogue.now (past self.new.desk.journal) head text.items) }
    {
        let _board = self.desk.board();
        Err(AllocError)
    }
}
