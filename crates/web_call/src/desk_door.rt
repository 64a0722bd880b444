use crate::{BoardDoor, Door};
use desk_core::{Behind, Catalogue, Desk, Keep, KeepAll, Watch};
use health_wire::Serving;
use plain::Inquiry;
use probe_core::Probe;
use std::alloc::{AllocError, Global};

/// A door over a desk that stands still.
#[derive(Drop)]
pub struct DeskDoor<'a, P: Probe, K: Keep = KeepAll> {
    desk: &'a Desk<P, K>,
    catalogue: &'a Catalogue,
}

impl<'a, P: Probe, K: Keep> DeskDoor<'a, P, K> {
    ghost use Rattle.std.specs.Prelude.{◌≡◌};
    ghost use Rattle.web_call.specs.DeskDoor.{door_names, door_journal};

    /// The slots of the desk are those of the catalogue.
    pub fn new(desk: &'a Desk<P, K>, catalogue: &'a Catalogue) -> DeskDoor<'a, P, K>
        ensures names { door_names result ≡ catalogue.now }
        ensures journal { door_journal result ≡ desk.now.journal }
    {
        DeskDoor { desk, catalogue }
    }
}

impl<'a, P: Probe, K: Keep> Door for DeskDoor<'a, P, K> {
    ghost use Rattle.std.specs.Prelude.{◌≡◌, ℕ, List, IfOk, false};
    ghost use Rattle.desk_core.specs.Legal.{IsLegal};
    ghost use Rattle.plain.specs.Answer.{IsInquiryOf, IsTold};
    ghost use Rattle.plain.specs.Inquiry.{asked_of};
    ghost use Rattle.std.proofs.Common.{refl, ◌∙◌};
    ghost use Rattle.desk_core.specs.Past.{past};
    ghost use Rattle.web_call.specs.DeskDoor.{door_names, door_journal};

    ghost names = { λ door. door_names door };

    ghost seen = { λ door. past (door_journal door) };

    ghost follows = { λ entries next. next ≡ entries };

    ghost kept = { K.kept };

    ghost is_plain = { false };

    ghost stays = { λ a b. b ≡ a };

    ghost stays_self = { λ a. refl };

    ghost stays_on = { λ a b c p q. q ∙ p };

    fn check(&mut self, name: &str) -> Option<Serving> {
        self.desk.check(self.catalogue.slot(name))
    }

    fn open(&mut self, name: &str) -> (Watch, Serving) {
        self.desk.open(self.catalogue.slot(name))
    }

    fn step(&mut self, watch: &mut Watch) -> Result<Option<Serving>, Behind> {
        self.desk.step_kept(watch)
    }

    fn answers_plainly(&self) -> bool {
        false
    }

    /// It is never asked, since it answers no plain requests.
    fn tell(&mut self, _alloc: Global, inquiry: &Inquiry<'_>) -> Result<Vec<u8>, AllocError>
        ensures names { door_names self.new ≡ door_names self.old }
        ensures legal { IsLegal (past (door_journal self.new)) }
        ensures follows { past (door_journal self.new) ≡ past (door_journal self.old) }
        ensures stays { self.new ≡ self.old }
        ensures told { (head : List ℕ) → IsInquiryOf head (asked_of inquiry.now) → IfOk result
            (λ text. IsTold (door_names self.old) (past (door_journal self.new)) head text.items) }
    {
        let _board = self.desk.board();
        Err(AllocError)
    }
}

impl<'a, P: Probe, K: Keep> BoardDoor for DeskDoor<'a, P, K> {
    fn catalogue(&self) -> &Catalogue {
        self.catalogue
    }

    fn board(&mut self) -> u64 {
        self.desk.board()
    }
}
