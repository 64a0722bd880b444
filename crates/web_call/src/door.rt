use desk_core::{Behind, Watch};
use health_wire::Serving;
use plain::Inquiry;
use std::alloc::{AllocError, Global};

/// What an exchange asks for statuses: a catalogue that stays, and a history of the registry that each call may look at anew.
///
/// `seen` is the history that it has seen, the newest entry first, and `follows` says how one call may change it: exactly one entry
/// more, say, or any number. `stays` says what else of the door every call keeps, so that whoever lends something to a door knows of
/// it afterwards. `kept` is how many changes the registry keeps, or none where it keeps all. `is_plain` says that it answers plain requests
/// too, which are no calls. Each call may wait.
pub trait Door {
    ghost use Rattle.std.specs.Prelude.{◌≡◌, ◌↔◌, ℕ, Bool, true, List, Option, IsErr, IfOk, OnOk, OnErr};
    ghost use Rattle.desk_core.specs.declared.entry.Entry.{Entry};
    ghost use Rattle.desk_core.specs.Catalogue.{slot_of};
    ghost use Rattle.desk_core.specs.Changes.{changes_of};
    ghost use Rattle.desk_core.specs.Legal.{IsLegal};
    ghost use Rattle.desk_core.specs.Status.{shown, status_map};
    ghost use Rattle.desk_core.specs.Watch.{IsBehind, opened, stepped};
    ghost use Rattle.plain.specs.Answer.{IsInquiryOf, IsTold};
    ghost use Rattle.plain.specs.Inquiry.{asked_of};

    ghost names: { Self → List (List ℕ) };

    ghost seen: { Self → List Entry };

    ghost follows: { List Entry → List Entry → Type 0 };

    ghost kept: { Option ℕ };

    ghost is_plain: { Bool };

    ghost stays: { Self → Self → Type 0 };

    ghost stays_self: { (a : Self) → stays a a };

    ghost stays_on: { (a b c : Self) → stays a b → stays b c → stays a c };

    /// What a Check of the name answers; none for a name that is not registered.
    fn check(&mut self, name: &str) -> Option<Serving>
        ensures names { names self.new ≡ names self.old }
        ensures legal { IsLegal (seen self.new) }
        ensures follows { follows (seen self.old) (seen self.new) }
        ensures stays { stays self.old self.new }
        ensures status { result ≡ status_map (names self.old) (seen self.new) name.now };

    /// What a watcher of the name is shown now, and a watch of what changes from now on.
    fn open(&mut self, name: &str) -> (Watch, Serving)
        ensures names { names self.new ≡ names self.old }
        ensures legal { IsLegal (seen self.new) }
        ensures follows { follows (seen self.old) (seen self.new) }
        ensures stays { stays self.old self.new }
        ensures watch { result.0 ≡ opened (changes_of (seen self.new))
            (slot_of (names self.old) name.now) }
        ensures status { result.1 ≡ shown (seen self.new) (slot_of (names self.old) name.now) };

    /// The next status change of the watch's service, if there is one by now, unless the watch is behind: then it stays as it is.
    fn step(&mut self, watch: &mut Watch) -> Result<Option<Serving>, Behind>
        ensures names { names self.new ≡ names self.old }
        ensures legal { IsLegal (seen self.new) }
        ensures follows { follows (seen self.old) (seen self.new) }
        ensures stays { stays self.old self.new }
        ensures status { IfOk result (λ status.
            status ≡ (stepped (changes_of (seen self.new)) watch.old).0) }
        ensures watch { OnOk result
            (watch.new ≡ (stepped (changes_of (seen self.new)) watch.old).1) }
        ensures behind { IsErr result ↔ IsBehind kept (changes_of (seen self.new)) watch.old }
        ensures left { OnErr result (watch.new ≡ watch.old) };

    /// Whether it answers plain requests.
    fn answers_plainly(&self) -> bool
        ensures { result ≡ is_plain };

    /// The whole text that answers a plain request, from one point of the history.
    fn tell(&mut self, alloc: Global, inquiry: &Inquiry<'_>) -> Result<Vec<u8>, AllocError>
        requires { is_plain ≡ true }
        ensures names { names self.new ≡ names self.old }
        ensures legal { IsLegal (seen self.new) }
        ensures follows { follows (seen self.old) (seen self.new) }
        ensures stays { stays self.old self.new }
        ensures told { (head : List ℕ) → IsInquiryOf head (asked_of inquiry.now) → IfOk result (λ text.
            IsTold (names self.old) (seen self.new) head text.items) };

    /// Lets the steps behind it see what has changed by then. A door may tell steps in a row of what it took over at the first of them,
    /// so whoever has Watches step at any door has to renew it between their looks.
    fn renew(&mut self)
        ensures names { names self.new ≡ names self.old }
        ensures seen { seen self.new ≡ seen self.old }
        ensures stays { stays self.old self.new }
    {}
}
