use crate::known::Known;
use crate::lawful::{is_lawful_call, reply_to};
use crate::next::{note_call, shut_after};
use crate::short::{push, push_known};
use desk_core::{Call, Entry, Slot};
use std::alloc::{AllocError, Global};
use std::marker::Model;

/// What a history of the registry comes to: the rule and the memory of each slot's probe, whether the server is shut down, and how
/// many entries there were.
#[derive(Drop)]
pub struct Digest {
    slots: [Option<Known>; 16],
    is_shut: bool,
    count: u64,
}

impl Model for Digest {
    ghost use Rattle.std.specs.Prelude.{◌≡◌, length};
    ghost use Rattle.journal_store.specs.Digest.{Summary};

    ghost Value = { Summary };

    ghost view = { λ digest. record {
      probes = digest.slots;
      is_shut = digest.is_shut;
      len = digest.count;
    } };

    ghost invariant = { λ digest. length digest.slots ≡ 16 };
}

impl Digest {
    ghost use Rattle.std.specs.Prelude.{◌≡◌, ◌↔◌, ◌+◌, ◌*◌, ◌^◌, ◌<◌, ◌≤◌, ◌∷◌, [], List, true, false, length, All, IfOk};
    ghost use Rattle.std.specs.Vec.{vec_len};
    ghost use Rattle.desk_core.specs.declared.entry.Entry.{Entry};
    ghost use Rattle.desk_core.specs.Legal.{IsLegal};
    ghost use Rattle.desk_core.specs.Past.{past};
    ghost use Rattle.journal_store.specs.Alike.{AreAlike};
    ghost use Rattle.journal_store.specs.Digest.{IsDigest};
    ghost use Rattle.journal_store.specs.Short.{AllCanStand, IsMade};

    /// The digest of an empty history.
    pub fn new() -> Digest
        ensures { IsDigest result [] }
    {
        Digest {
            slots: [None; 16],
            is_shut: false,
            count: 0,
        }
    }

    /// The digest of a journal, the oldest entry first.
    pub fn of(journal: &[Entry]) -> Digest
        requires { IsLegal (past journal.now) }
        ensures { IsDigest result (past journal.now) }
    {
        let mut digest = Digest::new();
        for entry in journal {
            digest.note(entry);
        }
        digest
    }

    /// Takes one more entry of the history in, behind those before it.
    pub fn note(&mut self, entry: &Entry)
        ensures { (history : List Entry) → IsDigest self.old history
            → IsLegal (entry.now ∷ history) → length history + 1 < 2 ^ 64
            → IsDigest self.new (entry.now ∷ history) }
    {
        note_call(&mut self.slots, self.is_shut, &entry.call);
        self.is_shut = shut_after(self.is_shut, &entry.call);
        self.count = self.count.saturating_add(1);
    }

    /// Takes one more entry in, if it is legal behind those before it. Says whether it is.
    pub fn take_in(&mut self, entry: &Entry) -> bool
        ensures taken { (history : List Entry) → IsDigest self.old history → result ≡ true
            → length history + 1 < 2 ^ 64 → IsDigest self.new (entry.now ∷ history) }
        ensures refused { (history : List Entry) → IsDigest self.old history → result ≡ false
            → IsLegal (entry.now ∷ history) → ⊥ }
        ensures same { result ≡ false → self.new ≡ self.old }
    {
        if !self.allows(entry) {
            return false;
        }
        self.note(entry);
        true
    }

    /// Whether an entry is legal behind those that were taken in.
    fn allows(&self, entry: &Entry) -> bool
        ensures { (history : List Entry) → IsDigest self.now history
            → (result ≡ true) ↔ IsLegal (entry.now ∷ history) }
    {
        is_lawful_call(&entry.call)
            && entry.reply == reply_to(&self.slots, self.is_shut, &entry.call)
    }

    /// How many entries were taken in.
    pub fn len(&self) -> u64
        ensures { result ≡ self.now.len }
    {
        self.count
    }

    /// A short history that makes a registry what this one made it, the oldest entry first.
    pub fn entries(&self, alloc: Global) -> Result<Vec<Entry>, AllocError>
        ensures legal { (history : List Entry) → IsDigest self.now history
            → IfOk result (λ entries. IsLegal (past entries.items)) }
        ensures alike { (history : List Entry) → IsDigest self.now history
            → IfOk result (λ entries. AreAlike (past entries.items) history) }
        ensures seats { (history : List Entry) → IsDigest self.now history
            → IfOk result (λ entries. All (λ entry. entry.seat ≡ 0) (past entries.items)) }
        ensures few { (history : List Entry) → IsDigest self.now history
            → IfOk result (λ entries. vec_len entries ≤ 16 * 2001 + 1) }
        // No history that comes to the same is shorter.
        ensures fewest { (history other : List Entry) → IsDigest self.now history
            → AreAlike other history → IfOk result (λ entries. vec_len entries ≤ length other) }
    {
        let mut entries = self.registrations(alloc)?;
        if self.is_shut {
            push(&mut entries, Call::Shutdown)?;
        }
        Ok(entries)
    }

    /// The entries that register the slots, and give each its memory.
    fn registrations(&self, alloc: Global) -> Result<Vec<Entry>, AllocError>
        ensures { AllCanStand self.now.probes
            → IfOk result (λ entries. IsMade self.now.probes 16 (past entries.items)) }
    {
        let mut entries = Vec::new(alloc);
        for number in 0..Slot::COUNT {
            match &self.slots[usize::from(number)] {
                Some(known) => push_known(&mut entries, Slot::new(number).unwrap(), known)?,
                None => {}
            }
        }
        Ok(entries)
    }
}
