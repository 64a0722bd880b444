ghost use Rattle.std.specs.Prelude.{◌≡◌, ◌<◌, ◌+◌, ◌*◌, ◌^◌, unwrap_or};
ghost use Rattle.std.specs.List.{list_any};
ghost use Rattle.desk_core.specs.Silence.{retimes};
ghost use Rattle.desk_core.specs.Shut.{says_shut};

use crate::call::{Call, Finding, Setting};
use crate::change::{Change, shown};
use crate::entry::Entry;
use crate::history::History;
use crate::keep::{Capacity, Keep, KeepAll};
use crate::latest::LatestOfAll;
use crate::lawful::is_lawful_call;
use crate::made::Made;
use crate::marks::{Mark, Marks};
use crate::reason::{Cause, Reason};
use crate::recall::Recall;
use crate::refusal::Refusal;
use crate::registration::{Handed, Registered};
use crate::reply::{Reply, reply_to_event, reply_to_register, reply_to_retire};
use crate::slot::Slot;
use crate::slots::Slots;
use crate::standing::Standing;
use crate::status::first_down;
use crate::status_word::StatusWord;
use crate::store::store_entry;
use crate::transcript::Transcript;
use crate::watch::{Behind, Watch};
use health_wire::Serving;
use probe_core::{Probe, Rule};
use std::alloc::{AllocError, Global};
use std::marker::Model;

/// The registry of one thread: it owns the probes of sixteen slots, and the journal of all changes, of which it keeps as many as
/// `K` says. What it has forgotten shows in `journal_kept` and `step_kept` alone. Where it has a store, each entry is stored before
/// anything shows it.
pub struct Desk<P: Probe, K: Keep = KeepAll> {
    slots: Slots<P>,
    is_shut: bool,
    history: History,
    marks: Marks,
    latest: LatestOfAll,
    max_entries: u32,
    store: Option<K>,
}

impl<P: Probe, K: Keep> Drop for Desk<P, K> {
    fn drop(self) {
        let Desk {
            slots: _,
            is_shut: _,
            history: _,
            marks: _,
            latest: _,
            max_entries: _,
            store: _,
        } = self;
    }
}

impl<P: Probe, K: Keep> Model for Desk<P, K> {
    ghost use Rattle.std.specs.Prelude.{◌≡◌, length};
    ghost use Rattle.desk_core.specs.Desk.{State, IsDesk};
    ghost use Rattle.desk_core.specs.Latest.{AreLatest};
    ghost use Rattle.desk_core.specs.Marks.{HasMarks};
    ghost use Rattle.desk_core.specs.Left.{left_of, is_stored, Holds, StandsIf};
    ghost use Rattle.desk_core.specs.Past.{past};

    ghost Value = { State };

    ghost view = { λ desk. record {
      journal = desk.history.journal.items;
      max_entries = desk.max_entries;
      capacity = record {
        entries = desk.history.journal.capacity;
        changes = desk.history.changes.capacity;
      };
      places = length desk.slots.places.items;
      is_stored = is_stored desk.store;
      left = left_of K.left desk.store;
    } };

    ghost invariant = { λ desk.
        IsDesk desk.slots.places.items desk.is_shut desk.history.journal.items
        desk.history.changes.items desk.history.cache.statuses
        desk.history.cache.dependents desk.max_entries
        × (desk.history.journal.keep ≡ K.kept) × (desk.history.changes.keep ≡ K.kept)
        × HasMarks (past desk.history.journal.items) desk.marks.shut desk.marks.slots
        × AreLatest (past desk.history.journal.items) desk.latest.slots
        × StandsIf K.stands desk.store desk.history.journal.items
        × Holds (left_of K.left desk.store) desk.history.journal.items };
}

impl<P: Probe, K: Keep> Desk<P, K> {
    ghost use Rattle.desk_core.specs.declared.change.Change.{Change};
    ghost use Rattle.std.specs.Prelude.{◌≡◌, ◌≢◌, ◌<◌, ◌≤◌, ◌↔◌, ◌+◌, ◌-◌, ◌++◌, ℕ, List, length, take, drop, None, Some, Ok, Err, true, IfSome, IsSome, IfNone, IfOk, IfErr, IsErr, IsTrue, IsFalse, OnOk, OnErr, MatchResult};
    ghost use Rattle.std.specs.Option.{option_map};
    ghost use Rattle.desk_core.specs.Past.{past};
    ghost use Rattle.desk_core.specs.Mutation.{rule_of};
    ghost use Rattle.desk_core.specs.Present.{rule_at};
    ghost use Rattle.desk_core.specs.Reply.{reply_to};
    ghost use Rattle.desk_core.specs.Legal.{IsLegal, IsLawfulCall};
    ghost use Rattle.desk_core.specs.Status.{checked, shown};
    ghost use Rattle.desk_core.specs.Changes.{Shows, changes_of};
    ghost use Rattle.desk_core.specs.Transcript.{IsCopy, IsCopyWithin};
    ghost use Rattle.desk_core.specs.Watch.{IsBehind, opened, stepped};
    ghost use Rattle.tail.specs.Tail.{kept_of, most_held};
    ghost use Rattle.desk_core.specs.Board.{board_of};
    ghost use Rattle.desk_core.specs.Silence.{is_to_fail};
    ghost use Rattle.desk_core.specs.Marks.{IsMark, IsRuleFor};
    ghost use Rattle.desk_core.specs.Recall.{recalled};
    ghost use Rattle.desk_core.specs.Standing.{standing_at};
    ghost use Rattle.desk_core.specs.Reason.{absent_by, down_by, named, not_serving_by, reason_at};
    ghost use Rattle.tail.specs.Tail.{forgotten};
    ghost use Rattle.std.specs.Vec.{vec_len, vec_capacity};
    ghost use Rattle.desk_core.specs.Desk.{HasAnswered, HoldsMemory, IsAtLimit, new_desk, with_store, probe_at, probe_of};
    ghost use Rattle.desk_core.specs.Left.{Holds};

    /// An empty desk, whose journal takes at most so many entries. It takes no memory yet.
    pub fn new(alloc: Global, max_entries: u32) -> Desk<P, K>
        ensures { result ≡ new_desk max_entries }
    {
        Desk {
            slots: Slots::new(alloc),
            is_shut: false,
            history: History::new(alloc, K::kept()),
            marks: Marks::new(),
            latest: LatestOfAll::new(),
            max_entries,
            store: None,
        }
    }

    /// The same desk over a store that has its journal. It stores each entry from now on.
    pub fn stored_in(self, store: K) -> Desk<P, K>
        requires stands { K.stands store self.journal }
        requires holds { Holds (K.left store) self.journal }
        ensures { result ≡ with_store self (K.left store) }
    {
        let mut desk = self;
        desk.store = Some(store);
        desk
    }

    /// The store, which has the desk's journal, if there is one.
    pub fn into_store(self) -> Option<K>
        ensures stands { IfSome result (λ store. K.stands store self.journal) }
        ensures left { IfSome result (λ store. K.left store ≡ self.left) }
        ensures some { self.is_stored ≡ true → IsSome result }
    {
        let Desk {
            store,
            slots: _,
            is_shut: _,
            history: _,
            marks: _,
            latest: _,
            max_entries: _,
        } = self;
        store
    }

    /// Whether it has a store.
    pub fn is_stored(&self) -> bool
        // A desk keeps that a crash takes nothing back; here a caller learns it.
        ensures stored { result ≡ self.now.is_stored }
        ensures kept { Holds self.now.left self.now.journal }
    {
        self.store.is_some()
    }

    /// The entries that are kept, the oldest first.
    pub fn journal_kept(&self) -> &[Entry]
        ensures { result.now ≡ kept_of K.kept self.now.journal }
    {
        self.history.journal()
    }

    /// For how many entries and changes there is memory.
    pub fn capacity(&self) -> Capacity
        ensures capacity { result ≡ self.now.capacity }
        ensures entries { length (kept_of K.kept self.now.journal) ≤ result.entries }
        ensures changes { length (kept_of K.kept (changes_of (past self.now.journal)))
            ≤ result.changes }
        ensures most { IfSome K.kept (λ kept.
            (result.entries ≤ most_held kept) × (result.changes ≤ most_held kept)) }
    {
        self.history.capacity()
    }

    /// Makes a change, with the probe that it registers, in its opening state, if it registers one. Gives back the probe that it
    /// takes out, or where it is refused the one that was handed in.
    pub fn change(
        &mut self,
        seat: u16,
        call: Call,
        probe: Option<P>,
    ) -> Result<Made<P>, (Refusal, Option<P>)>
        requires ruled { option_map P.rule probe ≡ rule_of call }
        ensures answered { MatchResult result
            (λ made. HasAnswered self.old self.new seat call (Ok made.reply))
            (λ refused. HasAnswered self.old self.new seat call (Err refused.0)) }
        ensures old { IfOk result (λ made. option_map (λ p. (P.rule p, P.memory p)) made.old
            ≡ probe_of (past self.old.journal) call) }
        ensures shows { IfOk result (λ made.
            IsTrue made.shows ↔ Shows (past self.new.journal)) }
        ensures placed { IfOk result (λ made. (16 ≤ self.new.places)
            × (length self.new.journal ≡ made.at + 1)) }
        ensures handed_back { IfErr result (λ refused. refused.1 ≡ probe) }
        ensures full { IsAtLimit K.kept self.old
            → IfErr result (λ refused. refused.0 ≢ Refusal.NoMemory) }
        ensures holds { HoldsMemory self.old self.new }
    {
        if let Some(refusal) = self.refusal_of(&call) {
            return Err((refusal, probe));
        }
        let reply = self.reply_to(&call);
        let rule = self.rule_for(&call);
        let entry = Entry { seat, call, reply };
        let Ok(()) = self.slots.reserve() else {
            return Err((Refusal::NoMemory, probe));
        };
        let Ok(()) = self.history.reserve() else {
            return Err((Refusal::NoMemory, probe));
        };
        let Ok(()) = store_entry(&mut self.store, entry) else {
            return Err((Refusal::NotStored, probe));
        };
        let at = self.history.append(seat, call, reply);
        self.marks.note(&call, reply, rule, at);
        let old = self.slots.apply(&call, reply, probe);
        self.is_shut = shut_after(self.is_shut, &call);
        let before = self.history.statuses();
        let shows = self.history.show(&self.slots, self.is_shut, &call, at);
        self.latest
            .note(&entry, at, before, self.history.statuses());
        Ok(Made {
            reply,
            old,
            shows,
            at,
        })
    }

    /// Why the change is refused, other than out of memory.
    fn refusal_of(&self, call: &Call) -> Option<Refusal>
        ensures some { (seat : ℕ) → IfSome result (λ refusal.
            HasAnswered self.now self.now seat call.now (Err refusal)) }
        ensures other { IfSome result (λ refusal.
            (refusal ≢ Refusal.NoMemory) × (refusal ≢ Refusal.NotStored)) }
        ensures none { IfNone result
            (IsLawfulCall call.now × (length self.now.journal < self.now.max_entries)) }
    {
        let entries = self.history.len();
        if !is_lawful_call(call) {
            return Some(Refusal::BadRule);
        }
        if entries >= u64::from(self.max_entries) {
            return Some(Refusal::Full);
        }
        None
    }

    fn reply_to(&self, call: &Call) -> Reply
        ensures { result ≡ reply_to (past self.now.journal) call.now }
    {
        match call {
            Call::Register(slot, _) => reply_to_register(self.rule(*slot)),
            Call::Retire(slot) => reply_to_retire(self.rule(*slot)),
            Call::Observe(slot, finding) => {
                reply_to_event(self.rule(*slot), self.is_shut, finding.event())
            }
            Call::Set(slot, setting) => {
                reply_to_event(self.rule(*slot), self.is_shut, setting.event())
            }
            Call::Shutdown | Call::Resume => Reply::Done,
        }
    }

    /// The rule of the slot that a report is of.
    fn rule_for(&self, call: &Call) -> Option<Rule>
        ensures { IsRuleFor (past self.now.journal) call.now result }
    {
        match call {
            Call::Observe(slot, _) => self.rule(*slot),
            _ => None,
        }
    }

    /// The rule that the slot is registered by.
    pub fn rule(&self, slot: Slot) -> Option<Rule>
        ensures { result ≡ rule_at (past self.now.journal) slot }
    {
        self.slots.rule(slot)
    }

    /// Puts a probe, in its opening state, into the slot.
    pub fn register(&mut self, seat: u16, slot: Slot, probe: P) -> Result<Registered<P>, Handed<P>>
        ensures answered { let call : Call = Call.Register slot (P.rule probe) in MatchResult result
            (λ taken. HasAnswered self.old self.new seat call (Ok taken.reply))
            (λ handed. HasAnswered self.old self.new seat call (Err handed.refusal)) }
        ensures old { IfOk result (λ taken. option_map (λ p. (P.rule p, P.memory p)) taken.old
            ≡ probe_at (past self.old.journal) slot) }
        ensures handed_back { IfErr result (λ handed. handed.probe ≡ probe) }
        ensures full { IsAtLimit K.kept self.old
            → IfErr result (λ handed. handed.refusal ≢ Refusal.NoMemory) }
        ensures holds { HoldsMemory self.old self.new }
        ensures placed { IfOk result (λ taken. 16 ≤ self.new.places) }
    {
        let call = Call::Register(slot, probe.rule());
        match self.change(seat, call, Some(probe)) {
            Ok(Made { reply, old, .. }) => Ok(Registered { reply, old }),
            Err((refusal, probe)) => Err(Handed {
                refusal,
                probe: probe.unwrap(),
            }),
        }
    }

    /// Takes the slot's probe out, if there is one.
    pub fn retire(&mut self, seat: u16, slot: Slot) -> Result<(Reply, Option<P>), Refusal>
        ensures answered { MatchResult result
            (λ taken. HasAnswered self.old self.new seat (Call.Retire slot) (Ok taken.0))
            (λ refusal. HasAnswered self.old self.new seat (Call.Retire slot) (Err refusal)) }
        ensures old { IfOk result (λ taken. option_map (λ p. (P.rule p, P.memory p)) taken.1
            ≡ probe_at (past self.old.journal) slot) }
        ensures full { IsAtLimit K.kept self.old
            → IfErr result (λ refusal. refusal ≢ Refusal.NoMemory) }
        ensures holds { HoldsMemory self.old self.new }
        ensures placed { IfOk result (λ taken. 16 ≤ self.new.places) }
    {
        match self.change(seat, Call::Retire(slot), None) {
            Ok(Made { reply, old, .. }) => Ok((reply, old)),
            Err((refusal, _)) => Err(refusal),
        }
    }

    /// Lets the slot's probe hear a finding.
    pub fn observe(&mut self, seat: u16, slot: Slot, finding: Finding) -> Result<Reply, Refusal>
        ensures answered { HasAnswered self.old self.new seat (Call.Observe slot finding) result }
        ensures full { IsAtLimit K.kept self.old → result ≢ Err Refusal.NoMemory }
        ensures holds { HoldsMemory self.old self.new }
        ensures placed { IfOk result (λ reply. 16 ≤ self.new.places) }
    {
        self.make(seat, Call::Observe(slot, finding))
    }

    /// Lets the slot's probe hear a setting.
    pub fn set(&mut self, seat: u16, slot: Slot, setting: Setting) -> Result<Reply, Refusal>
        ensures answered { HasAnswered self.old self.new seat (Call.Set slot setting) result }
        ensures full { IsAtLimit K.kept self.old → result ≢ Err Refusal.NoMemory }
        ensures holds { HoldsMemory self.old self.new }
        ensures placed { IfOk result (λ reply. 16 ≤ self.new.places) }
    {
        self.make(seat, Call::Set(slot, setting))
    }

    /// Shows every registered service as not serving, until the next resume.
    pub fn shutdown(&mut self, seat: u16) -> Result<Reply, Refusal>
        ensures answered { HasAnswered self.old self.new seat Call.Shutdown result }
        ensures full { IsAtLimit K.kept self.old → result ≢ Err Refusal.NoMemory }
        ensures holds { HoldsMemory self.old self.new }
        ensures placed { IfOk result (λ reply. 16 ≤ self.new.places) }
    {
        self.make(seat, Call::Shutdown)
    }

    /// Takes every probe back to its opening state, also where nothing was shut down.
    pub fn resume(&mut self, seat: u16) -> Result<Reply, Refusal>
        ensures answered { HasAnswered self.old self.new seat Call.Resume result }
        ensures full { IsAtLimit K.kept self.old → result ≢ Err Refusal.NoMemory }
        ensures holds { HoldsMemory self.old self.new }
        ensures placed { IfOk result (λ reply. 16 ≤ self.new.places) }
    {
        self.make(seat, Call::Resume)
    }

    /// Makes a change that registers nothing.
    fn make(&mut self, seat: u16, call: Call) -> Result<Reply, Refusal>
        requires { rule_of call ≡ None }
        ensures answered { HasAnswered self.old self.new seat call result }
        ensures full { IsAtLimit K.kept self.old → result ≢ Err Refusal.NoMemory }
        ensures holds { HoldsMemory self.old self.new }
        ensures placed { IfOk result (λ reply. 16 ≤ self.new.places) }
    {
        match self.change(seat, call, None) {
            Ok(made) => Ok(made.reply),
            Err((refusal, _)) => Err(refusal),
        }
    }

    /// What a Check answers for the slot, or for a name that has none.
    pub fn check(&self, slot: Option<Slot>) -> Option<Serving>
        ensures status { result ≡ checked (past self.now.journal) slot }
        ensures legal { IsLegal (past self.now.journal) }
    {
        self.history.statuses().get(slot?)
    }

    /// Why the slot has the status that it has: which entries made it so, as far as they are kept.
    pub fn why(&self, slot: Slot) -> Reason
        ensures reason { result ≡ reason_at K.kept (past self.now.journal) slot }
        ensures legal { IsLegal (past self.now.journal) }
    {
        let mark = self.marks.of(slot);
        match self.check(Some(slot)) {
            None => self.why_absent(mark),
            Some(Serving::Serving) => Reason::Serving,
            Some(Serving::Unknown) => Reason::Unheard(self.named(mark.forgot)),
            Some(Serving::NotServing | Serving::ServiceUnknown) => self.why_not_serving(slot, mark),
        }
    }

    /// Why the slot has its status, since when, and when it was reported last.
    pub fn standing(&self, slot: Slot) -> Standing
        ensures standing { result ≡ standing_at K.kept (past self.now.journal) slot }
        ensures legal { IsLegal (past self.now.journal) }
    {
        let latest = self.latest.of(slot);
        Standing {
            reason: self.why(slot),
            since: latest.shown,
            reported: latest.reported,
        }
    }

    fn why_absent(&self, mark: Mark) -> Reason
        ensures { result ≡ absent_by K.kept (past self.now.journal) mark.retired }
    {
        match mark.retired {
            None => Reason::NeverRegistered,
            Some(_) => Reason::Retired(self.named(mark.retired)),
        }
    }

    fn why_not_serving(&self, slot: Slot, mark: Mark) -> Reason
        requires { IsMark (past self.now.journal) slot mark }
        ensures { result ≡ not_serving_by K.kept (past self.now.journal) slot
            (rule_at (past self.now.journal) slot) }
    {
        match self.rule(slot) {
            None => self.why_absent(mark),
            Some(_) if self.is_shut => Reason::ShutDown(self.named(self.marks.shut())),
            Some(rule) => self.why_down(slot, rule, mark),
        }
    }

    /// Why a slot of this rule is not serving while the server is not shut down.
    fn why_down(&self, slot: Slot, rule: Rule, mark: Mark) -> Reason
        requires ruled { rule_at (past self.now.journal) slot ≡ Some rule }
        requires mark { IsMark (past self.now.journal) slot mark }
        ensures { result ≡ down_by K.kept (past self.now.journal) slot rule }
    {
        match rule {
            Rule::Threshold(fall, rise, _) => Reason::Failed {
                fails: fall,
                cause: self.named(mark.down),
                passes: mark.passes,
                rise,
            },
            Rule::Manual => Reason::SetDown(self.named(mark.down)),
            Rule::Depends(mask) => match first_down(self.history.statuses(), mask) {
                Some(slot) => Reason::DependsOn(slot),
                None => Reason::Serving,
            },
        }
    }

    /// The entry at this place, and whether it is kept.
    fn named(&self, place: Option<u32>) -> Cause
        ensures { result ≡ named K.kept (past self.now.journal) place }
    {
        match place {
            Some(place) => Cause {
                place,
                is_kept: self.history.since(u64::from(place)).is_some(),
            },
            None => Cause {
                place: 0,
                is_kept: false,
            },
        }
    }

    /// How many entries there are and the status of each slot, in one word.
    pub fn board(&self) -> u64
        ensures word { result ≡ board_of (past self.now.journal) }
        ensures legal { IsLegal (past self.now.journal) }
        ensures room { length self.now.journal ≤ self.now.max_entries }
    {
        word_of(self.history.len(), self.history.statuses())
    }

    /// What is shown of the slot now, or of a name that has none, and a watch of what changes from now on.
    pub fn open(&self, slot: Option<Slot>) -> (Watch, Serving)
        ensures watch { result.0 ≡ opened (changes_of (past self.now.journal)) slot }
        ensures status { result.1 ≡ shown (past self.now.journal) slot }
        ensures legal { IsLegal (past self.now.journal) }
    {
        let watch = Watch::new(self.history.changes(), slot);
        let status = shown(self.check(watch.slot()));
        (watch, status)
    }

    /// The same as `step`, unless the watch is behind: then it stays as it is, and is behind for good.
    pub fn step_kept(&self, watch: &mut Watch) -> Result<Option<Serving>, Behind>
        ensures status { IfOk result
            (λ status. status ≡ (stepped (changes_of (past self.now.journal)) watch.old).0) }
        ensures watch { OnOk result (watch.new
            ≡ (stepped (changes_of (past self.now.journal)) watch.old).1) }
        ensures behind { IsErr result
            ↔ IsBehind K.kept (changes_of (past self.now.journal)) watch.old }
        ensures stays { OnErr result (watch.new ≡ watch.old) }
        ensures legal { IsLegal (past self.now.journal) }
    {
        watch.step(self.history.changes())
    }

    /// Takes over into the copy what has changed since it was made. Where memory runs out, the copy is still of what it was.
    pub fn copy_to(&self, copy: &mut Transcript<K>) -> Result<(), AllocError>
        requires { IsCopyWithin copy.old (changes_of (past self.now.journal)) }
        ensures copied { OnOk result
            (IsCopy copy.new (changes_of (past self.now.journal))) }
        ensures left { (changes : List Change) → IsCopy copy.old changes
            → OnErr result (IsCopy copy.new changes) }
        ensures legal { IsLegal (past self.now.journal) }
    {
        copy.follow(self.history.changes())
    }

    /// Copies entries from this place of the journal on, the oldest first, as many as there is room for. It copies none, and says so,
    /// where one of them is forgotten.
    pub fn copy_entries(&self, from: u64, entries: &mut Vec<Entry>) -> bool
        ensures copied { IsTrue result → entries.new.items ≡ entries.old.items
            ++ take (vec_capacity entries.old - vec_len entries.old) (drop from self.now.journal) }
        ensures none { IsFalse result → entries.new ≡ entries.old }
        ensures forgotten { IsFalse result
            ↔ (from < forgotten K.kept (length self.now.journal)) }
        ensures room { vec_capacity entries.old ≤ vec_capacity entries.new }
        ensures legal { IsLegal (past self.now.journal) }
    {
        let Some(found) = self.history.since(from) else {
            return false;
        };
        let room = entries.capacity() - entries.len();
        entries
            .extend_from_slice(&found[..room.min(found.len())])
            .unwrap();
        true
    }

    /// The same of status changes, with places in the list of them.
    pub fn copy_changes(&self, from: u64, changes: &mut Vec<Change>) -> bool
        ensures copied { IsTrue result → changes.new.items ≡ changes.old.items
            ++ take (vec_capacity changes.old - vec_len changes.old)
            (drop from (changes_of (past self.now.journal))) }
        ensures none { IsFalse result → changes.new ≡ changes.old }
        ensures forgotten { IsFalse result
            ↔ (from < forgotten K.kept (length (changes_of (past self.now.journal)))) }
        ensures room { vec_capacity changes.old ≤ vec_capacity changes.new }
        ensures legal { IsLegal (past self.now.journal) }
    {
        let Some(found) = self.history.changes().since(from) else {
            return false;
        };
        let room = changes.capacity() - changes.len();
        changes
            .extend_from_slice(&found[..room.min(found.len())])
            .unwrap();
        true
    }

    /// What is still known of the entry at this place.
    pub fn recall(&self, place: u32) -> Recall
        ensures recalled { result ≡ recalled K.kept self.now.journal place }
        ensures legal { IsLegal (past self.now.journal) }
    {
        match self.history.since(u64::from(place)) {
            None => Recall::Forgotten,
            Some([]) => Recall::NoneYet,
            Some([entry, ..]) => Recall::Kept(*entry),
        }
    }

    /// Whether a fail is to be made of the slot, of which this seat has heard nothing up to this place of the journal for as long as it
    /// is to be heard: where it was heard since, or its place is forgotten, it is not.
    pub fn is_to_fail(&self, seat: u16, slot: Slot, from: u64) -> bool
        ensures value { result ≡ is_to_fail K.kept seat slot from (past self.now.journal) }
        ensures legal { IsLegal (past self.now.journal) }
    {
        let Some(entries) = self.history.since(from) else {
            return false;
        };
        if self.is_shut || is_retimed(entries, seat, slot) {
            return false;
        }
        self.slots.may_fall(slot)
    }
}

/// Whether one of the entries begins the slot's time anew, or ends what is expected of it.
fn is_retimed(entries: &[Entry], seat: u16, slot: Slot) -> bool
    ensures { result ≡ list_any (λ entry. retimes seat slot entry) entries.now }
{
    entries.iter().any(|entry| entry.retimes(seat, slot))
}

/// What a desk that keeps all can tell.
impl<P: Probe> Desk<P, KeepAll> {
    ghost use Rattle.std.specs.Prelude.{◌≡◌, ◌≤◌, length};
    ghost use Rattle.desk_core.specs.Past.{past};
    ghost use Rattle.desk_core.specs.Legal.{IsLegal};
    ghost use Rattle.desk_core.specs.Changes.{changes_of};
    ghost use Rattle.desk_core.specs.Watch.{stepped};

    /// All entries, the oldest first.
    pub fn journal(&self) -> &[Entry]
        ensures entries { result.now ≡ self.now.journal }
        ensures legal { IsLegal (past result.now) }
        ensures room { length result.now ≤ self.now.max_entries }
    {
        self.history.journal()
    }

    /// Answers the next status change of the watch's service and moves the watch past it, or to the end of the status changes where
    /// there is none. It passes over those of other services, which is what it costs. A watch of another desk is answered by those
    /// of this one.
    pub fn step(&self, watch: &mut Watch) -> Option<Serving>
        ensures status { result ≡ (stepped (changes_of (past self.now.journal)) watch.old).0 }
        ensures watch { watch.new ≡ (stepped (changes_of (past self.now.journal)) watch.old).1 }
        ensures legal { IsLegal (past self.now.journal) }
    {
        match self.step_kept(watch) {
            Ok(status) => status,
            Err(Behind) => unreachable!(),
        }
    }

    /// What the entries of the journal changed for watchers, the oldest first, and for one entry by slot.
    pub fn changes(&self) -> &[Change]
        ensures changes { result.now ≡ changes_of (past self.now.journal) }
        ensures legal { IsLegal (past self.now.journal) }
    {
        self.history.changes().kept()
    }
}

/// Whether the server is shut down after the call.
fn shut_after(is_shut: bool, call: &Call) -> bool
    ensures { result ≡ unwrap_or (says_shut call.now) is_shut }
{
    match call {
        Call::Shutdown => true,
        Call::Resume => false,
        Call::Register(..) | Call::Retire(_) | Call::Observe(..) | Call::Set(..) => is_shut,
    }
}

fn word_of(entries: u64, statuses: StatusWord) -> u64
    requires { entries < 2 ^ 32 }
    ensures { result ≡ entries * 2 ^ 32 + statuses }
{
    (entries << 32) + u64::from(statuses.word())
}
