ghost use Rattle.std.specs.Prelude.{◌≡◌, ◌-◌, ◌<◌, ◌≤◌, ◌↔◌, ◌⊎◌, if◌then◌else◌, List, ℕ, Bool, Option, Result, take, drop, Some, None, true, false, [], ◌∷◌, ◌++◌, length, All, Contains, IsSome};
ghost use Rattle.std.specs.List.{last_or};
ghost use Rattle.desk_core.specs.declared.call.Call.{Call};
ghost use Rattle.desk_core.specs.declared.call.Call.TheVariants.{Shutdown, Resume};
ghost use Rattle.desk_core.specs.declared.entry.Entry.{Entry};
ghost use Rattle.desk_core.specs.declared.change.Change.{Change};
ghost use Rattle.desk_core.specs.declared.reason.Cause.{Cause};
ghost use Rattle.desk_core.specs.declared.refusal.Refusal.{Refusal};
ghost use Rattle.desk_core.specs.declared.reply.Reply.{Reply};
ghost use Rattle.desk_core.specs.Past.{past};
ghost use Rattle.desk_core.specs.Shut.{is_shut, says_shut};
ghost use Rattle.desk_core.specs.Heard.{heard};
ghost use Rattle.desk_core.specs.Status.{status_at, serving_if, shown, AllServe};
ghost use Rattle.desk_core.specs.Present.{rule_at};
ghost use Rattle.desk_core.specs.Mutation.{IsAnswered, AreAnswered, IsWant};
ghost use Rattle.desk_core.specs.Desk.{State, HasAnsweredAny, TakesNothingBack};
ghost use Rattle.desk_core.specs.Left.{Holds};
ghost use Rattle.desk_core.specs.Reason.{reason_at, status_by_reason};
ghost use Rattle.desk_core.specs.Named.{IsNamed, NamesEntries};
ghost use Rattle.desk_core.specs.Reply.{reply_to};
ghost use Rattle.tail.specs.Tail.{forgotten, kept_of};
ghost use Rattle.desk_core.specs.Changes.{changes_of};
ghost use Rattle.desk_core.specs.Watch.{WatchState, IsBehind, IsOlder, GoOn, last_of, AreChanges, opened, answer_of, cursor_after, told, walk, cursor_past, story, last_told};
ghost use Rattle.health_wire.specs.declared.serving.Serving.{Serving};
ghost use Rattle.health_wire.specs.declared.serving.Serving.TheVariants.{Unknown, ServiceUnknown, Serving as IsServing};
ghost use Rattle.probe_core.specs.declared.event.Event.{Event};
ghost use Rattle.probe_core.specs.declared.rule.Rule.{Rule};
ghost use Rattle.probe_core.specs.declared.rule.Rule.TheVariants.{Depends};
ghost use Rattle.probe_core.specs.Events.{is_unknown, is_up};
ghost use Rattle.probe_core.specs.Rule.{relied_on};
ghost use Rattle.desk_core.specs.Legal.{IsLegal, IsLawfulCall};
ghost use Rattle.desk_core.specs.Catalogue.{IsCatalogue, HasNoDouble, slot_of, name_at, has_too_long, has_double, has_empty_name};
ghost use Rattle.desk_core.specs.Fault.{fault_in};

/// In a catalogue a name and its slot lead to one another.
pub fn slots_and_names()
    ensures { (names : List (List ℕ)) (name : List ℕ) (slot : ℕ) → IsCatalogue names
        → ((slot_of names name ≡ Some slot) ↔ (name_at names slot ≡ Some name)) }
{}

/// Names without a fault are a catalogue, and no others are.
pub fn faultless_names()
    ensures faultless { (names : List (List ℕ)) → ((fault_in names ≡ None) ↔ IsCatalogue names) }

    // What each look at the names in `fault_in` says of them.
    ensures short { (names : List (List ℕ))
        → ((has_too_long names ≡ false) ↔ All (λ name. length name ≤ 128) names) }
    ensures distinct { (names : List (List ℕ))
        → ((has_double names ≡ false) ↔ HasNoDouble names) }
    ensures has_empty { (names : List (List ℕ))
        → ((has_empty_name names ≡ true) ↔ Contains names []) }
{}

/// The last Shutdown or Resume decides whether the server is shut down, and before the first it is not.
pub fn last_call_decides()
    ensures none { is_shut [] ≡ false }
    ensures shutdown { (entry : Entry) (older : List Entry) → entry.call ≡ Shutdown
        → is_shut (entry ∷ older) ≡ true }
    ensures resume { (entry : Entry) (older : List Entry) → entry.call ≡ Resume
        → is_shut (entry ∷ older) ≡ false }
    ensures others { (entry : Entry) (older : List Entry) → says_shut entry.call ≡ None
        → is_shut (entry ∷ older) ≡ is_shut older }
{}

/// A service that depends on others is serving exactly where each slot of its mask is, while the server is not shut down.
pub fn depends_on_all()
    ensures { (entries : List Entry) (i mask : ℕ) → IsLegal entries
        → rule_at entries i ≡ Some (Depends mask) → is_shut entries ≡ false
        → ((status_at entries i ≡ Some IsServing) ↔ AllServe entries mask) }
{}

/// While the server is not shut down, a service whose rule relies on no other is unknown where it heard nothing and starts unknown, and
/// else serving exactly where it is up by what it heard.
pub fn events_decide()
    ensures { (entries : List Entry) (i : ℕ) (rule : Rule) → rule_at entries i ≡ Some rule
        → relied_on rule ≡ 0 → is_shut entries ≡ false
        → let events : List Event = heard entries i rule in
        status_at entries i
        ≡ Some (if is_unknown rule events then Unknown else serving_if (is_up rule events)) }
{}

/// One more entry with the reply that the history gives keeps it legal.
pub fn legal_growth()
    ensures { (journal : List Entry) (entry : Entry) → IsLegal (past journal)
        → entry.reply ≡ reply_to (past journal) entry.call
        → IsLawfulCall entry.call → IsLegal (past (journal ++ entry ∷ [])) }
{}

/// A front of a legal history is legal.
pub fn legal_fronts()
    ensures { (journal more : List Entry) → IsLegal (past (journal ++ more))
        → IsLegal (past journal) }
{}

/// Where one history goes on from another, its changes begin with those of the other.
pub fn changes_grow()
    ensures { (older entries : List Entry) → IsOlder older entries
        → take (length (changes_of older)) (changes_of entries) ≡ changes_of older }
{}

/// A step of a watcher tells its service's next status change and moves past it, or moves to the end of them where
/// there is none to tell.
pub fn steps_leave_none_out()
    ensures none { (changes : List Change) (watch : WatchState) → answer_of changes watch ≡ None
        → length changes ≤ cursor_after changes watch }
    ensures some { (changes : List Change) (watch : WatchState) (status : Serving)
        → answer_of changes watch ≡ Some status
        → (watch.cursor < cursor_after changes watch)
        × (cursor_after changes watch ≤ length changes) }

    // A step moves past no change of its service but the one that it tells.
    ensures first { (changes : List Change) (watch : WatchState)
        → story changes watch.slot watch.cursor (cursor_after changes watch)
        ≡ told (answer_of changes watch) }
{}

/// The steps of a watcher, taken while the journal grows, tell its service's changes from its opening up to where its
/// cursor then stands: each once, in order, and none left out.
pub fn walks_tell_the_story()
    ensures story { (entries : List Entry) (later : List (List Entry)) (slot : Option ℕ)
        → GoOn entries later
        → walk (opened (changes_of entries) slot) later
        ≡ story (changes_of (last_of entries later)) slot (length (changes_of entries))
        (cursor_past (opened (changes_of entries) slot) later) }
    ensures range { (entries : List Entry) (later : List (List Entry)) (slot : Option ℕ)
        → GoOn entries later
        → (length (changes_of entries) ≤ cursor_past (opened (changes_of entries) slot) later)
        × (cursor_past (opened (changes_of entries) slot) later
        ≤ length (changes_of (last_of entries later))) }
{}

/// Whoever was told all changes of a service knows what is shown of it now: the status of the last one, and before the first
/// SERVICE_UNKNOWN.
pub fn last_change_is_shown()
    ensures { (entries : List Entry) (slot : ℕ) → slot < 16
        → last_told (changes_of entries) slot ≡ shown entries (Some slot) }
{}

/// A watcher whose cursor is at the end of the changes is right: the last status that it was told, counting the one at its
/// opening, is what is shown of its service now.
pub fn watchers_end_up_right()
    ensures walk { (entries : List Entry) (later : List (List Entry)) (slot : ℕ)
        → GoOn entries later → slot < 16
        → let now : List Entry = last_of entries later in
        cursor_past (opened (changes_of entries) (Some slot)) later ≡ length (changes_of now)
        → last_or None
        (shown entries (Some slot) ∷ walk (opened (changes_of entries) (Some slot)) later)
        ≡ Some (shown now (Some slot)) }
    ensures story { (entries : List Entry) (later : List (List Entry)) (slot : ℕ)
        → GoOn entries later → slot < 16
        → let now : List Entry = last_of entries later in
        last_or None (shown entries (Some slot)
        ∷ story (changes_of now) (Some slot) (length (changes_of entries))
        (length (changes_of now)))
        ≡ Some (shown now (Some slot)) }
{}

/// No status is told twice in a row: each change of a service is to another status than the one before it, and each status that a
/// watcher is told is another than the one that it was told before, or was shown at its opening.
pub fn tells_changes_alone()
    ensures changes { (entries : List Entry) (slot : ℕ) → slot < 16
        → AreChanges ServiceUnknown
        (story (changes_of entries) (Some slot) 0 (length (changes_of entries))) }
    ensures walk { (entries : List Entry) (later : List (List Entry)) (slot : ℕ)
        → GoOn entries later → slot < 16
        → AreChanges (shown entries (Some slot))
        (walk (opened (changes_of entries) (Some slot)) later) }
{}

/// A history, and a change that is asked for, have one outcome, whatever else a registry keeps of them: where two registries with this
/// history are asked, and neither wanted for memory or for room in its store, they answer the same, and have the same history afterwards.
pub fn one_outcome()
    ensures { (most seat : ℕ) (before after other : List Entry) (call : Option Call)
        (result another : Result Reply Refusal)
        → IsAnswered most seat before after call result
        → IsAnswered most seat before other call another
        → IsWant result ⊎ IsWant another ⊎ ((result ≡ another) × (after ≡ other)) }
{}

/// Whatever changes a desk with a store answers, a crash takes nothing back: each journal that a crash left, or might have left at any
/// moment of them, begins with the one that the desk had before them.
pub fn nothing_is_taken_back()
    ensures { (old new : State) (calls : List (Option Call)) (results : List (Result Reply Refusal))
        → AreAnswered HasAnsweredAny old new calls results → Holds old.left old.journal
        → TakesNothingBack old new }
{}

/// A watch of a service that is not behind has its next status change among those that are kept: those from its cursor on are a part
/// of them. A watch of no service never is behind.
pub fn kept_changes_suffice()
    ensures cursor { (kept : Option ℕ) (changes : List Change) (watch : WatchState)
        → IsSome watch.slot
        → ((IsBehind kept changes watch → ⊥) ↔ (forgotten kept (length changes) ≤ watch.cursor)) }
    ensures part { (kept : Option ℕ) (changes : List Change) (watch : WatchState)
        → IsSome watch.slot
        → (IsBehind kept changes watch → ⊥)
        → drop watch.cursor changes
        ≡ drop (watch.cursor - forgotten kept (length changes)) (kept_of kept changes) }
    ensures no_slot { (kept : Option ℕ) (changes : List Change) (watch : WatchState)
        → watch.slot ≡ None
        → IsBehind kept changes watch → ⊥ }
{}

/// A watch that is behind stays behind while the history grows.
pub fn behind_for_good()
    ensures { (kept : Option ℕ) (older entries : List Entry) (watch : WatchState)
        → IsOlder older entries → IsBehind kept (changes_of older) watch
        → IsBehind kept (changes_of entries) watch }
{}

/// The reason for the status of a slot is a reason for this status.
pub fn reasons_tell_statuses()
    ensures { (kept : Option ℕ) (entries : List Entry) (i : ℕ) → i ≤ 16
        → status_by_reason (reason_at kept entries i) ≡ status_at entries i }
{}

/// No reason has a cause that names no entry: of a legal history each cause names one that did what the reason says, and that none undid
/// since.
pub fn reasons_name_entries()
    ensures named { (kept : Option ℕ) (entries : List Entry) (i : ℕ) → IsLegal entries
        → NamesEntries kept entries i (reason_at kept entries i) }

    // It is told as an older entry exactly where it is older than those that are kept.
    ensures told { (kept : Option ℕ) (entries : List Entry)
        (kind : Entry → List Entry → Bool) (undoes : Entry → Bool) (cause : Cause)
        → IsNamed kept entries kind undoes cause
        → (cause.place < length entries)
        × ((cause.is_kept ≡ false) ↔ (cause.place < forgotten kept (length entries))) }
{}
