ghost use Rattle.std.specs.Prelude.{◌≡◌, ◌+◌, ◌<◌, ◌≤◌, ◌++◌, ℕ, List, length, Option, Result, ◌∷◌};
ghost use Rattle.desk_core.specs.declared.entry.Entry.{Entry};
ghost use Rattle.desk_core.specs.Legal.{IsLegal};
ghost use Rattle.desk_core.specs.Past.{past};
ghost use Rattle.journal_store.specs.Alike.{AreAlike, Answers, StandAlike};
ghost use Rattle.entry_record.specs.declared.stored.Stored.{Stored};
ghost use Rattle.journal_store.specs.Again.{IsReadAgain};
ghost use Rattle.journal_store.specs.Preface.{Front, HasNoTitle, IsCutShort, IsFront, preface_of};
ghost use Rattle.journal_store.specs.Record.{restored_of};
ghost use Rattle.journal_store.specs.Standing.{IsNext, StandFor};
ghost use Rattle.health_wire.specs.declared.serving.Serving.{Serving};
ghost use Rattle.desk_core.specs.declared.call.Call.{Call};
ghost use Rattle.desk_core.specs.declared.change.Change.{Change};
ghost use Rattle.desk_core.specs.declared.refusal.Refusal.{Refusal};
ghost use Rattle.desk_core.specs.declared.reply.Reply.{Reply};
ghost use Rattle.desk_core.specs.Changes.{changed, changes_of, shown_at};
ghost use Rattle.desk_core.specs.Mutation.{AreAnswered, IsAnswered};
ghost use Rattle.desk_core.specs.Reply.{reply_to};
ghost use Rattle.desk_core.specs.Shut.{is_shut};
ghost use Rattle.desk_core.specs.Status.{checked, shown, status_at, status_map};

/// Alike histories stay alike behind the same newer entries. They give each change the same reply and each service the same status, and
/// a newer entry that is legal behind the one is legal behind the other, where it changes the same statuses.
pub fn alike_for_good()
    ensures later { (newer one other : List Entry) → AreAlike one other
        → IsLegal (newer ++ one) → IsLegal other → AreAlike (newer ++ one) (newer ++ other) }
    ensures legal { (newer one other : List Entry) → AreAlike one other
        → IsLegal (newer ++ one) → IsLegal other → IsLegal (newer ++ other) }
    ensures reply { (one other : List Entry) (call : Call) → AreAlike one other
        → reply_to one call ≡ reply_to other call }
    ensures shut { (one other : List Entry) → AreAlike one other → is_shut one ≡ is_shut other }
    ensures status { (one other : List Entry) (i : ℕ) → AreAlike one other
        → IsLegal one → IsLegal other → status_at one i ≡ status_at other i }
    ensures shown { (one other : List Entry) (slot : Option ℕ) → AreAlike one other
        → IsLegal one → IsLegal other
        → (checked one slot ≡ checked other slot) × (shown one slot ≡ shown other slot) }
    ensures map { (names : List (List ℕ)) (one other : List Entry) (name : List ℕ)
        → AreAlike one other → IsLegal one → IsLegal other
        → status_map names one name ≡ status_map names other name }
    ensures changes { (one other : List Entry) (entry : Entry) (at : ℕ) → AreAlike one other
        → IsLegal (entry ∷ one) → IsLegal other
        → changed at (shown_at one) (shown_at (entry ∷ one)) 16
        ≡ changed at (shown_at other) (shown_at (entry ∷ other)) 16 }
{}

/// Histories that are alike to a third are alike, and each is to itself.
pub fn alike_to_one_another()
    ensures itself { (one : List Entry) → AreAlike one one }
    ensures turned { (one other : List Entry) → AreAlike one other → AreAlike other one }
    ensures joined { (one other third : List Entry) → AreAlike one other → AreAlike other third
        → AreAlike one third }
{}

/// Registries that have alike histories, and room for as many more entries, answer each change alike, and then have alike histories and
/// such room again. Where alike histories have the same length, the rooms may be the same, and newer entries bring the same status
/// changes at the same places.
pub fn alike_at_length()
    ensures answer { (most size seat : ℕ) (one other after : List Entry) (call : Option Call)
        (result : Result Reply Refusal) → StandAlike most one size other
        → IsAnswered most seat one after call result
        → (later : List Entry) × IsAnswered size seat other later call result
        × StandAlike most after size later }
    ensures answers { (most size : ℕ) (one other after : List Entry) (calls : List (Option Call))
        (results : List (Result Reply Refusal)) → StandAlike most one size other
        → AreAnswered (Answers most) one after calls results
        → (later : List Entry) × AreAnswered (Answers size) other later calls results
        × StandAlike most after size later }
    ensures same { (most : ℕ) (one other : List Entry) → AreAlike one other
        → IsLegal one → IsLegal other → length one ≡ length other → StandAlike most one most other }
    ensures changes { (newer one other : List Entry) → AreAlike one other
        → IsLegal (newer ++ one) → IsLegal other → length one ≡ length other
        → (more : List Change) × (changes_of (newer ++ one) ≡ changes_of one ++ more)
        × (changes_of (newer ++ other) ≡ changes_of other ++ more) }
{}

/// A file has one preface at most, and one that is written is read back: reading it finds no fault, and no other preface.
pub fn one_preface()
    ensures one { (front other : Front) (more rest : List (List ℕ)) → IsFront front
        → IsFront other → preface_of front ++ more ≡ preface_of other ++ rest
        → (front ≡ other) × (more ≡ rest) }
    ensures titled { (front : Front) (more : List (List ℕ)) → IsFront front
        → HasNoTitle (preface_of front ++ more) → ⊥ }
    ensures whole { (front : Front) (more : List (List ℕ)) → IsFront front
        → IsCutShort (preface_of front ++ more) → ⊥ }
{}

/// How a file's entries go on standing for the journal of a run: as it begins, as it grows, and as the first of them are taken into a
/// digest whose short entries take their place.
pub fn standing()
    ensures begins { (start : Front) (entries : List Entry) → start.condensed ≤ length entries
        → StandFor start start entries entries }
    ensures grows { (start front : Front) (entries journal more : List Entry)
        → StandFor start front entries journal
        → StandFor start front (entries ++ more) (journal ++ more) }
    ensures rewritten { (start front next : Front) (taken rest short journal : List Entry)
        → StandFor start front (taken ++ rest) journal → front.condensed ≤ length taken
        → IsLegal (past taken) → AreAlike (past short) (past taken)
        → IsNext front next taken short → StandFor start next (short ++ rest) journal }
    ensures as_one { (start front : Front) (entries journal : List Entry)
        → StandFor start front entries journal → IsLegal (past entries)
        → IsLegal (past journal) × AreAlike (past entries) (past journal) }
{}

/// What a crash left of a store's file makes a registry that no later change can tell from that of the journal, and where there are
/// entries its preface counts those of the journal.
pub fn read_again()
    ensures alike { (start front : Front) (journal : List Entry) (stored : List Stored)
        → IsReadAgain start front journal stored → IsLegal (past (restored_of stored))
        → IsLegal (past journal) × AreAlike (past (restored_of stored)) (past journal) }
    ensures counted { (start front : Front) (journal : List Entry) (stored : List Stored)
        → IsReadAgain start front journal stored → 0 < length stored
        → front.base + length stored ≡ start.base + length journal }
{}
