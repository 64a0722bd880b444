ghost use Rattle.std.specs.Prelude.{◌≡◌, ℕ, List, Option, ◌∷◌, length};
ghost use Rattle.desk_core.specs.declared.entry.Entry.{Entry};
ghost use Rattle.desk_core.specs.Changes.{changes_of};
ghost use Rattle.desk_core.specs.Status.{shown};
ghost use Rattle.desk_core.specs.Watch.{IsOlder, opened, story, last_of, cursor_past};
ghost use Rattle.web_call.specs.Walk.{InTurn, told_by};
ghost use Rattle.crew.specs.declared.call_end.CallEnd.{CallEnd};
ghost use Rattle.crew.specs.declared.crew_why.CrewWhy.{CrewWhy};
ghost use Rattle.crew.specs.declared.crew_why.CrewWhy.TheVariants.{NoMemory};
ghost use Rattle.crew.specs.Gather.{IsGathered, Fails, numbers_of};

/// Reports are gathered in one way at most, or fail for one reason. Those that can be gathered fail only out of memory.
pub fn one_gathering()
    ensures ends { (expected : ℕ) (reports : List (ℕ × CallEnd)) (ends others : List CallEnd)
        → IsGathered expected reports ends → IsGathered expected reports others → ends ≡ others }
    ensures why { (expected : ℕ) (numbers : List ℕ) (why other : CrewWhy)
        → Fails expected numbers why → Fails expected numbers other → why ≡ other }
    ensures no_memory { (expected : ℕ) (reports : List (ℕ × CallEnd)) (ends : List CallEnd)
        (why : CrewWhy) → IsGathered expected reports ends
        → Fails expected (numbers_of reports) why → why ≡ NoMemory }
{}

/// A Watch over a door to a hall tells what its service is shown as at its opening, and then its later changes up to where the watch
/// stands at its end: each once, in order, and none left out.
pub fn watches_tell_the_story()
    ensures { (slot : Option ℕ) (first : List Entry) (later : List (List Entry))
        → InTurn IsOlder first later → told_by slot first later
        ≡ shown first slot ∷ story (changes_of (last_of first later)) slot
        (length (changes_of first)) (cursor_past (opened (changes_of first) slot) later) }
{}
