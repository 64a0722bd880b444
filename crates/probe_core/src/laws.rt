//! What holds of rules and events themselves, whatever probe follows them.

ghost use Rattle.std.specs.Prelude.{◌≡◌, ◌&&◌, not, ℕ, List, [], ◌∷◌, true};
ghost use Rattle.probe_core.specs.declared.event.Event.{Event};
ghost use Rattle.probe_core.specs.declared.rule.Rule.{Rule};
ghost use Rattle.probe_core.specs.declared.rule.Rule.TheVariants.{Threshold};
ghost use Rattle.probe_core.specs.declared.start.Start.{Start};
ghost use Rattle.probe_core.specs.Rule.{HasCounts, fits, is_in_range, opening_memory, memory_next, is_up_at, is_unknown_at};
ghost use Rattle.probe_core.specs.Events.{all_fit, is_down, is_fail, is_unknown, is_up, memory_after, newest_are};

/// One number of memory tells what the whole list of events says, of a rule that counts to at least 1.
pub fn memory_tells_status()
    ensures opening { (rule : Rule) → memory_after rule [] ≡ opening_memory rule }
    ensures next { (rule : Rule) (event : Event) (events : List Event) → HasCounts rule
        → fits rule event ≡ true
        → memory_after rule (event ∷ events) ≡ memory_next rule event (memory_after rule events) }
    ensures status { (rule : Rule) (events : List Event) → HasCounts rule
        → all_fit rule events ≡ true
        → is_up_at rule (memory_after rule events)
        ≡ (is_up rule events && not (is_unknown rule events)) }
    ensures unknown { (rule : Rule) (events : List Event) → HasCounts rule
        → all_fit rule events ≡ true
        → is_unknown_at rule (memory_after rule events) ≡ is_unknown rule events }

    // So does a rule whose counts are in range.
    ensures in_range { (rule : Rule) → is_in_range rule ≡ true → HasCounts rule }
{}

/// With a rise of one, a threshold is down exactly where the newest `fall` checks are all failures.
pub fn plain_threshold()
    ensures { (fall : ℕ) (start : Start) (events : List Event)
        → all_fit (Threshold fall 1 start) events ≡ true
        → is_down fall 1 events ≡ newest_are is_fail fall events }
{}
