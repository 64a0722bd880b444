ghost use Rattle.std.specs.Prelude.{◌≡◌, ◌⊎◌, ◌++◌, List, ℕ};
ghost use Rattle.record_log.specs.Log.{StandsFor, IsDamagedAt, IsBeforeOrAfter};

/// A file stands for one list of entries at most, and a damaged one for none. So opening what a
/// crash left of a batch finds the entries from before it, or those and all of the batch.
pub fn one_meaning()
    ensures one { (file : List ℕ) (these those : List (List ℕ))
        → StandsFor file these → StandsFor file those → these ≡ those }
    ensures damage { (file : List ℕ) (at : ℕ) (entries : List (List ℕ))
        → IsDamagedAt file at → StandsFor file entries → ⊥ }
    ensures after_a_crash { (file : List ℕ) (entries batch found : List (List ℕ))
        → IsBeforeOrAfter entries batch file → StandsFor file found
        → (found ≡ entries) ⊎ (found ≡ entries ++ batch) }
{}
