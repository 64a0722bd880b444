ghost use Rattle.std.specs.Prelude.{◌≡◌, ℕ, List, Option, false, ◌++◌, ◌⊎◌, ◌+◌, ◌*◌, ◌≤◌, ◌∷◌, true, None, Some, IsSomeAnd};
ghost use Rattle.std.specs.List.{All};
ghost use Rattle.std.specs.Time.{instant_nanos, FitsClock};
ghost use Rattle.std.specs.declared.time.Instant.{Instant};
ghost use Rattle.desk_core.specs.declared.entry.Entry.{Entry};
ghost use Rattle.hall.specs.Seats.{SeatState, own_calls};
ghost use Rattle.watchdog.specs.Laws.{was_refused, AreQuiet, IsUntold, begun_at};
ghost use Rattle.watchdog.specs.Guard.{GuardState};
ghost use Rattle.watchdog.specs.Watching.{HasWatched, IsFail, IsPast, IsStep};
ghost use Rattle.watchdog.specs.declared.met.Met.{Met};
ghost use Rattle.watchdog.specs.declared.met.Met.TheVariants.{Looked};
ghost use Rattle.watchdog.specs.Timer.{is_overdue, period_of};

/// What a look tells was due. It is told once, never where no report is expected, and by the first
/// look from when it is due on.
pub fn told_once_and_when_due()
    // Unless there was a refusal since, the newest beginning was at least the period ago.
    ensures due { (past : List Met) (now : ℕ)
        → is_overdue past now ≡ true → was_refused past ≡ false
        → IsSomeAnd (begun_at past) (λ at. IsSomeAnd (period_of past)
        (λ seconds. at + seconds * 1000000000 ≤ now)) }
    ensures once { (past since : List Met) (first : Instant) (now : ℕ)
        → is_overdue past (instant_nanos first) ≡ true → AreQuiet since
        → is_overdue (since ++ Looked first ∷ past) now ≡ false }
    ensures never { (past : List Met) (now : ℕ)
        → period_of past ≡ None → is_overdue past now ≡ false }
    ensures sooner_or_later { (past : List Met) (at seconds now : ℕ)
        → begun_at past ≡ Some at → period_of past ≡ Some seconds → IsUntold past
        → FitsClock now → at + seconds * 1000000000 ≤ now
        → is_overdue past now ≡ true }
{}

/// A watchdog makes nothing but fails by its seat.
pub fn watchdogs_make_fails_alone()
    ensures { (kept : Option ℕ) (guards guards_now : List GuardState) (old new : SeatState)
        → HasWatched kept guards old guards_now new
        → (fails : List Entry) × All IsFail fails × (own_calls new ≡ fails ++ own_calls old) }
{}

/// A step that makes one, unless an earlier one was refused since the newest beginning of the service's time, has the period passed since then at
/// the reading of its round.
pub fn fails_are_due()
    ensures { (kept : Option ℕ) (now : Instant) (guard guard_now : GuardState)
        (old new : SeatState) → IsStep kept now guard old guard_now new
        → was_refused guard.met ≡ false
        → (own_calls new ≡ own_calls old) ⊎ IsPast guard.met (instant_nanos now) }
{}
