ghost use Rattle.std.specs.Prelude.{◌+◌, ◌^◌, ◌%◌, ◌<◌, ℕ};
ghost use Rattle.record_ring.specs.Laps.{IsBefore};

/// Of two laps that are less than half a round apart the earlier one comes first, also where their number goes round, and the later one
/// does not.
pub fn laps_come_in_their_order()
    ensures before { (lap step : ℕ) → 0 < step → step < 2 ^ 31
        → IsBefore (lap % 2 ^ 32) ((lap + step) % 2 ^ 32) }
    ensures behind { (lap step : ℕ) → step < 2 ^ 31
        → ¬ (IsBefore ((lap + step) % 2 ^ 32) (lap % 2 ^ 32)) }
{}
