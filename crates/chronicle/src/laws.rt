ghost use Rattle.std.specs.Prelude.{◌≡◌, ◌^◌, ◌%◌, ◌<◌, ℕ};
ghost use Rattle.record_ring.specs.Spot.{spot_of};

/// A slot and a lap tell which place it is: of all entries, and of refusals of all that are less than 2^42 apart.
pub fn spots_tell_places_apart()
    ensures entries { (place other : ℕ) → place < 2 ^ 32 → other < 2 ^ 32
        → spot_of 65536 place ≡ spot_of 65536 other → place ≡ other }
    ensures refusals { (place other : ℕ) → spot_of 1024 place ≡ spot_of 1024 other
        → place % 2 ^ 42 ≡ other % 2 ^ 42 }
{}
