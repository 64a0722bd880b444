ghost use Rattle.std.specs.Prelude.{◌≡◌, ◌+◌, ◌^◌, ◌<◌, ◌≤◌, List, length};
ghost use Rattle.log_lines.specs.declared.met.Met.{Met};
ghost use Rattle.log_lines.specs.Laws.{asked, told, untold, written};
ghost use Rattle.log_lines.specs.Paced.{second_after};

/// In each second at most 100 lines are written, those that tell of others included. Each line that somebody asked for was
/// written, or is among those that were told to have been left out, or is among those that are still to be told.
pub fn at_most_so_many_and_each_counted()
    ensures most { (past : List Met) → (second_after past).taken ≤ 100 }

    // The counts end at 2 ^ 64 - 1.
    ensures counted { (past : List Met) → length past < 2 ^ 64
        → asked past ≡ written past + told past + untold past }
{}
