ghost use Rattle.std.specs.Prelude.{◌≡◌, ◌≢◌, ℕ, List, Result, length};
ghost use Rattle.desk_core.specs.declared.refusal.Refusal.{Refusal};
ghost use Rattle.desk_core.specs.declared.reply.Reply.{Reply};
ghost use Rattle.hall.specs.Seats.{SeatState};
ghost use Rattle.script.specs.Change.{line_changes};
ghost use Rattle.script.specs.declared.script.Mode.{Mode};
ghost use Rattle.script.specs.declared.script.Mode.TheVariants.{Replay};
ghost use Rattle.script.specs.Script.{ScriptParts, IsScript};
ghost use Rattle.server.specs.Setup.{AreSetUp};

/// Each line of a script that sets a hall up has a result, so that the numbers of the lines are those of the results.
pub fn results_in_place()
    ensures { (mode : Mode) (bytes : List ℕ) (script : ScriptParts) (results : List
        (Result Reply Refusal)) (dealt seats : List SeatState)
        → mode ≢ Replay → IsScript mode bytes script → AreSetUp (line_changes script.names script.lines) results dealt seats
        → length script.numbers ≡ length results }
{}
