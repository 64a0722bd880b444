ghost use Rattle.std.specs.Prelude.{◌≡◌, ◌≢◌, ℕ, List, map, Some};
ghost use Rattle.script.specs.Change.{line_change, line_changes};
ghost use Rattle.script.specs.declared.expectation.Expectation.{Expectation};
ghost use Rattle.script.specs.declared.line.Line.{Line};
ghost use Rattle.script.specs.declared.script.Mode.{Mode};
ghost use Rattle.script.specs.declared.script.Mode.TheVariants.{Replay};
ghost use Rattle.script.specs.declared.script_fault.ScriptFault.{ScriptFault};
ghost use Rattle.script.specs.Expectation.{IsExpectationText};
ghost use Rattle.script.specs.Line.{IsLineText};
ghost use Rattle.script.specs.Script.{ScriptParts, IsScript, IsScriptFault};

/// In a mode bytes are one script at most, or have one fault at most, and never both.
pub fn one_script()
    ensures script { (mode : Mode) (bytes : List ℕ) (a b : ScriptParts)
        → IsScript mode bytes a → IsScript mode bytes b → a ≡ b }
    ensures fault { (mode : Mode) (bytes : List ℕ) (a b : ScriptFault)
        → IsScriptFault mode bytes a → IsScriptFault mode bytes b → a ≡ b }
    ensures either { (mode : Mode) (bytes : List ℕ) (script : ScriptParts) (fault : ScriptFault)
        → IsScript mode bytes script → ¬ IsScriptFault mode bytes fault }
{}

/// Each line of a script to serve or to run asks for a change, so that what comes of the changes stands in the places of the lines.
pub fn changes_in_place()
    ensures { (mode : Mode) (bytes : List ℕ) (script : ScriptParts)
        → mode ≢ Replay → IsScript mode bytes script
        → map (λ call. Some call) (line_changes script.names script.lines)
        ≡ map (line_change script.names) script.lines }
{}

/// A text is one expectation at most, and never a line too.
pub fn one_expectation()
    ensures one { (text : List ℕ) (a b : Expectation)
        → IsExpectationText text a → IsExpectationText text b → a ≡ b }
    ensures either { (names : List (List ℕ)) (text : List ℕ) (line : Line)
        (expectation : Expectation)
        → IsLineText names text line → ¬ IsExpectationText text expectation }
{}
