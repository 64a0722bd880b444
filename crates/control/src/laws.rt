ghost use Rattle.std.specs.Prelude.{◌≡◌, ◌≤◌, ◌<◌, ◌⊎◌, [], ℕ, List, length};
ghost use Rattle.std.specs.Str.{IsUtf8};
ghost use Rattle.script.specs.TextLines.{without_cr};
ghost use Rattle.control.specs.declared.answer.Answer.{Answer};
ghost use Rattle.control.specs.declared.request.Request.{Request};
ghost use Rattle.control.specs.Beside.{IsLineMetBeside, IsMetBeside};
ghost use Rattle.control.specs.Meeting.{IsSaid};
ghost use Rattle.control.specs.Request.{IsRequest};
ghost use Rattle.control.specs.Rights.{IsAllowed, unknown_line};
ghost use Rattle.control.specs.WebLine.{IsForeign};

use crate::server::Server;
use desk_core::Console;
use probe_core::Probe;

/// A text is one request at most.
pub fn one_request()
    ensures { (names : List (List ℕ)) (text : List ℕ) (first second : Request)
        → IsRequest names text first → IsRequest names text second → first ≡ second }
{}

/// How a line is met follows from the line: it is none of a session; or else it is too long, or no text, or says nothing, or is no request,
/// or is not allowed, or it is met as its request.
pub fn one_meeting<P: Probe, C: Console<P>, V: Server>()
    ensures foreign { (names : List (List ℕ)) (old new : C × V) (line : List ℕ) (answer : Answer)
        → IsLineMetBeside C.seen C.kept C.looks C.answers V.terms V.counted V.woken V.expected
        V.stopped names old new line answer
        → IsForeign (V.terms old.1) line → (answer ≡ Answer.NotASession) × (new ≡ old) }
    ensures too_long { (names : List (List ℕ)) (old new : C × V) (line : List ℕ) (answer : Answer)
        → IsLineMetBeside C.seen C.kept C.looks C.answers V.terms V.counted V.woken V.expected
        V.stopped names old new line answer → ¬ IsForeign (V.terms old.1) line
        → 1024 < length line → (answer ≡ Answer.TooLong) × (new ≡ old) }
    ensures no_text { (names : List (List ℕ)) (old new : C × V) (line : List ℕ) (answer : Answer)
        → IsLineMetBeside C.seen C.kept C.looks C.answers V.terms V.counted V.woken V.expected
        V.stopped names old new line answer → ¬ IsForeign (V.terms old.1) line
        → length line ≤ 1024 → ¬ IsUtf8 line
        → (answer ≡ unknown_line (V.terms old.1).place.rights) × (new ≡ old) }
    ensures silent { (names : List (List ℕ)) (old new : C × V) (line : List ℕ) (answer : Answer)
        → IsLineMetBeside C.seen C.kept C.looks C.answers V.terms V.counted V.woken V.expected
        V.stopped names old new line answer → ¬ IsForeign (V.terms old.1) line
        → without_cr line ≡ [] → (answer ≡ Answer.Skipped) × (new ≡ old) }
    ensures no_request { (names : List (List ℕ)) (old new : C × V) (line : List ℕ) (answer : Answer)
        → IsLineMetBeside C.seen C.kept C.looks C.answers V.terms V.counted V.woken V.expected
        V.stopped names old new line answer → ¬ IsForeign (V.terms old.1) line
        → IsSaid line → ((request : Request) → ¬ IsRequest names (without_cr line) request)
        → ((answer ≡ unknown_line (V.terms old.1).place.rights) ⊎ (answer ≡ Answer.OutOfMemory))
        × (new ≡ old) }
    ensures request { (names : List (List ℕ)) (old new : C × V) (line : List ℕ) (answer : Answer)
        (request : Request)
        → IsLineMetBeside C.seen C.kept C.looks C.answers V.terms V.counted V.woken V.expected
        V.stopped names old new line answer → ¬ IsForeign (V.terms old.1) line
        → IsSaid line → IsRequest names (without_cr line) request → IsAllowed (V.terms old.1).place.rights request
        → IsMetBeside C.seen C.kept C.looks C.answers V.terms V.counted V.woken V.expected
        V.stopped names old new request answer }
    ensures denied { (names : List (List ℕ)) (old new : C × V) (line : List ℕ) (answer : Answer)
        (request : Request)
        → IsLineMetBeside C.seen C.kept C.looks C.answers V.terms V.counted V.woken V.expected
        V.stopped names old new line answer → ¬ IsForeign (V.terms old.1) line
        → IsSaid line → IsRequest names (without_cr line) request → ¬ IsAllowed (V.terms old.1).place.rights request
        → ((answer ≡ Answer.NotAllowed) ⊎ (answer ≡ Answer.OutOfMemory)) × (new ≡ old) }
{}
