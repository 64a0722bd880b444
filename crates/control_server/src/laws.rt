ghost use Rattle.std.specs.Prelude.{◌≡◌, ◌⊎◌, ◌++◌, [], ℕ, List, Option, true};
ghost use Rattle.desk_core.specs.declared.call.Call.{Call};
ghost use Rattle.hall.specs.Seats.{SeatState};
ghost use Rattle.control.specs.declared.answer.Answer.{Answer};
ghost use Rattle.control.specs.declared.rights.Rights.TheVariants.{Reports};
ghost use Rattle.control.specs.declared.terms.Terms.{Terms};
ghost use Rattle.control.specs.Session.{SessionState, begun};
ghost use Rattle.control.specs.Talk.{AreLines, answer_texts};
ghost use Rattle.reactor.specs.Moved.{Moved, followed_by, nothing_moved};
ghost use Rattle.reactor.specs.Talking.{IsDone};
ghost use Rattle.control_server.specs.Connection.{SpeaksBy};
ghost use Rattle.control_server.specs.SeatLines.{AreAskedBy, AreFindings, HasMade, HasMet, results_of};

/// A seat by which lines were met has made the changes that they asked for, in their order, with the results that they were answered,
/// and no others.
pub fn lines_make_changes()
    ensures { (kept : Option ℕ) (terms : Terms) (names : List (List ℕ)) (old new : SeatState)
        (lines : List (List ℕ)) (answers : List Answer)
        → HasMet kept terms names old new lines answers
        → (calls : List (Option Call)) × AreAskedBy names lines answers calls × HasMade old new calls (results_of answers) }
{}

/// By the terms of a report place the changes that lines asked for tell what was found, and nothing else.
pub fn reports_tell_findings()
    ensures { (kept : Option ℕ) (terms : Terms) (names : List (List ℕ)) (old new : SeatState)
        (lines : List (List ℕ)) (answers : List Answer) → terms.rights ≡ Reports
        → HasMet kept terms names old new lines answers
        → (calls : List (Option Call)) × AreAskedBy names lines answers calls × HasMade old new calls (results_of answers) × AreFindings calls }
{}

/// Turn upon turn of a session, by one seat, comes to one talk: the seat has met all its lines, and what it sent are the lines of their
/// answers, in their order. At its end all of them are sent, and no byte is left that was not part of a line, but behind a line that ends
/// the session.
pub fn turns_make_a_session()
    ensures begins { (kept : Option ℕ) (terms : Terms) (names : List (List ℕ)) (seat : SeatState)
        (session : SessionState)
        → SpeaksBy kept terms names seat seat session session nothing_moved }
    ensures goes_on { (kept : Option ℕ) (terms : Terms) (names : List (List ℕ))
        (first now later : SeatState) (session mid session_now : SessionState) (moved more : Moved)
        → SpeaksBy kept terms names first now session mid moved
        → SpeaksBy kept terms names now later mid session_now more
        → SpeaksBy kept terms names first later session session_now (followed_by moved more) }
    ensures ends { (kept : Option ℕ) (terms : Terms) (names : List (List ℕ))
        (first now : SeatState) (session_now : SessionState) (moved : Moved)
        → (said : SpeaksBy kept terms names first now begun session_now moved)
        → IsDone session_now → session_now.waiting ≡ []
        → (moved.sent ≡ answer_texts names said.answers) × ((session_now.is_over ≡ true) ⊎ AreLines (moved.read ++ said.closing) said.lines []) }
{}
