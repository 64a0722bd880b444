ghost use Rattle.std.specs.Prelude.{◌≡◌, ◌⊎◌, [], ℕ, List, None, Some, is_some, false, true};
ghost use Rattle.web_call.specs.declared.call.Call.{Call};
ghost use Rattle.web_call.specs.declared.outcome.Outcome.{Outcome};
ghost use Rattle.web_call.specs.declared.outcome.Outcome.TheVariants.{Behind};
ghost use Rattle.web_call.specs.Answer.{Asking, IsStarvedAt, Sends, Source};
ghost use Rattle.web_call.specs.Head.{IsHeaded};
ghost use Rattle.web_call.specs.HeadAnswer.{HeadAnswer};
ghost use Rattle.web_call.specs.Past.{Past, Stands};
ghost use Rattle.web_call.specs.Pieces.{Piece};
ghost use Rattle.web_call.specs.Request.{IsCutRequest};
ghost use Rattle.web_call.specs.Stages.{ending_of, frames_of, is_answered, is_open, is_starved, is_watching, is_whole, outcome_of, to_send};
ghost use Rattle.web_call.specs.WholeCall.{IsCutCall, IsWholeCall, IsWholeRequest};

/// A head has one answer at most.
pub fn one_head()
    ensures { (bytes : List ℕ) (a b : HeadAnswer) → IsHeaded bytes a → IsHeaded bytes b → a ≡ b }
{}

/// A call, for any cutting of what comes in and goes out: what was sent is a front of the answer to its request, of which it has
/// the rest to send, and the whole answer where it ended. Before it is answered nothing was sent and nothing is left to send; while
/// more is wanted the request is cut, and nobody was asked.
pub fn whole_calls()
    ensures whole { (source : Source) (past : Past) (call : Call) (outcome : Outcome)
        → Stands source past call
        → outcome_of call ≡ Some outcome → IsWholeCall source past outcome }
    ensures front { (source : Source) (past : Past) (call : Call) → Stands source past call
        → is_answered call ≡ true → IsCutCall source past (ending_of call) (to_send call)
        (frames_of call) }
    ensures silent { (source : Source) (past : Past) (call : Call) → Stands source past call
        → is_answered call ≡ false → (past.sent ≡ []) × (to_send call ≡ []) × (frames_of call ≡ 0) }
    ensures wanting { (source : Source) (past : Past) (call : Call) → Stands source past call
        → is_open call ≡ true → IsCutRequest past.received × (past.asked ≡ []) }
    ensures waiting { (source : Source) (past : Past) (call : Call) → Stands source past call
        → is_whole call ≡ true → IsWholeRequest past }
    ensures starved { (source : Source) (past : Past) (call : Call) → Stands source past call
        → is_starved call ≡ true → IsStarvedAt source.is_plain past.asked past.received }
    ensures turns { (call : Call) → (is_open call ≡ true) ⊎ (is_whole call ≡ true)
        ⊎ (is_watching call ≡ true)
        ⊎ (is_starved call ≡ true) ⊎ (is_some (ending_of call) ≡ true) }
{}

/// Over a registry that keeps all no Watch ends as one that is behind.
pub fn never_behind()
    ensures { (asking : Asking) (done part : List Piece) (messages : ℕ) → asking.source.kept ≡ None
        → (Sends asking done part (Some (Behind messages)) → ⊥) }
{}
