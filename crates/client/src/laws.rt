ghost use Rattle.std.specs.Prelude.{◌≡◌, ◌≤◌, List, ℕ, [], length, All, Ok};
ghost use Rattle.std.specs.List.{AllZip};
ghost use Rattle.grpc_frame.specs.Split.{Step, Run, bytes_of, fed_bytes, max_content_len, taken_frames};
ghost use Rattle.grpc_frame.specs.Code.{code_number};
ghost use Rattle.grpc_frame.specs.Lines.{lines, trim};
ghost use Rattle.grpc_frame.specs.Trailers.{IsStatusText, block, trailers_in, written_text};
ghost use Rattle.grpc_frame.specs.declared.code.Code.{Code};
ghost use Rattle.web_call.specs.declared.method.Method.{Method};
ghost use Rattle.client.specs.declared.told.Ended.{Ended};
ghost use Rattle.client.specs.GrpcFrames.{HasStatus, Tells};
ghost use Rattle.client.specs.Meaning.{Meaning, Means};

use grpc_frame::{any_cutting, trailers_read_back, written_frames};

/// Whatever the pieces of the content, and whenever its frames are taken, they tell their statuses, and then comes the rest.
pub fn frames_tell()
    ensures { (steps : List Step) (rest statuses : List ℕ) → Run [] steps rest
        → AllZip HasStatus (taken_frames steps) statuses → Tells (fed_bytes steps) statuses rest }
{
    any_cutting();
}

/// Written frames of messages tell their statuses.
pub fn written_frames_tell()
    ensures { (frames : List (ℕ × List ℕ)) (statuses : List ℕ)
        → All (λ one. length one.1 ≤ max_content_len) frames → AllZip HasStatus frames statuses
        → Tells (bytes_of frames) statuses [] }
{
    written_frames();
}

/// Written trailers tell the end with their status and text, where no space stands at an end of the text.
pub fn written_trailers_tell()
    ensures { (code : Code) (text : List ℕ) (ended : Ended) → IsStatusText text → trim text ≡ text
        → ended.code ≡ code_number code → ended.text.items ≡ written_text code text
        → trailers_in (lines (block code text)) ≡ Ok (ended.code, ended.text.items) }
{
    trailers_read_back();
}

/// Bytes have one meaning to a call at most: they tell statuses and an end, or are open, bad or refused, and never two of these.
pub fn one_answer()
    ensures { (method : Method) (most : ℕ) (bytes : List ℕ) (a b : Meaning)
        → Means method most bytes a → Means method most bytes b → a ≡ b }
{}
