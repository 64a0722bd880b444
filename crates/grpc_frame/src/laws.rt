ghost use Rattle.std.specs.Prelude.{◌≡◌, ◌^◌, ◌<◌, ◌≤◌, List, ℕ, [], ◌++◌, length, All, Ok};
ghost use Rattle.grpc_frame.specs.declared.code.Code.{Code};
ghost use Rattle.grpc_frame.specs.Code.{code_number};
ghost use Rattle.grpc_frame.specs.Frame.{frame};
ghost use Rattle.grpc_frame.specs.Lines.{lines, trim, AreLines};
ghost use Rattle.grpc_frame.specs.Message.{BeginsWith, HasOneFront, IsOneMessage, HasOneAnswer};
ghost use Rattle.grpc_frame.specs.Split.{max_content_len, bytes_of, AreAllFrames, BeginsWithFrame, BeginsWithNoFrame, HasOneFirst, BeginsTooLong, AreFrames, HasOneSplit, Step, Run, fed_bytes, taken_frames};
ghost use Rattle.grpc_frame.specs.Trailers.{block, IsStatusText, written_text, trailers_in};

/// A written frame is split off whole, whatever follows it.
pub fn whole_frame()
    ensures front { (message rest : List ℕ) → length message < 2 ^ 32
        → BeginsWith (frame 0 message ++ rest) message rest }
    ensures only { (bytes : List ℕ) → HasOneFront bytes }
{}

/// A written message alone is read as that message.
pub fn read_back()
    ensures { (message : List ℕ) → length message < 2 ^ 32
        → IsOneMessage (frame 0 message) (Ok message) }
{}

/// The rules of `one_message` give each body at most one answer.
pub fn one_answer()
    ensures { (body : List ℕ) → HasOneAnswer body }
{}

/// A written frame is taken off whole, whatever follows it, unless it is too long.
pub fn first_frame()
    ensures front { (flag : ℕ) (content rest : List ℕ) → length content ≤ max_content_len
        → BeginsWithFrame (frame flag content ++ rest) flag content rest }
    ensures only { (bytes : List ℕ) → HasOneFirst bytes }
    ensures too_long { (bytes : List ℕ) → BeginsTooLong bytes → BeginsWithNoFrame bytes }
{}

/// Written frames are taken off one by one, and nothing is left.
pub fn written_frames()
    ensures { (frames : List (ℕ × List ℕ)) → All (λ one. length one.1 ≤ max_content_len) frames
        → AreAllFrames (bytes_of frames) frames [] }
{}

/// However a stream is cut into pieces, and whenever frames are taken, they are the stream's frames, and then comes the rest.
pub fn any_cutting()
    ensures stream { (steps : List Step) (rest : List ℕ) → Run [] steps rest
        → AreFrames (fed_bytes steps) (taken_frames steps) rest }
    ensures only { (bytes : List ℕ) → HasOneSplit bytes }

    // Where two runs were fed the same bytes, and no frame is left to take, they took the same.
    ensures same { (steps others : List Step) (rest more : List ℕ)
        → Run [] steps rest → Run [] others more → fed_bytes steps ≡ fed_bytes others
        → BeginsWithNoFrame rest → BeginsWithNoFrame more
        → (taken_frames steps ≡ taken_frames others) × (rest ≡ more) }
{}

/// A rest that begins with a frame that is too long does so for ever, and so each later take answers that.
pub fn stays_too_long()
    ensures { (steps : List Step) (old new : List ℕ) → BeginsTooLong old → Run old steps new
        → BeginsTooLong new }
{}

/// Each block has just the lines that `lines` gives.
pub fn one_cut()
    ensures lines { (block : List ℕ) → AreLines block (lines block) }
    ensures only { (block : List ℕ) (all : List (List ℕ)) → AreLines block all → all ≡ lines block }
{}

/// Written trailers are read as their status and text, where no space stands at an end of the text.
pub fn trailers_read_back()
    ensures { (code : Code) (text : List ℕ) → IsStatusText text → trim text ≡ text
        → trailers_in (lines (block code text)) ≡ Ok (code_number code, written_text code text) }
{}
