ghost use Rattle.std.specs.Prelude.{◌≡◌, ◌≤◌, ◌<◌, ◌+◌, ◌*◌, ◌∷◌, [], ◌++◌, nat_lt, length, ℕ, List, IfOk, OnErr, IfErr};
ghost use Rattle.client.specs.declared.http_framing.Framing.{Framing};
ghost use Rattle.client.specs.ResponseBody.{Stands, GoesOn, IsBadBody, is_content, left_of, most_content, owed_by, spare_in, wanted_by};

use crate::ask_fault::AskFault;
use crate::http_framing::Framing;
use crate::kept::Kept;
use httparse::{Status, parse_chunk_size};

/// The longest line of a chunk, with its CR LF.
const MAX_LINE_LEN: usize = 64;

const LINE_END: &[u8] = b"\r\n";

/// What comes next in the body of a response.
#[derive(Drop)]
pub(crate) enum Next {
    /// The line of a chunk, of which these bytes have come.
    Line(Kept),
    /// So many bytes of a chunk's data.
    Data(usize),
    /// CR LF behind the data of a chunk, of which these bytes have come.
    End(Kept),
    /// So many bytes, with which the body ends.
    Last(usize),
}

/// How far the body of a response has come, and how many bytes of content it may still have.
#[derive(Drop)]
pub(crate) struct ResponseBody {
    pub(crate) next: Next,
    pub(crate) more: usize,
    pub(crate) ghost some: { 1 ≤ spare_in next },
    pub(crate) ghost within: { left_of next ≤ more },
}

impl ResponseBody {
    /// The start of a body.
    pub(crate) fn new(framing: Framing) -> ResponseBody
        ensures stands { Stands framing [] [] result.next result.more }
        ensures owed { owed_by result.next result.more ≤ 68 * most_content framing + 64 }
    {
        match framing {
            Framing::Chunked(most) => in_chunks(most),
            Framing::Length(len) => of_length(len),
        }
    }

    /// How many bytes it takes at once, at most: none at its end.
    pub(crate) fn wanted(&self) -> usize
        ensures { result ≡ wanted_by self.now.next }
    {
        match &self.next {
            Next::Line(_) => 1,
            Next::Data(left) => *left,
            Next::End(end) => 2 - end.len(),
            Next::Last(left) => *left,
        }
    }

    /// Whether the next bytes are content.
    pub(crate) fn is_content(&self) -> bool
        ensures { result ≡ is_content self.now.next }
    {
        match &self.next {
            Next::Data(_) => true,
            Next::Last(_) => true,
            Next::Line(_) => false,
            Next::End(_) => false,
        }
    }

    /// Whether bytes of the chunk, or of the body by its length, are still to come.
    pub(crate) fn has_left(&self) -> bool
        ensures { result ≡ nat_lt 0 (left_of self.now.next) }
    {
        match &self.next {
            Next::Data(left) => *left > 0,
            Next::Last(left) => *left > 0,
            Next::Line(_) => false,
            Next::End(_) => false,
        }
    }

    /// The body with these bytes, or the fault that they show.
    pub(crate) fn after(self, piece: &[u8]) -> Result<ResponseBody, AskFault>
        requires some { 0 < length piece.now }
        requires within { length piece.now ≤ wanted_by self.next }
        ensures goes { IfOk result (λ body.
            GoesOn self.next self.more piece.now body.next body.more) }
        ensures fewer { IfOk result (λ body.
            owed_by body.next body.more < owed_by self.next self.more) }
        ensures fault { IfErr result (λ fault. fault ≡ AskFault.BadResponse) }
        ensures bad { OnErr result ((framing : Framing) (bytes content : List ℕ)
            → Stands framing bytes content self.next self.more
            → IsBadBody framing (bytes ++ piece.now)) }
    {
        let ResponseBody { next, more } = self;
        match next {
            Next::Line(line) => after_line(line, more, piece[0]),
            Next::Data(left) => Ok(after_data(left, more, piece)),
            Next::End(end) => after_end(end, more, piece),
            Next::Last(left) => Ok(ResponseBody {
                next: Next::Last(left - piece.len()),
                more: more - piece.len(),
            }),
        }
    }
}

fn in_chunks(most: usize) -> ResponseBody
    ensures stands { Stands (Framing.Chunked most) [] [] result.next result.more }
    ensures owed { owed_by result.next result.more ≤ 68 * most + 64 }
{
    ResponseBody {
        next: Next::Line(Kept::new()),
        more: most,
    }
}

fn of_length(len: usize) -> ResponseBody
    ensures stands { Stands (Framing.Length len) [] [] result.next result.more }
    ensures owed { owed_by result.next result.more ≤ 68 * len + 64 }
{
    ResponseBody {
        next: Next::Last(len),
        more: len,
    }
}

/// The body behind some data of a chunk.
fn after_data(left: usize, more: usize, piece: &[u8]) -> ResponseBody
    requires some { 0 < length piece.now }
    requires within { length piece.now ≤ left }
    requires room { left ≤ more }
    ensures goes { GoesOn (Next.Data left) more piece.now result.next result.more }
    ensures fewer { owed_by result.next result.more < owed_by (Next.Data left) more }
{
    let more = more - piece.len();
    if piece.len() == left {
        return ResponseBody {
            next: Next::End(Kept::new()),
            more,
        };
    }
    ResponseBody {
        next: Next::Data(left - piece.len()),
        more,
    }
}

/// The body behind one more byte of a chunk's line. It is read no further than to its first fault.
fn after_line(mut line: Kept, more: usize, byte: u8) -> Result<ResponseBody, AskFault>
    requires { length line < 64 }
    ensures goes { IfOk result (λ body.
        GoesOn (Next.Line line) more (byte ∷ []) body.next body.more) }
    ensures fewer { IfOk result (λ body.
        owed_by body.next body.more < owed_by (Next.Line line) more) }
    ensures fault { IfErr result (λ fault. fault ≡ AskFault.BadResponse) }
    ensures bad { OnErr result ((framing : Framing) (bytes content : List ℕ)
        → Stands framing bytes content (Next.Line line) more
        → IsBadBody framing (bytes ++ byte ∷ [])) }
{
    line.push(byte);
    match parse_chunk_size(line.bytes()) {
        Ok(Status::Complete((_, size))) => {
            if size > more as u64 {
                return Err(AskFault::BadResponse);
            }
            if size == 0 {
                return Ok(ResponseBody {
                    next: Next::Last(0),
                    more,
                });
            }
            Ok(ResponseBody {
                next: Next::Data(size as usize),
                more,
            })
        }
        Ok(Status::Partial) => {
            if line.len() == MAX_LINE_LEN {
                return Err(AskFault::BadResponse);
            }
            Ok(ResponseBody {
                next: Next::Line(line),
                more,
            })
        }
        Err(_) => Err(AskFault::BadResponse),
    }
}

/// The body behind one or two bytes that stand behind the data of a chunk.
fn after_end(mut end: Kept, more: usize, piece: &[u8]) -> Result<ResponseBody, AskFault>
    requires some { 0 < length piece.now }
    requires within { length end + length piece.now ≤ 2 }
    ensures goes { IfOk result (λ body. GoesOn (Next.End end) more piece.now body.next body.more) }
    ensures fewer { IfOk result (λ body.
        owed_by body.next body.more < owed_by (Next.End end) more) }
    ensures fault { IfErr result (λ fault. fault ≡ AskFault.BadResponse) }
    ensures bad { OnErr result ((framing : Framing) (bytes content : List ℕ)
        → Stands framing bytes content (Next.End end) more
        → IsBadBody framing (bytes ++ piece.now)) }
{
    end.push_all(piece);
    if end.len() < LINE_END.len() {
        return Ok(ResponseBody {
            next: Next::End(end),
            more,
        });
    }
    if end.bytes() != LINE_END {
        return Err(AskFault::BadResponse);
    }
    Ok(ResponseBody {
        next: Next::Line(Kept::new()),
        more,
    })
}
