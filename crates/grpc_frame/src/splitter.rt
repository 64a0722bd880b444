ghost use Rattle.std.specs.Prelude.{◌≡◌, ◌↔◌, ◌<◌, ◌≤◌, ◌+◌, ◌++◌, [], length, drop, vec_len, IsTrue, IfOk, IfSome, IfNone, OnOk, OnErr, IsErrOf};
ghost use Rattle.grpc_frame.specs.Split.{BeginsWithFrame, BeginsWhole, BeginsWithNoFrame, BeginsTooLong};

use crate::frame::Frame;
use crate::{NoMemory, SplitFault};
use std::alloc::Global;
use std::marker::Model;

/// The longest content of a frame that is taken, in bytes.
const MAX_LEN: usize = 1_048_576;

/// Takes frames off a stream that comes in pieces. Its value is the rest, the bytes that were fed and not yet taken.
#[derive(Drop)]
pub struct Splitter {
    buffer: Vec<u8>,
    start: usize,
}

impl Model for Splitter {
    ghost use Rattle.std.specs.Prelude.{ℕ, ◌+◌, ◌≤◌, List, drop, vec_len};

    ghost Value = { List ℕ };

    ghost view = { λ splitter. drop splitter.start splitter.buffer.items };

    // What was taken is never more of the memory than the rest.
    ghost invariant = { λ splitter. splitter.start + splitter.start ≤ vec_len splitter.buffer };
}

impl Splitter {
    /// A stream of which nothing was fed. It takes no memory yet.
    pub fn new(alloc: Global) -> Splitter
        ensures { result ≡ [] }
    {
        Splitter {
            buffer: Vec::new(alloc),
            start: 0,
        }
    }

    /// Adds a piece to the rest.
    pub fn feed(&mut self, piece: &[u8]) -> Result<(), NoMemory>
        ensures ok { OnOk result (self.new ≡ self.old ++ piece.now) }
        ensures err { OnErr result (self.new ≡ self.old) }
        ensures some { OnErr result (0 < length piece.now) }
    {
        self.buffer.extend_from_slice(piece)
    }

    /// Takes the first frame of the rest, of whatever flag. A fault leaves the rest as it was. Bytes that were taken leave the memory
    /// once they are more than the rest.
    pub fn take(&mut self) -> Result<Option<Frame>, SplitFault>
        // TooLong counts before None, and None before NoMemory. So None is of a front that is cut.
        ensures frame { IfOk result (λ taken. IfSome taken (λ first.
            BeginsWithFrame self.old first.flag first.body.items self.new)) }
        ensures none { IfOk result (λ taken. IfNone taken (BeginsWithNoFrame self.old)) }
        ensures stays { IfOk result (λ taken. IfNone taken (self.new ≡ self.old)) }
        ensures too_long { IsErrOf result SplitFault.TooLong ↔ BeginsTooLong self.old }
        ensures no_memory { IsErrOf result SplitFault.NoMemory → BeginsWhole self.old }
        ensures err { OnErr result (self.new ≡ self.old) }
    {
        let bytes = self.rest();
        if is_too_long(bytes) {
            return Err(SplitFault::TooLong);
        }
        let Some((flag, content, rest)) = frame_at(bytes) else {
            return Ok(None);
        };
        let body = Vec::from_slice(*self.buffer.allocator(), content)?;
        let start = self.buffer.len() - rest.len();
        self.start = without_front(&mut self.buffer, start);
        Ok(Some(Frame { flag, body }))
    }

    /// What was fed and not taken.
    pub fn rest(&self) -> &[u8]
        ensures { result.now ≡ self.now }
    {
        &self.buffer[self.start..]
    }
}

// Drops the bytes before a place, where they are more than those after it, and tells the place's new number.
fn without_front(buffer: &mut Vec<u8>, start: usize) -> usize
    requires { start ≤ vec_len buffer.old }
    ensures rest { drop result buffer.new.items ≡ drop start buffer.old.items }
    ensures half { result + result ≤ vec_len buffer.new }
{
    let rest_len = buffer.len() - start;
    if start <= rest_len {
        return start;
    }
    buffer.copy_within(start.., 0);
    buffer.truncate(rest_len);
    0
}

fn is_too_long(bytes: &[u8]) -> bool
    ensures { IsTrue result ↔ BeginsTooLong bytes.now }
{
    let [_, a, b, c, d, _rest @ ..] = bytes else {
        return false;
    };
    u32::from_be_bytes([*a, *b, *c, *d]) as usize > MAX_LEN
}

fn frame_at(bytes: &[u8]) -> Option<(u8, &[u8], &[u8])>
    ensures found { IfSome result (λ x. BeginsWithFrame bytes.now x.0 x.1.now x.2.now) }
    ensures none { IfNone result (BeginsWithNoFrame bytes.now) }
{
    let [flag, a, b, c, d, rest @ ..] = bytes else {
        return None;
    };
    let len = u32::from_be_bytes([*a, *b, *c, *d]) as usize;
    if len > MAX_LEN || len > rest.len() {
        return None;
    }
    let (content, rest) = rest.split_at(len);
    Some((*flag, content, rest))
}
