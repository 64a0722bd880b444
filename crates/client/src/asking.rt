ghost use Rattle.std.specs.Prelude.{◌≡◌, ◌≢◌, ◌≤◌, ◌<◌, ◌⊎◌, ◌++◌, List, length, IfOk, IfErr, IsErrOf, ℕ};
ghost use Rattle.std.specs.Io.KnownBytes.{Consumes};
ghost use Rattle.client.specs.Ask.{HasReadCause, HasWriteCause, IsAnswerTo, IsFaultAt, IsReadFor, IsSentFor};
ghost use Rattle.client.specs.Lent.{lent_inner, lent_failed, lent_name};
ghost use Rattle.client.specs.Request.{WritesRequest};
ghost use Rattle.client.specs.Stages.{GoesTo, Holds, method_of, most_of, owed_of, wanted_of};

use crate::ask_fault::AskFault;
use crate::lent::Lent;
use crate::reply::Reply;
use crate::request::request_text;
use crate::told::Told;
use crate::transfer::send;
use std::alloc::Global;
use std::io::{Read, Write};
use web_call::Method;

/// Asks a server for the status of the service of this name: once, by a Check, or by a Watch, up to `most` statuses.
///
/// The request is written whole and flushed before anything is read. The response is read as far as is needed and no further, its
/// head and the lines of its chunks with a call of `read` for each byte: a reader for which calls are dear has to be buffered. An
/// error of any kind ends the call at once, `Interrupted` too. A Check doesn't look at `most`. It is `ask_through`, whose contract
/// says when the reader or the writer failed.
pub fn ask<R: Read, W: Write>(
    alloc: Global,
    reader: &mut R,
    writer: &mut W,
    method: Method,
    name: &str,
    most: u32,
) -> Result<Told, AskFault>
    requires name { length name.now ≤ 1048576 }
    requires most { 1 ≤ most }
    ensures request { IsSentFor result method name.now
        (W.contents writer.old) (W.contents writer.new) }
    ensures response { IsReadFor result method most
        (R.remaining reader.old) (R.remaining reader.new) }
    // Memory was wanted for the request, or for the response.
    ensures no_memory { IsErrOf result AskFault.NoMemory
        → ((writer.new ≡ writer.old) × (reader.new ≡ reader.old))
        ⊎ WritesRequest method name.now (W.contents writer.old) (W.contents writer.new) }
    ensures answer { IfOk result (IsAnswerTo method most) }
{
    let mut reader = Lent::new(reader);
    let mut writer = Lent::new(writer);
    ask_through(alloc, &mut reader, &mut writer, method, name, most)
}

/// The same through a reader and a writer that tell whether they have failed. The answer is `Read` or `Write` just where they have:
/// neither may have failed before.
pub fn ask_through<R: Read, W: Write>(
    alloc: Global,
    reader: &mut Lent<'_, R>,
    writer: &mut Lent<'_, W>,
    method: Method,
    name: &str,
    most: u32,
) -> Result<Told, AskFault>
    requires name { length name.now ≤ 1048576 }
    requires most { 1 ≤ most }
    ensures loans { (lent_name reader.new ≡ lent_name reader.old)
        × (lent_name writer.new ≡ lent_name writer.old) }
    ensures request { IsSentFor result method name.now
        (W.contents (lent_inner writer.old)) (W.contents (lent_inner writer.new)) }
    ensures response { IsReadFor result method most
        (R.remaining (lent_inner reader.old)) (R.remaining (lent_inner reader.new)) }
    // Memory was wanted for the request, or for the response.
    ensures no_memory { IsErrOf result AskFault.NoMemory
        → ((lent_inner writer.new ≡ lent_inner writer.old)
        × (lent_inner reader.new ≡ lent_inner reader.old))
        ⊎ WritesRequest method name.now
        (W.contents (lent_inner writer.old)) (W.contents (lent_inner writer.new)) }
    ensures read { HasReadCause result (lent_failed reader.old) (lent_failed reader.new) }
    ensures write { HasWriteCause result (lent_failed writer.old) (lent_failed writer.new) }
    ensures answer { IfOk result (IsAnswerTo method most) }
{
    let Ok(request) = request_text(alloc, method, name) else {
        return Err(AskFault::NoMemory);
    };
    match send(writer, &request) {
        Ok(()) => read_told(alloc, reader, method, most),
        Err(_) => Err(AskFault::Write),
    }
}

/// Reads a response, a Check's to its trailers and a Watch's to its last status that is wanted.
fn read_told<R: Read>(
    alloc: Global,
    reader: &mut Lent<'_, R>,
    method: Method,
    most: u32,
) -> Result<Told, AskFault>
    requires most { 1 ≤ most }
    ensures reference { lent_name reader.new ≡ lent_name reader.old }
    ensures response { IsReadFor result method most
        (R.remaining (lent_inner reader.old)) (R.remaining (lent_inner reader.new)) }
    ensures read { HasReadCause result (lent_failed reader.old) (lent_failed reader.new) }
    ensures no_write { IfErr result (λ fault. fault ≢ AskFault.Write) }
{
    let mut reply = Reply::new(alloc, method, most)?;
    let mut piece = Vec::new(alloc);
    while reply.wanted() > 0 {
        if piece.resize(reply.wanted(), 0).is_err() {
            return Err(AskFault::NoMemory);
        }
        match read_more(reader, &mut piece, reply) {
            Ok(after) => reply = after,
            Err(fault) => return Err(fault),
        }
    }
    Ok(reply.into_told())
}

/// Reads once, and gives what was read to the response.
pub(crate) fn read_more<R: Read>(
    reader: &mut Lent<'_, R>,
    piece: &mut [u8],
    reply: Reply,
) -> Result<Reply, AskFault>
    requires some { 0 < length piece.old }
    requires within { length piece.old ≤ wanted_of reply }
    ensures reference { lent_name reader.new ≡ lent_name reader.old }
    ensures ok { IfOk result (λ after. (bytes : List ℕ)
        × Consumes (R.remaining (lent_inner reader.old)) (R.remaining (lent_inner reader.new)) bytes
        × ((front : List ℕ) → Holds front reply → GoesTo (front ++ bytes) reply after)) }
    ensures err { IfErr result (λ fault. (bytes : List ℕ)
        × Consumes (R.remaining (lent_inner reader.old)) (R.remaining (lent_inner reader.new)) bytes
        × ((front : List ℕ) → Holds front reply
        → IsFaultAt fault (method_of reply) (most_of reply) front bytes)) }
    ensures read { HasReadCause result (lent_failed reader.old) (lent_failed reader.new) }
    ensures call { IfOk result (λ after.
        (method_of after ≡ method_of reply) × (most_of after ≡ most_of reply)) }
    ensures fewer { IfOk result (λ after. owed_of after < owed_of reply) }
{
    let Ok(count) = reader.read(piece) else {
        return Err(AskFault::Read);
    };
    if count == 0 {
        return Err(AskFault::Read);
    }
    reply.give(&piece[..count])
}
