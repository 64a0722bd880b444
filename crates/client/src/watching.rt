ghost use Rattle.std.specs.Prelude.{◌≡◌, ◌≢◌, ◌≤◌, ◌<◌, ◌⊎◌, ◌∷◌, [], ◌++◌, false, length, List, ℕ, IfOk, IfErr, IsErrOf};
ghost use Rattle.std.specs.Io.KnownBytes.{Appends};
ghost use Rattle.client.specs.Ask.{HasReadCause, HasWriteCause, IsAnswerTo, IsReadFor, IsSentFor};
ghost use Rattle.client.specs.Heard.{IsHeardFor, wanted_by_end};
ghost use Rattle.client.specs.Lent.{lent_inner, lent_failed, lent_name};
ghost use Rattle.client.specs.Request.{WritesRequest};

use crate::ask_fault::AskFault;
use crate::asking::read_more;
use crate::lent::Lent;
use crate::listener::Listener;
use crate::reply::Reply;
use crate::request::request_text;
use crate::told::Told;
use crate::transfer::send;
use std::alloc::Global;
use std::io::{Read, Write};
use web_call::Method;

/// Asks a server by a Watch, as `ask_through` does, and tells a listener each status before more is read. Where the listener has
/// enough the Watch is left at once, as after the last status that was asked for.
pub fn watch_through<R: Read, W: Write, L: Listener>(
    alloc: Global,
    reader: &mut Lent<'_, R>,
    writer: &mut Lent<'_, W>,
    name: &str,
    most: u32,
    listener: &mut L,
) -> Result<Told, AskFault>
    requires name { length name.now ≤ 1048576 }
    requires most { 1 ≤ most }
    requires wants { L.has_enough listener.old ≡ false }
    ensures loans { (lent_name reader.new ≡ lent_name reader.old)
        × (lent_name writer.new ≡ lent_name writer.old) }
    ensures request { IsSentFor result Method.Watch name.now
        (W.contents (lent_inner writer.old)) (W.contents (lent_inner writer.new)) }
    // No byte was read behind the status with which the listener had enough.
    ensures response { IsReadFor result Method.Watch
        (wanted_by_end result most (L.has_enough listener.new))
        (R.remaining (lent_inner reader.old)) (R.remaining (lent_inner reader.new)) }
    ensures no_memory { IsErrOf result AskFault.NoMemory
        → ((lent_inner writer.new ≡ lent_inner writer.old)
        × (lent_inner reader.new ≡ lent_inner reader.old))
        ⊎ WritesRequest Method.Watch name.now
        (W.contents (lent_inner writer.old)) (W.contents (lent_inner writer.new)) }
    ensures read { HasReadCause result (lent_failed reader.old) (lent_failed reader.new) }
    ensures write { HasWriteCause result (lent_failed writer.old) (lent_failed writer.new) }
    ensures answer { IfOk result (IsAnswerTo Method.Watch most) }
    ensures heard { IsHeardFor result
        (R.remaining (lent_inner reader.old)) (R.remaining (lent_inner reader.new))
        (L.heard listener.old) (L.heard listener.new) }
{
    let Ok(request) = request_text(alloc, Method::Watch, name) else {
        return Err(AskFault::NoMemory);
    };
    match send(writer, &request) {
        Ok(()) => read_aloud(alloc, reader, most, listener),
        Err(_) => Err(AskFault::Write),
    }
}

/// Reads a Watch's response to its last status that is wanted, and tells each status before it reads on.
fn read_aloud<R: Read, L: Listener>(
    alloc: Global,
    reader: &mut Lent<'_, R>,
    most: u32,
    listener: &mut L,
) -> Result<Told, AskFault>
    requires most { 1 ≤ most }
    requires wants { L.has_enough listener.old ≡ false }
    ensures reference { lent_name reader.new ≡ lent_name reader.old }
    ensures response { IsReadFor result Method.Watch
        (wanted_by_end result most (L.has_enough listener.new))
        (R.remaining (lent_inner reader.old)) (R.remaining (lent_inner reader.new)) }
    ensures read { HasReadCause result (lent_failed reader.old) (lent_failed reader.new) }
    ensures no_write { IfErr result (λ fault. fault ≢ AskFault.Write) }
    ensures answer { IfOk result (IsAnswerTo Method.Watch most) }
    ensures heard { IsHeardFor result
        (R.remaining (lent_inner reader.old)) (R.remaining (lent_inner reader.new))
        (L.heard listener.old) (L.heard listener.new) }
{
    let mut reply = Reply::new(alloc, Method::Watch, most)?;
    let mut piece = Vec::new(alloc);
    while reply.wanted() > 0 {
        if piece.resize(reply.wanted(), 0).is_err() {
            return Err(AskFault::NoMemory);
        }
        let told = reply.statuses().len();
        match read_more(reader, &mut piece, reply) {
            Ok(after) => reply = after,
            Err(fault) => return Err(fault),
        }
        if tell_newest(listener, reply.statuses(), told) {
            return Ok(reply.leave());
        }
    }
    Ok(reply.into_told())
}

/// Tells the status that stands behind so many others, if there is one. The answer is whether the listener has enough.
fn tell_newest<L: Listener>(listener: &mut L, statuses: &[u64], told: usize) -> bool
    requires wants { L.has_enough listener.old ≡ false }
    ensures none { length statuses.now ≤ told → listener.new ≡ listener.old }
    ensures told { (before : List ℕ) (status : ℕ) → statuses.now ≡ before ++ status ∷ []
        → length before ≡ told → Appends (L.heard listener.old) (L.heard listener.new) (status ∷ []) }
    ensures enough { result ≡ L.has_enough listener.new }
{
    match statuses.get(told) {
        Some(status) => listener.hear(*status),
        None => false,
    }
}
