//! Short entries in the place of a file's older ones.

ghost use Rattle.std.specs.Prelude.{◌≡◌, ◌<◌, IfSome, IfNone};
ghost use Rattle.desk_core.specs.Legal.{IsLegal};
ghost use Rattle.desk_core.specs.Past.{past};
ghost use Rattle.journal_store.specs.Alike.{AreAlike};
ghost use Rattle.journal_store.specs.Digest.{IsDigest};
ghost use Rattle.journal_store.specs.Preface.{IsFront};
ghost use Rattle.journal_store.specs.Record.{restored, restored_of};
ghost use Rattle.journal_store.specs.Standing.{IsNext};

use crate::digest::Digest;
use crate::preface::Preface;
use crate::restoring::EARLIER;
use desk_core::Entry;
use entry_record::Stored;
use std::alloc::Global;

/// Short entries that take the place of others, the oldest first, and the preface of the file that has them.
#[derive(Drop)]
pub(crate) struct Condensed {
    pub preface: Preface,
    pub short: Vec<Entry>,
}

/// What may take the place of the first entries of a file with this preface. None where it is no shorter, they are not legal, there are
/// too many to count, or no memory.
pub(crate) fn condense(alloc: Global, preface: &Preface, taken: &[Stored]) -> Option<Condensed>
    ensures next { IfSome result (λ condensed.
        IsNext preface.now condensed.preface (restored_of taken.now) condensed.short.items) }
    ensures legal { IfSome result (λ condensed. IsLegal (past (restored_of taken.now))) }
    ensures alike { IfSome result (λ condensed.
        AreAlike (past condensed.short.items) (past (restored_of taken.now))) }
    ensures shorter { IfSome result (λ condensed. preface.now.base < condensed.preface.base) }
    ensures fits { IfSome result (λ condensed. IsFront condensed.preface) }
{
    let digest = digest_of(taken)?;
    let Ok(short) = digest.entries(alloc) else {
        return None;
    };
    if short.len() >= taken.len() {
        return None;
    }
    let preface = preface.next(alloc, taken.len(), short.len())?;
    Some(Condensed { preface, short })
}

/// The digest of the entries that a restart makes of these, if they are legal.
fn digest_of(stored: &[Stored]) -> Option<Digest>
    ensures some { IfSome result (λ digest. IsDigest digest (past (restored_of stored.now))) }
    ensures none { IfNone result (IsLegal (past (restored_of stored.now)) → ⊥) }
{
    let mut digest = Digest::new();
    for number in 0..stored.len() {
        if !digest.take_in(&restored(&stored[number])) {
            return None;
        }
    }
    Some(digest)
}

/// The entry that a restart makes of a stored one.
fn restored(stored: &Stored) -> Entry
    ensures { result ≡ restored stored.now }
{
    Entry {
        seat: EARLIER,
        call: stored.entry.call,
        reply: stored.entry.reply,
    }
}
