ghost use Rattle.std.specs.Prelude.{◌≡◌, ◌+◌, ◌≤◌, ◌++◌, drop, length, max, OnOk};
ghost use Rattle.std.specs.Vec.{vec_len, vec_capacity};

use crate::change::Change;
use crate::keep::{Keep, KeepAll};
use crate::watch::{Behind, Watch};
use health_wire::Serving;
use std::alloc::{AllocError, Global};
use std::marker::{Model, PhantomData};
use tail::Tail;

/// The least memory that is asked for, in changes.
const LEAST: usize = 16;

/// A copy of the status changes that a desk keeps, from which watches are told apart from the desk.
#[derive(Drop)]
pub struct Transcript<K: Keep = KeepAll> {
    held: Vec<Change>,
    gone: u64,
    keep: PhantomData<K>,
}

impl<K: Keep> Model for Transcript<K> {
    ghost use Rattle.std.specs.Prelude.{◌+◌, ◌<◌, ◌≤◌, ◌^◌, length, IfSome};
    ghost use Rattle.std.specs.Vec.{vec_capacity};
    ghost use Rattle.desk_core.specs.Transcript.{TranscriptState};
    ghost use Rattle.tail.specs.Tail.{most_held};

    ghost Value = { TranscriptState };

    ghost view = { λ copy. record {
      held = copy.held.items;
      gone = copy.gone;
      kept = K.kept;
      capacity = vec_capacity copy.held;
    } };

    ghost invariant = { λ copy. (copy.gone + length copy.held.items < 2 ^ 63)
        × IfSome K.kept (λ kept. vec_capacity copy.held ≤ most_held kept) };
}

impl<K: Keep> Transcript<K> {
    ghost use Rattle.std.specs.Prelude.{◌≡◌, ◌+◌, ◌<◌, ◌≤◌, ◌^◌, ◌↔◌, List, drop, length, IfSome, IsNone, IsErr, IfOk, OnOk, OnErr};
    ghost use Rattle.desk_core.specs.declared.change.Change.{Change};
    ghost use Rattle.desk_core.specs.Transcript.{IsCopy, IsCopyWithin};
    ghost use Rattle.desk_core.specs.Watch.{IsBehind, stepped};
    ghost use Rattle.tail.specs.Tail.{forgotten, most_held};

    /// A copy of no change, which takes no memory yet.
    pub fn new(alloc: Global) -> Transcript<K>
        ensures copy { (changes : List Change) → IsCopyWithin result changes }
        ensures memory { result.capacity ≡ 0 }
    {
        Transcript {
            held: Vec::new(alloc),
            gone: 0,
            keep: PhantomData,
        }
    }

    /// For how many changes there is memory.
    pub fn capacity(&self) -> usize
        ensures capacity { result ≡ self.now.capacity }
        ensures most { IfSome K.kept (λ kept. result ≤ most_held kept) }
    {
        self.held.capacity()
    }

    /// The next status change of the watch's service in the copy, if there is one, unless the watch is behind: then it stays as it is.
    pub fn step(&self, watch: &mut Watch) -> Result<Option<Serving>, Behind>
        ensures status { (changes : List Change) → IsCopy self.now changes
            → IfOk result (λ status. status ≡ (stepped changes watch.old).0) }
        ensures watch { (changes : List Change) → IsCopy self.now changes
            → OnOk result (watch.new ≡ (stepped changes watch.old).1) }
        ensures behind { (changes : List Change) → IsCopy self.now changes
            → (IsErr result ↔ IsBehind K.kept changes watch.old) }
        ensures stays { OnErr result (watch.new ≡ watch.old) }
    {
        watch.pass(self.since(watch.cursor()), self.len())
    }

    /// How many changes there are, with those that are not held.
    fn len(&self) -> u64
        ensures count { result ≡ self.now.gone + length self.now.held }
        ensures few { result < 2 ^ 63 }
    {
        self.gone + self.held.len() as u64
    }

    /// The changes from this place on, unless one of them is forgotten.
    fn since(&self, place: u64) -> Option<&[Change]>
        ensures items { (changes : List Change) → IsCopy self.now changes
            → IfSome result (λ rest. rest.now ≡ drop place changes) }
        ensures forgotten { (changes : List Change) → IsCopy self.now changes
            → (IsNone result ↔ (place < forgotten K.kept (length changes))) }
        ensures few { IfSome result (λ rest. 0 < length rest.now
            → place + length rest.now < 2 ^ 63) }
    {
        let len = self.len();
        let forgotten = match K::kept() {
            None => 0,
            Some(kept) => len.saturating_sub(u64::from(kept)),
        };
        if place < forgotten {
            return None;
        }
        if place >= len {
            return Some(&[]);
        }
        let at = place.checked_sub(self.gone)? as usize;
        Some(&self.held[at..])
    }

    /// Takes over what the changes are now, of which these were a front when the copy was made. Where memory runs out, the copy is
    /// still of the same changes as before.
    pub(crate) fn follow(&mut self, changes: &Tail<Change>) -> Result<(), AllocError>
        requires kept { changes.now.keep ≡ K.kept }
        requires copy { IsCopyWithin self.old changes.now.items }
        ensures copy { OnOk result (IsCopy self.new changes.now.items) }
        ensures left { (older : List Change) → IsCopy self.old older
            → OnErr result (IsCopy self.new older) }
    {
        let Some(rest) = changes.since(self.len()) else {
            return self.begin_anew(changes);
        };
        self.make_room(rest.len())?;
        put_all(&mut self.held, rest);
        Ok(())
    }

    /// Makes room for so many more changes, and forgets older ones where they leave too little.
    fn make_room(&mut self, more: usize) -> Result<(), AllocError>
        requires { IfSome K.kept (λ kept. more ≤ kept) }
        ensures copy { (changes : List Change) → IsCopy self.old changes
            → IsCopy self.new changes }
        ensures count { self.new.gone + length self.new.held ≡ self.old.gone + length self.old.held }
        ensures room { OnOk result (length self.new.held + more ≤ self.new.capacity) }
    {
        let Some(kept) = K::kept() else {
            return self.held.reserve(more);
        };
        let kept = kept as usize;
        let most = kept + kept.max(LEAST);
        if self.held.len() + more > most {
            let gone = self.held.len() - kept;
            drop_front(&mut self.held, gone);
            self.gone += gone as u64;
        }
        let held = self.held.len();
        if self.held.capacity() - held >= more {
            return Ok(());
        }
        let room = more.max(held).max(LEAST).min(most - held);
        self.held.reserve_exact(room)
    }

    /// Takes over all changes that are kept.
    fn begin_anew(&mut self, changes: &Tail<Change>) -> Result<(), AllocError>
        requires kept { changes.now.keep ≡ K.kept }
        requires few { length changes.now.items < 2 ^ 63 }
        ensures copy { OnOk result (IsCopy self.new changes.now.items) }
        ensures left { (older : List Change) → IsCopy self.old older
            → OnErr result (IsCopy self.new older) }
    {
        let kept = changes.kept();
        fit(&mut self.held, kept.len())?;
        self.held.clear();
        self.gone = changes.forgotten();
        put_all(&mut self.held, kept);
        Ok(())
    }
}

/// Drops so many changes at the front. It takes no memory, and gives none back.
fn drop_front(held: &mut Vec<Change>, count: usize)
    requires { count ≤ vec_len held.old }
    ensures items { held.new.items ≡ drop count held.old.items }
    ensures capacity { vec_capacity held.new ≡ vec_capacity held.old }
{
    held.rotate_left(count);
    let left = held.len() - count;
    held.truncate(left);
}

/// Has memory for so many changes.
fn fit(held: &mut Vec<Change>, count: usize) -> Result<(), AllocError>
    ensures items { held.new.items ≡ held.old.items }
    ensures fits { OnOk result (count ≤ vec_capacity held.new) }
    ensures exact { vec_capacity held.new ≤ max (vec_capacity held.old) count }
{
    if held.capacity() >= count {
        return Ok(());
    }
    let more = count - held.len();
    held.reserve_exact(more)
}

/// Puts changes at the end, for which there is memory.
fn put_all(held: &mut Vec<Change>, changes: &[Change])
    requires { vec_len held.old + length changes.now ≤ vec_capacity held.old }
    ensures items { held.new.items ≡ held.old.items ++ changes.now }
    ensures capacity { vec_capacity held.new ≡ vec_capacity held.old }
{
    for change in changes {
        held.push_reserved(*change);
    }
}
