//! What is copied of a journal at a time.

ghost use Rattle.hall.specs.Looking.{HasLooked};
ghost use Rattle.hall.specs.Seats.{IsOf};

use desk_core::{Change, Entry, Keep, board_entries};
use hall::{Hall, Seat};
use probe_core::Probe;
use std::alloc::{AllocError, Global};
use std::sync::Wait;

/// How many entries, and how many status changes.
const ROOM: usize = 1_024;

/// The next entries of a journal, and the next of its status changes.
#[derive(Drop)]
pub(crate) struct Batch {
    /// The place of the first entry.
    place: u32,
    entries: Vec<Entry>,
    /// The place of the first change in the list of them.
    changes_place: u64,
    changes: Vec<Change>,
}

impl Batch {
    /// Nothing yet; the next entry will be the one at this place, and the next change the first of all.
    pub(crate) fn new(alloc: Global, place: u32) -> Result<Batch, AllocError> {
        Ok(Batch {
            place,
            entries: Vec::with_capacity(alloc, ROOM)?,
            changes_place: 0,
            changes: Vec::with_capacity(alloc, ROOM)?,
        })
    }

    pub(crate) fn place(&self) -> u32 {
        self.place
    }

    /// Copies what there is by now, unless some of it is forgotten.
    pub(crate) fn copy<R: Wait, P: Probe, K: Keep>(
        &mut self,
        rt: &R,
        hall: &Hall<P, K>,
        seat: &mut Seat<P, K>,
    ) -> bool
        requires ours { IsOf hall.now seat.old }
        ensures looked { HasLooked seat.old seat.new }
        ensures ours { IsOf hall.now seat.new }
    {
        self.entries.clear();
        self.changes.clear();
        let place = u64::from(self.place);
        let has_entries = copy_entries(rt, hall, seat, place, &mut self.entries);
        let has_changes = copy_changes(rt, hall, seat, self.changes_place, &mut self.changes);
        has_entries && has_changes
    }

    /// Goes on to the end of the journal, whose board it answers, and of the list of changes.
    pub(crate) fn skip<R: Wait, P: Probe, K: Keep>(
        &mut self,
        rt: &R,
        hall: &Hall<P, K>,
        seat: &mut Seat<P, K>,
    ) -> u64
        requires ours { IsOf hall.now seat.old }
        ensures looked { HasLooked seat.old seat.new }
        ensures ours { IsOf hall.now seat.new }
    {
        // The changes of entries that come in between are before the place of the next entry.
        self.changes_place = end_of_changes(rt, hall, seat);
        let board = board_of(hall, seat);
        self.place = board_entries(board);
        board
    }

    /// How many of the entries can be told: of each, all status changes are here, and also the entry behind it, if there is one
    /// by now.
    pub(crate) fn ready(&self) -> usize {
        let mut ready = self.entries.len();
        if ready >= ROOM {
            ready -= 1;
        }
        if self.changes.len() < ROOM {
            return ready;
        }
        match self.changes.last() {
            Some(last) => ready.min(last.at.saturating_sub(self.place) as usize),
            None => ready,
        }
    }

    /// Whether there may be more by now than is here.
    pub(crate) fn is_full(&self) -> bool {
        self.entries.len() >= ROOM || self.changes.len() >= ROOM
    }

    /// Whether there is an entry behind so many.
    pub(crate) fn has_behind(&self, told: u32) -> bool {
        self.entries.len() > told as usize
    }

    pub(crate) fn entry(&self, index: usize) -> Option<Entry> {
        self.entries.get(index).copied()
    }

    /// How many changes there are.
    pub(crate) fn change_count(&self) -> usize {
        self.changes.len()
    }

    /// How many of the changes are of entries before the first one.
    pub(crate) fn older_changes(&self) -> usize {
        let mut older: usize = 0;
        for change in &self.changes {
            if change.at < self.place {
                older = older.saturating_add(1);
            }
        }
        older
    }

    /// The change at an index, if it is of the entry at this place.
    pub(crate) fn change_at(&self, index: usize, place: u32) -> Option<Change> {
        let change = self.changes.get(index).copied()?;
        if change.at == place {
            Some(change)
        } else {
            None
        }
    }

    pub(crate) fn change(&self, index: usize) -> Option<Change> {
        self.changes.get(index).copied()
    }

    /// So many entries and changes are told.
    pub(crate) fn advance(&mut self, entries: u32, changes: u64) {
        self.place = self.place.saturating_add(entries);
        self.changes_place = self.changes_place.saturating_add(changes);
    }
}

fn copy_entries<R: Wait, P: Probe, K: Keep>(
    rt: &R,
    hall: &Hall<P, K>,
    seat: &mut Seat<P, K>,
    place: u64,
    entries: &mut Vec<Entry>,
) -> bool
    requires ours { IsOf hall.now seat.old }
    ensures looked { HasLooked seat.old seat.new }
    ensures ours { IsOf hall.now seat.new }
{
    hall.copy_entries(rt, seat, place, entries)
}

fn copy_changes<R: Wait, P: Probe, K: Keep>(
    rt: &R,
    hall: &Hall<P, K>,
    seat: &mut Seat<P, K>,
    place: u64,
    changes: &mut Vec<Change>,
) -> bool
    requires ours { IsOf hall.now seat.old }
    ensures looked { HasLooked seat.old seat.new }
    ensures ours { IsOf hall.now seat.new }
{
    hall.copy_changes(rt, seat, place, changes)
}

/// How many status changes there are by now.
fn end_of_changes<R: Wait, P: Probe, K: Keep>(
    rt: &R,
    hall: &Hall<P, K>,
    seat: &mut Seat<P, K>,
) -> u64
    requires ours { IsOf hall.now seat.old }
    ensures looked { HasLooked seat.old seat.new }
    ensures ours { IsOf hall.now seat.new }
{
    let (watch, _) = hall.open(rt, seat, "");
    watch.start()
}

/// The board as it is by now.
pub(crate) fn board_of<P: Probe, K: Keep>(hall: &Hall<P, K>, seat: &mut Seat<P, K>) -> u64
    requires ours { IsOf hall.now seat.old }
    ensures looked { HasLooked seat.old seat.new }
    ensures ours { IsOf hall.now seat.new }
{
    hall.board(seat)
}
