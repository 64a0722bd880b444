ghost use Rattle.std.specs.Prelude.{◌≡◌, List};
ghost use Rattle.desk_core.specs.declared.entry.Entry.{Entry};
ghost use Rattle.desk_core.specs.Board.{board_of};
ghost use Rattle.desk_core.specs.Status.{checked};

use crate::answer::Answer;
use crate::gate::{enter, leave, look};
use crate::hall::Hall;
use crate::note::Note;
use crate::seat::Seat;
use crate::steps::{Meet, Tell};
use desk_core::{
    Behind, Change, Extent, Keep, KeepAll, Recall, Slot, Standing, Transcript, Watch,
    board_entries, board_status,
};
use health_wire::Serving;
use probe_core::Probe;
use std::alloc::AllocError;
use std::sync::Wait;

/// The calls that change nothing.
impl<P: Probe, K: Keep> Hall<P, K> {
    ghost use Rattle.std.specs.Prelude.{◌≡◌, ◌-◌, ◌<◌, ◌++◌, ◌↔◌, List, length, take, drop, IfOk, IsErr, IsTrue, IsFalse, OnOk, OnErr};
    ghost use Rattle.std.specs.Vec.{vec_len, vec_capacity};
    ghost use Rattle.desk_core.specs.declared.change.Change.{Change};
    ghost use Rattle.desk_core.specs.Board.{board_of};
    ghost use Rattle.desk_core.specs.Catalogue.{slot_of};
    ghost use Rattle.desk_core.specs.Changes.{changes_of};
    ghost use Rattle.desk_core.specs.Past.{past};
    ghost use Rattle.desk_core.specs.Recall.{recalled};
    ghost use Rattle.desk_core.specs.Standing.{standing_at};
    ghost use Rattle.desk_core.specs.Status.{shown, status_map};
    ghost use Rattle.desk_core.specs.Transcript.{IsCopy, IsCopyWithin};
    ghost use Rattle.desk_core.specs.Watch.{IsBehind, IsOlder, opened, stepped};
    ghost use Rattle.hall.specs.Seats.{IsOf, GoesOn, own_calls};
    ghost use Rattle.tail.specs.Tail.{forgotten};

    /// The status of the name, and how many entries the journal has where it is so. It waits for nobody: it is one load.
    pub fn check(&self, seat: &mut Seat<P, K>, name: &str) -> Answer
        requires { IsOf self.now seat.old }
        ensures goes_on { GoesOn seat.old seat.new }
        ensures kept { own_calls seat.new ≡ own_calls seat.old }
        ensures at { result.at ≡ length seat.new.seen }
        ensures status { result.status ≡ status_map self.now.names seat.new.seen name.now }
    {
        let board = look(&self.table.shared, &mut seat.place);
        Answer {
            at: board_entries(board),
            status: status_on(board, self.catalogue.slot(name)),
        }
    }

    /// All statuses, and how many entries the journal has where they are so, in one word that `board_entries` and `board_status` of
    /// `desk_core` read. It waits for nobody: it is one load.
    pub fn board(&self, seat: &mut Seat<P, K>) -> u64
        requires { IsOf self.now seat.old }
        ensures goes_on { GoesOn seat.old seat.new }
        ensures kept { own_calls seat.new ≡ own_calls seat.old }
        ensures board { result ≡ board_of seat.new.seen }
    {
        look(&self.table.shared, &mut seat.place)
    }

    /// How many entries the journal has, and how many of them are in memory. It waits for the seat's turn.
    pub fn extent<R: Wait>(&self, rt: &R, seat: &mut Seat<P, K>) -> Extent
        requires { IsOf self.now seat.old }
        ensures goes_on { GoesOn seat.old seat.new }
        ensures kept { own_calls seat.new ≡ own_calls seat.old }
        ensures entries { result.entries ≡ length seat.new.seen }
        ensures in_memory { result.kept
            ≡ length seat.new.seen - forgotten K.kept (length seat.new.seen) }
    {
        let desk = enter(rt, &self.table.shared, &mut seat.place);
        let extent = Extent {
            entries: board_entries(desk.board()),
            kept: desk.journal_kept().len(),
        };
        leave(&self.table.shared, &mut seat.place, desk);
        extent
    }

    /// Why the slot has its status, since when, and when it was reported last. It waits for the seat's turn.
    pub fn standing<R: Wait>(&self, rt: &R, seat: &mut Seat<P, K>, slot: Slot) -> Standing
        requires { IsOf self.now seat.old }
        ensures goes_on { GoesOn seat.old seat.new }
        ensures kept { own_calls seat.new ≡ own_calls seat.old }
        ensures standing { result ≡ standing_at K.kept seat.new.seen slot }
    {
        let desk = enter(rt, &self.table.shared, &mut seat.place);
        let standing = desk.standing(slot);
        leave(&self.table.shared, &mut seat.place, desk);
        standing
    }

    /// What is still known of the entry at this place of the journal. It waits for the seat's turn.
    pub fn recall<R: Wait>(&self, rt: &R, seat: &mut Seat<P, K>, place: u32) -> Recall
        requires { IsOf self.now seat.old }
        ensures goes_on { GoesOn seat.old seat.new }
        ensures kept { own_calls seat.new ≡ own_calls seat.old }
        ensures recalled { result ≡ recalled K.kept (past seat.new.seen) place }
    {
        let desk = enter(rt, &self.table.shared, &mut seat.place);
        let recall = desk.recall(place);
        leave(&self.table.shared, &mut seat.place, desk);
        recall
    }

    /// Copies status changes from this place of the list of them on, the oldest first, as many as there is room for. It copies none,
    /// and says so, where one of them is forgotten. It waits for the seat's turn.
    pub fn copy_changes<R: Wait>(
        &self,
        rt: &R,
        seat: &mut Seat<P, K>,
        from: u64,
        changes: &mut Vec<Change>,
    ) -> bool
        requires { IsOf self.now seat.old }
        ensures goes_on { GoesOn seat.old seat.new }
        ensures kept { own_calls seat.new ≡ own_calls seat.old }
        ensures copied { IsTrue result → changes.new.items ≡ changes.old.items
            ++ take (vec_capacity changes.old - vec_len changes.old)
            (drop from (changes_of seat.new.seen)) }
        ensures none { IsFalse result → changes.new ≡ changes.old }
        ensures forgotten { IsFalse result
            ↔ (from < forgotten K.kept (length (changes_of seat.new.seen))) }
    {
        let desk = enter(rt, &self.table.shared, &mut seat.place);
        let is_kept = desk.copy_changes(from, changes);
        leave(&self.table.shared, &mut seat.place, desk);
        is_kept
    }

    /// What is shown of the name now, and a watch of what changes from now on. It waits for the seat's turn.
    pub fn open<R: Wait>(&self, rt: &R, seat: &mut Seat<P, K>, name: &str) -> (Watch, Serving)
        requires { IsOf self.now seat.old }
        ensures goes_on { GoesOn seat.old seat.new }
        ensures kept { own_calls seat.new ≡ own_calls seat.old }
        ensures watch { result.0
            ≡ opened (changes_of seat.new.seen) (slot_of self.now.names name.now) }
        ensures status { result.1 ≡ shown seat.new.seen (slot_of self.now.names name.now) }
    {
        let slot = self.catalogue.slot(name);
        let desk = enter(rt, &self.table.shared, &mut seat.place);
        let opened = desk.open(slot);
        leave(&self.table.shared, &mut seat.place, desk);
        opened
    }

    /// The next status change of the watch's service, if there is one by now, unless the watch is behind: then it stays as it is, and is
    /// behind for good. It waits for the seat's turn.
    pub fn step_kept<R: Wait>(
        &self,
        rt: &R,
        seat: &mut Seat<P, K>,
        watch: &mut Watch,
    ) -> Result<Option<Serving>, Behind>
        requires { IsOf self.now seat.old }
        ensures goes_on { GoesOn seat.old seat.new }
        ensures kept { own_calls seat.new ≡ own_calls seat.old }
        ensures status { IfOk result (λ status.
            status ≡ (stepped (changes_of seat.new.seen) watch.old).0) }
        ensures watch { OnOk result
            (watch.new ≡ (stepped (changes_of seat.new.seen) watch.old).1) }
        ensures behind { IsErr result ↔ IsBehind K.kept (changes_of seat.new.seen) watch.old }
        ensures stays { OnErr result (watch.new ≡ watch.old) }
    {
        let desk = enter(rt, &self.table.shared, &mut seat.place);
        let status = desk.step_kept(watch);
        leave(&self.table.shared, &mut seat.place, desk);
        status
    }

    /// Takes over into the copy what the status changes are by now. Where memory runs out, the copy is still of what it was. It waits
    /// for the seat's turn.
    pub fn copy_to<R: Wait>(
        &self,
        rt: &R,
        seat: &mut Seat<P, K>,
        copy: &mut Transcript<K>,
    ) -> Result<(), AllocError>
        requires seat { IsOf self.now seat.old }
        requires copy { IsCopyWithin copy.old (changes_of seat.old.seen) }
        ensures goes_on { GoesOn seat.old seat.new }
        ensures kept { own_calls seat.new ≡ own_calls seat.old }
        ensures copied { OnOk result (IsCopy copy.new (changes_of seat.new.seen)) }
        ensures left { (changes : List Change) → IsCopy copy.old changes
            → OnErr result (IsCopy copy.new changes) }
    {
        let desk = enter(rt, &self.table.shared, &mut seat.place);
        let copied = desk.copy_to(copy);
        leave(&self.table.shared, &mut seat.place, desk);
        copied
    }

    /// Writes down what the seat has seen, for another seat.
    pub fn note(&self, seat: &mut Seat<P, K>) -> Note<P, K>
        requires { IsOf self.now seat.old }
        ensures seat { seat.new ≡ seat.old }
        ensures note { result ≡ record { table = seat.old.table; seen = seat.old.seen } }
    {
        Note {
            place: self.table.shared.split_seat::<Tell>(&mut seat.place),
        }
    }

    /// Lets the seat see what the note says too, so that its next answers hold both.
    pub fn meet(&self, seat: &mut Seat<P, K>, note: Note<P, K>)
        requires seat { IsOf self.now seat.old }
        requires note { note.table ≡ self.now.table }
        ensures goes_on { GoesOn seat.old seat.new }
        ensures told { IsOlder note.seen seat.new.seen }
        ensures kept { own_calls seat.new ≡ own_calls seat.old }
    {
        // Every field is named: a new one, from which something could be answered, fails to compile here.
        let Note { place } = note;
        self.table.shared.join_seat::<Meet>(&mut seat.place, place);
        look(&self.table.shared, &mut seat.place);
    }
}

/// What a hall that keeps all can tell.
impl<P: Probe> Hall<P, KeepAll> {
    ghost use Rattle.std.specs.Prelude.{◌≡◌};
    ghost use Rattle.desk_core.specs.Changes.{changes_of};
    ghost use Rattle.desk_core.specs.Watch.{stepped};
    ghost use Rattle.hall.specs.Seats.{IsOf, GoesOn, own_calls};

    /// The next status change of the watch's service, if there is one by now. It waits for the seat's turn.
    pub fn step<R: Wait>(&self, rt: &R, seat: &mut Seat<P>, watch: &mut Watch) -> Option<Serving>
        requires { IsOf self.now seat.old }
        ensures goes_on { GoesOn seat.old seat.new }
        ensures kept { own_calls seat.new ≡ own_calls seat.old }
        ensures status { result ≡ (stepped (changes_of seat.new.seen) watch.old).0 }
        ensures watch { watch.new ≡ (stepped (changes_of seat.new.seen) watch.old).1 }
    {
        match self.step_kept(rt, seat, watch) {
            Ok(status) => status,
            Err(Behind) => unreachable!(),
        }
    }
}

/// The status of a slot on the board; none for a name that has no slot.
fn status_on(board: u64, slot: Option<Slot>) -> Option<Serving>
    ensures { (entries : List Entry) → board ≡ board_of entries
        → result ≡ checked entries slot }
{
    board_status(board, slot?)
}
