ghost use Rattle.std.specs.Prelude.{◌≡◌, ◌≤◌, true, max, length, IfOk};
ghost use Rattle.hall.specs.Seats.{new_seats};
ghost use Rattle.desk_core.specs.Left.{Holds};
ghost use Rattle.record_log.specs.FileView.{IsReadyFile};
ghost use Rattle.record_log.specs.Log.{IsReady, texts};
ghost use Rattle.journal_store.specs.Record.{restored_of};
ghost use Rattle.server.specs.Again.{changes_of, replies_of};
ghost use Rattle.server.specs.Setup.{AreSetUp};
ghost use Rattle.server.specs.Storing.{HasItsEntries};
ghost use Rattle.durable.specs.Journal.{FirstHasSeenIts};

use crate::new_file::NewFile;
use crate::opening_fault::OpeningFault;
use crate::place::place_of;
use chronicle::{Chronicle, Who};
use desk_core::{Catalogue, Entry, Keep};
use entry_record::Stored;
use journal_store::{FileMedium, FileStore, JournalStore, Medium, Preface, RecordFault, Witness};
use probe_core::{Maker, Probe};
use record_log::{FileDevice, RecordLog};
use server::{AgainFault, SetUpHall, hall_again};
use std::alloc::{AllocError, Global};
use std::fs::File;
use std::io::Read;
use std::marker::Model;
use std::rt::Files;
use std::sync::Wait;
use std::{fs, io};

/// The first bytes of a journal's file: an open gate, the length of the first record, and its text.
const BEGINNING: [u8; 19] = *b"\x01\x1ehealthd journal 1";

/// The seat that makes the entries of an earlier run again.
const FIRST: u16 = 0;

/// A journal in a file, which has the names of a catalogue, and the entries that it had when it was opened.
#[derive(Drop)]
pub struct Journal<'a, R: Files<File = File> + AllocGlobal, W: Witness> {
    // It goes before the store does, whose lock is held until then.
    new_file: NewFile<'a, R>,
    store: FileStore<'a, R, W>,
    catalogue: Catalogue,
    entries: Vec<Entry>,
    stored: Vec<Stored>,
    found: Vec<Vec<u8>>,
}

impl<'a, R: Files<File = File> + AllocGlobal, W: Witness> Model for Journal<'a, R, W> {
    ghost use Rattle.std.specs.Prelude.{◌≡◌};
    ghost use Rattle.durable.specs.Journal.{JournalState, IsKeptIn};

    ghost Value = { JournalState };

    ghost view = { λ journal. record {
      names = journal.catalogue;
      in_file = journal.store.front.names;
      left = journal.store.kept.left;
      entries = journal.entries.items;
    } };

    ghost invariant = { λ journal.
        IsKeptIn journal.store.kept.journal journal.store.kept.left journal.entries.items };
}

impl<'a, R: Files<File = File> + AllocGlobal, W: Witness> Journal<'a, R, W> {
    ghost use Rattle.std.specs.Prelude.{◌≡◌, ◌≤◌, [], max, length, IfOk, OnOk};
    ghost use Rattle.desk_core.specs.Left.{HasLeft};
    ghost use Rattle.hall.specs.Seats.{new_seats};
    ghost use Rattle.server.specs.Again.{changes_of, replies_of};
    ghost use Rattle.server.specs.Setup.{AreSetUp};
    ghost use Rattle.durable.specs.Journal.{AreOfFirst, FirstHasSeen};

    /// Opens the file at a path, which is made if it is missing. No other process may have it open until the journal, and what comes of
    /// it, is dropped. A file that was missing is so again where the journal is dropped before it has begun.
    pub fn open(
        rt: &'a R,
        path: &str,
        witness: W,
        catalogue: Catalogue,
    ) -> Result<Journal<'a, R, W>, OpeningFault>
        ensures names { IfOk result (λ journal. journal.names ≡ catalogue) }
        ensures in_file { IfOk result (λ journal. journal.in_file ≡ catalogue) }
    {
        let alloc = rt.alloc();
        let named = String::from_str(alloc, path)?;
        let medium = FileMedium::new(rt, String::from_str(alloc, path)?);
        let own = Preface::new(alloc, &catalogue)?;
        let preface = Preface::new(alloc, &catalogue)?;
        open_with(rt, named, medium, witness, own, preface, catalogue)
    }

    /// Its entries, the oldest first. Those of an earlier run are of the first seat.
    pub fn entries(&self) -> &[Entry]
        ensures { result.now ≡ self.now.entries }
    {
        &self.entries
    }

    /// Puts the entries of a setup into a journal that has none: all of them or, where it is refused or a crash comes, none.
    pub fn begin(&mut self, entries: Vec<Entry>) -> Result<(), OpeningFault>
        requires new { self.old.entries ≡ [] }
        requires first { AreOfFirst entries.items }
        ensures begun { OnOk result (self.new.entries ≡ entries.items) }
        ensures crash { HasLeft self.old.left self.new.left [] entries.items }
        ensures names { self.new.names ≡ self.old.names }
    {
        match self.store.store(&entries) {
            Ok(()) => {
                self.new_file.keep();
                self.entries = entries;
                Ok(())
            }
            Err(_) => Err(OpeningFault::of_device(self.error())),
        }
    }

    /// The error of the system for which its file failed, if it is known.
    fn error(&self) -> Option<io::Error> {
        self.store.device()?.error()
    }

    /// Takes down when each entry was made, and who asked for it: those of a setup now. Of those that stand for older ones it is not known.
    pub fn tell(&self, chronicle: &Chronicle, micros: u64) {
        if self.stored.is_empty() {
            let entries = u32::try_from(self.entries.len()).unwrap_or(u32::MAX);
            chronicle.note_all(entries, micros, Who::Setup);
        }
        let condensed = self.store.preface().condensed();
        let mut place: u32 = 0;
        for stored in &self.stored {
            if place >= condensed {
                chronicle.note(place, stored.micros, stored.who);
            }
            place = place.saturating_add(1);
        }
    }

    /// A hall that goes on from the journal, with so many seats, of which the first has made its entries again. It stores each change and
    /// takes at most so many entries; where the journal has as many or more, it is full.
    pub fn into_hall<P: Probe, M: Maker<P>, S: Wait>(
        self,
        rt: &S,
        alloc: Global,
        max_entries: u32,
        maker: &M,
        seats: u16,
    ) -> Result<SetUpHall<P, FileStore<'a, R, W>>, OpeningFault>
        requires some { 1 ≤ seats }
        requires not_too_many { seats ≤ 1024 }
        ensures hall { IfOk result (λ made. (made.hall.names ≡ self.entry.names)
            × (made.hall.most ≡ max max_entries (length self.entry.entries))
            × (made.hall.seats ≡ seats)) }
        ensures seats { IfOk result (λ made. AreSetUp (changes_of self.entry.entries) made.results
            (new_seats made.hall.table made.hall.most seats) made.seats) }
        ensures replies { IfOk result (λ made. made.results ≡ replies_of self.entry.entries) }
        ensures seen { IfOk result (λ made. FirstHasSeen made.seats self.entry.entries) }
    {
        let Journal {
            mut new_file,
            store,
            catalogue,
            entries,
            stored: _,
            found,
        } = self;
        new_file.keep();
        let again = made_again(
            rt,
            alloc,
            catalogue,
            entries,
            found,
            max_entries,
            maker,
            seats,
        )?;
        let made = stored_in(rt, again, store)?;
        Ok(made)
    }
}

/// Opens the file of this name, with what was made before it is touched.
fn open_with<'a, R: Files<File = File> + AllocGlobal, W: Witness>(
    rt: &'a R,
    named: String,
    medium: FileMedium<'a, R>,
    witness: W,
    own: Preface,
    preface: Preface,
    catalogue: Catalogue,
) -> Result<Journal<'a, R, W>, OpeningFault>
    ensures names { IfOk result (λ journal. journal.names ≡ catalogue) }
    ensures in_file { IfOk result (λ journal. journal.in_file ≡ own.names) }
{
    let alloc = rt.alloc();
    let was_missing = is_missing(rt, named.as_str())?;
    let (log, found) = log_at(rt, alloc, named.as_str())?;
    let (store, stored) = store_over(alloc, medium, witness, log, &found, preface, &own)?;
    let entries = entries_of(alloc, &stored)?;
    let is_new = was_missing && found.is_empty();
    Ok(Journal {
        new_file: NewFile::new(rt, named, is_new),
        store,
        catalogue,
        entries,
        stored,
        found,
    })
}

/// A hall of this catalogue with so many seats, of which the first has made the entries again that were found in the file. It takes at
/// most so many entries, or those alone where they are more.
pub(crate) fn made_again<S: Wait, P: Probe, K: Keep, M: Maker<P>>(
    rt: &S,
    alloc: Global,
    catalogue: Catalogue,
    entries: Vec<Entry>,
    found: Vec<Vec<u8>>,
    max_entries: u32,
    maker: &M,
    seats: u16,
) -> Result<SetUpHall<P, K>, OpeningFault>
    requires some { 1 ≤ seats }
    requires not_too_many { seats ≤ 1024 }
    ensures hall { IfOk result (λ made. (made.hall.names ≡ catalogue)
        × (made.hall.most ≡ max max_entries (length entries.items))
        × (made.hall.seats ≡ seats)) }
    ensures seats { IfOk result (λ made. AreSetUp (changes_of entries.items) made.results
        (new_seats made.hall.table made.hall.most seats) made.seats) }
    ensures replies { IfOk result (λ made. made.results ≡ replies_of entries.items) }
{
    let Ok(len) = u32::try_from(entries.len()) else {
        return Err(OpeningFault::TooLong);
    };
    let most = max_entries.max(len);
    let front = catalogue.len() + 1;
    match hall_again(rt, alloc, catalogue, most, &entries, maker, seats) {
        Ok(again) => Ok(again),
        Err(AgainFault::Memory) => Err(OpeningFault::Memory),
        Err(AgainFault::Illegal(number)) => {
            let place = place_of(&found, front.saturating_add(number));
            Err(OpeningFault::Damaged(place))
        }
    }
}

/// The hall, which stores each change from now on.
fn stored_in<S: Wait, P: Probe, K: Keep>(
    rt: &S,
    made: SetUpHall<P, K>,
    store: K,
) -> Result<SetUpHall<P, K>, OpeningFault>
    requires has { HasItsEntries K.stands K.left store made }
    ensures same { IfOk result (λ stored. stored ≡ made) }
    ensures seen { IfOk result (λ stored. FirstHasSeenIts made) }
{
    let mut made = made;
    match made.store_in(rt, store) {
        Ok(()) => Ok(made),
        Err(_) => Err(OpeningFault::NotStored),
    }
}

/// The log in the file at a path, which is made if it is missing, and the records that it has.
fn log_at<R: Files<File = File> + AllocGlobal>(
    rt: &R,
    alloc: Global,
    path: &str,
) -> Result<(RecordLog<FileDevice>, Vec<Vec<u8>>), OpeningFault>
    ensures { IfOk result (λ made. IsReadyFile made.0 (texts made.1.items)) }
{
    let device = FileDevice::open(rt, path)?;
    if let Some(fault) = fault_of_file(rt, path) {
        return Err(fault);
    }
    let mut log = RecordLog::new(device);
    match log.open(alloc) {
        Ok(found) => Ok((log, found)),
        Err(fault) => Err(OpeningFault::of_opening(fault, log.device.error())),
    }
}

/// A store over a log that was opened, whose names have to be those of the last preface, and the entries that were found in it.
fn store_over<M: Medium, W: Witness>(
    alloc: Global,
    medium: M,
    witness: W,
    log: RecordLog<M::Device>,
    found: &[Vec<u8>],
    preface: Preface,
    own: &Preface,
) -> Result<(JournalStore<M, W>, Vec<Stored>), OpeningFault>
    requires ready { IsReady M.Device.contents M.Device.may_leave log (texts found.now) }
    ensures names { IfOk result (λ made. made.0.front.names ≡ own.now.names) }
    ensures kept { IfOk result (λ made. made.0.kept.journal ≡ restored_of made.1.items) }
    ensures holds { IfOk result (λ made. Holds made.0.kept.left (restored_of made.1.items)) }
{
    match JournalStore::over(alloc, medium, witness, log, found, preface) {
        Ok((store, stored)) if are_same(store.preface().names(), own.names()) => Ok((
            store, stored,
        )),
        Ok(_) => Err(OpeningFault::AnotherCatalogue),
        Err(fault) => Err(fault_in(found, fault)),
    }
}

/// Whether there is no file at a path. A link is no journal.
pub(crate) fn is_missing<R: Files<File = File>>(rt: &R, path: &str) -> Result<bool, OpeningFault> {
    match fs::symlink_metadata(rt, path) {
        Ok(found) if found.is_symlink() => Err(OpeningFault::NotAFile),
        Ok(_) => Ok(false),
        Err(error) => Ok(error.kind() == io::ErrorKind::NotFound),
    }
}

/// Why the file at a path is no journal: one begins as one may that a journal was put into, whatever came of that. Any other is somebody
/// else's, and is not written to.
fn fault_of_file<R: Files<File = File>>(rt: &R, path: &str) -> Option<OpeningFault> {
    let Ok(mut file) = fs::open(rt, path) else {
        return None;
    };
    let mut found = [0; 19];
    match file.read(&mut found) {
        Ok(_) if !is_beginning(&found) => Some(OpeningFault::Damaged(0)),
        _ => None,
    }
}

/// Whether each of the first bytes is that of a journal's file, or was not written.
pub(crate) fn is_beginning(found: &[u8]) -> bool {
    for (found, byte) in found.iter().zip(&BEGINNING) {
        if *found != 0 && found != byte {
            return false;
        }
    }
    true
}

/// Whether these names are the same.
pub(crate) fn are_same(names: &[Vec<u8>], other: &[Vec<u8>]) -> bool
    ensures { result ≡ true → texts names.now ≡ texts other.now }
{
    if names.len() != other.len() {
        return false;
    }
    for number in 0..names.len() {
        if names[number].as_slice() != other[number].as_slice() {
            return false;
        }
    }
    true
}

/// What is told of a fault of what was found in a file.
pub(crate) fn fault_in(found: &[Vec<u8>], fault: RecordFault) -> OpeningFault {
    match fault {
        RecordFault::Memory => OpeningFault::Memory,
        RecordFault::Preface(_) | RecordFault::TooFew => OpeningFault::Damaged(0),
        RecordFault::NotAnEntry(number) => OpeningFault::Damaged(place_of(found, number)),
    }
}

/// The entries that a run makes again of those of a file.
pub(crate) fn entries_of(alloc: Global, stored: &[Stored]) -> Result<Vec<Entry>, AllocError>
    ensures { IfOk result (λ entries. entries.items ≡ restored_of stored.now) }
{
    let mut entries = Vec::with_capacity(alloc, stored.len())?;
    for one in stored {
        entries.push(Entry {
            seat: FIRST,
            call: one.entry.call,
            reply: one.entry.reply,
        })?;
    }
    Ok(entries)
}
