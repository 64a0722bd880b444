use crate::anew::{hold_failed, open_either};
use crate::medium::Medium;
use crate::preface::Preface;
use crate::reading::read_found;
use crate::record_fault::RecordFault;
use crate::records::batch_of;
use crate::retry::Retry;
use crate::shortening::shortened;
use crate::text::Text;
use crate::told::{Step, Told};
use crate::witness::Witness;
use chronicle::StoreFault;
use desk_core::{Entry, Keep, NotStored};
use entry_record::Stored;
use record_log::{RecordLog, blocks_of};
use std::alloc::Global;
use std::marker::Model;

/// How long the blocks of a file are at least before it is written anew.
const LEAST: usize = 16 << 20;

/// How many of the newest entries stay in a file that is written anew.
const NEWEST: usize = 65_536;

/// How long the block of a record is at most.
const LONGEST: usize = 261;

/// A journal in a file, as records of its entries behind a preface. It keeps the blocks that were acknowledged, and opens a file that
/// failed anew before the next change, once a second at most. A file that has grown long is written anew, with short entries in place of
/// the older ones.
pub struct JournalStore<M: Medium, W: Witness> {
    alloc: Global,
    medium: M,
    witness: W,
    text: Text,
    // The file may have this in its place: it was to be written anew, and that failed.
    other: Option<Text>,
    least: usize,
    newest: usize,
    log: Option<RecordLog<M::Device>>,
    is_open: bool,
    retry: Retry,
    // Why the newest change that was not stored was not.
    fault: StoreFault,
    told: Told,
}

impl<M: Medium, W: Witness> Drop for JournalStore<M, W> {
    fn drop(self) {
        let JournalStore {
            alloc: _,
            medium: _,
            witness: _,
            text: _,
            other: _,
            least: _,
            newest: _,
            log: _,
            is_open: _,
            retry: _,
            fault: _,
            told: _,
        } = self;
    }
}

impl<M: Medium, W: Witness> Model for JournalStore<M, W> {
    ghost use Rattle.journal_store.specs.Held.{Held};
    ghost use Rattle.journal_store.specs.Faithful.{IsFaithful};

    ghost Value = { Held };

    ghost view = { λ store. record {
      kept = store.told.kept;
      is_open = store.is_open;
      written = store.text.written.items;
      front = store.text.preface;
      limit = store.text.limit;
      least = store.least;
    } };

    ghost invariant = { λ store. IsFaithful
        M.Device.contents M.Device.may_leave M.Device.moment M.Device.left_since
        store.log store.is_open store.text store.other store.told.kept };
}

impl<M: Medium, W: Witness> JournalStore<M, W> {
    ghost use Rattle.std.specs.Prelude.{◌≡◌, ◌⊎◌, ◌<◌, ◌≤◌, ◌^◌, ◌∷◌, ◌++◌, [], ℕ, true, List, All, length, IfOk, IfSome, IsSome, IsErrOf, OnOk, OnErr};
    ghost use Rattle.record_log.specs.Log.{IsReady, texts};
    ghost use Rattle.desk_core.specs.declared.entry.Entry.{Entry as JournalEntry};
    ghost use Rattle.desk_core.specs.Left.{Holds, HasLeft, LeavesJournal};
    ghost use Rattle.journal_store.specs.Faithful.{HasLeftSince, LeavesOneOf};
    ghost use Rattle.journal_store.specs.Bound.{IsNextLimit};
    ghost use Rattle.journal_store.specs.Kept.{asked, begun_at, opened_at, settled};
    ghost use Rattle.journal_store.specs.Preface.{IsFaulty, new_of};
    ghost use Rattle.journal_store.specs.Read.{AreFound, HasTooFew, IsNoEntry};
    ghost use Rattle.journal_store.specs.Record.{AreAdded, IsTextOf, restored_of};
    ghost use Rattle.journal_store.specs.declared.preface_fault.PrefaceFault.{PrefaceFault as Fault};
    ghost use Rattle.journal_store.specs.declared.record_fault.RecordFault.TheVariants.{NotAnEntry, Preface as NotAPreface, TooFew};

    /// A store over a log that was opened, and the entries that were found in it. Where nothing was, it begins with a new preface of the
    /// names of the one that is given, which is written with the first entries.
    pub fn over(
        alloc: Global,
        medium: M,
        witness: W,
        log: RecordLog<M::Device>,
        found: &[Vec<u8>],
        preface: Preface,
    ) -> Result<(Self, Vec<Stored>), RecordFault>
        requires ready { IsReady M.Device.contents M.Device.may_leave log (texts found.now) }
        ensures read { IfOk result (λ made.
            AreFound made.0.front (texts found.now) made.1.items) }
        ensures new { found.now ≡ [] → IfOk result (λ made.
            made.0.front ≡ new_of preface.names) }
        ensures open { IfOk result (λ made. made.0.is_open ≡ true) }
        ensures kept { IfOk result (λ made. made.0.kept
            ≡ begun_at (M.Device.moment log.device) made.0.front (restored_of made.1.items)) }
        ensures holds { IfOk result (λ made.
            Holds made.0.kept.left (restored_of made.1.items)) }
        ensures fault { (n : ℕ) → IsErrOf result (NotAnEntry n)
            → IsNoEntry (texts found.now) n }
        ensures preface { (fault : Fault) → IsErrOf result (NotAPreface fault)
            → IsFaulty (texts found.now) fault }
        ensures too_few { IsErrOf result TooFew → HasTooFew (texts found.now) }
        ensures limit { IfOk result (λ made. (made.0.limit ≡ 2 ^ 24) × (made.0.least ≡ 2 ^ 24)) }
    {
        let (preface, stored) = read_found(alloc, found, preface)?;
        let mut written = blocks_of(alloc, found)?;
        written.truncate(written.len() - 1);
        let told = Told::new()
            .and(&Step::Begun(&preface, &stored))
            .opened(&log.device);
        let store = JournalStore {
            alloc,
            medium,
            witness,
            text: Text {
                preface,
                written,
                limit: LEAST,
            },
            other: None,
            least: LEAST,
            newest: NEWEST,
            log: Some(log),
            is_open: true,
            retry: Retry::new(),
            fault: StoreFault::Unknown,
            told,
        };
        Ok((store, stored))
    }

    /// The same store, whose file is written anew once its blocks are longer than this and twice as long as after the last time.
    pub fn with_least(mut self, least: usize) -> Self
        ensures kept { result.kept ≡ self.kept }
        ensures open { result.is_open ≡ self.is_open }
        ensures written { result.written ≡ self.written }
        ensures front { result.front ≡ self.front }
        ensures limit { (result.limit ≡ least) × (result.least ≡ least) }
    {
        self.least = least;
        self.text.limit = least;
        self
    }

    /// The same store, in whose file so many of the newest entries stay.
    pub fn with_newest(mut self, newest: usize) -> Self
        ensures { result ≡ self }
    {
        self.newest = newest;
        self
    }

    /// What is in front of the entries of the file, or will be with the first of them.
    pub fn preface(&self) -> &Preface
        ensures { result.now ≡ self.now.front }
    {
        &self.text.preface
    }

    /// The device that the file is on, if there is one.
    pub fn device(&self) -> Option<&M::Device>
        ensures open { self.now.is_open ≡ true → IsSome result }

        // Whatever a crash leaves of it now has one of these journals.
        ensures now { IfSome result (λ device.
            LeavesOneOf self.now.kept.start (M.Device.may_leave device.now)
            self.now.kept.left.now) }

        // And whatever one left of it since it was opened.
        ensures since { IfSome result (λ device.
            HasLeftSince M.Device.moment M.Device.left_since device.now self.now.kept) }
    {
        match &self.log {
            Some(log) => Some(&log.device),
            None => None,
        }
    }

    /// The blocks that were acknowledged.
    pub fn written(&self) -> &[u8]
        ensures written { result.now ≡ self.now.written }
        ensures entries { IsTextOf self.now.kept.start self.now.front result.now
            self.now.kept.journal }
    {
        &self.text.written
    }

    /// Whether a restart would find the file that has these records, where it may have to be written anew behind them.
    fn may_take(&self, batch: &[Vec<u8>]) -> bool {
        let more = batch.len().saturating_mul(LONGEST);
        let Some(log) = &self.log else {
            return true;
        };
        self.text.written.len().saturating_add(more) <= self.text.limit
            || self.medium.is_in_place(&log.device)
    }

    /// Whether the file is open, or may be opened anew at the time at which these entries are asked for.
    fn may_open(&mut self, entries: &[Entry]) -> bool
        ensures { self.new ≡ self.old }
    {
        if self.is_open {
            return true;
        }
        let seat = match entries.first() {
            Some(entry) => entry.seat,
            None => 0,
        };
        let (micros, _) = self.witness.witness(seat);
        self.retry.is_due(micros)
    }

    /// Opens the file anew, if it is not open. Nobody else has it meanwhile.
    fn reopen(&mut self) -> Result<(), StoreFault>
        ensures open { OnOk result (self.new.is_open ≡ true) }
        ensures durable { OnOk result
            (self.new.kept.left.now ≡ self.new.kept.journal ∷ []) }
        ensures ok { OnOk result ((self.new.kept ≡ self.old.kept) ⊎ ((moment : ℕ)
            × (self.new.kept ≡ opened_at (settled (asked self.old.kept []) []) moment))) }
        ensures err { OnErr result (self.new.kept ≡ asked self.old.kept []) }
        ensures same { self.old.is_open ≡ true → self.new ≡ self.old }
    {
        if self.is_open {
            return Ok(());
        }
        self.told = self.told.and(&Step::Asked(&[]));
        hold_failed(&mut self.medium, &mut self.log);
        let log = open_either(
            self.alloc,
            &mut self.medium,
            &mut self.text,
            &mut self.other,
        )?;
        self.told = self.told.and(&Step::Settled(&[])).opened(&log.device);
        self.log = Some(log);
        self.other = None;
        self.is_open = true;
        Ok(())
    }

    /// Puts these records of entries into the file.
    fn append(&mut self, entries: &[Entry], batch: &[Vec<u8>]) -> Result<(), StoreFault>
        requires open { self.old.is_open ≡ true }
        requires some { 0 < length batch.now }
        requires short { All (λ bytes. length bytes.items < 256) batch.now }
        requires of { AreAdded self.old.front self.old.written (texts batch.now) entries.now }
        ensures ok { OnOk result
            (self.new.kept ≡ settled (asked self.old.kept entries.now) entries.now) }
        ensures err { OnErr result ((self.new.kept ≡ self.old.kept)
            ⊎ (self.new.kept ≡ asked self.old.kept entries.now)) }
        ensures open { OnOk result (self.new.is_open ≡ true) }
        ensures front { self.new.front ≡ self.old.front }
        ensures limit { (self.new.limit ≡ self.old.limit) × (self.new.least ≡ self.old.least) }
    {
        let Ok(text) = blocks_of(self.alloc, batch) else {
            return Err(StoreFault::Unknown);
        };
        let before = self.text.written.len();
        let Ok(()) = self.text.written.extend_from_slice(&text[..text.len() - 1]) else {
            return Err(StoreFault::Unknown);
        };
        let Some(mut log) = self.log.take() else {
            self.text.written.truncate(before);
            return Err(StoreFault::Unknown);
        };
        self.told = self.told.and(&Step::Asked(entries));
        let stored = log.append(self.alloc, batch);
        let fault = self.medium.fault(&log.device);
        self.log = Some(log);
        if stored.is_err() {
            self.is_open = false;
            self.text.written.truncate(before);
            return Err(fault.unwrap_or(StoreFault::Unknown));
        }
        self.told = self.told.and(&Step::Settled(entries));
        Ok(())
    }

    /// Writes the file anew if it has grown long. Where that fails, the file is as it was, or is to be opened anew: it may have the one
    /// text or the other.
    fn write_anew_if_long(&mut self)
        requires open { self.old.is_open ≡ true }
        ensures kept { (self.new.kept ≡ self.old.kept) ⊎ ((moment : ℕ)
            × (self.new.kept ≡ opened_at self.old.kept moment)) }
        ensures same { self.new.front ≡ self.old.front → self.new.kept ≡ self.old.kept }
        ensures short { length self.old.written ≤ self.old.limit → self.new ≡ self.old }
        ensures bounded { length self.new.written ≤ self.new.limit }
        ensures limit { IsNextLimit self.old.limit self.old.least (length self.new.written)
            self.new.limit }
    {
        if self.text.written.len() <= self.text.limit {
            return;
        }
        self.text.put_off();
        let Some(renewed) = shortened(
            self.alloc,
            &self.text.preface,
            &self.text.written,
            self.newest,
        ) else {
            return;
        };
        let Some(old) = self.log.take() else {
            return;
        };
        let replaced = self.medium.replace(old, &renewed.file);
        let text = renewed.text(self.least);
        let Ok(log) = replaced else {
            self.is_open = false;
            self.other = Some(text);
            return;
        };
        self.told = self.told.opened(&log.device);
        self.log = Some(log);
        self.text = text;
    }

    /// Puts these entries behind those of the file, and has them on the disk: all of them, or none.
    fn keep(&mut self, entries: &[Entry]) -> Result<(), StoreFault>
        ensures stored { (journal : List JournalEntry) → self.old.kept.journal ≡ journal
            → OnOk result (self.new.kept.journal ≡ journal ++ entries.now) }
        ensures durable { (journal : List JournalEntry) → self.old.kept.journal ≡ journal
            → OnOk result (LeavesJournal self.new.kept.left (journal ++ entries.now)) }
        ensures refused { (journal : List JournalEntry) → self.old.kept.journal ≡ journal
            → OnErr result (self.new.kept.journal ≡ journal) }
        ensures crash { (journal : List JournalEntry) → self.old.kept.journal ≡ journal
            → HasLeft self.old.kept.left self.new.kept.left journal (journal ++ entries.now) }

        // The device of a file that is open stays the same, unless the file is written anew, behind another preface.
        ensures opened { self.old.is_open ≡ true → self.new.front ≡ self.old.front
            → self.new.kept.opened ≡ self.old.kept.opened }

        // However many entries there are, the blocks are as long as this at most.
        ensures bounded { 0 < length entries.now
            → OnOk result (length self.new.written ≤ self.new.limit) }
        ensures limit { self.old.is_open ≡ true → OnOk result (IsNextLimit self.old.limit
            self.old.least (length self.new.written) self.new.limit) }
    {
        if !self.may_open(entries) {
            return Err(self.fault);
        }
        self.reopen()?;
        if entries.is_empty() {
            return Ok(());
        }
        let Ok(batch) = batch_of(
            self.alloc,
            &self.witness,
            &self.text.preface,
            &self.text.written,
            entries,
        ) else {
            return Err(StoreFault::Unknown);
        };
        if !self.may_take(&batch) {
            return Err(StoreFault::Moved);
        }
        self.append(entries, &batch)?;
        self.write_anew_if_long();
        Ok(())
    }
}

impl<M: Medium, W: Witness> Keep for JournalStore<M, W> {
    ghost use Rattle.std.specs.Prelude.{◌≡◌, ◌<◌, ◌≤◌, ◌++◌, List, true, Some, length, OnOk, OnErr};
    ghost use Rattle.journal_store.specs.Bound.{IsNextLimit};
    ghost use Rattle.desk_core.specs.declared.entry.Entry.{Entry as JournalEntry};
    ghost use Rattle.desk_core.specs.Left.{HasLeft, LeavesJournal};

    ghost kept = { Some 65536 };

    ghost stands = { λ store journal. store.kept.journal ≡ journal };

    ghost left = { λ store. store.kept.left };

    fn kept() -> Option<u32> {
        Some(65_536)
    }

    fn store(&mut self, entries: &[Entry]) -> Result<(), NotStored>
        ensures stored { (journal : List JournalEntry) → self.old.kept.journal ≡ journal
            → OnOk result (self.new.kept.journal ≡ journal ++ entries.now) }
        ensures durable { (journal : List JournalEntry) → self.old.kept.journal ≡ journal
            → OnOk result (LeavesJournal self.new.kept.left (journal ++ entries.now)) }
        ensures refused { (journal : List JournalEntry) → self.old.kept.journal ≡ journal
            → OnErr result (self.new.kept.journal ≡ journal) }
        ensures crash { (journal : List JournalEntry) → self.old.kept.journal ≡ journal
            → HasLeft self.old.kept.left self.new.kept.left journal (journal ++ entries.now) }

        // The device of a file that is open stays the same, unless the file is written anew, behind another preface.
        ensures opened { self.old.is_open ≡ true → self.new.front ≡ self.old.front
            → self.new.kept.opened ≡ self.old.kept.opened }

        // However many entries there are, the blocks are as long as this at most.
        ensures bounded { 0 < length entries.now
            → OnOk result (length self.new.written ≤ self.new.limit) }
        ensures limit { self.old.is_open ≡ true → OnOk result (IsNextLimit self.old.limit
            self.old.least (length self.new.written) self.new.limit) }
    {
        match self.keep(entries) {
            Ok(()) => {
                self.witness.stored();
                Ok(())
            }
            Err(fault) => {
                self.fault = fault;
                self.witness.not_stored(fault);
                Err(NotStored)
            }
        }
    }
}
