ghost use Rattle.std.specs.Prelude.{◌≡◌, ◌<◌, ◌++◌, List, ℕ, All, length, IfOk, OnOk, IsErrOf};
ghost use Rattle.record_log.specs.Device.{LeavesOnly, IsCounted};
ghost use Rattle.record_log.specs.Log.{StandsFor, IsDamagedAt, IsReady, IsAsBefore, IsBeforeOrAfter, blocks, texts};
ghost use Rattle.record_log.specs.declared.open_error.OpenError.TheVariants.{Failed, Damaged};

use crate::block::{CLOSED, blocks_of};
use crate::writing::{write_gated, write_synced};
use crate::{Device, DeviceError, OpenError, read_entries};
use std::alloc::Global;

/// Entries on a device, and the place of the gate behind the last of them.
#[derive(Drop)]
pub struct RecordLog<D: Device> {
    pub device: D,
    pub end: usize,
}

impl<D: Device> RecordLog<D> {
    /// A log that is still to be opened.
    pub fn new(device: D) -> Self
        ensures { result.device ≡ device }
    {
        RecordLog { device, end: 0 }
    }

    /// Reads the entries that the device has, and gets the log ready for more.
    pub fn open(&mut self, alloc: Global) -> Result<Vec<Vec<u8>>, OpenError>
        ensures stands { IfOk result (λ found. StandsFor (D.contents self.old.device)
            (texts found.items)) }
        ensures ready { IfOk result (λ found. IsReady D.contents D.may_leave self.new
            (texts found.items)) }

        // A crash within the call leaves what one before it might have left, or again no entries.
        ensures any_moment { LeavesOnly D.moment D.left_since self.old.device self.new.device
            (IsAsBefore (D.may_leave self.old.device) (D.contents self.old.device)) }
        ensures damaged { (at : ℕ) → IsErrOf result (Damaged at)
            → IsDamagedAt (D.contents self.old.device) at }
        ensures kept { (at : ℕ) → IsErrOf result (Damaged at)
            → D.contents self.new.device ≡ D.contents self.old.device }
        ensures failed { IsErrOf result Failed
            → D.failures self.old.device < D.failures self.new.device }
    {
        self.device.sync()?;
        let bytes = self.device.read(alloc)?;
        let (entries, end) = read_entries(alloc, &bytes)?;
        if bytes.len() < 2 {
            write_synced(&mut self.device, 0, &[CLOSED])?;
        }
        self.end = end;
        Ok(entries)
    }

    /// Adds entries. At `Ok` they are acknowledged: each crash from then on leaves a file that has
    /// them. After an `Err` the log is to be opened again.
    pub fn append(&mut self, alloc: Global, batch: &[Vec<u8>]) -> Result<(), DeviceError>
        requires ready { (entries : List (List ℕ))
            × IsReady D.contents D.may_leave self.old entries }
        requires some { 0 < length batch.now }
        requires short { All (λ entry. length entry.items < 256) batch.now }

        ensures acknowledged { OnOk result ((entries : List (List ℕ))
            → IsReady D.contents D.may_leave self.old entries
            → IsReady D.contents D.may_leave self.new (entries ++ texts batch.now)) }

        // A crash within the call leaves all of the batch or nothing of it.
        ensures any_moment { (entries : List (List ℕ))
            → IsReady D.contents D.may_leave self.old entries
            → LeavesOnly D.moment D.left_since self.old.device self.new.device
            (IsBeforeOrAfter entries (texts batch.now)) }
        ensures failed { IsCounted (D.failures self.old.device) (D.failures self.new.device)
            result }
    {
        let text = blocks_of(alloc, batch)?;
        write_gated(&mut self.device, self.end, &text)?;
        self.end += text.len() - 1;
        Ok(())
    }

    /// Takes back the entries behind this place, at which the first of them begins. After an `Err`
    /// the log is to be opened again.
    pub fn take_back(&mut self, end: usize) -> Result<(), DeviceError>
        requires ready { (entries more : List (List ℕ)) × (end ≡ length (blocks entries))
            × IsReady D.contents D.may_leave self.old (entries ++ more) }

        ensures taken_back { OnOk result ((entries more : List (List ℕ))
            → end ≡ length (blocks entries)
            → IsReady D.contents D.may_leave self.old (entries ++ more)
            → IsReady D.contents D.may_leave self.new entries) }

        // A crash within the call leaves all of the entries behind the place or none of them.
        ensures any_moment { (entries more : List (List ℕ)) → end ≡ length (blocks entries)
            → IsReady D.contents D.may_leave self.old (entries ++ more)
            → LeavesOnly D.moment D.left_since self.old.device self.new.device
            (IsBeforeOrAfter entries more) }
        ensures failed { IsCounted (D.failures self.old.device) (D.failures self.new.device)
            result }
    {
        if end < self.end {
            write_synced(&mut self.device, end, &[CLOSED])?;
        }
        self.end = end;
        Ok(())
    }
}
