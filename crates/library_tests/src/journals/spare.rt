//! A journal's file in memory.

ghost use Rattle.std.specs.Prelude.{◌≡◌, ◌++◌, ◌∷◌, [], ℕ, List, IfOk};
ghost use Rattle.record_log.specs.Log.{IsReady, blocks};
ghost use Rattle.record_log.specs.MemoryView.{memory_bytes, memory_may_leave};

use chronicle::StoreFault;
use journal_store::Medium;
use record_log::{DeviceError, Memory, RecordLog};
use std::alloc::{AllocError, Global};
use std::process::Abort;

/// Whether a file is put in the place of another, or that fails, with the old file there or the new one.
#[derive(Clone, Copy)]
pub(crate) enum Replacing {
    Works,
    LeavesOld,
    LeavesNew,
}

/// A file, which each device that is opened anew has.
#[derive(Drop)]
pub(crate) struct Spare {
    alloc: Global,
    file: Vec<u8>,
    pub(crate) replacing: Replacing,
}

/// How many calls of a device opening an empty file takes.
pub(crate) const OPENING: usize = 3;

impl Spare {
    ghost use Rattle.std.specs.Prelude.{◌≡◌, ◌++◌, ◌∷◌, [], ℕ, List, IfOk, IsErr};
    ghost use Rattle.record_log.specs.Log.{IsReady, blocks};
    ghost use Rattle.record_log.specs.MemoryView.{memory_bytes, memory_may_leave};

    pub(crate) fn of(rt: &impl Abort, alloc: Global, file: &[u8]) -> Spare {
        Spare {
            alloc,
            file: file.to_vec(alloc).expect(rt, "memory"),
            replacing: Replacing::Works,
        }
    }

    /// A log of the file that is put in the place of the other, where that works.
    fn replaced(
        &mut self,
        old: RecordLog<Memory>,
        file: &[u8],
    ) -> Result<RecordLog<Memory>, DeviceError>
        requires whole { (records : List (List ℕ)) × (file.now ≡ blocks records ++ 0 ∷ []) }
        ensures ready { (records : List (List ℕ)) → file.now ≡ blocks records ++ 0 ∷ []
            → IfOk result (λ log. IsReady memory_bytes memory_may_leave log records) }
    {
        match self.replacing {
            Replacing::Works => log_over(self.alloc, file),
            Replacing::LeavesOld => self.failed(old.device.bytes()),
            Replacing::LeavesNew => self.failed(file),
        }
    }

    /// A file could not be put in its place, and this one is there.
    fn failed(&mut self, left: &[u8]) -> Result<RecordLog<Memory>, DeviceError>
        ensures { IsErr result }
    {
        self.file = left.to_vec(self.alloc)?;
        Err(DeviceError::Failed)
    }
}

impl Medium for Spare {
    ghost use Rattle.std.specs.Prelude.{◌≡◌, ◌++◌, ◌∷◌, [], ℕ, List, IfOk};
    ghost use Rattle.record_log.specs.Log.{IsReady, blocks};
    ghost use Rattle.record_log.specs.MemoryView.{memory_bytes, memory_may_leave};

    type Device = Memory;

    fn fault(&self, _device: &Memory) -> Option<StoreFault> {
        None
    }

    fn is_in_place(&self, _device: &Memory) -> bool {
        true
    }

    fn hold(&mut self, _device: Memory) {}

    fn reopen(&mut self) -> Result<Memory, StoreFault> {
        self.replacing = Replacing::Works;
        match device_of(self.alloc, &self.file) {
            Ok(device) => Ok(device),
            Err(_) => Err(StoreFault::Unknown),
        }
    }

    fn release(&mut self) {}

    fn replace(
        &mut self,
        old: RecordLog<Memory>,
        file: &[u8],
    ) -> Result<RecordLog<Memory>, StoreFault>
        requires whole { (records : List (List ℕ)) × (file.now ≡ blocks records ++ 0 ∷ []) }
        ensures ready { (records : List (List ℕ)) → file.now ≡ blocks records ++ 0 ∷ []
            → IfOk result (λ log. IsReady memory_bytes memory_may_leave log records) }
    {
        match self.replaced(old, file) {
            Ok(log) => Ok(log),
            Err(_) => Err(StoreFault::Unknown),
        }
    }
}

/// A device that has this file.
fn device_of(alloc: Global, file: &[u8]) -> Result<Memory, AllocError> {
    Memory::new(alloc, file.to_vec(alloc)?)
}

/// A log of a file in memory.
fn log_over(alloc: Global, file: &[u8]) -> Result<RecordLog<Memory>, DeviceError>
    ensures { (records : List (List ℕ)) → file.now ≡ blocks records ++ 0 ∷ []
        → IfOk result (λ log. IsReady memory_bytes memory_may_leave log records) }
{
    let mut log = RecordLog::new(Memory::new(alloc, file.to_vec(alloc)?)?);
    match log.open(alloc) {
        Ok(_) => Ok(log),
        Err(_) => Err(DeviceError::Failed),
    }
}
