//! A device in memory that tears. It keeps all that it was, so that a crash can be looked at.

ghost use Rattle.std.specs.Prelude.{◌≡◌, ◌+◌, ◌≤◌, [], None, Some, length, IfOk, IsErrOf};
ghost use Rattle.record_log.specs.Device.{IsWritten};
ghost use Rattle.record_log.specs.Crashes.{MayLeave, LeftSince, contents_of, counts_now, only_now};
ghost use Rattle.record_log.specs.Memory.{states_of, bounded};
ghost use Rattle.record_log.specs.declared.device.DeviceError.TheVariants.{Failed};

use crate::device::failed;
use crate::was::Was;
use crate::{Device, DeviceError};
use std::alloc::{AllocError, Global};

/// Until a sync, a crash leaves each write as the rule of torn writes allows.
#[derive(Drop)]
pub struct Memory {
    alloc: Global,
    states: Vec<Was>,
    allowed: usize,
    failures: usize,
}

impl Memory {
    ghost use Rattle.record_log.specs.MemoryView.{memory_bytes, memory_may_leave};

    /// A device with these bytes on the disk.
    pub fn new(alloc: Global, bytes: Vec<u8>) -> Result<Self, AllocError>
        ensures { IfOk result (λ device. memory_bytes device ≡ bytes.items) }
    {
        let mut states = Vec::new(alloc);
        states.insert(0, Was { bytes, write: None })?;
        Ok(Memory {
            alloc,
            states,
            allowed: usize::MAX,
            failures: 0,
        })
    }

    /// From now on so many writes and syncs succeed. The one behind them fails, and so do all later
    /// ones. A write that fails may have been made in part.
    pub fn stop_after(&mut self, calls: usize)
        ensures { memory_bytes self.new ≡ memory_bytes self.old }
    {
        self.allowed = calls;
    }

    /// The bytes that a read gives.
    pub fn bytes(&self) -> &[u8]
        ensures { result.now ≡ memory_bytes self.now }
    {
        newest(&self.states)
    }

    /// The bytes of the newest write, if no sync came after it.
    pub fn unsynced(&self) -> &[u8] {
        let Some(was) = self.states.first() else {
            return &[];
        };
        let Some((at, len)) = was.write else {
            return &[];
        };
        let behind = was.bytes.get(at..).unwrap_or(&[]);
        behind.get(..len).unwrap_or(&[])
    }

    /// What a crash leaves if it leaves these bytes at the place of the newest write, and none past
    /// its length.
    pub fn crashed(&self, torn: &[u8]) -> Result<Vec<u8>, AllocError>
        ensures { IfOk result (λ left. memory_may_leave self.now left.items) }
    {
        let Some((was, past)) = self.states.split_first() else {
            return Ok(Vec::new(self.alloc));
        };
        let Some((at, len)) = was.write else {
            return was.bytes.to_vec(self.alloc);
        };
        let before = newest(past);
        if at > before.len() {
            return was.bytes.to_vec(self.alloc);
        }
        let left = overwritten(self.alloc, before, at, &torn[..torn.len().min(len)])?;
        Ok(left)
    }
}

/// The newest bytes.
fn newest(states: &[Was]) -> &[u8]
    ensures { result.now ≡ contents_of (states_of states.now) }
{
    match states.first() {
        Some(was) => &was.bytes,
        None => &[],
    }
}

/// These bytes with others at this place.
fn overwritten(alloc: Global, old: &[u8], at: usize, bytes: &[u8]) -> Result<Vec<u8>, AllocError>
    requires { at ≤ length old.now }
    ensures { IfOk result (λ new. IsWritten old.now at bytes.now new.items) }
{
    let mut new = old[..at].to_vec(alloc)?;
    new.extend_from_slice(bytes)?;
    if bytes.len() < old.len() - at {
        new.extend_from_slice(&old[at + bytes.len()..])?;
    }
    Ok(new)
}

/// Counts a call, which may be one too many.
fn count(allowed: &mut usize, failures: &mut usize) -> Result<(), DeviceError>
    ensures later { failures.old ≤ failures.new }
    ensures failed { IsErrOf result Failed → failures.old + 1 ≤ failures.new }
{
    if let Some(rest) = allowed.checked_sub(1) {
        *allowed = rest;
        return Ok(());
    }
    Err(failed(failures))
}

impl Device for Memory {
    ghost contents = { λ m. contents_of (states_of m.states.items) };

    ghost may_leave = { λ m. MayLeave (states_of m.states.items) };

    ghost moment = { λ m. length (states_of m.states.items) };

    ghost left_since = { λ m. LeftSince (states_of m.states.items) };

    ghost failures = { λ m. m.failures };

    ghost bounded = { λ m. bounded m.states.items };

    ghost counts_now = { λ m. counts_now (states_of m.states.items) };

    ghost only_now = { λ m. only_now (states_of m.states.items) };

    fn read(&mut self, alloc: Global) -> Result<Vec<u8>, DeviceError> {
        Ok(self.bytes().to_vec(alloc)?)
    }

    fn write_at(&mut self, at: usize, bytes: &[u8]) -> Result<(), DeviceError> {
        let next = Was {
            bytes: overwritten(self.alloc, self.bytes(), at, bytes)?,
            write: Some((at, bytes.len())),
        };
        self.states.insert(0, next)?;
        count(&mut self.allowed, &mut self.failures)
    }

    fn sync(&mut self) -> Result<(), DeviceError> {
        count(&mut self.allowed, &mut self.failures)?;
        let next = Was {
            bytes: self.bytes().to_vec(self.alloc)?,
            write: None,
        };
        self.states.insert(0, next)?;
        Ok(())
    }
}
