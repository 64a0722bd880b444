//! What the log is written to: what a read gives, and what a crash may leave.

ghost use Rattle.std.specs.Prelude.{◌≡◌, ◌<◌, ◌≤◌, ◌^◌, List, ℕ, length, IfOk, OnOk};
ghost use Rattle.record_log.specs.declared.device.DeviceError.TheVariants.{Memory, Failed};
ghost use Rattle.record_log.specs.Device.{IsDurable, Follows, IsTorn, IsWritten, Elapses, IsCounted};

use std::alloc::{AllocError, AllocFailed, Global};
use std::fmt;

#[derive(Clone, Copy, Debug)]
pub enum DeviceError {
    Memory,
    Failed,
}

impl From<AllocError> for DeviceError {
    ghost from_gives = { λ _ e. e ≡ Memory };

    fn from(_: AllocError) -> Self {
        DeviceError::Memory
    }
}

impl<T: Drop> From<AllocFailed<T>> for DeviceError {
    ghost from_gives = { λ _ e. e ≡ Memory };

    fn from(_: AllocFailed<T>) -> Self {
        DeviceError::Memory
    }
}

impl fmt::Display for DeviceError {
    fn fmt<W: fmt::Write>(&self, f: &mut fmt::Formatter<W>) -> fmt::Result {
        match self {
            DeviceError::Memory => f.write_str("out of memory"),
            DeviceError::Failed => f.write_str("the device failed"),
        }
    }
}

/// The error of a failure that is counted.
pub(crate) fn failed(failures: &mut usize) -> DeviceError
    ensures later { failures.old ≤ failures.new }
    ensures counted { result ≡ Failed → failures.old < failures.new }
{
    let Some(more) = failures.checked_add(1) else {
        return DeviceError::Memory;
    };
    *failures = more;
    DeviceError::Failed
}

/// One file's bytes. Each ghost fact is what the log supposes of it, and all that it supposes.
pub trait Device: Drop {
    /// The bytes that a read gives.
    ghost contents: { Self → List ℕ };

    /// What a crash at this moment may leave.
    ghost may_leave: { Self → List ℕ → Type 0 };

    /// The moment, as a number that does not fall.
    ghost moment: { Self → ℕ };

    /// What a crash might have left since an earlier moment, within a call or between two.
    ghost left_since: { Self → ℕ → List ℕ → Type 0 };

    /// How often the device has failed.
    ghost failures: { Self → ℕ };

    /// All the bytes.
    fn read(&mut self, alloc: Global) -> Result<Vec<u8>, DeviceError>
        ensures bytes { IfOk result (λ bytes. bytes.items ≡ contents self.old) }
        ensures contents { contents self.new ≡ contents self.old }
        ensures crash { (c : List ℕ) → may_leave self.new c → may_leave self.old c }
        ensures time { Elapses (moment self.old) (moment self.new)
            (left_since self.old) (left_since self.new) (may_leave self.new) }
        ensures counted { IsCounted (failures self.old) (failures self.new) result };

    /// Writes over what is there and past its end. Until the next sync a crash may tear it.
    fn write_at(&mut self, at: usize, bytes: &[u8]) -> Result<(), DeviceError>
        requires { at ≤ length (contents self.old) }
        ensures written { OnOk result (IsWritten (contents self.old) at bytes.now
            (contents self.new)) }
        ensures crash { Follows (IsTorn at (length bytes.now)) (may_leave self.old)
            (may_leave self.new) }
        ensures time { Elapses (moment self.old) (moment self.new)
            (left_since self.old) (left_since self.new) (may_leave self.new) }
        ensures counted { IsCounted (failures self.old) (failures self.new) result };

    /// Returns once a crash leaves all that was written.
    fn sync(&mut self) -> Result<(), DeviceError>
        ensures durable { OnOk result (IsDurable (contents self.old) (may_leave self.new)) }
        ensures contents { contents self.new ≡ contents self.old }
        ensures crash { (c : List ℕ) → may_leave self.new c → may_leave self.old c }
        ensures time { Elapses (moment self.old) (moment self.new)
            (left_since self.old) (left_since self.new) (may_leave self.new) }
        ensures counted { IsCounted (failures self.old) (failures self.new) result };

    /// Bytes have an offset below 2^63, as POSIX's `off_t` has.
    ghost bounded: { (device : Self) → length (contents device) < 2 ^ 63 };

    /// This moment is one of those since an earlier one.
    ghost counts_now: { (device : Self) (t : ℕ) (c : List ℕ)
        → t ≤ moment device → may_leave device c → left_since device t c };

    /// Since this moment there is no other.
    ghost only_now: { (device : Self) (c : List ℕ)
        → left_since device (moment device) c → may_leave device c };
}
