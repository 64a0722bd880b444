//! Writes to a device that a crash at any moment tears in known ways alone.

ghost use Rattle.std.specs.Prelude.{◌+◌, ◌-◌, ◌<◌, ◌≤◌, length, OnOk};
ghost use Rattle.record_log.specs.Device.{IsDurable, IsWritten, IsTorn, LeavesOnly, IsCounted};
ghost use Rattle.record_log.specs.Gate.{IsTornBehind};

use crate::{Device, DeviceError};

/// Writes these bytes at this place, and returns once they are on the disk.
pub(crate) fn write_synced<D: Device>(
    device: &mut D,
    at: usize,
    bytes: &[u8],
) -> Result<(), DeviceError>
    requires place { at ≤ length (D.contents device.old) }
    requires durable { IsDurable (D.contents device.old) (D.may_leave device.old) }
    ensures written { OnOk result (IsWritten (D.contents device.old) at bytes.now
        (D.contents device.new)) }
    ensures durable { OnOk result (IsDurable (D.contents device.new) (D.may_leave device.new)) }
    ensures any_moment { LeavesOnly D.moment D.left_since device.old device.new
        (IsTorn at (length bytes.now) (D.contents device.old)) }
    ensures counted { IsCounted (D.failures device.old) (D.failures device.new) result }
{
    device.write_at(at, bytes)?;
    device.sync()
}

/// Writes a text over the gate at this place: first what is behind its first byte, and the first
/// byte once that is on the disk.
pub(crate) fn write_gated<D: Device>(
    device: &mut D,
    at: usize,
    text: &[u8],
) -> Result<(), DeviceError>
    requires some { 0 < length text.now }
    requires gate { at < length (D.contents device.old) }
    requires durable { IsDurable (D.contents device.old) (D.may_leave device.old) }
    ensures written { OnOk result (IsWritten (D.contents device.old) at text.now
        (D.contents device.new)) }
    ensures durable { OnOk result (IsDurable (D.contents device.new) (D.may_leave device.new)) }
    ensures any_moment { LeavesOnly D.moment D.left_since device.old device.new
        (IsTornBehind (D.contents device.old) at text.now) }
    ensures counted { IsCounted (D.failures device.old) (D.failures device.new) result }
{
    let (gate, behind) = text.split_at(1);
    write_synced(device, at + 1, behind)?;
    write_synced(device, at, gate)
}
