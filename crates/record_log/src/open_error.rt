ghost use Rattle.std.specs.Prelude.{◌≡◌};
ghost use Rattle.record_log.specs.OpenError.{of_device, of_reading};

use crate::{DeviceError, ReadError};
use std::fmt;

#[derive(Clone, Copy, Debug, PartialEq, Eq)]
pub enum OpenError {
    Memory,
    Failed,
    /// From this byte on, no crash leaves what is there.
    Damaged(usize),
}

impl From<DeviceError> for OpenError {
    ghost from_gives = { λ error e. e ≡ of_device error };

    fn from(error: DeviceError) -> Self {
        match error {
            DeviceError::Memory => OpenError::Memory,
            DeviceError::Failed => OpenError::Failed,
        }
    }
}

impl From<ReadError> for OpenError {
    ghost from_gives = { λ error e. e ≡ of_reading error };

    fn from(error: ReadError) -> Self {
        match error {
            ReadError::Memory => OpenError::Memory,
            ReadError::Damaged(at) => OpenError::Damaged(at),
        }
    }
}

impl fmt::Display for OpenError {
    fn fmt<W: fmt::Write>(&self, f: &mut fmt::Formatter<W>) -> fmt::Result {
        match self {
            OpenError::Memory => f.write_str("out of memory"),
            OpenError::Failed => f.write_str("the device failed"),
            OpenError::Damaged(at) => write!(f, "damaged at byte {at}"),
        }
    }
}
