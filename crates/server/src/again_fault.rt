use std::alloc::{AllocError, AllocFailed};

/// Why a hall was not set up by the entries of an earlier run.
#[derive(Clone, Copy, Drop)]
pub enum AgainFault {
    Memory,
    /// The entry of this number, counted from 0, is none that a registry makes behind those before it.
    Illegal(usize),
}

impl From<AllocError> for AgainFault {
    fn from(_: AllocError) -> Self {
        AgainFault::Memory
    }
}

impl<T: Drop> From<AllocFailed<T>> for AgainFault {
    fn from(_: AllocFailed<T>) -> Self {
        AgainFault::Memory
    }
}
