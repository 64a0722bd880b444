/// Why the file of a journal did not take a change.
#[derive(Clone, Copy, Debug, PartialEq, Eq)]
pub enum StoreFault {
    /// No cause is known, as where memory ran out.
    Unknown,
    /// Another file is at the journal's path, or none.
    Moved,
    /// The error of the system with this number.
    System(u32),
}

/// The word that stands for a store that was not refused.
pub(crate) const STORED: u64 = 0;

/// The fault that a word stands for, unless it stands for none.
pub(crate) fn fault_in(word: u64) -> Option<StoreFault> {
    match word {
        STORED => None,
        1 => Some(StoreFault::Unknown),
        2 => Some(StoreFault::Moved),
        _ => Some(StoreFault::System(u32::try_from(word - 3).unwrap_or(u32::MAX))),
    }
}

/// The word that stands for a fault.
pub(crate) fn word_of(fault: StoreFault) -> u64 {
    match fault {
        StoreFault::Unknown => 1,
        StoreFault::Moved => 2,
        StoreFault::System(number) => u64::from(number) + 3,
    }
}
