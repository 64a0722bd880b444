use crate::words::status_of;
use desk_core::{Change, Slot, board_status};
use health_wire::Serving;
use log_lines::Status;

/// What each slot's watchers are shown.
#[derive(Clone, Copy)]
pub(crate) struct Shown {
    statuses: [Status; 16],
}

impl Shown {
    /// Nothing is registered.
    pub(crate) fn new() -> Shown {
        Shown {
            statuses: [Status::Absent; 16],
        }
    }

    /// Takes a change over, and tells the status before it.
    pub(crate) fn change(&mut self, change: &Change) -> Status {
        let index = usize::from(change.slot.number());
        let old = self.statuses[index];
        self.statuses[index] = status_of(change.status);
        old
    }

    /// Takes over what a board has.
    pub(crate) fn take_over(&mut self, board: u64) {
        for number in 0..Slot::COUNT {
            let slot = Slot::new(number).unwrap();
            let shown = board_status(board, slot).unwrap_or(Serving::ServiceUnknown);
            self.statuses[usize::from(number)] = status_of(shown);
        }
    }
}
