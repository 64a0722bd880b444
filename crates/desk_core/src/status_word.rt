ghost use Rattle.std.specs.Prelude.{◌≡◌, ◌<◌, ◌≤◌};
ghost use Rattle.desk_core.specs.Board.{code_of, status_of_code};

use crate::slot::Slot;
use health_wire::Serving;
use std::marker::Model;

/// The statuses of all slots in one word, two bits each, the first slot lowest.
#[derive(Clone, Copy, PartialEq, Eq)]
pub(crate) struct StatusWord {
    word: u32,
}

impl Model for StatusWord {
    ghost use Rattle.std.specs.Prelude.{ℕ};

    ghost Value = { ℕ };

    ghost view = { λ statuses. statuses.word };

    ghost inverse = { λ n. record { word = n } };
}

impl StatusWord {
    ghost use Rattle.std.specs.Prelude.{◌≡◌, ◌<◌, ◌%◌, ◌^◌};
    ghost use Rattle.desk_core.specs.Board.{packed, status_in};
    ghost use Rattle.desk_core.specs.Slots.{with_status};

    /// No slot has a status.
    pub(crate) fn none() -> StatusWord
        ensures { result ≡ 0 }
    {
        StatusWord { word: 0 }
    }

    /// The statuses in the lower half of a board.
    pub(crate) fn on_board(word: u64) -> StatusWord
        ensures { result ≡ word % 2 ^ 32 }
    {
        StatusWord {
            word: (word % (1 << 32)) as u32,
        }
    }

    pub(crate) fn word(self) -> u32
        ensures value { result ≡ self }
        ensures range { result < 2 ^ 32 }
    {
        self.word
    }

    pub(crate) fn get(self, slot: Slot) -> Option<Serving>
        ensures { result ≡ status_in self slot }
    {
        status_of_code((self.word >> (2 * slot.number())) % 4)
    }

    pub(crate) fn set(&mut self, slot: Slot, status: Option<Serving>)
        ensures { self.new ≡ packed (with_status (status_in self.old) slot status) 16 }
    {
        let weight = 1u32 << (2 * slot.number());
        let old = self.word / weight % 4;
        self.word = self.word - old * weight + code(status) * weight;
    }
}

/// A slot never has SERVICE_UNKNOWN, so that needs no code.
fn code(status: Option<Serving>) -> u32
    ensures value { result ≡ code_of status }
    ensures small { result ≤ 3 }
{
    match status {
        None | Some(Serving::ServiceUnknown) => 0,
        Some(Serving::Serving) => 1,
        Some(Serving::NotServing) => 2,
        Some(Serving::Unknown) => 3,
    }
}

pub(crate) fn status_of_code(code: u32) -> Option<Serving>
    requires { code < 4 }
    ensures { result ≡ status_of_code code }
{
    match code {
        0 => None,
        1 => Some(Serving::Serving),
        2 => Some(Serving::NotServing),
        _ => Some(Serving::Unknown),
    }
}
