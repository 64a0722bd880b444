ghost use Rattle.std.specs.Prelude.{◌≡◌, ◌<◌, ◌↔◌, ℕ, IsSome, IfSome};

use std::marker::Model;

/// A place in the catalogue, from 0 to 15.
#[derive(Clone, Copy, Debug, PartialEq, Eq)]
pub struct Slot {
    number: u8,
}

impl Model for Slot {
    ghost Value = { ℕ };

    ghost view = { λ slot. slot.number };

    ghost invariant = { λ slot. slot.number < 16 };

    ghost inverse = { λ n. record { number = n } };
}

impl Slot {
    /// How many slots there are.
    pub const COUNT: u8 = 16;

    pub fn new(number: u8) -> Option<Slot>
        ensures some { IsSome result ↔ (number < 16) }
        ensures value { IfSome result (λ slot. slot ≡ number) }
    {
        if number < Slot::COUNT {
            Some(Slot { number })
        } else {
            None
        }
    }

    pub(crate) fn at(number: u8) -> Slot
        requires { number < 16 }
        ensures { result ≡ number }
    {
        Slot { number }
    }

    pub fn number(self) -> u8
        ensures value { result ≡ self }
        ensures range { result < 16 }
    {
        self.number
    }
}
