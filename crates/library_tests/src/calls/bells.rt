ghost use Rattle.std.specs.Prelude.{◌+◌, ◌^◌, ◌<◌, length};

use web_call::{Bell, Turn};

/// A bell that gives the turns of a list. It is over once it was asked for more than there are, or an End came.
#[derive(Drop)]
pub(crate) struct Turns<'a> {
    left: &'a [Turn],
    /// How many Looks it gave.
    pub(crate) looks: u64,
    /// How often it was asked.
    pub(crate) waits: u32,
    is_over: bool,
    ghost fits: { looks + length left.now < 2 ^ 64 },
}

impl<'a> Turns<'a> {
    pub(crate) fn new(turns: &'a [Turn]) -> Turns<'a> {
        Turns {
            left: turns,
            looks: 0,
            waits: 0,
            is_over: false,
        }
    }
}

impl Bell for Turns<'_> {
    ghost given = { λ bell. bell.looks };

    ghost is_over = { λ bell. bell.is_over };

    fn wait(&mut self) -> Turn {
        self.waits = self.waits.saturating_add(1);
        match self.left {
            [Turn::Look, rest @ ..] if !self.is_over => {
                self.left = rest;
                self.looks += 1;
                Turn::Look
            }
            _ => {
                self.is_over = true;
                Turn::End
            }
        }
    }
}
