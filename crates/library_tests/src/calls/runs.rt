use crate::calls::bells::Turns;
use crate::calls::doors::Flipping;
use std::alloc::Global;
use std::io::{Read, Write};
use web_call::{ExchangeFault, Limits, Outcome, Tap, Turn, exchange};

/// How often the door was asked, how often the bell, and how many Looks the bell gave.
pub(crate) type Asked = (u32, u32, u64);

/// How an exchange went: its end, who was asked, and whether a write or a flush has failed.
pub(crate) type Run = (Result<Outcome, ExchangeFault>, Asked, bool);

/// Makes one exchange through new taps, with a bell of these turns.
pub(crate) fn exchange_over<R: Read, W: Write>(
    alloc: Global,
    reader: &mut R,
    writer: &mut W,
    door: &mut Flipping<'_>,
    turns: &[Turn],
    looks: u32,
) -> Run {
    let mut reader = Tap::new(reader);
    let mut writer = Tap::new(writer);
    let mut bell = Turns::new(turns);
    let limits = Limits { looks };
    let result = exchange(alloc, &mut reader, &mut writer, door, &mut bell, limits);
    let asked = (door.asked, bell.waits, bell.looks);
    (result, asked, writer.failed())
}
