//! Histories with no order.

ghost use Rattle.std.specs.Prelude.{◌≤◌, length};

use crate::names::catalogue;
use crate::same::holds;
use chronicle::{StoreFault, Who};
use desk_core::{Call, Desk, Entry};
use entry_record::Stored;
use journal_store::{Preface, Witness};
use probe_core::{Maker, Manual, Rule};
use std::alloc::{AllocError, Global};
use std::process::Abort;

/// Records of the changes of two slots.
static CHANGES: [&[u8]; 16] = [
    &[0, 0, 0, 0, 0, 0, 0, 0, 0, 0, 0, 0, 0, 0, 1], // register the first
    &[0, 0, 0, 0, 0, 0, 0, 0, 0, 0, 0, 0, 0, 0, 1],
    &[0, 0, 0, 0, 0, 0, 0, 0, 0, 0, 0, 0, 0, 1, 1], // the second
    &[0, 0, 0, 0, 0, 0, 0, 0, 0, 0, 0, 0, 0, 1, 1],
    &[0, 0, 0, 0, 0, 0, 0, 0, 0, 0, 0, 0, 1, 0], // retire
    &[0, 0, 0, 0, 0, 0, 0, 0, 0, 0, 0, 0, 1, 1],
    &[0, 0, 0, 0, 0, 0, 0, 0, 0, 0, 0, 0, 3, 0], // fail
    &[0, 0, 0, 0, 0, 0, 0, 0, 0, 0, 0, 0, 3, 1],
    &[0, 0, 0, 0, 0, 0, 0, 0, 0, 0, 0, 0, 4, 0], // up
    &[0, 0, 0, 0, 0, 0, 0, 0, 0, 0, 0, 0, 4, 1],
    &[0, 0, 0, 0, 0, 0, 0, 0, 0, 0, 0, 0, 5, 0], // down
    &[0, 0, 0, 0, 0, 0, 0, 0, 0, 0, 0, 0, 5, 1],
    &[0, 0, 0, 0, 0, 0, 0, 0, 0, 0, 0, 0, 6], // shutdown
    &[0, 0, 0, 0, 0, 0, 0, 0, 0, 0, 0, 0, 6],
    &[0, 0, 0, 0, 0, 0, 0, 0, 0, 0, 0, 0, 7], // resume
    &[0, 0, 0, 0, 0, 0, 0, 0, 0, 0, 0, 0, 7],
];

/// Numbers with no order, by Marsaglia's xorshift (2003).
#[derive(Drop)]
pub(crate) struct Random(pub u64);

impl Random {
    pub(crate) fn next(&mut self) -> u64 {
        self.0 ^= self.0 << 13;
        self.0 ^= self.0 >> 7;
        self.0 ^= self.0 << 17;
        self.0
    }

    fn call(&mut self, rt: &impl Abort) -> Call {
        let record = CHANGES[(self.next() % 16) as usize];
        Stored::read(record).expect(rt, "a change").entry.call
    }
}

impl Random {
    /// The bytes up to this place, and others after it.
    pub(crate) fn garbled(
        &mut self,
        rt: &impl Abort,
        alloc: Global,
        text: &[u8],
        cut: usize,
    ) -> Vec<u8>
        requires { cut ≤ length text.now }
    {
        let (front, back) = text.split_at(cut);
        let mut torn = front.to_vec(alloc).expect(rt, "memory");
        for _ in back {
            torn.push((self.next() % 256) as u8).expect(rt, "memory");
        }
        torn
    }
}

/// Makes manual probes.
pub(crate) struct Manuals;

impl Maker<Manual> for Manuals {
    fn make(&self, rule: Rule) -> Result<Manual, AllocError> {
        match rule {
            Rule::Manual => Ok(Manual::new()),
            Rule::Threshold(..) | Rule::Depends(_) => Err(AllocError),
        }
    }
}

fn change(rt: &impl Abort, desk: &mut Desk<Manual>, call: Call) {
    let probe = match call {
        Call::Register(_, rule) => Some(Manuals.make(rule).expect(rt, "memory")),
        _ => None,
    };
    holds(rt, desk.change(3, call, probe).is_ok(), "a change");
}

/// A desk with so many entries of the seat 3.
pub(crate) fn history(
    rt: &impl Abort,
    alloc: Global,
    random: &mut Random,
    count: usize,
) -> Desk<Manual> {
    let mut desk = Desk::new(alloc, 1_000);
    for _ in 0..count {
        change(rt, &mut desk, random.call(rt));
    }
    desk
}

/// At each seat is the session of its number, at as many tenths of a second.
#[derive(Drop)]
pub(crate) struct Sessions;

impl Witness for Sessions {
    fn witness(&self, seat: u16) -> (u64, Who) {
        (u64::from(seat) * 100_000, Who::Session(u32::from(seat)))
    }

    fn stored(&self) {}

    fn not_stored(&self, _fault: StoreFault) {}
}

/// These entries as a file has them.
pub(crate) fn stored_as(rt: &impl Abort, alloc: Global, entries: &[Entry]) -> Vec<Stored> {
    let mut stored = Vec::new(alloc);
    for entry in entries {
        let (micros, who) = Sessions.witness(entry.seat);
        let one = Stored {
            entry: *entry,
            micros,
            who,
        };
        stored.push(one).expect(rt, "memory");
    }
    stored
}

/// A preface of the empty name alone.
pub(crate) fn preface(rt: &impl Abort, alloc: Global) -> Preface {
    let catalogue = catalogue(rt, alloc, &[""]);
    Preface::new(alloc, &catalogue).expect(rt, "memory")
}
