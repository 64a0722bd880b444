//! A Watch through the door of a seat, while another seat changes what it watches.

ghost use Rattle.std.specs.Prelude.{◌<◌};
ghost use Rattle.hall.specs.Seats.{IsOf};

use crate::calls::texts::WATCH_OF_FALL;
use crate::halls::guests::{Act, DONE, Row, two_seats, wrong_of};
use crate::same::same;
use crew::HallDoor;
use desk_core::Setting;
use hall::{Hall, Seat};
use probe_core::Manual;
use std::alloc::Global;
use std::process::Abort;
use std::sync::Wait;
use test_support::requests::WATCH_OF_A;
use web_call::{Bell, Door, ExchangeFault, Limits, Outcome, Tap, Turn, exchange};

/// A bell that sets `a` Down by its seat and then gives a Look, once.
#[derive(Drop)]
struct Setter<'a, R: Wait> {
    rt: &'a R,
    hall: &'a Hall<Manual>,
    seat: &'a mut Seat<Manual>,
    looks: u64,
    is_over: bool,
    ghost fits: { IsOf hall.now seat.now },
    ghost few: { looks < 2 },
}

impl<R: Wait> Bell for Setter<'_, R> {
    ghost given = { λ bell. bell.looks };

    ghost is_over = { λ bell. bell.is_over };

    fn wait(&mut self) -> Turn {
        if self.is_over || self.looks == 1 {
            self.is_over = true;
            return Turn::End;
        }
        let _ = self.hall.set(self.rt, self.seat, "a", Setting::Down);
        self.looks = 1;
        Turn::Look
    }
}

fn watch_through<D: Door + Drop, B: Bell + Drop>(
    alloc: Global,
    written: &mut Vec<u8>,
    mut door: D,
    mut bell: B,
) -> Result<Outcome, ExchangeFault> {
    let mut reader = Tap::new(WATCH_OF_A);
    let mut writer = Tap::new(written);
    let limits = Limits { looks: 10 };
    exchange(
        alloc,
        &mut reader,
        &mut writer,
        &mut door,
        &mut bell,
        limits,
    )
}

/// Answers a Watch by the seat that looks, with a bell of the one that sets.
fn watch_beside<R: Wait>(
    rt: &R,
    alloc: Global,
    hall: &Hall<Manual>,
    setting: &mut Seat<Manual>,
    looking: &mut Seat<Manual>,
    written: &mut Vec<u8>,
) -> Result<Outcome, ExchangeFault>
    requires setting { IsOf hall.now setting.old }
    requires looking { IsOf hall.now looking.old }
{
    let door = HallDoor::new(rt, hall, looking);
    let bell = Setter {
        rt,
        hall,
        seat: setting,
        looks: 0,
        is_over: false,
    };
    watch_through(alloc, written, door, bell)
}

static REGISTERED: [Row; 1] = [(Act::Register("a"), DONE)];

fn watch_another_seat<R: Wait + Abort>(
    rt: &R,
    alloc: Global,
    written: &mut Vec<u8>,
) -> Result<Outcome, ExchangeFault> {
    let probes = Vec::from_array(alloc, [Manual::new()]).expect(rt, "memory");
    let probes = (probes, Vec::new(alloc));
    let (hall, mut setting, mut looking) = two_seats(rt, alloc, 100, probes, None);
    let wrong = wrong_of(rt, &hall, &mut setting, &REGISTERED);
    same(rt, &wrong, &None, &"a service");
    watch_beside(
        rt,
        alloc,
        &hall,
        &mut setting.seat,
        &mut looking.seat,
        written,
    )
}

/// The seat that looks has met nobody, so that what it tells comes from the hall alone.
#[test]
fn a_door_tells_what_another_seat_sets(rt: HostRuntime) {
    let alloc = rt.alloc();
    let mut written = Vec::new(alloc);
    let outcome = watch_another_seat(&rt, alloc, &mut written);
    let expected = (Ok(Outcome::Watched { messages: 2 }), WATCH_OF_FALL);
    same(&rt, &(outcome, written.as_slice()), &expected, &"a Watch");
}
