//! Doors that tell Watches from a copy of the status changes.

ghost use Rattle.std.specs.Prelude.{◌<◌, length};
ghost use Rattle.hall.specs.Seats.{IsOf};

use crate::keeping::KeepFour;
use crate::names::catalogue;
use crate::same::same;
use crew::{CopyingDoor, HallDoor};
use desk_core::{Behind, Setting, Transcript, Watch};
use hall::{Hall, Seat};
use health_wire::Serving;
use probe_core::Manual;
use std::alloc::{AllocError, Global};
use std::process::Abort;
use std::sync::Wait;
use test_support::Scarcity;
use web_call::Door;

/// What another seat does, or what is asked of a door, with what it has to tell.
#[derive(Clone, Copy)]
enum Act {
    Set(Setting),
    Renew,
    /// From now on this Watch is stepped.
    Open(Serving),
    Step(Told),
}

/// What a step tells.
type Told = Result<Option<Serving>, Behind>;

const DOWN: Act = Act::Set(Setting::Down);

const UP: Act = Act::Set(Setting::Up);

const TELLS_DOWN: Act = Act::Step(Ok(Some(Serving::NotServing)));

const TELLS_UP: Act = Act::Step(Ok(Some(Serving::Serving)));

const TELLS_NONE: Act = Act::Step(Ok(None));

const BEHIND: Act = Act::Step(Err(Behind));

/// Steps in a row look once, until the door is renewed, or asked for something else. The hall and the copy keep four changes: the copy
/// stays a copy where it has begun anew, and where it drops what it is full of. At the end all is as at the beginning.
static LOOKS: [Act; 24] = [
    DOWN,
    Act::Renew,
    TELLS_DOWN,
    UP,
    TELLS_NONE,
    Act::Renew,
    TELLS_UP,
    TELLS_NONE,
    DOWN,
    UP,
    Act::Renew,
    TELLS_DOWN,
    TELLS_UP,
    TELLS_NONE,
    DOWN,
    UP,
    DOWN,
    UP,
    DOWN,
    Act::Renew,
    BEHIND,
    Act::Open(Serving::NotServing),
    UP,
    TELLS_UP,
];

/// How many acts there are, those of the table again and again.
const COUNT: usize = 960;

/// A hall with two seats.
fn two_seats(
    rt: &impl Abort,
    alloc: Global,
) -> (
    Hall<Manual, KeepFour>,
    Seat<Manual, KeepFour>,
    Seat<Manual, KeepFour>,
)
    ensures first { IsOf result.0 result.1 }
    ensures second { IsOf result.0 result.2 }
{
    let names = catalogue(rt, alloc, &["a", ""]);
    let (hall, mut seats) = Hall::new(alloc, names, 1_000, 2).expect(rt, "a hall");
    let second = seats.pop().unwrap();
    let first = seats.pop().unwrap();
    (hall, first, second)
}

/// Sets `a` by this seat, and tells whether that was done.
fn set<R: Wait>(
    rt: &R,
    hall: &Hall<Manual, KeepFour>,
    setter: &mut Seat<Manual, KeepFour>,
    setting: Setting,
) -> bool
    requires { IsOf hall.now setter.old }
    ensures { IsOf hall.now setter.new }
{
    hall.set(rt, setter, "a", setting).is_ok()
}

fn goes_so<R: Wait>(
    rt: &R,
    hall: &Hall<Manual, KeepFour>,
    setter: &mut Seat<Manual, KeepFour>,
    door: &mut CopyingDoor<'_, R, Manual, KeepFour>,
    watch: &mut Watch,
    act: Act,
) -> bool
    requires { IsOf hall.now setter.old }
    ensures { IsOf hall.now setter.new }
{
    match act {
        Act::Set(setting) => set(rt, hall, setter, setting),
        Act::Renew => {
            door.renew();
            true
        }
        Act::Open(status) => {
            let (opened, opening) = door.open("a");
            *watch = opened;
            opening == status
        }
        Act::Step(told) => door.step(watch) == told,
    }
}

/// Goes through the acts, up to one that goes otherwise.
fn first_wrong<R: Wait>(
    rt: &R,
    hall: &Hall<Manual, KeepFour>,
    setter: &mut Seat<Manual, KeepFour>,
    door: &mut CopyingDoor<'_, R, Manual, KeepFour>,
    acts: &[Act],
) -> Option<usize>
    requires ours { IsOf hall.now setter.old }
    requires some { 0 < length acts.now }
    ensures { IsOf hall.now setter.new }
{
    let (mut watch, _) = door.open("a");
    for index in 0..COUNT {
        let act = acts[index % acts.len()];
        if !goes_so(rt, hall, setter, door, &mut watch, act) {
            return Some(index);
        }
    }
    None
}

fn first_wrong_of<R: Wait>(
    rt: &R,
    alloc: Global,
    hall: &Hall<Manual, KeepFour>,
    setter: &mut Seat<Manual, KeepFour>,
    looker: &mut Seat<Manual, KeepFour>,
) -> Option<usize>
    requires setter { IsOf hall.now setter.old }
    requires looker { IsOf hall.now looker.old }
{
    let _ = hall.register(rt, setter, "a", Manual::new());
    let mut copy = Transcript::new(alloc);
    let door = HallDoor::new(rt, hall, looker);
    let mut door = CopyingDoor::new(door, &mut copy);
    first_wrong(rt, hall, setter, &mut door, &LOOKS)
}

#[test]
fn a_copying_door_looks_once_until_it_is_renewed(rt: HostRuntime) {
    let alloc = rt.alloc();
    let (hall, mut setter, mut looker) = two_seats(&rt, alloc);
    let wrong = first_wrong_of(&rt, alloc, &hall, &mut setter, &mut looker);
    same(&rt, &wrong, &None, &"the acts");
}

/// What three steps tell while memory is refused.
fn steps_without_memory<R: Wait>(
    alloc: Global,
    door: &mut CopyingDoor<'_, R, Manual, KeepFour>,
    watch: &mut Watch,
) -> Result<[Told; 3], AllocError> {
    let scarcity = Scarcity::with_small_room(alloc)?;
    let filler = scarcity.leave(0)?;
    let told = [door.step(watch), door.step(watch), door.step(watch)];
    drop(filler);
    drop(scarcity);
    Ok(told)
}

/// What steps tell of two changes while memory is refused, and of a third behind that.
fn told_without_memory<R: Wait + Abort>(
    rt: &R,
    alloc: Global,
    hall: &Hall<Manual, KeepFour>,
    setter: &mut Seat<Manual, KeepFour>,
    looker: &mut Seat<Manual, KeepFour>,
) -> [Told; 4]
    requires setter { IsOf hall.now setter.old }
    requires looker { IsOf hall.now looker.old }
{
    let _ = hall.register(rt, setter, "a", Manual::new());
    let mut copy = Transcript::new(alloc);
    let door = HallDoor::new(rt, hall, looker);
    let mut door = CopyingDoor::new(door, &mut copy);
    let (mut watch, _) = door.open("a");
    set(rt, hall, setter, Setting::Down);
    set(rt, hall, setter, Setting::Up);
    let told = steps_without_memory(alloc, &mut door, &mut watch);
    let [first, second, third] = told.expect(rt, "a room");
    set(rt, hall, setter, Setting::Down);
    [first, second, third, door.step(&mut watch)]
}

#[test]
fn a_copying_door_without_memory_looks_at_the_hall(rt: HostRuntime) {
    let alloc = rt.alloc();
    let (hall, mut setter, mut looker) = two_seats(&rt, alloc);
    let told = told_without_memory(&rt, alloc, &hall, &mut setter, &mut looker);
    let expected = [
        Ok(Some(Serving::NotServing)),
        Ok(Some(Serving::Serving)),
        Ok(None),
        Ok(Some(Serving::NotServing)),
    ];
    same(&rt, &told, &expected, &"the steps");
}
