ghost use Rattle.std.specs.Prelude.{◌≡◌, ◌<◌, ◌≤◌, ◌+◌, ◌^◌, [], ◌∷◌, MatchOption, vec_len};
ghost use Rattle.std.specs.List.{All};
ghost use Rattle.std.specs.Vec.Iter.{into_iter_items, into_iter_len};
ghost use Rattle.hall.specs.Seats.{IsOf};
ghost use Rattle.crew.specs.Answering.{EndsSo, StaysBusy, end_of, moment};
ghost use Rattle.crew.specs.HallDoor.{StaysAt};
ghost use Rattle.hall.specs.Looking.{HasLooked};
ghost use Rattle.crew.specs.Worker.{HaveLooked};

use crate::call_end::CallEnd;
use crate::door::HallDoor;
use crate::job::Job;
use crate::ring::{Ring, RingBell};
use crate::turnstile::Turnstile;
use hall::{Hall, Seat};
use probe_core::Probe;
use std::alloc::Global;
use std::io::{Read, Write};
use std::sync::{Mutex, Wait};
use std::thread;
use std::thread::Threads;
use std::vec::IntoIter;
use web_call::{Limits, Tap, exchange};

/// The jobs that wait for a worker, and the number of the first of them.
#[derive(Drop)]
pub struct Queue<J> {
    next: u32,
    waiting: IntoIter<J>,
    ghost numbers: { next + into_iter_len waiting < 2 ^ 32 },
}

impl<J> Queue<J> {
    /// All jobs wait, and are numbered from 0.
    pub fn new(jobs: Vec<J>) -> Queue<J>
        requires { vec_len jobs < 2 ^ 32 }
        ensures { (result.next ≡ 0) × (into_iter_items result.waiting ≡ jobs.items) }
    {
        Queue {
            next: 0,
            waiting: jobs.into_iter(),
        }
    }

    /// The job that has waited longest, with its number.
    fn take(&mut self) -> Option<(u32, J)>
        ensures { MatchOption result (into_iter_items self.old.waiting ≡ [])
            (λ taken. (taken.0 ≡ self.old.next) × (self.new.next ≡ self.old.next + 1)
            × (into_iter_items self.old.waiting ≡ taken.1 ∷ into_iter_items self.new.waiting)) }
    {
        let job = self.waiting.next()?;
        let number = self.next;
        self.next = number + 1;
        Some((number, job))
    }
}

/// A worker: its seat, and how the calls ended that it has served.
#[derive(Drop)]
pub struct Worker<P: Probe> {
    pub seat: Seat<P>,
    pub ends: Vec<(u32, CallEnd)>,
}

/// What all workers work with.
#[derive(Drop)]
pub struct Workplace<'a, P: Probe, J, T> {
    pub alloc: Global,
    pub hall: &'a Hall<P>,
    pub queue: &'a Mutex<Queue<J>>,
    pub turnstile: &'a T,
    pub ring: &'a Ring,
    pub limits: Limits,
}

/// Makes an exchange between these ends, by a door to the hall, and tells how it ended. A Watch waits for the bell, and takes no more
/// Looks than the workplace's limit.
fn answer<I: Read, O: Write, R: Wait, P: Probe, J, T>(
    place: &Workplace<'_, P, J, T>,
    reader: &mut Tap<I>,
    writer: &mut Tap<O>,
    door: &mut HallDoor<'_, R, P>,
    bell: &mut RingBell<'_, R>,
) -> CallEnd
    ensures end { EndsSo place.now.limits.looks
        (moment (end_of I.remaining reader.old) (end_of O.contents writer.old) door.old bell.old)
        (moment (end_of I.remaining reader.new) (end_of O.contents writer.new) door.new bell.new)
        result }
    ensures busy { StaysBusy
        (moment (end_of I.remaining reader.old) (end_of O.contents writer.old) door.old bell.old)
        (moment (end_of I.remaining reader.new) (end_of O.contents writer.new) door.new bell.new) }
    ensures looks { bell.new.given ≤ bell.old.given + place.now.limits.looks }
    ensures stays { StaysAt door.old door.new }
{
    match exchange(place.alloc, reader, writer, door, bell, place.limits) {
        Ok(outcome) => CallEnd::Done(outcome),
        Err(fault) => CallEnd::Fault(fault),
    }
}

/// Opens a job and answers it by the seat of the worker. The bell is made before a Watch is opened, so that it misses no ring.
fn serve_one<R: Wait, P: Probe, J: Job, T>(
    rt: &R,
    place: &Workplace<'_, P, J, T>,
    job: J,
    seat: &mut Seat<P>,
) -> CallEnd
    requires { IsOf place.now.hall.now seat.old }
    ensures { HasLooked seat.old seat.new }
{
    let Ok((input, output)) = job.open() else {
        return CallEnd::Unopened;
    };
    // The writer is dropped before the reader, so that a response ends before its connection is let go.
    let mut reader = Tap::new(input);
    let mut writer = Tap::new(output);
    let mut bell = place.ring.bell(rt);
    let mut door = HallDoor::new(rt, place.hall, seat);
    answer(place, &mut reader, &mut writer, &mut door, &mut bell)
}

/// Serves calls as long as jobs wait and there is room for one report more. Room for a call's report is taken before its job, so that no call goes unreported.
fn work<R: Wait, P: Probe, J: Job, T: Turnstile>(
    rt: &R,
    place: &Workplace<'_, P, J, T>,
    worker: &mut Worker<P>,
)
    requires { IsOf place.now.hall.now worker.old.seat }
    ensures { HasLooked worker.old.seat worker.new.seat }
{
    for _ in rt.forever() {
        if worker.ends.reserve(1).is_err() {
            return;
        }
        let Some((number, job)) = place.queue.lock(rt).take() else {
            return;
        };
        place.turnstile.enter(rt, number);
        let end = serve_one(rt, place, job, &mut worker.seat);
        place.turnstile.leave(rt, number);
        let _ = worker.ends.push((number, end));
    }
}

/// Lets all workers work side by side, in a thread each where threads can be made.
pub fn work_all<R: Wait + Threads + Sync, P: Probe + Send, J: Job + Send, T: Turnstile>(
    rt: &R,
    place: &Workplace<'_, P, J, T>,
    workers: &mut [Worker<P>],
)
where
    J::Input: Send,
    J::Output: Send,
    requires { All (λ worker. IsOf place.now.hall.now worker.seat) workers.old }
    ensures { HaveLooked workers.old workers.new }
{
    let threads = workers.len().max(1);
    let part = |_: usize, worker: &mut Worker<P>|
        requires { IsOf place.now.hall.now worker.old.seat }
        ensures { HasLooked worker.old.seat worker.new.seat }
    { work(rt, place, worker) };
    thread::for_each_mut(rt, workers, threads, &part);
}
