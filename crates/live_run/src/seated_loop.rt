ghost use Rattle.std.specs.List.{All};
ghost use Rattle.hall.specs.Seats.{IsOf};
ghost use Rattle.live_run.specs.Loops.{LookedAndEnded, EndedEmpty, AllLookedAndEnded};

use crate::counters::Counters;
use crate::reception::Reception;
use crew::{CopyingDoor, HallDoor};
use desk_core::{Keep, KeepAll, Transcript};
use hall::{Hall, Seat};
use live_server::{EventServer, News};
use probe_core::Probe;
use std::sync::{Arc, Wait};
use std::thread;
use std::thread::Threads;
use std::time::Clock;
use web_call::BoardDoor;

/// An event loop, and the seat that its calls look with.
#[derive(Drop)]
pub struct SeatedLoop<P: Probe, K: Keep = KeepAll> {
    pub server: EventServer,
    pub seat: Seat<P, K>,
    /// What plain requests are told of the server.
    pub counters: Arc<Counters>,
}

/// Serves until all is to end and no connection is left.
fn serve_loop<R: Wait + Clock, P: Probe, K: Keep>(
    rt: &R,
    hall: &Hall<P, K>,
    seated: &mut SeatedLoop<P, K>,
    news: &News,
)
    requires { IsOf hall.now seated.old.seat }
    ensures { LookedAndEnded seated.old seated.new }
{
    let mut copy = Transcript::new(seated.server.allocator());
    let door = HallDoor::new(rt, hall, &mut seated.seat);
    let mut door = CopyingDoor::new(door, &mut copy);
    serve_at(rt, &mut seated.server, &mut door, &*seated.counters, news);
}

/// Serves at a door until all is to end and no connection is left.
fn serve_at<R: Wait + Clock, D: BoardDoor>(
    rt: &R,
    server: &mut EventServer,
    door: &mut D,
    counters: &Counters,
    news: &News,
)
    ensures stays { D.stays door.old door.new }
    ensures server { EndedEmpty server.old server.new }
{
    let mut reception = Reception::new(door, counters);
    server.run(rt, &mut reception, news);
}

/// Lets all loops serve side by side until all is to end and no connection is left.
///
/// Each has a thread of its own where one can be made. Loops without a thread run when those with one have ended; all loops listen
/// to the same socket, so that the others serve what comes until then.
pub fn serve_loops<R: Wait + Threads + Clock + Sync, P: Probe + Send, K: Keep + Send>(
    rt: &R,
    hall: &Hall<P, K>,
    loops: &mut [SeatedLoop<P, K>],
    news: &News,
)
    requires { All (λ seated. IsOf hall.now seated.seat) loops.old }
    ensures served { AllLookedAndEnded loops.old loops.new }
    ensures ours { All (λ seated. IsOf hall.now seated.seat) loops.new }
{
    let threads = loops.len().max(1);
    let part = |_: usize, seated: &mut SeatedLoop<P, K>|
        requires { IsOf hall.now seated.old.seat }
        ensures { LookedAndEnded seated.old seated.new }
    { serve_loop(rt, hall, seated, news) };
    thread::for_each_mut(rt, loops, threads, &part);
}
