//! A server that also ends where a signal asks for it which the process was started with blocked.

ghost use Rattle.std.specs.Prelude.{◌≡◌, ◌≤◌, ◌<◌, List, Option, IfOk, IfErr, vec_len};
ghost use Rattle.desk_core.specs.declared.call.Call.{Call};
ghost use Rattle.live_run.specs.WholeRun.{HasRun, HaveEnded, HaveTerms};
ghost use Rattle.running.specs.declared.run_failure.RunFailure.TheVariants.{OutOfMemory};
ghost use Rattle.running.specs.Run.{IsWhollySetUp};

use crate::run::serve_to_end;
use crate::run_failure::RunFailure;
use desk_core::Keep;
use handover::StopSignals;
use live_run::{Counters, Ran, SessionPlaces};
use live_server::{EventServer, News};
use probe_core::{Maker, Probe};
use server::SetUpHall;
use std::alloc::Global;
use std::fs::File;
use std::rt::Files;
use std::sync::{Arc, Wait};
use std::thread;
use std::thread::Threads;
use std::time::{Clock, Duration};

/// How many milliseconds pass from one look at the signals to the next.
const LOOK_MILLIS: u64 = 200;

/// How many milliseconds the thread that looks may take to begin.
const PATIENCE_MILLIS: u32 = 5_000;

/// Serves as `serve_to_end` does. Where some of these signals are blocked, one that comes ends all as the line `stop` of a session does.
pub fn serve_signalled<'a, R, P: Probe + Send, K: Keep + Send, M: Maker<P> + Sync>(
    rt: &R,
    alloc: Global,
    made: SetUpHall<P, K>,
    servers: Vec<EventServer>,
    places: SessionPlaces,
    maker: &M,
    counters: &Arc<Counters>,
    news: &News,
    signals: &StopSignals,
) -> Result<Ran<P, K>, RunFailure<'a>>
where
    R: Files<File = File> + Clock + Wait + Threads + Sync,
    R::Dir: Send + Sync,
    requires set_up { (calls : List (Option Call)) × IsWhollySetUp calls made }
    requires some { 1 ≤ vec_len servers }
    requires enough { vec_len servers < made.hall.seats }
    requires terms { HaveTerms made.hall.most places }
    // A signal makes no change either.
    ensures ran { IfOk result (λ ran. HasRun K.kept places ran.places made.hall
        (vec_len servers) made.seats ran.desk) }
    ensures sessions { IfOk result (λ ran. HaveEnded places ran.places) }
    ensures failure { IfErr result (λ failure. failure ≡ OutOfMemory) }
{
    if signals.is_none() {
        return serve_to_end(rt, alloc, made, servers, places, maker, counters, news);
    }
    news.await_threads(1);
    let served = Served {
        rt,
        alloc,
        made,
        servers,
        places,
        maker,
        counters,
        news,
    };
    let (_, ran) = thread::join(
        rt,
        move || look_for_signals(rt, alloc, signals, news),
        move || -> Result<Ran<P, K>, RunFailure<'_>>
            requires set_up { (calls : List (Option Call)) × IsWhollySetUp calls served.made }
            requires some { 1 ≤ vec_len served.servers }
            requires enough { vec_len served.servers < served.made.hall.seats }
            requires terms { HaveTerms served.made.hall.most served.places }
            ensures ran { IfOk result (λ ran. HasRun K.kept served.entry.places ran.places
                served.entry.made.hall (vec_len served.entry.servers) served.entry.made.seats ran.desk) }
            ensures sessions { IfOk result (λ ran. HaveEnded served.entry.places ran.places) }
            ensures failure { IfErr result (λ failure. failure ≡ OutOfMemory) }
        { served.serve() },
    );
    ran
}

/// A server that waits to serve beside the thread that looks for signals.
#[derive(Drop)]
struct Served<'r, R, P: Probe, K: Keep, M> {
    rt: &'r R,
    alloc: Global,
    made: SetUpHall<P, K>,
    servers: Vec<EventServer>,
    places: SessionPlaces,
    maker: &'r M,
    counters: &'r Arc<Counters>,
    news: &'r News,
}

impl<R, P: Probe + Send, K: Keep + Send, M: Maker<P> + Sync> Served<'_, R, P, K, M>
where
    R: Clock + Wait + Threads + Sync,
{
    ghost use Rattle.std.specs.Prelude.{◌≡◌, ◌≤◌, ◌<◌, List, Option, IfOk, IfErr, vec_len};
    ghost use Rattle.desk_core.specs.declared.call.Call.{Call};
    ghost use Rattle.live_run.specs.WholeRun.{HasRun, HaveEnded, HaveTerms};
    ghost use Rattle.running.specs.declared.run_failure.RunFailure.TheVariants.{OutOfMemory};
    ghost use Rattle.running.specs.Run.{IsWhollySetUp};

    /// Serves once the thread that looks has begun, and has that thread end too.
    fn serve<'a>(self) -> Result<Ran<P, K>, RunFailure<'a>>
        requires set_up { (calls : List (Option Call)) × IsWhollySetUp calls self.made }
        requires some { 1 ≤ vec_len self.servers }
        requires enough { vec_len self.servers < self.made.hall.seats }
        requires terms { HaveTerms self.made.hall.most self.places }
        ensures ran { IfOk result (λ ran. HasRun K.kept self.entry.places ran.places
            self.entry.made.hall (vec_len self.entry.servers) self.entry.made.seats ran.desk) }
        ensures sessions { IfOk result (λ ran. HaveEnded self.entry.places ran.places) }
        ensures failure { IfErr result (λ failure. failure ≡ OutOfMemory) }
    {
        let Served {
            rt,
            alloc,
            made,
            servers,
            places,
            maker,
            counters,
            news,
        } = self;
        await_look(rt, news);
        let ran = serve_to_end(rt, alloc, made, servers, places, maker, counters, news);
        // Also where it did not come to serving.
        news.end();
        ran
    }
}

/// Looks for signals until all is to end, which it is to where one of these is pending.
fn look_for_signals<R: Files<File = File> + Clock + Wait>(
    rt: &R,
    alloc: Global,
    signals: &StopSignals,
    news: &News,
) {
    news.begin_thread();
    for _ in rt.forever() {
        if news.has_ended() {
            return;
        }
        if signals.is_pending(rt, alloc) {
            news.end();
            return;
        }
        thread::sleep(rt, Duration::from_millis(LOOK_MILLIS));
    }
}

/// Waits until the thread that looks has begun. Where it hasn't in time, the system made none, and all is to end.
fn await_look<R: Clock>(rt: &R, news: &News) {
    for _ in 0..PATIENCE_MILLIS {
        if !news.awaits_threads() {
            return;
        }
        thread::sleep(rt, Duration::from_millis(1));
    }
    news.end_for_lack_of_threads();
}
