ghost use Rattle.std.specs.Prelude.{◌≡◌, map, vec_len, IfOk};
ghost use Rattle.std.specs.List.{All};
ghost use Rattle.hall.specs.Seats.{IsOf};
ghost use Rattle.live_run.specs.Loops.{AllLookedAndEnded};
ghost use Rattle.live_run.specs.Seating.{AreDivided};

use crate::counters::Counters;
use crate::loops_fault::LoopsFault;
use crate::ran::{Ran, SessionPlaces};
use crate::seated_loop::{SeatedLoop, serve_loops};
use crate::sitting::Sitting;
use crate::watched::{Watch, serve_watched};
use control_server::SESSION_SEATS;
use desk_core::Keep;
use hall::{Closed, Hall, Seat};
use live_server::{EventServer, News};
use probe_core::{Maker, Probe};
use std::alloc::{AllocError, Global};
use std::sync::{Arc, Wait};
use std::thread;
use std::thread::Threads;
use std::time::{Clock, Duration};

/// Loops on their seats, and the seats beside theirs, with room for all seats and loops to come back.
#[derive(Drop)]
pub(crate) struct Seating<P: Probe, K: Keep> {
    pub(crate) loops: Vec<SeatedLoop<P, K>>,
    /// Those of the control place.
    pub(crate) control: Vec<Seat<P, K>>,
    /// Those of the report place.
    pub(crate) report: Vec<Seat<P, K>>,
    pub(crate) back: Back<P, K>,
}

/// What comes back of loops: their servers, all seats, and what served beside them. While they serve, it holds the first seat alone,
/// which the watchdog uses.
#[derive(Drop)]
pub(crate) struct Back<P: Probe, K: Keep> {
    pub(crate) servers: Vec<EventServer>,
    pub(crate) seats: Vec<Seat<P, K>>,
    pub(crate) places: SessionPlaces,
}

impl<P: Probe, K: Keep> Back<P, K> {
    ghost use Rattle.std.specs.Prelude.{◌≡◌, ◌≢◌, length, IfOk, IfErr};
    ghost use Rattle.std.specs.List.{All};
    ghost use Rattle.hall.specs.Seats.{IsOf};
    ghost use Rattle.live_run.specs.declared.loops_fault.LoopsFault.TheVariants as faults;
    ghost use Rattle.live_run.specs.WholeRun.{IsClosedBy};

    /// Closes the hall that these seats are of.
    pub(crate) fn close(self, hall: Hall<P, K>) -> Result<Ran<P, K>, LoopsFault>
        requires ours { All (IsOf hall) self.seats.items }
        ensures missing { IfErr result (λ fault. (fault ≡ faults.SeatsMissing)
            × (length self.seats.items ≢ hall.seats)) }
        ensures servers { IfOk result (λ ran. ran.servers ≡ self.servers) }
        ensures places { IfOk result (λ ran. ran.places ≡ self.places) }
        ensures closed { IfOk result (λ ran. IsClosedBy hall self.seats.items ran.desk) }
    {
        let Back {
            servers,
            seats,
            places,
        } = self;
        let Ok(Closed { desk, .. }) = hall.close(seats) else {
            return Err(LoopsFault::SeatsMissing);
        };
        Ok(Ran {
            servers,
            places,
            desk,
        })
    }
}

impl<P: Probe, K: Keep> Seating<P, K> {
    ghost use Rattle.std.specs.Prelude.{◌≡◌, ◌<◌, vec_len, length, Err, IfSome, IfNone, IfOk, IfErr};
    ghost use Rattle.live_run.specs.declared.loops_fault.LoopsFault.TheVariants as faults;
    ghost use Rattle.live_run.specs.Seating.{HasRoom, IsSeatingOf, IsUndivided, seats_of, servers_of};
    ghost use Rattle.live_run.specs.WholeRun.{loops_fault};

    /// Gives each loop one of the seats behind the first, and divides those behind theirs. It takes all memory.
    pub(crate) fn new(
        alloc: Global,
        servers: Vec<EventServer>,
        seats: Vec<Seat<P, K>>,
        counters: &Arc<Counters>,
    ) -> Result<Seating<P, K>, LoopsFault>
        ensures refused { IfSome (loops_fault (vec_len servers) (length seats.items))
            (λ fault. result ≡ Err fault) }
        ensures failed { IfNone (loops_fault (vec_len servers) (length seats.items))
            (IfErr result (λ fault. fault ≡ faults.NoMemory)) }
        ensures enough { IfOk result (λ seating. vec_len servers < length seats.items) }
        ensures seated { IfOk result (IsSeatingOf servers.items seats.items) }
    {
        if let Some(fault) = LoopsFault::of(servers.len(), seats.len()) {
            return Err(fault);
        }
        match Seating::with_room(alloc, servers, seats, counters) {
            Ok(seating) => Ok(seating),
            Err(AllocError) => Err(LoopsFault::NoMemory),
        }
    }

    /// The same, where there is a seat for each loop and one more.
    fn with_room(
        alloc: Global,
        servers: Vec<EventServer>,
        seats: Vec<Seat<P, K>>,
        counters: &Arc<Counters>,
    ) -> Result<Seating<P, K>, AllocError>
        requires enough { vec_len servers < vec_len seats }
        ensures { IfOk result (IsSeatingOf servers.items seats.items) }
    {
        let Seating {
            loops,
            report,
            back,
            ..
        } = Seating::undivided(alloc, servers, seats, counters)?;
        let (control, report) = divided(report)?;
        Ok(Seating {
            loops,
            control,
            report,
            back,
        })
    }

    /// The same, where the report place has all seats behind the loops'. The first seat stays where all were, so that there is room for
    /// them to come back.
    fn undivided(
        alloc: Global,
        servers: Vec<EventServer>,
        mut seats: Vec<Seat<P, K>>,
        counters: &Arc<Counters>,
    ) -> Result<Seating<P, K>, AllocError>
        requires enough { vec_len servers < vec_len seats }
        ensures { IfOk result (IsUndivided servers.items seats.items) }
    {
        let room = Vec::with_capacity(alloc, servers.len())?;
        let mut behind = seats.split_off(1)?;
        let report = behind.split_off(servers.len())?;
        let loops = seated(alloc, servers, behind, counters)?;
        Ok(Seating {
            loops,
            control: Vec::new(alloc),
            report,
            back: Back {
                servers: room,
                seats,
                places: SessionPlaces {
                    control: None,
                    report: None,
                    watchdog: None,
                },
            },
        })
    }

    /// Puts all servers and seats back.
    fn give_back(self) -> Back<P, K>
        requires { HasRoom self }
        ensures seats { result.seats.items ≡ seats_of self }
        ensures servers { result.servers.items ≡ servers_of self }
        ensures places { result.places ≡ self.back.places }
    {
        let Seating {
            loops,
            mut control,
            mut report,
            back,
        } = self;
        let Back {
            mut servers,
            mut seats,
            places,
        } = back;
        for SeatedLoop { server, seat, .. } in loops {
            servers.push(server).unwrap();
            seats.push(seat).unwrap();
        }
        seats.append(&mut control).unwrap();
        seats.append(&mut report).unwrap();
        Back {
            servers,
            seats,
            places,
        }
    }
}

/// Each of the servers on its seat, of which there are as many.
fn seated<P: Probe, K: Keep>(
    alloc: Global,
    servers: Vec<EventServer>,
    seats: Vec<Seat<P, K>>,
    counters: &Arc<Counters>,
) -> Result<Vec<SeatedLoop<P, K>>, AllocError>
    requires each { vec_len servers ≡ vec_len seats }
    ensures servers { IfOk result (λ loops. map (λ seated. seated.server) loops.items ≡ servers.items) }
    ensures seats { IfOk result (λ loops. map (λ seated. seated.seat) loops.items ≡ seats.items) }
{
    let mut loops = Vec::with_capacity(alloc, servers.len())?;
    let mut rest = seats.into_iter();
    for server in servers {
        let counters = counters.clone()?;
        let seat = rest.next().unwrap();
        loops
            .push(SeatedLoop {
                server,
                seat,
                counters,
            })
            .unwrap();
    }
    Ok(loops)
}

/// The seats of the control place, and those behind them, for the report place.
fn divided<P: Probe, K: Keep>(
    mut seats: Vec<Seat<P, K>>,
) -> Result<(Vec<Seat<P, K>>, Vec<Seat<P, K>>), AllocError>
    ensures { IfOk result (AreDivided seats.items) }
{
    let first = usize::from(SESSION_SEATS).min(seats.len());
    let report = seats.split_off(first)?;
    Ok((seats, report))
}

impl<P: Probe + Send, K: Keep + Send> Seating<P, K> {
    ghost use Rattle.std.specs.Prelude.{vec_len};
    ghost use Rattle.std.specs.List.{All};
    ghost use Rattle.hall.specs.Seats.{IsOf};
    ghost use Rattle.live_run.specs.Loops.{AllEndedEmpty, SeatsHaveLooked, SeatsAfterRun};
    ghost use Rattle.live_run.specs.WholeRun.{AreNone, HaveEnded, HaveTerms};
    ghost use Rattle.live_run.specs.Seating.{HasRoom, seats_of, servers_of};

    /// Lets the loops serve until all is to end, beside sessions where there are places for them, and gives everything back.
    pub(crate) fn serve<R, M>(
        self,
        rt: &R,
        hall: &Hall<P, K>,
        places: SessionPlaces,
        maker: &M,
        news: &News,
    ) -> Back<P, K>
    where
        R: Wait + Threads + Clock + Sync,
        M: Maker<P> + Sync,
        requires ours { All (IsOf hall.now) (seats_of self) }
        requires room { HasRoom self }
        requires terms { HaveTerms hall.now.most places }
        ensures served { SeatsAfterRun K.kept places.watchdog result.places.watchdog
            hall.now.most hall.now.names (vec_len self.loops) (vec_len self.control)
            (seats_of self) result.seats.items }
        ensures looked { AreNone places → SeatsHaveLooked (vec_len self.loops)
            (seats_of self) result.seats.items }
        ensures servers { AllEndedEmpty (servers_of self) result.servers.items }
        ensures ours { All (IsOf hall.now) result.seats.items }
        ensures places { HaveEnded places result.places }
    {
        let Seating {
            loops,
            control,
            report,
            back,
        } = self;
        let reporters = Sitting {
            server: places.report,
            seats: report,
        };
        let controllers = Sitting {
            server: places.control,
            seats: control,
        };
        let Back { servers, seats, .. } = back;
        let watch = Watch {
            watchdog: places.watchdog,
            seats,
        };
        let (watched, (reported, (controlled, loops))) = serve_watched(
            rt,
            hall,
            maker,
            news,
            watch,
            reporters,
            controllers,
            loops,
        );
        let seating = Seating {
            loops,
            control: controlled.seats,
            report: reported.seats,
            back: Back {
                servers,
                seats: watched.seats,
                places: SessionPlaces {
                    control: controlled.server,
                    report: reported.server,
                    watchdog: watched.watchdog,
                },
            },
        };
        seating.give_back()
    }
}

/// How many milliseconds the threads may take to begin that a run can't do without.
const PATIENCE_MILLIS: u32 = 5_000;

/// Waits until the threads have begun that a run can't do without. Where one hasn't in time, the system made none, and all is to end.
fn await_threads<R: Clock>(rt: &R, news: &News) {
    for _ in 0..PATIENCE_MILLIS {
        if !news.awaits_threads() || news.has_ended() {
            return;
        }
        thread::sleep(rt, Duration::from_millis(1));
    }
    news.end_for_lack_of_threads();
}

/// The loops when they have served, once all other threads have begun.
pub(crate) fn after_serving<R: Wait + Threads + Clock + Sync, P: Probe + Send, K: Keep + Send>(
    rt: &R,
    hall: &Hall<P, K>,
    mut loops: Vec<SeatedLoop<P, K>>,
    news: &News,
) -> Vec<SeatedLoop<P, K>>
    requires { All (λ seated. IsOf hall.now seated.seat) loops.items }
    ensures len { vec_len result ≡ vec_len loops }
    ensures served { AllLookedAndEnded loops.items result.items }
{
    await_threads(rt, news);
    serve_loops(rt, hall, loops.as_mut_slice(), news);
    loops
}
