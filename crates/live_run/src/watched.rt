ghost use Rattle.std.specs.Prelude.{◌≡◌, vec_len, length, IfSome};
ghost use Rattle.std.specs.List.{All};
ghost use Rattle.hall.specs.Seats.{IsOf};
ghost use Rattle.control_server.specs.Server.{terms_of};
ghost use Rattle.live_run.specs.Loops.{AllLookedAndEnded};
ghost use Rattle.live_run.specs.Sitting.{HasSat, terms_by};
ghost use Rattle.live_run.specs.Watched.{HasKeptWatch};

use crate::reported::serve_reported;
use crate::seated_loop::SeatedLoop;
use crate::sitting::Sitting;
use crate::watchdog_loop::WatchdogLoop;
use control::Rights;
use desk_core::Keep;
use hall::{Hall, Seat};
use live_server::News;
use probe_core::{Maker, Probe};
use std::sync::Wait;
use std::thread;
use std::thread::Threads;
use std::time::Clock;

/// The first seat of a hall, with room for others, and the watchdog that uses it, if there is one.
#[derive(Drop)]
pub(crate) struct Watch<P: Probe, K: Keep> {
    pub(crate) watchdog: Option<WatchdogLoop>,
    pub(crate) seats: Vec<Seat<P, K>>,
}

/// Lets the watchdog have its rounds until all is to end.
fn keep_watch<R: Wait + Clock, P: Probe, K: Keep>(
    rt: &R,
    hall: &Hall<P, K>,
    news: &News,
    watch: Watch<P, K>,
) -> Watch<P, K>
    requires ours { All (IsOf hall.now) watch.seats.items }
    requires one { length watch.seats.items ≡ 1 }
    ensures { HasKeptWatch K.kept watch.watchdog watch.seats result.watchdog result.seats }
{
    let Watch {
        watchdog,
        mut seats,
    } = watch;
    let Some(mut watching) = watchdog else {
        return Watch {
            watchdog: None,
            seats,
        };
    };
    news.begin_thread();
    watching.run(rt, hall, &mut seats[0], news);
    Watch {
        watchdog: Some(watching),
        seats,
    }
}

/// Lets the watchdog have its rounds in a thread of its own, beside sessions and loops. Where none can be made, it begins when these have
/// ended, which is soon: the loops wait for it to begin.
pub(crate) fn serve_watched<R, P: Probe + Send, K: Keep + Send, M>(
    rt: &R,
    hall: &Hall<P, K>,
    maker: &M,
    news: &News,
    watch: Watch<P, K>,
    report: Sitting<P, K>,
    control: Sitting<P, K>,
    loops: Vec<SeatedLoop<P, K>>,
) -> (
    Watch<P, K>,
    (Sitting<P, K>, (Sitting<P, K>, Vec<SeatedLoop<P, K>>)),
)
where
    R: Wait + Threads + Clock + Sync,
    M: Maker<P> + Sync,
    requires first { All (IsOf hall.now) watch.seats.items }
    requires one { length watch.seats.items ≡ 1 }
    requires reporters { All (IsOf hall.now) report.seats.items }
    requires reports { IfSome report.server (λ server. terms_of server ≡ terms_by Rights.Reports
        hall.now.most) }
    requires seats { All (IsOf hall.now) control.seats.items }
    requires terms { IfSome control.server (λ server. terms_of server ≡ terms_by Rights.All
        hall.now.most) }
    requires loops { All (λ seated. IsOf hall.now seated.seat) loops.items }
    ensures watched { HasKeptWatch K.kept watch.watchdog watch.seats result.0.watchdog
        result.0.seats }
    ensures reported { HasSat K.kept (terms_by Rights.Reports hall.now.most) hall.now.names
        report.server report.seats.items
        result.1.0.server result.1.0.seats.items }
    ensures sat { HasSat K.kept (terms_by Rights.All hall.now.most) hall.now.names control.server
        control.seats.items
        result.1.1.0.server result.1.1.0.seats.items }
    ensures len { vec_len result.1.1.1 ≡ vec_len loops }
    ensures served { AllLookedAndEnded loops.items result.1.1.1.items }
{
    let reported = Reported {
        rt,
        hall,
        maker,
        news,
        report,
        control,
        loops,
    };
    thread::join(
        rt,
        move || -> Watch<P, K>
            requires ours { All (IsOf hall.now) watch.seats.items }
            requires one { length watch.seats.items ≡ 1 }
            ensures { HasKeptWatch K.kept watch.watchdog watch.seats result.watchdog
                result.seats }
        { keep_watch(rt, hall, news, watch) },
        move || -> (Sitting<P, K>, (Sitting<P, K>, Vec<SeatedLoop<P, K>>))
            requires reporters { All (IsOf reported.hall.now) reported.report.seats.items }
            requires reports { IfSome reported.report.server
                (λ server. terms_of server ≡ terms_by Rights.Reports reported.hall.now.most) }
            requires seats { All (IsOf reported.hall.now) reported.control.seats.items }
            requires terms { IfSome reported.control.server
                (λ server. terms_of server ≡ terms_by Rights.All reported.hall.now.most) }
            requires loops { All (λ seated. IsOf reported.hall.now seated.seat)
                reported.loops.items }
            ensures reported { HasSat K.kept (terms_by Rights.Reports reported.entry.hall.now.most)
                reported.entry.hall.now.names
                reported.entry.report.server reported.entry.report.seats.items result.0.server result.0.seats.items }
            ensures sat { HasSat K.kept (terms_by Rights.All reported.entry.hall.now.most)
                reported.entry.hall.now.names
                reported.entry.control.server reported.entry.control.seats.items result.1.0.server result.1.0.seats.items }
            ensures len { vec_len result.1.1 ≡ vec_len reported.entry.loops }
            ensures served { AllLookedAndEnded reported.entry.loops.items result.1.1.items }
        { reported.serve() },
    )
}

/// Loops that wait to serve beside the sessions of both places.
#[derive(Drop)]
struct Reported<'a, R, P: Probe, K: Keep, M> {
    rt: &'a R,
    hall: &'a Hall<P, K>,
    maker: &'a M,
    news: &'a News,
    report: Sitting<P, K>,
    control: Sitting<P, K>,
    loops: Vec<SeatedLoop<P, K>>,
}

impl<R, P: Probe + Send, K: Keep + Send, M> Reported<'_, R, P, K, M>
where
    R: Wait + Threads + Clock + Sync,
    M: Maker<P> + Sync,
{
    ghost use Rattle.std.specs.Prelude.{◌≡◌, vec_len, IfSome};
    ghost use Rattle.std.specs.List.{All};
    ghost use Rattle.hall.specs.Seats.{IsOf};
    ghost use Rattle.control_server.specs.Server.{terms_of};
    ghost use Rattle.live_run.specs.Loops.{AllLookedAndEnded};
    ghost use Rattle.live_run.specs.Sitting.{HasSat, terms_by};

    fn serve(self) -> (Sitting<P, K>, (Sitting<P, K>, Vec<SeatedLoop<P, K>>))
        requires reporters { All (IsOf self.hall.now) self.report.seats.items }
        requires reports { IfSome self.report.server (λ server. terms_of server ≡ terms_by
            Rights.Reports self.hall.now.most) }
        requires seats { All (IsOf self.hall.now) self.control.seats.items }
        requires terms { IfSome self.control.server (λ server. terms_of server ≡ terms_by
            Rights.All self.hall.now.most) }
        requires loops { All (λ seated. IsOf self.hall.now seated.seat) self.loops.items }
        ensures reported { HasSat K.kept (terms_by Rights.Reports self.entry.hall.now.most)
            self.entry.hall.now.names
            self.entry.report.server self.entry.report.seats.items result.0.server result.0.seats.items }
        ensures sat { HasSat K.kept (terms_by Rights.All self.entry.hall.now.most)
            self.entry.hall.now.names
            self.entry.control.server self.entry.control.seats.items result.1.0.server result.1.0.seats.items }
        ensures len { vec_len result.1.1 ≡ vec_len self.entry.loops }
        ensures served { AllLookedAndEnded self.entry.loops.items result.1.1.items }
    {
        let Reported {
            rt,
            hall,
            maker,
            news,
            report,
            control,
            loops,
        } = self;
        serve_reported(rt, hall, maker, news, report, control, loops)
    }
}
