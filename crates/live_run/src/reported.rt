ghost use Rattle.std.specs.Prelude.{◌≡◌, vec_len, IfSome};
ghost use Rattle.std.specs.List.{All};
ghost use Rattle.hall.specs.Seats.{IsOf};
ghost use Rattle.control_server.specs.Server.{terms_of};
ghost use Rattle.live_run.specs.Loops.{AllLookedAndEnded};
ghost use Rattle.live_run.specs.Sitting.{HasSat, terms_by};

use crate::beside::serve_beside;
use crate::seated_loop::SeatedLoop;
use crate::sitting::{Sitting, hold_sessions};
use control::Rights;
use desk_core::Keep;
use hall::Hall;
use live_server::News;
use probe_core::{Maker, Probe};
use std::sync::Wait;
use std::thread;
use std::thread::Threads;
use std::time::Clock;

/// Holds sessions of the report place in a thread of their own, beside those of the control place and the loops.
pub(crate) fn serve_reported<R, P: Probe + Send, K: Keep + Send, M>(
    rt: &R,
    hall: &Hall<P, K>,
    maker: &M,
    news: &News,
    report: Sitting<P, K>,
    control: Sitting<P, K>,
    loops: Vec<SeatedLoop<P, K>>,
) -> (Sitting<P, K>, (Sitting<P, K>, Vec<SeatedLoop<P, K>>))
where
    R: Wait + Threads + Clock + Sync,
    M: Maker<P> + Sync,
    requires reporters { All (IsOf hall.now) report.seats.items }
    requires reports { IfSome report.server (λ server. terms_of server ≡ terms_by Rights.Reports
        hall.now.most) }
    requires seats { All (IsOf hall.now) control.seats.items }
    requires terms { IfSome control.server (λ server. terms_of server ≡ terms_by Rights.All
        hall.now.most) }
    requires loops { All (λ seated. IsOf hall.now seated.seat) loops.items }
    ensures reported { HasSat K.kept (terms_by Rights.Reports hall.now.most) hall.now.names
        report.server report.seats.items
        result.0.server result.0.seats.items }
    ensures sat { HasSat K.kept (terms_by Rights.All hall.now.most) hall.now.names control.server
        control.seats.items
        result.1.0.server result.1.0.seats.items }
    ensures len { vec_len result.1.1 ≡ vec_len loops }
    ensures served { AllLookedAndEnded loops.items result.1.1.items }
{
    let controlled = Controlled {
        rt,
        hall,
        maker,
        news,
        control,
        loops,
    };
    thread::join(
        rt,
        move || -> Sitting<P, K>
            requires seats { All (IsOf hall.now) report.seats.items }
            requires terms { IfSome report.server (λ server. terms_of server ≡ terms_by
                Rights.Reports hall.now.most) }
            ensures { HasSat K.kept (terms_by Rights.Reports hall.entry.now.most)
                hall.entry.now.names report.server
                report.seats.items result.server result.seats.items }
        { hold_sessions(rt, hall, maker, news, report, Rights::Reports) },
        move || -> (Sitting<P, K>, Vec<SeatedLoop<P, K>>)
            requires seats { All (IsOf controlled.hall.now) controlled.control.seats.items }
            requires terms { IfSome controlled.control.server
                (λ server. terms_of server ≡ terms_by Rights.All controlled.hall.now.most) }
            requires loops { All (λ seated. IsOf controlled.hall.now seated.seat)
                controlled.loops.items }
            ensures sat { HasSat K.kept (terms_by Rights.All controlled.entry.hall.now.most)
                controlled.entry.hall.now.names
                controlled.entry.control.server controlled.entry.control.seats.items result.0.server result.0.seats.items }
            ensures len { vec_len result.1 ≡ vec_len controlled.entry.loops }
            ensures served { AllLookedAndEnded controlled.entry.loops.items result.1.items }
        { controlled.serve() },
    )
}

/// Loops that wait to serve beside sessions.
#[derive(Drop)]
struct Controlled<'a, R, P: Probe, K: Keep, M> {
    rt: &'a R,
    hall: &'a Hall<P, K>,
    maker: &'a M,
    news: &'a News,
    control: Sitting<P, K>,
    loops: Vec<SeatedLoop<P, K>>,
}

impl<R, P: Probe + Send, K: Keep + Send, M> Controlled<'_, R, P, K, M>
where
    R: Wait + Threads + Clock + Sync,
    M: Maker<P> + Sync,
{
    ghost use Rattle.std.specs.Prelude.{◌≡◌, vec_len, IfSome};
    ghost use Rattle.std.specs.List.{All};
    ghost use Rattle.hall.specs.Seats.{IsOf};
    ghost use Rattle.control_server.specs.Server.{terms_of};
    ghost use Rattle.live_run.specs.Loops.{AllLookedAndEnded};
    ghost use Rattle.live_run.specs.Sitting.{HasSat, terms_by};

    fn serve(self) -> (Sitting<P, K>, Vec<SeatedLoop<P, K>>)
        requires seats { All (IsOf self.hall.now) self.control.seats.items }
        requires terms { IfSome self.control.server (λ server. terms_of server ≡ terms_by
            Rights.All self.hall.now.most) }
        requires loops { All (λ seated. IsOf self.hall.now seated.seat) self.loops.items }
        ensures sat { HasSat K.kept (terms_by Rights.All self.entry.hall.now.most)
            self.entry.hall.now.names
            self.entry.control.server self.entry.control.seats.items result.0.server result.0.seats.items }
        ensures len { vec_len result.1 ≡ vec_len self.entry.loops }
        ensures served { AllLookedAndEnded self.entry.loops.items result.1.items }
    {
        let Controlled {
            rt,
            hall,
            maker,
            news,
            control,
            loops,
        } = self;
        serve_beside(rt, hall, maker, news, control, loops)
    }
}
