ghost use Rattle.std.specs.Prelude.{◌≡◌, vec_len, IfSome};
ghost use Rattle.std.specs.List.{All};
ghost use Rattle.hall.specs.Seats.{IsOf};
ghost use Rattle.control_server.specs.Server.{terms_of};
ghost use Rattle.live_run.specs.Loops.{AllLookedAndEnded};
ghost use Rattle.live_run.specs.Sitting.{HasSat, terms_by};

use crate::seated_loop::SeatedLoop;
use crate::seating::after_serving;
use crate::sitting::{Sitting, hold_sessions};
use control::Rights;
use desk_core::Keep;
use hall::Hall;
use live_server::News;
use probe_core::{Maker, Probe};
use std::sync::Wait;
use std::thread;
use std::thread::Threads;
use std::time::Clock;

/// Holds sessions of the control place beside loops that serve, until all is to end.
///
/// Sessions have a thread of their own. Where none can be made, they begin when the loops have ended, which is soon: the loops wait for
/// them to begin.
pub(crate) fn serve_beside<R, P: Probe + Send, K: Keep + Send, M>(
    rt: &R,
    hall: &Hall<P, K>,
    maker: &M,
    news: &News,
    control: Sitting<P, K>,
    loops: Vec<SeatedLoop<P, K>>,
) -> (Sitting<P, K>, Vec<SeatedLoop<P, K>>)
where
    R: Wait + Threads + Clock + Sync,
    M: Maker<P> + Sync,
    requires seats { All (IsOf hall.now) control.seats.items }
    requires terms { IfSome control.server (λ server. terms_of server ≡ terms_by Rights.All
        hall.now.most) }
    requires loops { All (λ seated. IsOf hall.now seated.seat) loops.items }
    ensures sat { HasSat K.kept (terms_by Rights.All hall.now.most) hall.now.names control.server
        control.seats.items
        result.0.server result.0.seats.items }
    ensures len { vec_len result.1 ≡ vec_len loops }
    ensures served { AllLookedAndEnded loops.items result.1.items }
{
    let waiting = Waiting {
        rt,
        hall,
        news,
        loops,
    };
    thread::join(
        rt,
        move || -> Sitting<P, K>
            requires seats { All (IsOf hall.now) control.seats.items }
            requires terms { IfSome control.server (λ server. terms_of server ≡ terms_by Rights.All
                hall.now.most) }
            ensures { HasSat K.kept (terms_by Rights.All hall.entry.now.most) hall.entry.now.names
                control.server
                control.seats.items result.server result.seats.items }
        { hold_sessions(rt, hall, maker, news, control, Rights::All) },
        move || -> Vec<SeatedLoop<P, K>>
            requires { All (λ seated. IsOf waiting.hall.now seated.seat) waiting.loops.items }
            ensures len { vec_len result ≡ vec_len waiting.entry.loops }
            ensures served { AllLookedAndEnded waiting.entry.loops.items result.items }
        { waiting.serve() },
    )
}

/// Loops that wait to serve.
#[derive(Drop)]
struct Waiting<'a, R, P: Probe, K: Keep> {
    rt: &'a R,
    hall: &'a Hall<P, K>,
    news: &'a News,
    loops: Vec<SeatedLoop<P, K>>,
}

impl<R: Wait + Threads + Clock + Sync, P: Probe + Send, K: Keep + Send> Waiting<'_, R, P, K> {
    ghost use Rattle.std.specs.Prelude.{◌≡◌, vec_len};
    ghost use Rattle.std.specs.List.{All};
    ghost use Rattle.hall.specs.Seats.{IsOf};
    ghost use Rattle.live_run.specs.Loops.{AllLookedAndEnded};

    fn serve(self) -> Vec<SeatedLoop<P, K>>
        requires { All (λ seated. IsOf self.hall.now seated.seat) self.loops.items }
        ensures len { vec_len result ≡ vec_len self.entry.loops }
        ensures served { AllLookedAndEnded self.entry.loops.items result.items }
    {
        let Waiting {
            rt,
            hall,
            news,
            loops,
        } = self;
        after_serving(rt, hall, loops, news)
    }
}
