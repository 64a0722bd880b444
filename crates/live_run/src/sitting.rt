ghost use Rattle.std.specs.Prelude.{◌≡◌, vec_len, IfSome};
ghost use Rattle.std.specs.List.{All};
ghost use Rattle.hall.specs.Seats.{IsOf};
ghost use Rattle.control_server.specs.Server.{terms_of};
ghost use Rattle.live_run.specs.Sitting.{HasSat, terms_by};

use control::Rights;
use control_server::{Context, ControlServer};
use desk_core::Keep;
use hall::{Hall, Seat};
use live_server::News;
use probe_core::{Maker, Probe};
use std::sync::Wait;
use std::time::Clock;

/// The seats of a place for sessions, and the server that holds sessions there, if there is one.
#[derive(Drop)]
pub(crate) struct Sitting<P: Probe, K: Keep> {
    pub(crate) server: Option<ControlServer>,
    pub(crate) seats: Vec<Seat<P, K>>,
}

/// Holds sessions until all is to end.
pub(crate) fn hold_sessions<R, P: Probe, K: Keep, M: Maker<P>>(
    rt: &R,
    hall: &Hall<P, K>,
    maker: &M,
    news: &News,
    sitting: Sitting<P, K>,
    rights: Rights,
) -> Sitting<P, K>
where
    R: Wait + Clock,
    requires seats { All (IsOf hall.now) sitting.seats.items }
    requires terms { IfSome sitting.server (λ server. terms_of server ≡ terms_by rights
        hall.now.most) }
    ensures { HasSat K.kept (terms_by rights hall.now.most) hall.now.names sitting.server
        sitting.seats.items
        result.server result.seats.items }
{
    let Sitting { server, seats } = sitting;
    match server {
        None => Sitting {
            server: None,
            seats,
        },
        Some(server) => hold_at(rt, hall, maker, news, server, seats),
    }
}

/// The same where there is a server.
fn hold_at<R, P: Probe, K: Keep, M: Maker<P>>(
    rt: &R,
    hall: &Hall<P, K>,
    maker: &M,
    news: &News,
    mut server: ControlServer,
    mut seats: Vec<Seat<P, K>>,
) -> Sitting<P, K>
where
    R: Wait + Clock,
    requires seats { All (IsOf hall.now) seats.items }
    ensures { HasSat K.kept (terms_of server) hall.now.names (Some server) seats.items result.server
        result.seats.items }
{
    let context = Context {
        rt,
        hall,
        maker,
        news,
    };
    news.begin_thread();
    server.run(&context, seats.as_mut_slice());
    Sitting {
        server: Some(server),
        seats,
    }
}
