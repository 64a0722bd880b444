ghost use Rattle.std.specs.Prelude.{◌≡◌, List, Option, length, vec_len, Err, IfSome, IfNone, IfOk, IfErr};
ghost use Rattle.std.specs.List.{sum_by};
ghost use Rattle.desk_core.specs.declared.call.Call.{Call};
ghost use Rattle.desk_core.specs.Past.{past};
ghost use Rattle.hall.specs.Seats.{own_calls, new_seats};
ghost use Rattle.hall.specs.CarriedOut.{replied};
ghost use Rattle.server.specs.Setup.{AreSetUp};
ghost use Rattle.live_run.specs.Loops.{AllEndedEmpty};
ghost use Rattle.live_run.specs.WholeRun.{AreNone, HasRun, HasRunLoops, HaveEnded, HaveTerms, IsLaterFault, loops_fault};

use crate::counters::Counters;
use crate::loops_fault::LoopsFault;
use crate::ran::{Ran, SessionPlaces};
use crate::seating::Seating;
use desk_core::Keep;
use live_server::{EventServer, News};
use probe_core::{Maker, Probe};
use server::SetUpHall;
use std::alloc::Global;
use std::sync::{Arc, Wait};
use std::thread::Threads;
use std::time::Clock;

/// Serves by loops over a hall that is set up, beside sessions where there are places for them, until `news` tells that all is to end
/// and no connection is left, and then closes the hall.
///
/// The places and the watchdog have threads of their own. Where one of these can't be made all is to end, and `news` tells why.
///
/// The first seat has set the hall up, and the watchdog makes its fails by it. Those behind it are the loops', in their order; behind these 32 are the control place's, and the
/// others the report place's. Plain requests are told of the server what `counters` read. Sessions make their changes by them, with probes that `maker` gives.
pub fn run_live<R, P: Probe + Send, K: Keep + Send, M>(
    rt: &R,
    alloc: Global,
    made: SetUpHall<P, K>,
    servers: Vec<EventServer>,
    places: SessionPlaces,
    maker: &M,
    counters: &Arc<Counters>,
    news: &News,
) -> Result<Ran<P, K>, LoopsFault>
where
    R: Wait + Threads + Clock + Sync,
    M: Maker<P> + Sync,
    requires terms { HaveTerms made.hall.most places }
    // Too few loops or seats is told first. That memory ran out where it says so, tests show.
    ensures refused { IfSome (loops_fault (vec_len servers) (length made.seats))
        (λ fault. result ≡ Err fault) }
    ensures failed { IfNone (loops_fault (vec_len servers) (length made.seats)) (IfErr result
        (IsLaterFault made)) }
    // Each loop has served what it took in, and holds no connection any more.
    ensures servers { IfOk result (λ ran. AllEndedEmpty servers.items ran.servers.items) }

    // The history that is left is one legal history of what all seats saw and made: the loops have made nothing, and sessions what their
    // lines asked for, those of the report place findings alone. What a seat has seen outlives a crash.
    ensures ran { IfOk result (λ ran. HasRun K.kept places ran.places made.hall (vec_len servers)
        made.seats ran.desk) }
    ensures most { IfOk result (λ ran. ran.desk.max_entries ≡ made.hall.most) }
    // The loops over sessions come back, so that their caller can take their sockets' files away, and hold none any more.
    ensures sessions { IfOk result (λ ran. HaveEnded places ran.places) }

    // Without sessions nobody has made changes since the setup.
    ensures alone { AreNone places → IfOk result (λ ran. HasRunLoops made.hall
        (vec_len servers) made.seats (past ran.desk.journal)) }
    ensures entries { AreNone places → IfOk result (λ ran. length ran.desk.journal ≡ sum_by
        (λ seat. length (own_calls seat)) made.seats) }
    // Where the first seat alone has made changes, as `hall_of` leaves it, they are the history.
    ensures setup { AreNone places → IfOk result (λ ran. (calls : List (Option Call))
        → AreSetUp calls made.results (new_seats made.hall.table made.hall.most made.hall.seats)
        made.seats
        → ran.desk.journal ≡ replied 0 calls made.results) }
{
    news.await_threads(places.threads());
    let (hall, seats) = made.into_hall();
    match Seating::new(alloc, servers, seats, counters) {
        Ok(seating) => {
            let back = seating.serve(rt, &hall, places, maker, news);
            back.close(hall)
        }
        Err(fault) => Err(fault),
    }
}
