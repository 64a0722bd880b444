//! How a service is brought down that was not heard from.

ghost use Rattle.std.specs.Prelude.{◌≡◌};
ghost use Rattle.hall.specs.Seats.{IsOf};
ghost use Rattle.watchdog.specs.Falling.{HasFallen};

use crate::scribe::Scribe;
use desk_core::{Keep, Slot};
use hall::{Hall, Seat};
use probe_core::Probe;
use std::sync::Wait;

/// What came of bringing a service down.
#[derive(Clone, Copy)]
pub struct Fall {
    /// Whether a fail was made.
    pub made: bool,
    /// Whether they changed what is shown of a service.
    pub shows: bool,
    /// Whether one was refused, so that the service may not be down.
    pub is_refused: bool,
}

/// Makes fails of a service of which nothing was heard from this place of the journal on, until none is to be made any more or one is
/// refused. A threshold takes as many of them as its `fall`, at most 1,000.
pub(crate) fn bring_down<R: Wait, P: Probe, K: Keep>(
    rt: &R,
    hall: &Hall<P, K>,
    seat: &mut Seat<P, K>,
    slot: Slot,
    from: u64,
    scribe: Scribe<'_>,
) -> Fall
    requires ours { IsOf hall.now seat.old }
    ensures fell { HasFallen K.kept slot from seat.old seat.new result.made result.is_refused }
    ensures ours { IsOf hall.now seat.new }
{
    let mut fall = Fall {
        made: false,
        shows: false,
        is_refused: false,
    };
    for _ in rt.forever() {
        let Some(effect) = hall.fail_unheard(rt, seat, slot, from) else {
            return fall;
        };
        if effect.result.is_err() {
            scribe.note_refusal(effect.result);
            fall.is_refused = true;
            return fall;
        }
        scribe.note(effect.at);
        fall.made = true;
        fall.shows |= effect.shows;
    }
    unreachable!()
}
