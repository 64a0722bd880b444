//! The rule of a hall's table, and its steps. Their meaning stands in specs/.

use crate::view::{HallLimits, View};
use atomic_table::{Join, Play, Split, TableRule};
use desk_core::{Desk, Keep};
use probe_core::Probe;
use std::alloc::Global;
use std::marker::{Brand, PhantomData};

pub(crate) type Table<P, K> = atomic_table::Table<
    Option<Desk<P, K>>,
    View,
    HallLimits,
    Gate,
    Global,
>;

pub(crate) type Shared<P, K> = atomic_table::Shared<Option<Desk<P, K>>, View, HallLimits, Gate>;

pub(crate) type GateSeat<P, K> = atomic_table::Seat<Option<Desk<P, K>>, View>;

/// The rule that every step keeps.
pub struct Gate;

impl<P: Probe, K: Keep> TableRule<Option<Desk<P, K>>, View, HallLimits> for Gate {
    ghost use Rattle.hall.specs.Gates.{IsGated};
    ghost use Rattle.hall.specs.Views.{dealer};

    ghost holds = { IsGated };

    ghost first = { λ key. dealer 0 key.most };
}

/// Draws a ticket.
pub struct Draw;

impl<P: Probe, K: Keep> Play<Option<Desk<P, K>>, View> for Draw {
    ghost use Rattle.hall.specs.Steps.{Drawn};

    ghost then = { λ step. Drawn };
}

/// Looks at the ticket served.
pub struct Turn;

impl<P: Probe, K: Keep> Play<Option<Desk<P, K>>, View> for Turn {
    ghost use Rattle.hall.specs.Steps.{Turned};

    ghost then = { λ step. Turned };
}

/// Reads the board.
pub struct Look;

impl<P: Probe, K: Keep> Play<Option<Desk<P, K>>, View> for Look {
    ghost use Rattle.hall.specs.Steps.{Looked};

    ghost then = { λ step. Looked };
}

/// Which entry a commit appends. The caller of a commit picks it.
pub trait Making {
    ghost use Rattle.desk_core.specs.declared.entry.Entry.{Entry};

    ghost made: { Entry };
}

/// Each call of a commit brings its own entry; this one stands here only as the type needs one.
impl Making for Brand {
    ghost use Rattle.desk_core.specs.declared.call.Call.TheVariants.{Resume};
    ghost use Rattle.desk_core.specs.declared.reply.Reply.TheVariants.{Done};

    ghost made = { record { seat = 0; call = Resume; reply = Done } };
}

/// Stores the board with one more entry.
pub struct Commit<J> {
    making: PhantomData<J>,
}

impl<P: Probe, K: Keep, J: Making> Play<Option<Desk<P, K>>, View> for Commit<J> {
    ghost use Rattle.hall.specs.Steps.{Committed};

    ghost then = { λ step. Committed J.made };
}

/// Passes the turn.
pub struct Pass;

impl<P: Probe, K: Keep> Play<Option<Desk<P, K>>, View> for Pass {
    ghost use Rattle.hall.specs.Steps.{Passed};

    ghost then = { λ step. Passed };
}

/// Deals out the next seat.
pub struct Deal;

impl Split<View> for Deal {
    ghost use Rattle.std.specs.Prelude.{◌+◌, []};
    ghost use Rattle.hall.specs.Views.{dealer, seat_view};

    ghost left = { λ view. dealer (view.dealt + 1) view.most };

    ghost right = { λ view. seat_view view.dealt [] view.most };
}

/// Writes a note of what a seat has seen.
pub struct Tell;

impl Split<View> for Tell {
    ghost use Rattle.hall.specs.Views.{note_view, seen_of};

    ghost left = { λ view. view };

    ghost right = { λ view. note_view (seen_of view.seats) };
}

/// Takes a note in.
pub struct Meet;

impl Join<View> for Meet {
    ghost use Rattle.std.specs.Prelude.{[]};
    ghost use Rattle.hall.specs.Views.{note_view, after_note};

    ghost both = { after_note };

    ghost spent = { note_view [] };
}

/// Takes another view's seats in.
pub struct Gather;

impl Join<View> for Gather {
    ghost use Rattle.std.specs.Prelude.{[]};
    ghost use Rattle.hall.specs.Views.{note_view, with_seats};

    ghost both = { with_seats };

    ghost spent = { note_view [] };
}
