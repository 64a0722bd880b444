use crate::steps::GateSeat;
use desk_core::{Keep, KeepAll};
use probe_core::Probe;
use std::marker::Model;

/// What a seat had seen when the note was written. It may be sent to another thread, whose seat then sees that too.
#[derive(Drop)]
pub struct Note<P: Probe, K: Keep = KeepAll> {
    pub(crate) place: GateSeat<P, K>,
}

impl<P: Probe, K: Keep> Model for Note<P, K> {
    ghost use Rattle.std.specs.Prelude.{◌≡◌, []};
    ghost use Rattle.hall.specs.Seats.{NoteState};
    ghost use Rattle.hall.specs.Views.{note_view};

    ghost Value = { NoteState };

    ghost view = { λ note. record { table = note.place.table_id; seen = note.place.me.0.told } };

    ghost invariant = { λ note. note.place.me ≡ (note_view note.place.me.0.told, []) };
}
