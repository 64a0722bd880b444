//! What one change makes of the probes.

ghost use Rattle.std.specs.Prelude.{◌≡◌, ℕ, None, length, slice_index_or, unwrap_or};
ghost use Rattle.desk_core.specs.Shut.{says_shut};
ghost use Rattle.desk_core.specs.Slots.{noted, was_reset};
ghost use Rattle.journal_store.specs.Next.{probe_next};

use crate::known::Known;
use desk_core::Call;
use probe_core::Event;

/// What a change makes of the probes of all slots.
pub(crate) fn note_call(slots: &mut [Option<Known>], is_shut: bool, call: &Call)
    requires { length slots.old ≡ 16 }
    ensures { (i : ℕ) → slice_index_or slots.new i None
        ≡ probe_next is_shut i call.now (slice_index_or slots.old i None) }
{
    match *call {
        Call::Register(slot, rule) => slots[usize::from(slot.number())] = Some(Known::new(rule)),
        Call::Retire(slot) => slots[usize::from(slot.number())] = None,
        Call::Observe(slot, finding) => {
            if !is_shut {
                hear(&mut slots[usize::from(slot.number())], finding.event());
            }
        }
        Call::Set(slot, setting) => {
            if !is_shut {
                hear(&mut slots[usize::from(slot.number())], setting.event());
            }
        }
        Call::Shutdown => {}
        Call::Resume => reset_all(slots),
    }
}

fn hear(place: &mut Option<Known>, event: Event)
    ensures { place.new ≡ noted event place.old }
{
    if let Some(known) = place {
        known.note(event);
    }
}

/// Takes all services back to where they heard nothing.
fn reset_all(slots: &mut [Option<Known>])
    ensures { (i : ℕ) → slice_index_or slots.new i None
        ≡ was_reset (slice_index_or slots.old i None) }
{
    for place in slots.iter_mut() {
        reset(place);
    }
}

fn reset(place: &mut Option<Known>)
    ensures { place.new ≡ was_reset place.old }
{
    if let Some(known) = place {
        known.reset();
    }
}

/// Whether the server is shut down after the change.
pub(crate) fn shut_after(is_shut: bool, call: &Call) -> bool
    ensures { result ≡ unwrap_or (says_shut call.now) is_shut }
{
    match call {
        Call::Shutdown => true,
        Call::Resume => false,
        Call::Register(..) | Call::Retire(_) | Call::Observe(..) | Call::Set(..) => is_shut,
    }
}
