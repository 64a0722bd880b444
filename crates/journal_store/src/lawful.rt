//! Whether a change is legal behind a history, as a digest knows it.

ghost use Rattle.std.specs.Prelude.{◌≡◌, ◌↔◌, true, length};
ghost use Rattle.desk_core.specs.Legal.{IsLawfulCall};
ghost use Rattle.desk_core.specs.Present.{is_lawful};
ghost use Rattle.desk_core.specs.Reply.{reply_to_event};
ghost use Rattle.journal_store.specs.Next.{reply_by, rule_of};

use crate::known::Known;
use desk_core::{Call, Reply, Slot};
use probe_core::{Event, Rule};

/// Whether a rule that the change registers may be registered there.
pub(crate) fn is_lawful_call(call: &Call) -> bool
    ensures { (result ≡ true) ↔ IsLawfulCall call.now }
{
    match call {
        Call::Register(slot, rule) => is_lawful(*slot, *rule),
        Call::Retire(_) | Call::Observe(..) | Call::Set(..) | Call::Shutdown | Call::Resume => true,
    }
}

fn is_lawful(slot: Slot, rule: Rule) -> bool
    ensures { result ≡ is_lawful slot rule }
{
    rule.is_in_range() && u32::from(rule.relied_on()) < 1 << slot.number()
}

/// The reply that a change has.
pub(crate) fn reply_to(slots: &[Option<Known>], is_shut: bool, call: &Call) -> Reply
    requires { length slots.now ≡ 16 }
    ensures { result ≡ reply_by slots.now is_shut call.now }
{
    match *call {
        Call::Register(slot, _) => {
            if slots[usize::from(slot.number())].is_some() {
                Reply::Replaced
            } else {
                Reply::Done
            }
        }
        Call::Retire(slot) => {
            if slots[usize::from(slot.number())].is_some() {
                Reply::Done
            } else {
                Reply::Missing
            }
        }
        Call::Observe(slot, finding) => reply_to_event(
            &slots[usize::from(slot.number())],
            is_shut,
            finding.event(),
        ),
        Call::Set(slot, setting) => reply_to_event(
            &slots[usize::from(slot.number())],
            is_shut,
            setting.event(),
        ),
        Call::Shutdown | Call::Resume => Reply::Done,
    }
}

fn reply_to_event(place: &Option<Known>, is_shut: bool, event: Event) -> Reply
    ensures { result ≡ reply_to_event (rule_of place.now) is_shut event }
{
    match place {
        None => Reply::Missing,
        Some(known) => {
            if !known.rule().fits(event) {
                Reply::WrongKind
            } else if is_shut {
                Reply::Ignored
            } else {
                Reply::Done
            }
        }
    }
}
