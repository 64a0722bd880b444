ghost use Rattle.std.specs.Prelude.{◌≡◌, ◌↔◌, true};
ghost use Rattle.desk_core.specs.Present.{is_lawful};
ghost use Rattle.desk_core.specs.Legal.{IsLawfulCall};

use crate::call::Call;
use crate::slot::Slot;
use probe_core::Rule;

pub(crate) fn is_lawful_call(call: &Call) -> bool
    ensures { (result ≡ true) ↔ IsLawfulCall call.now }
{
    match call {
        Call::Register(slot, rule) => is_lawful(*slot, *rule),
        Call::Retire(_) | Call::Observe(..) | Call::Set(..) | Call::Shutdown | Call::Resume => true,
    }
}

fn is_lawful(slot: Slot, rule: Rule) -> bool
    ensures { result ≡ is_lawful slot rule }
{
    rule.is_in_range() && u32::from(rule.relied_on()) < 1 << slot.number()
}
