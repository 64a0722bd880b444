use crate::call::{Call, Finding, Setting};
use crate::catalogue::Catalogue;
use crate::name::Name;

/// A change that a server takes while it runs, with the name of its service.
#[derive(Drop)]
pub enum Order {
    Observe(Name, Finding),
    Set(Name, Setting),
    Shutdown,
    Resume,
}

impl Order {
    ghost use Rattle.std.specs.Prelude.{◌≡◌, None, IfSome};
    ghost use Rattle.desk_core.specs.Mutation.{rule_of};
    ghost use Rattle.desk_core.specs.Order.{ordered, IsListed};

    /// The change that is asked for, if its name is listed.
    pub fn call(&self, catalogue: &Catalogue) -> Option<Call>
        ensures call { result ≡ ordered catalogue.now self.now }
        ensures listed { IfSome result (IsListed catalogue.now) }
        ensures registers_none { IfSome result (λ call. rule_of call ≡ None) }
    {
        match self {
            Order::Observe(name, finding) => {
                let slot = catalogue.slot(name.as_str())?;
                Some(Call::Observe(slot, *finding))
            }
            Order::Set(name, setting) => {
                let slot = catalogue.slot(name.as_str())?;
                Some(Call::Set(slot, *setting))
            }
            Order::Shutdown => Some(Call::Shutdown),
            Order::Resume => Some(Call::Resume),
        }
    }
}
