ghost use Rattle.std.specs.Prelude.{◌≡◌};
ghost use Rattle.desk_core.specs.Order.{ordered};

use crate::call::Call;
use crate::catalogue::Catalogue;
use crate::made::Effect;
use crate::order::Order;
use crate::refusal::Refusal;
use crate::reply::Reply;
use probe_core::Probe;

/// Whoever can be asked for changes: a registry of one thread, or one that threads share.
///
/// `names` are those of its catalogue, `seen` is the history that it has seen, the newest entry first, and `answers` says how it comes
/// out of a change with a reply or a refusal.
pub trait Registrar<P: Probe> {
    ghost use Rattle.std.specs.Prelude.{◌≡◌, ◌-◌, ◌↔◌, ℕ, List, Option, Result, Some, IfSome, IfOk, IfErr, IsTrue, length};
    ghost use Rattle.std.specs.Option.{option_map};
    ghost use Rattle.desk_core.specs.declared.call.Call.{Call};
    ghost use Rattle.desk_core.specs.declared.entry.Entry.{Entry};
    ghost use Rattle.desk_core.specs.declared.refusal.Refusal.{Refusal};
    ghost use Rattle.desk_core.specs.declared.reply.Reply.{Reply};
    ghost use Rattle.desk_core.specs.Changes.{Shows};
    ghost use Rattle.desk_core.specs.Mutation.{rule_of};
    ghost use Rattle.desk_core.specs.Refusal.{refused_effect};
    ghost use Rattle.desk_core.specs.Order.{IsListed};

    ghost names: { Self → List (List ℕ) };

    ghost seen: { Self → List Entry };

    ghost answers: { Self → Self → Option Call → Result Reply Refusal → Type 0 };

    fn catalogue(&self) -> &Catalogue
        ensures { result.now ≡ names self.now };

    /// Makes the change, with the probe that it registers if it registers one. There is no call where its name is not listed.
    fn change(&mut self, call: Option<Call>, probe: Option<P>) -> Effect
        requires listed { IfSome call (IsListed (names self.old)) }
        requires ruled { IfSome call (λ c. option_map P.rule probe ≡ rule_of c) }
        ensures names { names self.new ≡ names self.old }
        ensures answered { answers self.old self.new call result.result }
        ensures shows { IfOk result.result (λ reply.
            IsTrue result.shows ↔ Shows (seen self.new)) }
        ensures refused { IfErr result.result (λ refusal. result ≡ refused_effect refusal) }
        ensures placed { IfOk result.result (λ reply.
            result.at ≡ Some (length (seen self.new) - 1)) };
}

/// Makes the change that an order asks for.
pub fn carry_out<P: Probe, D: Registrar<P>>(
    registrar: &mut D,
    order: &Order,
) -> Result<Reply, Refusal>
    ensures names { D.names registrar.new ≡ D.names registrar.old }
    ensures answered { D.answers registrar.old registrar.new
        (ordered (D.names registrar.old) order.now) result }
{
    let call = order.call(registrar.catalogue());
    registrar.change(call, None).result
}
