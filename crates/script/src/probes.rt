ghost use Rattle.std.specs.Prelude.{◌≡◌, ◌++◌, List, map, All, IfOk, IfSome};
ghost use Rattle.std.specs.Option.{option_map, option_to_list};
ghost use Rattle.std.specs.Vec.Iter.{into_iter_items};
ghost use Rattle.probe_core.specs.declared.rule.Rule.{Rule};
ghost use Rattle.probe_core.specs.Rule.{opening_memory};
ghost use Rattle.script.specs.Rules.{rule_in, rules_in};

use crate::line::Line;
use probe_core::{Maker, Probe};
use std::alloc::{AllocError, Global};
use std::vec::IntoIter;

/// A probe for the line, if it registers one.
pub fn probe_for<P: Probe, M: Maker<P>>(maker: &M, line: &Line) -> Result<Option<P>, AllocError>
    ensures rule { IfOk result (λ probe. option_map P.rule probe ≡ rule_in line.now) }
    ensures memory { IfOk result (λ probe. IfSome probe (λ one.
        P.memory one ≡ opening_memory (P.rule one))) }
{
    match line.rule() {
        Some(rule) => Ok(Some(maker.make(rule)?)),
        None => Ok(None),
    }
}

/// A probe for each of the lines that register one, in their order.
pub fn probes_for<P: Probe, M: Maker<P>>(
    alloc: Global,
    maker: &M,
    lines: &[Line],
) -> Result<Vec<P>, AllocError>
    ensures rules { IfOk result (λ probes. map P.rule probes.items ≡ rules_in lines.now) }
    ensures memories { IfOk result (λ probes.
        All (λ probe. P.memory probe ≡ opening_memory (P.rule probe)) probes.items) }
{
    let mut probes = Vec::new(alloc);
    for line in lines {
        if let Some(rule) = line.rule() {
            probes.push(maker.make(rule)?)?;
        }
    }
    Ok(probes)
}

/// The next probe, where the line registers one.
pub(crate) fn probe_of<P: Probe>(line: &Line, probes: &mut IntoIter<P>) -> Option<P>
    requires handed_in { (others : List Rule)
        × (map P.rule (into_iter_items probes.old) ≡ option_to_list (rule_in line.now) ++ others) }
    ensures ruled { option_map P.rule result ≡ rule_in line.now }
    ensures left { map P.rule (into_iter_items probes.old)
        ≡ option_to_list (rule_in line.now) ++ map P.rule (into_iter_items probes.new) }
{
    match line.rule() {
        Some(_) => probes.next(),
        None => None,
    }
}
