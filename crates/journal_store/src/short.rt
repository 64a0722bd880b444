//! The entries that make a registry what a digest says: each is of seat 0, and is answered with `Done`.

ghost use Rattle.std.specs.Prelude.{◌≡◌, ◌≤◌, ◌∷◌, ◌++◌, replicate, OnOk};
ghost use Rattle.probe_core.specs.declared.rule.Rule.TheVariants as rules;
ghost use Rattle.desk_core.specs.Past.{past};
ghost use Rattle.journal_store.specs.Short.{AreFindings, CanStand, IsBrought, IsMemory, done};

use crate::known::Known;
use desk_core::{Call, Entry, Finding, Reply, Setting, Slot};
use probe_core::{Rule, Start};
use std::alloc::AllocError;

/// Adds an entry.
pub(crate) fn push(entries: &mut Vec<Entry>, call: Call) -> Result<(), AllocError>
    ensures { OnOk result (past entries.new.items ≡ done call ∷ past entries.old.items) }
{
    entries.push(Entry {
        seat: 0,
        call,
        reply: Reply::Done,
    })?;
    Ok(())
}

/// Registers the slot as what is known of it, with the fewest events.
pub(crate) fn push_known(
    entries: &mut Vec<Entry>,
    slot: Slot,
    known: &Known,
) -> Result<(), AllocError>
    ensures { CanStand slot known.now → OnOk result (IsBrought slot known.now
        (done (Call.Register slot known.now.0) ∷ past entries.old.items)
        (past entries.new.items)) }
{
    push(entries, Call::Register(slot, known.rule()))?;
    push_events(entries, slot, known)
}

/// Brings a slot that is registered by its rule and heard nothing the events that give it its memory.
fn push_events(entries: &mut Vec<Entry>, slot: Slot, known: &Known) -> Result<(), AllocError>
    ensures { CanStand slot known.now
        → OnOk result (IsBrought slot known.now (past entries.old.items) (past entries.new.items)) }
{
    match known.rule() {
        Rule::Threshold(fall, rise, start) => {
            let (fails, passes) = findings(fall, rise, start, known.memory());
            push_findings(entries, slot, Finding::Fail, fails)?;
            push_findings(entries, slot, Finding::Pass, passes)
        }
        Rule::Manual => {
            if known.memory() == 1 {
                push(entries, Call::Set(slot, Setting::Down))
            } else {
                Ok(())
            }
        }
        Rule::Depends(_) => Ok(()),
    }
}

/// Adds so many of the same finding.
fn push_findings(
    entries: &mut Vec<Entry>,
    slot: Slot,
    finding: Finding,
    count: u64,
) -> Result<(), AllocError>
    ensures { OnOk result (past entries.new.items
        ≡ replicate count (done (Call.Observe slot finding)) ++ past entries.old.items) }
{
    for _ in 0..count {
        push(entries, Call::Observe(slot, finding))?;
    }
    Ok(())
}

/// How many failures, and then how many passes, give a threshold that heard nothing this memory.
fn findings(fall: u32, rise: u32, start: Start, memory: u64) -> (u64, u64)
    ensures { 1 ≤ fall → 1 ≤ rise → IsMemory (rules.Threshold fall rise start) memory
        → AreFindings fall rise memory start result.0 result.1 }
{
    let (fall, rise) = (u64::from(fall), u64::from(rise));
    if memory == fall + rise {
        (0, 0)
    } else if memory == 0 {
        match start {
            Start::Up => (0, 0),
            Start::Unknown => (0, 1),
        }
    } else if memory < fall {
        (memory, 0)
    } else {
        (fall, memory - fall)
    }
}
