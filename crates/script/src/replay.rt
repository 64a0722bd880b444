ghost use Rattle.std.specs.Prelude.{◌≡◌, length, map, IfOk};
ghost use Rattle.std.specs.Vec.Iter.{into_iter_items};
ghost use Rattle.script.specs.Run.{IsScriptRun, ScriptRun};
ghost use Rattle.script.specs.Rules.{rules_in};
ghost use Rattle.script.specs.Script.{StepsFollow};

use crate::line::Line;
use crate::probes::{probe_of, probes_for};
use crate::run::Run;
use crate::script::Script;
use probe_core::{Maker, Probe};
use std::alloc::{AllocError, Global};
use std::fmt::Write;
use std::vec::IntoIter;

/// What the lines of a script come to, each in a line of its own. All probes are made before the first line is met.
pub fn run_script<P: Probe, M: Maker<P>>(
    alloc: Global,
    script: Script,
    maker: &M,
) -> Result<Vec<u8>, AllocError>
    ensures { IfOk result (λ output. IsScriptRun script output.items) }
{
    let (catalogue, max, lines, _) = script.into_parts();
    let mut probes = probes_for(alloc, maker, &lines)?.into_iter();
    let mut run = Run::new(alloc, catalogue, max);
    meet_all(alloc, &mut run, &lines, &mut probes)
}

/// Meets the lines in their order, with the probes of those that register one.
fn meet_all<P: Probe>(
    alloc: Global,
    run: &mut Run<P>,
    lines: &[Line],
    probes: &mut IntoIter<P>,
) -> Result<Vec<u8>, AllocError>
    requires steps { StepsFollow (length run.old.watches) lines.now }
    requires ruled { map P.rule (into_iter_items probes.old) ≡ rules_in lines.now }
    ensures { IfOk result (λ output. ScriptRun run.old lines.now output.items) }
{
    let mut output = String::new(alloc);
    for line in lines {
        let probe = probe_of(line, probes);
        let outcome = run.meet(line, probe)?;
        writeln!(output, "{outcome}")?;
    }
    Ok(output.into_bytes())
}
