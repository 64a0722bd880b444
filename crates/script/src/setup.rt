ghost use Rattle.std.specs.Prelude.{◌≡◌, IfOk, OnErr};
ghost use Rattle.desk_core.specs.Mutation.{AreAnswered};
ghost use Rattle.script.specs.Change.{line_changes};

use crate::line::Line;
use crate::probes::{probe_of, probes_for};
use desk_core::{Refusal, Registrar, Reply};
use probe_core::{Maker, Probe};
use std::alloc::{AllocError, Global};

/// Makes the changes that the lines ask for, in their order, and tells what came of each. Lines that ask for none are passed over.
///
/// All probes are made, and room for all results is taken, before the first change.
pub fn set_up<P: Probe, D: Registrar<P>, M: Maker<P>>(
    alloc: Global,
    registrar: &mut D,
    lines: &[Line],
    maker: &M,
) -> Result<Vec<Result<Reply, Refusal>>, AllocError>
    ensures answered { IfOk result (λ results.
        AreAnswered D.answers registrar.old registrar.new
        (line_changes (D.names registrar.old) lines.now) results.items) }
    ensures names { D.names registrar.new ≡ D.names registrar.old }
    ensures unmet { OnErr result (registrar.new ≡ registrar.old) }
{
    let mut probes = probes_for(alloc, maker, lines)?.into_iter();
    let mut results = Vec::with_capacity(alloc, lines.len())?;
    for line in lines {
        let probe = probe_of(line, &mut probes);
        if let Some(call) = line.call(registrar.catalogue()) {
            results.push(registrar.change(call, probe).result).unwrap();
        }
    }
    Ok(results)
}
