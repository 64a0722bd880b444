ghost use Rattle.std.specs.Prelude.{IfErr, IfOk};
ghost use Rattle.commands.specs.Replay.{EndsReplay, Replays};

use crate::fault::Fault;
use crate::input::read;
use probe_core::{Maker, Probe};
use script::{Mode, read_script, run_script};
use std::alloc::Global;
use std::io;
use std::io::Write;

/// The command `replay`, with the probes that `maker` gives.
pub fn run<P: Probe, M: Maker<P>>(
    rt: &(impl Input + Print + AllocGlobal),
    maker: &M,
) -> Result<(), Fault> {
    let alloc = rt.alloc();
    let bytes = read(alloc, rt.reader())?;
    let output = replay(alloc, maker, &bytes)?;
    match io::writer(rt).write_all(&output) {
        Ok(()) => Ok(()),
        Err(_) => Err(Fault::Write),
    }
}

/// Runs the script, with a probe of its rule for each line that registers one.
pub fn replay<P: Probe, M: Maker<P>>(
    alloc: Global,
    maker: &M,
    bytes: &[u8],
) -> Result<Vec<u8>, Fault>
    ensures ok { IfOk result (λ output. Replays bytes.now output.items) }
    ensures fault { IfErr result (λ fault. EndsReplay bytes.now fault) }
{
    let script = read_script(alloc, bytes, Mode::Replay)?;
    Ok(run_script(alloc, script, maker)?)
}
