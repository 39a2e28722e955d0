//! The levelized simulation of a netlist under a text.

ghost use Rattle.std.specs.Prelude.{IfErr, IfOk, map};
ghost use Rattle.rtl_net.specs.Nets.{signal_view};
ghost use Rattle.rtl_stim.specs.Ports.{HasOwnPorts};
ghost use Rattle.byte_streams.specs.Written.{IsIntact};
ghost use Rattle.rtl_run.specs.Answered.{Admits};
ghost use Rattle.rtl_run.specs.Watched.{IsToldRun, WasToldRun};
ghost use Rattle.rtl_run.specs.levels.Answered.{RunsLevels};

use crate::fault::MachineFault;
use crate::level_summary::LevelSummary;
use crate::prepared::{Prepared, prepare};
use crate::stepping::Stepping;
use byte_streams::{Sink, Watch};
use rtl_net::Shown;
use std::alloc::Global;

/// Simulates a netlist under the stimulus that a text says, as the synchronous machine that it is:
/// at each moment the clocked processes that the inputs wake run, and then the combinational ones
/// in order of their nets' levels. It writes the trace that `run_watched` writes. Nothing is
/// written before the checker, the stimulus and the search for a race have passed. The watch is
/// told the machine's valuation at each moment, once the time of the next one is known, until
/// which it stands.
///
/// It takes the checker's memory, the stimulus's, the machine's, that of the names' blocks, and a
/// byte for each net.
///
/// # Errors
///
/// `Rejected` with what the checker found; then `Stim` with the first bad line of the text, or with
/// the earliest race. `Memory` and `Output` leave a beginning of the trace.
pub fn run_levels_watched<V: Watch, W: Sink>(
    alloc: Global,
    shown: Shown<'_>,
    text: &[u8],
    watch: &mut V,
    out: &mut W,
) -> Result<LevelSummary, MachineFault>
    requires ports { HasOwnPorts shown.net.now }
    requires intact { IsIntact (W.state out.old) }
    ensures runs { RunsLevels shown.entry.net.now (map signal_view shown.entry.signals.now) text.now
        (W.state out.old) (W.state out.new) result }
    ensures told { IfOk result (λ _. Admits shown.entry.net.now text.now
        (λ s bound. IsToldRun shown.entry.net.now s bound (λ stands. V.told watch.old stands watch.new))) }
    ensures failing { IfErr result (λ _. WasToldRun shown.entry.net.now text.now
        (λ stands. V.told watch.old stands watch.new)) }
{
    shown.net.is_elaborated();
    let Prepared {
        admitted,
        bodies,
        mut agenda,
    } = prepare(alloc, shown.net, text)?;
    let stepping = Stepping {
        shown,
        bodies: &bodies,
        levels: &admitted.levels,
        stimulus: &admitted.stimulus,
        bound: admitted.bound,
    };
    stepping.trace(alloc, &mut agenda, watch, out)
}
