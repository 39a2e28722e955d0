//! The simulation of an accepted netlist by events, under a text.

ghost use Rattle.std.specs.Prelude.{IfErr, IfOk, map};
ghost use Rattle.rtl_net.specs.Nets.{signal_view};
ghost use Rattle.rtl_stim.specs.Ports.{HasOwnPorts};
ghost use Rattle.byte_streams.specs.Written.{IsIntact};
ghost use Rattle.rtl_run.specs.Beginnings.{IsReady};
ghost use Rattle.rtl_run.specs.Traced.{Traces};
ghost use Rattle.rtl_run.specs.Answered.{Admits, RunsNet};
ghost use Rattle.rtl_run.specs.Watched.{IsToldRun, IsToldRunFirst, WasToldRun};

use crate::fault::{MachineFault, settled_fault};
use crate::laws::accepted_nets_are_synchronous;
use crate::prepared::{Prepared, prepare};
use byte_streams::{Sink, Watch};
use rtl_eval::Exec;
use rtl_kernel::Pick;
use rtl_model::simulation_laws;
use rtl_net::Shown;
use rtl_simulation::{Simulation, Summary};
use rtl_stim::Agenda;
use std::alloc::Global;

/// Simulates a netlist under the stimulus that a text says, and writes the trace of the signals
/// that are shown: that of the synchronous machine's run, whatever order of processes `pick` picks.
/// Each moment settles within the bound of the checker's report. Nothing is written before the
/// checker, the stimulus and the search for a race have passed. The watch is told the machine's
/// valuation at each moment, once the time of the next one is known, until which it stands.
///
/// It takes the checker's memory, the stimulus's and the simulation's.
///
/// # Errors
///
/// `Rejected` with what the checker found; then `Stim` with the first bad line of the text, or with
/// the earliest race. `Memory` and `Output` leave a beginning of the trace.
pub fn run_watched<P: Pick, V: Watch, W: Sink>(
    alloc: Global,
    shown: Shown<'_>,
    text: &[u8],
    pick: &mut P,
    watch: &mut V,
    out: &mut W,
) -> Result<Summary, MachineFault>
    requires ports { HasOwnPorts shown.net.now }
    requires intact { IsIntact (W.state out.old) }
    ensures runs { RunsNet shown.entry.net.now (map signal_view shown.entry.signals.now) text.now
        (W.state out.old) (W.state out.new) result }
    ensures told { IfOk result (λ _. Admits shown.entry.net.now text.now
        (λ s bound. IsToldRun shown.entry.net.now s bound (λ stands. V.told watch.old stands watch.new))) }
    ensures failing { IfErr result (λ _. WasToldRun shown.entry.net.now text.now
        (λ stands. V.told watch.old stands watch.new)) }
{
    shown.net.is_elaborated();
    let Prepared {
        admitted,
        bodies,
        mut agenda,
    } = prepare(alloc, shown.net, text)?;
    let simulation = Simulation {
        shown,
        bodies: &bodies,
        stimulus: &admitted.stimulus,
        limit: admitted.bound,
    };
    trace(alloc, &simulation, &mut agenda, pick, watch, out)
}

/// Simulates an accepted netlist under a stimulus without a race, with the bound of its report as
/// the limit.
fn trace<E: Exec, A: Agenda, P: Pick, V: Watch, W: Sink>(
    alloc: Global,
    simulation: &Simulation<'_, E>,
    agenda: &mut A,
    pick: &mut P,
    watch: &mut V,
    out: &mut W,
) -> Result<Summary, MachineFault>
    requires { IsReady E.process E.types simulation.now.shown.net.now simulation.now.bodies.now
        simulation.now.stimulus.now simulation.now.limit (A.state agenda.old) (W.state out.old) }
    ensures traces { Traces simulation.now.shown.net.now (map signal_view simulation.now.shown.signals.now)
        simulation.now.stimulus.now simulation.now.limit (W.state out.old) (W.state out.new) result }
    ensures told { IfOk result (λ _. IsToldRun simulation.now.shown.net.now simulation.now.stimulus.now
        simulation.now.limit (λ stands. V.told watch.old stands watch.new)) }
    ensures failing { IfErr result (λ _. IsToldRunFirst simulation.now.shown.net.now simulation.now.stimulus.now
        simulation.now.limit (λ stands. V.told watch.old stands watch.new)) }
{
    accepted_nets_are_synchronous();
    simulation_laws::one_greatest_count();
    simulation.shown.net.is_elaborated();
    match simulation.run_watched(alloc, agenda, pick, watch, out) {
        Ok(summary) => Ok(summary),
        Err(fault) => Err(settled_fault(fault)),
    }
}
