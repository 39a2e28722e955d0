//! Runs of netlists over bodies as trees and an agenda over a map, as the program makes them over
//! codes and a wheel.

ghost use Rattle.std.specs.Prelude.{◌≡◌};
ghost use Rattle.byte_streams.specs.Written.{IsIntact};
ghost use Rattle.rtl_stim.specs.Ports.{HasOwnPorts, inputs_of};

use crate::texts::push_count;
use byte_streams::{Sink, Unwatched, push_text};
use rtl_check::stored;
use rtl_eval::trees;
use rtl_kernel::Pick;
use rtl_net::Net;
use rtl_run::{MachineFault, admit};
use rtl_simulation::{RunFault, Simulation, Summary};
use rtl_stim::{MapAgenda, StimFault, Stimulus};
use std::alloc::Global;

/// A run of a netlist.
#[derive(Drop)]
pub struct Run<'a> {
    pub stimulus: &'a [u8],
    /// Whether it is by events alone, without the checker.
    pub is_event: bool,
}

/// The statuses with which the program ends (docs/FORMATS.md).
const DONE: u8 = 0;

const REJECTED: u8 = 4;

const STIMULUS: u8 = 5;

const UNSETTLED: u8 = 6;

const MEMORY: u8 = 7;

const FAILED: u8 = 8;

/// The most delta cycles of a moment by events.
const MAX_DELTAS: u32 = 1000;

/// Runs a netlist, and gives the status. It is told on `err` how a simulation ended, and nothing of
/// a refusal.
pub fn run_by_trees<P: Pick, O: Sink, E: Sink>(
    alloc: Global,
    net: &Net,
    run: &Run<'_>,
    pick: &mut P,
    out: &mut O,
    err: &mut E,
) -> u8
    requires ports { HasOwnPorts net.now }
    requires intact { IsIntact (O.state out.old) }
{
    if run.is_event {
        by_events(alloc, net, run.stimulus, pick, out, err)
    } else {
        as_machine(alloc, net, run.stimulus, pick, out, err)
    }
}

/// Runs a netlist that the checker accepts, under a stimulus without a race.
fn as_machine<P: Pick, O: Sink, E: Sink>(
    alloc: Global,
    net: &Net,
    stimulus: &[u8],
    pick: &mut P,
    out: &mut O,
    err: &mut E,
) -> u8
    requires ports { HasOwnPorts net.now }
    requires intact { IsIntact (O.state out.old) }
{
    match admit(alloc, net, stimulus) {
        Ok(admitted) => {
            let (stimulus, limit) = (&admitted.stimulus, admitted.bound);
            ended(err, simulate(alloc, net, stimulus, limit, pick, out))
        }
        Err(MachineFault::Rejected(_)) => REJECTED,
        Err(MachineFault::Stim(_)) => STIMULUS,
        Err(MachineFault::Memory) => MEMORY,
        Err(MachineFault::Output) => FAILED,
    }
}

/// Runs a netlist without a stored variable.
fn by_events<P: Pick, O: Sink, E: Sink>(
    alloc: Global,
    net: &Net,
    stimulus: &[u8],
    pick: &mut P,
    out: &mut O,
    err: &mut E,
) -> u8
    requires ports { HasOwnPorts net.now }
    requires intact { IsIntact (O.state out.old) }
{
    let Ok(stored) = stored(alloc, net) else {
        return MEMORY;
    };
    if !stored.is_empty() {
        return REJECTED;
    }
    match Stimulus::read(alloc, net, stimulus) {
        Ok(stimulus) => ended(err, simulate(alloc, net, &stimulus, MAX_DELTAS, pick, out)),
        Err(StimFault::NoMemory) => MEMORY,
        Err(_) => STIMULUS,
    }
}

/// The status of a simulation, which is told as the program tells it.
fn ended<E: Sink>(err: &mut E, end: Result<Summary, RunFault>) -> u8 {
    let status = match end {
        Ok(summary) => {
            push_count(err, "moments ", summary.moments);
            push_count(err, " deltas ", summary.most_deltas as u64);
            DONE
        }
        Err(RunFault::NoSettling { time }) => {
            push_count(err, "rtlsim: settle 1 NoSettling ", time);
            UNSETTLED
        }
        Err(RunFault::Memory) => {
            push_text(err, b"rtlsim: memory");
            MEMORY
        }
        Err(RunFault::Output) => {
            push_text(err, b"rtlsim: output");
            FAILED
        }
    };
    push_text(err, b"\n");
    status
}

/// Simulates a netlist under a stimulus, with so many delta cycles at most in each moment, over
/// trees and a map.
fn simulate<P: Pick, W: Sink>(
    alloc: Global,
    net: &Net,
    stimulus: &Stimulus,
    limit: u32,
    pick: &mut P,
    trace: &mut W,
) -> Result<Summary, RunFault>
    requires ports { HasOwnPorts net.now }
    requires inputs { stimulus.now.inputs ≡ inputs_of net.now }
    requires intact { IsIntact (W.state trace.old) }
{
    let trees = trees(alloc, net)?;
    let simulation = Simulation {
        shown: net.shown(),
        bodies: &trees,
        stimulus,
        limit,
    };
    simulation.run_watched(
        alloc,
        &mut MapAgenda::new(alloc),
        pick,
        &mut Unwatched,
        trace,
    )
}
