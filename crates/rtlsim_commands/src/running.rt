//! Runs: the three ways to simulate a netlist under a stimulus.

ghost use Rattle.std.specs.Prelude.{◌≡◌, List, Result, Err, IfErr, map};
ghost use Rattle.byte_streams.specs.Written.{SinkState, IsIntact};
ghost use Rattle.rtl_net.specs.Nets.{NetlistView, SignalView, signal_view};
ghost use Rattle.rtl_stim.specs.Ports.{HasOwnPorts};
ghost use Rattle.rtlsim_command_faults.specs.declared.faults.Fault.{Fault};
ghost use Rattle.rtlsim_commands.specs.Machine.{ShowsMachine, ShowsLevels, as_answer};
ghost use Rattle.rtlsim_commands.specs.Simulated.{RefusesStored, ShowsEvents};
ghost use Rattle.rtlsim_commands.specs.Sights.{Sight, machine, events, IsOfNet, Seeing};
ghost use Rattle.rtlsim_commands.specs.Expected.{IsOfRun, machine_unexpecting, events_unexpecting};

use crate::command::Answer;
use byte_streams::{Sink, Watch};
use rtl_check::stored;
use rtl_eval_code::codes;
use rtl_kernel::Pick;
use rtl_net::{Net, Shown};
use rtl_run;
use rtl_run::{LevelSummary, MachineFault, SLOTS};
use rtl_simulation::{Simulation, Summary};
use rtl_stim::{Stimulus, Wheel};
use rtlsim_command_faults::Fault;
use std::alloc::Global;

/// The most delta cycles that a moment may take.
pub const MAX_DELTAS: u32 = 1000;

/// A run of which a trace may be shown.
pub trait Simulate {
    type Answer: Answer;

    // What it does where its trace shows these signals, between two states of the standard output.
    ghost shows: { Self → (names : List SignalView) → NetlistView → Result Self.Answer Fault
        → (old new : SinkState) → Type 0 };

    // What a watch sees of it.
    ghost sight: { Self → Sight };

    // None of its faults is one of what is expected.
    ghost unexpecting: { (run : Self) (names : List SignalView) (net : NetlistView) (fault : Fault)
        (old new : SinkState) → Self.shows run names net (Err fault) old new
        → IsOfRun fault };

    /// Does it on a netlist, and lets this watch look on: writes the trace of the signals that are
    /// shown to `out`.
    fn simulate<V: Watch, S: Sink>(
        &mut self,
        alloc: Global,
        shown: Shown<'_>,
        watch: &mut V,
        out: &mut S,
    ) -> Result<Self::Answer, Fault>
        requires ports { HasOwnPorts shown.net.now }
        requires intact { IsIntact (S.state out.old) }
        ensures does { Seeing (sight self.old) (shows self.old (map signal_view shown.entry.signals.now))
            (λ stands. V.told watch.old stands watch.new) shown.entry.net.now result
            (S.state out.old) (S.state out.new) }
        ensures faults { IfErr result (IsOfNet (sight self.old)
            (λ stands before now at. V.stuck watch.old stands before now at watch.new) shown.entry.net.now) };
}

/// `run`: as a synchronous machine, where the checker accepts the netlist and the stimulus has no
/// race. `pick` chooses the order of processes within a cycle.
#[derive(Drop)]
pub struct RunMachine<'a, P: Pick> {
    pub stimulus: &'a [u8],
    pub pick: &'a mut P,
}

impl<P: Pick> Simulate for RunMachine<'_, P> {
    type Answer = Summary;

    ghost shows = { λ run. ShowsMachine run.stimulus.now };

    ghost sight = { λ run. machine run.stimulus.now };

    ghost unexpecting = { λ run names net fault old new does. machine_unexpecting does.0 fault does.1 };

    fn simulate<V: Watch, S: Sink>(
        &mut self,
        alloc: Global,
        shown: Shown<'_>,
        watch: &mut V,
        out: &mut S,
    ) -> Result<Summary, Fault> {
        answered(rtl_run::run_watched(alloc, shown, self.stimulus, self.pick, watch, out))
    }
}

/// `run --levels`: the same trace without delta cycles: at each moment the clocked processes that
/// an input wakes run, and then the combinational ones in order of their nets' levels.
#[derive(Drop)]
pub struct RunLevels<'a> {
    pub stimulus: &'a [u8],
}

impl Simulate for RunLevels<'_> {
    type Answer = LevelSummary;

    ghost shows = { λ run. ShowsLevels run.stimulus.now };

    ghost sight = { λ run. machine run.stimulus.now };

    ghost unexpecting = { λ run names net fault old new does. machine_unexpecting does.0 fault does.1 };

    fn simulate<V: Watch, S: Sink>(
        &mut self,
        alloc: Global,
        shown: Shown<'_>,
        watch: &mut V,
        out: &mut S,
    ) -> Result<LevelSummary, Fault> {
        answered(rtl_run::run_levels_watched(alloc, shown, self.stimulus, watch, out))
    }
}

/// `run --event`: by events, of any netlist without a stored variable. `pick` chooses the order of
/// processes within a cycle.
#[derive(Drop)]
pub struct RunEvents<'a, P: Pick> {
    pub stimulus: &'a [u8],
    pub pick: &'a mut P,
}

impl<P: Pick> Simulate for RunEvents<'_, P> {
    type Answer = Summary;

    ghost shows = { λ run. ShowsEvents run.stimulus.now };

    ghost sight = { λ run. events run.stimulus.now };

    ghost unexpecting = { λ run names net fault old new does.
        events_unexpecting run.stimulus.now names net fault old new does };

    fn simulate<V: Watch, S: Sink>(
        &mut self,
        alloc: Global,
        shown: Shown<'_>,
        watch: &mut V,
        out: &mut S,
    ) -> Result<Summary, Fault> {
        let net = shown.net;
        refuse_stored(alloc, net)?;
        let stimulus = Stimulus::read(alloc, net, self.stimulus)?;
        let bodies = codes(alloc, net)?;
        let simulation = Simulation {
            shown,
            bodies: &bodies,
            stimulus: &stimulus,
            limit: MAX_DELTAS,
        };
        let Ok(mut agenda) = Wheel::new(alloc, SLOTS) else {
            return Err(Fault::Memory);
        };
        let summary = simulation.run_watched(alloc, &mut agenda, self.pick, watch, out)?;
        Ok(summary)
    }
}

/// What the machine's answer is to the caller of a command.
pub(crate) fn answered<A: Drop>(given: Result<A, MachineFault>) -> Result<A, Fault>
    ensures { result ≡ as_answer given }
{
    match given {
        Ok(answer) => Ok(answer),
        Err(fault) => Err(Fault::from(fault)),
    }
}

/// Refuses a netlist with a stored variable.
fn refuse_stored(alloc: Global, net: &Net) -> Result<(), Fault>
    ensures { RefusesStored net.now result }
{
    let stored = stored(alloc, net)?;
    if stored.is_empty() {
        Ok(())
    } else {
        Err(Fault::Rejected(stored))
    }
}
