//! Runs of single processes.

ghost use Rattle.std.specs.Prelude.{◌<◌, length};
ghost use Rattle.rtl_model.specs.simulation.Netlist.{process};
ghost use Rattle.rtl_model.specs.simulation.Range.{IsValuation};
ghost use Rattle.rtl_kernel.specs.drivers.Transactions.{HasRunOf};
ghost use Rattle.rtl_net.specs.Core.{core};
ghost use Rattle.rtl_levels.specs.Kept.{IsPlanned, IsStateOf, MayRun};
ghost use Rattle.rtl_levels.specs.States.{StateTakesOver};

use crate::entries::take_over;
use crate::schedule::Schedule;
use crate::state::State;
use rtl_drives::Drives;
use rtl_eval::Exec;
use rtl_net::Net;

/// Runs the body of a process; what it assigns is what its run leaves.
pub fn run<E: Exec>(
    net: &Net,
    bodies: &[E],
    number: usize,
    before: &[u8],
    values: &[u8],
    runs: &mut Vec<Drives>,
)
    requires may { MayRun E.process E.types E.most net.now bodies.now runs.old.items }
    requires there { number < length net.now.processes }
    requires before { IsValuation (core net.now) before.now }
    requires values { IsValuation (core net.now) values.now }
    ensures may { MayRun E.process E.types E.most net.now bodies.now runs.new.items }
    ensures ran { HasRunOf ((process (core net.now) number).effect before.now values.now) number
        runs.old.items runs.new.items }
{
    bodies[number].run(values, before, &mut runs[number]);
}

/// Runs a process, which sees no event, and takes over what it assigns.
pub fn settle<E: Exec>(
    net: &Net,
    bodies: &[E],
    schedule: &Schedule,
    number: usize,
    runs: &mut Vec<Drives>,
    state: &mut State,
)
    requires may { MayRun E.process E.types E.most net.now bodies.now runs.old.items }
    requires planned { IsPlanned (core net.now) schedule.now }
    requires there { number < length net.now.processes }
    requires state { IsStateOf (core net.now) schedule.now state.old }
    ensures may { MayRun E.process E.types E.most net.now bodies.now runs.new.items }
    ensures state { IsStateOf (core net.now) schedule.now state.new }
    ensures written { let p = process (core net.now) number in let v = state.old.values.items in
        StateTakesOver schedule.now.readers p.drives (p.effect v v) state.old state.new }
{
    run(net, bodies, number, &state.values, &state.values, runs);
    take_over(net, schedule, number, &runs[number], state);
}
