//! Commands on a source, without what is told of them.

ghost use Rattle.std.specs.Prelude.{IfErr, length, map};
ghost use Rattle.byte_streams.specs.Written.{IsIntact};
ghost use Rattle.rtlsim_command_faults.specs.Places.{IsTold};
ghost use Rattle.rtlsim_commands.specs.Listed.{ListsNet, ChecksNet, DrawsNet};
ghost use Rattle.rtlsim_commands.specs.Machine.{RunsMachine, RunsMachineByLevels, EvaluatesMachine};
ghost use Rattle.rtlsim_commands.specs.Simulated.{RunsEvents};
ghost use Rattle.rtlsim_commands.specs.Opened.{Opens};

use crate::command::{Command, Site};
use crate::listing::Form;
use crate::printing::{CheckNet, EvalNet, ListNet};
use crate::running::{RunEvents, RunLevels, RunMachine};
use crate::tracing::{Choice, Traced};
use byte_streams::{Sink, Unwatched};
use rtl_kernel::Pick;
use rtl_run::LevelSummary;
use rtl_simulation::Summary;
use rtlsim_command_faults::Fault;
use std::alloc::Global;
use vhdl_front_rules::{Asked, Front};

/// Opens a source, and does a command on its netlist: `source` has the bytes of the file, `top` the
/// name of an entity in it, in letters of either case. It takes memory for the source's netlist,
/// and what the command takes.
///
/// # Errors
///
/// - `Lex`, `Syntax`, `Name`, `Elab`: the source is refused, and nothing was written.
/// - Else as the command.
pub fn on_source<F: Front, C: Command, S: Sink>(
    alloc: Global,
    source: &[u8],
    top: &[u8],
    command: &mut C,
    out: &mut S,
) -> Result<C::Answer, Fault>
    requires intact { IsIntact (S.state out.old) }
    ensures does { Opens (C.does command.old) source.now top.now result (S.state out.old) (S.state out.new) }
    ensures told { IfErr result (IsTold (length source.now)) }
{
    let net = F::open(alloc, Asked::plain(source, top))?;
    command.on_net(Site { alloc, net: &net }, &mut Unwatched, out)
}

/// Writes the lines of the netlist of a source. It takes memory for that, and then for one name at
/// a time.
///
/// # Errors
///
/// - As `on_source` where the source is refused.
/// - `Memory`: memory was refused. `Output`: `out` failed. In both a beginning of the text was
///   written.
pub fn show_net<F: Front, S: Sink>(
    alloc: Global,
    source: &[u8],
    top: &[u8],
    out: &mut S,
) -> Result<(), Fault>
    requires intact { IsIntact (S.state out.old) }
    ensures lists { Opens ListsNet source.now top.now result (S.state out.old) (S.state out.new) }
    ensures told { IfErr result (IsTold (length source.now)) }
{
    on_source::<F, _, S>(alloc, source, top, &mut ListNet, out)
}

/// Checks the netlist of a source, writes the lines of the verdict, and answers whether it is yes.
/// It takes memory for the netlist, and in proportion to it.
///
/// # Errors
///
/// As `show_net`.
pub fn show_check<F: Front, S: Sink>(
    alloc: Global,
    source: &[u8],
    top: &[u8],
    out: &mut S,
) -> Result<bool, Fault>
    requires intact { IsIntact (S.state out.old) }
    ensures checks { Opens ChecksNet source.now top.now result (S.state out.old) (S.state out.new) }
    ensures told { IfErr result (IsTold (length source.now)) }
{
    let form = Form::Lines;
    on_source::<F, _, S>(alloc, source, top, &mut CheckNet { form }, out)
}

/// Checks the netlist of a source, draws its levels where the verdict is yes and writes its lines
/// else, and answers whether it is yes: as `show_check` does, but for the graph.
///
/// # Errors
///
/// As `show_net`.
pub fn show_check_dot<F: Front, S: Sink>(
    alloc: Global,
    source: &[u8],
    top: &[u8],
    out: &mut S,
) -> Result<bool, Fault>
    requires intact { IsIntact (S.state out.old) }
    ensures checks { Opens DrawsNet source.now top.now result (S.state out.old) (S.state out.new) }
    ensures told { IfErr result (IsTold (length source.now)) }
{
    let form = Form::Graph;
    on_source::<F, _, S>(alloc, source, top, &mut CheckNet { form }, out)
}

/// Simulates the netlist of a source under a stimulus, where the checker accepts it and the
/// stimulus has no race, and writes the trace: that of the synchronous machine. `stimulus` has the
/// lines of the stimulus, with times in ns; `pick` chooses the order of processes within a cycle.
/// It answers the number of moments and the greatest number of delta cycles of one, which is the
/// checker's bound at most. It takes memory for the source's netlist, for the stimulus and for the
/// values of the nets.
///
/// # Errors
///
/// - As `show_net`.
/// - `Rejected`: the checker says no, with all faults. `Stim`: a line of the stimulus is refused,
///   none says when to stop, or there is a race. Nothing was written.
pub fn run<F: Front, P: Pick, S: Sink>(
    alloc: Global,
    source: &[u8],
    top: &[u8],
    stimulus: &[u8],
    pick: &mut P,
    out: &mut S,
) -> Result<Summary, Fault>
    requires intact { IsIntact (S.state out.old) }
    ensures runs { Opens (RunsMachine stimulus.now) source.now top.now result (S.state out.old) (S.state out.new) }
    ensures told { IfErr result (IsTold (length source.now)) }
{
    let run = RunMachine { stimulus, pick };
    let choice = Choice::Whole;
    on_source::<F, _, S>(alloc, source, top, &mut Traced { run, choice }, out)
}

/// Simulates the netlist of a source under a stimulus, where `run` does, and writes the trace that
/// it writes: at each moment the clocked processes that an input wakes run once, and then the
/// combinational ones in order of their nets' levels. It answers the number of moments, and the
/// checker's bound. It takes memory as `run` does.
///
/// # Errors
///
/// As `run`.
pub fn run_levels<F: Front, S: Sink>(
    alloc: Global,
    source: &[u8],
    top: &[u8],
    stimulus: &[u8],
    out: &mut S,
) -> Result<LevelSummary, Fault>
    requires intact { IsIntact (S.state out.old) }
    ensures runs { Opens (RunsMachineByLevels stimulus.now) source.now top.now result (S.state out.old)
        (S.state out.new) }
    ensures told { IfErr result (IsTold (length source.now)) }
{
    let run = RunLevels { stimulus };
    let choice = Choice::Whole;
    on_source::<F, _, S>(alloc, source, top, &mut Traced { run, choice }, out)
}

/// Simulates the netlist of a source under a stimulus as `run` does, but by events: neither checker
/// nor races are asked. Of the delta cycles of a moment there are 1,000 at most.
///
/// # Errors
///
/// - As `show_net`.
/// - `Rejected`: processes read variables that they haven't assigned in the same run, all of which
///   are listed. `Stim`: a line of the stimulus is refused, or none says when to stop. Nothing was
///   written.
/// - `NoSettling`: the first moment that doesn't settle; the trace of those before it was written
///   (at 0, its header).
pub fn run_event<F: Front, P: Pick, S: Sink>(
    alloc: Global,
    source: &[u8],
    top: &[u8],
    stimulus: &[u8],
    pick: &mut P,
    out: &mut S,
) -> Result<Summary, Fault>
    requires intact { IsIntact (S.state out.old) }
    ensures runs { Opens (RunsEvents stimulus.now) source.now top.now result (S.state out.old) (S.state out.new) }
    ensures told { IfErr result (IsTold (length source.now)) }
{
    let run = RunEvents { stimulus, pick };
    let choice = Choice::Whole;
    on_source::<F, _, S>(alloc, source, top, &mut Traced { run, choice }, out)
}

/// Writes, for each out port of the top in order of declaration, the line `NAME=VALUE` with its
/// value once the netlist of the source has settled under these inputs, each of which is a text
/// NAME=VALUE. It takes memory for the source's netlist and for the values of the nets.
///
/// # Errors
///
/// - As `show_net`.
/// - `Rejected`: the checker says no, with all faults. `Stim`: a text NAME=VALUE is refused, told
///   by its place, from 1. Nothing was written.
pub fn eval<F: Front, S: Sink>(
    alloc: Global,
    source: &[u8],
    top: &[u8],
    sets: &[&[u8]],
    out: &mut S,
) -> Result<(), Fault>
    requires intact { IsIntact (S.state out.old) }
    ensures evaluates { Opens (EvaluatesMachine (map (λ set. set.now) sets.now)) source.now top.now result
        (S.state out.old) (S.state out.new) }
    ensures told { IfErr result (IsTold (length source.now)) }
{
    on_source::<F, _, S>(alloc, source, top, &mut EvalNet { sets }, out)
}
