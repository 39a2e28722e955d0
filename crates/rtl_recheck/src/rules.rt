//! Whether the processes of a netlist keep the rules.

ghost use Rattle.std.specs.Prelude.{◌≡◌, ◌↔◌, ◌<◌, length, IsTrue};
ghost use Rattle.std.specs.List.Sorted.{IsStrictlyIncreasing};
ghost use Rattle.rtl_model.specs.basics.Lists.{RisesBy};
ghost use Rattle.rtl_model.specs.simulation.Report.{clock_key, AreClocks};
ghost use Rattle.rtl_net.specs.Core.{core};
ghost use Rattle.rtl_check.specs.Standing.{HasNoMixed};
ghost use Rattle.rtl_recheck.specs.Kept.{HasNoLatch, CombinationalKeeps, KeepsBy, KeepsRules, AllKeep, clock_nets, is_plain};

use crate::clocked::{are_within, has_no_clock_as_data, tested_are_within};
use crate::variables::stores_nothing;
use rtl_body_facts::ProcessKind;
use rtl_check::kind_at;
use rtl_latches::covers;
use rtl_net::{Net, Process};
use vhdl_values::Edge;

/// Whether a combinational process assigns each net that it drives on every syntactic path.
fn has_no_latch(process: &Process) -> bool
    ensures { IsTrue result ↔ HasNoLatch process.now }
{
    for driver in &process.drives {
        if !covers(&process.body, &process.drives, driver.net) {
            return false;
        }
    }
    true
}

/// Whether a combinational process breaks no rule: it is sensitive to what it reads, and has no
/// latch.
fn combinational_keeps(process: &Process) -> bool
    requires { IsStrictlyIncreasing process.now.wakes.items }
    ensures { IsTrue result ↔ CombinationalKeeps process.now }
{
    are_within(&process.reads, process.wakes.as_slice()) && has_no_latch(process)
}

/// Whether a process of this kind breaks no rule. A clocked one's clock is an in port of the top,
/// it is sensitive to its clock and its reset, and it uses no clock as data.
fn keeps_by(
    inputs: &[usize],
    clocks: &[(usize, Edge)],
    process: &Process,
    kind: ProcessKind,
) -> bool
    requires inputs { IsStrictlyIncreasing inputs.now }
    requires clocks { RisesBy clock_key clocks.now }
    requires wakes { IsStrictlyIncreasing process.now.wakes.items }
    ensures { IsTrue result ↔ KeepsBy inputs.now (clock_nets clocks.now) process.now kind }
{
    match kind {
        ProcessKind::Combinational => combinational_keeps(process),
        ProcessKind::Clocked(clocking) => {
            are_within(&[clocking.clock], inputs)
                && tested_are_within(clocking, process.wakes.as_slice())
                && has_no_clock_as_data(clocks, process, clocking)
        }
        ProcessKind::Mixed => true,
    }
}

/// Whether a process of a netlist with these clocks breaks no rule.
fn keeps_rules(net: &Net, clocks: &[(usize, Edge)], process: usize) -> bool
    requires there { process < length net.now.processes }
    requires clocks { AreClocks (core net.now) clocks.now }
    ensures { IsTrue result ↔ KeepsRules (core net.now) process }
{
    net.is_elaborated();
    let inputs = net.inputs();
    let processes = net.processes();
    keeps_by(inputs, clocks, &processes[process], kind_at(net, process))
}

/// Whether each process of a netlist with these clocks breaks no rule and stores no variable.
pub fn all_keep(net: &Net, clocks: &[(usize, Edge)]) -> bool
    requires { AreClocks (core net.now) clocks.now }
    ensures { IsTrue result ↔ AllKeep (core net.now) }
{
    let processes = net.processes();
    for process in 0..processes.len() {
        if !keeps_rules(net, clocks, process) {
            return false;
        }
        if !stores_nothing(net, process) {
            return false;
        }
    }
    true
}

/// Whether a process of this kind is clocked or combinational.
fn is_not_mixed(kind: ProcessKind) -> bool
    ensures { result ≡ is_plain kind }
{
    match kind {
        ProcessKind::Mixed => false,
        _ => true,
    }
}

/// Whether each process of a netlist is clocked or combinational.
pub fn has_no_mixed(net: &Net) -> bool
    ensures { IsTrue result ↔ HasNoMixed (core net.now) }
{
    let processes = net.processes();
    for process in 0..processes.len() {
        if !is_not_mixed(kind_at(net, process)) {
            return false;
        }
    }
    true
}
