//! Whether a report is the report on a netlist, without memory.

ghost use Rattle.std.specs.Prelude.{◌≡◌, ◌↔◌, ◌<◌, length, IsTrue};
ghost use Rattle.rtl_model.specs.simulation.Netlist as m;
ghost use Rattle.rtl_model.specs.simulation.Levels as l;
ghost use Rattle.rtl_model.specs.simulation.Report as r;
ghost use Rattle.rtl_net.specs.Core.{core};
ghost use Rattle.rtl_check.specs.Bounds as b;
ghost use Rattle.rtl_check.specs.Standing.{HasNoMixed};
ghost use Rattle.rtl_check.specs.Reported as s;
ghost use Rattle.rtl_check.specs.Verdicts.{IsReportOf};

use crate::bound::one_if;
use crate::listed_clocks::are_clocks;
use crate::reporting::Report;
use crate::standing::are_levels;
use rtl_calm_nets::has_inner_reset;
use rtl_model::simulation_laws;
use rtl_net::Net;
use rtl_process_kinds::{follows_driver, kind_at, resets};
use vhdl_values::Edge;

/// The greater of a level and what a process has, if it has one.
fn greater(greatest: u32, level: Option<u32>) -> u32
    ensures { result ≡ s.greater greatest level }
{
    match level {
        None => greatest,
        Some(level) => greatest.max(level),
    }
}

/// The greatest of some levels, 0 without any.
fn greatest_of(levels: &[Option<u32>]) -> u32
    ensures { s.IsGreatestTo levels.now (length levels.now) result }
{
    let mut greatest = 0;
    for k in 0..levels.len() {
        greatest = greater(greatest, levels[k]);
    }
    greatest
}

/// Whether a process has a reset and is sensitive to a net that a process drives.
fn is_late_at(net: &Net, process: usize) -> bool
    requires { process < length net.now.processes }
    ensures { result ≡ b.is_late (core net.now) (m.process (core net.now) process) }
{
    resets(kind_at(net, process)) && follows_driver(net, process)
}

/// Whether there is such a process.
fn some_is_late(net: &Net) -> bool
    ensures { result ≡ l.has_late_reset (core net.now) }
{
    let processes = net.processes();
    for process in 0..processes.len() {
        if is_late_at(net, process) {
            return true;
        }
    }
    false
}

/// Whether this is the bound on delta cycles of a netlist with this greatest level.
fn is_bound(net: &Net, clocks: &[(usize, Edge)], greatest: u32, bound: u32) -> bool
    requires { r.AreClocks (core net.now) clocks.now }
    ensures { IsTrue result ↔ (bound ≡ l.bound (core net.now) greatest) }
{
    let registers = one_if(!clocks.is_empty());
    let late = one_if(some_is_late(net));
    bound as u64 == greatest as u64 + registers as u64 + late as u64
}

/// Whether these make a report on a netlist.
fn make_report(
    net: &Net,
    levels: &[Option<u32>],
    from: &[Option<usize>],
    clocks: &[(usize, Edge)],
    bound: u32,
) -> bool
    ensures { HasNoMixed (core net.now)
        → IsTrue result ↔ r.IsReport (core net.now) levels.now from.now clocks.now bound }
{
    simulation_laws::reports_are_shown();
    simulation_laws::levels_are_shown();
    if has_inner_reset(net) {
        return false;
    }
    if !are_levels(net, levels, from) {
        return false;
    }
    if !are_clocks(net, clocks) {
        return false;
    }
    is_bound(net, clocks, greatest_of(levels), bound)
}

/// Whether a report is the report on a netlist in which each process is clocked or combinational:
/// in its levels, its froms, its clocks and its bound. It takes no memory, and time by the product
/// of clocks and processes at most.
pub fn is_report(net: &Net, report: &Report) -> bool
    ensures { HasNoMixed (core net.now) → IsTrue result ↔ IsReportOf (core net.now) report.now }
{
    make_report(
        net,
        &report.levels,
        &report.from,
        &report.clocks,
        report.bound,
    )
}
