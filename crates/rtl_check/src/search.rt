//! The faults of a netlist, or levels where none is found.

ghost use Rattle.std.specs.Prelude.{◌≡◌, [], IfOk};
ghost use Rattle.rtl_model.specs.simulation.Accepted.{IsByNets};
ghost use Rattle.rtl_model.specs.simulation.Faults.{AreFaultsButLoops};
ghost use Rattle.rtl_net.specs.Core.{core};
ghost use Rattle.rtl_check.specs.Views.{AreClockNets};
ghost use Rattle.rtl_process_kinds.specs.KindViews.{AreKinds};
ghost use Rattle.rtl_calm_nets.specs.InnerResets.{HasInnerReset};
ghost use Rattle.rtl_check.specs.Findings.{IsFound};

use crate::fault::CheckFault;
use crate::faults::faults_of;
use crate::graph::table_of;
use rtl_body_facts::ProcessKind;
use rtl_calm_nets::has_inner_reset;
use rtl_check_levels::{LevelOrder, Levels, order_of, tables_are_of_nets};
use rtl_check_nets::{NetLevels, NetOrder, net_order_of};
use rtl_net::{Net, NoMemory, nets_meet_the_laws};
use std::alloc::Global;

/// What the rules find of a netlist.
#[derive(Drop)]
pub enum Found {
    /// All its faults but loops, in order, or else one loop.
    Faulty(Vec<CheckFault>),
    /// The levels of its combinational processes, where no fault is found and it is judged by
    /// processes.
    Leveled(Levels),
    /// The levels of its nets, and of its processes by them, where no fault is found and it is
    /// judged by nets.
    NetsLeveled(NetLevels),
}

/// Looks for a loop of nets in a netlist that is judged by nets, of which these are the faults but
/// loops: none.
fn search_nets(
    alloc: Global,
    net: &Net,
    kinds: &[ProcessKind],
    mut faults: Vec<CheckFault>,
) -> Result<Found, NoMemory>
    requires kinds { AreKinds (core net.now) kinds.now }
    requires none { faults.items ≡ [] }
    requires no_fault { AreFaultsButLoops (core net.now) [] }
    requires by_nets { IsByNets (core net.now) }
    ensures { IfOk result (IsFound (core net.now)) }
{
    match net_order_of(alloc, net, kinds)? {
        NetOrder::Leveled(levels) => Ok(Found::NetsLeveled(levels)),
        NetOrder::Looped(nets) => {
            faults.push(CheckFault::NetLoop { nets })?;
            Ok(Found::Faulty(faults))
        }
    }
}

/// Looks for a loop of processes in a netlist that is judged by processes unless it has one, of
/// which these are the faults but loops: none. Where it has one, and is of the wider language, it
/// is judged by nets.
fn search_processes(
    alloc: Global,
    net: &Net,
    kinds: &[ProcessKind],
    mut faults: Vec<CheckFault>,
) -> Result<Found, NoMemory>
    requires kinds { AreKinds (core net.now) kinds.now }
    requires none { faults.items ≡ [] }
    requires no_fault { AreFaultsButLoops (core net.now) [] }
    requires outer { HasInnerReset (core net.now) → ⊥ }
    ensures { IfOk result (IsFound (core net.now)) }
{
    tables_are_of_nets();
    net.is_elaborated();
    nets_meet_the_laws();
    let table = table_of(alloc, net, kinds)?;
    match order_of(alloc, &table)? {
        LevelOrder::Leveled(levels) => Ok(Found::Leveled(levels)),
        LevelOrder::Looped(processes) => {
            if net.is_wide() {
                return search_nets(alloc, net, kinds, faults);
            }
            faults.push(CheckFault::Loop { processes })?;
            Ok(Found::Faulty(faults))
        }
    }
}

/// Searches a netlist for all its faults but loops, in order; or else for a loop; or else for
/// levels. A loop is looked for only where there is no other fault. It takes memory for its faults,
/// and for what feeds or looks at what.
pub fn search(
    alloc: Global,
    net: &Net,
    kinds: &[ProcessKind],
    clocks: &[usize],
) -> Result<Found, NoMemory>
    requires kinds { AreKinds (core net.now) kinds.now }
    requires clocks { AreClockNets (core net.now) clocks.now }
    ensures { IfOk result (IsFound (core net.now)) }
{
    let faults = faults_of(alloc, net, kinds, clocks)?;
    if !faults.is_empty() {
        return Ok(Found::Faulty(faults));
    }
    if has_inner_reset(net) {
        return search_nets(alloc, net, kinds, faults);
    }
    search_processes(alloc, net, kinds, faults)
}
