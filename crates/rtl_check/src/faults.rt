//! All faults of a netlist but loops.

ghost use Rattle.std.specs.Prelude.{map, IfOk};
ghost use Rattle.rtl_model.specs.simulation.Faults.{AreFaultsButLoops};
ghost use Rattle.rtl_net.specs.Core.{core};
ghost use Rattle.rtl_check.specs.Views.{fault_view, AreClockNets};
ghost use Rattle.rtl_process_kinds.specs.KindViews.{AreKinds};

use crate::fault::CheckFault;
use crate::listing::{mixed, two_drivers};
use crate::rule::Rule;
use crate::rules::by_rule;
use crate::variables::stored_variables;
use rtl_body_facts::ProcessKind;
use rtl_net::{Net, NoMemory};
use std::alloc::Global;

/// All faults of a netlist but loops, in order.
pub fn faults_of(
    alloc: Global,
    net: &Net,
    kinds: &[ProcessKind],
    clocks: &[usize],
) -> Result<Vec<CheckFault>, NoMemory>
    requires kinds { AreKinds (core net.now) kinds.now }
    requires clocks { AreClockNets (core net.now) clocks.now }
    ensures { IfOk result (λ faults. AreFaultsButLoops (core net.now) (map fault_view faults.items)) }
{
    let mut faults = Vec::new(alloc);
    two_drivers(net, &mut faults)?;
    mixed(alloc, net, kinds, &mut faults)?;
    by_rule(alloc, net, kinds, clocks, Rule::ClockNotInput, &mut faults)?;
    by_rule(
        alloc,
        net,
        kinds,
        clocks,
        Rule::EdgeNotSensitive,
        &mut faults,
    )?;
    by_rule(alloc, net, kinds, clocks, Rule::ClockAsData, &mut faults)?;
    by_rule(
        alloc,
        net,
        kinds,
        clocks,
        Rule::MissingSensitivity,
        &mut faults,
    )?;
    by_rule(alloc, net, kinds, clocks, Rule::Latch, &mut faults)?;
    stored_variables(alloc, net, &mut faults)?;
    Ok(faults)
}
