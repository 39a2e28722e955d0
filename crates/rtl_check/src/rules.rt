//! Lists of faults that name a process and one of its nets.

ghost use Rattle.std.specs.Prelude.{◌<◌, length, OnOk};
ghost use Rattle.rtl_net.specs.Core.{core};
ghost use Rattle.rtl_check.specs.Views.{AreClockNets};
ghost use Rattle.rtl_process_kinds.specs.KindViews.{AreKinds};
ghost use Rattle.rtl_check.specs.Listing.{is_of_number, one_place, AddsFaults};
ghost use Rattle.rtl_check.specs.Rules.{rule_number, Pushes};

use crate::breaking::breaking_nets;
use crate::fault::CheckFault;
use crate::rule::Rule;
use rtl_body_facts::ProcessKind;
use rtl_net::{Net, NoMemory};
use std::alloc::Global;

/// Appends the faults of a process and these nets.
fn push_faults(
    rule: Rule,
    process: usize,
    nets: &[usize],
    faults: &mut Vec<CheckFault>,
) -> Result<(), NoMemory>
    ensures { OnOk result (Pushes rule process nets.now faults.old.items faults.new.items) }
{
    for net in nets {
        faults.push(rule.fault(process, *net))?;
    }
    Ok(())
}

/// Appends the faults of a process that break a rule.
fn rule_at(
    alloc: Global,
    net: &Net,
    kinds: &[ProcessKind],
    clocks: &[usize],
    rule: Rule,
    process: usize,
    faults: &mut Vec<CheckFault>,
) -> Result<(), NoMemory>
    requires kinds { AreKinds (core net.now) kinds.now }
    requires clocks { AreClockNets (core net.now) clocks.now }
    requires there { process < length kinds.now }
    ensures { OnOk result (AddsFaults (core net.now) (one_place (rule_number rule) process) faults.old.items
        faults.new.items) }
{
    net.is_elaborated();
    let inputs = net.inputs();
    let processes = net.processes();
    let each = &processes[process];
    let nets = breaking_nets(alloc, inputs, clocks, rule, each, kinds[process])?;
    push_faults(rule, process, &nets, faults)
}

/// Appends the faults that break a rule.
pub fn by_rule(
    alloc: Global,
    net: &Net,
    kinds: &[ProcessKind],
    clocks: &[usize],
    rule: Rule,
    faults: &mut Vec<CheckFault>,
) -> Result<(), NoMemory>
    requires kinds { AreKinds (core net.now) kinds.now }
    requires clocks { AreClockNets (core net.now) clocks.now }
    ensures { OnOk result (AddsFaults (core net.now) (is_of_number (rule_number rule)) faults.old.items
        faults.new.items) }
{
    for process in 0..kinds.len() {
        rule_at(alloc, net, kinds, clocks, rule, process, faults)?;
    }
    Ok(())
}
