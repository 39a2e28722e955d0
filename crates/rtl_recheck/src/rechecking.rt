//! Whether a report stands.

ghost use Rattle.std.specs.Prelude.{◌↔◌, IfOk, IsTrue};
ghost use Rattle.rtl_model.specs.simulation.Accepted.{IsAccepted};
ghost use Rattle.rtl_net.specs.Core.{core};
ghost use Rattle.rtl_check.specs.Verdicts.{IsNetReportOf, IsReportOf};

use crate::rules::{all_keep, has_no_mixed};
use crate::same::are_same;
use crate::sources::have_one_source;
use rtl_check::{Judgement, NetReport, Report, is_report, judge};
use rtl_model::simulation_laws;
use rtl_net::{Net, NoMemory, nets_meet_the_laws};
use std::alloc::Global;

/// Whether a netlist is accepted and this is the report on it, in its levels, its froms, its clocks
/// and its bound. It searches for no loop: levels and froms that agree process by process show that
/// there is none.
///
/// It takes no memory. Its time is in proportion to the netlist, but for the product of clocks and
/// processes, and in each process for the product of its body and the elements that it drives or
/// declares as variables.
pub fn recheck(net: &Net, report: &Report) -> bool
    ensures { IsTrue result ↔ (IsAccepted (core net.now) × IsReportOf (core net.now) report.now) }
{
    simulation_laws::reports_are_shown();
    simulation_laws::levels_are_shown();
    simulation_laws::accepted_by_processes();
    nets_meet_the_laws();
    net.is_elaborated();
    if !has_no_mixed(net) {
        return false;
    }
    if !is_report(net, report) {
        return false;
    }
    if !have_one_source(net) {
        return false;
    }
    all_keep(net, &report.clocks)
}

/// Whether a netlist is accepted and judged by nets, and this is the report on it. The checker
/// judges it once more, since there is no other such report: it takes its time and its memory.
pub fn recheck_by_nets(alloc: Global, net: &Net, report: &NetReport) -> Result<bool, NoMemory>
    ensures { IfOk result (λ b. IsTrue b ↔ (IsAccepted (core net.now) × IsNetReportOf (core net.now) report.now)) }
{
    simulation_laws::one_net_report();
    simulation_laws::faults_are_listed();
    match judge(alloc, net)? {
        Judgement::ByNets(own) => Ok(are_same(&own, report)),
        Judgement::ByProcesses(_) => Ok(false),
        Judgement::Faulty(_) => Ok(false),
    }
}
