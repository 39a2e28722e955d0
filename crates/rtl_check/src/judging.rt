//! Judging a netlist, by its processes or by its nets.

ghost use Rattle.std.specs.Prelude.{◌↔◌, IfOk, IsTrue};
ghost use Rattle.rtl_model.specs.simulation.Accepted.{IsAccepted};
ghost use Rattle.rtl_net.specs.Core.{core};
ghost use Rattle.rtl_check.specs.Verdicts.{IsJudgement, accepts, JudgesLoopsOnce, IfByProcesses, FromsLeadDown, NoChainIsLonger, NoNumberIsLower};

use crate::clocks::clock_nets;
use crate::fault::CheckFault;
use crate::reporting::{NetReport, Report, net_report_of, report_of};
use crate::search::{Found, search};
use rtl_model::simulation_laws;
use rtl_net::{Net, NoMemory};
use rtl_process_kinds::kinds_of;
use std::alloc::Global;

/// How a netlist is judged.
#[derive(Drop)]
pub enum Judgement {
    /// It is accepted by its processes, and this is the report on it.
    ByProcesses(Report),
    /// It is accepted by its nets: it is of the wider language, and has a loop of processes or a
    /// reset that some process drives. This is the report on it.
    ByNets(NetReport),
    /// It isn't accepted, and has these faults: all but loops, in order, each once; or one loop,
    /// where it has no other, listed once round from its lowest process or net.
    Faulty(Vec<CheckFault>),
}

/// Judges a netlist, of either language: it is accepted, by processes or by nets, with the report
/// on it, just where it has no fault; else these are its faults. A loop is looked for only where
/// there is no other fault. It takes time in proportion to the netlist, but for the logarithms of
/// sorted lists, and memory for the kinds of processes, for what feeds or looks at what, for the
/// elements of one process's variables, and for the answer.
pub fn judge(alloc: Global, net: &Net) -> Result<Judgement, NoMemory>
    ensures judgement { IfOk result (IsJudgement (core net.now)) }
    ensures accepts { IfOk result (λ j. IsTrue (accepts j) ↔ IsAccepted (core net.now)) }
    ensures once { IfOk result JudgesLoopsOnce }
    ensures leads_down { IfOk result (IfByProcesses (FromsLeadDown (core net.now))) }
    ensures longest { IfOk result (IfByProcesses (NoChainIsLonger (core net.now))) }
    ensures lowest { IfOk result (IfByProcesses (NoNumberIsLower (core net.now))) }
{
    simulation_laws::faults_are_listed();
    let kinds = kinds_of(alloc, net)?;
    let clocks = clock_nets(alloc, net, &kinds)?;
    match search(alloc, net, &kinds, &clocks)? {
        Found::Faulty(faults) => Ok(Judgement::Faulty(faults)),
        Found::Leveled(levels) => {
            let report = report_of(alloc, net, &kinds, &clocks, levels)?;
            simulation_laws::reports_lead_down();
            simulation_laws::reports_are_shown();
            simulation_laws::levels_are_shown();
            Ok(Judgement::ByProcesses(report))
        }
        Found::NetsLeveled(levels) => {
            let report = net_report_of(alloc, net, &kinds, &clocks, levels)?;
            Ok(Judgement::ByNets(report))
        }
    }
}
