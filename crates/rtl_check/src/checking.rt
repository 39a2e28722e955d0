//! Whether a netlist is accepted by its processes.

ghost use Rattle.std.specs.Prelude.{◌↔◌, IfOk, IsTrue};
ghost use Rattle.rtl_model.specs.simulation.Accepted.{IsAccepted, IsByNets};
ghost use Rattle.rtl_net.specs.Core.{core};
ghost use Rattle.rtl_check.specs.Verdicts.{IsVerdict, ListsLoopsOnce, is_yes, IfYes, FromsLeadDown, NoChainIsLonger, NoNumberIsLower};

use crate::fault::CheckFault;
use crate::judging::{Judgement, judge};
use crate::reporting::Report;
use rtl_net::{Net, NoMemory};
use std::alloc::Global;

/// What the checker says of a netlist.
#[derive(Drop)]
pub enum Verdict {
    /// It is accepted, and this is the report on it.
    Yes(Report),
    /// It has these faults: all but loops, in order, each once; or one loop, where it has no other,
    /// listed once round from its lowest process or net. There are none where it is accepted by its
    /// nets.
    No(Vec<CheckFault>),
}

/// Whether a netlist is accepted by its processes: yes, with the report on it, just where it has no
/// fault and isn't judged by nets; else no, with its faults. It takes the time and the memory of
/// `judge`.
pub fn check(alloc: Global, net: &Net) -> Result<Verdict, NoMemory>
    ensures verdict { IfOk result (IsVerdict (core net.now)) }
    ensures yes { IfOk result (λ v. IsTrue (is_yes v) ↔ (IsAccepted (core net.now) × (IsByNets (core net.now) → ⊥))) }
    ensures once { IfOk result ListsLoopsOnce }
    ensures leads_down { IfOk result (IfYes (FromsLeadDown (core net.now))) }
    ensures longest { IfOk result (IfYes (NoChainIsLonger (core net.now))) }
    ensures lowest { IfOk result (IfYes (NoNumberIsLower (core net.now))) }
{
    match judge(alloc, net)? {
        Judgement::ByProcesses(report) => Ok(Verdict::Yes(report)),
        Judgement::ByNets(_) => Ok(Verdict::No(Vec::new(alloc))),
        Judgement::Faulty(faults) => Ok(Verdict::No(faults)),
    }
}
