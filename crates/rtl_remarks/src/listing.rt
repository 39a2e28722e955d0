//! All remarks on a netlist.

ghost use Rattle.std.specs.Prelude.{◌≡◌, IfOk};
ghost use Rattle.rtl_remarks.specs.Remarks as spec;

use crate::known::known_of;
use crate::nets::push_on_nets;
use crate::processes::push_on_processes;
use crate::remark::{Remark, RemarkKind};
use rtl_net::{Net, NoMemory};
use std::alloc::Global;

/// The remarks on a netlist, one kind after the other, each by net, or by process and net. It takes
/// time in proportion to the netlist, but for the logarithms of sorted lists and for the levels
/// that are open in a body, and memory for a table over the nets, for lists of nets, and for the
/// answer.
pub fn remarks(alloc: Global, net: &Net) -> Result<Vec<Remark>, NoMemory>
    ensures { IfOk result (λ remarks. remarks.items ≡ spec.remarks_of net.now) }
{
    let known = known_of(alloc, net)?;
    let mut remarks = Vec::new(alloc);
    push_on_nets(net, &known, RemarkKind::Undriven, &mut remarks)?;
    push_on_nets(net, &known, RemarkKind::Unassigned, &mut remarks)?;
    push_on_nets(net, &known, RemarkKind::IdlePort, &mut remarks)?;
    push_on_processes(alloc, net, &known, RemarkKind::NotReset, &mut remarks)?;
    push_on_processes(alloc, net, &known, RemarkKind::ClockRead, &mut remarks)?;
    push_on_processes(alloc, net, &known, RemarkKind::NeverKnown, &mut remarks)?;
    push_on_nets(net, &known, RemarkKind::UnreadElement, &mut remarks)?;
    push_on_processes(alloc, net, &known, RemarkKind::OutsideRange, &mut remarks)?;
    Ok(remarks)
}
