//! Remarks on processes.

ghost use Rattle.std.specs.Prelude.{◌≡◌, ◌++◌, map, IfOk, OnOk};
ghost use Rattle.std.specs.List.Sorted.{IsStrictlyIncreasing};
ghost use Rattle.rtl_model.specs.nets.FlatNetlist.{ProcessInRange};
ghost use Rattle.rtl_net.specs.Nets.{process_view};
ghost use Rattle.rtl_remarks.specs.Remarks as spec;
ghost use Rattle.rtl_remarks.specs.Tables.{AreThose, IsKnown};

use crate::known::Known;
use crate::lists::chosen;
use crate::ranges::leaving_range;
use crate::registers::stay_undefined;
use crate::remark::{Remark, RemarkKind};
use crate::resets::left_out;
use rtl_body_facts::body_has_event;
use rtl_net::{Net, NoMemory, Process};
use std::alloc::Global;

/// The clocks that a process reads, if it is combinational.
fn clocks_read(
    alloc: Global,
    net: &Net,
    clocks: &[usize],
    process: &Process,
) -> Result<Vec<usize>, NoMemory>
    requires { AreThose (spec.is_clock net.now) clocks.now }
    ensures { IfOk result (λ nets. nets.items ≡ spec.clocks_read net.now process.now) }
{
    if body_has_event(&process.body) {
        return Ok(Vec::new(alloc));
    }
    chosen(alloc, &process.reads, clocks, true)
}

/// The nets with which remarks of a kind name a process.
fn named(
    alloc: Global,
    net: &Net,
    known: &Known,
    kind: RemarkKind,
    process: &Process,
) -> Result<Vec<usize>, NoMemory>
    requires known { IsKnown net.now known.now }
    requires in_range { ProcessInRange net.now.types (process_view process.now) }
    ensures { IfOk result (λ nets. nets.items ≡ spec.named net.now kind process.now) }
{
    net.is_elaborated();
    let wide = net.is_wide();
    let inputs = net.inputs();
    match kind {
        RemarkKind::NotReset => left_out(alloc, wide, inputs, process),
        RemarkKind::ClockRead => clocks_read(alloc, net, &known.clocks, process),
        RemarkKind::NeverKnown => stay_undefined(alloc, wide, inputs, process),
        RemarkKind::OutsideRange => leaving_range(alloc, &known.integers, &known.logic, process),
        _ => Ok(Vec::new(alloc)),
    }
}

/// Appends the remarks of a kind on a process and these nets.
fn push_each(
    kind: RemarkKind,
    process: usize,
    nets: &[usize],
    remarks: &mut Vec<Remark>,
) -> Result<(), NoMemory>
    ensures { OnOk result (remarks.new.items ≡ remarks.old.items ++ map (spec.at_process kind process) nets.now) }
{
    for net in nets {
        remarks.push(Remark::at_process(kind, process, *net))?;
    }
    Ok(())
}

/// Appends the remarks of a kind on processes.
pub(crate) fn push_on_processes(
    alloc: Global,
    net: &Net,
    known: &Known,
    kind: RemarkKind,
    remarks: &mut Vec<Remark>,
) -> Result<(), NoMemory>
    requires { IsKnown net.now known.now }
    ensures { OnOk result (remarks.new.items ≡ remarks.old.items ++ spec.on_processes net.now kind) }
{
    net.is_elaborated();
    let processes = net.processes();
    for number in 0..processes.len() {
        let nets = named(alloc, net, known, kind, &processes[number])?;
        push_each(kind, number, &nets, remarks)?;
    }
    Ok(())
}
