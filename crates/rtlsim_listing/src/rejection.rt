//! The checker's no, with a line for each fault.

ghost use Rattle.std.specs.Prelude.{◌≡◌, ◌++◌, flat_map, IfOk, OnOk};
ghost use Rattle.rtlsim_listing.specs.CheckText as spec;
ghost use Rattle.rtlsim_listing.specs.Printing.{Prints};
ghost use Rattle.rtlsim_listing.specs.Reports.{circle_view};

use crate::names::{net_name, process_name, source_name};
use crate::report::{Circle, circle_of, report_of};
use crate::texts::push_title;
use crate::variables::element_of;
use byte_streams::{Sink, push_text};
use fault_rules::Subject;
use rtl_check::CheckFault;
use rtl_net::{Net, NoMemory};
use std::alloc::Global;

/// Writes the checker's no: `no`, and a line for each of these faults of a netlist, as `show_check`
/// does.
pub fn show_faults<W: Sink>(
    alloc: Global,
    net: &Net,
    faults: &[CheckFault],
    out: &mut W,
) -> Result<(), NoMemory>
    ensures { Prints result (W.state out.old) (W.state out.new) (spec.rejection_text net.now faults.now) }
{
    push_text(out, b"no\n");
    push_faults(alloc, net, faults, out)
}

/// The lines of all faults.
fn push_faults<W: Sink>(
    alloc: Global,
    net: &Net,
    faults: &[CheckFault],
    out: &mut W,
) -> Result<(), NoMemory>
    ensures { Prints result (W.state out.old) (W.state out.new) (flat_map (spec.fault_line net.now) faults.now) }
{
    for fault in faults {
        let line = line_of(alloc, net, fault)?;
        push_text(out, &line);
    }
    Ok(())
}

/// The text of a fault's line.
fn line_of(alloc: Global, net: &Net, fault: &CheckFault) -> Result<Vec<u8>, NoMemory>
    ensures { IfOk result (λ line. line.items ≡ spec.fault_line net.now fault.now) }
{
    let report = report_of(fault);
    let mut line = Vec::new(alloc);
    push_title(report.rule, &mut line)?;
    push_subject(alloc, net, circle_of(fault), report.subject, &mut line)?;
    line.extend_from_slice(b"\n")?;
    Ok(line)
}

/// Appends what a fault is told of, with its circle.
fn push_subject(
    alloc: Global,
    net: &Net,
    circle: Circle<'_>,
    subject: Subject,
    line: &mut Vec<u8>,
) -> Result<(), NoMemory>
    ensures { OnOk result (line.new.items
        ≡ line.old.items ++ spec.subject_text net.now (circle_view circle.entry) subject) }
{
    match subject {
        Subject::Sources {
            net: number,
            first,
            second,
        } => push_sources(alloc, net, number, first, second, line),
        Subject::ProcessNet {
            process,
            net: number,
        } => {
            let name = net_name(alloc, net, number)?;
            push_at(alloc, net, process, b" net ", &name, line)
        }
        Subject::Element {
            process,
            variable,
            place,
        } => {
            let name = element_of(alloc, net, process, variable, place)?;
            push_at(alloc, net, process, b" variable ", &name, line)
        }
        Subject::Process { process } => push_member(alloc, net, process, line),
        Subject::Circle => push_circle(alloc, net, circle, line),
        _ => Ok(()),
    }
}

/// Appends a net and its two sources.
fn push_sources(
    alloc: Global,
    net: &Net,
    number: usize,
    first: Option<usize>,
    second: Option<usize>,
    line: &mut Vec<u8>,
) -> Result<(), NoMemory>
    ensures { OnOk result (line.new.items
        ≡ line.old.items ++ spec.sources_text net.now number first second) }
{
    line.extend_from_slice(b" net ")?;
    line.extend_from_slice(&net_name(alloc, net, number)?)?;
    line.extend_from_slice(b" by ")?;
    line.extend_from_slice(&source_name(alloc, net, first)?)?;
    line.extend_from_slice(b" and ")?;
    line.extend_from_slice(&source_name(alloc, net, second)?)?;
    Ok(())
}

/// Appends a process, and a name behind this word.
fn push_at(
    alloc: Global,
    net: &Net,
    process: usize,
    word: &[u8],
    name: &[u8],
    line: &mut Vec<u8>,
) -> Result<(), NoMemory>
    ensures { OnOk result (line.new.items
        ≡ line.old.items ++ (spec.member_text net.now process ++ word.now ++ name.now)) }
{
    push_member(alloc, net, process, line)?;
    line.extend_from_slice(word)?;
    Ok(line.extend_from_slice(name)?)
}

/// Appends the processes or the nets of a circle.
fn push_circle(
    alloc: Global,
    net: &Net,
    circle: Circle<'_>,
    line: &mut Vec<u8>,
) -> Result<(), NoMemory>
    ensures { OnOk result (line.new.items ≡ line.old.items ++ spec.circle_text net.now (circle_view circle.entry)) }
{
    match circle {
        Circle::Processes(processes) => push_members(alloc, net, processes, line),
        Circle::Nets(nets) => {
            line.extend_from_slice(b" nets")?;
            push_links(alloc, net, nets, line)
        }
    }
}

/// Appends the names of a loop's nets, each behind a space.
fn push_links(alloc: Global, net: &Net, nets: &[usize], line: &mut Vec<u8>) -> Result<(), NoMemory>
    ensures { OnOk result (line.new.items ≡ line.old.items ++ flat_map (spec.link_text net.now) nets.now) }
{
    for number in nets {
        line.extend_from_slice(b" ")?;
        line.extend_from_slice(&net_name(alloc, net, *number)?)?;
    }
    Ok(())
}

/// Appends the names of a loop's processes, each behind a space.
fn push_members(
    alloc: Global,
    net: &Net,
    processes: &[usize],
    line: &mut Vec<u8>,
) -> Result<(), NoMemory>
    ensures { OnOk result (line.new.items ≡ line.old.items ++ flat_map (spec.member_text net.now) processes.now) }
{
    for process in processes {
        push_member(alloc, net, *process, line)?;
    }
    Ok(())
}

/// Appends the name of a process behind a space.
fn push_member(alloc: Global, net: &Net, process: usize, line: &mut Vec<u8>) -> Result<(), NoMemory>
    ensures { OnOk result (line.new.items ≡ line.old.items ++ spec.member_text net.now process) }
{
    line.extend_from_slice(b" ")?;
    line.extend_from_slice(&process_name(alloc, net, process)?)?;
    Ok(())
}
