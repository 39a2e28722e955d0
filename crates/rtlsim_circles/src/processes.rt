//! A circle's processes, and the nets on the way from each to the next.

ghost use Rattle.std.specs.Prelude.{◌≡◌, ◌++◌, slice_get, IfOk, OnOk};
ghost use Rattle.std.specs.List.Sorted.{IsStrictlyIncreasing};
ghost use Rattle.rtlsim_circles.specs.Circles as spec;

use rtl_body_facts::contains_rising;
use rtl_net::{Net, NoMemory};
use rtl_remarks::targets_of;
use rtlsim_listing::{net_name, process_name};
use std::alloc::Global;

/// A loop's processes, each with the net on the way from the next, and the first once more.
pub(crate) fn loop_text(alloc: Global, net: &Net, processes: &[usize]) -> Result<Vec<u8>, NoMemory>
    ensures { IfOk result (λ text. text.items ≡ spec.loop_text net.now processes.now) }
{
    match processes {
        [first, ..] => round_text(alloc, net, *first, processes),
        [] => Ok(Vec::new(alloc)),
    }
}

/// These processes of a loop, each with the net on the way from the next, and the first once more.
fn round_text(
    alloc: Global,
    net: &Net,
    first: usize,
    processes: &[usize],
) -> Result<Vec<u8>, NoMemory>
    ensures { IfOk result (λ text. text.items ≡ spec.round_text net.now first processes.now) }
{
    let mut text = Vec::new(alloc);
    let mut left = processes;
    while let [process, others @ ..] = left {
        push_step(alloc, net, *process, first_or(first, others), &mut text)?;
        left = others;
    }
    text.extend_from_slice(&process_name(alloc, net, first)?)?;
    Ok(text)
}

/// The first of these processes, or another where there is none.
pub fn first_or(other: usize, processes: &[usize]) -> usize
    ensures { result ≡ spec.first_or other processes.now }
{
    match processes {
        [process, ..] => *process,
        [] => other,
    }
}

/// Appends a process of a loop, and the net on the way to it from the next.
fn push_step(
    alloc: Global,
    net: &Net,
    process: usize,
    next: usize,
    text: &mut Vec<u8>,
) -> Result<(), NoMemory>
    ensures { OnOk result (text.new.items ≡ text.old.items ++ spec.step_text net.now process next) }
{
    text.extend_from_slice(&process_name(alloc, net, process)?)?;
    text.extend_from_slice(b" <- ")?;
    let link = link_net(alloc, net, process, next)?;
    text.extend_from_slice(&name_of_net(alloc, net, link)?)?;
    text.extend_from_slice(b" <- ")?;
    Ok(())
}

/// The name of a net, empty where there is none.
pub fn name_of_net(alloc: Global, net: &Net, number: Option<usize>) -> Result<Vec<u8>, NoMemory>
    ensures { IfOk result (λ text. text.items ≡ spec.name_of_net net.now number) }
{
    match number {
        Some(number) => net_name(alloc, net, number),
        None => Ok(Vec::new(alloc)),
    }
}

/// The lowest net to which a process is sensitive and that another drives. It takes the memory of
/// a list of the latter's nets.
pub fn link_net(
    alloc: Global,
    net: &Net,
    process: usize,
    next: usize,
) -> Result<Option<usize>, NoMemory>
    ensures { IfOk result (λ link. link
        ≡ spec.link_net (slice_get net.now.processes process) (slice_get net.now.processes next)) }
{
    let Some(process) = net.processes().get(process) else {
        return Ok(None);
    };
    let Some(next) = net.processes().get(next) else {
        return Ok(None);
    };
    let targets = targets_of(alloc, &next.drives)?;
    Ok(first_among(&targets, process.wakes.as_slice()))
}

/// The first of these nets that is one of the others, which rise.
fn first_among(others: &[usize], nets: &[usize]) -> Option<usize>
    requires rise { IsStrictlyIncreasing others.now }
    ensures { result ≡ spec.first_among others.now nets.now }
{
    let mut left = nets;
    while let [net, rest @ ..] = left {
        if contains_rising(others, *net) {
            return Some(*net);
        }
        left = rest;
    }
    None
}
