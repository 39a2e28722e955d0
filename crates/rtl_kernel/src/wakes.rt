//! Which processes wake on each net.

ghost use Rattle.std.specs.Prelude.{◌≡◌, ◌↔◌, ◌%◌, true, length, map, IfOk};
ghost use Rattle.rtl_kernel.specs.drivers.Brought.{AreAloneAlike, AreToldApart, MarkAlone};
ghost use Rattle.rtl_kernel.specs.wakes.Woken.{IsIndex, wakers_of};
ghost use Rattle.rtl_net_groups.specs.Groups.{AreRuns};
ghost use Rattle.rtl_net.specs.Nets.{flat};
ghost use Rattle.rtl_net.specs.declared.process.Process.{Process};

use rtl_net::{Net, Process, Signal};
use rtl_net_groups::{Groups, Lists};
use std::alloc::{AllocError, Global};

/// A netlist's nets in groups that the same processes wake on, and that have one source each, or
/// none of them just one.
pub fn wake_groups(alloc: Global, net: &Net) -> Result<Groups, AllocError>
    ensures runs { IfOk result (λ groups. AreRuns groups.of_net groups.first) }
    ensures each_group { IfOk result (λ groups. length groups.listed ≡ length groups.first) }
    ensures as_many { IfOk result (λ groups. length groups.of_net ≡ length net.now.types) }
    ensures index { IfOk result (λ groups. IsIndex (map (λ (p : Process). p.wakes.items) net.now.processes)
        (wakers_of groups)) }
    ensures alike { IfOk result (λ groups. AreAloneAlike (flat net.now) groups.of_net) }
{
    let mut declared = declarations(alloc, net.nets(), net.signals())?;
    tell_apart(&mut declared, net);
    let wakes = wake_lists(alloc, net.processes())?;
    let groups = Groups::new(alloc, &declared, &wakes)?;
    Ok(groups)
}

/// The nets that each process wakes on.
fn wake_lists(alloc: Global, processes: &[Process]) -> Result<Lists<usize>, AllocError>
    ensures { IfOk result (λ wakes. wakes ≡ map (λ (p : Process). p.wakes.items) processes.now) }
{
    let mut wakes = Lists::new(alloc)?;
    for process in processes {
        wakes.push(process.wakes.as_slice())?;
    }
    Ok(wakes)
}

/// For each of so many nets the first of these signals that has it, which is the one that it was
/// declared as.
fn declarations(alloc: Global, nets: usize, signals: &[Signal]) -> Result<Vec<usize>, AllocError>
    ensures { IfOk result (λ declared. length declared.items ≡ nets) }
{
    let mut declared = vec![in alloc; 0; nets]?;
    for later in 0..signals.len() {
        let number = signals.len() - 1 - later;
        number_nets(&mut declared, &signals[number].nets, number);
    }
    Ok(declared)
}

/// Gives those of these nets that are there a number.
fn number_nets(declared: &mut Vec<usize>, nets: &[usize], number: usize)
    ensures { length declared.new.items ≡ length declared.old.items }
{
    for net in nets {
        if *net < declared.len() {
            declared[*net] = number;
        }
    }
}

/// Gives nets with one source odd numbers, and even ones to those with none or with several.
fn tell_apart(declared: &mut Vec<usize>, net: &Net)
    requires { length declared.old.items ≡ length net.now.types }
    ensures as_many { length declared.new.items ≡ length declared.old.items }
    ensures apart { AreToldApart (flat net.now) declared.new.items }
{
    for each in 0..declared.len() {
        let is_alone = net.sources(each).len() == 1;
        declared[each] = told_apart(declared[each], is_alone);
    }
}

/// A number for this one, odd where it is to be. As long as they aren't huge, numbers that differ
/// stay different.
fn told_apart(number: usize, is_odd: bool) -> usize
    ensures { (is_odd ≡ true) ↔ (result % 2 ≡ 1) }
{
    let even = number.min(usize::MAX / 2) * 2;
    if is_odd { even + 1 } else { even }
}

/// For each of these groups whether its nets have one source each.
pub fn alone_groups(alloc: Global, net: &Net, groups: &Groups) -> Result<Vec<bool>, AllocError>
    requires runs { AreRuns groups.now.of_net groups.now.first }
    requires each_group { length groups.now.listed ≡ length groups.now.first }
    requires each_net { length groups.now.of_net ≡ length net.now.types }
    requires alike { AreAloneAlike (flat net.now) groups.now.of_net }
    ensures { IfOk result (λ alone. MarkAlone (flat net.now) groups.now alone.items) }
{
    let count = groups.count();
    let mut alone = Vec::with_capacity(alloc, count)?;
    for group in 0..count {
        let first = groups.first(group);
        let sources = net.sources(first);
        alone.push(sources.len() == 1)?;
    }
    Ok(alone)
}
