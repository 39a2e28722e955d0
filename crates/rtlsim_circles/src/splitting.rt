//! The process of a circle that can be split.

ghost use Rattle.std.specs.Prelude.{◌≡◌, slice_get, IfOk};
ghost use Rattle.rtlsim_circles.specs.Splits as spec;

use crate::looking::looks_at;
use crate::processes::{first_or, link_net};
use rtl_net::{Net, NoMemory, Process};
use std::alloc::Global;

/// A process of a circle, a net of the circle that it drives, and the next one, at which that net
/// doesn't look.
#[derive(Clone, Copy)]
pub struct Split {
    pub process: usize,
    pub net: usize,
    pub next: usize,
}

/// The first process of a circle that can be split, if one can. It takes time and memory in
/// proportion to what the bodies of the circle's processes look at.
pub fn split_of(alloc: Global, net: &Net, processes: &[usize]) -> Result<Option<Split>, NoMemory>
    ensures { IfOk result (λ split. split ≡ spec.split_of net.now processes.now) }
{
    match processes {
        [first, ..] => {
            let last = processes[processes.len() - 1];
            first_split(alloc, net, *first, last, processes)
        }
        [] => Ok(None),
    }
}

/// The first of these processes that can be split. They end the circle that begins with the first,
/// and stand behind another.
fn first_split(
    alloc: Global,
    net: &Net,
    first: usize,
    before: usize,
    processes: &[usize],
) -> Result<Option<Split>, NoMemory>
    ensures { IfOk result (λ split. split ≡ spec.first_split net.now first before processes.now) }
{
    let mut previous = before;
    let mut left = processes;
    while let [this, rest @ ..] = left {
        let split = split_at(alloc, net, previous, *this, first_or(first, rest))?;
        if split.is_some() {
            return Ok(split);
        }
        previous = *this;
        left = rest;
    }
    Ok(None)
}

/// How a process of a circle can be split, by the one before and the next.
fn split_at(
    alloc: Global,
    net: &Net,
    before: usize,
    this: usize,
    next: usize,
) -> Result<Option<Split>, NoMemory>
    ensures { IfOk result (λ split. split ≡ spec.split_at net.now before this next) }
{
    let Some(driven) = link_net(alloc, net, before, this)? else {
        return Ok(None);
    };
    let Some(next) = link_net(alloc, net, this, next)? else {
        return Ok(None);
    };
    let split = Split {
        process: this,
        net: driven,
        next,
    };
    split_if(alloc, net, split)
}

/// A split, if its process can be split so.
fn split_if(alloc: Global, net: &Net, split: Split) -> Result<Option<Split>, NoMemory>
    ensures { IfOk result (λ found. found ≡ spec.split_if (slice_get net.now.processes split.process) split) }
{
    let Some(process) = net.processes().get(split.process) else {
        return Ok(None);
    };
    if is_split(alloc, process, split)? {
        Ok(Some(split))
    } else {
        Ok(None)
    }
}

/// Whether a process drives more than this net, which doesn't look at the next.
fn is_split(alloc: Global, process: &Process, split: Split) -> Result<bool, NoMemory>
    ensures { IfOk result (λ is. is ≡ spec.is_split process.now split) }
{
    if process.drives.len() < 2 {
        return Ok(false);
    }
    Ok(!looks_at(alloc, process, split.net, split.next)?)
}
