//! Nets that don't come from outside: those that a process drives, and clocks.

ghost use Rattle.std.specs.Prelude.{◌≡◌, ◌||◌, ℕ, IfOk, is_some};
ghost use Rattle.std.specs.List.Sorted.{IsStrictlyIncreasing};
ghost use Rattle.rtl_body_facts.specs.Reading.{is_in};
ghost use Rattle.rtl_copy_ends.specs.Ends as ends;
ghost use Rattle.rtl_copy_ends.specs.Inside as spec;

use crate::processes::driven_by;
use rtl_body_facts::{ProcessKind, contains_rising, sort_once};
use rtl_net::Net;
use std::alloc::{AllocError, Global};

/// The clock of a process of this kind, if it has one.
fn clock_of(kind: ProcessKind) -> Option<usize>
    ensures { result ≡ spec.clock_of kind }
{
    match kind {
        ProcessKind::Clocked(clocking) => Some(clocking.clock),
        ProcessKind::Combinational | ProcessKind::Mixed => None,
    }
}

/// The clocks of processes of these kinds, in order.
fn listed_clocks(alloc: Global, kinds: &[ProcessKind]) -> Result<Vec<usize>, AllocError>
    ensures { IfOk result (λ clocks. clocks.items ≡ spec.clocks kinds.now) }
{
    let mut clocks = Vec::new(alloc);
    for kind in kinds {
        if let Some(clock) = clock_of(*kind) {
            clocks.push(clock)?;
        }
    }
    Ok(clocks)
}

/// The same, rising, each once.
fn clocks_of(alloc: Global, kinds: &[ProcessKind]) -> Result<Vec<usize>, AllocError>
    ensures rise { IfOk result (λ clocks. IsStrictlyIncreasing clocks.items) }
    ensures are { IfOk result (λ clocks. (n : ℕ) → is_in n clocks.items ≡ is_in n (spec.clocks kinds.now)) }
{
    let mut clocks = listed_clocks(alloc, kinds)?;
    sort_once(&mut clocks);
    Ok(clocks)
}

/// Whether a process drives a net, or it is one of these clocks, which rise.
fn is_inside(net: &Net, clocks: &[usize], number: usize) -> bool
    requires { IsStrictlyIncreasing clocks.now }
    ensures { result ≡ (is_some (ends.driven_by net.now number) || is_in number clocks.now) }
{
    driven_by(net, number).is_some() || contains_rising(clocks, number)
}

/// Of each net whether a process drives it or it is the clock of a process, where these are the
/// kinds of all.
pub(crate) fn inside_nets(
    alloc: Global,
    net: &Net,
    kinds: &[ProcessKind],
) -> Result<Vec<bool>, AllocError>
    requires { kinds.now ≡ ends.all_kinds net.now }
    ensures { IfOk result (λ inside. inside.items ≡ spec.inside net.now) }
{
    let clocks = clocks_of(alloc, kinds)?;
    let mut inside = Vec::new(alloc);
    for number in 0..net.nets() {
        inside.push(is_inside(net, &clocks, number))?;
    }
    Ok(inside)
}
