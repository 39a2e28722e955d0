//! The nets of one process that break a rule.

ghost use Rattle.std.specs.Prelude.{◌≡◌, ◌∷◌, [], ◌&&◌, not, ℕ, IfOk};
ghost use Rattle.std.specs.List.{filter};
ghost use Rattle.std.specs.List.Sorted.{IsStrictlyIncreasing};
ghost use Rattle.rtl_model.specs.bodies.Assigns.{must_assign};
ghost use Rattle.rtl_net.specs.Nets.{body_of};
ghost use Rattle.rtl_body_facts.specs.Reading.{is_in};
ghost use Rattle.rtl_body_facts.specs.Paths.{driven, to_net};
ghost use Rattle.rtl_process_kinds.specs.KindViews.{nets_tested};
ghost use Rattle.rtl_check.specs.Rules.{is_data, clocked_breaks, combinational_breaks, breaks};

use crate::rule::Rule;
use rtl_body_facts::{Clocking, ProcessKind, assigned_nets, contains_rising, sort_once};
use rtl_net::{Driver, NoMemory, Process};
use std::alloc::Global;

/// Those of some nets that aren't among others.
fn sought_outside(alloc: Global, nets: &[usize], others: &[usize]) -> Result<Vec<usize>, NoMemory>
    requires { IsStrictlyIncreasing others.now }
    ensures { IfOk result (λ v. v.items ≡ filter (λ n. not (is_in n others.now)) nets.now) }
{
    nets.iter()
        .copied()
        .filter(|net| !contains_rising(others, *net))
        .collect(alloc)
}

/// The same, without a search where both are alike, as they are in most processes.
fn outside(alloc: Global, nets: &[usize], others: &[usize]) -> Result<Vec<usize>, NoMemory>
    requires { IsStrictlyIncreasing others.now }
    ensures { IfOk result (λ v. v.items ≡ filter (λ n. not (is_in n others.now)) nets.now) }
{
    if nets == others {
        return Ok(Vec::new(alloc));
    }
    sought_outside(alloc, nets, others)
}

/// The nets of some drivers.
fn targets_of(alloc: Global, drives: &[Driver]) -> Result<Vec<usize>, NoMemory>
    ensures { IfOk result (λ v. v.items ≡ driven drives.now) }
{
    drives.iter().map(|driver| driver.net).collect(alloc)
}

/// The nets that a process drives and doesn't assign on every syntactic path, rising.
fn latches(alloc: Global, process: &Process) -> Result<Vec<usize>, NoMemory>
    ensures rise { IfOk result (λ v. IsStrictlyIncreasing v.items) }
    ensures are { IfOk result (λ v. (n : ℕ)
        → is_in n v.items ≡ (is_in n (driven process.now.drives.items)
        && not (must_assign (to_net process.now.drives.items n) (body_of process.now)))) }
{
    let mut targets = targets_of(alloc, &process.drives)?;
    sort_once(&mut targets);
    let assigned = assigned_nets(alloc, &process.drives, &process.body)?;
    outside(alloc, &targets, &assigned)
}

/// The nets that the tests of a clocked process look at, its clock and its reset, rising.
fn tested_nets(alloc: Global, clocking: Clocking) -> Result<Vec<usize>, NoMemory>
    ensures rise { IfOk result (λ v. IsStrictlyIncreasing v.items) }
    ensures are { IfOk result (λ v. (n : ℕ) → is_in n v.items ≡ is_in n (nets_tested clocking)) }
{
    let mut nets = Vec::new(alloc);
    nets.push(clocking.clock)?;
    if let Some(reset) = clocking.reset {
        nets.push(reset)?;
    }
    sort_once(&mut nets);
    Ok(nets)
}

/// Whether a net that a clocked process reads is read by the branch under its edge, or is its
/// reset.
pub fn is_used(clocking: Clocking, net: usize) -> bool
    ensures { result ≡ is_data clocking net }
{
    if net != clocking.clock || clocking.reads_clock {
        return true;
    }
    match clocking.reset {
        Some(reset) => reset == net,
        None => false,
    }
}

/// The clocks that a clocked process reads as data.
fn clocks_as_data(
    alloc: Global,
    clocks: &[usize],
    reads: &[usize],
    clocking: Clocking,
) -> Result<Vec<usize>, NoMemory>
    requires { IsStrictlyIncreasing clocks.now }
    ensures { IfOk result (λ v. v.items ≡ filter (λ n. is_in n clocks.now && is_data clocking n) reads.now) }
{
    reads
        .iter()
        .copied()
        .filter(|net| contains_rising(clocks, *net) && is_used(clocking, *net))
        .collect(alloc)
}

/// The nets of a clocked process that break a rule.
fn clocked_nets(
    alloc: Global,
    inputs: &[usize],
    clocks: &[usize],
    rule: Rule,
    process: &Process,
    clocking: Clocking,
) -> Result<Vec<usize>, NoMemory>
    requires inputs { IsStrictlyIncreasing inputs.now }
    requires clocks { IsStrictlyIncreasing clocks.now }
    requires reads { IsStrictlyIncreasing process.now.reads.items }
    requires wakes { IsStrictlyIncreasing process.now.wakes.items }
    ensures rise { IfOk result (λ v. IsStrictlyIncreasing v.items) }
    ensures are { IfOk result (λ v. (n : ℕ)
        → is_in n v.items ≡ clocked_breaks inputs.now clocks.now process.now clocking rule n) }
{
    match rule {
        Rule::ClockNotInput => outside(alloc, &[clocking.clock], inputs),
        Rule::EdgeNotSensitive => {
            let tested = tested_nets(alloc, clocking)?;
            outside(alloc, &tested, process.wakes.as_slice())
        }
        Rule::ClockAsData => clocks_as_data(alloc, clocks, &process.reads, clocking),
        _ => Ok(Vec::new(alloc)),
    }
}

/// The nets of a combinational process that break a rule.
fn combinational_nets(alloc: Global, rule: Rule, process: &Process) -> Result<Vec<usize>, NoMemory>
    requires reads { IsStrictlyIncreasing process.now.reads.items }
    requires wakes { IsStrictlyIncreasing process.now.wakes.items }
    ensures rise { IfOk result (λ v. IsStrictlyIncreasing v.items) }
    ensures are { IfOk result (λ v. (n : ℕ) → is_in n v.items ≡ combinational_breaks process.now rule n) }
{
    match rule {
        Rule::MissingSensitivity => outside(alloc, &process.reads, process.wakes.as_slice()),
        Rule::Latch => latches(alloc, process),
        _ => Ok(Vec::new(alloc)),
    }
}

/// The nets of a process that break a rule, rising; inputs and clocks are those of the whole
/// netlist, rising too.
pub fn breaking_nets(
    alloc: Global,
    inputs: &[usize],
    clocks: &[usize],
    rule: Rule,
    process: &Process,
    kind: ProcessKind,
) -> Result<Vec<usize>, NoMemory>
    requires inputs { IsStrictlyIncreasing inputs.now }
    requires clocks { IsStrictlyIncreasing clocks.now }
    requires reads { IsStrictlyIncreasing process.now.reads.items }
    requires wakes { IsStrictlyIncreasing process.now.wakes.items }
    ensures rise { IfOk result (λ v. IsStrictlyIncreasing v.items) }
    ensures are { IfOk result (λ v. (n : ℕ) → is_in n v.items ≡ breaks inputs.now clocks.now process.now kind rule n) }
{
    match kind {
        ProcessKind::Combinational => combinational_nets(alloc, rule, process),
        ProcessKind::Clocked(clocking) => clocked_nets(
            alloc, inputs, clocks, rule, process, clocking,
        ),
        ProcessKind::Mixed => Ok(Vec::new(alloc)),
    }
}
