//! The nets that a process assigns.

ghost use Rattle.std.specs.Prelude.{◌≡◌, ◌&&◌, ℕ, IfOk};
ghost use Rattle.std.specs.List.{list_all};
ghost use Rattle.std.specs.List.Sorted.{IsStrictlyIncreasing};
ghost use Rattle.rtl_net.specs.Bodies.{statements_of};
ghost use Rattle.rtl_body_facts.specs.Reading.{is_in};
ghost use Rattle.rtl_mixed_reasons.specs.Reasons as spec;

use rtl_body_facts::contains_rising;
use rtl_latches::assigned_on_some_path;
use rtl_net::{Process, Statement};
use std::alloc::{AllocError, Global};
use std::slice;

/// The nets that a process assigns somewhere in these statements, on whatever path, rising.
pub(crate) fn nets_of(
    alloc: Global,
    process: &Process,
    statements: &[Statement],
) -> Result<Vec<usize>, AllocError>
    ensures rise { IfOk result (λ nets. IsStrictlyIncreasing nets.items) }
    ensures are { IfOk result (λ nets. (n : ℕ) → is_in n nets.items
        ≡ spec.assigns process.now (statements_of statements.now) n) }
{
    assigned_on_some_path(alloc, statements, &process.drives)
}

/// The same of one statement.
pub(crate) fn nets_in(
    alloc: Global,
    process: &Process,
    statement: &Statement,
) -> Result<Vec<usize>, AllocError>
    ensures rise { IfOk result (λ nets. IsStrictlyIncreasing nets.items) }
    ensures are { IfOk result (λ nets. (n : ℕ) → is_in n nets.items ≡ spec.assigns_in process.now statement.now n) }
{
    nets_of(alloc, process, slice::from_ref(statement))
}

/// Of the nets that a process drives, the first that is one of these, which rise.
pub(crate) fn first_net(process: &Process, nets: &[usize]) -> Option<usize>
    requires { IsStrictlyIncreasing nets.now }
    ensures { result ≡ spec.first_net process.now (λ n. is_in n nets.now) }
{
    if nets.is_empty() {
        return None;
    }
    let mut left = process.drives.as_slice();
    while let [driver, rest @ ..] = left {
        if contains_rising(nets, driver.net) {
            return Some(driver.net);
        }
        left = rest;
    }
    None
}

/// The first that is one of these and of those, which rise both.
pub(crate) fn first_common(process: &Process, these: &[usize], those: &[usize]) -> Option<usize>
    requires these { IsStrictlyIncreasing these.now }
    requires those { IsStrictlyIncreasing those.now }
    ensures { result ≡ spec.first_net process.now (λ n. is_in n these.now && is_in n those.now) }
{
    let mut left = process.drives.as_slice();
    while let [driver, rest @ ..] = left {
        if contains_rising(these, driver.net) && contains_rising(those, driver.net) {
            return Some(driver.net);
        }
        left = rest;
    }
    None
}

/// Whether all of these nets are among others, which rise.
pub(crate) fn are_among(nets: &[usize], others: &[usize]) -> bool
    requires { IsStrictlyIncreasing others.now }
    ensures { result ≡ list_all (λ n. is_in n others.now) nets.now }
{
    let mut left = nets;
    while let [net, rest @ ..] = left {
        if !contains_rising(others, *net) {
            return false;
        }
        left = rest;
    }
    true
}
