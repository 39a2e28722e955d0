//! Tests that fail while a net is undefined.

ghost use Rattle.std.specs.Prelude.{◌≡◌, not, ◌&&◌, ◌||◌, ℕ, IfOk};
ghost use Rattle.std.specs.List.Sorted.{IsStrictlyIncreasing};
ghost use Rattle.rtl_net.specs.Bodies.{expr_view, test_view};
ghost use Rattle.rtl_body_facts.specs.Reading.{is_in};
ghost use Rattle.rtl_remarks.specs.Undefined as spec;
ghost use Rattle.rtl_remarks.specs.Tables.{tests_fail};

use crate::lists::joined_if;
use crate::undefined::makers_of;
use rtl_body_facts::sort_once;
use rtl_net::{Expr, NoMemory, Test, TestLink};
use std::alloc::Global;
use vhdl_values::{Cmp, Logic};

/// Whether an operator is `and`.
fn is_and(operator: Logic) -> bool
    ensures { result ≡ spec.is_and operator }
{
    match operator {
        Logic::And => true,
        _ => false,
    }
}

/// Whether a relation is `/=`.
fn is_inequality(relation: Cmp) -> bool
    ensures { result ≡ spec.is_inequality relation }
{
    match relation {
        Cmp::Ne => true,
        _ => false,
    }
}

/// The nets for which a relation of a number fails.
fn fails_at(alloc: Global, relation: Cmp, expr: &Expr) -> Result<Vec<usize>, NoMemory>
    ensures { IfOk result (λ nets. (n : ℕ) → is_in n nets.items
        ≡ (not (spec.is_inequality relation) && spec.some_is n (expr_view expr.now))) }
{
    if is_inequality(relation) {
        return Ok(Vec::new(alloc));
    }
    let found = makers_of(alloc, expr)?;
    Ok(found.nets)
}

/// The same of a relation of two.
fn fails_between(
    alloc: Global,
    relation: Cmp,
    left: &Expr,
    right: &Expr,
) -> Result<Vec<usize>, NoMemory>
    ensures { IfOk result (λ nets. (n : ℕ) → is_in n nets.items
        ≡ (not (spec.is_inequality relation)
        && (spec.some_is n (expr_view left.now) || spec.some_is n (expr_view right.now)))) }
{
    if is_inequality(relation) {
        return Ok(Vec::new(alloc));
    }
    let mut found = makers_of(alloc, left)?;
    let other = makers_of(alloc, right)?;
    found.nets.extend_from_slice(&other.nets)?;
    Ok(found.nets)
}

/// The nets for which a test fails while one of them is undefined. It takes time and memory in
/// proportion to the test.
#[cycle(failing)]
fn failing(alloc: Global, test: &Test) -> Result<Vec<usize>, NoMemory>
    ensures { IfOk result (λ nets. (n : ℕ) → is_in n nets.items ≡ spec.fails n (test_view test.now)) }
{
    match test {
        Test::Compared(relation, left, right) => fails_between(alloc, *relation, left, right),
        Test::ComparedTo(relation, expr, _) => fails_at(alloc, *relation, expr),
        Test::Combined { first, rest } => {
            let nets = failing(alloc, first)?;
            failing_links(alloc, nets, rest)
        }
        _ => Ok(Vec::new(alloc)),
    }
}

/// The same of a chain, of whose first operand they are known.
#[cycle(failing)]
fn failing_links(
    alloc: Global,
    mut nets: Vec<usize>,
    rest: &[TestLink],
) -> Result<Vec<usize>, NoMemory>
    ensures { IfOk result (λ found. (n : ℕ) → is_in n found.items ≡ tests_fail n (is_in n nets.items) rest.now) }
{
    for link in rest {
        let others = failing(alloc, &link.operand)?;
        nets = joined_if(alloc, is_and(link.operator), nets, &others)?;
    }
    Ok(nets)
}

/// The same, rising.
pub(crate) fn failing_nets(alloc: Global, test: &Test) -> Result<Vec<usize>, NoMemory>
    ensures rise { IfOk result (λ nets. IsStrictlyIncreasing nets.items) }
    ensures are { IfOk result (λ nets. (n : ℕ) → is_in n nets.items ≡ spec.fails n (test_view test.now)) }
{
    let mut nets = failing(alloc, test)?;
    sort_once(&mut nets);
    Ok(nets)
}
