//! What is undefined while a net is.

ghost use Rattle.std.specs.Prelude.{◌≡◌, true, false, ℕ, IfOk};
ghost use Rattle.std.specs.List.Sorted.{IsStrictlyIncreasing};
ghost use Rattle.rtl_model.specs.bodies.Body.{elements};
ghost use Rattle.rtl_net.specs.Bodies.{operator_view, expr_view, value_view};
ghost use Rattle.rtl_body_facts.specs.Reading.{is_in};
ghost use Rattle.rtl_remarks.specs.Undefined as spec;
ghost use Rattle.rtl_remarks.specs.Tables.{MakeUndefined, links_some, links_whole};

use crate::lists::joined_if;
use rtl_body_facts::sort_once;
use rtl_net::{Expr, Link, NoMemory, Operator, Value};
use rtl_outside_ranges::numbers_of;
use std::alloc::Global;
use vhdl_values::Logic;

/// Nets each of which, undefined, makes some element of an expression so.
#[derive(Drop)]
pub(crate) struct Makers {
    pub(crate) nets: Vec<usize>,
    /// Whether it then makes each element so.
    pub(crate) whole: bool,
}

/// Whether an undefined operand shows whatever the other is.
fn is_exclusive(operator: Logic) -> bool
    ensures { result ≡ spec.is_exclusive operator }
{
    match operator {
        Logic::And | Logic::Or | Logic::Nand | Logic::Nor => false,
        Logic::Xor | Logic::Xnor => true,
    }
}

/// Whether what an operator makes has an undefined element where an operand has one.
fn passes(operator: Operator) -> bool
    ensures { result ≡ spec.passes (operator_view operator) }
{
    match operator {
        Operator::Logical(logic) => is_exclusive(logic),
        Operator::Concatenate
        | Operator::Add
        | Operator::Subtract
        | Operator::Multiply
        | Operator::Signed(_) => true,
    }
}

/// Whether then each element is undefined, where this is known of the operands.
fn whole_of(operator: Operator, left: bool, right: bool) -> bool
    ensures { result ≡ spec.whole_of (operator_view operator) left right }
{
    match operator {
        Operator::Logical(_) => left && right,
        Operator::Concatenate => false,
        Operator::Add | Operator::Subtract | Operator::Multiply | Operator::Signed(_) => true,
    }
}

/// No nets.
fn none(alloc: Global) -> Makers
    ensures nets { (n : ℕ) → is_in n result.nets.items ≡ false }
    ensures whole { result.whole ≡ true }
{
    Makers {
        nets: Vec::new(alloc),
        whole: true,
    }
}

/// What makes an expression undefined. It takes time and memory in proportion to it.
#[cycle(undefined)]
pub(crate) fn makers_of(alloc: Global, expr: &Expr) -> Result<Makers, NoMemory>
    ensures { IfOk result (λ found. MakeUndefined (expr_view expr.now) found) }
{
    match expr {
        Expr::Signal(indices) => {
            let nets = numbers_of(alloc, indices)?;
            let whole = nets.len() == 1;
            Ok(Makers { nets, whole })
        }
        Expr::Inverse(operand) => makers_of(alloc, operand),
        Expr::Filled { element, .. } => {
            let found = makers_of(alloc, element)?;
            Ok(Makers {
                nets: found.nets,
                whole: true,
            })
        }
        Expr::Chain { first, rest } => {
            let left = makers_of(alloc, first)?;
            links_of(alloc, left, rest)
        }
        _ => Ok(none(alloc)),
    }
}

/// The same of a chain, of whose first operand it is known.
#[cycle(undefined)]
fn links_of(alloc: Global, left: Makers, rest: &[Link]) -> Result<Makers, NoMemory>
    ensures nets { IfOk result (λ found. (n : ℕ) → is_in n found.nets.items
        ≡ links_some n (is_in n left.nets.items) rest.now) }
    ensures whole { IfOk result (λ found. found.whole ≡ links_whole left.whole rest.now) }
{
    let Makers {
        mut nets,
        mut whole,
    } = left;
    for link in rest {
        let right = makers_of(alloc, &link.operand)?;
        nets = joined_if(alloc, passes(link.operator), nets, &right.nets)?;
        whole = whole_of(link.operator, whole, right.whole);
    }
    Ok(Makers { nets, whole })
}

/// The nets each of which, undefined, makes each element of an expression's value so, rising.
pub(crate) fn expr_keepers(alloc: Global, expr: &Expr) -> Result<Vec<usize>, NoMemory>
    ensures rise { IfOk result (λ nets. IsStrictlyIncreasing nets.items) }
    ensures are { IfOk result (λ nets. (n : ℕ)
        → is_in n nets.items ≡ spec.keeps n (elements (expr_view expr.now))) }
{
    let mut nets = unsorted_expr_keepers(alloc, expr)?;
    sort_once(&mut nets);
    Ok(nets)
}

/// The same in any order.
fn unsorted_expr_keepers(alloc: Global, expr: &Expr) -> Result<Vec<usize>, NoMemory>
    ensures { IfOk result (λ nets. (n : ℕ) → is_in n nets.items ≡ spec.keeps n (elements (expr_view expr.now))) }
{
    let found = makers_of(alloc, expr)?;
    if found.whole {
        return Ok(found.nets);
    }
    Ok(Vec::new(alloc))
}

/// The nets each of which, undefined, makes each element of a value so, rising.
pub(crate) fn keepers(alloc: Global, value: &Value) -> Result<Vec<usize>, NoMemory>
    ensures rise { IfOk result (λ nets. IsStrictlyIncreasing nets.items) }
    ensures are { IfOk result (λ nets. (n : ℕ) → is_in n nets.items ≡ spec.keeps n (value_view value.now)) }
{
    let mut nets = unsorted_keepers(alloc, value)?;
    sort_once(&mut nets);
    Ok(nets)
}

/// The same in any order.
fn unsorted_keepers(alloc: Global, value: &Value) -> Result<Vec<usize>, NoMemory>
    ensures { IfOk result (λ nets. (n : ℕ) → is_in n nets.items ≡ spec.keeps n (value_view value.now)) }
{
    match value {
        Value::Elements(expr) => unsorted_expr_keepers(alloc, expr),
        _ => Ok(Vec::new(alloc)),
    }
}
