//! The nets that assignments give a number that may lie outside.

ghost use Rattle.std.specs.Prelude.{◌≡◌, ◌&&◌, ◌||◌, false, ℕ, IfOk, OnOk};
ghost use Rattle.std.specs.List.{list_any};
ghost use Rattle.std.specs.List.Sorted.{IsStrictlyIncreasing};
ghost use Rattle.rtl_net.specs.Indices.{numbers};
ghost use Rattle.rtl_model.specs.bodies.Body.{Branches};
ghost use Rattle.rtl_net.specs.Bodies.{expr_view, value_view, statement_view, statements_of, branches_of};
ghost use Rattle.rtl_net.specs.Nets.{body_of};
ghost use Rattle.rtl_body_facts.specs.Paths.{covers};
ghost use Rattle.rtl_body_facts.specs.Reading.{is_in};
ghost use Rattle.rtl_outside_ranges.specs.Outside as spec;
ghost use Rattle.rtl_outside_ranges.specs.Tables.{alternative_gives, behind, Rises};

use crate::looked::{Round, expr_is_apart, with_test, with_value};
use rtl_body_facts::{sort_once, target_nets};
use rtl_net::{Alternative, Branch, Driver, Expr, Indices, NoMemory, Process, Statement, Value};
use std::alloc::Global;
use vhdl_numbers::Conversion;

/// Whether an expression asks at last whether its number lies in a range.
fn asks(expr: &Expr) -> bool
    ensures { result ≡ spec.asks (expr_view expr.now) }
{
    match expr {
        Expr::Converted { conversion, .. } => is_within(*conversion),
        Expr::Counted { operand, .. } => asks(operand),
        Expr::Chain { first, rest } => rest.is_empty() && asks(first),
        _ => false,
    }
}

/// Whether this asks whether a number lies in a range.
fn is_within(conversion: Conversion) -> bool
    ensures { result ≡ spec.is_within conversion }
{
    match conversion {
        Conversion::Within { .. } => true,
        _ => false,
    }
}

/// Whether a value is a number that may lie outside.
fn may_leave(round: Round<'_>, value: &Value) -> bool
    ensures { result ≡ spec.may_leave (λ m. is_in m round.entry.looked.now) (value_view value.now) }
{
    match value {
        Value::Elements(expr) => asks(expr) && expr_is_apart(round.looked, expr),
        _ => false,
    }
}

/// Appends the targets of an assignment of such a value.
fn push_targets(
    alloc: Global,
    drives: &[Driver],
    round: Round<'_>,
    places: &Indices,
    value: &Value,
    nets: &mut Vec<usize>,
) -> Result<(), NoMemory>
    ensures { OnOk result ((n : ℕ) → is_in n nets.new.items ≡ (is_in n nets.old.items
        || (list_any (covers drives.now n) (numbers places.now)
        && spec.may_leave (λ m. is_in m round.entry.looked.now) (value_view value.now)))) }
{
    if may_leave(round, value) {
        let targets = target_nets(alloc, drives, places)?;
        nets.extend_from_slice(&targets)?;
    }
    Ok(())
}

/// Appends those of a statement.
#[cycle(gives)]
fn push_statement(
    alloc: Global,
    drives: &[Driver],
    round: Round<'_>,
    statement: &Statement,
    nets: &mut Vec<usize>,
) -> Result<(), NoMemory>
    ensures { OnOk result ((n : ℕ) → is_in n nets.new.items ≡ (is_in n nets.old.items
        || spec.stmt_gives drives.now (λ m. is_in m round.entry.logic.now) (λ m. is_in m round.entry.looked.now) n
        (statement_view statement.now))) }
{
    let logic = round.logic;
    match statement {
        Statement::Assign { places, value } => {
            push_targets(alloc, drives, round, places, value, nets)
        }
        Statement::If {
            branches,
            otherwise,
            ..
        } => {
            let Some(found) = push_branches(alloc, drives, round, branches, nets)? else {
                return Ok(());
            };
            let looked = found.as_slice();
            let inner = Round { logic, looked };
            match otherwise {
                Some(last) => push_body(alloc, drives, inner, last, nets),
                None => Ok(()),
            }
        }
        Statement::Case {
            selector,
            alternatives,
            others,
            ..
        } => {
            let Some(found) = with_value(alloc, logic, round.looked, selector)? else {
                return Ok(());
            };
            let looked = found.as_slice();
            let inner = Round { logic, looked };
            push_alternatives(alloc, drives, inner, alternatives, nets)?;
            push_body(alloc, drives, inner, others, nets)
        }
        _ => Ok(()),
    }
}

/// Appends those of a sequence.
#[cycle(gives)]
fn push_body(
    alloc: Global,
    drives: &[Driver],
    round: Round<'_>,
    statements: &[Statement],
    nets: &mut Vec<usize>,
) -> Result<(), NoMemory>
    ensures { OnOk result ((n : ℕ) → is_in n nets.new.items ≡ (is_in n nets.old.items
        || spec.gives drives.now (λ m. is_in m round.entry.logic.now) (λ m. is_in m round.entry.looked.now) n
        (statements_of statements.now))) }
{
    for statement in statements {
        push_statement(alloc, drives, round, statement, nets)?;
    }
    Ok(())
}

/// Appends those of branches of an if. What was looked at behind them, rising; `None` where one of
/// their conditions looks at a variable or at a net of logic.
#[cycle(gives)]
fn push_branches(
    alloc: Global,
    drives: &[Driver],
    round: Round<'_>,
    branches: &[Branch],
    nets: &mut Vec<usize>,
) -> Result<Option<Vec<usize>>, NoMemory>
    ensures rise { IfOk result Rises }
    ensures are { IfOk result (λ found. (last : Branches) (n : ℕ) →
        (is_in n nets.new.items || behind drives.now (λ m. is_in m round.entry.logic.now) found n last)
        ≡ (is_in n nets.old.items
        || spec.branches_give drives.now (λ m. is_in m round.entry.logic.now)
        (λ m. is_in m round.entry.looked.now) n (branches_of last branches.now))) }
{
    let logic = round.logic;
    let mut found = Vec::from_slice(alloc, round.looked)?;
    for branch in branches {
        let Some(below) = with_test(alloc, logic, &found, &branch.test)? else {
            return Ok(None);
        };
        let looked = below.as_slice();
        let inner = Round { logic, looked };
        push_body(alloc, drives, inner, &branch.statements, nets)?;
        found = below;
    }
    Ok(Some(found))
}

/// Appends those of alternatives of a case but its last.
#[cycle(gives)]
fn push_alternatives(
    alloc: Global,
    drives: &[Driver],
    round: Round<'_>,
    alternatives: &[Alternative],
    nets: &mut Vec<usize>,
) -> Result<(), NoMemory>
    ensures { OnOk result ((n : ℕ) → is_in n nets.new.items ≡ (is_in n nets.old.items
        || list_any (alternative_gives drives.now (λ m. is_in m round.entry.logic.now)
        (λ m. is_in m round.entry.looked.now) n) alternatives.now)) }
{
    for alternative in alternatives {
        push_body(alloc, drives, round, &alternative.statements, nets)?;
    }
    Ok(())
}

/// The nets that some assignment of a process gives a number that may lie outside the range of its
/// target, as digits, rising. `logic` are the nets that logic makes. It takes time in proportion to
/// the body, but for sorting and for the levels that are open in it.
pub fn given_outside(
    alloc: Global,
    logic: &[usize],
    process: &Process,
) -> Result<Vec<usize>, NoMemory>
    requires { IsStrictlyIncreasing logic.now }
    ensures rise { IfOk result (λ nets. IsStrictlyIncreasing nets.items) }
    ensures are { IfOk result (λ nets. (n : ℕ) → is_in n nets.items
        ≡ spec.gives process.now.drives.items (λ m. is_in m logic.now) (λ m. false) n (body_of process.now)) }
{
    let mut nets = Vec::new(alloc);
    let round = Round { logic, looked: &[] };
    push_body(alloc, &process.drives, round, &process.body, &mut nets)?;
    sort_once(&mut nets);
    Ok(nets)
}
