//! The nets that some assignment keeps undefined, or that one doesn't that may run while they are.

ghost use Rattle.std.specs.Prelude.{◌≡◌, ◌||◌, ◌&&◌, ℕ, IfOk, OnOk};
ghost use Rattle.std.specs.List.{list_any};
ghost use Rattle.std.specs.List.Sorted.{IsStrictlyIncreasing};
ghost use Rattle.rtl_model.specs.bodies.Assigns.{stmt_must_assign};
ghost use Rattle.rtl_model.specs.bodies.Body.{elements};
ghost use Rattle.rtl_net.specs.Indices.{numbers};
ghost use Rattle.rtl_net.specs.Bodies.{expr_view, value_view, statement_view, statements_of};
ghost use Rattle.rtl_body_facts.specs.Paths.{covers, to_net};
ghost use Rattle.rtl_body_facts.specs.Reading.{is_in};
ghost use Rattle.rtl_remarks.specs.Undefined as spec;
ghost use Rattle.rtl_remarks.specs.Tables.{branch_may, alternative_may};

use crate::failing::failing_nets;
use crate::lists::chosen;
use crate::undefined::{expr_keepers, keepers};
use rtl_body_facts::{assigned_nets, sort_once, target_nets};
use rtl_net::{Alternative, Branch, Driver, Expr, Indices, NoMemory, Statement, Value};
use std::alloc::Global;

/// Appends those of an assignment of this value.
fn push_assignment(
    alloc: Global,
    drives: &[Driver],
    kept: bool,
    statement: &Statement,
    value: &Value,
    nets: &mut Vec<usize>,
) -> Result<(), NoMemory>
    ensures { OnOk result ((n : ℕ) → is_in n nets.new.items ≡ (is_in n nets.old.items
        || (stmt_must_assign (to_net drives.now n) (statement_view statement.now)
        && spec.is_same kept (spec.keeps n (value_view value.now))))) }
{
    let targets = assigned_nets(alloc, drives, std::slice::from_ref(statement))?;
    let keepers = keepers(alloc, value)?;
    let found = chosen(alloc, &targets, &keepers, kept)?;
    nets.extend_from_slice(&found)?;
    Ok(())
}

/// Appends those of an assignment of an expression's value to one of several rows.
fn push_row_assignment(
    alloc: Global,
    drives: &[Driver],
    kept: bool,
    places: &Indices,
    value: &Expr,
    nets: &mut Vec<usize>,
) -> Result<(), NoMemory>
    ensures { OnOk result ((n : ℕ) → is_in n nets.new.items ≡ (is_in n nets.old.items
        || (list_any (covers drives.now n) (numbers places.now)
        && spec.is_same kept (spec.keeps n (elements (expr_view value.now)))))) }
{
    let targets = target_nets(alloc, drives, places)?;
    let keepers = expr_keepers(alloc, value)?;
    let found = chosen(alloc, &targets, &keepers, kept)?;
    nets.extend_from_slice(&found)?;
    Ok(())
}

/// Appends those of a statement.
#[cycle(may_assign)]
fn push_statement(
    alloc: Global,
    drives: &[Driver],
    kept: bool,
    statement: &Statement,
    nets: &mut Vec<usize>,
) -> Result<(), NoMemory>
    ensures { OnOk result ((n : ℕ) → is_in n nets.new.items
        ≡ (is_in n nets.old.items || spec.stmt_may drives.now kept n (statement_view statement.now))) }
{
    match statement {
        Statement::Null => Ok(()),
        Statement::Assign { value, .. } => {
            push_assignment(alloc, drives, kept, statement, value, nets)
        }
        Statement::Set { .. } => Ok(()),
        Statement::AssignAt { places, value, .. } => {
            push_row_assignment(alloc, drives, kept, places, value, nets)
        }
        Statement::SetAt { .. } => Ok(()),
        Statement::If {
            branches,
            otherwise,
            ..
        } => {
            push_branches(alloc, drives, kept, branches, nets)?;
            match otherwise {
                Some(last) => push_body(alloc, drives, kept, last, nets),
                None => Ok(()),
            }
        }
        Statement::Case {
            alternatives,
            others,
            ..
        } => {
            push_alternatives(alloc, drives, kept, alternatives, nets)?;
            push_body(alloc, drives, kept, others, nets)
        }
    }
}

/// Appends those of a sequence.
#[cycle(may_assign)]
fn push_body(
    alloc: Global,
    drives: &[Driver],
    kept: bool,
    statements: &[Statement],
    nets: &mut Vec<usize>,
) -> Result<(), NoMemory>
    ensures { OnOk result ((n : ℕ) → is_in n nets.new.items
        ≡ (is_in n nets.old.items || spec.may_assign drives.now kept n (statements_of statements.now))) }
{
    for statement in statements {
        push_statement(alloc, drives, kept, statement, nets)?;
    }
    Ok(())
}

/// Appends those of branches of an if.
#[cycle(may_assign)]
fn push_branches(
    alloc: Global,
    drives: &[Driver],
    kept: bool,
    branches: &[Branch],
    nets: &mut Vec<usize>,
) -> Result<(), NoMemory>
    ensures { OnOk result ((n : ℕ) → is_in n nets.new.items
        ≡ (is_in n nets.old.items || list_any (branch_may drives.now kept n) branches.now)) }
{
    for branch in branches {
        push_branch(alloc, drives, kept, branch, nets)?;
    }
    Ok(())
}

/// Appends those of a branch.
#[cycle(may_assign)]
fn push_branch(
    alloc: Global,
    drives: &[Driver],
    kept: bool,
    branch: &Branch,
    nets: &mut Vec<usize>,
) -> Result<(), NoMemory>
    ensures { OnOk result ((n : ℕ) → is_in n nets.new.items
        ≡ (is_in n nets.old.items || branch_may drives.now kept n branch.now)) }
{
    if kept {
        return push_body(alloc, drives, kept, &branch.statements, nets);
    }
    let failing = failing_nets(alloc, &branch.test)?;
    let mut inner = Vec::new(alloc);
    push_body(alloc, drives, kept, &branch.statements, &mut inner)?;
    let found = chosen(alloc, &inner, &failing, false)?;
    nets.extend_from_slice(&found)?;
    Ok(())
}

/// Appends those of alternatives of a case but its last.
#[cycle(may_assign)]
fn push_alternatives(
    alloc: Global,
    drives: &[Driver],
    kept: bool,
    alternatives: &[Alternative],
    nets: &mut Vec<usize>,
) -> Result<(), NoMemory>
    ensures { OnOk result ((n : ℕ) → is_in n nets.new.items
        ≡ (is_in n nets.old.items || list_any (alternative_may drives.now kept n) alternatives.now)) }
{
    for alternative in alternatives {
        push_body(alloc, drives, kept, &alternative.statements, nets)?;
    }
    Ok(())
}

/// The nets of these drivers that some assignment in a sequence keeps undefined (`kept`), or that
/// one doesn't that may run while they are; rising. It takes time in proportion to the sequence,
/// but for sorting and for the levels that are open in it.
pub(crate) fn may_assign(
    alloc: Global,
    drives: &[Driver],
    kept: bool,
    statements: &[Statement],
) -> Result<Vec<usize>, NoMemory>
    ensures rise { IfOk result (λ nets. IsStrictlyIncreasing nets.items) }
    ensures are { IfOk result (λ nets. (n : ℕ) → is_in n nets.items
        ≡ spec.may_assign drives.now kept n (statements_of statements.now)) }
{
    let mut nets = Vec::new(alloc);
    push_body(alloc, drives, kept, statements, &mut nets)?;
    sort_once(&mut nets);
    Ok(nets)
}
