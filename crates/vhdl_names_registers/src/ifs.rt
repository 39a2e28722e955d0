//! Ifs whose last condition has an edge.

ghost use Rattle.std.specs.Prelude.{◌≡◌, IfOk, option_map};
ghost use Rattle.vhdl_names_registers.specs.Branching as spec;
ghost use Rattle.vhdl_names_rules.specs.Statements.{alone};
ghost use Rattle.vhdl_names_rules.specs.Registers as rules;
ghost use Rattle.vhdl_names_rules.specs.units.Statements as units;
ghost use Rattle.vhdl_names_trees.specs.views.Tests.{test_view};
ghost use Rattle.vhdl_names_units.specs.views.Sequential.{body_view};

use crate::conditions::{Gated, edge_and_gate};
use crate::gates::{are_one_edge, gate_of, is_gated};
use std::alloc::{AllocError, Global};
use vhdl_names_trees::Test;
use vhdl_names_units::{Branch, If, Statement};

/// An if of one branch that starts at byte `at`, as the only statement.
pub fn alone_at(alloc: Global, at: usize, branch: Branch) -> Result<Vec<Statement>, AllocError>
    ensures { IfOk result (λ v. body_view v ≡ alone (units.if_of at (spec.branch_alone branch))) }
{
    let branches = vec![in alloc; branch]?;
    Ok(vec![in alloc; Statement::conditional(at, branches, None)]?)
}

/// A last branch: where an edge stands beside other conditions, that edge, and under it, in an if
/// that starts at byte `at`, those.
fn edge_first(alloc: Global, at: usize, branch: Branch) -> Result<Branch, AllocError>
    ensures { IfOk result (λ b. spec.branch_alone b ≡
        rules.edge_first at (test_view branch.condition) (body_view branch.statements)) }
{
    if !is_gated(&branch.condition) {
        return Ok(branch);
    }
    let (condition, statements) = branch.into_parts();
    let Gated { edge, gate } = edge_and_gate(alloc, condition)?;
    let inner = alone_at(alloc, at, Branch::new(gate, statements))?;
    Ok(Branch::new(Test::Edge(edge.kind, edge.place), inner))
}

/// An if with the edge first in its last branch, where it has no else.
pub(crate) fn last_edge_first(alloc: Global, x: If) -> Result<If, AllocError>
    ensures at { IfOk result (λ y. spec.start_in y ≡ spec.start_in x) }
    ensures branches { IfOk result (λ y. spec.branches_in y ≡
        rules.last_edge_first (spec.start_in x) (spec.branches_in x)) }
{
    if x.otherwise.is_some() {
        return Ok(x);
    }
    let mut x = x;
    let Some(last) = x.branches.pop() else {
        return Ok(x);
    };
    x.branches.push(edge_first(alloc, x.at, last)?)?;
    Ok(x)
}

/// The condition of an if that has no other, and no else.
fn only_condition(x: &If) -> Option<&Test>
    ensures { option_map spec.looked_at result ≡ spec.only_condition (spec.branches_in x.now) }
{
    if x.otherwise.is_some() || x.branches.len() != 1 {
        return None;
    }
    Some(&x.branches[0].condition)
}

/// Whether two ifs are of one edge, and of nothing else.
pub(crate) fn are_one(x: &If, y: &If) -> bool
    ensures { result ≡ spec.are_one (spec.branches_in x.now) (spec.branches_in y.now) }
{
    match (only_condition(x), only_condition(y)) {
        (Some(first), Some(second)) => are_one_edge(first, second),
        _ => false,
    }
}

/// Whether an if without else ends in an edge, alone or gated.
pub(crate) fn ends_in_edge(x: &If) -> bool
    ensures { result ≡ rules.ends_in_edge (spec.branches_in x.now) }
{
    if x.otherwise.is_some() {
        return false;
    }
    match x.branches.last() {
        Some(branch) => gate_of(&branch.condition).is_some(),
        None => false,
    }
}
