//! Which variable elements a body stores.

ghost use Rattle.std.specs.Prelude.{◌≡◌};
ghost use Rattle.std.specs.List.{list_any};
ghost use Rattle.rtl_net.specs.Bodies.{statement_view, statements_of};
ghost use Rattle.rtl_model.specs.bodies.Stored as m;
ghost use Rattle.rtl_body_facts.specs.Looks.{branch_stores, alternative_stores};

use crate::assigned::statement_assigns;
use crate::search::{expr_looks_at, test_looks_at, value_looks_at};
use rtl_net::{Alternative, Branch, Statement};

/// Whether a statement reads this variable element where it hasn't assigned it on every syntactic
/// path.
#[cycle(stores)]
fn statement_stores(statement: &Statement, element: usize) -> bool
    ensures { result ≡ m.stmt_stores element (statement_view statement.now) }
{
    match statement {
        Statement::Null => false,
        Statement::Assign { value, .. } => value_looks_at(value, element),
        Statement::Set { value, .. } => value_looks_at(value, element),
        Statement::AssignAt { index, value, .. } => {
            expr_looks_at(index, element) || expr_looks_at(value, element)
        }
        Statement::SetAt { index, value, .. } => {
            expr_looks_at(index, element) || expr_looks_at(value, element)
        }
        Statement::If {
            branches,
            otherwise,
            ..
        } => match otherwise {
            Some(last) => some_branch_stores(branches, element) || body_stores(last, element),
            None => some_branch_stores(branches, element),
        },
        Statement::Case {
            selector,
            alternatives,
            others,
            ..
        } => {
            if value_looks_at(selector, element) {
                return true;
            }
            some_alternative_stores(alternatives, element) || body_stores(others, element)
        }
    }
}

/// Whether a sequence does: what a statement assigns on every path, the later ones may read.
#[cycle(stores)]
pub fn body_stores(statements: &[Statement], element: usize) -> bool
    ensures { result ≡ m.stores_element element (statements_of statements.now) }
{
    for statement in statements {
        if statement_stores(statement, element) {
            return true;
        }
        if statement_assigns(statement, element) {
            return false;
        }
    }
    false
}

/// Whether a branch of an if does.
#[cycle(stores)]
fn some_branch_stores(branches: &[Branch], element: usize) -> bool
    ensures { result ≡ list_any (branch_stores element) branches.now }
{
    for branch in branches {
        if test_looks_at(&branch.test, element) || body_stores(&branch.statements, element) {
            return true;
        }
    }
    false
}

/// Whether an alternative of a case but its last does.
#[cycle(stores)]
fn some_alternative_stores(alternatives: &[Alternative], element: usize) -> bool
    ensures { result ≡ list_any (alternative_stores element) alternatives.now }
{
    for alternative in alternatives {
        if body_stores(&alternative.statements, element) {
            return true;
        }
    }
    false
}
