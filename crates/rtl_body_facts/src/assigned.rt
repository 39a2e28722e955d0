//! What a body assigns on every syntactic path.

ghost use Rattle.std.specs.Prelude.{◌≡◌};
ghost use Rattle.std.specs.List.{list_all};
ghost use Rattle.rtl_net.specs.Bodies.{statement_view, statements_of};
ghost use Rattle.rtl_model.specs.bodies.Assigns as m;
ghost use Rattle.rtl_body_facts.specs.Looks.{branch_assigns, alternative_assigns};

use crate::numbers::has_number;
use rtl_net::{Alternative, Branch, Statement};

/// Whether a statement assigns this variable element on every syntactic path.
#[cycle(assigned)]
pub fn statement_assigns(statement: &Statement, element: usize) -> bool
    ensures { result ≡ m.stmt_must_assign (m.is_element element) (statement_view statement.now) }
{
    match statement {
        Statement::Null => false,
        Statement::Assign { .. } => false,
        Statement::Set { elements, .. } => has_number(elements, element),
        Statement::AssignAt { .. } => false,
        Statement::SetAt { .. } => false,
        Statement::If {
            branches,
            otherwise,
            ..
        } => match otherwise {
            Some(last) => all_branches_assign(branches, element) && all_assign(last, element),
            None => false,
        },
        Statement::Case {
            alternatives,
            others,
            ..
        } => all_alternatives_assign(alternatives, element) && all_assign(others, element),
    }
}

/// Whether a sequence does.
#[cycle(assigned)]
pub fn all_assign(statements: &[Statement], element: usize) -> bool
    ensures { result ≡ m.must_assign (m.is_element element) (statements_of statements.now) }
{
    for statement in statements {
        if statement_assigns(statement, element) {
            return true;
        }
    }
    false
}

/// Whether all branches of an if do.
#[cycle(assigned)]
fn all_branches_assign(branches: &[Branch], element: usize) -> bool
    ensures { result ≡ list_all (branch_assigns element) branches.now }
{
    for branch in branches {
        if !all_assign(&branch.statements, element) {
            return false;
        }
    }
    true
}

/// Whether all alternatives of a case but its last do.
#[cycle(assigned)]
fn all_alternatives_assign(alternatives: &[Alternative], element: usize) -> bool
    ensures { result ≡ list_all (alternative_assigns element) alternatives.now }
{
    for alternative in alternatives {
        if !all_assign(&alternative.statements, element) {
            return false;
        }
    }
    true
}
