//! Which elements of variables a body sets.

ghost use Rattle.std.specs.Prelude.{◌≡◌, not, map, IfOk};
ghost use Rattle.std.specs.List.{list_any};
ghost use Rattle.rtl_model.specs.bodies.Assigns.{is_element, stmt_assigns, stmts_assign};
ghost use Rattle.rtl_net.specs.Bodies.{statement_view, statements_of};
ghost use Rattle.rtl_variable_registers.specs.Known as spec;
ghost use Rattle.rtl_kept_bodies.specs.Steps.{Marked, Knows, SetsWithin, branch_sets, alternative_sets};

use crate::marks::{mark_named, no_flags};
use rtl_net::{Alternative, Branch, Statement};
use std::alloc::{AllocError, Global};

/// Marks the elements that a statement sets, in whatever branch.
#[cycle(setting)]
fn mark_set(statement: &Statement, marks: &mut [bool])
    ensures { Marked (λ e. stmt_assigns (is_element e) (statement_view statement.now)) marks.old marks.new }
{
    match statement {
        Statement::Null => {}
        Statement::Assign { .. } => {}
        Statement::Set { elements, .. } => mark_named(elements, marks),
        Statement::AssignAt { .. } => {}
        Statement::SetAt { elements, .. } => mark_named(elements, marks),
        Statement::If {
            branches,
            otherwise,
            ..
        } => match otherwise {
            Some(last) => {
                mark_branches(branches, marks);
                mark_all_set(last, marks);
            }
            None => mark_branches(branches, marks),
        },
        Statement::Case {
            alternatives,
            others,
            ..
        } => {
            mark_alternatives(alternatives, marks);
            mark_all_set(others, marks);
        }
    }
}

/// The same of a sequence.
#[cycle(setting)]
pub(crate) fn mark_all_set(statements: &[Statement], marks: &mut [bool])
    ensures { Marked (λ e. stmts_assign (is_element e) (statements_of statements.now)) marks.old marks.new }
{
    for statement in statements {
        mark_set(statement, marks);
    }
}

/// The same of all branches of an if but its else.
#[cycle(setting)]
fn mark_branches(branches: &[Branch], marks: &mut [bool])
    ensures { Marked (λ e. list_any (branch_sets e) branches.now) marks.old marks.new }
{
    for branch in branches {
        mark_all_set(&branch.statements, marks);
    }
}

/// The same of all alternatives of a case but its last.
#[cycle(setting)]
fn mark_alternatives(alternatives: &[Alternative], marks: &mut [bool])
    ensures { Marked (λ e. list_any (alternative_sets e) alternatives.now) marks.old marks.new }
{
    for alternative in alternatives {
        mark_all_set(&alternative.statements, marks);
    }
}

/// The other flags.
fn inverted(alloc: Global, flags: &[bool]) -> Result<Vec<bool>, AllocError>
    ensures { IfOk result (λ v. v.items ≡ map (λ b. not b) flags.now) }
{
    flags.iter().map(|flag| !*flag).collect(alloc)
}

/// Of so many elements, whether no statement of a body sets each.
pub(crate) fn never_set(
    alloc: Global,
    body: &[Statement],
    many: usize,
) -> Result<Vec<bool>, AllocError>
    requires { SetsWithin many (statements_of body.now) }
    ensures { IfOk result (λ v. Knows (spec.never_set (statements_of body.now)) v.items) }
{
    let mut set = no_flags(alloc, many)?;
    mark_all_set(body, &mut set);
    inverted(alloc, &set)
}
