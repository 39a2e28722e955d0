//! One walk over a body, which marks the elements that it stores.

ghost use Rattle.std.specs.Prelude.{◌≡◌, ◌||◌, ◌&&◌, not, ℕ, IfOk, OnOk};
ghost use Rattle.std.specs.List.{list_any, list_all};
ghost use Rattle.rtl_net.specs.Bodies.{statement_view, statements_of};
ghost use Rattle.rtl_model.specs.bodies.Assigns.{is_element, stmt_must_assign, must_assign};
ghost use Rattle.rtl_model.specs.bodies.Stored.{stmt_stores, stores_element};
ghost use Rattle.rtl_body_facts.specs.Reading.{is_in};
ghost use Rattle.rtl_body_facts.specs.Looks.{branch_assigns, alternative_assigns, branch_stores, alternative_stores};
ghost use Rattle.rtl_stored.specs.Walks.{is_assigned, Reads, Walked, Narrows};

use crate::marks::Marks;
use rtl_net::{Alternative, Branch, Statement, walk_expr, walk_test, walk_value};
use std::alloc::{AllocError, Global};

/// Marks the elements that a statement stores and those that it assigns on every syntactic path,
/// and lists the latter that weren't marked so.
#[cycle(walking)]
fn walk_statement(
    alloc: Global,
    statement: &Statement,
    marks: &mut Marks,
    added: &mut Vec<usize>,
) -> Result<(), AllocError>
    ensures { OnOk result (Walked (λ e. stmt_stores e (statement_view statement.now))
        (λ e. stmt_must_assign (is_element e) (statement_view statement.now))
        marks.old.marks.items marks.new.marks.items added.old.items added.new.items) }
{
    match statement {
        Statement::Null => Ok(()),
        Statement::Assign { value, .. } => {
            walk_value(value, marks);
            Ok(())
        }
        Statement::Set { elements, value } => {
            walk_value(value, marks);
            marks.assign_named(elements, added)
        }
        Statement::AssignAt { index, value, .. } => {
            walk_expr(index, marks);
            walk_expr(value, marks);
            Ok(())
        }
        Statement::SetAt { index, value, .. } => {
            walk_expr(index, marks);
            walk_expr(value, marks);
            Ok(())
        }
        Statement::If {
            branches,
            otherwise,
            ..
        } => match otherwise {
            Some(last) => {
                let common = walk_last(alloc, last, marks)?;
                let common = walk_branches(alloc, branches, marks, common)?;
                marks.assign_listed(&common, added)
            }
            None => {
                walk_branches(alloc, branches, marks, Vec::new(alloc))?;
                Ok(())
            }
        },
        Statement::Case {
            selector,
            alternatives,
            others,
            ..
        } => {
            walk_value(selector, marks);
            let common = walk_last(alloc, others, marks)?;
            let common = walk_alternatives(alloc, alternatives, marks, common)?;
            marks.assign_listed(&common, added)
        }
    }
}

/// The same of a sequence. What a statement assigns on every path, the later ones may read.
#[cycle(walking)]
pub(crate) fn walk_statements(
    alloc: Global,
    statements: &[Statement],
    marks: &mut Marks,
    added: &mut Vec<usize>,
) -> Result<(), AllocError>
    ensures { OnOk result (Walked (λ e. stores_element e (statements_of statements.now))
        (λ e. must_assign (is_element e) (statements_of statements.now))
        marks.old.marks.items marks.new.marks.items added.old.items added.new.items) }
{
    for statement in statements {
        walk_statement(alloc, statement, marks, added)?;
    }
    Ok(())
}

/// Marks the elements that the last part of an if or a case stores: those that it assigns besides.
#[cycle(walking)]
fn walk_last(
    alloc: Global,
    statements: &[Statement],
    marks: &mut Marks,
) -> Result<Vec<usize>, AllocError>
    ensures reads { OnOk result (Reads (λ e. stores_element e (statements_of statements.now))
        marks.old.marks.items marks.new.marks.items) }
    ensures assigned { IfOk result (λ v. (e : ℕ) → is_in e v.items
        ≡ (not (is_assigned marks.old.marks.items e) && must_assign (is_element e) (statements_of statements.now))) }
{
    let mut added = Vec::new(alloc);
    walk_statements(alloc, statements, marks, &mut added)?;
    marks.release(&added);
    Ok(added)
}

/// Marks the elements that another part stores: those of some elements that are assigned behind it.
#[cycle(walking)]
fn walk_part(
    alloc: Global,
    statements: &[Statement],
    marks: &mut Marks,
    common: Vec<usize>,
) -> Result<Vec<usize>, AllocError>
    ensures reads { OnOk result (Reads (λ e. stores_element e (statements_of statements.now))
        marks.old.marks.items marks.new.marks.items) }
    ensures assigned { IfOk result (λ v. Narrows (λ e. must_assign (is_element e) (statements_of statements.now))
        marks.old.marks.items common.items v.items) }
{
    let mut added = Vec::new(alloc);
    walk_statements(alloc, statements, marks, &mut added)?;
    let common = marks.assigned_of(alloc, &common)?;
    marks.release(&added);
    Ok(common)
}

/// The same of all branches of an if.
#[cycle(walking)]
fn walk_branches(
    alloc: Global,
    branches: &[Branch],
    marks: &mut Marks,
    mut common: Vec<usize>,
) -> Result<Vec<usize>, AllocError>
    ensures reads { OnOk result (Reads (λ e. list_any (branch_stores e) branches.now)
        marks.old.marks.items marks.new.marks.items) }
    ensures assigned { IfOk result (λ v. Narrows (λ e. list_all (branch_assigns e) branches.now)
        marks.old.marks.items common.items v.items) }
{
    for branch in branches {
        walk_test(&branch.test, marks);
        common = walk_part(alloc, &branch.statements, marks, common)?;
    }
    Ok(common)
}

/// The same of all alternatives of a case but its last.
#[cycle(walking)]
fn walk_alternatives(
    alloc: Global,
    alternatives: &[Alternative],
    marks: &mut Marks,
    mut common: Vec<usize>,
) -> Result<Vec<usize>, AllocError>
    ensures reads { OnOk result (Reads (λ e. list_any (alternative_stores e) alternatives.now)
        marks.old.marks.items marks.new.marks.items) }
    ensures assigned { IfOk result (λ v. Narrows (λ e. list_all (alternative_assigns e) alternatives.now)
        marks.old.marks.items common.items v.items) }
{
    for alternative in alternatives {
        common = walk_part(alloc, &alternative.statements, marks, common)?;
    }
    Ok(common)
}
