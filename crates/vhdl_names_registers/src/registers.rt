//! The statements of a process, with its registers as the checker knows them.

ghost use Rattle.std.specs.Prelude.{◌≡◌, IfOk, OnOk, IsTrue, option_map};
ghost use Rattle.vhdl_names_registers.specs.Branching as spec;
ghost use Rattle.vhdl_names_registers.specs.Tied as tied;
ghost use Rattle.vhdl_names_rules.specs.Registers as rules;
ghost use Rattle.vhdl_names_units.specs.views.Sequential.{body_view, statement_view, statements_of};

use crate::ifs::{are_one, ends_in_edge, last_edge_first};
use std::alloc::{AllocError, Global};
use vhdl_names_units::{If, Statement};

/// Whether a statement is null.
fn is_null(statement: &Statement) -> bool
    ensures { result ≡ tied.is_null (statement_view statement.now) }
{
    match statement {
        Statement::Null => true,
        _ => false,
    }
}

/// An if with its edge first; another statement stays.
fn with_edge_first(alloc: Global, x: Statement) -> Result<Statement, AllocError>
    ensures { IfOk result (λ y. statement_view y ≡ tied.with_edge_first (statement_view x)) }
{
    match x.into_if() {
        Ok(x) => Ok(Statement::If(last_edge_first(alloc, x)?)),
        Err(other) => Ok(other),
    }
}

/// Statements with the edge first in each if; nulls are dropped.
fn edges_first(alloc: Global, list: Vec<Statement>) -> Result<Vec<Statement>, AllocError>
    ensures { IfOk result (λ v. body_view v ≡ tied.edges_first (body_view list)) }
{
    let mut all = Vec::new(alloc);
    for statement in list {
        if is_null(&statement) {
            continue;
        }
        all.push(with_edge_first(alloc, statement)?)?;
    }
    Ok(all)
}

/// Whether two statements are ifs of one edge.
fn are_tied(first: &Statement, next: &Statement) -> bool
    ensures { result ≡ tied.are_tied (statement_view first.now) (statement_view next.now) }
{
    match (first, next) {
        (Statement::If(x), Statement::If(y)) => are_one(x, y),
        _ => false,
    }
}

/// Whether a statement and the one behind it are.
fn goes_on(first: &Statement, next: Option<&Statement>) -> bool
    ensures { result ≡ tied.goes_on (statement_view first.now) (option_map spec.statement_at next.entry) }
{
    match next {
        Some(next) => are_tied(first, next),
        None => false,
    }
}

/// Statements behind others.
fn add_all(all: &mut Vec<Statement>, more: Vec<Statement>) -> Result<(), AllocError>
    ensures { OnOk result (body_view all.new ≡ rules.behind (body_view all.old) (body_view more)) }
{
    for statement in more {
        all.push(statement)?;
    }
    Ok(())
}

/// The statements of an if's last branch.
fn last_body(alloc: Global, x: If) -> Vec<Statement>
    ensures { body_view result ≡ tied.last_body (spec.branches_in x) }
{
    let mut x = x;
    match x.branches.pop() {
        Some(branch) => {
            let (_, statements) = branch.into_parts();
            statements
        }
        None => Vec::new(alloc),
    }
}

/// Statements behind those of an if's last branch.
fn add_behind(x: &mut If, more: Vec<Statement>) -> Result<(), AllocError>
    ensures at { spec.start_in x.new ≡ spec.start_in x.old }
    ensures branches { OnOk result (spec.branches_in x.new ≡
        tied.with_behind (spec.branches_in x.old) (body_view more)) }
{
    match x.branches.last_mut() {
        Some(branch) => add_all(&mut branch.statements, more),
        None => Ok(()),
    }
}

/// An if, with the statements of another behind its own; a statement that is none stays.
fn merged(alloc: Global, x: Statement, next: Statement) -> Result<Statement, AllocError>
    ensures { IfOk result (λ y. statement_view y ≡ tied.merged (statement_view x) (statement_view next)) }
{
    let Ok(next) = next.into_if() else {
        return Ok(x);
    };
    match x.into_if() {
        Ok(x) => {
            let mut x = x;
            add_behind(&mut x, last_body(alloc, next))?;
            Ok(Statement::If(x))
        }
        Err(other) => Ok(other),
    }
}

/// So the statement that stands last.
fn merge_last(alloc: Global, all: &mut Vec<Statement>, next: Statement) -> Result<(), AllocError>
    ensures { OnOk result (body_view all.new ≡
        tied.with_last (body_view all.old) (statement_view next)) }
{
    if let Some(last) = all.pop() {
        all.push(merged(alloc, last, next)?)?;
    }
    Ok(())
}

/// A statement more: in the last one where that is open, and else behind it.
fn take(
    alloc: Global,
    all: &mut Vec<Statement>,
    next: Statement,
    is_open: bool,
) -> Result<(), AllocError>
    ensures { OnOk result (body_view all.new ≡
        tied.taken is_open (body_view all.old) (statement_view next)) }
{
    if is_open {
        return merge_last(alloc, all, next);
    }
    all.push(next)?;
    Ok(())
}

/// Statements in which neighbours that are ifs of one edge are one.
fn tied(alloc: Global, list: Vec<Statement>) -> Result<Vec<Statement>, AllocError>
    ensures { IfOk result (λ v. body_view v ≡ tied.tied (body_view list)) }
{
    let mut left = list;
    left.reverse();
    let mut all = Vec::new(alloc);
    let mut is_open = false;
    while let Some(statement) = left.pop() {
        let goes_further = goes_on(&statement, left.last());
        take(alloc, &mut all, statement, is_open)?;
        is_open = goes_further;
    }
    Ok(all)
}

/// Whether a statement is an if that ends in an edge.
fn is_register(statement: &Statement) -> bool
    ensures { result ≡ tied.is_register (statement_view statement.now) }
{
    match statement {
        Statement::If(x) => ends_in_edge(x),
        _ => false,
    }
}

/// Whether one of some statements is such an if.
fn has_register(list: &[Statement]) -> bool
    ensures { result ≡ rules.has_register (statements_of (spec.statements_at list.now)) }
{
    for statement in list {
        if is_register(statement) {
            return true;
        }
    }
    false
}

/// What a process does, with its registers as the checker knows them.
pub(crate) fn body_written(
    alloc: Global,
    list: Vec<Statement>,
) -> Result<Vec<Statement>, AllocError>
    ensures { IfOk result (λ v. body_view v ≡ rules.body_written (body_view list)) }
{
    if !has_register(&list) {
        return Ok(list);
    }
    let list = edges_first(alloc, list)?;
    tied(alloc, list)
}
