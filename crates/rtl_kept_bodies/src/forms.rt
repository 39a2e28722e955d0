//! The forms that bodies of registers have, and the branches in them.

ghost use Rattle.std.specs.Prelude.{◌≡◌, List, Option, map};
ghost use Rattle.rtl_model.specs.bodies.Body.{step, done};
ghost use Rattle.rtl_net.specs.Bodies.{statement_view, statements_of, branches_of, otherwise_of};
ghost use Rattle.rtl_net.specs.declared.body.Statement.{Statement};
ghost use Rattle.rtl_variable_registers.specs.Bodies.{reset_branch, with_branches};
ghost use Rattle.rtl_kept_bodies.specs.Rules.{byte_of};
ghost use Rattle.rtl_kept_bodies.specs.Steps as steps;

use rtl_net::{Branch, Statement};
use std::alloc::Global;
use std::mem;

/// The form of a body. Its ifs have no else.
#[derive(Clone, Copy)]
pub(crate) enum Form {
    /// One if of one branch, that of an edge.
    Alone,
    /// One if of two branches, that of a reset and that of an edge.
    ResetFirst,
    /// Two ifs of one branch each, that of an edge and that of a reset.
    ResetBehind,
    Other,
}

/// Whether a statement is an if of so many branches, without else.
fn is_if_of(statement: &Statement, many: usize) -> bool
    ensures { result ≡ steps.is_if_of many (statement_view statement.now) }
{
    match statement {
        Statement::If {
            branches,
            otherwise,
            ..
        } => match otherwise {
            Some(_) => false,
            None => branches.len() == many,
        },
        _ => false,
    }
}

/// The form of a body of one statement.
fn form_of_one(statement: &Statement) -> Form
    ensures { result ≡ steps.form_of (step (statement_view statement.now) done) }
{
    if is_if_of(statement, 1) {
        return Form::Alone;
    }
    if is_if_of(statement, 2) {
        return Form::ResetFirst;
    }
    Form::Other
}

/// The form of a body of two statements.
fn form_of_two(first: &Statement, second: &Statement) -> Form
    ensures { result ≡ steps.form_of (step (statement_view first.now) (step (statement_view second.now) done)) }
{
    if !is_if_of(first, 1) {
        return Form::Other;
    }
    if !is_if_of(second, 1) {
        return Form::Other;
    }
    Form::ResetBehind
}

/// The form of a body.
fn form_of(body: &[Statement]) -> Form
    ensures { result ≡ steps.form_of (statements_of body.now) }
{
    if body.len() == 1 {
        return form_of_one(&body[0]);
    }
    if body.len() == 2 {
        return form_of_two(&body[0], &body[1]);
    }
    Form::Other
}

/// Puts others in the place of the statements of a branch, where it is there, and gives those.
fn replace_in(branches: &mut [Branch], number: usize, others: Vec<Statement>) -> Vec<Statement>
    ensures left { (o : Option (List Statement)) → branches_of (otherwise_of o) branches.new ≡
        steps.put_at number (statements_of others.items) (branches_of (otherwise_of o) branches.old) }
    ensures taken { (o : Option (List Statement)) → statements_of result.items ≡
        steps.taken_at number (statements_of others.items) (branches_of (otherwise_of o) branches.old) }
{
    if number >= branches.len() {
        return others;
    }
    mem::replace(&mut branches[number].statements, others)
}

/// The same of an if.
fn replace_branch(
    alloc: Global,
    statement: &mut Statement,
    number: usize,
    others: Vec<Statement>,
) -> Vec<Statement>
    ensures left { statement_view statement.new ≡
        steps.with_branch number (statements_of others.items) (statement_view statement.old) }
    ensures taken { statements_of result.items ≡
        steps.branch_at number (statements_of others.items) (statement_view statement.old) }
    ensures byte { byte_of statement.new ≡ byte_of statement.old }
{
    match statement {
        Statement::If {
            at,
            branches,
            otherwise,
        } => {
            let at = *at;
            let mut whole = mem::replace(branches, Vec::new(alloc));
            let last = mem::replace(otherwise, None);
            let taken = replace_in(&mut whole, number, others);
            *statement = Statement::If {
                at,
                branches: whole,
                otherwise: last,
            };
            taken
        }
        _ => others,
    }
}

/// Puts others in the place of the branch of a body's reset, if it has one, and gives that.
pub(crate) fn replace_reset(
    alloc: Global,
    body: &mut [Statement],
    others: Vec<Statement>,
) -> Vec<Statement>
    ensures left { statements_of body.new ≡
        with_branches (λ a. statements_of others.items) (λ s. s) (statements_of body.old) }
    ensures taken { statements_of others.items ≡ done
        → statements_of result.items ≡ reset_branch (statements_of body.old) }
    ensures bytes { map byte_of body.new ≡ map byte_of body.old }
{
    match form_of(body) {
        Form::ResetFirst => replace_branch(alloc, &mut body[0], 0, others),
        Form::ResetBehind => replace_branch(alloc, &mut body[1], 0, others),
        _ => others,
    }
}

/// Puts others in the place of the branch of a body's edge, if it has one, and gives that.
pub(crate) fn replace_edge(
    alloc: Global,
    body: &mut [Statement],
    others: Vec<Statement>,
) -> Vec<Statement>
    ensures left { statements_of body.new ≡
        with_branches (λ a. a) (λ s. statements_of others.items) (statements_of body.old) }
    ensures taken { statements_of others.items ≡ done
        → statements_of result.items ≡ steps.edge_branch (statements_of body.old) }
    ensures bytes { map byte_of body.new ≡ map byte_of body.old }
{
    match form_of(body) {
        Form::Alone => replace_branch(alloc, &mut body[0], 0, others),
        Form::ResetFirst => replace_branch(alloc, &mut body[0], 1, others),
        Form::ResetBehind => replace_branch(alloc, &mut body[0], 0, others),
        Form::Other => others,
    }
}
