//! The walk over statements.

ghost use Rattle.std.specs.Prelude.{◌≡◌, ◌<◌, ◌≤◌, ◌+◌, ◌++◌, length, OnOk, IfOk};
ghost use Rattle.rtl_model.specs.bodies.Body.{Stmts, Branches};
ghost use Rattle.rtl_model.specs.bodies.Looks as m;
ghost use Rattle.rtl_net.specs.Bodies.{spacing_view, value_view, test_view, statement_view, statements_of, alternatives_of};
ghost use Rattle.rtl_net.specs.Indices.{numbers};
ghost use Rattle.rtl_looks.specs.Targets.{target_of};
ghost use Rattle.rtl_model.specs.bodies.Rows.{row_count, all_rows};
ghost use Rattle.rtl_looks.specs.Walks.{Walked, Parted, Assigned, PartAssigned, RowsAssigned, rows_walked, Branched, Rounds};
ghost use Rattle.rtl_looks.specs.Rests.{PartsWalked, Leaves, Rests, Left};

use crate::changes::Changes;
use crate::ends::Ends;
use crate::env::{Env, Kind};
use crate::hubs::{Hubs, Look};
use crate::names::numbers_of;
use crate::rows::{row, row_count};
use crate::table::{Table, at};
use crate::tests::{decided, test_look};
use crate::values::{expr_look, expr_looks, value_look, value_looks};
use rtl_net::{Alternative, Branch, Expr, Indices, Spacing, Statement, Value};
use std::alloc::AllocError;

/// Makes each of these targets look at what the value's element at its place does, and at the
/// conditions round the assignment.
fn assign(
    kind: Kind,
    numbers: &[usize],
    looks: &[Option<Look>],
    round: Option<Look>,
    hubs: &mut Hubs,
    env: &mut Env,
    changes: &mut Changes,
) -> Result<(), AllocError>
    ensures { OnOk result (Assigned kind numbers.now looks.now round hubs.old.hubs.items hubs.new.hubs.items
        env.old env.new changes.old changes.new) }
{
    for place in 0..numbers.len() {
        let look = hubs.join(round, at(looks, place))?;
        env.put(kind, numbers[place], look, changes)?;
    }
    Ok(())
}

/// The same of the numbers of a name, and a value.
fn walk_assignment(
    kind: Kind,
    target: &Indices,
    value: &Value,
    round: Option<Look>,
    hubs: &mut Hubs,
    env: &mut Env,
    changes: &mut Changes,
) -> Result<(), AllocError>
    ensures { OnOk result (Walked (λ sights so_far.
        m.put (target_of kind) sights (numbers target.now) (m.value_looks so_far (value_view value.now)) so_far)
        round hubs.old.hubs.items hubs.new.hubs.items env.old env.new changes.old changes.new) }
{
    let looks = value_looks(value, &env.elements, hubs)?;
    let numbers = numbers_of(hubs.alloc(), target)?;
    assign(kind, &numbers, &looks, round, hubs, env, changes)
}

/// The same as one of several assignments of which a run does one: it is taken back.
fn assign_part(
    kind: Kind,
    numbers: &[usize],
    looks: &[Option<Look>],
    round: Option<Look>,
    hubs: &mut Hubs,
    env: &mut Env,
    ends: &mut Ends,
) -> Result<(), AllocError>
    requires { ends.old.parts < usize.MAX }
    ensures parts { OnOk result (ends.new.parts ≡ ends.old.parts + 1) }
    ensures parted { OnOk result (PartAssigned kind numbers.now looks.now round
        hubs.old.hubs.items hubs.new.hubs.items env.old env.new ends.old ends.new) }
{
    let mut changes = Changes::new(hubs.alloc());
    assign(kind, numbers, looks, round, hubs, env, &mut changes)?;
    ends.take(&mut changes, env, hubs)
}

/// The same of each row that lies in these numbers.
fn assign_rows(
    kind: Kind,
    spacing: Spacing,
    numbers: &[usize],
    looks: &[Option<Look>],
    round: Option<Look>,
    hubs: &mut Hubs,
    env: &mut Env,
    ends: &mut Ends,
) -> Result<(), AllocError>
    requires { ends.old.parts + row_count (spacing_view spacing) (length numbers.now) < usize.MAX }
    ensures parts { OnOk result (ends.new.parts ≡ ends.old.parts
        + row_count (spacing_view spacing) (length numbers.now)) }
    ensures rows { OnOk result (RowsAssigned kind (all_rows (spacing_view spacing) numbers.now) looks.now round
        hubs.old.hubs.items hubs.new.hubs.items env.old env.new ends.old ends.new) }
{
    for number in 0..row_count(spacing, numbers.len()) {
        let row = row(numbers, spacing, number);
        assign_part(kind, row, looks, round, hubs, env, ends)?;
    }
    Ok(())
}

/// Makes the targets in which rows lie look at what they may look at behind an assignment to the
/// row at an index: at what they did before, and at what they do behind X to all of them, or the
/// value to any row.
fn walk_rows(
    kind: Kind,
    assignment: RowAssignment<'_>,
    round: Option<Look>,
    hubs: &mut Hubs,
    env: &mut Env,
    changes: &mut Changes,
) -> Result<(), AllocError>
    ensures { OnOk result (Walked (rows_walked kind assignment.entry)
        round hubs.old.hubs.items hubs.new.hubs.items env.old env.new changes.old changes.new) }
{
    let index = expr_look(assignment.index, &env.elements, hubs)?;
    let round = hubs.join(round, index)?;
    let looks = expr_looks(assignment.value, &env.elements, hubs)?;
    let numbers = numbers_of(hubs.alloc(), assignment.targets)?;
    let mut parts = Ends::new(hubs.alloc());
    parts.skip();
    assign_part(kind, &numbers, &[], round, hubs, env, &mut parts)?;
    let spacing = assignment.spacing;
    assign_rows(
        kind, spacing, &numbers, &looks, round, hubs, env, &mut parts,
    )?;
    parts.finish(env, hubs, changes)
}

/// An assignment to the row at an index.
#[derive(Clone, Copy)]
struct RowAssignment<'a> {
    index: &'a Expr,
    spacing: Spacing,
    targets: &'a Indices,
    value: &'a Expr,
}

/// What is left of an if behind its branches.
#[derive(Clone, Copy)]
enum Rest {
    /// Its else, or that no branch is taken, with these conditions round it.
    Else { round: Option<Look> },
    /// Nothing, since a static test holds.
    Nothing,
}

/// Ends an if without an else.
fn leave(
    rest: Rest,
    hubs: &mut Hubs,
    env: &mut Env,
    ends: &mut Ends,
    changes: &mut Changes,
) -> Result<(), AllocError>
    requires { ends.old.parts < usize.MAX }
    ensures { OnOk result (Left rest hubs.old.hubs.items hubs.new.hubs.items
        env.old env.new changes.old changes.new ends.old) }
{
    match rest {
        Rest::Nothing => ends.finish(env, hubs, changes),
        Rest::Else { .. } => {
            ends.skip();
            ends.finish(env, hubs, changes)
        }
    }
}

/// What stands round the alternatives of a case with this selector.
fn round_case(
    selector: &Value,
    round: Option<Look>,
    elements: &Table,
    hubs: &mut Hubs,
) -> Result<Option<Look>, AllocError>
    ensures { IfOk result (λ next. Rounds (λ so_far. m.whole (m.value_looks so_far (value_view selector.now)))
        round next elements.now.looks.items hubs.old.hubs.items hubs.new.hubs.items) }
{
    let look = value_look(selector, elements, hubs)?;
    hubs.join(round, look)
}

/// Makes the targets that a statement assigns look at what they do behind it. `round` is what the
/// conditions round it look at.
#[cycle(walking)]
fn walk_statement(
    statement: &Statement,
    round: Option<Look>,
    hubs: &mut Hubs,
    env: &mut Env,
    changes: &mut Changes,
) -> Result<(), AllocError>
    ensures { OnOk result (Walked (λ sights so_far. m.stmt_looks sights so_far (statement_view statement.now))
        round hubs.old.hubs.items hubs.new.hubs.items env.old env.new changes.old changes.new) }
{
    match statement {
        Statement::Null => Ok(()),
        Statement::Assign { places, value } => {
            walk_assignment(Kind::Driver, places, value, round, hubs, env, changes)
        }
        Statement::Set { elements, value } => {
            walk_assignment(Kind::Element, elements, value, round, hubs, env, changes)
        }
        Statement::AssignAt {
            index,
            spacing,
            places: targets,
            value,
            ..
        } => {
            let assignment = RowAssignment {
                index,
                spacing: *spacing,
                targets,
                value,
            };
            walk_rows(Kind::Driver, assignment, round, hubs, env, changes)
        }
        Statement::SetAt {
            index,
            spacing,
            elements: targets,
            value,
            ..
        } => {
            let assignment = RowAssignment {
                index,
                spacing: *spacing,
                targets,
                value,
            };
            walk_rows(Kind::Element, assignment, round, hubs, env, changes)
        }
        Statement::If {
            branches,
            otherwise,
            ..
        } => {
            let mut ends = Ends::new(hubs.alloc());
            let rest = walk_branches(branches, round, hubs, env, &mut ends)?;
            match otherwise {
                None => leave(rest, hubs, env, &mut ends, changes),
                Some(last) => {
                    walk_rest(last, rest, hubs, env, &mut ends)?;
                    ends.finish(env, hubs, changes)
                }
            }
        }
        Statement::Case {
            selector,
            alternatives,
            others,
            ..
        } => {
            let round = round_case(selector, round, &env.elements, hubs)?;
            let mut ends = Ends::new(hubs.alloc());
            walk_alternatives(alternatives, round, hubs, env, &mut ends)?;
            walk_part(others, round, hubs, env, &mut ends)?;
            ends.finish(env, hubs, changes)
        }
    }
}

/// The same of a sequence.
#[cycle(walking)]
pub(crate) fn walk_statements(
    statements: &[Statement],
    round: Option<Look>,
    hubs: &mut Hubs,
    env: &mut Env,
    changes: &mut Changes,
) -> Result<(), AllocError>
    ensures { OnOk result (Walked (λ sights so_far. m.body_looks sights so_far (statements_of statements.now))
        round hubs.old.hubs.items hubs.new.hubs.items env.old env.new changes.old changes.new) }
{
    for statement in statements {
        walk_statement(statement, round, hubs, env, changes)?;
    }
    Ok(())
}

/// Walks one part of an if or a case, and takes back what it changes.
#[cycle(walking)]
fn walk_part(
    statements: &[Statement],
    round: Option<Look>,
    hubs: &mut Hubs,
    env: &mut Env,
    ends: &mut Ends,
) -> Result<(), AllocError>
    requires { ends.old.parts < usize.MAX }
    ensures parts { OnOk result (ends.new.parts ≡ ends.old.parts + 1) }
    ensures parted { OnOk result (Parted (λ sights so_far. m.body_looks sights so_far (statements_of statements.now))
        round hubs.old.hubs.items hubs.new.hubs.items env.old env.new ends.old ends.new) }
{
    let mut changes = Changes::new(hubs.alloc());
    walk_statements(statements, round, hubs, env, &mut changes)?;
    ends.take(&mut changes, env, hubs)
}

/// Walks a branch of an if, and gives what stands round the next ones.
#[cycle(walking)]
fn walk_branch(
    branch: &Branch,
    round: Option<Look>,
    hubs: &mut Hubs,
    env: &mut Env,
    ends: &mut Ends,
) -> Result<Option<Look>, AllocError>
    requires { ends.old.parts < usize.MAX }
    ensures parts { OnOk result (ends.new.parts ≡ ends.old.parts + 1) }
    ensures branched { IfOk result (λ next. Branched (test_view branch.now.test)
        (λ sights so_far. m.body_looks (sights ++ m.test_looks so_far (test_view branch.now.test)) so_far
        (statements_of branch.now.statements.items))
        round next hubs.old.hubs.items hubs.new.hubs.items env.old env.new ends.old ends.new) }
{
    let test = test_look(&branch.test, &env.elements, hubs)?;
    let round = hubs.join(round, test)?;
    walk_part(&branch.statements, round, hubs, env, ends)?;
    Ok(round)
}

/// Walks the branches of an if, where a static test doesn't rule them out, and says what is left.
#[cycle(walking)]
fn walk_branches(
    branches: &[Branch],
    mut round: Option<Look>,
    hubs: &mut Hubs,
    env: &mut Env,
    ends: &mut Ends,
) -> Result<Rest, AllocError>
    requires { ends.old.parts ≡ 0 }
    ensures few { OnOk result (ends.new.parts ≤ length branches.now) }
    ensures left { IfOk result (λ rest. (last : Branches) → Leaves last branches.now round rest
        hubs.old.hubs.items hubs.new.hubs.items env.old env.new ends.old ends.new) }
{
    for branch in branches {
        match decided(&branch.test) {
            Some(true) => {
                walk_part(&branch.statements, round, hubs, env, ends)?;
                return Ok(Rest::Nothing);
            }
            Some(false) => continue,
            None => round = walk_branch(branch, round, hubs, env, ends)?,
        }
    }
    Ok(Rest::Else { round })
}

/// Walks what is left of an if with this else.
#[cycle(walking)]
fn walk_rest(
    last: &[Statement],
    rest: Rest,
    hubs: &mut Hubs,
    env: &mut Env,
    ends: &mut Ends,
) -> Result<(), AllocError>
    requires { ends.old.parts < usize.MAX }
    ensures { OnOk result (Rests (λ sights so_far. m.body_looks sights so_far (statements_of last.now)) rest
        hubs.old.hubs.items hubs.new.hubs.items env.old env.new ends.old ends.new) }
{
    match rest {
        Rest::Nothing => Ok(()),
        Rest::Else { round } => walk_part(last, round, hubs, env, ends),
    }
}

/// Walks the alternatives of a case but its others.
#[cycle(walking)]
fn walk_alternatives(
    alternatives: &[Alternative],
    round: Option<Look>,
    hubs: &mut Hubs,
    env: &mut Env,
    ends: &mut Ends,
) -> Result<(), AllocError>
    requires { ends.old.parts ≡ 0 }
    ensures few { OnOk result (ends.new.parts ≤ length alternatives.now) }
    ensures left { OnOk result ((last : Stmts) → PartsWalked (λ sights so_far. m.body_looks sights so_far last)
        (λ sights so_far. m.alternatives_look sights so_far (alternatives_of last alternatives.now)) round round
        hubs.old.hubs.items hubs.new.hubs.items env.old env.new ends.old ends.new) }
{
    for alternative in alternatives {
        walk_part(&alternative.statements, round, hubs, env, ends)?;
    }
    Ok(())
}
