//! The run of statements.

ghost use Rattle.std.specs.Prelude.{All, map};
ghost use Rattle.rtl_model.specs.bodies.Fits.{FitsTest, FitsStmt, Fits, FitsBranches};
ghost use Rattle.rtl_net.specs.Bodies.{test_view, statement_view, statements_of, branches_of, alternatives_of};
ghost use Rattle.rtl_net.specs.declared.body.Branch.{Branch};
ghost use Rattle.rtl_eval.specs.Evaluations.{codes_of};
ghost use Rattle.rtl_eval.specs.Running.{IsReady, RunsBody, RunsStatement, RunsBranches, RunsAlternatives};
ghost use Rattle.rtl_eval.specs.Running.{IsPlaceOfFirst, else_of, met_by, chosen_by, FitsSomehow};
ghost use Rattle.rtl_eval.specs.Seeing.{seen_of, Within};

use crate::assigning::{assign, set};
use crate::choosing::{assign_row, set_row};
use crate::evaluated::{Evaluated, evaluate, is_chosen};
use crate::expressions::value as elements;
use crate::seen::{SeenValues, Valuations, seeing};
use crate::tests::is_met;
use rtl_drives::Drives;
use rtl_net::{Alternative, Branch, Statement};

/// Statements, one after another.
#[cycle(statement)]
pub(crate) fn run_all(statements: &[Statement], nets: Valuations<'_>, out: &mut Drives)
    requires { IsReady nets out.old (λ scope. Fits scope (statements_of statements.now)) }
    ensures { RunsBody nets.entry (statements_of statements.now) out.old out.new }
{
    for statement in statements {
        run(statement, nets, out);
    }
}

/// A statement.
#[cycle(statement)]
fn run(statement: &Statement, nets: Valuations<'_>, out: &mut Drives)
    requires { IsReady nets out.old (λ scope. FitsStmt scope (statement_view statement.now)) }
    ensures { RunsStatement nets.entry (statement_view statement.now) out.old out.new }
{
    match statement {
        Statement::Null => {}
        Statement::Assign { places, value } => {
            let value = evaluate(value, seeing(nets, out));
            assign(places, &value, out);
        }
        Statement::Set { elements, value } => {
            let value = evaluate(value, seeing(nets, out));
            set(elements, &value, out);
        }
        Statement::AssignAt {
            index,
            spacing,
            places,
            value,
            ..
        } => {
            let index = elements(index, seeing(nets, out));
            let value = elements(value, seeing(nets, out));
            assign_row(&index, *spacing, places, &value, out);
        }
        Statement::SetAt {
            index,
            spacing,
            elements: targets,
            value,
            ..
        } => {
            let index = elements(index, seeing(nets, out));
            let value = elements(value, seeing(nets, out));
            set_row(&index, *spacing, targets, &value, out);
        }
        Statement::If {
            branches,
            otherwise,
            ..
        } => run_if(branches, otherwise, nets, out),
        Statement::Case {
            selector,
            alternatives,
            others,
            ..
        } => {
            let value = evaluate(selector, seeing(nets, out));
            run_case(&value, alternatives, others, nets, out);
        }
    }
}

/// The first branch of an if whose test is met, or its else.
#[cycle(statement)]
fn run_if(
    branches: &[Branch],
    otherwise: &Option<Vec<Statement>>,
    nets: Valuations<'_>,
    out: &mut Drives,
)
    requires { IsReady nets out.old (λ scope. FitsBranches scope (branches_of (else_of otherwise.now) branches.now)) }
    ensures { RunsBranches nets.entry (branches_of (else_of otherwise.now) branches.now) out.old out.new }
{
    match first_met(branches, seeing(nets, out)) {
        Some(at) => run_all(&branches[at].statements, nets, out),
        None => {
            if let Some(statements) = otherwise {
                run_all(statements, nets, out);
            }
        }
    }
}

/// The first alternative of a case with a choice of this value, or its others.
#[cycle(statement)]
fn run_case(
    value: &Evaluated,
    alternatives: &[Alternative],
    others: &[Statement],
    nets: Valuations<'_>,
    out: &mut Drives,
)
    requires { IsReady nets out.old
        (λ scope. FitsSomehow scope (alternatives_of (statements_of others.now) alternatives.now)) }
    ensures { RunsAlternatives nets.entry (codes_of value.now)
        (alternatives_of (statements_of others.now) alternatives.now) out.old out.new }
{
    match first_chosen(alternatives, value) {
        Some(at) => run_all(&alternatives[at].statements, nets, out),
        None => run_all(others, nets, out),
    }
}

/// The place of the first branch whose test is met.
fn first_met(branches: &[Branch], seen: SeenValues<'_>) -> Option<usize>
    requires { Within (seen_of seen) (λ scope. All (λ b. FitsTest scope (test_view b.test)) branches.now) }
    ensures { IsPlaceOfFirst result (map (met_by (seen_of seen.entry)) branches.now) }
{
    for at in 0..branches.len() {
        if is_met(&branches[at].test, seen) {
            return Some(at);
        }
    }
    None
}

/// The place of the first alternative with a choice of this value.
fn first_chosen(alternatives: &[Alternative], value: &Evaluated) -> Option<usize>
    ensures { IsPlaceOfFirst result (map (chosen_by (codes_of value.now)) alternatives.now) }
{
    for at in 0..alternatives.len() {
        if is_chosen(&alternatives[at].choices, value) {
            return Some(at);
        }
    }
    None
}
