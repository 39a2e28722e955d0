//! Statements, expanded (IEEE 1076-2008, clause 10): loops are the sequences of their turns.

ghost use Rattle.std.specs.Prelude.{◌≡◌, ◌≢◌, map, option_map, Ok};
ghost use Rattle.rtl_model.specs.bodies.Body as bodies;
ghost use Rattle.rtl_net.specs.Bodies.{statement_view, statements_of};
ghost use Rattle.vhdl_names_rules.specs.units.Statements as units;
ghost use Rattle.vhdl_expand_rules.specs.Elab.{each};
ghost use Rattle.vhdl_expand_rules.specs.Site.{in_loop};
ghost use Rattle.vhdl_expand_rules.specs.Statements as definition;
ghost use Rattle.vhdl_expand_operands.specs.Results.{Expands};
ghost use Rattle.vhdl_expand_choices.specs.Views.{codes_by};
ghost use Rattle.vhdl_expand_bodies.specs.Sites.{IsSite, site_view};
ghost use Rattle.vhdl_expand_statements.specs.Statements.{branch_view, branches_view, alternative_view, alternatives_view, otherwise_view};
ghost use Rattle.vhdl_expand_statements.specs.steps.Statements as steps;
ghost use Rattle.vhdl_names_units.specs.declared.sequential.Case.{out-Case};
ghost use Rattle.vhdl_names_units.specs.declared.sequential.If.{out-If};
ghost use Rattle.vhdl_names_units.specs.views.Answers.{choices_view};
ghost use Rattle.vhdl_names_units.specs.views.Sequential as analysed;
ghost use Rattle.vhdl_names_trees.specs.views.Integers.{range_view};
ghost use Rattle.vhdl_names_trees.specs.views.Vectors.{value_view};

use crate::assignments::{assign, assign_in, set, set_in};
use crate::cases::selector;
use rtl_net::{Alternative, Branch, Statement};
use std::alloc::Global;
use vhdl_expand_bodies::Site;
use vhdl_expand_choices::Coding;
use vhdl_expand_operands::{add, both};
use vhdl_expand_rules::{ElabFault, byte};
use vhdl_names_units as analysed;
use vhdl_names_units::{Case, If, Loop};

/// A body, expanded: its statements in order, in which names and targets are elements; a fault
/// is StaticError, Length, Index, TooWide or TooMany. It takes the memory of the body.
#[cycle(statement)]
pub fn body(
    site: &Site,
    alloc: Global,
    statements: &[analysed::Statement],
) -> Result<Vec<Statement>, ElabFault>
    requires { IsSite site.now }
    ensures { Expands (λ v. statements_of v.items)
        (definition.statements (site_view site.now)
        (analysed.statements_of (map analysed.statement_view statements.now))) result }
{
    let mut body = Vec::new(alloc);
    add_statements(site, alloc, statements, &mut body)?;
    Ok(body)
}

/// Puts statements behind others.
#[cycle(statement)]
fn add_statements(
    site: &Site,
    alloc: Global,
    list: &[analysed::Statement],
    body: &mut Vec<Statement>,
) -> Result<(), ElabFault>
    requires { IsSite site.now }
    ensures { Expands (λ _. statements_of body.new.items)
        (steps.after (statements_of body.old.items)
        (definition.statements (site_view site.now)
        (analysed.statements_of (map analysed.statement_view list.now)))) result }
{
    for statement in list {
        add_statement(site, alloc, statement, body)?;
    }
    Ok(())
}

/// Puts a statement behind others.
#[cycle(statement)]
fn add_statement(
    site: &Site,
    alloc: Global,
    statement: &analysed::Statement,
    body: &mut Vec<Statement>,
) -> Result<(), ElabFault>
    requires { IsSite site.now }
    ensures { Expands (λ _. statements_of body.new.items)
        (steps.after (statements_of body.old.items)
        (definition.statement (site_view site.now) (analysed.statement_view statement.now))) result }
{
    match statement {
        analysed::Statement::Null => add(body, Ok(Statement::Null)),
        analysed::Statement::Assign { target, value } => {
            add(body, assign(site, alloc, target, value))
        }
        analysed::Statement::Set {
            at,
            variable,
            part,
            value,
        } => add(body, set(site, alloc, *variable, part, value, *at)),
        analysed::Statement::AssignIn {
            at,
            signal,
            part,
            value,
        } => add(body, assign_in(site, alloc, *signal, part, value, *at)),
        analysed::Statement::SetIn {
            at,
            variable,
            part,
            value,
        } => add(body, set_in(site, alloc, *variable, part, value, *at)),
        analysed::Statement::If(branched) => add(body, conditional(site, alloc, branched)),
        analysed::Statement::Case(selected) => add(body, selection(site, alloc, selected)),
        analysed::Statement::Loop(repeated) => add_turns(site, alloc, repeated, body),
    }
}

/// An if statement.
#[cycle(statement)]
#[tactic(auto, using(crate::proofs::Parts::if_made))]
fn conditional(site: &Site, alloc: Global, conditional: &If) -> Result<Statement, ElabFault>
    requires { IsSite site.now }
    ensures { Expands statement_view
        (steps.conditional (site_view site.now) (analysed.branches_view (out-If conditional.now).branches)
        (analysed.last_of (analysed.option_statements_view (out-If conditional.now).otherwise))) result }
{
    let branches = branches(site, alloc, &conditional.branches)?;
    let (branches, otherwise) = both(branches, otherwise(site, alloc, conditional))?;
    Ok(Statement::If {
        at: byte(conditional.at),
        branches,
        otherwise,
    })
}

/// The branches of an if statement.
#[cycle(statement)]
fn branches(site: &Site, alloc: Global, list: &[analysed::Branch]) -> Result<Vec<Branch>, ElabFault>
    requires { IsSite site.now }
    ensures { Expands branches_view
        (each (steps.branch (site_view site.now)) (map analysed.branch_view list.now)) result }
{
    let mut branches = Vec::new(alloc);
    for item in list {
        add(&mut branches, branch(site, alloc, item))?;
    }
    Ok(branches)
}

/// A condition, and the statements that it guards.
#[cycle(statement)]
fn branch(site: &Site, alloc: Global, branch: &analysed::Branch) -> Result<Branch, ElabFault>
    requires { IsSite site.now }
    ensures { Expands branch_view
        (steps.branch (site_view site.now) (analysed.branch_view branch.now)) result }
{
    let test = site.expanded_test(alloc, &branch.condition)?;
    let (test, statements) = both(test, body(site, alloc, &branch.statements))?;
    Ok(Branch { test, statements })
}

/// What an if statement does else.
#[cycle(statement)]
#[tactic(auto, unfolding(vhdl_expand_rules::specs::Statements::branches))]
fn otherwise(
    site: &Site,
    alloc: Global,
    conditional: &If,
) -> Result<Option<Vec<Statement>>, ElabFault>
    requires { IsSite site.now }
    ensures { Expands otherwise_view
        (definition.branches (site_view site.now)
        (analysed.last_of (analysed.option_statements_view (out-If conditional.now).otherwise))) result }
{
    match &conditional.otherwise {
        None => Ok(None),
        Some(list) => {
            let statements = body(site, alloc, list)?;
            Ok(Some(statements))
        }
    }
}

/// A case statement.
#[cycle(statement)]
#[tactic(auto, using(crate::proofs::Parts::case_made))]
fn selection(site: &Site, alloc: Global, selection: &Case) -> Result<Statement, ElabFault>
    requires { IsSite site.now }
    ensures { Expands statement_view
        (steps.selection (site_view site.now) (out-Case selection.now).at
        (value_view (out-Case selection.now).selector)
        (analysed.alternatives_view (out-Case selection.now).alternatives)
        (choices_view (out-Case selection.now).last)
        (analysed.statements_of (analysed.statements_view (out-Case selection.now).others))) result }
{
    let at = selection.at;
    let (selector, coding) = selector(site, alloc, selection)?;
    let alternatives = alternatives(site, alloc, &selection.alternatives, coding, at);
    let (selector, alternatives) = both(selector, alternatives)?;
    let others = both(alternatives, body(site, alloc, &selection.others));
    let (selector, (alternatives, others)) = both(selector, others)?;
    Ok(Statement::Case {
        at: byte(at),
        selector: selector.value,
        alternatives,
        others,
    })
}

/// The alternatives of a case statement.
#[cycle(statement)]
fn alternatives(
    site: &Site,
    alloc: Global,
    list: &[analysed::Alternative],
    coding: Coding,
    at: usize,
) -> Result<Vec<Alternative>, ElabFault>
    requires { IsSite site.now }
    ensures { Expands alternatives_view
        (each (steps.alternative (site_view site.now) (codes_by (site_view site.now).integers at coding))
        (map analysed.alternative_view list.now)) result }
{
    let mut alternatives = Vec::new(alloc);
    for item in list {
        add(
            &mut alternatives,
            alternative(site, alloc, item, coding, at),
        )?;
    }
    Ok(alternatives)
}

/// Choices, and the statements that they guard.
#[cycle(statement)]
fn alternative(
    site: &Site,
    alloc: Global,
    alternative: &analysed::Alternative,
    coding: Coding,
    at: usize,
) -> Result<Alternative, ElabFault>
    requires { IsSite site.now }
    ensures { Expands alternative_view
        (steps.alternative (site_view site.now) (codes_by (site_view site.now).integers at coding)
        (analysed.alternative_view alternative.now)) result }
{
    let choices = coding.codes(alloc, &site.integers, &alternative.choices, at)?;
    let statements = body(site, alloc, &alternative.statements);
    let (choices, statements) = both(choices, statements)?;
    Ok(Alternative {
        choices,
        statements,
    })
}

/// Puts the turns of a loop behind other statements.
#[cycle(statement)]
fn add_turns(
    site: &Site,
    alloc: Global,
    repeated: &Loop,
    body: &mut Vec<Statement>,
) -> Result<(), ElabFault>
    requires { IsSite site.now }
    ensures { Expands (λ _. statements_of body.new.items)
        (steps.after (statements_of body.old.items)
        (steps.turned (site_view site.now) repeated.now.at (range_view repeated.now.range)
        (analysed.statements_of (analysed.statements_view repeated.now.statements)))) result }
{
    let turns = site.integers.turns(&repeated.range, repeated.at)?;
    for turn in 0..turns.count {
        let value = turns.parameter(turn);
        add_turn(site, alloc, &repeated.statements, value, body)?;
    }
    Ok(())
}

/// Puts the statements of a loop, whose parameter has this value, behind others.
#[cycle(statement)]
fn add_turn(
    site: &Site,
    alloc: Global,
    list: &[analysed::Statement],
    parameter: i32,
    body: &mut Vec<Statement>,
) -> Result<(), ElabFault>
    requires { IsSite site.now }
    ensures { Expands (λ _. statements_of body.new.items)
        (steps.after (statements_of body.old.items)
        (definition.statements (in_loop (site_view site.now) parameter)
        (analysed.statements_of (map analysed.statement_view list.now)))) result }
{
    let mut loops = site.integers.loops.to_vec(alloc)?;
    loops.push(parameter)?;
    let turn = (&*site).within(&loops);
    let added = add_statements(&turn, alloc, list, body);
    turn.end();
    added
}
