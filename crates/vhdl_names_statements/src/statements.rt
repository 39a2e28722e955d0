//! How sequential statements are analysed (IEEE 1076-2008, clause 10).

ghost use Rattle.std.specs.Prelude.{◌≡◌, map, option_map, IfErr, OnErr, Some};
ghost use Rattle.vhdl_names_rules.specs.problems.Broken.{Tells, nothing};
ghost use Rattle.vhdl_names_rules.specs.problems.Statements as broken;
ghost use Rattle.vhdl_names_rules.specs.Rules.{each, if_any};
ghost use Rattle.vhdl_names_rules.specs.Statements as rules;
ghost use Rattle.vhdl_names_rules.specs.Visibility as visibility;
ghost use Rattle.vhdl_names_rules.specs.Gives.{Gives};
ghost use Rattle.vhdl_tree.specs.Tree as t;
ghost use Rattle.vhdl_tree.specs.View as tree;
ghost use Rattle.vhdl_tree.specs.declared.sequential.Case.{out-Case};
ghost use Rattle.vhdl_tree.specs.declared.sequential.For.{out-For};
ghost use Rattle.vhdl_tree.specs.declared.sequential.If.{out-If};
ghost use Rattle.vhdl_names_units.specs.views.Sequential as views;
ghost use Rattle.vhdl_names_statements.specs.steps.Cases as cases;
ghost use Rattle.vhdl_names_statements.specs.steps.Sequential as steps;
ghost use Rattle.vhdl_names_statements.specs.steps.Told as told;

use crate::choices::{Divided, arranged, choice_lists, covered};
use crate::conditional::{assigned, conditional};
use crate::selecting::selecting;
use vhdl_names_asked::{condition, selector, static_range};
use vhdl_names_rules::{NameFault, ObjectType};
use vhdl_names_sight::{Declared, Meaning, Sight};
use vhdl_names_units::{Alternative, Branch, Statement, ended};
use vhdl_names_values::choices;
use vhdl_tree as syntax;
use vhdl_tree::Identifier;

/// The sight within a loop.
fn enter_loop(sight: &mut Sight, parameter: &Identifier) -> Result<(), NameFault>
    ensures given { Gives (λ _. sight.new) (Some (visibility.within_loop sight.old (tree.ident_view parameter.now)))
        result }
    ensures refused { OnErr result (sight.new ≡ sight.old) }
    ensures told { IfErr result (Tells (nothing)) }
{
    let name = parameter.text.to_vec(sight.alloc)?;
    let entry = Meaning::LoopParameter(sight.loops.len()).entry();
    sight.loops.push(Declared { name, entry })?;
    Ok(())
}

/// The sight outside again.
fn leave_loop(sight: &mut Sight)
    ensures { (outer : visibility.Sight) (d : visibility.Declared) → sight.old ≡ steps.in_loop outer d
        → sight.new ≡ outer }
{
    sight.loops.pop();
}

/// What sequential statements one after another are analysed to; `sight` has the declarations in
/// sight of them, and is as before afterwards. It fails at the first byte where a rule is broken,
/// or where memory is refused.
pub fn analysed(sight: &mut Sight, list: &[syntax::Sequential]) -> Result<Vec<Statement>, NameFault>
    ensures given { Gives views.body_view
        (rules.statements sight.old (t.statements_of (map tree.sequential_view list.now))) result }
    ensures kept { sight.new ≡ sight.old }
    ensures told { IfErr result (Tells
        (broken.statements sight.old (t.statements_of (map tree.sequential_view list.now)))) }
{
    statements(sight, list)
}

/// Statements one after another.
#[cycle(statements)]
#[tactic(auto, using(vhdl_names_units::proofs::Lists::each_in_turn))]
fn statements(sight: &mut Sight, list: &[syntax::Sequential]) -> Result<Vec<Statement>, NameFault>
    ensures given { Gives views.statements_view (steps.all_labelled sight.old (map tree.sequential_view list.now))
        result }
    ensures kept { sight.new ≡ sight.old }
    ensures told { IfErr result (Tells
        (broken.statements sight.old (t.statements_of (map tree.sequential_view list.now)))) }
{
    let mut all = Vec::new(sight.alloc);
    for item in list {
        let next = statement(sight, item)?;
        if !is_dropped(&item.statement) {
            all.push(next)?;
        }
    }
    Ok(all)
}

/// Whether a statement is read and dropped.
fn is_dropped(statement: &syntax::Statement) -> bool
    ensures { result ≡ steps.is_dropped (tree.statement_view statement.now) }
{
    match statement {
        syntax::Statement::Assert(_) | syntax::Statement::Report(_) => true,
        _ => false,
    }
}

/// A statement behind its label.
#[cycle(statements)]
#[tactic(auto, unfolding(vhdl_names_rules::specs::Statements::statement))]
fn statement(sight: &mut Sight, item: &syntax::Sequential) -> Result<Statement, NameFault>
    ensures given { Gives views.statement_view (steps.labelled sight.old (tree.sequential_view item.now)) result }
    ensures kept { sight.new ≡ sight.old }
    ensures told { IfErr result (Tells
        (broken.statement sight.old (tree.option_ident_view item.now.label) (tree.statement_view item.now.statement))) }
{
    match &item.statement {
        syntax::Statement::Null { .. } => Ok(Statement::Null),
        syntax::Statement::SignalAssignment { target, value } => {
            assigned(sight, false, target, value)
        }
        syntax::Statement::VariableAssignment { target, value } => {
            assigned(sight, true, target, value)
        }
        syntax::Statement::ConditionalAssignment {
            is_variable,
            target,
            branches,
            otherwise,
        } => conditional(sight, *is_variable, target, branches, otherwise),
        syntax::Statement::If(conditional) => if_statement(sight, &item.label, conditional),
        syntax::Statement::Case(case) => case_statement(sight, &item.label, case),
        syntax::Statement::For(repeated) => for_loop(sight, &item.label, repeated),
        syntax::Statement::Assert(_) | syntax::Statement::Report(_) => Ok(Statement::Null),
    }
}

/// An if statement (10.8).
#[cycle(statements)]
fn if_statement(
    sight: &mut Sight,
    label: &Option<Identifier>,
    conditional: &syntax::If,
) -> Result<Statement, NameFault>
    ensures given { Gives views.statement_view
        (steps.conditional sight.old (option_map tree.ident_view label.now) (out-If conditional.now).at
        (tree.conditionals_view (out-If conditional.now).branches)
        (tree.option_sequentials_view (out-If conditional.now).otherwise)
        (tree.option_ident_view (out-If conditional.now).end_label)) result }
    ensures kept { sight.new ≡ sight.old }
    ensures told { IfErr result (Tells
        (broken.statement sight.old (option_map tree.ident_view label.now) (tree.if_view conditional.now))) }
{
    let branches = branches(sight, &conditional.branches)?;
    let otherwise = otherwise(sight, conditional)?;
    let (branches, otherwise) = ended(label, &conditional.end_label, (branches, otherwise))?;
    Ok(Statement::conditional(conditional.at, branches, otherwise))
}

/// The branches of an if statement.
#[cycle(statements)]
#[tactic(auto, using(vhdl_names_units::proofs::Lists::each_in_turn))]
fn branches(sight: &mut Sight, list: &[syntax::Conditional]) -> Result<Vec<Branch>, NameFault>
    ensures given { Gives views.branches_view (each (steps.guarded sight.old) (map tree.conditional_view list.now))
        result }
    ensures kept { sight.new ≡ sight.old }
    ensures told { IfErr result (Tells
        (broken.conditionals sight.old (t.conditionals_of (map tree.conditional_view list.now)))) }
{
    let mut all = Vec::new(sight.alloc);
    for item in list {
        let next = branch(sight, item)?;
        all.push(next)?;
    }
    Ok(all)
}

/// A condition, and the statements that it guards.
#[cycle(statements)]
fn branch(sight: &mut Sight, item: &syntax::Conditional) -> Result<Branch, NameFault>
    ensures given { Gives views.branch_view (steps.guarded sight.old (tree.conditional_view item.now)) result }
    ensures kept { sight.new ≡ sight.old }
    ensures told { IfErr result (Tells (told.guarded sight.old (tree.conditional_view item.now))) }
{
    let condition = condition(sight, &item.condition)?;
    let statements = statements(sight, &item.statements)?;
    Ok(Branch::new(condition, statements))
}

/// What an if statement does else.
#[cycle(statements)]
fn otherwise(
    sight: &mut Sight,
    conditional: &syntax::If,
) -> Result<Option<Vec<Statement>>, NameFault>
    ensures given { Gives views.option_statements_view
        (if_any (steps.all_labelled sight.old) (tree.option_sequentials_view (out-If conditional.now).otherwise))
        result }
    ensures kept { sight.new ≡ sight.old }
    ensures told { IfErr result (Tells
        (broken.otherwise sight.old
        (t.otherwise_of (tree.option_sequentials_view (out-If conditional.now).otherwise)))) }
{
    match &conditional.otherwise {
        None => Ok(None),
        Some(list) => Ok(Some(statements(sight, list)?)),
    }
}

/// A case statement (10.9).
#[cycle(statements)]
fn case_statement(
    sight: &mut Sight,
    label: &Option<Identifier>,
    case: &syntax::Case,
) -> Result<Statement, NameFault>
    ensures given { Gives views.statement_view
        (cases.selection sight.old (option_map tree.ident_view label.now) (out-Case case.now).at
        (tree.view (out-Case case.now).selector)
        (tree.alternatives_view (out-Case case.now).alternatives)
        (tree.option_ident_view (out-Case case.now).end_label)) result }
    ensures kept { sight.new ≡ sight.old }
    ensures told { IfErr result (Tells
        (broken.statement sight.old (option_map tree.ident_view label.now) (tree.case_view case.now))) }
{
    let (selected, selector) = selector(sight, &case.selector)?;
    let all = case_parts(sight, selected, label, case)?;
    Ok(selecting(sight.alloc, case.at, selector, all)?)
}

/// What a case statement does by the value selected, the last alternative apart.
#[cycle(statements)]
fn case_parts(
    sight: &mut Sight,
    selected: ObjectType,
    label: &Option<Identifier>,
    case: &syntax::Case,
) -> Result<Divided, NameFault>
    ensures given { Gives cases.arranged_view
        (cases.parts sight.old selected (option_map tree.ident_view label.now)
        (tree.alternatives_view (out-Case case.now).alternatives)
        (tree.option_ident_view (out-Case case.now).end_label)) result }
    ensures kept { sight.new ≡ sight.old }
    ensures told { IfErr result (Tells (told.parts sight.old selected (option_map tree.ident_view label.now)
        (out-Case case.now).at (tree.alternatives_view (out-Case case.now).alternatives)
        (tree.option_ident_view (out-Case case.now).end_label))) }
{
    let lists = choice_lists(sight.alloc, &case.alternatives)?;
    let all = alternatives(sight, selected, &case.alternatives);
    let all = covered(sight, selected, case.at, &lists, all)?;
    let all = ended(label, &case.end_label, all)?;
    arranged(sight.alloc, case.at, all)
}

/// The alternatives of a case statement.
#[cycle(statements)]
#[tactic(auto, using(vhdl_names_units::proofs::Lists::each_in_turn))]
fn alternatives(
    sight: &mut Sight,
    selected: ObjectType,
    list: &[syntax::Alternative],
) -> Result<Vec<Alternative>, NameFault>
    ensures given { Gives views.alternatives_view
        (each (cases.chosen sight.old selected) (map tree.alternative_view list.now)) result }
    ensures kept { sight.new ≡ sight.old }
    ensures told { IfErr result (Tells
        (broken.alternatives sight.old selected (t.alternatives_of (map tree.alternative_view list.now)))) }
{
    let mut all = Vec::new(sight.alloc);
    for item in list {
        let next = alternative(sight, selected, item)?;
        all.push(next)?;
    }
    Ok(all)
}

/// Choices, and the statements that they guard.
#[cycle(statements)]
fn alternative(
    sight: &mut Sight,
    selected: ObjectType,
    item: &syntax::Alternative,
) -> Result<Alternative, NameFault>
    ensures given { Gives views.alternative_view (cases.chosen sight.old selected (tree.alternative_view item.now))
        result }
    ensures kept { sight.new ≡ sight.old }
    ensures told { IfErr result (Tells (told.alternative sight.old selected (tree.alternative_view item.now))) }
{
    let choices = choices(sight, selected, &item.choices)?;
    let statements = statements(sight, &item.statements)?;
    Ok(Alternative::new(choices, statements))
}

/// A for loop (10.10).
#[cycle(statements)]
fn for_loop(
    sight: &mut Sight,
    label: &Option<Identifier>,
    repeated: &syntax::For,
) -> Result<Statement, NameFault>
    ensures given { Gives views.statement_view
        (steps.repetition sight.old (option_map tree.ident_view label.now) (out-For repeated.now).at
        (tree.ident_view (out-For repeated.now).parameter)
        (tree.discrete_range_view (out-For repeated.now).range)
        (tree.sequentials_view (out-For repeated.now).statements)
        (tree.option_ident_view (out-For repeated.now).end_label)) result }
    ensures kept { sight.new ≡ sight.old }
    ensures told { IfErr result (Tells
        (broken.statement sight.old (option_map tree.ident_view label.now) (tree.for_view repeated.now))) }
{
    let range = static_range(sight, &repeated.range)?;
    let turn = turn(sight, repeated)?;
    let (range, turn) = ended(label, &repeated.end_label, (range, turn))?;
    Ok(Statement::repetition(repeated.at, range, turn))
}

/// What a for loop does in a turn.
#[cycle(statements)]
fn turn(sight: &mut Sight, repeated: &syntax::For) -> Result<Vec<Statement>, NameFault>
    ensures given { Gives views.statements_view
        (steps.turn sight.old (tree.ident_view (out-For repeated.now).parameter)
        (tree.sequentials_view (out-For repeated.now).statements)) result }
    ensures kept { sight.new ≡ sight.old }
    ensures told { IfErr result (Tells
        (broken.statements (visibility.within_loop sight.old (tree.ident_view (out-For repeated.now).parameter))
        (t.statements_of (tree.sequentials_view (out-For repeated.now).statements)))) }
{
    enter_loop(sight, &repeated.parameter)?;
    let found = statements(sight, &repeated.statements);
    leave_loop(sight);
    found
}
