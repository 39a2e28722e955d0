//! Assignments to signals and variables, of a value alone or of values under conditions
//! (IEEE 1076-2008, 10.5, 10.6). A target is told once.

ghost use Rattle.std.specs.Prelude.{◌≡◌, ◌∷◌, [], map, option_map, IfErr, IfOk};
ghost use Rattle.vhdl_names_rules.specs.problems.Broken.{Tells, any_of, of_any};
ghost use Rattle.vhdl_names_rules.specs.problems.Statements as broken;
ghost use Rattle.vhdl_names_rules.specs.Rules.{each, if_any};
ghost use Rattle.vhdl_names_rules.specs.Gives.{Gives};
ghost use Rattle.vhdl_tree.specs.View as tree;
ghost use Rattle.vhdl_names_statements.specs.steps.Sequential as steps;
ghost use Rattle.vhdl_names_statements.specs.steps.Told as told;
ghost use Rattle.vhdl_names_units.specs.views.Sequential as views;

use crate::selecting::assigned_to;
use std::alloc::{AllocError, Global};
use vhdl_names_asked::{assigned as value_assigned, condition, target};
use vhdl_names_rules::NameFault;
use vhdl_names_sight::Sight;
use vhdl_names_units::{Branch, Statement};
use vhdl_tree as syntax;

/// A statement alone.
pub(crate) fn single(alloc: Global, statement: Statement) -> Result<Vec<Statement>, AllocError>
    ensures { IfOk result (λ v. views.statements_view v ≡ views.statement_view statement ∷ []) }
{
    let mut statements = Vec::new(alloc);
    statements.push(statement)?;
    Ok(statements)
}

/// An assignment to a signal or a variable.
pub(crate) fn assigned(
    sight: &Sight,
    is_variable: bool,
    name: &syntax::Name,
    value: &syntax::Value,
) -> Result<Statement, NameFault>
    ensures given { Gives views.statement_view
        (steps.assigned sight.now is_variable (tree.name_view name.now) (tree.value_view value.now)) result }
    ensures told { IfErr result (Tells
        (told.assigned sight.now is_variable (tree.name_view name.now) (tree.value_view value.now))) }
{
    let target = target(sight, is_variable, name)?;
    let value = value_assigned(sight, target.object_type, target.range(), value)?;
    Ok(assigned_to(sight.alloc, target, value)?)
}

/// An assignment alone.
pub(crate) fn alone(
    sight: &Sight,
    is_variable: bool,
    target: &syntax::Name,
    value: &syntax::Value,
) -> Result<Vec<Statement>, NameFault>
    ensures given { Gives views.statements_view
        (steps.alone sight.now is_variable (tree.name_view target.now) (tree.value_view value.now)) result }
    ensures told { IfErr result (Tells
        (told.assigned sight.now is_variable (tree.name_view target.now) (tree.value_view value.now))) }
{
    let statement = assigned(sight, is_variable, target, value)?;
    Ok(single(sight.alloc, statement)?)
}

/// `value when condition`.
fn waveform(
    sight: &Sight,
    is_variable: bool,
    target: &syntax::Name,
    item: &syntax::Branch,
) -> Result<Branch, NameFault>
    ensures given { Gives views.branch_view
        (steps.waveform sight.now is_variable (tree.name_view target.now) (tree.branch_view item.now)) result }
    ensures told { IfErr result (Tells
        (told.waveform sight.now is_variable (tree.name_view target.now) (tree.branch_view item.now))) }
{
    let statements = alone(sight, is_variable, target, &item.value)?;
    let condition = condition(sight, &item.condition)?;
    Ok(Branch::new(condition, statements))
}

/// Values with conditions.
#[tactic(auto, using(vhdl_names_units::proofs::Lists::each_in_turn))]
fn waveforms(
    sight: &Sight,
    is_variable: bool,
    target: &syntax::Name,
    list: &[syntax::Branch],
) -> Result<Vec<Branch>, NameFault>
    ensures given { Gives views.branches_view
        (each (steps.waveform sight.now is_variable (tree.name_view target.now)) (map tree.branch_view list.now))
        result }
    ensures told { IfErr result (Tells
        (any_of (told.waveform sight.now is_variable (tree.name_view target.now)) (map tree.branch_view list.now))) }
{
    let mut all = Vec::new(sight.alloc);
    for item in list {
        let next = waveform(sight, is_variable, target, item)?;
        all.push(next)?;
    }
    Ok(all)
}

/// What is assigned where no condition holds.
fn otherwise(
    sight: &Sight,
    is_variable: bool,
    target: &syntax::Name,
    value: &Option<syntax::Value>,
) -> Result<Option<Vec<Statement>>, NameFault>
    ensures given { Gives views.option_statements_view
        (if_any (steps.alone sight.now is_variable (tree.name_view target.now)) (option_map tree.value_view value.now))
        result }
    ensures told { IfErr result (Tells
        (of_any (told.assigned sight.now is_variable (tree.name_view target.now))
        (option_map tree.value_view value.now))) }
{
    match value {
        None => Ok(None),
        Some(value) => Ok(Some(alone(sight, is_variable, target, value)?)),
    }
}

/// A target is what it has to be: its name is that of a signal which is no in port, or of a
/// variable.
fn is_target(sight: &Sight, is_variable: bool, name: &syntax::Name) -> Result<(), NameFault>
    ensures given { Gives (λ x. x) (steps.is_target sight.now is_variable (tree.name_view name.now)) result }
    ensures told { IfErr result (Tells (broken.target_by sight.now is_variable (tree.name_view name.now))) }
{
    let _target = target(sight, is_variable, name)?;
    Ok(())
}

/// What an assignment of values under conditions does.
fn branched(
    sight: &Sight,
    is_variable: bool,
    target: &syntax::Name,
    list: &[syntax::Branch],
    value: &Option<syntax::Value>,
) -> Result<Statement, NameFault>
    ensures given { Gives views.statement_view
        (steps.branched sight.now is_variable (tree.name_view target.now) (map tree.branch_view list.now)
        (option_map tree.value_view value.now)) result }
    ensures told { IfErr result (Tells
        (told.branched sight.now is_variable (tree.name_view target.now) (map tree.branch_view list.now)
        (option_map tree.value_view value.now))) }
{
    let branches = waveforms(sight, is_variable, target, list)?;
    let otherwise = otherwise(sight, is_variable, target, value)?;
    Ok(Statement::conditional(target.identifier.at, branches, otherwise))
}

/// What an assignment does, of a value alone or of values under conditions.
pub(crate) fn conditional(
    sight: &Sight,
    is_variable: bool,
    target: &syntax::Name,
    list: &[syntax::Branch],
    value: &Option<syntax::Value>,
) -> Result<Statement, NameFault>
    ensures given { Gives views.statement_view
        (steps.conditionally sight.now is_variable (tree.name_view target.now) (map tree.branch_view list.now)
        (option_map tree.value_view value.now)) result }
    ensures told { IfErr result (Tells
        (broken.conditional sight.now is_variable (tree.name_view target.now) (map tree.branch_view list.now)
        (option_map tree.value_view value.now))) }
{
    is_target(sight, is_variable, target)?;
    match (list, value) {
        ([], Some(value)) => assigned(sight, is_variable, target, value),
        _ => branched(sight, is_variable, target, list, value),
    }
}
