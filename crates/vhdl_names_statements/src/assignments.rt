//! How concurrent assignments are analysed (IEEE 1076-2008, 11.6).

ghost use Rattle.std.specs.Prelude.{◌≡◌, map, option_map, IfErr, IfOk};
ghost use Rattle.vhdl_names_rules.specs.problems.Broken.{Tells, any_of};
ghost use Rattle.vhdl_names_rules.specs.problems.Concurrent as problems;
ghost use Rattle.vhdl_names_rules.specs.Concurrent as rules;
ghost use Rattle.vhdl_names_rules.specs.Rules.{each};
ghost use Rattle.vhdl_names_rules.specs.Gives.{Gives};
ghost use Rattle.vhdl_tree.specs.View as tree;
ghost use Rattle.vhdl_names_statements.specs.steps.Cases as cases;
ghost use Rattle.vhdl_names_statements.specs.steps.Concurrent as steps;
ghost use Rattle.vhdl_names_units.specs.views.Concurrent.{one_process};
ghost use Rattle.vhdl_names_units.specs.views.Sequential as views;

use crate::choices::{Divided, arranged, covered};
use crate::conditional::{alone, conditional, single};
use crate::selecting::selecting;
use std::alloc::{AllocError, Global};
use vhdl_names_asked::{selector, target};
use vhdl_names_rules::{NameFault, ObjectType};
use vhdl_names_sight::Sight;
use vhdl_names_units::{Alternative, Process, Sensitivity, Statement, copied_label};
use vhdl_names_values::choices;
use vhdl_tree as syntax;
use vhdl_tree::Identifier;

/// A process that assigns what it reads; it starts at byte `at`.
fn assigning(
    alloc: Global,
    at: usize,
    label: &Option<Identifier>,
    statement: Statement,
) -> Result<Process, AllocError>
    ensures { IfOk result (λ p. one_process p ≡
        rules.assigning at (option_map tree.ident_view label.now) (views.statement_view statement)) }
{
    let statements = single(alloc, statement)?;
    let label = copied_label(alloc, label)?;
    Ok(Process {
        at,
        label,
        declarations: Vec::new(alloc),
        sensitivity: Sensitivity::AsRead,
        statements,
    })
}

/// `value when choices`.
fn chosen(
    sight: &Sight,
    selected: ObjectType,
    target: &syntax::Name,
    item: &syntax::Waveform,
) -> Result<Alternative, NameFault>
    ensures given { Gives views.alternative_view
        (steps.chosen sight.now selected (tree.name_view target.now) (tree.waveform_view item.now)) result }
    ensures told { IfErr result (Tells
        (problems.waveform sight.now selected (tree.name_view target.now) (tree.waveform_view item.now))) }
{
    let statements = alone(sight, false, target, &item.value)?;
    let choices = choices(sight, selected, &item.choices)?;
    Ok(Alternative::new(choices, statements))
}

/// Waveforms with choices.
#[tactic(auto, using(vhdl_names_units::proofs::Lists::each_in_turn))]
fn all_chosen(
    sight: &Sight,
    selected: ObjectType,
    target: &syntax::Name,
    list: &[syntax::Waveform],
) -> Result<Vec<Alternative>, NameFault>
    ensures given { Gives views.alternatives_view
        (each (steps.chosen sight.now selected (tree.name_view target.now)) (map tree.waveform_view list.now)) result }
    ensures told { IfErr result (Tells
        (any_of (problems.waveform sight.now selected (tree.name_view target.now)) (map tree.waveform_view list.now))) }
{
    let mut all = Vec::new(sight.alloc);
    for item in list {
        let next = chosen(sight, selected, target, item)?;
        all.push(next)?;
    }
    Ok(all)
}

/// The choices of each waveform.
fn choice_lists(
    alloc: Global,
    waveforms: &[syntax::Waveform],
) -> Result<Vec<&[syntax::Choice]>, AllocError>
    ensures { IfOk result (λ v. cases.all_lists v.items ≡ steps.choice_lists (map tree.waveform_view waveforms.now)) }
{
    let mut lists: Vec<&[syntax::Choice]> = Vec::new(alloc);
    for waveform in waveforms {
        lists.push(&waveform.choices)?;
    }
    Ok(lists)
}

/// What a selected assignment does by the value selected, the last alternative apart.
fn selected_parts(
    sight: &Sight,
    by: ObjectType,
    assignment: &syntax::SelectedAssignment,
) -> Result<Divided, NameFault>
    ensures given { Gives cases.arranged_view
        (steps.parts sight.now by (tree.selected_assignment_view assignment.now)) result }
    ensures told { IfErr result (Tells
        (problems.waveforms sight.now by (tree.selected_assignment_view assignment.now))) }
{
    let _ = target(sight, false, &assignment.target)?;
    let lists = choice_lists(sight.alloc, &assignment.waveforms)?;
    let all = all_chosen(sight, by, &assignment.target, &assignment.waveforms);
    let all = covered(sight, by, assignment.at, &lists, all)?;
    arranged(sight.alloc, assignment.at, all)
}

/// What a conditional assignment, or one of a value alone, is analysed to: a process that is
/// sensitive to what it reads. It fails at the first byte where a rule is broken, or where memory
/// is refused.
#[tactic(auto, using(crate::proofs::steps::Concurrent::assignment_gives))]
pub fn assignment(sight: &Sight, assignment: &syntax::Assignment) -> Result<Process, NameFault>
    ensures given { Gives one_process (rules.assignment sight.now (tree.assignment_view assignment.now)) result }
    ensures told { IfErr result (Tells (problems.assignment sight.now (tree.assignment_view assignment.now))) }
{
    let statement = conditional(
        sight,
        false,
        &assignment.target,
        &assignment.branches,
        &assignment.otherwise,
    )?;
    let at = assignment.target.identifier.at;
    Ok(assigning(sight.alloc, at, &assignment.label, statement)?)
}

/// What a selected assignment behind its label is analysed to: a process with a case that is
/// sensitive to what it reads. It fails at the first byte where a rule is broken, or where memory
/// is refused.
#[tactic(auto, using(crate::proofs::steps::Concurrent::selected_gives))]
pub fn selected(
    sight: &Sight,
    label: &Option<Identifier>,
    assignment: &syntax::SelectedAssignment,
) -> Result<Process, NameFault>
    ensures given { Gives one_process
        (rules.selected sight.now (option_map tree.ident_view label.now) (tree.selected_assignment_view assignment.now))
        result }
    ensures told { IfErr result (Tells (problems.selected sight.now (tree.selected_assignment_view assignment.now))) }
{
    let (by, selector) = selector(sight, &assignment.selector)?;
    let all = selected_parts(sight, by, assignment)?;
    let statement = selecting(sight.alloc, assignment.at, selector, all)?;
    Ok(assigning(sight.alloc, assignment.at, label, statement)?)
}
