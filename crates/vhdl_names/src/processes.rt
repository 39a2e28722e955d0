//! Processes (IEEE 1076-2008, 11.3).

ghost use Rattle.std.specs.Prelude.{◌≡◌, List, [], map, Some, option_map, IfErr, OnOk};
ghost use Rattle.vhdl_names.specs.AllPlaces.{all_places_view};
ghost use Rattle.vhdl_names.specs.steps.Processes as steps;
ghost use Rattle.vhdl_names_rules.specs.problems.Broken.{Tells, any_of};
ghost use Rattle.vhdl_names_rules.specs.problems.Concurrent as broken;
ghost use Rattle.vhdl_names_rules.specs.problems.Statements as statements;
ghost use Rattle.vhdl_names_declarations.specs.Counts.{AreCounts};
ghost use Rattle.vhdl_names_rules.specs.Concurrent as rules;
ghost use Rattle.vhdl_names_rules.specs.Gives.{Gives};
ghost use Rattle.vhdl_names_rules.specs.Rules.{each};
ghost use Rattle.vhdl_names_rules.specs.Visibility.{Sight as SightView, Declared, with_variables};
ghost use Rattle.vhdl_names_registers.specs.Views.{edge_view};
ghost use Rattle.vhdl_tree.specs.Tree.{statements_of, absent};
ghost use Rattle.vhdl_tree.specs.View as tree;
ghost use Rattle.vhdl_names_units.specs.views.Concurrent.{sensitivity_view, process_view};
ghost use Rattle.vhdl_names_units.specs.views.Sequential.{body_view};

use crate::process_labels::statement_labels_are_distinct;
use indexmap::IndexMap;
use vhdl_names_asked::{condition, signal};
use vhdl_names_declarations::Counts;
use vhdl_names_declarations::process::process_declarations;
use vhdl_names_registers::{Edge, alone_at, waited_edge};
use vhdl_names_rules::{NameFault, NameProblem};
use vhdl_names_sight::Sight;
use vhdl_names_statements::analysed;
use vhdl_names_trees::{SignalPart, Test};
use vhdl_names_units::{Branch, Process, Sensitivity, Statement, copied_label, earlier_in, ended};
use vhdl_tree as syntax;
use vhdl_tree::Identifier;

/// The signals of a list of names.
#[tactic(auto, using(vhdl_names_units::proofs::Lists::each_in_turn))]
fn places(sight: &Sight, names: &[syntax::Name]) -> Result<Vec<SignalPart>, NameFault>
    ensures given { Gives all_places_view (each (steps.place_of sight.now) (map tree.name_view names.now)) result }
    ensures told { IfErr result (Tells (any_of (statements.signal sight.now) (map tree.name_view names.now))) }
{
    let mut all = Vec::new(sight.alloc);
    for name in names {
        let named = signal(sight, name)?;
        all.push(named.place)?;
    }
    Ok(all)
}

/// What resumes a process that starts at byte `at`; the names mean what they mean outside it. A
/// process has a sensitivity list, or it waits first and nothing else resumes it.
#[tactic(auto, using(crate::proofs::Resuming::listed))]
fn sensitivity(
    sight: &Sight,
    at: usize,
    list: &syntax::Sensitivity,
    waits: bool,
) -> Result<Sensitivity, NameFault>
    ensures given { Gives sensitivity_view (rules.sensitivity sight.now (tree.sensitivity_view list.now) waits)
        result }
    ensures told { IfErr result (Tells (broken.sensitivity sight.now at (tree.sensitivity_view list.now) waits)) }
{
    match list {
        syntax::Sensitivity::Absent => {
            if waits {
                return Ok(Sensitivity::Listed(Vec::new(sight.alloc)));
            }
            Err(NameProblem::NoSensitivity.at(at))
        }
        syntax::Sensitivity::All => Ok(Sensitivity::All),
        syntax::Sensitivity::Names(names) => { Ok(Sensitivity::Listed(places(sight, names)?)) }
    }
}

/// The edge for which a process without a list waits.
fn edge_awaited(sight: &Sight, wait: &syntax::Wait) -> Result<Option<Edge>, NameFault>
    ensures given { Gives (option_map edge_view) (rules.awaited sight.now absent (Some (tree.wait_view wait.now)))
        result }
    ensures told { IfErr result (Tells (broken.awaited sight.now absent (Some (tree.wait_view wait.now)))) }
{
    let condition = condition(sight, &wait.condition)?;
    match waited_edge(sight.alloc, condition)? {
        Some(edge) => Ok(Some(edge)),
        None => Err(NameProblem::NoSensitivity.at(wait.at)),
    }
}

/// The edge for which a process waits before its statements, if it waits. Behind a list it doesn't.
fn awaited(sight: &Sight, process: &syntax::Process) -> Result<Option<Edge>, NameFault>
    ensures given { Gives (option_map edge_view) (rules.awaited sight.now
        (tree.process_view process.now).sensitivity (tree.process_view process.now).wait) result }
    ensures told { IfErr result (Tells (broken.awaited sight.now
        (tree.process_view process.now).sensitivity (tree.process_view process.now).wait)) }
{
    match (&process.sensitivity, &process.wait) {
        (_, None) => Ok(None),
        (syntax::Sensitivity::Absent, Some(wait)) => edge_awaited(sight, wait),
        (_, Some(wait)) => Err(NameProblem::LeftOut.at(wait.at)),
    }
}

/// What resumes a process: the edge for which it waits, else its list.
fn resumed(
    sight: &Sight,
    process: &syntax::Process,
    list: Sensitivity,
) -> Result<Sensitivity, NameFault>
    ensures given { Gives sensitivity_view
        (steps.resumed sight.now (tree.process_view process.now) (sensitivity_view list)) result }
    ensures told { IfErr result (Tells (broken.awaited sight.now
        (tree.process_view process.now).sensitivity (tree.process_view process.now).wait)) }
{
    match awaited(sight, process)? {
        Some(Edge { kind: _, place }) => Ok(Sensitivity::Listed(vec![in sight.alloc; place]?)),
        None => Ok(list),
    }
}

/// The statements of a process, at the edge for which it waits. The edge is found once more, as a
/// place has no copy.
fn behind_wait(
    sight: &Sight,
    process: &syntax::Process,
    statements: Vec<Statement>,
) -> Result<Vec<Statement>, NameFault>
    ensures given { Gives body_view
        (steps.behind sight.now (tree.process_view process.now) (body_view statements)) result }
    ensures told { IfErr result (Tells (broken.awaited sight.now
        (tree.process_view process.now).sensitivity (tree.process_view process.now).wait)) }
{
    match (awaited(sight, process)?, &process.wait) {
        (Some(Edge { kind, place }), Some(wait)) => {
            let branch = Branch::new(Test::Edge(kind, place), statements);
            Ok(alone_at(sight.alloc, wait.at, branch)?)
        }
        _ => Ok(statements),
    }
}

/// What the statements of a process do. Of a label that stands twice and another fault the earlier
/// one is told.
fn body(sight: &mut Sight, list: &[syntax::Sequential]) -> Result<Vec<Statement>, NameFault>
    ensures given { Gives body_view (steps.body sight.old (map tree.sequential_view list.now)) result }
    ensures kept { sight.new ≡ sight.old }
    ensures told { IfErr result (Tells (broken.body sight.old (statements_of (map tree.sequential_view list.now)))) }
{
    let alloc = sight.alloc;
    let statements = analysed(sight, list);
    match statement_labels_are_distinct(alloc, list) {
        Ok(()) => statements,
        Err(fault) => Err(earlier_in(fault, statements)),
    }
}

/// Outside a process again, where no variables are in sight.
fn leave_process(sight: &mut Sight)
    ensures { (outer : SightView) (ds : List Declared) → outer.variables ≡ [] → sight.old ≡ with_variables outer ds
        → sight.new ≡ outer }
{
    sight.variables = IndexMap::new(sight.alloc);
}

/// A process behind its label, in a region with these counts: its declarations are a region of
/// their own, and in sight of its statements alone. It fails at the first byte where a rule is
/// broken, or where memory is refused.
#[tactic(auto, using(crate::proofs::Running::process_by))]
pub fn process(
    sight: &mut Sight,
    counts: Counts,
    label: &Option<Identifier>,
    process: &syntax::Process,
) -> Result<Process, NameFault>
    requires counts { AreCounts counts sight.old.region }
    requires outside { sight.old.variables ≡ [] }
    ensures given { Gives process_view
        (rules.process sight.old (tree.option_ident_view label.now) (tree.process_view process.now)) result }
    ensures kept { OnOk result (sight.new ≡ sight.old) }
    ensures told { IfErr result (Tells
        (broken.process sight.old (tree.option_ident_view label.now) (tree.process_view process.now))) }
{
    let waits = process.wait.is_some();
    let sensitivity = sensitivity(sight, process.at, &process.sensitivity, waits)?;
    let declarations = process_declarations(sight, counts, &process.declarations)?;
    let sensitivity = resumed(sight, process, sensitivity)?;
    let statements = body(sight, &process.statements)?;
    let statements = behind_wait(sight, process, statements)?;
    leave_process(sight);
    let found = (sensitivity, declarations, statements);
    let (sensitivity, declarations, statements) = ended(label, &process.end_label, found)?;
    let label = copied_label(sight.alloc, label)?;
    Ok(Process {
        at: process.at,
        label,
        declarations,
        sensitivity,
        statements,
    })
}
