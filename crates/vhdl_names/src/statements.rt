//! Concurrent statements (IEEE 1076-2008, clause 11).

ghost use Rattle.std.specs.Prelude.{◌≡◌, List, [], map, option_map, IfErr, Some, OnOk};
ghost use Rattle.vhdl_names_declarations.specs.Counts.{AreCounts};
ghost use Rattle.vhdl_names_instances.specs.Table.{AreEntities, seens_view};
ghost use Rattle.vhdl_names.specs.steps.Concurrents as steps;
ghost use Rattle.vhdl_names_instances.specs.steps.Instances.{instance as instance_of};
ghost use Rattle.vhdl_names_units.specs.Once.{names_view};
ghost use Rattle.vhdl_names.specs.steps.Told as told;
ghost use Rattle.vhdl_names_rules.specs.problems.Broken.{Tells, nothing};
ghost use Rattle.vhdl_names_rules.specs.problems.Concurrent as broken;
ghost use Rattle.vhdl_names_rules.specs.Concurrent as rules;
ghost use Rattle.vhdl_names_rules.specs.Gives.{Gives};
ghost use Rattle.vhdl_names_rules.specs.Interfaces.{EntityView};
ghost use Rattle.vhdl_names_rules.specs.Visibility as visibility;
ghost use Rattle.vhdl_tree.specs.Tree as t;
ghost use Rattle.vhdl_tree.specs.View as tree;
ghost use Rattle.vhdl_tree.specs.declared.concurrent.Generate.{out-Generate};
ghost use Rattle.vhdl_names_units.specs.views.Concurrent as views;

use crate::processes::process;
use crate::schemes::scheme;
use vhdl_names_declarations::{Counts, labels_are_distinct};
use vhdl_names_instances::{InstanceEntities, instance_in_turn};
use vhdl_names_rules::NameFault;
use vhdl_names_sight::{Declared, Meaning, Sight};
use vhdl_names_statements::{assignment, selected};
use vhdl_names_units::{Concurrent, copied, earlier_in, ends};
use vhdl_tree as syntax;
use vhdl_tree::Identifier;

/// The sight within a for-generate.
fn enter_parameter(sight: &mut Sight, parameter: &Identifier) -> Result<(), NameFault>
    ensures given { Gives (λ _. sight.new) (Some (visibility.within_generate sight.old (tree.ident_view parameter.now)))
        result }
    ensures told { IfErr result (Tells (nothing)) }
{
    let name = parameter.text.to_vec(sight.alloc)?;
    let entry = Meaning::GenerateParameter(sight.generates.len()).entry();
    sight.generates.push(Declared { name, entry })?;
    Ok(())
}

/// The sight within a generate.
fn enter_generate(sight: &mut Sight, scheme: &syntax::Scheme) -> Result<(), NameFault>
    ensures given { Gives (λ _. sight.new) (Some (rules.sight_within sight.old (tree.scheme_view scheme.now))) result }
    ensures told { IfErr result (Tells (nothing)) }
{
    match scheme {
        syntax::Scheme::For { parameter, .. } => enter_parameter(sight, parameter),
        syntax::Scheme::If { .. } => Ok(()),
    }
}

/// The sight outside a for-generate again.
fn leave_parameter(sight: &mut Sight)
    ensures { (outer : visibility.Sight) (d : visibility.Declared) → sight.old ≡ steps.in_generate outer d
        → sight.new ≡ outer }
{
    sight.generates.pop();
}

/// The sight outside a generate again.
fn leave_generate(sight: &mut Sight, scheme: &syntax::Scheme)
    ensures { (outer : visibility.Sight) → sight.old ≡ rules.sight_within outer (tree.scheme_view scheme.now)
        → sight.new ≡ outer }
{
    match scheme {
        syntax::Scheme::For { .. } => leave_parameter(sight),
        syntax::Scheme::If { .. } => {}
    }
}

/// Statements one after another.
#[cycle(concurrent)]
#[tactic(auto, using(vhdl_names_units::proofs::Lists::each_in_turn))]
fn statements(
    entities: &InstanceEntities,
    sight: &mut Sight,
    counts: Counts,
    list: &[syntax::Concurrent],
) -> Result<Vec<Concurrent>, NameFault>
    requires counts { AreCounts counts sight.old.region }
    requires outside { sight.old.variables ≡ [] }
    ensures given { Gives views.concurrents_view
        (steps.all (instance_of (names_view entities.now.names) (seens_view entities.now.formals))
        sight.old (map tree.concurrent_view list.now)) result }
    ensures kept { OnOk result (sight.new ≡ sight.old) }
    ensures told { (all : List EntityView) → AreEntities entities.now all
        → IfErr result (Tells
        (broken.concurrents all sight.old (t.concurrents_of (map tree.concurrent_view list.now)))) }
{
    let mut all = Vec::new(sight.alloc);
    for item in list {
        let Some(next) = statement(entities, sight, counts, item)? else {
            continue;
        };
        all.push(next)?;
    }
    Ok(all)
}

/// A statement; an assertion is dropped.
#[cycle(concurrent)]
#[tactic(auto, unfolding(vhdl_names_rules::specs::problems::Concurrent::concurrent))]
fn statement(
    entities: &InstanceEntities,
    sight: &mut Sight,
    counts: Counts,
    item: &syntax::Concurrent,
) -> Result<Option<Concurrent>, NameFault>
    requires counts { AreCounts counts sight.old.region }
    requires outside { sight.old.variables ≡ [] }
    ensures given { Gives (option_map views.concurrent_view)
        (steps.kept (instance_of (names_view entities.now.names) (seens_view entities.now.formals))
        sight.old (tree.concurrent_view item.now)) result }
    ensures kept { OnOk result (sight.new ≡ sight.old) }
    ensures told { (all : List EntityView) → AreEntities entities.now all
        → IfErr result (Tells (broken.concurrent all sight.old (tree.concurrent_view item.now))) }
{
    match item {
        syntax::Concurrent::Assert(_) => Ok(None),
        syntax::Concurrent::Assignment(written) => {
            Ok(Some(Concurrent::Process(assignment(sight, written)?)))
        }
        syntax::Concurrent::Selected {
            label,
            assignment: written,
        } => Ok(Some(Concurrent::Process(selected(sight, label, written)?))),
        syntax::Concurrent::Process {
            label,
            process: written,
        } => Ok(Some(Concurrent::Process(process(sight, counts, label, written)?))),
        syntax::Concurrent::Instance { label, instance } => Ok(Some(Concurrent::Instance(
            instance_in_turn(entities, sight, label, instance)?,
        ))),
        syntax::Concurrent::Generate(written) => {
            Ok(Some(generate(entities, sight, counts, written)?))
        }
    }
}

/// The statements directly in a generate, with labels of their own. Of a label that stands twice
/// and another fault the earlier one is told.
#[cycle(concurrent)]
fn labelled(
    entities: &InstanceEntities,
    sight: &mut Sight,
    counts: Counts,
    list: &[syntax::Concurrent],
) -> Result<Vec<Concurrent>, NameFault>
    requires counts { AreCounts counts sight.old.region }
    requires outside { sight.old.variables ≡ [] }
    ensures given { Gives views.concurrents_view
        (steps.labelled (instance_of (names_view entities.now.names) (seens_view entities.now.formals))
        sight.old (map tree.concurrent_view list.now)) result }
    ensures kept { OnOk result (sight.new ≡ sight.old) }
    ensures told { (all : List EntityView) → AreEntities entities.now all
        → IfErr result (Tells (told.labelled all sight.old (map tree.concurrent_view list.now))) }
{
    let alloc = sight.alloc;
    let all = statements(entities, sight, counts, list);
    match labels_are_distinct(alloc, list) {
        Ok(()) => all,
        Err(fault) => Err(earlier_in(fault, all)),
    }
}

/// A generate (11.9).
#[cycle(concurrent)]
fn generate(
    entities: &InstanceEntities,
    sight: &mut Sight,
    counts: Counts,
    written: &syntax::Generate,
) -> Result<Concurrent, NameFault>
    requires counts { AreCounts counts sight.old.region }
    requires outside { sight.old.variables ≡ [] }
    ensures given { Gives views.concurrent_view
        (steps.generate (instance_of (names_view entities.now.names) (seens_view entities.now.formals))
        sight.old (tree.ident_view (out-Generate written.now).label) (out-Generate written.now).at
        (tree.scheme_view (out-Generate written.now).scheme)
        (tree.concurrents_view (out-Generate written.now).statements)
        (tree.option_ident_view (out-Generate written.now).end_label)) result }
    ensures kept { OnOk result (sight.new ≡ sight.old) }
    ensures told { (all : List EntityView) → AreEntities entities.now all
        → IfErr result (Tells (told.generate all sight.old (tree.ident_view (out-Generate written.now).label)
        (tree.scheme_view (out-Generate written.now).scheme)
        (tree.concurrents_view (out-Generate written.now).statements)
        (tree.option_ident_view (out-Generate written.now).end_label))) }
{
    let by = scheme(sight, &written.scheme)?;
    enter_generate(sight, &written.scheme)?;
    let body = labelled(entities, sight, counts, &written.statements)?;
    leave_generate(sight, &written.scheme);
    ends(&written.label, &written.end_label)?;
    let label = copied(sight.alloc, &written.label)?;
    Ok(Concurrent::generated(label, written.at, by, body))
}

/// Concurrent statements one after another, with the entities of the file; `sight` has the
/// declarations in sight of them, and no variables. It fails at the first byte where a rule is
/// broken, or where memory is refused.
pub fn concurrents(
    entities: &InstanceEntities,
    sight: &mut Sight,
    counts: Counts,
    list: &[syntax::Concurrent],
) -> Result<Vec<Concurrent>, NameFault>
    requires counts { AreCounts counts sight.old.region }
    requires outside { sight.old.variables ≡ [] }
    ensures given { (all : List EntityView) → AreEntities entities.now all
        → Gives steps.body_view (rules.concurrents all sight.old (t.concurrents_of (map tree.concurrent_view list.now)))
        result }
    ensures kept { OnOk result (sight.new ≡ sight.old) }
    ensures told { (all : List EntityView) → AreEntities entities.now all
        → IfErr result (Tells
        (broken.concurrents all sight.old (t.concurrents_of (map tree.concurrent_view list.now)))) }
{
    statements(entities, sight, counts, list)
}
