//! One architecture (IEEE 1076-2008, 3.3).

ghost use Rattle.std.specs.Prelude.{◌≡◌, IfOk, IfErr, Some, [], List, map};
ghost use Rattle.vhdl_names.specs.Finding.{Finds, HasMemory};
ghost use Rattle.vhdl_names.specs.steps.Architectures as steps;
ghost use Rattle.vhdl_names_declarations.specs.Entered.{more};
ghost use Rattle.vhdl_names_instances.specs.Table.{AreEntities};
ghost use Rattle.vhdl_names_interfaces.specs.Views.{entities_view, entity_view, sight_behind};
ghost use Rattle.vhdl_names_rules.specs.problems.Broken.{Tells, ◌▸◌};
ghost use Rattle.vhdl_names_rules.specs.problems.Declarations.{standing_twice, end_name};
ghost use Rattle.vhdl_names_rules.specs.problems.Files as broken;
ghost use Rattle.vhdl_names_rules.specs.problems.Files.{with_labels};
ghost use Rattle.vhdl_names_rules.specs.problems.Labels.{labels_of};
ghost use Rattle.vhdl_names_rules.specs.Concurrent.{concurrent_labels};
ghost use Rattle.vhdl_names_rules.specs.Files as rules;
ghost use Rattle.vhdl_names_rules.specs.Files.{labelled};
ghost use Rattle.vhdl_names_rules.specs.Interfaces.{EntityView};
ghost use Rattle.vhdl_tree.specs.Tree as t;
ghost use Rattle.vhdl_tree.specs.View as view;
ghost use Rattle.vhdl_names_sight.specs.Views.{region_view};
ghost use Rattle.vhdl_names_units.specs.views.Declarations.{declarations_view};
ghost use Rattle.vhdl_names_units.specs.views.Units.{architecture_view};

use crate::faults::{earlier_of, first_of};
use crate::statements::concurrents;
use crate::tables::Given;
use std::alloc::Global;
use vhdl_names_declarations::{Counts, declare_label};
use vhdl_names_instances::InstanceEntities;
use vhdl_names_interfaces::{EntityInterface, architecture_sight, declarations};
use vhdl_names_rules::NameFault;
use vhdl_names_sight::{Region, Sight, names_are_apart};
use vhdl_names_units::{Architecture, Declaration, copied, ends};
use vhdl_tree as syntax;

/// Each label, also those behind one that stands twice: the first of those is told.
fn declare_each(
    alloc: Global,
    region: &mut Region,
    statements: &[syntax::Concurrent],
) -> Result<(), NameFault>
    ensures given { IfOk result (λ _.
        more (region_view region.old) (labelled
        (concurrent_labels (t.concurrents_of (map view.concurrent_view statements.now)))) ≡
        Some (region_view region.new)) }
    ensures told { Finds (standing_twice (region_view region.old)
        (labels_of (t.concurrents_of (map view.concurrent_view statements.now)))) result }
    ensures past { HasMemory result → region_view region.new
        ≡ with_labels (region_view region.old)
        (concurrent_labels (t.concurrents_of (map view.concurrent_view statements.now))) }
{
    names_are_apart(region);
    let mut told: Result<(), NameFault> = Ok(());
    for statement in statements {
        told = first_of(told, declare_label(alloc, region, statement));
    }
    names_are_apart(region);
    told
}

/// The labels and statements of an architecture behind these declarations. Of a label that stands
/// twice and a fault of the statements the earlier one is told.
fn body(
    formals: &InstanceEntities,
    sight: &mut Sight,
    declarations: Vec<Declaration>,
    tree: &syntax::Architecture,
) -> Result<Architecture, NameFault>
    requires outside { sight.old.variables ≡ [] }
    ensures given { (all : List EntityView) → AreEntities formals.now all → IfOk result (λ a.
        steps.body all sight.old (declarations_view declarations) (view.architecture_view tree.now) ≡
        Some (architecture_view a)) }
    ensures told { (all : List EntityView) → AreEntities formals.now all
        → IfErr result (Tells (broken.body all sight.old (t.concurrents_of (view.architecture_view tree.now).statements)
        ▸ end_name (view.architecture_view tree.now).name (view.architecture_view tree.now).end_name)) }
{
    let labels = declare_each(sight.alloc, &mut sight.region, &tree.statements);
    let counts = Counts::NONE.of(&sight.region, 0);
    let statements = concurrents(formals, sight, counts, &tree.statements);
    let statements = earlier_of(labels, statements)?;
    ends(&tree.name, &tree.end_name)?;
    let name = copied(sight.alloc, &tree.name)?;
    Ok(Architecture {
        name,
        declarations,
        statements,
    })
}

/// An architecture in this sight: its declarations, and what follows them.
fn within(
    given: &Given<'_, '_>,
    sight: &mut Sight,
    tree: &syntax::Architecture,
) -> Result<Architecture, NameFault>
    requires table { AreEntities given.now.formals.now (entities_view given.now.entities.now) }
    requires outside { sight.old.variables ≡ [] }
    requires outermost { sight.old.enclosing ≡ [] }
    ensures given { IfOk result (λ a.
        steps.within (entities_view given.now.entities.now) sight.old (view.architecture_view tree.now) ≡
        Some (architecture_view a)) }
    ensures told { (e : EntityView) → (items : List t.ContextItem) → sight_behind e items ≡ Some sight.old
        → IfErr result (Tells (broken.architecture (entities_view given.now.entities.now) e items
        (view.architecture_view tree.now))) }
{
    let declarations = declarations(given.entities, sight, &tree.declarations)?;
    body(given.formals, sight, declarations, tree)
}

/// An architecture of an entity, behind its context items.
pub fn architecture(
    alloc: Global,
    given: &Given<'_, '_>,
    entity: &EntityInterface<'_>,
    items: &[syntax::ContextItem],
    tree: &syntax::Architecture,
) -> Result<Architecture, NameFault>
    requires table { AreEntities given.now.formals.now (entities_view given.now.entities.now) }
    ensures given { IfOk result (λ a. rules.architecture (entities_view given.now.entities.now) (entity_view entity.now)
        (map view.context_view items.now) (view.architecture_view tree.now) ≡ Some (architecture_view a)) }
    ensures told { Finds (broken.architecture (entities_view given.now.entities.now) (entity_view entity.now)
        (map view.context_view items.now) (view.architecture_view tree.now)) result }
{
    let mut sight = architecture_sight(alloc, entity, items)?;
    within(given, &mut sight, tree)
}
