//! The entities of a file (IEEE 1076-2008, 3.2 and 13.1).

ghost use Rattle.std.specs.Prelude.{◌≡◌, ◌≢◌, IfOk, IfErr, [], ◌∷◌, map, filter_map, Some, option_map};
ghost use Rattle.vhdl_names.specs.Finding.{Finds, HasMemory};
ghost use Rattle.vhdl_names.specs.Views.{architectures_view};
ghost use Rattle.vhdl_names.specs.steps.Entities as steps;
ghost use Rattle.vhdl_names.specs.steps.Outlines.{described_of};
ghost use Rattle.vhdl_names_interfaces.specs.Views.{entities_view};
ghost use Rattle.vhdl_names_rules.specs.problems.Broken.{Tells, any_of};
ghost use Rattle.vhdl_names_rules.specs.problems.Files.{with_entities};
ghost use Rattle.vhdl_names_rules.specs.problems.Interfaces as broken;
ghost use Rattle.vhdl_names_rules.specs.Files as rules;
ghost use Rattle.vhdl_names_rules.specs.Gives.{Gives};
ghost use Rattle.vhdl_names_rules.specs.Rules.{each};
ghost use Rattle.vhdl_names_rules.specs.declared.fault.NameFault.TheVariants.{NoMemory};
ghost use Rattle.vhdl_tree.specs.View as view;

use crate::faults::first_of;
use crate::outline::{Outline, architecture_of};
use indexmap::IndexMap;
use std::alloc::Global;
use vhdl_lexer::Language;
use vhdl_names_interfaces::{Entities, add_entity, entity};
use vhdl_names_rules::NameFault;
use vhdl_tree::{ContextItem, DesignUnit, Entity, File, Identifier, LibraryUnit};

/// The name of the architecture of the entity of a name, if the file has one.
fn architecture_name<'a>(outline: &Outline<'a>, name: &[u8]) -> Option<&'a Identifier>
    ensures { option_map (λ i. i.now.text.items) result
        ≡ option_map (λ a. a.1.name.text) (described_of name.now (architectures_view outline.now.architectures)) }
{
    match architecture_of(outline, name) {
        None => None,
        Some(described) => Some(&described.tree.name),
    }
}

/// One more entity behind its context items; of entities of one name the first alone.
fn add_viewed<'a>(
    alloc: Global,
    entities: &mut Entities<'a>,
    outline: &Outline<'a>,
    language: Language,
    items: &[ContextItem],
    tree: &'a Entity,
) -> Result<(), NameFault>
    ensures given { Gives (λ _. entities_view entities.new)
        (steps.with_entity language (architectures_view outline.now.architectures) (entities_view entities.old)
        (map view.context_view items.now) (view.entity_view tree.now)) result }
    ensures told { IfErr result (Tells
        (broken.entity language (map view.context_view items.now) (view.entity_view tree.now))) }
    ensures kept { IfErr result (λ f. f ≢ NoMemory → entities_view entities.new ≡ entities_view entities.old) }
{
    let architecture = architecture_name(outline, &tree.name.text);
    let viewed = entity(alloc, language, items, tree, architecture)?;
    match add_entity(alloc, entities, viewed) {
        Ok(()) => Ok(()),
        Err(NameFault::NoMemory) => Err(NameFault::NoMemory),
        Err(NameFault::At { .. }) => Ok(()),
    }
}

/// One more unit, which may be an entity.
fn add_unit<'a>(
    alloc: Global,
    entities: &mut Entities<'a>,
    outline: &Outline<'a>,
    language: Language,
    unit: &'a DesignUnit,
) -> Result<(), NameFault>
    ensures given { Gives (λ _. entities_view entities.new)
        (steps.with_unit language (architectures_view outline.now.architectures) (entities_view entities.old)
        (view.unit_view unit.now)) result }
    ensures told { IfErr result (Tells
        (any_of (λ e. broken.entity language e.0 e.1) (rules.entities_of (view.unit_view unit.now ∷ [])))) }
    ensures kept { IfErr result (λ f. f ≢ NoMemory → entities_view entities.new ≡ entities_view entities.old) }
{
    match &unit.unit {
        LibraryUnit::Entity(tree) => {
            add_viewed(alloc, entities, outline, language, &unit.context, tree)
        },
        LibraryUnit::Architecture(_) => Ok(()),
    }
}

/// The entities of a file in order of the text, each with the name of its architecture, but for
/// those that are at fault, and of one name the first alone; and the first fault. It takes memory
/// for what is declared in each and analysed of it.
pub fn entities_of<'a>(
    alloc: Global,
    language: Language,
    file: &'a File,
    outline: &Outline<'a>,
) -> (Entities<'a>, Result<(), NameFault>)
    ensures told { Finds
        (any_of (λ e. broken.entity language e.0 e.1) (rules.entities_of (view.units_view file.now.units))) result.1 }
    ensures all { IfOk result.1 (λ _.
        each (steps.viewed_by language (architectures_view outline.now.architectures))
        (rules.entities_of (view.units_view file.now.units))
        ≡ Some (filter_map (steps.viewed_by language (architectures_view outline.now.architectures))
        (rules.entities_of (view.units_view file.now.units)))) }
    ensures given { HasMemory result.1 → entities_view result.0
        ≡ with_entities [] (filter_map (steps.viewed_by language (architectures_view outline.now.architectures))
        (rules.entities_of (view.units_view file.now.units))) }
{
    let mut entities = IndexMap::new(alloc);
    let mut told: Result<(), NameFault> = Ok(());
    for unit in &file.units {
        told = first_of(
            told,
            add_unit(alloc, &mut entities, outline, language, unit),
        );
    }
    (entities, told)
}
