//! The entities and architectures of a file, before they are analysed (IEEE 1076-2008, 3.2, 3.3 and
//! 13.1).

ghost use Rattle.std.specs.Prelude.{◌≡◌, IfOk, IfErr, OnErr, not, [], map, Some, option_map};
ghost use Rattle.vhdl_names_units.specs.Once.{names_view};
ghost use Rattle.vhdl_names.specs.Breaking as breaking;
ghost use Rattle.vhdl_names.specs.Finding.{Finds, HasMemory};
ghost use Rattle.vhdl_names.specs.Views.{described_view, outline_view, architectures_view};
ghost use Rattle.vhdl_names.specs.steps.Outlines as steps;
ghost use Rattle.vhdl_names_rules.specs.problems.Broken.{Tells, unless};
ghost use Rattle.vhdl_names_rules.specs.problems.Files as broken;
ghost use Rattle.vhdl_names_rules.specs.Files.{entity_names};
ghost use Rattle.vhdl_names_rules.specs.Gives.{Gives};
ghost use Rattle.vhdl_names_rules.specs.Visibility.{Name, is_among};
ghost use Rattle.vhdl_names_rules.specs.declared.fault.NameProblem.TheVariants.{SecondArchitecture};
ghost use Rattle.vhdl_tree.specs.Tree as t;
ghost use Rattle.vhdl_tree.specs.View as view;

use crate::faults::first_of;
use drops::take_apart;
use indexmap::{IndexMap, IndexSet};
use std::alloc::Global;
use vhdl_names_instances::{Names, add_name};
use vhdl_names_rules::{NameFault, NameProblem};
use vhdl_tree::{Architecture, ContextItem, DesignUnit, Entity, File, LibraryUnit};

/// An architecture behind its context items.
#[derive(Drop)]
pub struct Described<'a> {
    pub items: &'a [ContextItem],
    pub tree: &'a Architecture,
}

/// Architectures in order of the text, by the names of their entities.
pub type Architectures<'a> = IndexMap<Vec<u8>, Described<'a>>;

/// The names of a file's entities, and its architectures.
pub struct Outline<'a> {
    pub entities: Names,
    pub architectures: Architectures<'a>,
}

impl Drop for Outline<'_> {
    fn drop(self) {
        take_apart!(self: { entities, architectures });
    }
}

/// One more architecture, of an entity that none before it is of; else it is a SecondArchitecture.
fn add_described<'a>(
    alloc: Global,
    architectures: &mut Architectures<'a>,
    described: Described<'a>,
) -> Result<(), NameFault>
    ensures given { Gives (λ _. architectures_view architectures.new)
        (steps.one_described (architectures_view architectures.old) (described_view described.entry)) result }
    ensures told { IfErr result (Tells (unless SecondArchitecture (described_view described.entry).1.entity.at
        (not (is_among (described_view described.entry).1.entity.text
        (steps.names_of (architectures_view architectures.old)))))) }
    ensures kept { OnErr result (architectures_view architectures.new ≡ architectures_view architectures.old) }
{
    let entity = &described.tree.entity;
    if architectures.contains_key(entity.text.as_slice()) {
        return Err(NameProblem::SecondArchitecture.at(entity.at));
    }
    let key = Vec::from_slice(alloc, &entity.text)?;
    architectures.insert(key, described)?;
    Ok(())
}

/// Whether a name is among some.
pub fn has_name(names: &Names, name: &[u8]) -> bool
    ensures { result ≡ is_among name.now (names_view names.now) }
{
    names.contains(name)
}

/// One more entity, whose name none before it has.
fn add_entity(alloc: Global, outline: &mut Outline<'_>, tree: &Entity) -> Result<(), NameFault>
    ensures given { Gives (λ _. outline_view outline.new)
        (steps.with_entity (outline_view outline.old) (view.entity_view tree.now)) result }
    ensures told { IfErr result (Tells
        (breaking.one_unit (outline_view outline.old) (t.LibraryUnit.entity (view.entity_view tree.now)))) }
    ensures kept { OnErr result (outline_view outline.new ≡ outline_view outline.old) }
{
    add_name(alloc, &mut outline.entities, &tree.name.text, tree.name.at)
}

/// One more architecture, whose entity is among those before it; else that is Undeclared.
fn add_architecture<'a>(
    alloc: Global,
    outline: &mut Outline<'a>,
    items: &'a [ContextItem],
    tree: &'a Architecture,
) -> Result<(), NameFault>
    ensures given { Gives (λ _. outline_view outline.new)
        (steps.with_architecture (outline_view outline.old) (map view.context_view items.entry.now)
        (view.architecture_view tree.entry.now)) result }
    ensures told { IfErr result (Tells
        (breaking.one_unit (outline_view outline.old) (t.architecture (view.architecture_view tree.entry.now)))) }
    ensures kept { OnErr result (outline_view outline.new ≡ outline_view outline.old) }
{
    if !has_name(&outline.entities, &tree.entity.text) {
        return Err(NameProblem::Undeclared.at(tree.entity.at));
    }
    add_described(alloc, &mut outline.architectures, Described { items, tree })
}

/// One more unit.
fn add_unit<'a>(
    alloc: Global,
    outline: &mut Outline<'a>,
    unit: &'a DesignUnit,
) -> Result<(), NameFault>
    ensures given { Gives (λ _. outline_view outline.new)
        (steps.with_unit (outline_view outline.old) (view.unit_view unit.now)) result }
    ensures told { IfErr result (Tells (breaking.one_unit (outline_view outline.old) (view.unit_view unit.now).unit)) }
    ensures kept { OnErr result (outline_view outline.new ≡ outline_view outline.old) }
{
    match &unit.unit {
        LibraryUnit::Entity(tree) => add_entity(alloc, outline, tree),
        LibraryUnit::Architecture(tree) => add_architecture(alloc, outline, &unit.context, tree),
    }
}

/// The names of a file's entities, and its architectures, but for what is at fault; and the first
/// fault: no two entities have one name, no two architectures are of one entity, and each stands
/// after its entity. It takes the memory of the names.
pub fn outline_of<'a>(alloc: Global, file: &'a File) -> (Outline<'a>, Result<(), NameFault>)
    ensures told { Finds (broken.names [] (view.units_view file.now.units)) result.1 }
    ensures given { IfOk result.1 (λ _. steps.outlined (view.units_view file.now.units) ≡
        Some (outline_view result.0)) }
    ensures names { HasMemory result.1 → (n : Name)
        → is_among n (names_view result.0.entities) ≡ is_among n (entity_names (view.units_view file.now.units)) }
    ensures seen { HasMemory result.1 → (n : Name) → steps.described_of n (architectures_view result.0.architectures)
        ≡ steps.described_of n (map steps.keyed (broken.placed_architectures (view.units_view file.now.units))) }
{
    let mut outline = Outline {
        entities: IndexSet::new(alloc),
        architectures: IndexMap::new(alloc),
    };
    let mut told: Result<(), NameFault> = Ok(());
    for unit in &file.units {
        told = first_of(told, add_unit(alloc, &mut outline, unit));
    }
    (outline, told)
}

/// The architecture of the entity of a name, if the file has one.
pub fn architecture_of<'o, 'a>(outline: &'o Outline<'a>, name: &[u8]) -> Option<&'o Described<'a>>
    ensures { option_map (λ d. described_view d.now) result ≡
        steps.described_of name.now (architectures_view outline.now.architectures) }
{
    outline.architectures.get(name)
}
