//! Interfaces of entities and components (IEEE 1076-2008, 3.2, 6.5.6 and 6.8).

ghost use Rattle.std.specs.Prelude.{◌≡◌, [], map, option_map, OnOk, IfErr};
ghost use Rattle.vhdl_names_packages.specs.Contexts.{context_view};
ghost use Rattle.vhdl_names_declarations.specs.Entered.{entering, more};
ghost use Rattle.vhdl_names_rules.specs.Files.{labelled};
ghost use Rattle.vhdl_names_interfaces.specs.Assertions.{names_in, labels_in, labels_of};
ghost use Rattle.vhdl_names_sight.specs.Views.{region_view};
ghost use Rattle.vhdl_names_interfaces.specs.Views.{interface_in, entity_view, entity_in};
ghost use Rattle.vhdl_names_rules.specs.Declarations.{in_order, generic, port};
ghost use Rattle.vhdl_names_rules.specs.Gives.{Gives};
ghost use Rattle.vhdl_names_rules.specs.Interfaces as rules;
ghost use Rattle.vhdl_names_rules.specs.Rules.{all_of};
ghost use Rattle.vhdl_names_rules.specs.Visibility.{count_of, is_port, with_declared};
ghost use Rattle.vhdl_tree.specs.View as view;
ghost use Rattle.vhdl_names_units.specs.views.Declarations.{all_generics_view, all_ports_view};
ghost use Rattle.vhdl_names_rules.specs.problems.Broken.{Tells, ◌▸◌};
ghost use Rattle.vhdl_names_rules.specs.problems.Declarations.{end_name, standing_twice};
ghost use Rattle.vhdl_names_rules.specs.problems.Interfaces as broken;

use drops::take_apart;
use indexmap::IndexMap;
use std::alloc::Global;
use std::mem;
use vhdl_lexer::Language;
use vhdl_names_declarations::declare_if_any;
use vhdl_names_declarations::generics::generics;
use vhdl_names_declarations::ports::ports;
use vhdl_names_packages::{Context, context_after, sight_of};
use vhdl_names_rules::NameFault;
use vhdl_names_sight::{Region, Sight, names_are_apart};
use vhdl_names_units::{Generics, Ports, ends};
use vhdl_tree::{Assertion, ContextItem, Entity, Generic, Identifier, Port};

/// An entity as its architecture and its instances see it.
pub struct EntityInterface<'a> {
    /// Its name, and its generics and ports as they stand.
    pub tree: &'a Entity,
    /// What its context clauses bring in sight.
    pub context: Context,
    /// Its generics and ports in order, by name.
    pub region: Region,
    pub generics: Vec<Generics>,
    pub ports: Vec<Ports>,
    /// The name of its architecture, if the file has one.
    pub architecture: Option<&'a Identifier>,
}

impl Drop for EntityInterface<'_> {
    fn drop(self) {
        take_apart!(self: { tree, context, region, generics, ports, architecture });
    }
}

impl EntityInterface<'_> {
    /// Its generics and ports alone.
    pub fn into_parts(self) -> (Vec<Generics>, Vec<Ports>)
        ensures generics { result.0 ≡ self.entry.generics }
        ensures ports { result.1 ≡ self.entry.ports }
    {
        let EntityInterface {
            tree: _,
            context: _,
            region: _,
            generics,
            ports,
            architecture: _,
        } = self;
        (generics, ports)
    }
}

/// Generics, if any stand there.
fn generics_if_any(
    sight: &mut Sight,
    all: &Option<Vec<Generic>>,
) -> Result<Vec<Generics>, NameFault>
    ensures given { Gives (λ v. (sight.new, all_generics_view v))
        (entering (in_order with_declared generic) sight.old
        (all_of (view.option_generics_view all.now))) result }
    ensures kept { OnOk result (sight.new ≡ record sight.old { region = sight.new.region }) }
    ensures told { IfErr result (Tells (broken.generics sight.old
        (all_of (view.option_generics_view all.now)))) }
{
    match all {
        Some(all) => generics(sight, all),
        None => generics(sight, &[]),
    }
}

/// Ports, if any stand there.
fn ports_if_any(sight: &mut Sight, all: &Option<Vec<Port>>) -> Result<Vec<Ports>, NameFault>
    requires { count_of is_port sight.old.region ≡ 0 }
    ensures given { Gives (λ v. (sight.new, all_ports_view v))
        (entering (in_order with_declared port) sight.old
        (all_of (view.option_ports_view all.now))) result }
    ensures kept { OnOk result (sight.new ≡ record sight.old { region = sight.new.region }) }
    ensures told { IfErr result (Tells (broken.ports sight.old
        (all_of (view.option_ports_view all.now)))) }
{
    match all {
        Some(all) => ports(sight, all),
        None => ports(sight, &[]),
    }
}

/// Generics and ports, where nothing stands in their region yet; the ports have the generics in
/// sight. They stand in the sight's region then. It takes memory for what is declared and analysed.
#[tactic(auto, using(crate::proofs::Interfacing::interface_in_turn))]
pub fn interface_of(
    sight: &mut Sight,
    generics: &Option<Vec<Generic>>,
    ports: &Option<Vec<Port>>,
) -> Result<(Vec<Generics>, Vec<Ports>), NameFault>
    requires { sight.old.region ≡ [] }
    ensures given { Gives (λ x. interface_in sight.new.region x)
        (rules.interface sight.old (view.option_generics_view generics.now)
        (view.option_ports_view ports.now)) result }
    ensures kept { OnOk result (sight.new ≡ record sight.old { region = sight.new.region }) }
    ensures told { IfErr result (Tells (broken.interface sight.old
        (view.option_generics_view generics.now) (view.option_ports_view ports.now))) }
{
    let generics = generics_if_any(sight, generics)?;
    let ports = ports_if_any(sight, ports)?;
    Ok((generics, ports))
}

/// The labels of assertions, which stand in a region.
fn labels_in(alloc: Global, region: &mut Region, assertions: &[Assertion]) -> Result<(), NameFault>
    ensures given { Gives (λ _. region_view region.new)
        (more (region_view region.old) (labelled (names_in (map view.assertion_view assertions.now)))) result }
    ensures told { IfErr result (Tells
        (standing_twice (region_view region.old) (labels_in (map view.assertion_view assertions.now)))) }
{
    names_are_apart(region);
    for assertion in assertions {
        declare_if_any(alloc, region, &assertion.label)?;
    }
    names_are_apart(region);
    Ok(())
}

/// The labels of an entity's assertions, which stand in the region of its generics and ports.
fn assertion_labels(
    alloc: Global,
    region: &mut Region,
    statements: &Option<Vec<Assertion>>,
) -> Result<(), NameFault>
    ensures given { Gives (λ _. region_view region.new)
        (more (region_view region.old)
        (labelled (rules.assertion_labels (view.option_assertions_view statements.now)))) result }
    ensures told { IfErr result (Tells
        (standing_twice (region_view region.old) (labels_of (view.option_assertions_view statements.now)))) }
{
    match statements {
        Some(statements) => labels_in(alloc, region, statements),
        None => labels_in(alloc, region, &[]),
    }
}

/// An entity whose context clauses bring this in sight, with the name of its architecture; nothing
/// stands in its region yet.
fn entity_in<'a>(
    context: Context,
    sight: &mut Sight,
    tree: &'a Entity,
    architecture: Option<&'a Identifier>,
) -> Result<EntityInterface<'a>, NameFault>
    requires { sight.old.region ≡ [] }
    ensures given { Gives entity_view (entity_in (context_view context) sight.old
        (view.entity_view tree.now) (option_map (λ i. i.now.text.items) architecture.entry)) result }
    ensures told { IfErr result (Tells (broken.interface sight.old
        (view.entity_view tree.now).generics (view.entity_view tree.now).ports
        ▸ broken.assertions sight.old (view.entity_view tree.now)
        ▸ end_name (view.entity_view tree.now).name (view.entity_view tree.now).end_name)) }
{
    let (generics, ports) = interface_of(sight, &tree.generics, &tree.ports)?;
    assertion_labels(sight.alloc, &mut sight.region, &tree.statements)?;
    ends(&tree.name, &tree.end_name)?;
    Ok(EntityInterface {
        tree,
        context,
        region: mem::replace(&mut sight.region, IndexMap::new(sight.alloc)),
        generics,
        ports,
        architecture,
    })
}

/// An entity behind these context items, with the name of its architecture. It takes memory for
/// what is declared and analysed.
pub fn entity<'a>(
    alloc: Global,
    language: Language,
    items: &[ContextItem],
    tree: &'a Entity,
    architecture: Option<&'a Identifier>,
) -> Result<EntityInterface<'a>, NameFault>
    ensures given { Gives entity_view
        (rules.entity language (map view.context_view items.now) (view.entity_view tree.now)
        (option_map (λ i. i.now.text.items) architecture.entry)) result }
    ensures told { IfErr result (Tells
        (broken.entity language (map view.context_view items.now) (view.entity_view tree.now))) }
{
    let context = context_after(Context::none(language), items)?;
    let mut sight = sight_of(alloc, context, IndexMap::new(alloc))?;
    entity_in(context, &mut sight, tree, architecture)
}
