//! Instances (IEEE 1076-2008, 11.7).

ghost use Rattle.std.specs.Prelude.{◌≡◌, ◌≢◌, ℕ, IfErr, List, Option, None, false, bytes_eq, map, option_map, slice_get};
ghost use Rattle.std.specs.List.{position_from};
ghost use Rattle.vhdl_names_instances.specs.Breaking as breaking;
ghost use Rattle.vhdl_names_instances.specs.Table.{AreEntities, seen, seen_view, seens_view};
ghost use Rattle.vhdl_names_instances.specs.steps.Instances as steps;
ghost use Rattle.vhdl_names_units.specs.Once.{names_view};
ghost use Rattle.vhdl_names_rules.specs.problems.Broken.{Tells, lacking, refused};
ghost use Rattle.vhdl_names_rules.specs.problems.Instances as broken;
ghost use Rattle.vhdl_names_rules.specs.Gives.{Gives};
ghost use Rattle.vhdl_names_rules.specs.Instances as rules;
ghost use Rattle.vhdl_names_rules.specs.Interfaces.{EntityView};
ghost use Rattle.vhdl_names_rules.specs.Rules.{all_of};
ghost use Rattle.vhdl_names_rules.specs.Visibility.{Name};
ghost use Rattle.vhdl_names_rules.specs.declared.fault.NameFault.TheVariants.{NoMemory};
ghost use Rattle.vhdl_names_rules.specs.declared.fault.NameProblem.TheVariants.{WrongKind};
ghost use Rattle.vhdl_tree.specs.Tree.{Ident};
ghost use Rattle.vhdl_tree.specs.View as tree;
ghost use Rattle.vhdl_names_sight.specs.Views.{meaning_view};
ghost use Rattle.vhdl_names_units.specs.views.Concurrent.{instance_view};

use crate::actuals::{PortType, port_actuals};
use crate::associations::{Names, associated};
use crate::generics::{GenericKind, generic_actuals};
use crate::maps::maps;
use drops::take_apart;
use vhdl_names_rules::{NameFault, NameProblem};
use vhdl_names_sight::{Meaning, Sight, meaning_of};
use vhdl_names_units::{Instance, copied, is_text};
use vhdl_tree as syntax;
use vhdl_tree::{Association, Identifier, Instantiated};

/// What instances see of an entity: the name of its architecture, if the file has one, its
/// generics with their kinds, and its ports with their types.
pub struct Formals {
    pub architecture: Option<Vec<u8>>,
    pub generics: Names,
    pub generic_kinds: Vec<GenericKind>,
    pub ports: Names,
    pub port_types: Vec<PortType>,
}

impl Drop for Formals {
    fn drop(self) {
        take_apart!(self: { architecture, generics, generic_kinds, ports, port_types });
    }
}

/// The entities of a file in order of the text, by their names.
pub struct InstanceEntities {
    pub names: Names,
    pub formals: Vec<Formals>,
}

impl Drop for InstanceEntities {
    fn drop(self) {
        take_apart!(self: { names, formals });
    }
}

/// The associations of a map, none where it is absent.
pub(crate) fn listed(list: &Option<Vec<Association>>) -> &[Association]
    ensures { map tree.association_view result.now ≡ all_of (option_map tree.associations_view list.now) }
{
    match list {
        None => &[],
        Some(list) => list.as_slice(),
    }
}

/// Whether an architecture that is named is the one that an entity has.
fn is_architecture(named: &Option<Identifier>, own: &Option<Vec<u8>>) -> bool
    ensures { result ≡ rules.is_architecture (option_map tree.ident_view named.now)
        (option_map (λ n. n.items) own.now) }
{
    match (named, own) {
        (None, _) => true,
        (Some(_), None) => false,
        (Some(named), Some(own)) => is_text(&named.text, own),
    }
}

/// The number of the entity of a name, if there is one.
fn number_of(entities: &InstanceEntities, name: &[u8]) -> Option<usize>
    ensures { result ≡ position_from (bytes_eq name.now) 0 (names_view entities.now.names) }
{
    entities.names.get_index_of(name)
}

/// What instances see of the entity of a number, if there are so many.
#[tactic(auto, using(crate::proofs::Instancing::formals_at))]
fn formals_at(entities: &InstanceEntities, number: usize) -> Option<&Formals>
    ensures { option_map (λ f. seen_view f.now) result ≡ slice_get (seens_view entities.now.formals) number }
{
    entities.formals.get(number)
}

/// The byte at which an architecture is named, or else the one at which its entity is.
fn architecture_place(architecture: &Option<Identifier>, at: usize) -> usize
    ensures { (own : Option Name) → rules.is_architecture (option_map tree.ident_view architecture.now) own ≡ false
        → broken.architecture (option_map tree.ident_view architecture.now) own ≡ refused WrongKind result }
{
    match architecture {
        Some(architecture) => architecture.at,
        None => at,
    }
}

/// The entity of a number, whose architecture may be named. The entity is named at byte `at`.
#[tactic(auto, using(crate::proofs::Instancing::seen_at))]
fn with_architecture(
    entities: &InstanceEntities,
    number: usize,
    architecture: &Option<Identifier>,
    at: usize,
) -> Result<usize, NameFault>
    ensures given { Gives (λ k. k) (steps.with_architecture (seens_view entities.now.formals)
        (option_map tree.ident_view architecture.now) number) result }
    ensures told { IfErr result (Tells
        (breaking.with_architecture (seens_view entities.now.formals) (option_map tree.ident_view architecture.now) at
        number)) }
{
    match formals_at(entities, number) {
        None => Err(NameProblem::Undeclared.at(at)),
        Some(formals) => {
            if is_architecture(architecture, &formals.architecture) {
                Ok(number)
            } else {
                Err(NameProblem::WrongKind.at(architecture_place(architecture, at)))
            }
        }
    }
}

/// The entity of a name, which is of library work.
fn entity_of(
    entities: &InstanceEntities,
    library: &Identifier,
    name: &Identifier,
    architecture: &Option<Identifier>,
) -> Result<usize, NameFault>
    ensures given { Gives (λ k. k) (steps.entity_of (names_view entities.now.names) (seens_view entities.now.formals)
        (tree.ident_view library.now) (tree.ident_view name.now) (option_map tree.ident_view architecture.now)) result }
    ensures told { IfErr result (Tells
        (breaking.entity_of (names_view entities.now.names) (seens_view entities.now.formals)
        (tree.ident_view library.now) (tree.ident_view name.now) (option_map tree.ident_view architecture.now))) }
{
    if !is_text(&library.text, b"work") {
        return Err(NameProblem::Undeclared.at(library.at));
    }
    match number_of(entities, &name.text) {
        None => Err(NameProblem::Undeclared.at(name.at)),
        Some(number) => with_architecture(entities, number, architecture, name.at),
    }
}

/// The entity that a component at byte `at` is.
fn as_component(meaning: &Meaning, at: usize) -> Result<usize, NameFault>
    ensures given { Gives (λ k. k) (rules.as_component (meaning_view meaning.now)) result }
    ensures told { IfErr result (Tells (lacking WrongKind at (rules.as_component (meaning_view meaning.now)))) }
{
    match meaning {
        Meaning::Component(number) => Ok(*number),
        _ => Err(NameProblem::WrongKind.at(at)),
    }
}

/// The number of the entity that is instantiated.
fn instantiated(
    entities: &InstanceEntities,
    sight: &Sight,
    unit: &Instantiated,
) -> Result<usize, NameFault>
    ensures given { Gives (λ k. k) (steps.instantiated (names_view entities.now.names) (seens_view entities.now.formals)
        sight.now (tree.instantiated_view unit.now)) result }
    ensures told { (views : List EntityView) → AreEntities entities.now views
        → IfErr result (Tells (broken.instantiated views sight.now (tree.instantiated_view unit.now))) }
{
    match unit {
        Instantiated::Entity {
            library,
            name,
            architecture,
        } => entity_of(entities, library, name, architecture),
        Instantiated::Component { name, .. } => {
            let meaning = meaning_of(sight, name)?;
            as_component(meaning, name.at)
        }
    }
}

/// An instance of the entity of a number, whose actuals come in the order of its formals.
fn by_formals(
    sight: &Sight,
    label: &Identifier,
    unit: usize,
    formals: &Formals,
    instance: &syntax::Instance,
) -> Result<Instance, NameFault>
    ensures { Gives instance_view (steps.with_formals sight.now (tree.ident_view label.now) unit (seen_view formals.now)
        (all_of (option_map tree.associations_view instance.now.generics))
        (all_of (option_map tree.associations_view instance.now.ports))) result }
{
    let generics = generic_actuals(
        sight,
        &formals.generic_kinds,
        &associated(sight.alloc, &formals.generics, listed(&instance.generics))?,
    )?;
    let ports = port_actuals(
        sight,
        &formals.port_types,
        &associated(sight.alloc, &formals.ports, listed(&instance.ports))?,
    )?;
    let label = copied(sight.alloc, label)?;
    Ok(Instance {
        label,
        unit,
        generics,
        ports,
    })
}

/// What is told of maps with which something is wrong, as this fault shows: the first fault in
/// order of the text.
fn first_of_maps(
    sight: &Sight,
    formals: &Formals,
    instance: &syntax::Instance,
    fault: NameFault,
) -> NameFault
    ensures memory { result ≢ NoMemory → fault ≢ NoMemory }
    ensures told { (seen_of : EntityView) → seen_view formals.now ≡ seen seen_of
        → (label : Ident) → (unit : ℕ) →
        (fault ≢ NoMemory → steps.with_formals sight.now label unit (seen_view formals.now)
        (all_of (option_map tree.associations_view instance.now.generics))
        (all_of (option_map tree.associations_view instance.now.ports)) ≡ None)
        → Tells (broken.maps sight.now seen_of (tree.instance_view instance.now)) result }
{
    match fault {
        NameFault::NoMemory => NameFault::NoMemory,
        NameFault::At { .. } => match maps(sight, formals, instance) {
            Ok(()) => fault,
            Err(first) => first,
        },
    }
}

/// An instance of the entity of a number, which has these formals. Of what is wrong with its maps
/// the first in order of the text is told.
fn with_formals(
    sight: &Sight,
    label: &Identifier,
    unit: usize,
    formals: &Formals,
    instance: &syntax::Instance,
) -> Result<Instance, NameFault>
    ensures given { Gives instance_view
        (steps.with_formals sight.now (tree.ident_view label.now) unit (seen_view formals.now)
        (all_of (option_map tree.associations_view instance.now.generics))
        (all_of (option_map tree.associations_view instance.now.ports))) result }
    ensures told { (seen_of : EntityView) → seen_view formals.now ≡ seen seen_of
        → IfErr result (Tells (broken.maps sight.now seen_of (tree.instance_view instance.now))) }
{
    match by_formals(sight, label, unit, formals, instance) {
        Ok(instance) => Ok(instance),
        Err(fault) => Err(first_of_maps(sight, formals, instance, fault)),
    }
}

/// An instance behind its label, in the order of its parts.
pub fn instance_in_turn(
    entities: &InstanceEntities,
    sight: &Sight,
    label: &Identifier,
    instance: &syntax::Instance,
) -> Result<Instance, NameFault>
    ensures given { Gives instance_view
        (steps.instance (names_view entities.now.names) (seens_view entities.now.formals)
        sight.now (tree.ident_view label.now) (tree.instance_view instance.now)) result }
    ensures told { (views : List EntityView) → AreEntities entities.now views
        → IfErr result (Tells (broken.instance views sight.now (tree.ident_view label.now)
        (tree.instance_view instance.now))) }
{
    let unit = instantiated(entities, sight, &instance.unit)?;
    match formals_at(entities, unit) {
        None => Err(NameProblem::Undeclared.at(label.at)),
        Some(formals) => with_formals(sight, label, unit, formals, instance),
    }
}

/// An instance behind its label: its entity, which may be any of the file, the actual of each
/// generic, a static integer, and that of each port, a signal or port of the port's kind. It fails
/// at the first byte where a rule is broken, or where memory is refused.
pub fn instance(
    entities: &InstanceEntities,
    sight: &Sight,
    label: &Identifier,
    instance: &syntax::Instance,
) -> Result<Instance, NameFault>
    ensures given { (views : List EntityView) → AreEntities entities.now views
        → Gives instance_view (rules.instance views sight.now (tree.ident_view label.now)
        (tree.instance_view instance.now)) result }
    ensures told { (views : List EntityView) → AreEntities entities.now views
        → IfErr result (Tells (broken.instance views sight.now (tree.ident_view label.now)
        (tree.instance_view instance.now))) }
{
    instance_in_turn(entities, sight, label, instance)
}
