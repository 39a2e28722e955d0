//! Components (IEEE 1076-2008, 6.8).

ghost use Rattle.std.specs.Prelude.{◌≡◌, ◌&&◌, ◌∷◌, [], OnOk, IfErr};
ghost use Rattle.vhdl_names_interfaces.specs.Components as spec;
ghost use Rattle.vhdl_names_declarations.specs.Entered.{entering};
ghost use Rattle.vhdl_names_interfaces.specs.Views.{entities_view};
ghost use Rattle.vhdl_names_rules.specs.Gives.{Gives};
ghost use Rattle.vhdl_names_rules.specs.Interfaces as rules;
ghost use Rattle.vhdl_names_rules.specs.Rules.{rule};
ghost use Rattle.vhdl_names_rules.specs.SameText.{same_generics, same_ports};
ghost use Rattle.vhdl_names_rules.specs.declared.fault.NameFault.TheVariants.{At};
ghost use Rattle.vhdl_names_rules.specs.declared.fault.NameProblem.TheVariants.{Twice, WrongKind};
ghost use Rattle.vhdl_tree.specs.View.{component_view, ident_view, option_generics_view, option_ports_view};
ghost use Rattle.vhdl_names_rules.specs.problems.Broken.{Tells, unless};
ghost use Rattle.vhdl_names_rules.specs.problems.Interfaces as broken;
ghost use Rattle.vhdl_names_rules.specs.problems.Declarations.{standing_twice};

use crate::entities::{Entities, entity_named};
use crate::interface::interface_of;
use crate::interfaces::has_interface;
use std::mem;
use vhdl_names_declarations::declare;
use vhdl_names_rules::{NameFault, NameProblem};
use vhdl_names_sight::{Meaning, Sight, names_are_apart};
use vhdl_names_units::ends;
use vhdl_tree::{Component, Entity, Identifier};

/// A name that stands in the region is Twice in it if it is declared once more.
fn is_new(sight: &Sight, name: &Identifier) -> Result<(), NameFault>
    ensures given { Gives (λ x. x) (spec.is_new sight.now.region name.now.text.items) result }
    ensures fault { IfErr result (λ f. f ≡ At Twice name.now.at) }
    ensures told { IfErr result (Tells (standing_twice sight.now.region (ident_view name.now ∷ []))) }
{
    names_are_apart(&sight.region);
    if sight.region.contains_key(name.text.as_slice()) {
        Err(NameProblem::Twice.at(name.at))
    } else {
        Ok(())
    }
}

/// A component that differs from its entity, in as little as an optional word, is of WrongKind.
fn is_entity(component: &Component, entity: &Entity) -> Result<(), NameFault>
    ensures given { Gives (λ x. x) (rule WrongKind
        (same_generics (option_generics_view component.now.generics) (option_generics_view entity.now.generics)
        && same_ports (option_ports_view component.now.ports) (option_ports_view entity.now.ports))) result }
    ensures fault { IfErr result (λ f. f ≡ At WrongKind component.now.name.at) }
    ensures told { IfErr result (Tells (unless WrongKind component.now.name.at
        (same_generics (option_generics_view component.now.generics) (option_generics_view entity.now.generics)
        && same_ports (option_ports_view component.now.ports) (option_ports_view entity.now.ports)))) }
{
    if has_interface(component, entity) {
        Ok(())
    } else {
        Err(NameProblem::WrongKind.at(component.name.at))
    }
}

/// A component's generics and ports, in a region of their own, which the region that the component
/// stands in encloses.
fn own_region(sight: &mut Sight, component: &Component) -> Result<(), NameFault>
    requires { sight.old.enclosing ≡ [] }
    ensures given { Gives (λ x. x) (spec.has_interface sight.old (component_view component.now)) result }
    ensures kept { OnOk result (sight.new ≡ sight.old) }
    ensures outermost { OnOk result (sight.new.enclosing ≡ []) }
    ensures told { IfErr result (Tells (broken.interface (spec.inner sight.old)
        (component_view component.now).generics (component_view component.now).ports)) }
{
    mem::swap(&mut sight.region, &mut sight.enclosing);
    let _interface = interface_of(sight, &component.generics, &component.ports)?;
    sight.region.clear();
    mem::swap(&mut sight.region, &mut sight.enclosing);
    Ok(())
}

/// A component of the entity of its name, whose generics and ports it repeats, token for token
/// apart from case; other ones are of WrongKind. They mean the same where it stands. It takes
/// memory for what is declared.
#[tactic(auto, using(crate::proofs::Standing::component_in_turn))]
pub fn component(
    entities: &Entities<'_>,
    sight: &mut Sight,
    component: &Component,
) -> Result<(), NameFault>
    requires { sight.old.enclosing ≡ [] }
    ensures given { Gives (λ _. (sight.new, []))
        (entering (rules.component (entities_view entities.now)) sight.old
        (component_view component.now)) result }
    ensures outermost { OnOk result (sight.new.enclosing ≡ []) }
    ensures told { IfErr result (Tells (broken.component (entities_view entities.now) sight.old
        (component_view component.now))) }
{
    let name = &component.name;
    is_new(sight, name)?;
    let (number, entity) = entity_named(entities, name)?;
    is_entity(component, entity.tree)?;
    own_region(sight, component)?;
    ends(name, &component.end_name)?;
    declare(
        sight.alloc,
        &mut sight.region,
        name,
        Meaning::Component(number),
    )
}
