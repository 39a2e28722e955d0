//! The declarations of an entity and of an architecture (IEEE 1076-2008, 14.3, 14.4).

ghost use Rattle.std.specs.Prelude.{◌≡◌, flat_map, map, option_map};
ghost use Rattle.vhdl_expand_rules.specs.Declarations as definition;
ghost use Rattle.vhdl_expand_operands.specs.Results.{Expands};
ghost use Rattle.vhdl_expand_bodies.specs.Sites.{IsSite, site_view};
ghost use Rattle.vhdl_names_units.specs.views.Actuals.{each_actual};
ghost use Rattle.vhdl_names_units.specs.views.Answers.{fixed_view};
ghost use Rattle.vhdl_names_units.specs.views.Declarations.{declaration_view};
ghost use Rattle.vhdl_names_units.specs.views.Units.{entity_view};
ghost use Rattle.vhdl_expand_declarations.specs.Generics.{actuals_view};
ghost use Rattle.vhdl_expand_declarations.specs.Views.{declared_view};

use crate::declared::InstanceObjects;
use crate::generics::add_all_generics;
use crate::objects::{add_objects, add_ports};
use std::alloc::Global;
use vhdl_expand_bodies::Site;
use vhdl_expand_rules::ElabFault;
use vhdl_expand_tree::Role;
use vhdl_names_units::{Actuals, Declaration, Entity, Fixed};

/// What is known of an instance of an entity where its architecture begins: the values of its
/// generics, of which those with an actual are computed in the instance above, and its ports. A
/// fault is NoGeneric, GenericRange, StaticError, Length, Index or TooWide.
#[tactic(auto, unfolding(vhdl_expand_rules::specs::Declarations::interface))]
pub fn interface_with(
    alloc: Global,
    above: &Site,
    actuals: &[Option<&Fixed>],
    unit: &Entity,
) -> Result<InstanceObjects, ElabFault>
    requires { IsSite above.now }
    ensures { Expands declared_view
        (definition.interface (site_view above.now) (actuals_view actuals.now) (entity_view unit.now)) result }
{
    let mut declared = InstanceObjects::new(alloc);
    add_all_generics(alloc, above, actuals, &unit.generics, &mut declared)?;
    add_ports(alloc, &unit.ports, &mut declared)?;
    Ok(declared)
}

/// The same with the actuals of an instance, of which it takes a list.
pub fn interface(
    alloc: Global,
    above: &Site,
    actuals: &Actuals<Fixed>,
    unit: &Entity,
) -> Result<InstanceObjects, ElabFault>
    requires { IsSite above.now }
    ensures { Expands declared_view
        (definition.interface (site_view above.now) (map (option_map fixed_view) (each_actual actuals.now))
        (entity_view unit.now)) result }
{
    let actuals = actuals.listed(alloc)?;
    interface_with(alloc, above, &actuals, unit)
}

/// Puts what is declared behind what was declared before it.
fn declare(
    alloc: Global,
    declared: &mut InstanceObjects,
    declaration: &Declaration,
) -> Result<(), ElabFault>
    ensures { Expands (λ _. declared_view declared.new)
        (definition.declarations (declared_view declared.old) (declaration_view declaration.now)) result }
{
    match declaration {
        Declaration::Signals(objects) => add_objects(alloc, Role::Internal, objects, declared),
        _ => declared.enter(alloc, declaration),
    }
}

/// Puts what an architecture declares behind what is known of its instance; a fault is
/// GenericRange, StaticError, Length, Index or TooWide, and then no one says how far it came.
pub fn declarations(
    alloc: Global,
    declared: &mut InstanceObjects,
    list: &[Declaration],
) -> Result<(), ElabFault>
    ensures { Expands (λ _. declared_view declared.new)
        (definition.declarations (declared_view declared.old) (flat_map declaration_view list.now)) result }
{
    for declaration in list {
        declare(alloc, declared, declaration)?;
    }
    Ok(())
}
