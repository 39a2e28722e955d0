//! The maps of an instance in order of the text (IEEE 1076-2008, 6.5.7): which fault is told where
//! something is wrong with them.

ghost use Rattle.std.specs.Prelude.{◌≡◌, ℕ, true, IfErr, IfOk, List, drop, is_some, map, option_map};
ghost use Rattle.vhdl_names_instances.specs.Table.{seen, seen_view, type_of, kind_of};
ghost use Rattle.vhdl_names_instances.specs.steps.Actuals.{formal};
ghost use Rattle.vhdl_names_instances.specs.steps.Instances.{with_formals};
ghost use Rattle.vhdl_names_instances.specs.steps.Maps as steps;
ghost use Rattle.vhdl_names_units.specs.Once.{names_view};
ghost use Rattle.vhdl_names_rules.specs.problems.Broken.{Tells, any_of, nothing, where_given};
ghost use Rattle.vhdl_names_rules.specs.problems.Instances as broken;
ghost use Rattle.vhdl_names_rules.specs.Instances.{Formal, GenericFormal};
ghost use Rattle.vhdl_names_instances.specs.steps.Generics.{formal as generic_formal};
ghost use Rattle.vhdl_names_rules.specs.Interfaces.{EntityView};
ghost use Rattle.vhdl_names_rules.specs.Rules.{all_of};
ghost use Rattle.vhdl_tree.specs.Tree.{Ident};
ghost use Rattle.vhdl_tree.specs.View as tree;

use crate::actuals::{PortType, port_actual, port_at};
use crate::associations::{Names, expression_of, formal_at, is_named, take};
use crate::generics::{GenericKind, generic_actual, generic_at};
use crate::instances::{Formals, listed};
use indexmap::IndexSet;
use vhdl_names_rules::NameFault;
use vhdl_names_sight::Sight;
use vhdl_names_units::is_text;
use vhdl_tree as syntax;
use vhdl_tree::{Association, Expr};

/// The kind of the generic at a place, if it has this name.
fn generic_named(formals: &Formals, index: usize, name: &[u8]) -> Option<GenericKind>
    ensures { (all : List GenericFormal) → names_view formals.now.generics ≡ map (λ f. f.name) all
        → formals.now.generic_kinds.items ≡ map kind_of all
        → result ≡ steps.generic_named all index name.now }
{
    match formals.generics.get_index(index) {
        None => None,
        Some(own) => {
            if is_text(name, own) {
                generic_at(&formals.generic_kinds, index)
            } else {
                None
            }
        }
    }
}

/// What is associated with a name, for the generic at a place if it has this name.
fn one_generic(
    sight: &Sight,
    formals: &Formals,
    index: usize,
    name: &[u8],
    e: &Expr,
) -> Result<(), NameFault>
    ensures told { (all : List GenericFormal) → names_view formals.now.generics ≡ map (λ f. f.name) all
        → formals.now.generic_kinds.items ≡ map kind_of all
        → IfErr result (Tells (where_given (steps.generic_named all index name.now)
        (λ k. broken.generic_actual sight.now (tree.view e.now) (generic_formal k)))) }
    ensures fits { (all : List GenericFormal) → names_view formals.now.generics ≡ map (λ f. f.name) all
        → formals.now.generic_kinds.items ≡ map kind_of all
        → IfOk result
        (λ _. steps.suits_if_any sight.now (steps.generic_named all index name.now) (tree.view e.now) ≡ true) }
{
    match generic_named(formals, index, name) {
        None => Ok(()),
        Some(kind) => {
            generic_actual(sight, kind, e)?;
            Ok(())
        }
    }
}

/// What is associated with a name, for each generic of this name.
fn named_generics(sight: &Sight, formals: &Formals, name: &[u8], e: &Expr) -> Result<(), NameFault>
    ensures told { (all : List GenericFormal) → names_view formals.now.generics ≡ map (λ f. f.name) all
        → formals.now.generic_kinds.items ≡ map kind_of all
        → IfErr result (Tells (any_of (broken.generic_actual sight.now (tree.view e.now))
        (broken.generics_named all name.now))) }
    ensures fits { (all : List GenericFormal) → names_view formals.now.generics ≡ map (λ f. f.name) all
        → formals.now.generic_kinds.items ≡ map kind_of all
        → IfOk result (λ _. steps.suits sight.now all name.now (tree.view e.now) ≡ true) }
{
    for index in 0..formals.generics.len() {
        one_generic(sight, formals, index, name, e)?;
    }
    Ok(())
}

/// One more association of a generic map: the formal that it is for, and then its actual.
fn read_generic(
    sight: &Sight,
    formals: &Formals,
    taken: &mut Names,
    index: usize,
    is_behind_named: bool,
    association: &Association,
) -> Result<(), NameFault>
    ensures told { (all : List GenericFormal) → names_view formals.now.generics ≡ map (λ f. f.name) all
        → formals.now.generic_kinds.items ≡ map kind_of all
        → IfErr result (Tells (broken.association (map (λ f. f.name) all)
        (λ n e. any_of (broken.generic_actual sight.now e) (broken.generics_named all n))
        (drop index (map (λ f. f.name) all)) is_behind_named (names_view taken.old)
        (tree.association_view association.now))) }
    ensures read { (all : List GenericFormal) → names_view formals.now.generics ≡ map (λ f. f.name) all
        → formals.now.generic_kinds.items ≡ map kind_of all
        → IfOk result (λ _. steps.one_read (map (λ f. f.name) all) (steps.suits sight.now all) index is_behind_named
        (names_view taken.old) (tree.association_view association.now) ≡ Some (names_view taken.new)) }
{
    take(
        sight.alloc,
        &formals.generics,
        taken,
        index,
        is_behind_named,
        association,
    )?;
    match expression_of(association) {
        None => Ok(()),
        Some(e) => {
            let name = formal_at(&formals.generics, index, association)?;
            named_generics(sight, formals, name, e)
        }
    }
}

/// A generic map, association by association.
fn generic_map(sight: &Sight, formals: &Formals, list: &[Association]) -> Result<(), NameFault>
    ensures told { (all : List GenericFormal) → names_view formals.now.generics ≡ map (λ f. f.name) all
        → formals.now.generic_kinds.items ≡ map kind_of all
        → IfErr result (Tells (broken.generic_map sight.now all (map tree.association_view list.now))) }
    ensures kept { (all : List GenericFormal) → names_view formals.now.generics ≡ map (λ f. f.name) all
        → formals.now.generic_kinds.items ≡ map kind_of all
        → IfOk result (λ _. broken.generic_map sight.now all (map tree.association_view list.now) ≡ nothing) }
    ensures given { (all : List GenericFormal) → names_view formals.now.generics ≡ map (λ f. f.name) all
        → formals.now.generic_kinds.items ≡ map kind_of all
        → IfOk result (λ _. is_some (steps.generics sight.now all (map tree.association_view list.now)) ≡ true) }
{
    let mut taken = IndexSet::new(sight.alloc);
    let mut is_behind_named = false;
    for (index, association) in list.iter().enumerate() {
        read_generic(
            sight,
            formals,
            &mut taken,
            index,
            is_behind_named,
            association,
        )?;
        is_behind_named = is_named(association);
    }
    Ok(())
}

/// The type of the port at a place, if it has this name.
fn port_named(formals: &Formals, index: usize, name: &[u8]) -> Option<PortType>
    ensures { (all : List Formal) → names_view formals.now.ports ≡ map (λ f. f.name) all
        → formals.now.port_types.items ≡ map type_of all
        → result ≡ steps.port_named all index name.now }
{
    match formals.ports.get_index(index) {
        None => None,
        Some(own) => {
            if is_text(name, own) {
                port_at(&formals.port_types, index)
            } else {
                None
            }
        }
    }
}

/// What is associated with a name, for the port at a place if it has this name.
fn one_port(
    sight: &Sight,
    formals: &Formals,
    index: usize,
    name: &[u8],
    e: &Expr,
) -> Result<(), NameFault>
    ensures told { (all : List Formal) → names_view formals.now.ports ≡ map (λ f. f.name) all
        → formals.now.port_types.items ≡ map type_of all
        → IfErr result (Tells (where_given (steps.port_named all index name.now)
        (λ p. broken.port_actual sight.now (formal p) (tree.view e.now)))) }
    ensures fits { (all : List Formal) → names_view formals.now.ports ≡ map (λ f. f.name) all
        → formals.now.port_types.items ≡ map type_of all
        → IfOk result
        (λ _. steps.fits_if_any sight.now (steps.port_named all index name.now) (tree.view e.now) ≡ true) }
{
    match port_named(formals, index, name) {
        None => Ok(()),
        Some(port) => {
            port_actual(sight, port, e)?;
            Ok(())
        }
    }
}

/// What is associated with a name, for each port of this name.
fn named_ports(sight: &Sight, formals: &Formals, name: &[u8], e: &Expr) -> Result<(), NameFault>
    ensures told { (all : List Formal) → names_view formals.now.ports ≡ map (λ f. f.name) all
        → formals.now.port_types.items ≡ map type_of all
        → IfErr result (Tells (any_of (λ f. broken.port_actual sight.now f (tree.view e.now))
        (broken.ports_named all name.now))) }
    ensures fits { (all : List Formal) → names_view formals.now.ports ≡ map (λ f. f.name) all
        → formals.now.port_types.items ≡ map type_of all
        → IfOk result (λ _. steps.fits sight.now all name.now (tree.view e.now) ≡ true) }
{
    for index in 0..formals.ports.len() {
        one_port(sight, formals, index, name, e)?;
    }
    Ok(())
}

/// One more association of a port map: the formal that it is for, and then its actual.
fn read_port(
    sight: &Sight,
    formals: &Formals,
    taken: &mut Names,
    index: usize,
    is_behind_named: bool,
    association: &Association,
) -> Result<(), NameFault>
    ensures told { (all : List Formal) → names_view formals.now.ports ≡ map (λ f. f.name) all
        → formals.now.port_types.items ≡ map type_of all
        → IfErr result (Tells (broken.association (map (λ f. f.name) all)
        (λ n e. any_of (λ f. broken.port_actual sight.now f e) (broken.ports_named all n))
        (drop index (map (λ f. f.name) all)) is_behind_named (names_view taken.old)
        (tree.association_view association.now))) }
    ensures read { (all : List Formal) → names_view formals.now.ports ≡ map (λ f. f.name) all
        → formals.now.port_types.items ≡ map type_of all
        → IfOk result (λ _. steps.one_read (map (λ f. f.name) all) (steps.fits sight.now all) index is_behind_named
        (names_view taken.old) (tree.association_view association.now) ≡ Some (names_view taken.new)) }
{
    take(
        sight.alloc,
        &formals.ports,
        taken,
        index,
        is_behind_named,
        association,
    )?;
    match expression_of(association) {
        None => Ok(()),
        Some(e) => {
            let name = formal_at(&formals.ports, index, association)?;
            named_ports(sight, formals, name, e)
        }
    }
}

/// A port map, association by association.
fn port_map(sight: &Sight, formals: &Formals, list: &[Association]) -> Result<(), NameFault>
    ensures told { (all : List Formal) → names_view formals.now.ports ≡ map (λ f. f.name) all
        → formals.now.port_types.items ≡ map type_of all
        → IfErr result (Tells (broken.port_map sight.now all (map tree.association_view list.now))) }
    ensures given { (all : List Formal) → names_view formals.now.ports ≡ map (λ f. f.name) all
        → formals.now.port_types.items ≡ map type_of all
        → IfOk result (λ _. is_some (steps.ports sight.now all (map tree.association_view list.now)) ≡ true) }
{
    let mut taken = IndexSet::new(sight.alloc);
    let mut is_behind_named = false;
    for (index, association) in list.iter().enumerate() {
        read_port(
            sight,
            formals,
            &mut taken,
            index,
            is_behind_named,
            association,
        )?;
        is_behind_named = is_named(association);
    }
    Ok(())
}

/// The maps of an instance of an entity with these formals: they fail at the first byte where a
/// rule is broken, or where memory is refused. Where no rule is broken, an instance is given.
pub(crate) fn maps(
    sight: &Sight,
    formals: &Formals,
    instance: &syntax::Instance,
) -> Result<(), NameFault>
    ensures told { (seen_of : EntityView) → seen_view formals.now ≡ seen seen_of
        → IfErr result (Tells (broken.maps sight.now seen_of (tree.instance_view instance.now))) }
    ensures given { (seen_of : EntityView) → seen_view formals.now ≡ seen seen_of → (label : Ident) → (unit : ℕ)
        → IfOk result (λ _. is_some (with_formals sight.now label unit (seen_view formals.now)
        (all_of (option_map tree.associations_view instance.now.generics))
        (all_of (option_map tree.associations_view instance.now.ports))) ≡ true) }
{
    generic_map(sight, formals, listed(&instance.generics))?;
    port_map(sight, formals, listed(&instance.ports))
}
