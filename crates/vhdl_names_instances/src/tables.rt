//! What instances see of an entity, from its region (IEEE 1076-2008, 6.5.6).

ghost use Rattle.std.specs.Prelude.{◌≡◌, IfOk, option_map};
ghost use Rattle.vhdl_names_units.specs.Lists.{in_turn};
ghost use Rattle.vhdl_names_instances.specs.Table.{seen_view};
ghost use Rattle.vhdl_names_instances.specs.steps.Tables as steps;
ghost use Rattle.vhdl_names_rules.specs.Gives.{Gives};
ghost use Rattle.vhdl_names_sight.specs.Views.{meaning_view, entry_of, region_view};

use crate::actuals::PortType;
use crate::associations::add_name;
use crate::generics::GenericKind;
use crate::instances::Formals;
use indexmap::IndexSet;
use std::alloc::{AllocError, Global};
use vhdl_names_rules::NameFault;
use vhdl_names_sight::{Entry, Meaning, Region};
use vhdl_tree::Identifier;

/// The kind of a generic; one of the nine values is a constant.
fn generic_kind(meaning: &Meaning) -> Option<GenericKind>
    ensures { result ≡ steps.generic_kind (meaning_view meaning.now) }
{
    match meaning {
        Meaning::Generic(_) => Some(GenericKind::Integer),
        Meaning::BooleanGeneric(_) => Some(GenericKind::Boolean),
        Meaning::Constant(_, kind, _) => Some(GenericKind::Elements(*kind)),
        _ => None,
    }
}

/// The type of a port.
fn port_type(meaning: &Meaning) -> Option<PortType>
    ensures { result ≡ steps.port_type (meaning_view meaning.now) }
{
    match meaning {
        Meaning::Port(_, mode, object_type) => Some(PortType {
            mode: *mode,
            object_type: *object_type,
        }),
        _ => None,
    }
}

/// One more generic.
fn add_generic(
    alloc: Global,
    formals: &mut Formals,
    name: &[u8],
    kind: GenericKind,
) -> Result<(), NameFault>
    ensures { Gives (λ _. seen_view formals.new) (steps.with_generic (seen_view formals.old) name.now kind) result }
{
    add_name(alloc, &mut formals.generics, name, 0)?;
    formals.generic_kinds.push(kind)?;
    Ok(())
}

/// One more port.
fn add_port(
    alloc: Global,
    formals: &mut Formals,
    name: &[u8],
    port: PortType,
) -> Result<(), NameFault>
    ensures { Gives (λ _. seen_view formals.new) (steps.with_port (seen_view formals.old) name.now port) result }
{
    add_name(alloc, &mut formals.ports, name, 0)?;
    formals.port_types.push(port)?;
    Ok(())
}

/// One more declaration; a generic or port is a formal.
fn add_declared(
    alloc: Global,
    formals: &mut Formals,
    name: &[u8],
    entry: &Entry,
) -> Result<(), NameFault>
    ensures { Gives (λ _. seen_view formals.new)
        (steps.with_declared (seen_view formals.old) (entry_of name.now entry.now)) result }
{
    if let Some(kind) = generic_kind(&entry.meaning) {
        return add_generic(alloc, formals, name, kind);
    }
    match port_type(&entry.meaning) {
        None => Ok(()),
        Some(port) => add_port(alloc, formals, name, port),
    }
}

/// The declaration at a place of a region, if there are so many.
fn add_declared_at(
    alloc: Global,
    formals: &mut Formals,
    region: &Region,
    place: usize,
) -> Result<(), NameFault>
    ensures { Gives (λ _. seen_view formals.new)
        (steps.with_declared_at (seen_view formals.old) (region_view region.now) place) result }
{
    match region.get_index(place) {
        None => Ok(()),
        Some((name, entry)) => add_declared(alloc, formals, name, entry),
    }
}

/// The name of an architecture, if there is one.
fn name_if_any(alloc: Global, name: &Option<&Identifier>) -> Result<Option<Vec<u8>>, AllocError>
    ensures { IfOk result (λ n. option_map (λ v. v.items) n ≡ option_map (λ i. i.now.text.items) name.now) }
{
    match name {
        None => Ok(None),
        Some(name) => Ok(Some(name.text.to_vec(alloc)?)),
    }
}

/// What instances see of an entity with this region of generics and ports, and with this
/// architecture, if the file has one. It takes the memory of the names.
pub fn formals_of(
    alloc: Global,
    region: &Region,
    architecture: &Option<&Identifier>,
) -> Result<Formals, NameFault>
    ensures { Gives seen_view (in_turn steps.with_declared
        (steps.no_formals (option_map (λ i. i.now.text.items) architecture.now)) (region_view region.now)) result }
{
    let architecture = name_if_any(alloc, architecture)?;
    let mut formals = Formals {
        architecture,
        generics: IndexSet::new(alloc),
        generic_kinds: Vec::new(alloc),
        ports: IndexSet::new(alloc),
        port_types: Vec::new(alloc),
    };
    for place in 0..region.len() {
        add_declared_at(alloc, &mut formals, region, place)?;
    }
    Ok(formals)
}
