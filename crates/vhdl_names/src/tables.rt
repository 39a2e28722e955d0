//! What instances see of the entities of a file (IEEE 1076-2008, 6.5.6 and 11.7).

ghost use Rattle.std.specs.Prelude.{Some};
ghost use Rattle.vhdl_names.specs.steps.Tables as steps;
ghost use Rattle.vhdl_names.specs.steps.Tables.{table_view};
ghost use Rattle.vhdl_names_instances.specs.Table.{seen_view, seen};
ghost use Rattle.vhdl_names_interfaces.specs.Views.{entity_view, entities_view, named_view};
ghost use Rattle.vhdl_names_rules.specs.Gives.{Gives};

use indexmap::IndexSet;
use std::alloc::Global;
use vhdl_lexer::Language;
use vhdl_names_instances::{Formals, InstanceEntities, Names, add_name, formals_of};
use vhdl_names_interfaces::{Entities, EntityInterface};
use vhdl_names_rules::NameFault;
use vhdl_names_sight::names_are_apart;

/// What the architectures of a file are read among: the language that is read, the names of its
/// entities, the entities that are given, and these as instances see them.
#[derive(Drop)]
pub struct Given<'o, 'a> {
    pub language: Language,
    pub names: &'o Names,
    pub entities: &'o Entities<'a>,
    pub formals: &'o InstanceEntities,
}

/// What instances see of an entity.
fn seen_of(alloc: Global, entity: &EntityInterface<'_>) -> Result<Formals, NameFault>
    ensures { Gives seen_view (Some (seen (entity_view entity.now))) result }
{
    names_are_apart(&entity.region);
    formals_of(alloc, &entity.region, &entity.architecture)
}

/// One more entity, under a name that none before it has.
fn add_seen(
    alloc: Global,
    table: &mut InstanceEntities,
    name: &[u8],
    entity: &EntityInterface<'_>,
) -> Result<(), NameFault>
    ensures { Gives (λ _. table_view table.new)
        (steps.with_seen (table_view table.old) (named_view name.now entity.now)) result }
{
    add_name(alloc, &mut table.names, name, 0)?;
    let formals = seen_of(alloc, entity)?;
    table.formals.push(formals)?;
    Ok(())
}

/// The entities of a file as instances see them. It fails for want of memory alone, and takes that
/// of their names and of the names of their generics and ports.
pub fn table(alloc: Global, entities: &Entities<'_>) -> Result<InstanceEntities, NameFault>
    ensures { Gives table_view (Some (steps.table_of (entities_view entities.now))) result }
{
    names_are_apart(entities);
    let mut table = InstanceEntities {
        names: IndexSet::new(alloc),
        formals: Vec::new(alloc),
    };
    for place in 0..entities.len() {
        let (name, entity) = entities.get_index(place).unwrap();
        add_seen(alloc, &mut table, name.as_slice(), entity)?;
    }
    Ok(table)
}
