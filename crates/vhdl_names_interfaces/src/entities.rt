//! The entities of a file, by name (IEEE 1076-2008, 13.1).

ghost use Rattle.std.specs.Prelude.{◌≡◌, ◌≢◌, IfErr};
ghost use Rattle.vhdl_names_interfaces.specs.Views.{entity_view, entities_view, named_view, one_more};
ghost use Rattle.vhdl_names_rules.specs.Gives.{Gives};
ghost use Rattle.vhdl_names_rules.specs.Interfaces as rules;
ghost use Rattle.vhdl_names_rules.specs.problems.Broken.{Tells, refused};
ghost use Rattle.vhdl_names_rules.specs.declared.fault.NameFault.TheVariants.{NoMemory};
ghost use Rattle.vhdl_names_rules.specs.declared.fault.NameProblem.TheVariants.{Undeclared, Twice};

use crate::interface::EntityInterface;
use indexmap::IndexMap;
use std::alloc::Global;
use vhdl_names_rules::{NameFault, NameProblem};
use vhdl_tree::Identifier;

/// Entities in order of the text, by name.
pub type Entities<'a> = IndexMap<Vec<u8>, EntityInterface<'a>>;

/// One more entity, whose name no entity before it has; else it is Twice. It takes the memory of
/// its name and entry.
pub fn add_entity<'a>(
    alloc: Global,
    entities: &mut Entities<'a>,
    entity: EntityInterface<'a>,
) -> Result<(), NameFault>
    ensures given { Gives (λ _. entities_view entities.new)
        (one_more (entities_view entities.old) (entity_view entity.entry)) result }
    ensures told { IfErr result (Tells (refused Twice entity.entry.tree.now.name.at)) }
    ensures kept { IfErr result (λ f. f ≢ NoMemory → entities_view entities.new ≡ entities_view entities.old) }
{
    let name = &entity.tree.name;
    if entities.contains_key(name.text.as_slice()) {
        return Err(NameProblem::Twice.at(name.at));
    }
    let key = Vec::from_slice(alloc, &name.text)?;
    entities.insert(key, entity)?;
    Ok(())
}

/// The entity of a name, with its number; another name is Undeclared.
pub fn entity_named<'e, 'a>(
    entities: &'e Entities<'a>,
    name: &Identifier,
) -> Result<(usize, &'e EntityInterface<'a>), NameFault>
    ensures given { Gives (λ x. (x.0, named_view name.now.text.items x.1.now))
        (rules.entity_named (entities_view entities.now) name.now.text.items) result }
    ensures told { IfErr result (Tells (refused Undeclared name.now.at)) }
{
    match entities.get_full(name.text.as_slice()) {
        Some((number, _, entity)) => Ok((number, entity)),
        None => Err(NameProblem::Undeclared.at(name.at)),
    }
}
