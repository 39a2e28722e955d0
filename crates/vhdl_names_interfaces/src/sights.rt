//! What is in sight where an architecture begins (IEEE 1076-2008, 3.3 and 12.4).

ghost use Rattle.std.specs.Prelude.{◌≡◌, ◌∷◌, [], map, Some, IfOk, IfErr};
ghost use Rattle.vhdl_names_declarations.specs.Entered.{ident, more};
ghost use Rattle.vhdl_names_interfaces.specs.Views.{entity_view, sight_behind};
ghost use Rattle.vhdl_names_rules.specs.Gives.{Gives};
ghost use Rattle.vhdl_tree.specs.View as view;
ghost use Rattle.vhdl_names_sight.specs.Views.{entry_of, region_view};
ghost use Rattle.vhdl_names_rules.specs.problems.Broken.{Tells, nothing};
ghost use Rattle.vhdl_names_rules.specs.problems.Declarations as broken;

use crate::interface::EntityInterface;
use indexmap::IndexMap;
use std::alloc::Global;
use vhdl_names_declarations::declare_entry;
use vhdl_names_packages::{context_after, sight_of};
use vhdl_names_rules::NameFault;
use vhdl_names_sight::{Entry, Region, Sight, names_are_apart};
use vhdl_tree::ContextItem;

/// One declaration of a region, copied behind those of another.
fn copy_one(alloc: Global, copy: &mut Region, name: &[u8], entry: &Entry) -> Result<(), NameFault>
    ensures given { Gives (λ _. region_view copy.new)
        (more (region_view copy.old) (entry_of name.now entry.now ∷ [])) result }
    ensures told { IfErr result (Tells (broken.standing_twice (region_view copy.old) (ident 0 name.now ∷ []))) }
{
    let entry = entry.copied(alloc)?;
    declare_entry(alloc, copy, name, 0, entry)?;
    Ok(())
}

/// A copy of a region. It takes the memory of its names and entries.
fn copied_region(alloc: Global, region: &Region) -> Result<Region, NameFault>
    ensures given { Gives region_view (Some (region_view region.now)) result }
    ensures told { IfErr result (Tells (nothing)) }
{
    names_are_apart(region);
    let mut copy: Region = IndexMap::new(alloc);
    for place in 0..region.len() {
        let (name, entry) = region.get_index(place).unwrap();
        copy_one(alloc, &mut copy, name.as_slice(), entry)?;
    }
    names_are_apart(&copy);
    Ok(copy)
}

/// What is in sight where an architecture of an entity begins, behind these context items: its
/// entity's context and its own, and the entity's generics and ports, in the region that goes on
/// with its declarations; no region encloses it. It takes the memory of the names and their
/// entries.
pub fn architecture_sight(
    alloc: Global,
    entity: &EntityInterface<'_>,
    items: &[ContextItem],
) -> Result<Sight, NameFault>
    ensures given { Gives (λ s. s) (sight_behind (entity_view entity.now) (map view.context_view items.now)) result }
    ensures outermost { IfOk result (λ s. s.enclosing ≡ []) }
    ensures told { IfErr result (Tells (broken.context (entity_view entity.now).context
        (map view.context_view items.now))) }
{
    let context = context_after(entity.context, items)?;
    let region = copied_region(alloc, &entity.region)?;
    let sight = sight_of(alloc, context, region)?;
    Ok(sight)
}
