//! The expansion of a design, from its top on (IEEE 1076-2008, 14.2).

ghost use Rattle.std.specs.Prelude.{◌≡◌, ◌≢◌, ◌⊎◌, map, find, option_map, bytes_eq, Err, IfErr};
ghost use Rattle.vhdl_names_rules.specs.units.Units as u;
ghost use Rattle.vhdl_names_rules.specs.units.Bytes.{units_bytes};
ghost use Rattle.vhdl_names_units.specs.views.Units.{entity_view, units_view};
ghost use Rattle.vhdl_elab_rules.specs.Refused.{HasInterface};
ghost use Rattle.vhdl_expand_rules.specs.declared.fault.ElabFault.TheVariants.{NoMemory};
ghost use Rattle.vhdl_expand_rules.specs.Elab.{fault_told};
ghost use Rattle.vhdl_expand_rules.specs.Expansion.{expanded_design};
ghost use Rattle.vhdl_expand_rules.specs.Tops.{top_interface};
ghost use Rattle.vhdl_expand_rules.specs.views.Tops.{top_view};
ghost use Rattle.vhdl_expand_operands.specs.Results.{Expands, Charges};
ghost use Rattle.vhdl_expand_tree.specs.Views.{design_view};
ghost use Rattle.vhdl_expand.specs.Limits.{within_limits};
ghost use Rattle.vhdl_expand_declarations.specs.Views.{declared_view};

use crate::settings::{are_generics, lent, set_actuals};
use crate::walk::Walk;
use std::alloc::Global;
use vhdl_expand_declarations::{InstanceObjects, interface_with};
use vhdl_expand_rules::{ElabFault, ElabProblem, Top};
use vhdl_expand_tree::{Budget, Design};
use vhdl_names_units::{Entity, Units};

/// How many instances may be nested, the top among them.
const LEVELS: u32 = 32;

/// The first entity of this name.
fn named<'a>(units: &'a [Entity], name: &[u8]) -> Option<&'a Entity>
    ensures { find (λ (e : u.Entity). bytes_eq e.name name.now) (map entity_view units.now) ≡
        option_map (λ e. entity_view e.now) result }
{
    for unit in units {
        if unit.name.text.as_slice() == name {
            return Some(unit);
        }
    }
    None
}

/// What is known of the top where its architecture begins. It takes the memory of what is known,
/// and for a while that of the actuals of its generics.
fn outermost(alloc: Global, top: Top<'_>, unit: &Entity) -> Result<InstanceObjects, ElabFault>
    ensures { Expands declared_view (top_interface (top_view top.entry) (entity_view unit.now)) result }
{
    if !are_generics(&unit.generics, top.generics) {
        return Err(ElabProblem::NoGeneric.at(unit.name.at));
    }
    let set = set_actuals(alloc, top.generics, &unit.generics)?;
    let actuals = lent(alloc, &set)?;
    let nothing = InstanceObjects::new(alloc);
    let above = nothing.site(&[]);
    let declared = interface_with(alloc, &above, &actuals, unit);
    above.end();
    declared
}

/// Expands the design with this top: the tree of its instances. The generics of the top have the
/// values that are set, or their defaults, and its ports are joined to nothing. A fault is any
/// problem but TwoUnresolved and ReadOfShared, and nothing is made beyond the limits. It takes the
/// memory of the tree.
pub fn expand(alloc: Global, units: &Units, top: Top<'_>) -> Result<Design, ElabFault>
    ensures given { Charges (units_bytes (units_view units.now)) design_view
        (within_limits (expanded_design (units_view units.now) (top_view top.entry))) result }
    ensures begun { IfErr result (λ fault. fault ≢ NoMemory
        → (within_limits (expanded_design (units_view units.now) (top_view top.entry)) ≡ Err (fault_told fault))
        ⊎ HasInterface (units_view units.now) (top_view top.entry)) }
{
    let name = top.name.to_ascii_lowercase(alloc)?;
    let Some(unit) = named(&units.entities, &name) else {
        return Err(ElabProblem::NoTop.at(0));
    };
    let declared = outermost(alloc, top, unit)?;
    let walk = Walk {
        alloc,
        units: &units.entities,
        levels: LEVELS,
    };
    let mut left = Budget::whole();
    let top = walk.instance(unit, declared, unit.name.at, &mut left)?;
    let name = unit.name.text.to_vec(alloc)?;
    Ok(Design { name, top })
}
