//! The nets that an instance has of its own (IEEE 1076-2008, 6.5.6.3), and the elements of a
//! process's variables.

ghost use Rattle.std.specs.Prelude.{◌≡◌, [], ◌∷◌, map};
ghost use Rattle.vhdl_elab_rules.specs.Numbering.{own_size, own_sizes};
ghost use Rattle.vhdl_expand_operands.specs.Results.{Charges};
ghost use Rattle.vhdl_expand_tree.specs.Costs.{nets, spent, variables_costs};
ghost use Rattle.vhdl_expand_tree.specs.Views.{budget_view, object_view, variable_view};

use vhdl_expand_rules::ElabFault;
use vhdl_expand_tree::{Budget, Object, Variable};

/// How many elements of an object aren't those of an actual.
fn own_elements(object: &Object) -> usize
    ensures { result ≡ own_size (object_view object.now) }
{
    match &object.actual {
        None => object.kind.size(),
        Some(_) => 0,
    }
}

/// Takes the nets of the elements that aren't those of an actual; where fewer are left, the fault
/// is TooMany at the byte of the object that is too much, and what came before it is taken.
pub fn charge_own_nets(objects: &[Object], budget: &mut Budget) -> Result<(), ElabFault>
    ensures { Charges (map (λ o. o.at) objects.now) (λ _. budget_view budget.new)
        (spent 0 (budget_view budget.old) (nets (own_sizes (map object_view objects.now)))) result }
{
    for object in objects {
        budget.charge_nets(own_elements(object), object.at)?;
    }
    Ok(())
}

/// Takes the elements of variables from the budget; a fault is TooMany, at this byte, where fewer
/// are left.
pub(crate) fn charge_variables(
    variables: &[Variable],
    at: usize,
    budget: &mut Budget,
) -> Result<(), ElabFault>
    ensures { Charges (at ∷ []) (λ _. budget_view budget.new)
        (spent at (budget_view budget.old) (variables_costs (map variable_view variables.now))) result }
{
    for variable in variables {
        budget.charge_variables(variable.starts.len(), at)?;
    }
    Ok(())
}
