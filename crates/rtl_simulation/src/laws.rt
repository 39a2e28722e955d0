//! The law of orders, the contract of a function that does nothing.

ghost use Rattle.rtl_simulation.specs.Laws.{EachOrderIsWrittenAlike};

use rtl_model::simulation_laws;

/// Two simulations of a netlist under a stimulus that both come to their end, or to a moment that
/// doesn't settle, answer the same and write the same bytes, whatever the orders in which they ran
/// the processes.
pub fn each_order_is_written_alike()
    ensures { EachOrderIsWrittenAlike }
{
    simulation_laws::simulations_agree();
}
