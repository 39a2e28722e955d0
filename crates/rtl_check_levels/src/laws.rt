//! What tables, levels and loops are to netlists, over `specs/OfNets.antt`.

ghost use Rattle.rtl_check_levels.specs.OfNets.{LevelsAreOfNets, RoundsAreLoops};

use rtl_model::simulation_laws;

/// Where a netlist's table has levels there is no loop, and they are those of the report on it; and
/// a loop of its table is one of its loops.
pub fn tables_are_of_nets()
    ensures levels { LevelsAreOfNets }
    ensures loops { RoundsAreLoops }
{
    simulation_laws::reports_are_shown();
    simulation_laws::levels_are_shown();
}
