//! The laws that the checker's yes rests on, over rtl_model's `specs/simulation` and
//! `specs/nets/Laws.antt`, each the contract of a function that does nothing. They speak of
//! netlists that are in range, connected and accepted: each `Net` is in range and connected
//! (`nets_meet_the_laws` of rtl_net). What `run` answers says the same of one simulation
//! (`IsSynchronous` of rtl_run).

ghost use Rattle.rtl_model.specs.nets.Laws.{EachHasOneSolution, EachSimulatesTheMachine};

use rtl_model::net_laws;

/// For given inputs and registers one valuation solves an accepted netlist, and no other.
pub fn has_one_solution()
    ensures { EachHasOneSolution }
{
    net_laws::has_one_solution();
}

/// Whatever the order of processes, each moment of an accepted netlist's simulation settles within
/// the bound, and the first within the greatest level where nothing is reset; and where no moment
/// so far has a race, in the valuation of the synchronous machine's run, of which there is one.
pub fn simulates_the_machine()
    ensures { EachSimulatesTheMachine }
{
    net_laws::simulates_the_machine();
}
