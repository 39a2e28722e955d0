//! The laws, each the contract of a function that does nothing: the settling theorem, over
//! `specs/Synchronous.antt`; what the text of words says, over `specs/Words.antt`; and what is
//! written, over `specs/levels/Laws.antt`.

ghost use Rattle.rtl_run.specs.Synchronous.{EachAcceptedIsSynchronous};
ghost use Rattle.rtl_run.specs.Words.{EachWordSets};
ghost use Rattle.rtl_run.specs.levels.Laws.{EachRunIsWrittenAlike, EachTraceIsTheOne};

use rtl_model::{net_laws, simulation_laws};
use rtl_net::nets_meet_the_laws;

/// Where the checker says yes with a bound, then for every stimulus without a race and every order
/// of processes each moment settles within that many delta cycles, no net has two drivers, and what
/// the moments settle in is the run of the synchronous machine.
pub fn accepted_nets_are_synchronous()
    ensures { EachAcceptedIsSynchronous }
{
    nets_meet_the_laws();
    net_laws::simulates_the_machine();
    net_laws::has_one_solution();
}

/// The stimulus that NAME=VALUE words say sets each input that a word names at 0, and stops there;
/// the first bad word is the bad line of its place.
pub fn each_word_sets()
    ensures { EachWordSets }
{}

/// An accepted netlist has one trace under a stimulus, since the synchronous machine has one run.
pub fn each_trace_is_the_one()
    ensures { EachTraceIsTheOne }
{
    nets_meet_the_laws();
    simulation_laws::one_machine_run();
}

/// So `run_watched` and `run_levels_watched` write the same bytes.
pub fn each_run_is_written_alike()
    ensures { EachRunIsWrittenAlike }
{
    each_trace_is_the_one();
    simulation_laws::one_bound();
}
