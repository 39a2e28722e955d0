//! The laws of simulation (`specs/simulation/Laws.antt`), each the contract of a function that does
//! nothing.

ghost use Rattle.rtl_model.specs.simulation.Laws.{AcceptedByProcesses, CalmIsDecided, EachCalmNetKeeps, EachChangeIsMade, EachClockShowsRaces, EachDependsOnPast, InputsResetAsSaid};
ghost use Rattle.rtl_model.specs.simulation.Laws.{EachEndsAtLast, EachFaultIsListed, EachInputHolds, EachMomentComes};
ghost use Rattle.rtl_model.specs.simulation.Laws.{EachRunShows, EachStaysConsistent, EachTakesInputsAlone, EveryOrderIsOne};
ghost use Rattle.rtl_model.specs.simulation.Laws.{IsTheMachine, LevelsAreShown, LevelsByNetsExist, LevelsByNetsRise, LevelsExist, NetLevelsAreShown, OneBound, OneNetReport};
ghost use Rattle.rtl_model.specs.simulation.Laws.{OneGreatestCount, OneMachineRun, OneReport, OneSolution, OrderIsFree, ReportsAreShown, ReportsLeadDown};
ghost use Rattle.rtl_model.specs.simulation.Laws.{RunsInRange, SettlesInBound, SettlesOrNot, SolutionsInRange, StatesInRange};

/// Two orders of one cycle's Runs end in the same state, in every netlist.
pub fn order_is_free()
    ensures { OrderIsFree }
{}

/// Two whole simulations of a netlist under one stimulus agree at each moment, whatever their
/// orders: in the state after its first cycle, in the number of its delta cycles, and in the state
/// where it settles.
pub fn simulations_agree()
    ensures { EveryOrderIsOne }
{}

/// Without a loop each combinational process has a level.
pub fn levels_exist()
    ensures { LevelsExist }
{}

/// Without a loop of nets each net has a level, and each process that may assign in a delta cycle.
pub fn levels_by_nets_exist()
    ensures { LevelsByNetsExist }
{}

/// A netlist has no more than one report by nets.
pub fn one_net_report()
    ensures { OneNetReport }
{}

/// What has no fault but perhaps a loop, and isn't judged by nets, is accepted where no processes
/// are a loop.
pub fn accepted_by_processes()
    ensures { AcceptedByProcesses }
{}

/// An accepted netlist has no more than one report.
pub fn one_report()
    ensures { OneReport }
{}

/// An accepted netlist has no more than one bound, however it is judged.
pub fn one_bound()
    ensures { OneBound }
{}

/// For given inputs and registers one valuation solves an accepted netlist, and no other.
pub fn one_solution()
    ensures { OneSolution }
{}

/// Where the inputs and registers have values of their nets' types, so has every net in the
/// solution.
pub fn solutions_in_range()
    ensures { SolutionsInRange }
{}

/// Under each stimulus the synchronous machine of an accepted netlist has one run.
pub fn one_machine_run()
    ensures { OneMachineRun }
{}

/// Where the stimulus has values of the inputs' types, every net has a value of its type throughout
/// the machine's run.
pub fn runs_in_range()
    ensures { RunsInRange }
{}

/// Each moment of an accepted netlist's simulation is reached, and settles.
pub fn each_moment_comes()
    ensures { EachMomentComes }
{}

/// Whatever the orders, each moment of an accepted netlist's simulation settles within the bound,
/// and the first within the greatest level where no process has a reset.
pub fn settles_in_bound()
    ensures { SettlesInBound }
{}

/// There is one greatest number of delta cycles of an accepted netlist's moments up to a last one,
/// and it is within the bound.
pub fn one_greatest_count()
    ensures { OneGreatestCount }
{}

/// Whether a net is calm can be decided.
pub fn calm_is_decided()
    ensures { CalmIsDecided }
{}

/// A calm net that has one of its values in a moment has one of them after the moment's first
/// cycle, or in what the moment settles in, where no moment so far has a race.
pub fn calm_nets_keep()
    ensures { EachCalmNetKeeps }
{}

/// The machine reads a reset that is an input and stands before its edge in the new inputs alone.
pub fn inputs_reset_as_said()
    ensures { InputsResetAsSaid }
{}

/// What an accepted netlist has settled in at a moment is the valuation of the machine's run,
/// whatever the orders, where no moment so far has a race.
pub fn is_the_machine()
    ensures { IsTheMachine }
{}

/// The steps of a simulation keep the values of a state in range, so whatever a netlist settles in,
/// accepted or not, has values of the nets' types where the stimulus has.
pub fn states_in_range()
    ensures { StatesInRange }
{}

/// Levels that rise along every sensitivity, each above 1 being one more than that of its `from`,
/// are those of the longest chains; no numbering that rises is lower anywhere, and there is no
/// loop.
pub fn levels_are_shown()
    ensures { LevelsAreShown }
{}

/// Numbers of nets are those of the longest chains just where they rise along each look, each above
/// 1 being one more than that of a net looked at; and then there is no loop of nets.
pub fn net_levels_are_shown()
    ensures { NetLevelsAreShown }
{}

/// Levels by nets are such numbers.
pub fn levels_by_nets_rise()
    ensures { LevelsByNetsRise }
{}

/// What is a report is shown by local facts, which speak of no chain, and what they show is a
/// report.
pub fn reports_are_shown()
    ensures { ReportsAreShown }
{}

/// In a report, following `from` leads from each process down to level 1, through as many processes
/// as its level says.
pub fn reports_lead_down()
    ensures { ReportsLeadDown }
{}

/// Each net with sources has the resolution of their values at the start, and each step keeps it
/// so; hence a net none of whose drivers is active keeps its value in an update.
pub fn stays_consistent()
    ensures { EachStaysConsistent }
{}

/// What new inputs do depends on the values of the inputs alone; throughout a moment they have
/// them; and a list of changes gives each net that it names the value that it names last.
pub fn inputs_are_taken_alone()
    ensures alone { EachTakesInputsAlone }
    ensures hold { EachInputHolds }
    ensures changes { EachChangeIsMade }
{}

/// One run of delta cycles shows what every order does, and a state with nothing to run settles
/// within a limit or is unsettled there.
pub fn one_run_shows()
    ensures shows { EachRunShows }
    ensures either { SettlesOrNot }
{}

/// What happens up to a moment depends on the moments up to it alone, and past the last of its
/// times a stimulus changes nothing.
pub fn depends_on_past()
    ensures past { EachDependsOnPast }
    ensures last { EachEndsAtLast }
{}

/// Races are what a report's clocks show, and the earliest has one name.
pub fn clocks_show_races()
    ensures { EachClockShowsRaces }
{}

/// A netlist has one list of faults, unless it has loops alone; and it has one at all only where it
/// isn't accepted.
pub fn faults_are_listed()
    ensures { EachFaultIsListed }
{}
