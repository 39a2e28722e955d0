//! Small netlists on which the definitions of simulation are tried: that the laws' premises can be
//! met, that known counts of delta cycles come out, and that wrong definitions would differ.

ghost use Rattle.rtl_definition_examples.specs.Toggling.{PremisesCanBeMet, BoundsAreMet};
ghost use Rattle.rtl_definition_examples.specs.Rows.{OscillatorSettles, SiblingWakes};
ghost use Rattle.rtl_definition_examples.specs.SimulationMistakes.{OrderWouldCount, ActivityWouldGoOn, BoundWouldBreak, LevelsWouldMiss};
ghost use Rattle.rtl_definition_examples.specs.SimulationMistakes.{RegisterWouldFallBack, RegisterWouldRunAhead, RaceWouldPass};
ghost use Rattle.rtl_definition_examples.specs.Nets.{FaultsOfNets, OrderOfFaults, OrderOfClocks, ReportsOfNets, ResetsOfNets};
ghost use Rattle.rtl_definition_examples.specs.ByNets.{LevelsOfRipple, LevelsOfResets, LoopsOfNets};
ghost use Rattle.rtl_definition_examples.specs.Resets.{CopiesAsResets, RegistersAsResets, InputsAsResets, RegistersOfResets};
ghost use Rattle.rtl_definition_examples.specs.Nets.{EdgeWouldWin, ResetWouldBeLeftOut, ResetWouldRead, StatesOfNets, RacesOfNets};

/// A toggling register, with an asynchronous reset and without, has all that the laws ask for, and
/// its moments take as many delta cycles as the bound says.
pub fn premises_can_be_met()
    ensures premises { PremisesCanBeMet }
    ensures counts { BoundsAreMet }
{}

/// `y <= not y` settles from 'U' after one delta cycle and from '0' not within nine; a process that
/// is resumed by its sibling's output takes a second delta cycle without an event.
pub fn known_counts_come_out()
    ensures oscillator { OscillatorSettles }
    ensures sibling { SiblingWakes }
{}

/// Each of these wrong definitions differs from the right one on a small netlist, and with it a law
/// would fail: a process sees another's new value in its cycle; one is resumed by activity without
/// an event; the bound leaves out the registers' cycle; levels go by reads in place of
/// sensitivities; a register falls back to its start, or takes its value from after the edge; races
/// are looked for at rising edges alone.
pub fn wrong_definitions_differ()
    ensures order { OrderWouldCount }
    ensures activity { ActivityWouldGoOn }
    ensures bound { BoundWouldBreak }
    ensures levels { LevelsWouldMiss }
    ensures fall_back { RegisterWouldFallBack }
    ensures run_ahead { RegisterWouldRunAhead }
    ensures race { RaceWouldPass }
{}

/// The order of sources and of faults, a loop in its direction, and a reset that is a clock.
pub fn faults_of_nets()
    ensures nets { FaultsOfNets }
    ensures order { OrderOfFaults }
{}

/// The order of clocks, the lowest process below, a bound without registers, and one without a wake
/// by an idle port.
pub fn reports_of_nets()
    ensures clocks { OrderOfClocks }
    ensures nets { ReportsOfNets }
{}

/// Levels by nets go by sensitivities for processes, and of registers those that a reset made
/// inside assigns are above it; a loop of nets has a direction; and without a loop of processes
/// nothing is judged by nets.
pub fn levels_by_nets_come_out()
    ensures ripple { LevelsOfRipple }
    ensures resets { LevelsOfResets }
    ensures loops { LoopsOfNets }
{}

/// Which nets may be resets that processes drive: a copy of a register, a register that no reset
/// assigns or that inputs reset, and one that another register resets if that is to a value at
/// which it resets; and not what a clock is in. And what the registers do that they reset, in front
/// of the edge and behind it.
pub fn inner_resets_come_out()
    ensures copies { CopiesAsResets }
    ensures registers { RegistersAsResets }
    ensures inputs { InputsAsResets }
    ensures next { RegistersOfResets }
{}

/// A counter with a reset, and its faults where it isn't sensitive to the reset or the reset's
/// branch reads a signal.
pub fn resets_of_nets()
    ensures { ResetsOfNets }
{}

/// An edge that wins over a reset, a reset that is left out at the start, and a reset's branch that
/// reads a signal differ from the right definitions, and with them a law would fail.
pub fn reset_mistakes()
    ensures edge { EdgeWouldWin }
    ensures start { ResetWouldBeLeftOut }
    ensures reads { ResetWouldRead }
{}

/// A machine of three states over an enumeration, beside a process that reads the clock, is sound,
/// and goes to its next state.
pub fn states_of_nets()
    ensures { StatesOfNets }
{}

/// Two clocks that change at once are no race, and of a race the lowest data input and clock are
/// named.
pub fn races_of_nets()
    ensures { RacesOfNets }
{}
