//! What flat netlists are to the laws of simulation, over `specs/nets`.

ghost use Rattle.rtl_model.specs.nets.Laws.{EachHasValues, EachHasBodies, EachKindIsOfBody, EachForgets, InRangeIsSafe, EachKeepsRange};
ghost use Rattle.rtl_model.specs.nets.Laws.{EachIsElaborated, EachSourceKeepsRange, EachStateIsInRange, EachSimulatesTheMachine, EachHasOneSolution, WideAcceptsAll};

/// Resolution, edges and bodies of each flat netlist have what the laws of simulation ask of them.
pub fn bodies_have_what_is_asked()
    ensures values { EachHasValues }
    ensures bodies { EachHasBodies }
{}

/// A process is combinational where no edge test and no `'event` stands in its body, clocked where
/// its body is one of a clocked process, and else mixed.
pub fn kinds_are_those_of_bodies()
    ensures { EachKindIsOfBody }
{}

/// The effect of a process that stores no variable is the same whatever values its variables had
/// before the run.
pub fn forgets_variables()
    ensures { EachForgets }
{}

/// In a netlist in range all nets that a process wakes on and reads are there, and all variable
/// elements that it stores.
pub fn in_range_is_safe()
    ensures { InRangeIsSafe }
{}

/// The bodies of a netlist in range assign values of their targets' types.
pub fn bodies_keep_range()
    ensures { EachKeepsRange }
{}

/// A netlist that is in range and connected has all that the laws of simulation ask.
pub fn connected_is_elaborated()
    ensures { EachIsElaborated }
{}

/// Drivers at the start, idle ports and resolution have values of their nets' types, where a
/// netlist is in range and connected.
pub fn sources_keep_range()
    ensures { EachSourceKeepsRange }
{}

/// Whatever a netlist in range and connected settles in, accepted or not, has values of the nets'
/// types where the stimulus has.
pub fn states_are_in_range()
    ensures { EachStateIsInRange }
{}

/// Whatever the orders, each moment of a sound netlist's simulation settles within the bound, and
/// the first within the greatest level where nothing is reset; and where no moment so far has a
/// race, in the valuation of the synchronous machine's run.
pub fn simulates_the_machine()
    ensures { EachSimulatesTheMachine }
{}

/// What is accepted is accepted in the wider language, and judged by processes there.
pub fn wide_accepts_all()
    ensures { WideAcceptsAll }
{}

/// For given inputs and registers one valuation solves a sound netlist, and no other.
pub fn has_one_solution()
    ensures { EachHasOneSolution }
{}
