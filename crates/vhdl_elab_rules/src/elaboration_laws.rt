//! Laws of elaboration in the words of a designer (`specs/laws`), each the contract of a function
//! that does nothing.

ghost use Rattle.vhdl_elab_rules.specs.laws.Bodies.{EachBodyIsConnected};
ghost use Rattle.vhdl_elab_rules.specs.laws.Bytes.{EachRefusalStandsInUnits};
ghost use Rattle.vhdl_elab_rules.specs.laws.Names.{EachHasNames};
ghost use Rattle.vhdl_elab_rules.specs.laws.Nets.{EachNetIsAsSaid};
ghost use Rattle.vhdl_elab_rules.specs.laws.Processes.{EachProcessFits};
ghost use Rattle.vhdl_elab_rules.specs.laws.Scopes.{EachScopeFollows};
ghost use Rattle.vhdl_elab_rules.specs.laws.Shape.{EachHasShape};
ghost use Rattle.vhdl_elab_rules.specs.laws.Signals.{EachSignalFits, EachVariableFits};
ghost use Rattle.vhdl_elab_rules.specs.laws.Sound.{EachNetIsSound, EachNetIsWithinLimits};
ghost use Rattle.vhdl_elab_rules.specs.laws.Sources.{EachSourceIsListed, EachIdlePortIsListed};
ghost use Rattle.vhdl_elab_rules.specs.laws.Wiring.{EachNetIsWired};

/// An associated port's elements are the actual's elements; every other port and signal has nets of
/// its own, each net is the own net of one element, and own nets follow each other in order of the
/// text.
pub fn nets_are_as_said()
    ensures { EachNetIsAsSaid }
{}

/// Each driver is listed once, under the net that it drives, and each idle port under its net.
pub fn sources_are_listed()
    ensures drivers { EachSourceIsListed }
    ensures idle { EachIdlePortIsListed }
{}

/// Types, starts and idle ports are there for each net and no other, and the nets that a process is
/// sensitive to rise.
pub fn lists_have_their_lengths()
    ensures { EachHasShape }
{}

/// A body that fits its instance's elements is connected to one that fits the flat netlist.
pub fn bodies_fit_the_net()
    ensures { EachBodyIsConnected }
{}

/// In a netlist of sound units each element has a net of its type, and each process is in range.
pub fn processes_fit_the_net()
    ensures { EachProcessFits }
{}

/// In a netlist of sound units idle ports hold values of their nets' types, nothing drives the
/// top's in ports, and a net with sources starts with their resolution.
pub fn nets_are_wired()
    ensures { EachNetIsWired }
{}

/// A netlist that is elaborated from sound units is in range and connected, so that the laws of
/// simulation hold of it, and it is within the limits.
pub fn nets_are_sound()
    ensures sound { EachNetIsSound }
    ensures limits { EachNetIsWithinLimits }
{}

/// Scopes stand in order of the text: the top first, and each other one in the one before it or in
/// one round that.
pub fn scopes_follow_the_text()
    ensures { EachScopeFollows }
{}

/// In a netlist of sound units each signal has as many nets as its kind has elements, of its
/// elements' type, and each variable starts with as many values.
pub fn signals_fit_the_net()
    ensures signals { EachSignalFits }
    ensures variables { EachVariableFits }
{}

/// In a netlist of named units each scope has a label, each signal and variable a name, and each
/// process a scope that is there.
pub fn parts_have_names()
    ensures { EachHasNames }
{}

/// What may be refused of units is told at one of their bytes, or at 0.
pub fn refusals_stand_in_the_units()
    ensures { EachRefusalStandsInUnits }
{}
