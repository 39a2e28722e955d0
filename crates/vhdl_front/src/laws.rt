//! Laws of sources (`specs/Laws`), each the contract of a function that does nothing.

ghost use Rattle.vhdl_front.specs.Laws.{EachSourceHasOneDesign, EachSourceHasOneNet, EachRefusedHasNone, EachNetHasOwnPorts, EachRefusalLiesInItsSource};

/// A source has one design at most under a top, and its netlists show the same.
pub fn a_source_has_one_design()
    ensures design { EachSourceHasOneDesign }
    ensures net { EachSourceHasOneNet }
{}

/// A source that the parser, the rules of names or elaboration refuse has no design.
pub fn refused_sources_have_no_design()
    ensures { EachRefusedHasNone }
{}

/// In the netlist of a source the ports of the top have names of their own, and the elements of its
/// in ports are the inputs.
pub fn nets_of_sources_have_own_ports()
    ensures { EachNetHasOwnPorts }
{}

/// What elaboration refuses of a source is told at a byte of the source, and of an empty one at its
/// end.
pub fn refusals_lie_in_their_sources()
    ensures { EachRefusalLiesInItsSource }
{}
