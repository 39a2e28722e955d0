//! Laws of connected bodies.

ghost use Rattle.vhdl_connect_processes.specs.BodyLaws.{EachReadsItsNets};

/// The body of a process in the flat netlist reads the nets of the elements that the expanded body
/// reads.
#[tactic(auto, using(crate::proofs::Reading::reads_connected))]
pub fn bodies_read_their_nets()
    ensures { EachReadsItsNets }
{}
