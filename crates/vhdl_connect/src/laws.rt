//! Laws of what nets start with.

ghost use Rattle.vhdl_connect.specs.Laws.{EachNetStartsAsHeld};

/// A net starts with the resolution of what its drivers and idle ports hold, and one without any
/// with its default.
#[tactic(auto, using(crate::proofs::Sourced::nets_start))]
pub fn nets_start_as_held()
    ensures { EachNetStartsAsHeld }
{}
