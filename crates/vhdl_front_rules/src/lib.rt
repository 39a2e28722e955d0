//! The netlist of a source, told apart from the code that finds it: which one it is, why there is
//! none, and `Front`, which is what a caller asks of the code, by `Asked`.
//!
//! `specs/Sources.antt` says which tree a source has, `specs/Designs.antt` which design and which
//! netlist, and `specs/Refusals.antt` why a source is refused.
#![tactic(auto)]

mod asked;
mod fault;
mod front;

pub use asked::Asked;
pub use fault::SourceFault;
pub use front::Front;
