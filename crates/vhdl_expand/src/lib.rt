//! The tree of a design's instances: its processes, the concurrent statements of architectures,
//! their generates and their instances, from the top on (IEEE 1076-2008, clause 11, 10.10, 14.2 to
//! 14.5). What a body would cost unrolled is counted before it is.
#![tactic(auto)]

mod costs;
mod expansion;
mod laws;
mod nets;
mod prefix;
mod processes;
mod progress;
mod settings;
mod spot;
mod walk;

pub use costs::charge_body;
pub use expansion::expand;
pub use laws::bodies_are_counted_as_unrolled;
pub use nets::charge_own_nets;
pub use processes::process;
pub use vhdl_expand_rules::{ElabFault, ElabProblem};
