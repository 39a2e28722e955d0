//! The semantics of a flat netlist: what its bodies do, how it is simulated, when it is accepted,
//! and the laws that tie an accepted netlist's simulation to the synchronous machine. Definitions
//! alone stand here, with the laws over them, each the contract of a function that does nothing.
#![tactic(auto)]

pub mod body_laws;
pub mod net_laws;
pub mod simulation_laws;
