//! The analysis of a file (IEEE 1076-2008, clauses 3, 11 and 13, and 10.1 for the labels inside a
//! process), by the rules of `vhdl_names_rules`: its entities and architectures in order of the
//! text, their concurrent statements, and the units that they are.
#![tactic(auto)]

mod architectures;
mod bodies;
mod entities;
mod faults;
mod mentions;
mod outline;
mod process_labels;
mod processes;
mod schemes;
mod statements;
mod tables;
mod units;

pub use process_labels::statement_labels_are_distinct;
pub use processes::process;
pub use schemes::scheme;
pub use statements::concurrents;
pub use units::{analyse, analyse_in};
pub use vhdl_names_rules::{NameFault, NameProblem};
