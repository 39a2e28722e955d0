//! Remarks on a stimulus of a netlist: inputs of the top that none of its lines drives.
//!
//! `specs/Naming.antt` defines them.
#![tactic(auto)]

mod listing;
mod names;
mod parts;
mod ports;

pub use listing::stimulus_remarks;
