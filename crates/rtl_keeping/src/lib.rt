//! Keeps the variables of clocked processes by nets: a pass over the parts of a netlist.
//!
//! `rtl_variable_registers` says what it is to keep them, `rtl_kept_bodies` does it to a process,
//! and `specs/Kept.antt` says how the nets are named.
#![tactic(auto)]

mod keeping;
mod names;
mod nets;

pub use keeping::keep;
pub use rtl_kept_bodies::KeepFault;
