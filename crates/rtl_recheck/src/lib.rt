//! Whether a report stands: that a netlist is accepted, and that this is the report on it; without
//! memory, where it is judged by processes.
//!
//! The definitions are those of rtl_model's `simulation/Accepted` and `Report`; `specs/Kept.antt`
//! says what is asked of each process.
#![tactic(auto)]

mod clocked;
mod rechecking;
mod rules;
mod same;
mod sources;
mod variables;

pub use rechecking::{recheck, recheck_by_nets};
