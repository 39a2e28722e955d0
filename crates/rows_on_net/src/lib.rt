//! Rows of netlists: what its processes reach, what the checker reports of it and a second look
//! lets stand, and what the kernel does with it step by step; runs over trees and a map; and rows
//! of agendas.
//!
//! Where a netlist comes from is left to `Nets`, so that nothing here stands on sources: a crate of
//! rows opens them. What is told goes to a sink. Where memory is refused, `memory` stands in place
//! of what is told, or what is told differs from the rows.
#![tactic(auto)]

mod agendas;
mod bodies;
mod by_trees;
mod change;
mod courses;
mod nets;
mod orders;
mod pickers;
mod processes;
mod stepping;
mod texts;
mod tries;

pub use agendas::tell_agendas;
pub use by_trees::{Run, run_by_trees};
pub use nets::Nets;
pub use orders::tell_orders;
pub use processes::push_processes;
pub use tries::push_try;
