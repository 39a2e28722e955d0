//! What context clauses bring in sight of the packages (IEEE 1076-2008, 12.4, 13.4, 16.3, 16.7 and
//! 16.8), by the rules of `vhdl_names_rules`.
#![tactic(auto)]

mod context;
mod packages;

pub use context::{Context, context_after};
pub use packages::{sight_of, visible};
