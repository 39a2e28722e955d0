//! Expansion of bodies: what the statements of an analysed process become (IEEE 1076-2008, clause
//! 10).
#![tactic(auto)]

mod assignments;
mod cases;
mod statements;

pub use cases::spread_turns;
pub use statements::body;
