//! The simulation cycle (IEEE 1076-2008, 14.7.5).
#![tactic(auto)]

mod both;
mod cutting;
mod drivers;
mod kernel;
mod nets;
mod pick;
mod resolution;
mod resumed;
mod starts;
mod update;
mod values;
mod wakes;
mod worklist;

pub use cutting::target_lists;
pub use kernel::{Kernel, NoSettling};
pub use pick::{Forward, Pick, Reverse};
pub use starts::{fresh_outcomes, starting_codes, variable_starts};
