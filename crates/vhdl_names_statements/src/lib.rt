//! How sequential statements and concurrent assignments are analysed (IEEE 1076-2008, clause 10 and
//! 11.6), by the rules of `vhdl_names_rules`: each is what the rules give, or is refused where they
//! give nothing.
#![tactic(auto)]

mod assignments;
mod choices;
mod conditional;
mod selecting;
mod statements;

pub use assignments::{assignment, selected};
pub use statements::analysed;
