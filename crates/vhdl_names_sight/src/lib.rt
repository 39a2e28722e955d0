//! Which declarations are in sight of a place, and what a name means there (IEEE 1076-2008, clause
//! 12), by the rules of `vhdl_names_rules`.
#![tactic(auto)]

mod meaning;
mod sight;

pub use meaning::{Declared, Entry, Meaning, copied_values};
pub use sight::{Region, Sight, declaration_of, meaning_of, names_are_apart};
