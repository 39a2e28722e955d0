//! The types of expressions and of the elements of aggregates (IEEE 1076-2008, clause 9), by the
//! rules of `vhdl_names_rules`.
#![tactic(auto)]

mod elements;
mod expressions;
mod name;

pub use elements::typed_choice;
pub use expressions::{as_integer, start, static_integer, typed};
pub use name::{bounds, name_of, named, typed_each, typed_suffix, wider_range};
