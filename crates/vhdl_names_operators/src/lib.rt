//! Operators on typed operands, and literals (IEEE 1076-2008, clause 9), by the rules of
//! `vhdl_names_rules`.
#![tactic(auto)]

mod aggregates;
mod beside;
mod equality;
mod literals;
mod numbers;
mod operands;
mod operators;

pub use aggregates::{aggregate, arranged, is_named};
pub use literals::{bit_string_values, string_values};
pub use operands::{
    bit_string_literal, character_literal, enclosed, in_parentheses, integer_literal,
    string_literal,
};
pub use operators::{inverse, operated, power};
