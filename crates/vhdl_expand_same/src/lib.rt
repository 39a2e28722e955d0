//! Whether two expanded expressions are the same, part for part: bounds of a slice that a run
//! chooses are sums, in which the terms of one expression are joined (IEEE 1076-2008, 8.5).
#![tactic(auto)]

mod same;
mod same_parts;

pub use same::same_expr;
