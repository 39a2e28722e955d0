//! Integers that a run computes, as vectors in two's complement (IEEE 1076-2008, 5.2.3, 9.2;
//! numeric_std, 16.8), and slices between bounds of such (8.5).
#![tactic(auto)]

mod bounded;
mod linear;
mod measured;
mod number;
mod operations;
mod relations;
mod rows;
mod span;

pub use bounded::Number;
pub use measured::Measured;
pub use operations::operation;
pub use relations::{compared_to, compared_with, relation};
pub use rows::{Row, listed};
pub use span::{INTEGERS, Limits, Span};
