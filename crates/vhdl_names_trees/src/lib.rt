//! What expressions are once they are analysed (IEEE 1076-2008, clause 9): static integers and
//! truths, elements and vectors, integers that a run computes, tests, and values with their types.
//!
//! `specs/views` says what contracts see of each: an expression of `vhdl_names_rules`.
#![tactic(auto)]

mod chains;
mod integer;
mod test;
mod typed;
mod vector;

pub use integer::{
    Index, IntegerSubtype, Static, StaticLink, StaticRange, StaticStart, TargetRange,
};
pub use test::{StaticTest, StaticTestLink, StaticTestStart, Test, TestLink, TestStart};
pub use typed::{Typed, TypedChoice, TypedElement, TypedSuffix};
pub use vector::{
    AnyPart, Chosen, Computed, ComputedLink, ComputedStart, Part, Signal, SignalPart, Value,
    Vector, VectorElement, VectorLink, VectorStart,
};
