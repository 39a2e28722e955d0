//! The values of VHDL's standard logic and their arithmetic: `Nine`, one of the nine values of
//! package std_logic_1164, with its operators, resolution and edges, and `Vec9`, a vector of 1 to
//! 64 of them, with the operators of std_logic_1164 on vectors and those of the unsigned part of
//! numeric_std (IEEE 1076-2008, 16.7 and 16.8).
//!
//! Nothing here takes memory, and each call answers. Lengths and places are conditions on the
//! caller.
#![tactic(auto)]

mod edges;
mod kinds;
mod planes;
mod resolution;
mod scalar;
mod spreads;
mod stripped;
mod transposed;
mod vector;
mod words;

pub use edges::edge;
pub use kinds::{Cmp, Counted, Edge, Logic, Shift};
pub use resolution::resolve;
pub use scalar::Nine;
pub use vector::Vec9;
