//! The bodies of processes as flat code: one list of instructions with forward jumps over two
//! stacks.
//!
//! `specs/Bodies.antt` says what a body does to all that a run works with, and `specs/Codes.antt`
//! what contracts see of a `Code`.
#![tactic(auto)]

mod code;
mod compiling;
mod writer;

pub use code::{Code, codes};
