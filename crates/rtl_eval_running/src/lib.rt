//! Instructions, and the run of a list of them over two stacks.
//!
//! `specs/Instructions.antt` says what each instruction does, `specs/Ends.antt` how a list of them
//! runs.
#![tactic(auto)]

mod giving;
mod instruction;
mod judging;
mod reckoning;
mod running;
mod summing;

pub use instruction::{
    Change, Given, Instruction, Judgement, Question, Reckoning, Run, Source, Target,
};
pub use running::run;
