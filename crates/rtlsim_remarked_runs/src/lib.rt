//! Runs with a remark on the first integer that is lost in them.
//!
//! `specs/Remarking.antt` says what such a run answers.
#![tactic(auto)]

mod answering;
mod running;

pub use answering::Remarked;
pub use running::RemarkedRun;
