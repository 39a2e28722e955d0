//! Why a process is neither clocked nor combinational: what a designer looks for where the checker
//! says so.
//!
//! `specs/Reasons.antt` defines each reason in a line or two, and their order; `src/words.rt` has
//! what is said of each.
#![tactic(auto)]

mod beside;
mod body;
mod edges;
mod ifs;
mod laws;
mod nets;
mod reads;
mod reason;
mod resets;
mod unsteady;
mod words;

pub use body::reason_of;
pub use laws::each_mixed_has_a_reason;
pub use reason::{Reason, ReasonKind};
pub use words::Note;
