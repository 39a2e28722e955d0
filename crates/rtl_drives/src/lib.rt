//! What a run of a process's body leaves: `Drives`.
//!
//! `specs/Outcomes.antt` says what contracts see of it, `specs/Spans.antt` and `specs/Listed.antt`
//! how places that have an entry are listed.
#![tactic(auto)]

mod drives;
mod making;
mod marks;
mod spans;

pub use drives::Drives;
pub use making::Maker;
pub use spans::Span;
