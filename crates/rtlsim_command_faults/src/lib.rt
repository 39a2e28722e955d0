//! The faults of the commands, and how they are told: their lines, what stands below them, and the
//! status with which the program ends; what is told of the faults of a source behind its first; and
//! the object of a source that is refused.
//!
//! `specs/Faults.antt` says what a layer's fault is to a caller, `specs/Reports.antt` what it
//! reports, `specs/Lines.antt` and `specs/Explanations.antt` what is told of it, and
//! `specs/Told.antt` how that goes out; `specs/Changing.antt` how the nets are told that still
//! change; `specs/Behind.antt` which faults follow, and what is told of them (`specs/Grammar.antt`
//! of grammar, `specs/Further.antt` of names), and `specs/Refusal.antt` of which faults the object
//! is.
#![tactic(auto)]

mod changing;
mod comparing;
mod describing;
mod expecting;
mod explaining;
mod faults;
mod further;
mod lines;
mod next;
mod reports;
mod search;
mod status;
mod syntax;
mod telling;

pub use changing::tell_changing;
pub use describing::describe_refusal;
pub use faults::Fault;
pub use further::push_further_faults;
pub use lines::{push_memory, tell_fault, tell_levels, tell_source_fault, tell_summary};
pub use status::Status;
pub use telling::Telling;
