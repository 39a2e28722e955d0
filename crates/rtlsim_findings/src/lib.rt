//! What is told of the checker's faults and of remarks, as data: a finding for all faults of one
//! cause, with its sentence, its nets as ranges, the other instances that have it and the note
//! beside it.
//!
//! `specs/Causes.antt` says which faults are told together, `specs/Findings.antt` which findings
//! there are, and `specs/Sayings.antt` what each says; `specs/Remarked.antt` the same of remarks.
//! `specs/Ranges.antt` tells elements of a vector as a range.
#![tactic(auto)]

mod cause;
mod finding;
mod mixed;
mod naming;
mod omitted;
mod ranges;
mod remarked;
mod saying;

pub use cause::{Cause, Obstacle, at_process, first_process};
pub use finding::{Finding, findings};
pub use naming::{all_ranges_of, culprits, ranges_of};
pub use ranges::{follows, push_range};
pub use remarked::{RemarkFinding, remark_findings, remark_message, remark_process, remark_report};
pub use saying::{also, message, note_at, note_text, processes, words_in};
