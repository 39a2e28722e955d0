//! The rules of each layer with what is said of them, and reports: what a fault tells, as data.
//!
//! The texts stand once, in a table for each layer, those of a source in `source`;
//! `specs/Rules.antt` says which row is that of a rule.
#![tactic(auto)]

mod checking;
mod expecting;
mod remarking;
mod report;
mod settling;
mod source;
mod stimuli;
mod words;

pub use checking::CheckRule;
pub use expecting::ExpectRule;
pub use remarking::RemarkRule;
pub use report::{Place, Report, Rule, Subject};
pub use settling::RunRule;
pub use source::{ElabRule, LexRule, NameRule, SyntaxRule};
pub use stimuli::StimRule;
pub use words::Words;
