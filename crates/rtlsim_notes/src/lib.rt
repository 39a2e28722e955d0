//! The notes of a finding: each place of the source, beside the finding's own, that a designer has
//! to see, with what is said there.
//!
//! `specs/Notes.antt` says which notes a finding has, `specs/Sayings.antt` what they say, and
//! `specs/Scopes.antt` what a net is called in a scope.
#![tactic(auto)]

mod circles;
mod connections;
mod listing;
mod lists;
mod loops;
mod noted;
mod sayings;
mod scopes;

pub use listing::notes;
pub use noted::Note;
