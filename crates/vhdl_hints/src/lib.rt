//! What the tokens around a fault of a source tell of it, beside what is said of its rule: which
//! ports an entity has that has no such one, which port an instance leaves open, which name an end
//! has to have, whether choices are of an enumeration, which bounds an index is outside of, of
//! which port an actual has another length or type, where a name is declared, what is assigned, and
//! which word may be meant.
//!
//! `specs/Hints.antt` says which hint there is at a byte, and `specs/Sayings.antt` how it is told.
#![tactic(auto)]

mod end_name;
mod form;
mod hint;
mod misplaced;
mod part;
mod saying;
mod word;

pub use hint::{Hint, hint_at};
pub use saying::{help, push_hint};
