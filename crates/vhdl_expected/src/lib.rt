//! What was expected at a token with which no file goes on: a reserved word for a word that is
//! nearly the same, what lacks before the token, what stands in its place, a name, or nothing.
//!
//! `specs/Reading.antt` says which tokens are looked at, `specs/Changes.antt` how they are changed
//! and when they then go on, and `specs/Told.antt` in which order that is tried and what is told.
//! The words and the changes stand in `word`, `table`, `closed`, `names`, `instead` and
//! `otherwise`, with what is told of each there, in `texts` and in `help`.
#![tactic(auto)]

mod by_language;
mod change;
mod closed;
mod help;
mod instead;
mod names;
mod otherwise;
mod reading;
mod reserved;
mod respelling;
mod row;
mod table;
mod telling;
mod texts;
mod trial;
mod word;

pub use reading::MOST_TOKENS;
pub use telling::expected_at;
