//! What of a body hangs on static integers alone (IEEE 1076-2008, 9.3.3, 10.9, 16.2.4): choices of
//! aggregates and of case statements, and the parts of conditions.
#![tactic(auto)]

mod apart;
mod coding;
mod compared;
mod edges;
mod indexes;
mod limits;
mod number;
mod ranges;
mod spans;
mod spread;

pub use coding::Coding;
pub use compared::{Character, character_of, name_of, turned};
pub use edges::edge_test;
pub use indexes::{chosen_indexes, given_indexes};
pub use number::NumberChoices;
