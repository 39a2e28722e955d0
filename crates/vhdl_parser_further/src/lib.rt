//! Which fault of grammar follows another in a source: the statement or declaration in which the
//! fault stands is taken out of the tokens, or all up to the next unit, and what is left is read
//! once more.
//!
//! `specs/Left.antt` says what is left, by the units of `specs/Units.antt` and the statements of
//! `specs/Statements.antt`, and `specs/Refusals.antt` what is found there.
#![tactic(auto)]

mod kind;
mod next;
mod place;
mod sequel;
mod statement;
mod unit;
mod without;

pub use next::{Next, next_fault};
