//! The literals of the enumeration that is the type of a signal, found in the tokens of its source:
//! by their positions, and by their names.
//!
//! `specs/Declarations.antt` says which these are.
#![tactic(auto)]

mod literals;

pub use literals::SourceLiterals;
