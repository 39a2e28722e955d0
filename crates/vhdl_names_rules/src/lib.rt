//! Names and types of a file (IEEE 1076-2008, clauses 3 to 13). The definitions stand in `specs`:
//! what an analysed file is (`units`), which file is well typed, one rule a line, and what follows
//! of both.
//!
//! `specs/problems` says which rule a file breaks first in order of its text, by the problem that
//! the rule bears, and at which byte: what a fault of names tells.
#![tactic(auto)]

mod fault;
mod kind;
mod literal;
mod operator;
mod range;
pub mod rule_laws;

pub use fault::{NameFault, NameProblem, without};
pub use kind::{ElementKind, Function, ObjectType};
pub use literal::nine_of;
pub use operator::{Arithmetic, Bound, IntegerType, Numeric, VectorOperator};
pub use range::{DeclaredRange, IntegerBase};
