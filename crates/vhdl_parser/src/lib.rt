//! From tokens to the syntax tree of a file: context clauses, generics and ports, declarations,
//! concurrent statements and units.
#![tactic(auto)]

mod concurrent;
mod context;
mod file;
mod instances;
mod unit;

pub use context::context_clause;
pub use file::{parse, parse_in};
pub use instances::instance;
