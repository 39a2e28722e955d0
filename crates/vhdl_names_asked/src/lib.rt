//! What statements and declarations ask of expressions and names (IEEE 1076-2008, clauses 8 to 10),
//! by the rules of `vhdl_names_rules`: a condition, a value for a target, a range, a signal, what a
//! case is on.
#![tactic(auto)]

mod asked;
mod conditions;
mod objects;
mod ranges;
mod selected;

pub use asked::{given, given_as, given_expression};
pub use conditions::{condition, static_condition};
pub use objects::{signal, target, unattributed};
pub use ranges::{range_start, static_range};
pub use selected::{assigned, selector};
