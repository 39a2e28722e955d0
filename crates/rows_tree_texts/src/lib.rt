//! Trees as texts: the source with the byte of each part whose place the tree keeps, as `y@31`, and
//! with braces round the operands of each chain of operators. Operators, signs, directions, modes
//! and tokens that are dropped stand by their names in the tree.
#![tactic(auto)]

mod concurrent;
mod declarations;
mod expressions;
mod kinds;
mod sequential;
mod units;
mod words;

pub use kinds::kind_name;
pub use units::push_file;
