//! Expanded expressions with their lengths, and the aggregates made of them (IEEE 1076-2008, clause
//! 9).
#![tactic(auto)]

mod copies;
mod indexes;
mod known;
mod operand;
mod placed;
mod row;
mod selected;
mod sequence;

pub use indexes::{Indexes, are_free, range_serves, serve};
pub use operand::{Chain, Operand, Width, numeric, operator};
pub use placed::{Placed, composed};
pub use row::Element;
pub use selected::Selected;
pub use sequence::{add, both};
