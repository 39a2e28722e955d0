//! Integers that a run may compute (IEEE 1076-2008, 9.2, 9.3.4, 8.4, 8.5; numeric_std, 16.8), by
//! the rules of `vhdl_names_rules`, and which values name no signal and no variable (9.4).
#![tactic(auto)]

mod calls;
mod integer;
mod known;
mod parts;
mod relations;

pub use calls::{count_of, encoded, number_of};
pub use integer::{Integer, absolute, as_integers, signed};
pub use known::{are_known, is_known};
pub use parts::{chosen, sliced};
pub use relations::{compared_to, compared_with, integers_compared};
