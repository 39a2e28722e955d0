//! Bodies that run: `Exec`, what runs a process's body; and `Tree`, a body as the statements and
//! expressions of rtl_net have it. The parts of a run that other forms of bodies share stand here
//! too: vectors of nets, operators, rows, choices and assignments, also of what a `Maker` makes
//! where it is to stand.
//!
//! `specs/Runs.antt` and `specs/Running.antt` say what a run leaves, `specs/Combined.antt` what an
//! operator makes of codes, and `specs/Trees.antt` what contracts see of a `Tree`.
#![tactic(auto)]

mod assigning;
mod choosing;
mod combining;
mod evaluated;
mod exec;
mod expressions;
mod seen;
mod statements;
mod tests;
mod tree;

pub use assigning::{assign, assign_codes, assign_combined, assign_made, set};
pub use choosing::{assign_row, chosen, chosen_constant, row_start, set_row};
pub use combining::are_digits;
pub use evaluated::{Evaluated, are_same, is_chosen};
pub use exec::Exec;
pub use expressions::{gathered, operate, value};
pub use seen::{SeenValues, Valuations, seeing};
pub use tests::{is_edge, logical, nine};
pub use tree::{Tree, trees};
