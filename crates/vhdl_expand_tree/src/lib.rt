//! The tree of a design's instances, in which every static value is computed, as it stands between
//! expansion and connection; and `Budget`, what is left of the limits while it is made (IEEE
//! 1076-2008, 14.2 to 14.5).
//!
//! `specs/Views.antt` says how the tree is seen, `specs/Costs.antt` what its parts cost, and
//! `specs/Counts.antt` that a whole design counts what its parts cost.
#![tactic(auto)]

mod budget;
pub mod count_laws;
mod tree;

pub use budget::Budget;
pub use tree::{Design, Instance, InstancePart, Object, Process, Role, Sensitivity, Variable};
