//! The checker: whether a netlist is accepted, by its processes or by its nets, with its report, or
//! else which faults it has.
//!
//! The definitions are those of rtl_model's `simulation/Accepted`, `Faults`, `Levels`,
//! `NetLevels` and `Report`. `specs/Views.antt` says how the code's faults are seen, and
//! `specs/Listing.antt` how lists of faults grow.
#![tactic(auto)]

mod bound;
mod breaking;
mod checking;
mod clock_edges;
mod clocks;
mod fault;
mod faults;
mod graph;
mod judging;
mod listed_clocks;
mod listing;
mod reported;
mod reporting;
mod rule;
mod rules;
mod search;
mod standing;
mod variables;

pub use breaking::is_used;
pub use checking::{Verdict, check};
pub use fault::CheckFault;
pub use judging::{Judgement, judge};
pub use listed_clocks::are_clocks;
pub use reported::is_report;
pub use reporting::{NetReport, Report};
pub use rtl_process_kinds::kind_at;
pub use standing::are_levels;
pub use variables::stored;
