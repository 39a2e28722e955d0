//! Remarks on a netlist: what a designer may not have meant, and the checker's verdict doesn't
//! tell.
//!
//! `specs/Remarks.antt` defines each in a line or two, and their order.
#![tactic(auto)]

mod assigned;
mod branches;
mod clocks;
mod failing;
mod known;
mod listing;
mod lists;
mod logic;
mod nets;
mod processes;
mod ranges;
mod readers;
mod registers;
mod remark;
mod resets;
mod signals;
mod undefined;

pub use clocks::clocks_of;
pub use listing::remarks;
pub use lists::is_chosen;
pub use remark::{Remark, RemarkKind};
pub use resets::targets_of;
