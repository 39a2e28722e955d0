//! The kinds of all processes of a netlist, what each is sensitive to, and which of them a driven
//! net may wake.
//!
//! `specs/KindViews.antt` says how the kinds that are kept are seen.
#![tactic(auto)]

mod asked;
mod copies;
mod driven;
mod kinds;
mod reset_branches;
mod reset_tests;
mod wakes;

pub use asked::Asked;
pub use copies::{BodyCopy, Copied, copy_of};
pub use driven::{follows_driver, inner_reset, is_driven};
pub use kinds::{is_combinational, kind_at, kinds_of, resets};
pub use reset_branches::reset_branch;
pub use reset_tests::asked_last;
pub use wakes::wakes_of;
