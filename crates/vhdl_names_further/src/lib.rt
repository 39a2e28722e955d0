//! The faults of names and types of a source behind its first: what is taken out of the source with
//! a fault, so that the next one shows, and which of those are left out, since they may follow from
//! what was taken out.
//!
//! `specs/Taken.antt` says what is taken out, and `specs/Known.antt` which faults may follow from
//! it.
#![tactic(auto)]

mod blanking;
mod knowing;
mod naming;
mod taking;

pub use knowing::is_known;
pub use taking::take_out;
