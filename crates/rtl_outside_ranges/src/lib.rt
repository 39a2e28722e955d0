//! Numbers that processes give to integers and that may lie outside their ranges.
//!
//! `specs/Outside.antt` says which assignments are meant.
#![tactic(auto)]

mod giving;
mod lists;
mod looked;

pub use giving::given_outside;
pub use lists::numbers_of;
