//! The lowest wanted net that each net's driver looks at.
//!
//! `specs/Lowest.antt` defines the lowest of some nets, and `specs/Drivers.antt` what a net's
//! driver looks at.
#![tactic(auto)]

mod behind;
mod lowest;
mod seen;

pub use seen::seen_nets;
