//! The signal whose full name is nearest to one that no signal has: a letter or two differ in one
//! place, or labels are missing before the name, or the top's stands there.
//!
//! `specs/Likeness.antt` says which that is.
#![tactic(auto)]

mod likeness;
mod naming;

pub use naming::{nearest, push_nearest};
