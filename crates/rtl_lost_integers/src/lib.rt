//! Integers that are lost in a simulation: signals of an integer type that are a number at one
//! moment, and none at the next.
//!
//! `specs/Lost.antt` says what is lost, and which is the first; `specs/Told.antt` has the line that
//! tells it.
#![tactic(auto)]

mod integer;
mod telling;
mod watching;

pub use telling::lost_text;
pub use watching::{Integers, LostInteger};
