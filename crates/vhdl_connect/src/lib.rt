//! The nets of an instance's elements, what an instance drives and reads of them, and what they
//! start with (IEEE 1076-2008, 14.2, 14.7.2, 14.7.3).
#![tactic(auto)]

mod laws;
mod nets;
mod sources;
mod uses;

pub use laws::nets_start_as_held;
pub use nets::{defaults_of, element_nets};
pub use sources::{held, starts};
pub use uses::{Sources, Use, uses_in};
