//! What is declared: generics, ports, signals, constants and ranges of an instance, and what a
//! process declares (IEEE 1076-2008, 6.3, 6.4.2, 6.5.6, 6.5.7, 14.3).
#![tactic(auto)]

mod actuals;
mod declarative;
mod declared;
mod entering;
mod generics;
mod inside;
mod known;
mod objects;
mod region;
mod shape;
mod variables;

pub use actuals::associations;
pub use declarative::{declarations, interface, interface_with};
pub use declared::{InstanceObjects, ProcessVariables};
pub use region::Region;
pub use variables::process_declarations;
