//! How instances are analysed (IEEE 1076-2008, 6.5.7 and 11.7), by the rules of `vhdl_names_rules`:
//! which entity each is of, which formal each association is for, and what is associated.
#![tactic(auto)]

mod actuals;
mod associations;
mod generics;
mod instances;
mod maps;
mod tables;

pub use actuals::PortType;
pub use associations::{Names, add_name};
pub use instances::{Formals, InstanceEntities, instance, instance_in_turn};
pub use tables::formals_of;
