//! Elaboration of a design: from the units of a file and its top to the parts of its netlist (IEEE
//! 1076-2008, clause 14).
//!
//! `connect` makes the flat netlist of the tree of a design's instances: `number` takes the tree
//! apart into the tables of the netlist, `wire` gives these their inputs, sources, idle ports and
//! starts (IEEE 1076-2008, 6.4.2.3, 14.7.2, 14.7.3).
#![tactic(auto)]

mod connection;
mod elaboration;
mod made;
mod nets;
mod objects;
mod place;
mod settled;
mod tables;
mod walk;
mod wires;
mod wiring;

pub use connection::connect;
pub use elaboration::elaborate;
pub use made::{Element, Made};
pub use place::InstancePlace;
pub use vhdl_expand_rules::{ElabFault, ElabProblem};
pub use walk::number;
pub use wiring::wire;
