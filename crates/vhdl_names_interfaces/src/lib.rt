//! Interfaces of entities and components, the entities of a file by name, and the declarations of
//! an architecture (IEEE 1076-2008, 3.2, 3.3, 6.5.6, 6.8, 12.4 and 13.1), by the rules of
//! `vhdl_names_rules`: a component is the text of the entity of its name.
#![tactic(auto)]

mod alike;
mod architecture;
mod components;
mod entities;
mod interface;
mod interfaces;
mod same;
mod sights;

pub use architecture::declarations;
pub use components::component;
pub use entities::{Entities, add_entity, entity_named};
pub use interface::{EntityInterface, entity, interface_of};
pub use sights::architecture_sight;
