//! Expansion of bodies: what the expressions of an analysed process become, and what assignments
//! give (IEEE 1076-2008, clauses 8 and 9).
//!
//! Names are elements of the ports and signals of their instance, or of the process's variables,
//! also where the flat netlist has nets and places of drivers: these are put in their stead when
//! the instances are connected.
#![tactic(auto)]

mod aggregates;
mod assigned;
mod computed;
mod conditions;
mod constant;
mod layout;
mod numbers;
mod site;
mod values;
mod vectors;

pub use constant::Constant;
pub use layout::Layout;
pub use site::{Placed, Site, elements};
pub use values::elements_of;
