//! From tokens to generics, ports and declarations.
#![tactic(auto)]

mod declaration;
mod interface;

pub use declaration::declarations;
pub use interface::{optional_generics, optional_ports};
