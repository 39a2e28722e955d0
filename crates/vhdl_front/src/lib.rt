//! The netlist of a source: from its bytes and its top to the elaborated netlist (IEEE
//! 1076-2008, 13.5 and clause 14).
//!
//! The specs of vhdl_front_rules say which tree, design and netlist a source has, and why it is
//! refused; `specs/Laws.antt` says that it has one design at most for a top.
#![tactic(auto)]

mod laws;
mod opening;

pub use laws::{
    a_source_has_one_design, nets_of_sources_have_own_ports, refusals_lie_in_their_sources,
    refused_sources_have_no_design,
};
pub use opening::{Vhdl, open};
pub use vhdl_front_rules::{Asked, SourceFault};
