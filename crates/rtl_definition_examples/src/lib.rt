//! Small bodies, netlists, trees and designs on which the definitions of `rtl_model`,
//! `rtlsim_listing`, `vhdl_names_rules` and `vhdl_elab_rules` are tried: what they compute and what
//! is printed of it, which files and designs are accepted, with their units or their netlist, and
//! which are refused, that the premises of laws can be met, and that wrong definitions would
//! differ. Each example is the contract of a function that does nothing.
#![tactic(auto)]

pub mod body_examples;
pub mod design_examples;
pub mod listing_examples;
pub mod rule_examples;
pub mod simulation_examples;
