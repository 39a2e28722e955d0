//! Elaboration of a design: from the units of a file and its top to its flat netlist
//! (IEEE 1076-2008, clause 14). The definitions stand in `specs`.
//!
//! Laws tell what a `Net` shows of an elaborated netlist, with its names, and of the ports of its
//! top, as a stimulus speaks of them: `specs/Shown.antt` says what it is to show a netlist;
//! `specs/Nets.antt`, `specs/Named.antt`, `specs/Prefixes.antt` and `specs/Ports.antt` have the
//! laws. `specs/Refused.antt` says with which problem units may be refused.
#![tactic(auto)]

pub mod elaboration_laws;
pub mod net_laws;
pub mod port_laws;
