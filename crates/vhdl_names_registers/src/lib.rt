//! Registers as they are written (IEEE 1076-2008, 9.2.2, 10.2, 10.8): units in which an edge stands
//! beside other conditions, or in several ifs, are made those that the checker knows. The
//! definitions stand in `vhdl_names_rules` (`specs/Edges`, `specs/Registers`).
#![tactic(auto)]

mod conditions;
mod gates;
mod ifs;
pub mod register_laws;
mod registers;
mod same;
mod seen;
mod units;

pub use conditions::{Edge, waited_edge};
pub use ifs::alone_at;
pub use units::written;
