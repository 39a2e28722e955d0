//! The declarations of a file as they are analysed (IEEE 1076-2008, clauses 5, 6, 12 and 13), by
//! the rules of `vhdl_names_rules`: regions in which no name is declared twice, interfaces, and
//! declarations of objects and types.
#![tactic(auto)]

mod class;
pub mod constants;
mod counts;
pub mod enumeration;
pub mod generics;
mod labels;
mod names;
pub mod objects;
pub mod ports;
pub mod process;
mod region;
pub mod subtypes;

pub use class::ObjectClass;
pub use counts::Counts;
pub use labels::{declare_if_any, declare_label, declare_labels, labels_are_distinct};
pub use region::{Settled, declare, declare_entry, declare_name, hide, settle};
