//! Signals of a netlist by their full names: the labels that lead to a signal from the top, and its
//! own name, joined by dots.
//!
//! `specs/Names.antt` says what a full name is and which signal a name is of, `specs/Chosen.antt`
//! which signals names choose: a signal, or all below an instance.
#![tactic(auto)]

mod chosen;
mod naming;

pub use chosen::{choose, chosen_shown};
pub use naming::{SignalTable, full_name, push_name, signal_named, table_of};
