//! The processes of registers, with nets in place of their variables.
//!
//! `rtl_variable_registers` says what that is; `specs/Rules.antt` says what `keep` has room for,
//! and what of a process stays as it was.
#![tactic(auto)]

mod constants;
mod drivers;
mod edge;
mod forms;
mod keeping;
mod kept;
mod marks;
mod registers;
mod reset;
mod sets;
mod values;

pub use keeping::{KeepFault, keep};
