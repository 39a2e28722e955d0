//! What the checker asks of the bodies of processes: whether one is clocked or combinational,
//! whether an edge test or `'event` stands in it, which nets it assigns on every syntactic path,
//! and whether it stores a variable element.
//!
//! The definitions are those of rtl_model (`bodies/Kinds`, `Reads`, `Assigns`, `Stored`);
//! `specs/Looks.antt` has them of the parts of bodies that stand in lists.
#![tactic(auto)]

mod assigned;
mod constants;
mod kinds;
mod numbers;
mod paths;
mod rising;
mod search;
mod stores;

pub use kinds::{Clocking, ProcessKind, clocking_of, kind_of};
pub use paths::{assigned_nets, target_nets};
pub use rising::{contains_rising, order_once, sort_once};
pub use search::body_has_event;
pub use stores::body_stores;
