//! The levels of nets that look at one another, or a loop among them; and the levels of processes
//! by those of the nets that they are sensitive to.
//!
//! The definitions are those of rtl_model's `simulation/NetLevels`. `specs/Rows.antt` says what the
//! table of a netlist's nets is, in which hubs stand for several nets each, and
//! `specs/NetOrders.antt` what is answered.
#![tactic(auto)]

mod levels;
mod order;
mod table;

pub use levels::NetLevels;
pub use order::{NetOrder, net_order_of};
