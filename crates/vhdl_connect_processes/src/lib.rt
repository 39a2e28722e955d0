//! Processes of the flat netlist of a design: their bodies with nets and drivers in place of
//! elements, and the nets that they are sensitive to (IEEE 1076-2008, 14.2, 14.7.2, 14.7.3).
#![tactic(auto)]

mod body_laws;
mod conditions;
mod connection;
mod drivers;
mod expressions;
mod kind;
mod process;
mod statements;
mod woken;

pub use body_laws::bodies_read_their_nets;
pub use connection::Connection;
pub use kind::signal_kind;
pub use process::{Round, net_at};
pub use woken::wakes;
