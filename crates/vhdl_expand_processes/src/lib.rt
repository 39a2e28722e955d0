//! Processes: what an analysed process drives, reads and is sensitive to, and its variables (IEEE
//! 1076-2008, 11.3, 14.7.2). Its statements are expanded by vhdl_expand_bodies.
#![tactic(auto)]

mod bodies;
mod elements;
mod fixed_values;
mod name;
mod names;
mod reads;
mod variables;

pub use bodies::{names_in, targets_of};
pub use elements::{drives, listed, read_elements};
pub use fixed_values::{as_long, fixed};
pub use name::Name;
pub use reads::read_of;
pub use variables::{kind, starts};
