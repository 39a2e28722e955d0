//! Whether a body assigns a net on some syntactic path or on every one, and where it leaves it out:
//! what a designer looks for where a latch is found. Only what tells it of all nets of a process by
//! one walk takes memory: `assigned_on_some_path` and `omissions`.
#![tactic(auto)]

mod choosing;
mod drivers;
mod gathering;
mod laws;
mod omission;
mod parts;
mod paths;

pub use drivers::{assigned_on_some_path, omissions};
pub use laws::each_latch_has_a_place;
pub use omission::Omission;
pub use paths::covers;
