//! Nets that stand together: groups of nets that the same processes are listed for (`Groups`), and
//! the runs of a process's drivers whose nets stand one behind the other in such a group (`Cuts`).
//! Who goes over them handles vectors at once. And marks of those that may have changed
//! (`Touched`), so that who comes behind needn't look at the others. And runs of values, which are
//! compared and written so many at a time.
#![tactic(auto)]

mod beginnings;
mod comparing;
mod cuts;
mod groups;
mod listed;
mod lists;
mod runs;
mod search;
mod slices;
mod touched;

pub use comparing::{are_different, are_other};
pub use cuts::{Cut, Cuts};
pub use groups::Groups;
pub use lists::Lists;
pub use search::next_marked;
pub use slices::replace;
pub use touched::{PLACES, Touched};
