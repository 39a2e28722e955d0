//! The levels of rows that feed each other, or a loop among them, over plain tables: of processes,
//! each of which counts as a level, or of nets and hubs.
//!
//! `specs/Feeding.antt` has tables, `specs/Levels.antt` levels, `specs/Rounds.antt` loops and how
//! one is listed, and `specs/Orders.antt` what `order_of` answers. `specs/Finding.antt` and
//! `specs/Lowest.antt` have the words of its parts.
#![tactic(auto)]

mod counting;
mod finding;
mod highest;
mod laws;
mod order;
mod rounds;
mod table;

pub use counting::Counting;
pub use highest::{Highest, highest_of};
pub use laws::tables_are_of_nets;
pub use order::{LevelOrder, Levels, order_by, order_of};
pub use table::Row;
