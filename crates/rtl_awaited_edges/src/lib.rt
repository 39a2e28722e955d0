//! Clocked processes that act at an edge alone: of each process the edge without which it assigns
//! nothing (`edges_of`), and whether that edge is there (`is_asleep`), looked at once for all
//! processes that await it: for the first edge that one awaits (`first_awaited`), or for one edge
//! after the other (`leaders_of`, `look_at`). Who runs processes needn't run one that is asleep.
//!
//! `specs/Awaiting.antt` says what the edges are; that a process that is asleep assigns nothing is
//! a law (`specs/Laws.antt`).
#![tactic(auto)]

mod awaited;
pub mod laws;

pub use awaited::{ClockEdge, Look, edges_of, first_awaited, is_asleep, leaders_of, look_at};
