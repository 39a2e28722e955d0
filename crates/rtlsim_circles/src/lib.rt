//! Circles of processes and of nets, and the path from a process down to level 1, as texts.
//!
//! `specs/Circles.antt` says how circles are told, `specs/Splits.antt` which process of one can be
//! split, and `specs/Paths.antt` how a path is told.
#![tactic(auto)]

mod looking;
mod nets;
mod path;
mod processes;
mod splitting;

pub use nets::{circle_text, nets_round};
pub use path::path_text;
pub use processes::{first_or, link_net, name_of_net};
pub use splitting::{Split, split_of};
