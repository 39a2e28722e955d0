//! What each driver of a process looks at, by one walk over its body: not lists of nets, which may
//! be as many as targets times statements, but hubs, which are shared.
//!
//! The definition is that of rtl_model (`bodies/Looks`). `specs/Denoting.antt` says which nets
//! stand behind a look, and `specs/Walks.antt` what a walk over a part of a body makes of its
//! targets' looks.
#![tactic(auto)]

mod changes;
mod ends;
mod env;
mod hubs;
mod looks;
mod names;
mod rows;
mod statements;
mod table;
mod tests;
mod values;

pub use hubs::{Hub, Hubs, Look};
pub use looks::driver_looks;
