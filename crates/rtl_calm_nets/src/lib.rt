//! Which processes have an unsteady reset: one that may come and go within a moment. Only a reset
//! that is made inside may.
//!
//! The definitions are those of rtl_model (`simulation/Calm` and `Accepted`). Whether a net is calm
//! is searched along copies, for all nets at once: `specs/NetOrigins.antt` says where nets' values
//! come from, `specs/CalmPlaces.antt` which steps lead from net to net, and `specs/Reaching.antt`
//! what the search finds.
#![tactic(auto)]

mod drivers;
mod entries;
mod inner;
mod origins;
mod outside;
mod places;
mod resets;
mod search;
mod unsteady;

pub use inner::has_inner_reset;
pub use unsteady::unsteady_resets;
