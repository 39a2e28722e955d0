//! Which variable elements a body stores: all of them by one walk over it.
//!
//! The definitions are those of rtl_model (`bodies/Stored`, `Assigns`). `specs/Walks.antt` says
//! what a walk over a part of a body makes of the elements' marks.
#![tactic(auto)]

mod marks;
mod stored;
mod walk;

pub use stored::stored_elements;
