//! What stands where the copies end that a net is made by, as far as its process tells.
//!
//! `specs/Ends.antt` says what is seen of a net and where a walk down copies ends, and
//! `specs/Steps.antt` how a table of all nets has it; `specs/Inside.antt` says which nets don't
//! come from outside.
#![tactic(auto)]

mod inside;
mod processes;
mod sight;
mod table;
mod walks;

pub use processes::{driven_by, kind_in};
pub use sight::{End, Standing};
pub use walks::Walks;
