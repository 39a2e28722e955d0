//! Why tokens are no file, and what is told of a token with which no file goes on.
//!
//! `specs/Stuck.antt` says where tokens go wrong, `specs/Expected.antt` what may be told of that,
//! and `specs/Near.antt` which words are nearly the same.
#![tactic(auto)]

mod expected;
mod fault;
mod near;

pub use expected::{Expected, Said};
pub use fault::SyntaxFault;
pub use near::{behind, is_near};
