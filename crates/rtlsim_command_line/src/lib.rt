//! The words of the command line: which call they say.
//!
//! The table of `parts.rt` has what each command takes, and `specs/Words.antt` which call words say
//! by it. For words that say none clap writes the text, by the same table, which is the help where
//! that is asked for.
#![tactic(auto)]

mod call;
mod commands;
mod generics;
mod parsed;
mod parts;
mod reading;

pub use call::{Call, Order, Request};
pub use generics::Setting;
pub use reading::{Refused, parse_words};
