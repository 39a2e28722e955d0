//! Expected values of a simulation: which value a signal has at a time.
//!
//! `specs/Expected.antt` says what is expected, `specs/Lines.antt` which lines a file of expected
//! values has, and `specs/Differences.antt` which expectations don't hold; `specs/Telling.antt` has
//! the line that tells the first, and those of all. An `ExpectFault` names the `ExpectRule` that a
//! line breaks. Names of literals come from outside (`Literals`).
#![tactic(auto)]

mod difference;
mod expectation;
mod expected;
mod faults;
mod literals;
mod numbers;
mod reading;
mod saying;
mod telling;
mod value;
mod watching;

pub use difference::{Difference, FirstDifferences};
pub use fault_rules::ExpectRule;
pub use faults::ExpectFault;
pub use literals::Literals;
pub use saying::{push_differences, word_in};
pub use telling::push_first;
pub use watching::Expectations;
