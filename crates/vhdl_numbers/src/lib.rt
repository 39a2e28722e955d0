//! Vectors as numbers in two's complement: the signed part of numeric_std (IEEE 1076-2008, 16.8),
//! and what counts, indices and ranges are to a whole number that a run computes.
//!
//! Nothing here takes memory, and each call answers. Lengths are conditions on the caller.
#![tactic(auto)]

mod conversions;
mod counts;
mod kinds;
mod operations;
mod wholes;

pub use conversions::converted;
pub use counts::{natural, shifted_by};
pub use kinds::{Conversion, SignedOperator};
pub use operations::signed;
pub use wholes::{digits_of, signed_number};
