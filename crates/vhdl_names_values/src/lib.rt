//! Values that are known before a run, and types of objects (IEEE 1076-2008, 6.3, 6.4.2, 9.4), by
//! the rules of `vhdl_names_rules`: literals as they stand, constants and defaults, choices, and
//! subtype indications.
#![tactic(auto)]

mod alternatives;
mod by_type;
mod fixed;
mod integers;
mod literals;
mod objects;
mod subtypes;

pub use alternatives::{choice, choice_start, choices};
pub use by_type::{fixed_expression, fixed_value, single_expression};
pub use fixed::as_known;
pub use integers::{integer_subtype, integers_of, numbers_direction};
pub use objects::{TypeClass, class_of, object_subtype};
pub use subtypes::subtype;
