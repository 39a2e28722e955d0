//! What names are, with what stands behind them (IEEE 1076-2008, clause 8), by the rules of
//! `vhdl_names_rules`: parts of objects, conversions and calls, attributes, ranges by name; and
//! which expressions are locally static (9.4.2).
#![tactic(auto)]

mod edges;
mod local;
mod names;
mod parts;
mod ranges;

pub use edges::is_static_part;
pub use local::{is_local, subtype_is_local};
pub use names::{attribute_start, attributed, denoted, is_event};
pub use parts::{any_part_of, part_of, two_arguments};
pub use ranges::{is_of_range, named_range, range_attribute, sized_by, sized_range};
