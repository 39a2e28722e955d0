//! Expansion of a design: from its units and its top to the tree of its instances, in which every
//! static value is computed, generates have become their turns, and loops are unrolled (IEEE
//! 1076-2008, clause 14). The definitions stand in `specs`.
#![tactic(auto)]

mod bounds;
mod decision;
pub mod expansion_laws;
mod fault;
mod integer;
mod kind;
mod numbers;
mod prefix;
mod range;
mod top;
mod turns;
mod words;

pub use bounds::Bounds;
pub use decision::{extent, is_null};
pub use fault::{ElabFault, ElabProblem};
pub use integer::{Integers, operated};
pub use kind::{ObjectKind, Run, is_same};
pub use numbers::Numbers;
pub use prefix::{Sought, is_static, is_static_part};
pub use range::IntegerRange;
pub use top::{Setting, Top, set_actual};
pub use turns::Turns;
pub use words::byte;
