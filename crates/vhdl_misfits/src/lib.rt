//! What is said of a value, an operator or a call that has a type that doesn't fit, or operands of
//! such types, of two lengths that differ, and of numbers, choices and slices that elaboration
//! refuses, by the tokens around it; and how an object is declared.
//!
//! `specs/Misfits.antt` says which row of the table is told, and `specs/Lengths.antt` what is said
//! of lengths; what they tell stands in `table` and `measure`.
#![tactic(auto)]

mod bound;
mod form;
mod measure;
mod place;
mod provided;
mod row;
mod sort;
mod table;
mod told;
mod word;

pub use bound::{
    bounds_of, is_declared, is_empty, known_object, listed_bounds, ports_of, range_at,
};
pub use measure::{Measure, measured};
pub use place::{
    begins_declaration, begins_one_of, begins_statement, behind_name, is_inside_loop, is_one_of,
};
pub use told::{Known, crowded, foreign, misfit, overlapping, strayed, uncomputed};
