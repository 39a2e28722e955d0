//! Ranges that are declared, by their numbers, and of which integers subtypes are.

use crate::operator::IntegerType;
use vhdl_tree::Direction;

/// The range of a vector, or of a subtype of vectors or integers: its number among those that are
/// declared before it, and its direction.
#[derive(Clone, Copy)]
pub struct DeclaredRange {
    pub number: usize,
    pub direction: Direction,
}

/// Of which integers a subtype is: of a type's, or of those in the declared range of this number.
#[derive(Clone, Copy)]
pub enum IntegerBase {
    Type(IntegerType),
    Range(usize),
}
