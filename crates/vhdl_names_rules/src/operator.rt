//! Operators by kind, and the types of integers.

use vhdl_values::Logic;

/// An operator on static integers (IEEE 1076-2008, 9.2.5, 9.2.7, 9.2.8).
#[derive(Clone, Copy)]
pub enum Arithmetic {
    Add,
    Subtract,
    Multiply,
    Divide,
    Modulo,
    Remainder,
    Power,
}

/// A bound or the length of a range (IEEE 1076-2008, 16.2.2, 16.2.3).
#[derive(Clone, Copy)]
pub enum Bound {
    Left,
    Right,
    High,
    Low,
    Length,
}

/// An arithmetic operator of numeric_std on unsigned.
#[derive(Clone, Copy)]
pub enum Numeric {
    Add,
    Subtract,
    Multiply,
}

/// An operator on two vectors or elements (IEEE 1076-2008, 9.2).
#[derive(Clone, Copy)]
pub enum VectorOperator {
    Logical(Logic),
    Concatenate,
    Arithmetic(Numeric),
}

/// A type of integers: integer, or its subtype natural or positive (IEEE 1076-2008, 5.2.3.2).
#[derive(Clone, Copy)]
pub enum IntegerType {
    Integer,
    Natural,
    Positive,
}
