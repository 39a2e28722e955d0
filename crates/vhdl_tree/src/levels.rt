//! How many levels may be open.

/// How many parentheses, if and case statements, loops and generates may be open at once.
pub const MAX_OPEN: usize = 64;
