//! Faults of the lexer and the parser, in words.

use rows_calls::Text;
use std::fmt::Display;

/// Adds a fault by number, byte and text.
pub fn push_fault(found: &mut Text, number: u8, byte: Option<usize>, fault: &impl Display) {
    found.push("fault ");
    found.push_number(usize::from(number));
    if let Some(at) = byte {
        found.push(" at ");
        found.push_number(at);
    }
    found.push(": ");
    found.push_shown(fault);
}
