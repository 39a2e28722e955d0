//! What the lexer makes of a text, in words.

use crate::fault::push_fault;
use crate::source::source_of;
use rows_calls::Text;
use rows_tree_texts::kind_name;
use std::alloc::Global;
use vhdl_lexer::{Token, integer_value, lex};

/// Adds the tokens of a source, or its fault.
pub fn push_tokens(found: &mut Text, alloc: Global, written: &str) {
    let source = source_of(alloc, written);
    found.heed(&source);
    match lex(alloc, source.as_bytes()) {
        Ok(tokens) => push_listed(found, &tokens),
        Err(fault) => push_fault(found, fault.number(), fault.byte(), &fault),
    }
}

/// Adds tokens by kind, first byte and the byte behind the last.
fn push_listed(found: &mut Text, tokens: &[Token]) {
    if tokens.is_empty() {
        found.push("no token");
    }
    let mut between: &[u8] = b"";
    for token in tokens {
        found.push_bytes(between);
        found.push(kind_name(token.kind));
        found.push(" ");
        found.push_number(token.start as usize);
        found.push("..");
        found.push_number(token.end as usize);
        between = b", ";
    }
}

/// Adds the number that the text of an integer writes.
pub fn push_integer(found: &mut Text, text: &str) {
    match integer_value(text.as_bytes()) {
        Some(number) => found.push_number(number as usize),
        None => found.push("no number that is read"),
    }
}
