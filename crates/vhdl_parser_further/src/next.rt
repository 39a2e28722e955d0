//! The next fault of grammar of a source.

ghost use Rattle.std.specs.Prelude.{◌≡◌};
ghost use Rattle.vhdl_lexer.specs.Cut.{AreWithin};
ghost use Rattle.vhdl_parser_further.specs.Left as spec;
ghost use Rattle.vhdl_parser_further.specs.Refusals.{Finds, Refuses};

use crate::without::left;
use std::alloc::Global;
use vhdl_lexer::{Language, Token};
use vhdl_parser::parse_in;
use vhdl_parser_rules::SyntaxFault;

/// What is found behind a fault of grammar.
#[derive(Drop)]
pub enum Next {
    /// The tokens that are left have this fault, which is told at this byte, behind the one before.
    Found {
        left: Vec<Token>,
        fault: SyntaxFault,
        at: usize,
    },
    /// None.
    Nothing,
    /// Memory was refused.
    NoMemory,
}

/// Takes out what is at fault at byte `at`, and reads what is left of the tokens of the source in
/// this language. It takes the memory of one more list of tokens, and that of their tree.
pub fn next_fault(
    alloc: Global,
    language: Language,
    source: &[u8],
    tokens: &[Token],
    at: usize,
) -> Next
    requires { AreWithin source.now tokens.now }
    ensures { Finds language source.now (spec.left tokens.now at) at result }
{
    match left(alloc, tokens, at) {
        Ok(left) => read(alloc, language, source, left, at),
        Err(_refused) => Next::NoMemory,
    }
}

/// Reads what is left of the tokens.
fn read(alloc: Global, language: Language, source: &[u8], left: Vec<Token>, at: usize) -> Next
    requires { AreWithin source.now left.items }
    ensures { Finds language source.now left.items at result }
{
    match parse_in(alloc, language, source, &left) {
        Ok(_) => Next::Nothing,
        Err(fault) => match fault.byte() {
            Some(told) if at < told => Next::Found {
                left,
                fault,
                at: told,
            },
            Some(_) => Next::Nothing,
            None => Next::NoMemory,
        },
    }
}
