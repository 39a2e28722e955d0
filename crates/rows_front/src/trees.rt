//! What the parser makes of a text, in words.

ghost use Rattle.vhdl_lexer.specs.Cut.{AreWithin};

use crate::fault::push_fault;
use crate::problems::rule_of;
use rows_calls::{Frame, Text};
use rows_tree_texts::push_file;
use std::alloc::Global;
use vhdl_lexer::{LexFault, Token, lex};
use vhdl_parser::parse;
use vhdl_parser_rules::SyntaxFault;

/// What becomes of a source.
#[derive(Drop)]
pub enum Outcome {
    /// It is read.
    Read,
    /// The lexer refuses it.
    NoTokens(LexFault),
    /// The parser refuses it.
    NoTree(SyntaxFault),
}

/// What becomes of a source, whose tree is added as a text where it is read.
pub fn read(tree: &mut Text, alloc: Global, source: &[u8]) -> Outcome {
    match lex(alloc, source) {
        Ok(tokens) => parsed(tree, alloc, source, &tokens),
        Err(fault) => Outcome::NoTokens(fault),
    }
}

/// What becomes of the tokens of a source. A tree lives no longer than this call, so no other
/// function holds one.
fn parsed(tree: &mut Text, alloc: Global, source: &[u8], tokens: &[Token]) -> Outcome
    requires within { AreWithin source.now tokens.now }
{
    match parse(alloc, source, tokens) {
        Ok(file) => {
            push_file(tree, &file);
            Outcome::Read
        }
        Err(fault) => Outcome::NoTree(fault),
    }
}

/// Adds what becomes of a text in a frame: `read`, or the fault's name where it stands at the
/// text's mark.
pub fn push_reading(found: &mut Text, alloc: Global, frame: Frame<'_>, written: &str) {
    let (source, place) = frame.source_of(alloc, written);
    let mut tree = Text::new(alloc);
    found.heed(&source);
    match read(&mut tree, alloc, source.as_bytes()) {
        Outcome::Read => found.push("read"),
        Outcome::NoTokens(fault) => push_lexed(found, fault),
        Outcome::NoTree(fault) => push_placed(found, fault, place),
    }
}

/// Adds the number of a fault of the lexer.
fn push_lexed(found: &mut Text, fault: LexFault) {
    found.push("lexer's fault ");
    found.push_number(usize::from(fault.number()));
}

/// Adds the name of a fault of the parser, or the whole fault where it doesn't stand at this place.
fn push_placed(found: &mut Text, fault: SyntaxFault, place: usize) {
    if fault.byte() == Some(place) {
        found.push(rule_of("syntax", fault.number()).map_or("", |rule| rule.words().name));
    } else {
        found.push_shown(&fault);
        found.push(", and not at byte ");
        found.push_number(place);
    }
}

/// Adds the tree of a source, or its fault.
pub fn push_tree(found: &mut Text, alloc: Global, written: &str) {
    let (source, _) = Frame::WHOLE.source_of(alloc, written);
    found.heed(&source);
    match read(found, alloc, source.as_bytes()) {
        Outcome::Read => {
            if found.as_bytes().is_empty() {
                found.push("no unit");
            }
        }
        Outcome::NoTokens(fault) => push_lexed(found, fault),
        Outcome::NoTree(fault) => push_fault(found, fault.number(), fault.byte(), &fault),
    }
}
