//! Beginnings of files.

use crate::trees::{Outcome, read};
use rows_calls::Text;
use std::alloc::Global;
use std::rt::Files;
use std::{fs, io};
use vhdl_lexer::lex;
use vhdl_parser_rules::SyntaxFault;

/// Prints which beginnings of a file are files themselves, and whether all others that end behind a
/// token are EndOfFile there.
pub fn tell_beginnings(rt: &(impl Files + Print + AllocGlobal), file: &str) -> io::Result<()> {
    let text = fs::read_to_string(rt, file)?;
    let source = text.as_str().as_bytes();
    let mut told = Text::new(rt.alloc());
    push_heading(&mut told, file, source.len());
    push_beginnings(&mut told, rt.alloc(), source);
    push_wrong_ends(&mut told, rt.alloc(), source);
    told.print(rt)
}

fn push_heading(told: &mut Text, file: &str, len: usize) {
    told.push(file);
    told.push(", of ");
    told.push_number(len);
    told.push_line(" bytes");
}

/// Adds which beginnings are files, and which are refused for what they don't need.
fn push_beginnings(told: &mut Text, alloc: Global, source: &[u8]) {
    for end in 0..source.len() + 1 {
        let mut tree = Text::new(alloc);
        match read(&mut tree, alloc, &source[..end]) {
            Outcome::Read => push_beginning(told, end, " bytes are a file"),
            Outcome::NoTree(SyntaxFault::TooDeep { .. } | SyntaxFault::NoMemory) => {
                push_beginning(told, end, " bytes are refused as too deep, or for memory")
            }
            _ => {}
        }
    }
}

fn push_beginning(told: &mut Text, len: usize, what: &str) {
    told.push("the first ");
    told.push_number(len);
    told.push_line(what);
}

/// Adds how many beginnings that end behind a token are neither a file nor EndOfFile there.
fn push_wrong_ends(told: &mut Text, alloc: Global, source: &[u8]) {
    told.push("of the beginnings that end behind a token and are no file, ");
    told.push_number(wrong_ends(alloc, source));
    told.push_line(" are not EndOfFile there");
}

/// How many beginnings that end behind a token are neither a file nor EndOfFile there.
fn wrong_ends(alloc: Global, source: &[u8]) -> usize {
    let mut count: usize = 0;
    if let Ok(tokens) = lex(alloc, source) {
        for token in &tokens {
            let end = token.end as usize;
            if end <= source.len() && !ends_there(alloc, &source[..end]) {
                count = count.saturating_add(1);
            }
        }
    }
    count
}

/// Whether a beginning is a file, or is EndOfFile at its end.
fn ends_there(alloc: Global, beginning: &[u8]) -> bool {
    let mut tree = Text::new(alloc);
    match read(&mut tree, alloc, beginning) {
        Outcome::Read => true,
        Outcome::NoTree(fault) => fault.number() == 2 && fault.byte() == Some(beginning.len()),
        Outcome::NoTokens(_) => false,
    }
}
