//! The literals of the types of signals.

ghost use Rattle.std.specs.Prelude.{◌≡◌, option_map, slice_get};
ghost use Rattle.vhdl_literals.specs.Declarations as spec;
ghost use Rattle.vhdl_slips.specs.Words.{read_of};

use rtl_expect::Literals;
use rtl_net::Signal;
use vhdl_lexer::{Token, TokenKind};
use vhdl_slips::{Lexed, first_text, from, is_same_kind, is_same_word, literals_of, past, text_of};

/// What a source says of the literals of its signals' types. Without tokens it says nothing.
#[derive(Clone, Copy)]
pub struct SourceLiterals<'a> {
    pub source: Lexed<'a>,
}

impl Literals for SourceLiterals<'_> {
    ghost positions = { λ literals. spec.positions_in (read_of literals.source) };

    ghost names = { λ literals. spec.names_in (read_of literals.source) };

    fn position(&self, signal: &Signal, name: &[u8]) -> Option<u64> {
        position(
            self.source.text,
            literals_at(signal.at as usize, self.source),
            name,
        )
    }

    fn name(&self, signal: &Signal, position: u64) -> Option<&[u8]> {
        name_at(
            self.source.text,
            position,
            literals_at(signal.at as usize, self.source),
        )
    }
}

/// Whether a process begins with these tokens.
fn begins_process(tokens: &[Token]) -> bool
    ensures { result ≡ spec.begins_process tokens.now }
{
    match tokens {
        [] => false,
        [token, ..] => is_same_kind(token.kind, TokenKind::Process),
    }
}

/// How the mark of the declaration at a byte is written; of a process, which declares several,
/// nothing.
fn mark_at(at: usize, source: Lexed<'_>) -> &[u8]
    ensures { result.now ≡ spec.mark_at at (read_of source.entry) }
{
    let (_before, declaration) = source.split_at(at);
    if begins_process(declaration.tokens) {
        return &[];
    }
    first_text(Lexed {
        text: source.text,
        tokens: past(1, from(TokenKind::Colon, declaration.tokens)),
    })
}

/// The literals of the type of the signal declared at a byte, with the commas between them.
fn literals_at(at: usize, source: Lexed<'_>) -> &[Token]
    ensures { result.now ≡ spec.literals_at at (read_of source.entry) }
{
    let mark = mark_at(at, source);
    let (before, _declaration) = source.split_at(at);
    let mut found: &[Token] = &[];
    let mut left = before.tokens;
    while let [token, rest @ ..] = left {
        found = type_named(source.text, mark, found, *token, rest);
        left = rest;
    }
    found
}

/// The literals of the type that a token begins, these behind it, where it has this name; else
/// those found before.
fn type_named<'a>(
    text: &[u8],
    name: &[u8],
    found: &'a [Token],
    token: Token,
    behind: &'a [Token],
) -> &'a [Token]
    ensures { result.now ≡ spec.type_named text.now name.now found.now token behind.now }
{
    let named = Lexed {
        text,
        tokens: behind,
    };
    if is_same_kind(token.kind, TokenKind::Type) && is_same_word(first_text(named), name) {
        literals_of(behind)
    } else {
        found
    }
}

/// The position of the literal with this name.
fn position(text: &[u8], literals: &[Token], name: &[u8]) -> Option<u64>
    ensures { result ≡ spec.position_of (spec.literal_names text.now literals.now) name.now }
{
    let mut position = 0;
    for token in literals {
        if is_same_kind(token.kind, TokenKind::Comma) {
            continue;
        }
        if is_same_word(text_of(text, *token), name) {
            return Some(position);
        }
        position += 1;
    }
    None
}

/// The name of the literal at this position.
fn name_at<'a>(text: &'a [u8], position: u64, literals: &[Token]) -> Option<&'a [u8]>
    ensures { option_map (λ name. name.now) result ≡ slice_get (spec.literal_names text.now literals.now) position }
{
    let mut left = position;
    for token in literals {
        if is_same_kind(token.kind, TokenKind::Comma) {
            continue;
        }
        if left == 0 {
            return Some(text_of(text, *token));
        }
        left -= 1;
    }
    None
}
