//! The choices of a statement, and which is missing.

ghost use Rattle.std.specs.Prelude.{◌≡◌, ◌+◌, ◌<◌, ◌^◌, ◌∷◌, [], length, option_map, IfSome, MatchOption};
ghost use Rattle.std.specs.List.{list_all};
ghost use Rattle.byte_streams.specs.Written.{Goes};
ghost use Rattle.vhdl_slips.specs.Choices as spec;
ghost use Rattle.vhdl_slips.specs.Parts.{first_of};
ghost use Rattle.vhdl_slips.specs.Choices.{HasRoom, choices_in};
ghost use Rattle.vhdl_slips.specs.Words.{text_of, read_of};

use crate::enumeration::{is_literal, type_of};
use crate::lexed::{Lexed, is_same_kind, is_same_word, text_of};
use byte_streams::{Sink, push_text};
use vhdl_lexer::{Token, TokenKind};

/// A statement from some token on.
#[derive(Clone, Copy)]
pub struct Statement<'a> {
    /// How many cases are open.
    opened: usize,
    /// The kind of the token before.
    last: TokenKind,
    left: &'a [Token],
}

/// Writes a line with a choice that the case or selected assignment lacks with which these words
/// begin, behind those; nothing where the text doesn't tell one.
pub fn push_missing<S: Sink>(before: Lexed<'_>, statement: Lexed<'_>, sink: &mut S)
    ensures { Goes (S.state sink.old) (S.state sink.new)
        (spec.missing_line (read_of before.entry) (read_of statement.entry)) }
{
    match missing(before, statement) {
        Some(literal) => {
            push_text(sink, b"missing: ");
            push_text(sink, literal);
            push_text(sink, b"\n");
        }
        None => push_text(sink, b""),
    }
}

/// The first choice of the statement that begins with these tokens.
pub fn first_choice(statement: &[Token]) -> Option<Token>
    ensures { result ≡ first_of (spec.choices statement.now) }
{
    let (choice, _) = next_choice(whole(statement))?;
    Some(choice)
}

/// A statement from its first token on.
fn whole(statement: &[Token]) -> Statement<'_>
    ensures choices { choices_in result ≡ spec.choices statement.now }
    ensures room { HasRoom result }
{
    Statement {
        opened: 0,
        last: TokenKind::Semicolon,
        left: statement,
    }
}

/// The choice that is missing in the statement with which these words begin, behind those.
fn missing<'a>(before: Lexed<'a>, statement: Lexed<'_>) -> Option<&'a [u8]>
    ensures { option_map (λ literal. literal.now) result
        ≡ spec.missing (read_of before.entry) (read_of statement.entry) }
{
    let choices = whole(statement.tokens);
    let (choice, _) = next_choice(choices)?;
    let literals = type_of(before, text_of(statement.text, choice));
    if are_literals(choices, statement.text, literals) {
        left_out(choices, statement.text, literals)
    } else {
        None
    }
}

/// Whether each choice of a statement of this text is one of these literals.
#[tactic(auto, using(crate::proofs::Rest::all_here, crate::proofs::Rest::all_more))]
fn are_literals(choices: Statement<'_>, text: &[u8], literals: Lexed<'_>) -> bool
    requires { HasRoom choices }
    ensures { result ≡ list_all
        (λ choice. spec.is_among (read_of literals.entry) (text_of text.now choice)) (choices_in choices.entry) }
{
    let mut left = choices;
    while let Some((choice, after)) = next_choice(left) {
        if !is_literal(literals, text_of(text, choice)) {
            return false;
        }
        left = after;
    }
    true
}

/// The first of these literals that isn't among the choices of a statement of this text.
fn left_out<'a>(choices: Statement<'_>, text: &[u8], literals: Lexed<'a>) -> Option<&'a [u8]>
    requires { HasRoom choices }
    ensures { option_map (λ literal. literal.now) result
        ≡ spec.left_out text.now (choices_in choices.entry) literals.entry.text.now literals.entry.tokens.now }
{
    let mut left = literals.tokens;
    while let [literal, rest @ ..] = left {
        if is_left_out(choices, text, literals.text, *literal) {
            return Some(text_of(literals.text, *literal));
        }
        left = rest;
    }
    None
}

/// Whether a literal of another text isn't among the choices of a statement of this text.
fn is_left_out(choices: Statement<'_>, text: &[u8], literals: &[u8], literal: Token) -> bool
    requires { HasRoom choices }
    ensures { result ≡ spec.is_left_out text.now (choices_in choices.entry) literals.now literal }
{
    !is_same_kind(literal.kind, TokenKind::Comma)
        && !is_choice(choices, text, text_of(literals, literal))
}

/// Whether a word is one of the choices of a statement of this text.
#[tactic(auto, using(crate::proofs::Rest::any_here, crate::proofs::Rest::any_more))]
fn is_choice(choices: Statement<'_>, text: &[u8], word: &[u8]) -> bool
    requires { HasRoom choices }
    ensures { result ≡ spec.is_written text.now (choices_in choices.entry) word.now }
{
    let mut left = choices;
    while let Some((choice, after)) = next_choice(left) {
        if is_same_word(text_of(text, choice), word) {
            return true;
        }
        left = after;
    }
    false
}

/// The next choice of a statement, and what it goes on with.
fn next_choice(statement: Statement<'_>) -> Option<(Token, Statement<'_>)>
    requires { HasRoom statement }
    ensures value { MatchOption result (choices_in statement.entry ≡ [])
        (λ found. choices_in statement.entry ≡ found.0 ∷ choices_in found.1) }
    ensures room { IfSome result (λ found. HasRoom found.1) }
    ensures shorter { IfSome result (λ found. length found.1.left.now < length statement.entry.left.now) }
{
    let mut opened = statement.opened;
    let mut last = statement.last;
    let mut left = statement.left;
    while let [token, rest @ ..] = left {
        if ends(opened, token.kind) {
            return None;
        }
        let is_choice = chooses(opened, last);
        opened = open_behind(opened, last, token.kind);
        last = token.kind;
        left = rest;
        if is_choice {
            return Some((*token, Statement { opened, last, left }));
        }
    }
    None
}

/// How many cases are open behind a token.
fn open_behind(opened: usize, last: TokenKind, kind: TokenKind) -> usize
    requires { opened + 1 < 2 ^ 64 }
    ensures { result ≡ spec.open_behind opened last kind }
{
    if !is_same_kind(kind, TokenKind::Case) {
        opened
    } else if is_same_kind(last, TokenKind::End) {
        opened.saturating_sub(1)
    } else {
        opened + 1
    }
}

/// Whether what stands next is a choice of the statement.
fn chooses(opened: usize, last: TokenKind) -> bool
    ensures { result ≡ spec.chooses opened last }
{
    opened <= 1 && (is_same_kind(last, TokenKind::When) || is_same_kind(last, TokenKind::Bar))
}

/// Whether the statement ends with such a token.
fn ends(opened: usize, kind: TokenKind) -> bool
    ensures { result ≡ spec.ends opened kind }
{
    opened == 0 && is_same_kind(kind, TokenKind::Semicolon)
}
