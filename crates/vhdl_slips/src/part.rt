//! Parts of the tokens of a text.

ghost use Rattle.std.specs.Prelude.{◌≡◌, ◌≤◌, drop, length};
ghost use Rattle.std.specs.List.{prefix_len};
ghost use Rattle.vhdl_slips.specs.Parts as spec;

use crate::lexed::is_same_kind;
use vhdl_lexer::{Token, TokenKind};

/// Whether one of the tokens is of this kind.
pub fn has(kind: TokenKind, tokens: &[Token]) -> bool
    ensures { result ≡ spec.has kind tokens.now }
{
    tokens.iter().any(|token| is_same_kind(token.kind, kind))
}

/// Whether the first of the tokens is of this kind.
pub fn begins(kind: TokenKind, tokens: &[Token]) -> bool
    ensures { result ≡ spec.begins kind tokens.now }
{
    match tokens {
        [first, ..] => is_same_kind(first.kind, kind),
        [] => false,
    }
}

/// The first of the tokens.
pub fn first_of(tokens: &[Token]) -> Option<Token>
    ensures { result ≡ spec.first_of tokens.now }
{
    match tokens {
        [first, ..] => Some(*first),
        [] => None,
    }
}

/// What stands behind so many tokens.
pub fn past(count: usize, tokens: &[Token]) -> &[Token]
    ensures { result.now ≡ drop count tokens.now }
{
    if count <= tokens.len() {
        let (_, behind) = tokens.split_at(count);
        behind
    } else {
        &[]
    }
}

/// What stands before the first of a kind.
pub fn up_to(kind: TokenKind, tokens: &[Token]) -> &[Token]
    ensures { result.now ≡ spec.up_to kind tokens.now }
{
    let (before, _) = tokens.split_at(len_before(kind, tokens));
    before
}

/// What stands from the first of a kind on.
pub fn from(kind: TokenKind, tokens: &[Token]) -> &[Token]
    ensures { result.now ≡ spec.from kind tokens.now }
{
    let (_, from) = tokens.split_at(len_before(kind, tokens));
    from
}

/// How many tokens stand before the first of a kind.
fn len_before(kind: TokenKind, tokens: &[Token]) -> usize
    ensures value { result ≡ prefix_len (spec.is_other kind) tokens.now }
    ensures within { result ≤ length tokens.now }
{
    tokens
        .iter()
        .take_while(|token| !is_same_kind(token.kind, kind))
        .count()
}

/// What stands behind the last of a kind; nothing without one.
pub fn behind_last(kind: TokenKind, tokens: &[Token]) -> &[Token]
    ensures { result.now ≡ spec.behind_last kind tokens.now }
{
    let mut found: &[Token] = &[];
    let mut left = tokens;
    while let [token, rest @ ..] = left {
        found = later(kind, found, *token, rest);
        left = rest;
    }
    found
}

/// What stands behind a token, where it is of this kind, or what was found before.
fn later<'a>(kind: TokenKind, found: &'a [Token], token: Token, behind: &'a [Token]) -> &'a [Token]
    ensures { result.now ≡ spec.later kind found.now token behind.now }
{
    if is_same_kind(token.kind, kind) {
        behind
    } else {
        found
    }
}

/// What stands in parentheses, with which these tokens begin, where no other opens in them; else
/// nothing.
pub fn in_parentheses(tokens: &[Token]) -> &[Token]
    ensures { result.now ≡ spec.in_parentheses tokens.now }
{
    if begins(TokenKind::LeftParen, tokens) {
        without_another(up_to(TokenKind::RightParen, past(1, tokens)))
    } else {
        &[]
    }
}

/// Tokens without another `(` in them, or nothing.
fn without_another(tokens: &[Token]) -> &[Token]
    ensures { result.now ≡ spec.without_another tokens.now }
{
    if has(TokenKind::LeftParen, tokens) {
        &[]
    } else {
        tokens
    }
}
