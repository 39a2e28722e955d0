//! What stands before a token, and what follows a name.

ghost use Rattle.std.specs.Prelude.{◌≡◌, ◌<◌, ◌≤◌, ◌^◌, length};
ghost use Rattle.std.specs.List.{prefix_len};
ghost use Rattle.vhdl_lexer.specs.Kinds.{is_one_of};
ghost use Rattle.vhdl_misfits.specs.Places as spec;

use crate::sort::{Sort, stand};
use vhdl_lexer::{Token, TokenKind};
use vhdl_slips::{begins, has, is_same_kind, past, up_to};

macro_rules! kinds {
    ($($kind:ident)+) => {
        [$(TokenKind::$kind),+]
    };
}

pub(crate) use kinds;

/// Whether it is of one of these kinds.
#[tactic(auto, unfolding(vhdl_tree::specs::Lexeme::same_kind))]
pub fn is_one_of(kinds: &[TokenKind], kind: TokenKind) -> bool
    ensures { result ≡ is_one_of kinds.now kind }
{
    kinds.iter().any(|other| is_same_kind(kind, *other))
}

/// Whether the first of some tokens is of one of these kinds.
pub fn begins_one_of(kinds: &[TokenKind], tokens: &[Token]) -> bool
    ensures { result ≡ spec.begins_one_of kinds.now tokens.now }
{
    match tokens {
        [first, ..] => is_one_of(kinds, first.kind),
        [] => false,
    }
}

/// Whether one of them is.
fn has_one_of(kinds: &[TokenKind], tokens: &[Token]) -> bool
    ensures { result ≡ spec.has_one_of kinds.now tokens.now }
{
    tokens.iter().any(|token| is_one_of(kinds, token.kind))
}

/// What stands from the first that is on.
pub(crate) fn from_one_of<'a>(kinds: &[TokenKind], tokens: &'a [Token]) -> &'a [Token]
    ensures { result.now ≡ spec.from_one_of kinds.now tokens.now }
{
    past(len_before(kinds, tokens), tokens)
}

/// What stands behind it.
pub(crate) fn behind_one_of<'a>(kinds: &[TokenKind], tokens: &'a [Token]) -> &'a [Token]
    ensures { result.now ≡ spec.behind_one_of kinds.now tokens.now }
{
    past(1, from_one_of(kinds, tokens))
}

/// How many tokens stand before it.
fn len_before(kinds: &[TokenKind], tokens: &[Token]) -> usize
    ensures value { result ≡ prefix_len (spec.is_no_one_of kinds.now) tokens.now }
    ensures within { result ≤ length tokens.now }
{
    tokens
        .iter()
        .take_while(|token| !is_one_of(kinds, token.kind))
        .count()
}

/// Whether a statement may begin behind these two.
pub fn begins_statement(last_two: &[Token]) -> bool
    ensures { result ≡ spec.begins_statement last_two.now }
{
    stand(&[Sort::Any, Sort::Statement], last_two)
}

// ---- parentheses behind a name

/// How many parentheses of a name are open behind a token, where so many are before it, and this
/// kind stands there.
fn open_behind(opened: usize, last: TokenKind, kind: TokenKind) -> usize
    requires { opened < 2 ^ 63 }
    ensures { result ≡ spec.open_behind opened last kind }
{
    if is_same_kind(kind, TokenKind::LeftParen)
        && (opened != 0 || is_same_kind(last, TokenKind::Identifier))
    {
        opened + 1
    } else if is_same_kind(kind, TokenKind::RightParen) {
        opened.saturating_sub(1)
    } else {
        opened
    }
}

/// Whether it is of one of these kinds, and stands as deep as is asked for.
fn stops_here(stops: &[TokenKind], depth: usize, opened: usize, kind: TokenKind) -> bool
    ensures { result ≡ spec.stops_here stops.now depth opened kind }
{
    opened == depth && is_one_of(stops, kind)
}

/// What stands from the first of these kinds on that is so deep in the parentheses of names.
pub(crate) fn at_depth<'a>(depth: usize, stops: &[TokenKind], tokens: &'a [Token]) -> &'a [Token]
    ensures { result.now ≡ spec.at_depth depth stops.now tokens.now }
{
    let mut opened: usize = 0;
    let mut last = TokenKind::Semicolon;
    let mut left = tokens;
    while let [token, rest @ ..] = left {
        if stops_here(stops, depth, opened, token.kind) {
            return left;
        }
        opened = open_behind(opened, last, token.kind);
        last = token.kind;
        left = rest;
    }
    &[]
}

/// What stands behind the name at the front, and the parentheses behind it.
pub fn behind_name(tokens: &[Token]) -> &[Token]
    ensures { result.now ≡ spec.behind_name tokens.now }
{
    let behind = past(1, tokens);
    if begins(TokenKind::LeftParen, behind) {
        past(1, at_depth(1, &kinds!(RightParen), tokens))
    } else {
        behind
    }
}

/// Whether what stands in the parentheses behind the name at the front has no comma.
pub(crate) fn has_one_argument(tokens: &[Token]) -> bool
    ensures { result ≡ spec.has_one_argument tokens.now }
{
    begins(
        TokenKind::RightParen,
        at_depth(1, &kinds!(Comma RightParen), tokens),
    )
}

/// Whether `to` or `downto` stands in them.
pub(crate) fn has_slice(tokens: &[Token]) -> bool
    ensures { result ≡ spec.has_slice tokens.now }
{
    begins_one_of(
        &kinds!(To Downto),
        at_depth(1, &kinds!(RightParen To Downto), tokens),
    )
}

/// Whether the name at the front is assigned to.
pub(crate) fn is_target(tokens: &[Token]) -> bool
    ensures { result ≡ spec.is_target tokens.now }
{
    begins_one_of(&kinds!(LessEqual Assign), behind_name(tokens))
}

// ---- loops and declarations

/// Whether one loop or generate alone has begun behind its `for`, and none has ended.
pub fn is_inside_loop(behind: &[Token]) -> bool
    ensures { result ≡ spec.is_inside_loop behind.now }
{
    has_one_of(&kinds!(Loop Generate), behind)
        && !has_one_of(
            &kinds!(Loop Generate),
            behind_one_of(&kinds!(Loop Generate), behind),
        )
}

/// Whether these are names of a declaration: `NAME { , NAME }`.
fn are_names(tokens: &[Token]) -> bool
    ensures { result ≡ spec.are_names tokens.now }
{
    tokens
        .iter()
        .all(|token| is_one_of(&kinds!(Identifier Comma), token.kind))
}

/// Whether these tokens begin with names of a declaration, and a colon.
pub fn begins_declaration(tokens: &[Token]) -> bool
    ensures { result ≡ spec.begins_declaration tokens.now }
{
    has(TokenKind::Colon, tokens) && are_names(up_to(TokenKind::Colon, tokens))
}
