//! Units, as the tokens of a source show them.

ghost use Rattle.std.specs.Prelude.{◌≡◌, ◌≤◌, ◌<◌, ◌^◌, if◌then◌else◌, length};
ghost use Rattle.vhdl_parser_further.specs.Units as spec;
ghost use Rattle.vhdl_tree.specs.Lexeme.{same_kind};

use crate::kind::opens;
use vhdl_lexer::{Token, TokenKind, is_end};

/// Whether these tokens begin with the head of an architecture.
#[tactic(auto, unfolding(crate::specs::Units::begins_architecture))]
pub fn begins_architecture(tokens: &[Token]) -> bool
    ensures { result ≡ spec.begins_architecture tokens.now }
{
    let head = [
        TokenKind::Architecture,
        TokenKind::Identifier,
        TokenKind::Of,
        TokenKind::Identifier,
        TokenKind::Is,
    ];
    starts_with(tokens, &head)
}

/// Whether these tokens begin with the head of an entity.
#[tactic(auto, unfolding(crate::specs::Units::begins_entity))]
pub fn begins_entity(tokens: &[Token]) -> bool
    ensures { result ≡ spec.begins_entity tokens.now }
{
    let head = [TokenKind::Entity, TokenKind::Identifier, TokenKind::Is];
    starts_with(tokens, &head)
}

fn begins_unit(tokens: &[Token]) -> bool
    ensures { result ≡ spec.begins_unit tokens.now }
{
    begins_architecture(tokens) || begins_entity(tokens)
}

/// Whether tokens of these kinds stand in front.
fn starts_with(tokens: &[Token], kinds: &[TokenKind]) -> bool
    ensures { result ≡ spec.starts_with kinds.now tokens.now }
{
    let mut left = tokens;
    let mut wanted = kinds;
    while let [kind, others @ ..] = wanted {
        let [token, rest @ ..] = left else {
            return false;
        };
        if !is_of(*token, *kind) {
            return false;
        }
        left = rest;
        wanted = others;
    }
    true
}

#[tactic(auto, unfolding(vhdl_tree::specs::Lexeme::same_kind))]
fn is_of(token: Token, kind: TokenKind) -> bool
    ensures { result ≡ same_kind token.kind kind }
{
    token.kind == kind
}

/// How many tokens stand before the next unit.
pub fn before_unit(tokens: &[Token]) -> usize
    ensures value { result ≡ spec.before_unit tokens.now }
    ensures within { result ≤ length tokens.now }
{
    let mut left = tokens;
    let mut before: usize = 0;
    while let [_, rest @ ..] = left {
        if begins_unit(left) {
            return before;
        }
        before += 1;
        left = rest;
    }
    before
}

/// Whether the rest of a unit, in which so many statements and declarations are open, has an `end`
/// for each of them, for each that begins in it, and for the unit, and no other.
#[tactic(auto, unfolding(crate::specs::Units::is_balanced))]
pub fn is_balanced(opened: usize, last: TokenKind, tokens: &[Token]) -> bool
    requires { opened < 2 ^ 63 }
    ensures { result ≡ spec.is_balanced opened last tokens.now }
{
    opened + 1 + beginnings(last, tokens) == ends(tokens)
}

/// How many statements and declarations with an `end` begin in these tokens, behind one of that
/// kind.
fn beginnings(behind: TokenKind, tokens: &[Token]) -> usize
    ensures value { result ≡ spec.beginnings behind tokens.now }
    ensures within { result ≤ length tokens.now }
{
    let mut left = tokens;
    let mut last = behind;
    let mut count: usize = 0;
    while let [token, rest @ ..] = left {
        count += one_if(opens(last, token.kind));
        last = token.kind;
        left = rest;
    }
    count
}

fn one_if(counts: bool) -> usize
    ensures { result ≡ (if counts then 1 else 0) }
{
    if counts { 1 } else { 0 }
}

fn ends(tokens: &[Token]) -> usize
    ensures { result ≡ spec.ends tokens.now }
{
    tokens.iter().filter(|token| is_end(token.kind)).count()
}
