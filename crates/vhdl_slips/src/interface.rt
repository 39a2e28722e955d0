//! The entity of a name.

ghost use Rattle.std.specs.Prelude.{◌≡◌};
ghost use Rattle.vhdl_slips.specs.Interfaces as spec;

use crate::lexed::{is_same_kind, is_same_word, text_of};
use crate::part::{from, up_to};
use vhdl_lexer::{Token, TokenKind};

/// What stands behind the word entity of the first entity of this name, up to its first `end`;
/// nothing where there is none.
pub fn interface_of<'a>(text: &[u8], name: &[u8], tokens: &'a [Token]) -> &'a [Token]
    ensures { result.now ≡ spec.interface_of text.now name.now tokens.now }
{
    let mut left = tokens;
    while let [_, rest @ ..] = left {
        if begins_entity(text, name, left) {
            return up_to(TokenKind::End, rest);
        }
        left = rest;
    }
    &[]
}

/// Whether the tokens begin with `entity NAME is`.
fn begins_entity(text: &[u8], name: &[u8], tokens: &[Token]) -> bool
    ensures { result ≡ spec.begins_entity text.now name.now tokens.now }
{
    match tokens {
        [first, second, third, ..] => {
            is_same_kind(first.kind, TokenKind::Entity)
                && is_same_kind(third.kind, TokenKind::Is)
                && is_same_word(text_of(text, *second), name)
        }
        _ => false,
    }
}

/// The ports of an entity stand from the word port on, and its generics before that.
pub fn formals(is_port: bool, interface: &[Token]) -> &[Token]
    ensures { result.now ≡ spec.formals is_port interface.now }
{
    if is_port {
        from(TokenKind::Port, interface)
    } else {
        from(TokenKind::Generic, up_to(TokenKind::Port, interface))
    }
}

/// Whether a name stands before a comma or a colon.
pub fn is_declared(token: Token, next: Token) -> bool
    ensures { result ≡ spec.is_declared token next }
{
    is_same_kind(token.kind, TokenKind::Identifier)
        && (is_same_kind(next.kind, TokenKind::Comma) || is_same_kind(next.kind, TokenKind::Colon))
}

/// The generic or port of which the name stands at the front of these tokens.
pub fn formal_at(tokens: &[Token]) -> Option<Token>
    ensures { result ≡ spec.formal_at tokens.now }
{
    match tokens {
        [name, next, ..] => {
            if is_declared(*name, *next) {
                Some(*name)
            } else {
                None
            }
        }
        _ => None,
    }
}
