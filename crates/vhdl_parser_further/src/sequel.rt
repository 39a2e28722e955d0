//! What has to follow a `;`, for a statement or declaration to end with it.

ghost use Rattle.std.specs.Prelude.{◌≡◌};
ghost use Rattle.vhdl_parser_further.specs.Early as spec;

use crate::kind::{assigns, declares, is_further, states};
use crate::place::Place;
use vhdl_lexer::{Token, TokenKind, is_semicolon};

/// What has to follow a `;`, for a statement or declaration to end with it.
#[derive(Clone, Copy)]
pub enum Sequel {
    /// Whatever follows.
    Anything,
    /// A declaration.
    Declaration,
    /// A statement or declaration.
    Statement,
    /// One of these, or a further part of a statement that has an `end`.
    Part,
}

/// What has to follow, where a fault of this place is told at the first of the tokens ahead.
pub fn sequel_of(place: Place, ahead: &[Token]) -> Sequel
    ensures { result ≡ spec.sequel_of place ahead.now }
{
    match ahead {
        [token, ..] => sequel_at(place, token.kind),
        [] => Sequel::Anything,
    }
}

fn sequel_at(place: Place, kind: TokenKind) -> Sequel
    ensures { result ≡ spec.sequel_at place kind }
{
    if !is_semicolon(kind) || place.innermost == place.read {
        Sequel::Anything
    } else if !place.begun {
        Sequel::Declaration
    } else if place.opened == 0 {
        Sequel::Statement
    } else {
        Sequel::Part
    }
}

/// Whether what has to follow begins with these tokens.
pub fn begins(sequel: Sequel, tokens: &[Token]) -> bool
    ensures { result ≡ spec.begins sequel tokens.now }
{
    match tokens {
        [token, following, ..] => {
            begins_by_word(sequel, token.kind) || begins_by_name(sequel, token.kind, following.kind)
        }
        [token] => begins_by_word(sequel, token.kind),
        [] => true,
    }
}

fn begins_by_word(sequel: Sequel, kind: TokenKind) -> bool
    ensures { result ≡ spec.begins_by_word sequel kind }
{
    match sequel {
        Sequel::Anything => true,
        Sequel::Declaration => declares(kind),
        Sequel::Statement => states(kind),
        Sequel::Part => states(kind) || is_further(kind),
    }
}

fn begins_by_name(sequel: Sequel, kind: TokenKind, following: TokenKind) -> bool
    ensures { result ≡ spec.begins_by_name sequel kind following }
{
    match sequel {
        Sequel::Declaration => false,
        _ => matches!(kind, TokenKind::Identifier) && assigns(following),
    }
}
