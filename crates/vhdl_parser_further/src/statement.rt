//! Which statement or declaration is taken out, and where it ends.

ghost use Rattle.std.specs.Prelude.{◌≡◌, ◌<◌, ◌^◌};
ghost use Rattle.vhdl_parser_further.specs.Left as left;
ghost use Rattle.vhdl_parser_further.specs.Statements as spec;

use crate::kind::{closes, may_go};
use crate::place::{Place, open_behind};
use crate::sequel::{Sequel, begins};
use crate::unit::is_balanced;
use crate::without::from;
use vhdl_lexer::{Token, TokenKind, is_semicolon};

/// Behind how many tokens the statement or declaration begins that is taken out, if one is; `ahead`
/// is left of the unit.
#[tactic(auto, unfolding(crate::specs::Left::taken))]
pub fn taken(place: Place, tokens: &[Token], ahead: &[Token]) -> Option<usize>
    requires { place.opened < 2 ^ 63 }
    ensures { result ≡ left.taken place tokens.now ahead.now }
{
    if place.in_architecture && is_balanced(place.opened, place.last, ahead) {
        statement_of(place, tokens)
    } else {
        None
    }
}

fn statement_of(place: Place, tokens: &[Token]) -> Option<usize>
    ensures { result ≡ left.statement_of place tokens.now }
{
    if may_begin(place.begun, from(tokens, place.innermost)) {
        Some(place.innermost)
    } else if may_begin(place.begun, from(tokens, place.outermost)) {
        Some(place.outermost)
    } else {
        None
    }
}

/// Whether what begins with these tokens may be taken out.
fn may_begin(begun: bool, tokens: &[Token]) -> bool
    ensures { result ≡ left.may_begin begun tokens.now }
{
    match tokens {
        [] => false,
        [token, ..] => may_go(begun, token.kind),
    }
}

/// What stands behind the statement or declaration with which these tokens begin, and that has to
/// be followed so.
pub fn behind_statement(sequel: Sequel, tokens: &[Token]) -> &[Token]
    ensures { result.now ≡ spec.behind_statement sequel 0 0 TokenKind.Semicolon tokens.now }
{
    let mut left = tokens;
    let mut opened: usize = 0;
    let mut parens: usize = 0;
    let mut last = TokenKind::Semicolon;
    while let [token, rest @ ..] = left {
        if ends_behind(sequel, opened, parens, last, token.kind, rest) {
            return rest;
        }
        if ends_before(opened, token.kind) {
            return left;
        }
        opened = open_behind(opened, last, token.kind);
        parens = parens_behind(parens, token.kind);
        last = token.kind;
        left = rest;
    }
    left
}

/// How many parentheses are open behind a token, where so many are before it.
fn parens_behind(parens: usize, kind: TokenKind) -> usize
    requires { parens < 2 ^ 63 }
    ensures { result ≡ spec.parens_behind parens kind }
{
    match kind {
        TokenKind::LeftParen => parens + 1,
        TokenKind::RightParen => parens.saturating_sub(1),
        _ => parens,
    }
}

/// Whether a statement or declaration ends with a token, where so much with an `end` and so many
/// parentheses are open, and this follows.
fn ends_behind(
    sequel: Sequel,
    opened: usize,
    parens: usize,
    last: TokenKind,
    kind: TokenKind,
    rest: &[Token],
) -> bool
    ensures { result ≡ spec.ends_behind sequel opened parens last kind rest.now }
{
    opened == 0
        && parens == 0
        && is_semicolon(kind)
        && !matches!(last, TokenKind::Select | TokenKind::Colon)
        && begins(sequel, rest)
}

/// Whether it ends in front of the token, whatever parentheses are open.
fn ends_before(opened: usize, kind: TokenKind) -> bool
    ensures { result ≡ spec.ends_before opened kind }
{
    opened == 0 && closes(kind)
}
