//! What the kinds of tokens say of statements.

ghost use Rattle.std.specs.Prelude.{◌≡◌};
ghost use Rattle.vhdl_lexer.specs.Kinds as spec;

use crate::token::TokenKind;

/// Whether the word begins a statement with an `end` of its own, behind a token.
pub fn opens(last: TokenKind, kind: TokenKind) -> bool
    ensures { result ≡ spec.opens last kind }
{
    is_compound(kind) && !is_end(last)
}

fn is_compound(kind: TokenKind) -> bool
    ensures { result ≡ spec.is_compound kind }
{
    matches!(
        kind,
        TokenKind::If | TokenKind::Case | TokenKind::For | TokenKind::Process
    )
}

/// `end`
pub fn is_end(kind: TokenKind) -> bool
    ensures { result ≡ spec.is_end kind }
{
    matches!(kind, TokenKind::End)
}

/// `;`
pub fn is_semicolon(kind: TokenKind) -> bool
    ensures { result ≡ spec.is_semicolon kind }
{
    matches!(kind, TokenKind::Semicolon)
}

/// Whether a statement or declaration may begin behind a token, which stands behind another.
pub fn is_boundary(last: TokenKind, kind: TokenKind) -> bool
    ensures { result ≡ spec.is_boundary last kind }
{
    leads(kind) || is_else(kind) && is_before_else(last)
}

fn leads(kind: TokenKind) -> bool
    ensures { result ≡ spec.leads kind }
{
    matches!(
        kind,
        TokenKind::Semicolon
            | TokenKind::Begin
            | TokenKind::Then
            | TokenKind::Loop
            | TokenKind::Generate
            | TokenKind::Is
            | TokenKind::Arrow
    )
}

/// `else`
fn is_else(kind: TokenKind) -> bool
    ensures { result ≡ spec.is_else kind }
{
    matches!(kind, TokenKind::Else)
}

/// Whether an `else` behind the token is one of an `if`: behind `;` or `then`.
fn is_before_else(kind: TokenKind) -> bool
    ensures { result ≡ spec.is_before_else kind }
{
    matches!(kind, TokenKind::Semicolon | TokenKind::Then)
}

/// Whether a parenthesis opens, or the head of a process.
pub fn is_left(last: TokenKind, kind: TokenKind) -> bool
    ensures { result ≡ spec.is_left last kind }
{
    match kind {
        TokenKind::LeftParen => true,
        TokenKind::Process => !is_end(last),
        _ => false,
    }
}

/// Whether a parenthesis closes, or the head of a process.
pub fn is_right(kind: TokenKind) -> bool
    ensures { result ≡ spec.is_right kind }
{
    matches!(kind, TokenKind::RightParen | TokenKind::Begin)
}

/// Whether what begins with such a token may be taken out.
pub fn may_go(kind: TokenKind) -> bool
    ensures { result ≡ spec.may_go kind }
{
    matches!(
        kind,
        TokenKind::Identifier
            | TokenKind::If
            | TokenKind::Case
            | TokenKind::For
            | TokenKind::Process
            | TokenKind::With
            | TokenKind::Signal
            | TokenKind::Constant
    )
}
