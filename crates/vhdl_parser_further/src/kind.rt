//! What the kinds of tokens say of statements and declarations.

ghost use Rattle.std.specs.Prelude.{◌≡◌};
ghost use Rattle.vhdl_parser_further.specs.Kinds as spec;

use vhdl_lexer::{TokenKind, is_end, is_semicolon};

/// Whether one of these stands in front of the next part of a statement, or ends a list of them.
pub fn closes(kind: TokenKind) -> bool
    ensures { result ≡ spec.closes kind }
{
    matches!(kind, TokenKind::End | TokenKind::Begin)
}

/// Whether the word begins something with an `end` of its own, behind a token.
pub fn opens(last: TokenKind, kind: TokenKind) -> bool
    ensures { result ≡ spec.opens last kind }
{
    has_end(kind) && !is_end(last) && !is_part(last, kind)
}

fn has_end(kind: TokenKind) -> bool
    ensures { result ≡ spec.has_end kind }
{
    matches!(
        kind,
        TokenKind::If
            | TokenKind::Case
            | TokenKind::For
            | TokenKind::While
            | TokenKind::Process
            | TokenKind::Block
            | TokenKind::Component
            | TokenKind::Record
            | TokenKind::Function
            | TokenKind::Procedure
    )
}

fn is_part(last: TokenKind, kind: TokenKind) -> bool
    ensures { result ≡ spec.is_part last kind }
{
    match kind {
        TokenKind::Component => matches!(last, TokenKind::Colon),
        TokenKind::For => matches!(last, TokenKind::Wait),
        _ => false,
    }
}

/// Whether a statement or declaration may begin behind a token, which stands behind another.
pub fn is_boundary(last: TokenKind, kind: TokenKind) -> bool
    ensures { result ≡ spec.is_boundary last kind }
{
    vhdl_lexer::is_boundary(last, kind)
        && !matches!(kind, TokenKind::Is)
        && (is_semicolon(kind) || !is_end(last))
}

/// Whether what begins with such a token may be taken out, in front of the architecture's `begin`
/// or behind it.
pub fn may_go(begun: bool, kind: TokenKind) -> bool
    ensures { result ≡ spec.may_go begun kind }
{
    if begun { !closes(kind) } else { declares(kind) }
}

/// Whether a declaration begins with the word.
pub fn declares(kind: TokenKind) -> bool
    ensures { result ≡ spec.declares kind }
{
    matches!(
        kind,
        TokenKind::Signal
            | TokenKind::Constant
            | TokenKind::Variable
            | TokenKind::Shared
            | TokenKind::Type
            | TokenKind::Subtype
            | TokenKind::Component
            | TokenKind::Attribute
            | TokenKind::Alias
            | TokenKind::File
            | TokenKind::Function
            | TokenKind::Procedure
            | TokenKind::Pure
            | TokenKind::Impure
            | TokenKind::Disconnect
            | TokenKind::Group
            | TokenKind::Use
    )
}

/// Whether a statement begins with the word, or a declaration.
pub fn states(kind: TokenKind) -> bool
    ensures { result ≡ spec.states kind }
{
    is_simple(kind) || has_end(kind) || declares(kind)
}

fn is_simple(kind: TokenKind) -> bool
    ensures { result ≡ spec.is_simple kind }
{
    matches!(
        kind,
        TokenKind::With
            | TokenKind::Wait
            | TokenKind::Null
            | TokenKind::Assert
            | TokenKind::Report
            | TokenKind::Return
            | TokenKind::Exit
            | TokenKind::Next
    )
}

/// Whether a further part of a statement that has an `end` begins with the word.
pub fn is_further(kind: TokenKind) -> bool
    ensures { result ≡ spec.is_further kind }
{
    matches!(kind, TokenKind::Elsif | TokenKind::Else | TokenKind::When)
}

/// Whether what stands before it is assigned a value, or is a label.
pub fn assigns(kind: TokenKind) -> bool
    ensures { result ≡ spec.assigns kind }
{
    matches!(
        kind,
        TokenKind::LessEqual | TokenKind::Assign | TokenKind::Colon
    )
}
