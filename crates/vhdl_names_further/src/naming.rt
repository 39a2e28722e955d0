//! Names, by tokens.

ghost use Rattle.std.specs.Prelude.{◌≡◌, ◌≤◌, nat_le, if◌then◌else◌, [], length};
ghost use Rattle.vhdl_lexer.specs.Cut.{AreWithin};
ghost use Rattle.vhdl_names_further.specs.Naming as spec;

use vhdl_lexer::{Token, TokenKind};

/// The tokens from the one on that stands before the byte's; none where none does.
pub(crate) fn around(tokens: &[Token], at: usize) -> &[Token]
    ensures { result.now ≡ spec.around at tokens.now }
{
    let mut others = tokens;
    while let [_, rest @ ..] = others {
        if is_around(others, at) {
            return others;
        }
        others = rest;
    }
    others
}

/// Whether the second of these tokens begins at this byte.
fn is_around(tokens: &[Token], at: usize) -> bool
    ensures { result ≡ spec.is_around at tokens.now }
{
    match tokens {
        [_, token, ..] => token.start as usize == at,
        _ => false,
    }
}

/// The name that begins at this byte of the source; nothing where no identifier does.
pub(crate) fn name_at<'a>(source: &'a [u8], tokens: &[Token], at: usize) -> &'a [u8]
    requires { AreWithin source.now tokens.now }
    ensures { result.now ≡ spec.name_at source.now tokens.now at }
{
    match around(tokens, at) {
        [_, token, ..] => name_of(source, *token),
        _ => &[],
    }
}

/// Whether `=>` stands behind the first of these tokens: so it is a formal, a name of the entity
/// that is instantiated, or a choice.
pub(crate) fn is_before_arrow(tokens: &[Token]) -> bool
    ensures { result ≡ spec.is_before_arrow tokens.now }
{
    match tokens {
        [_, next, ..] => matches!(next.kind, TokenKind::Arrow),
        _ => false,
    }
}

/// Whether the second of these tokens is one.
pub(crate) fn is_formal(tokens: &[Token]) -> bool
    ensures { result ≡ spec.is_formal tokens.now }
{
    match tokens {
        [_, others @ ..] => is_before_arrow(others),
        [] => false,
    }
}

/// Whether behind the first of these tokens a value begins, an actual or what something starts
/// with: it is `=>` or `:=`.
pub(crate) fn begins_value(tokens: &[Token]) -> bool
    ensures { result ≡ spec.begins_value tokens.now }
{
    match tokens {
        [token, ..] => matches!(token.kind, TokenKind::Arrow | TokenKind::Assign),
        [] => false,
    }
}

/// Whether a token stands at this byte or behind it.
pub(crate) fn is_from(at: usize, token: Token) -> bool
    ensures { result ≡ nat_le at token.start }
{
    at <= token.start as usize
}

/// The bytes of a token that is an identifier; nothing of another one.
fn name_of(source: &[u8], token: Token) -> &[u8]
    requires { (token.start ≤ token.end) × (token.end ≤ length source.now) }
    ensures { result.now ≡ (if spec.is_identifier token.kind then spec.text_of source.now token else []) }
{
    if is_identifier(token.kind) {
        text_of(source, token)
    } else {
        &[]
    }
}

/// Whether a token is this name, in letters of either case.
pub(crate) fn is_name(source: &[u8], name: &[u8], token: Token) -> bool
    requires { (token.start ≤ token.end) × (token.end ≤ length source.now) }
    ensures { result ≡ spec.is_name source.now name.now token }
{
    is_identifier(token.kind) && text_of(source, token).eq_ignore_ascii_case(name)
}

fn is_identifier(kind: TokenKind) -> bool
    ensures { result ≡ spec.is_identifier kind }
{
    matches!(kind, TokenKind::Identifier)
}

/// The bytes of a token.
fn text_of(source: &[u8], token: Token) -> &[u8]
    requires { (token.start ≤ token.end) × (token.end ≤ length source.now) }
    ensures { result.now ≡ spec.text_of source.now token }
{
    &source[token.start as usize..token.end as usize]
}
