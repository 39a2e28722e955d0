//! The tokens in which a refused one is looked at.

ghost use Rattle.std.specs.Prelude.{◌≡◌, ◌≤◌, ◌++◌, if◌then◌else◌, length, IfOk};
ghost use Rattle.std.specs.List.{prefix_len};
ghost use Rattle.vhdl_expected.specs.Reading as spec;

use std::alloc::{AllocError, Global};
use vhdl_lexer::{Language, Token, TokenKind, is_semicolon};

/// Of a token in a longer text nothing is told: each trial reads the text once more.
pub const MOST_TOKENS: usize = 4_096;

/// In which language a source is read, tokens of it, and the place of the refused one among them.
#[derive(Clone, Copy)]
pub(crate) struct Reading<'a> {
    pub language: Language,
    pub source: &'a [u8],
    pub tokens: &'a [Token],
    pub refused: usize,
}

/// The tokens before a byte from the beginning of their design unit on, and those from the byte on
/// up to the next `;` behind the first.
pub(crate) fn halves_at(tokens: &[Token], at: usize) -> (&[Token], &[Token])
    ensures before { result.0.now ≡ spec.before at tokens.now }
    ensures from { result.1.now ≡ spec.from at tokens.now }
{
    let (before, from) = tokens.split_at(count_before(tokens, at));
    (unit(before), statement(from))
}

/// The two in one text.
pub(crate) fn joined(
    alloc: Global,
    before: &[Token],
    from: &[Token],
) -> Result<Vec<Token>, AllocError>
    ensures { IfOk result (λ tokens. tokens.items ≡ before.now ++ from.now) }
{
    let mut tokens = Vec::from_slice(alloc, before)?;
    tokens.extend_from_slice(from)?;
    Ok(tokens)
}

/// How many of the tokens start before a byte.
fn count_before(tokens: &[Token], at: usize) -> usize
    ensures value { result ≡ prefix_len (spec.starts_before at) tokens.now }
    ensures within { result ≤ length tokens.now }
{
    tokens
        .iter()
        .take_while(|token| (token.start as usize) < at)
        .count()
}

/// The tokens of the last design unit that begins among these, or of the last item of its context
/// clause.
fn unit(tokens: &[Token]) -> &[Token]
    ensures { result.now ≡ spec.unit tokens.now }
{
    let mut unit = tokens;
    let mut last = TokenKind::Semicolon;
    let mut left = tokens;
    while let [token, rest @ ..] = left {
        unit = chosen(begins_unit(last, token.kind), left, unit);
        last = token.kind;
        left = rest;
    }
    unit
}

/// What is left where a design unit begins there, else the unit before.
fn chosen<'a>(begins: bool, left: &'a [Token], unit: &'a [Token]) -> &'a [Token]
    ensures { result.now ≡ (if begins then left.now else unit.now) }
{
    if begins { left } else { unit }
}

/// Whether a design unit or an item of its context clause begins with such a token behind another.
fn begins_unit(last: TokenKind, kind: TokenKind) -> bool
    ensures { result ≡ spec.begins_unit last kind }
{
    is_semicolon(last) && is_head(kind)
}

fn is_head(kind: TokenKind) -> bool
    ensures { result ≡ spec.is_head kind }
{
    matches!(
        kind,
        TokenKind::Library | TokenKind::Use | TokenKind::Entity | TokenKind::Architecture
    )
}

/// The first token, and those behind it up to the first `;`.
fn statement(tokens: &[Token]) -> &[Token]
    ensures { result.now ≡ spec.statement tokens.now }
{
    let [_, behind @ ..] = tokens else {
        return tokens;
    };
    let count = count_ahead(behind);
    &tokens[..(count + 2).min(tokens.len())]
}

/// How many of the tokens stand before the first `;`.
fn count_ahead(tokens: &[Token]) -> usize
    ensures value { result ≡ prefix_len spec.goes_on tokens.now }
    ensures within { result ≤ length tokens.now }
{
    tokens
        .iter()
        .take_while(|token| !is_semicolon(token.kind))
        .count()
}
