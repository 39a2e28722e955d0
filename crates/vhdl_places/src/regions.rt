//! The tokens of the region in which a declaration stands.

ghost use Rattle.std.specs.Prelude.{◌≡◌};
ghost use Rattle.vhdl_places.specs.Regions as spec;
ghost use Rattle.vhdl_slips.specs.Words.{read_of};

use vhdl_lexer::{Token, TokenKind};
use vhdl_slips::{Lexed, begins, behind_last, first_text, interface_of, is_same_kind, past};

/// Whether what is begun by a word, behind which these tokens stand, is ended or an instance.
fn is_closed(behind: &[Token]) -> bool
    ensures { result ≡ spec.is_closed behind.now }
{
    begins(TokenKind::Semicolon, behind)
        || begins(TokenKind::Semicolon, past(1, behind))
        || begins(TokenKind::Map, past(2, behind))
}

/// What stands behind the last word of this kind, if what it begins isn't ended.
fn open_region(word: TokenKind, before: &[Token]) -> &[Token]
    ensures { result.now ≡ spec.open_region word before.now }
{
    let behind = behind_last(word, before);
    if is_closed(behind) { &[] } else { behind }
}

/// The first of two that has tokens.
fn or_else<'a>(first: &'a [Token], second: &'a [Token]) -> &'a [Token]
    ensures { result.now ≡ spec.or_else first.now second.now }
{
    if first.is_empty() { second } else { first }
}

/// What stands before a declaration in its component, process or generate; nothing where it stands
/// in none.
pub(crate) fn inner_region(before: &[Token]) -> &[Token]
    ensures { result.now ≡ spec.inner_region before.now }
{
    let in_process = open_region(TokenKind::Process, before);
    let in_generate = open_region(TokenKind::Generate, before);
    or_else(
        open_region(TokenKind::Component, before),
        or_else(in_process, in_generate),
    )
}

/// Whether a unit begins at a token, behind which these stand.
fn begins_unit(token: Token, behind: &[Token]) -> bool
    ensures { result ≡ spec.begins_unit token behind.now }
{
    (is_same_kind(token.kind, TokenKind::Entity) && begins(TokenKind::Is, past(1, behind)))
        || (is_same_kind(token.kind, TokenKind::Architecture)
            && begins(TokenKind::Of, past(1, behind)))
}

/// What stands behind the word of a unit that begins at a token, or what was found before.
fn unit_at<'a>(found: &'a [Token], token: Token, behind: &'a [Token]) -> &'a [Token]
    ensures { result.now ≡ spec.unit_at found.now token behind.now }
{
    if begins_unit(token, behind) {
        behind
    } else {
        found
    }
}

/// What stands behind the word of the last unit that begins.
pub(crate) fn last_unit(before: &[Token]) -> &[Token]
    ensures { result.now ≡ spec.last_unit before.now }
{
    let mut found: &[Token] = &[];
    let mut left = before;
    while let [token, rest @ ..] = left {
        found = unit_at(found, *token, rest);
        left = rest;
    }
    found
}

/// The generics and ports of the entity of an architecture; nothing of an entity.
pub(crate) fn entity_part<'a>(source: Lexed<'a>, unit: &[Token]) -> &'a [Token]
    ensures { result.now ≡ spec.entity_part (read_of source.entry) unit.now }
{
    if !begins(TokenKind::Of, past(1, unit)) {
        return &[];
    }
    let entity = Lexed {
        text: source.text,
        tokens: past(2, unit),
    };
    past(
        2,
        interface_of(source.text, first_text(entity), source.tokens),
    )
}

/// What stands of a unit behind its names.
pub(crate) fn own_part(unit: &[Token]) -> &[Token]
    ensures { result.now ≡ spec.own_part unit.now }
{
    if begins(TokenKind::Of, past(1, unit)) {
        past(4, unit)
    } else {
        past(2, unit)
    }
}
