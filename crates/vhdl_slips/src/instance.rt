//! Instances.

ghost use Rattle.std.specs.Prelude.{◌≡◌};
ghost use Rattle.vhdl_slips.specs.Instances as spec;

use crate::interface::is_declared;
use crate::lexed::{is_same_kind, is_same_word, text_of};
use crate::part::{begins, behind_last, from, has, past, up_to};
use vhdl_lexer::{Token, TokenKind};

/// The instance that isn't ended before a byte, these tokens standing before it; nothing where no
/// map is open there.
pub fn open_instance(before: &[Token]) -> &[Token]
    ensures { result.now ≡ spec.open_instance before.now }
{
    with_map(behind_last(TokenKind::Colon, before))
}

/// These tokens, where a map is open in them.
fn with_map(tokens: &[Token]) -> &[Token]
    ensures { result.now ≡ spec.with_map tokens.now }
{
    if has(TokenKind::Map, tokens) && !has(TokenKind::Semicolon, tokens) {
        tokens
    } else {
        &[]
    }
}

/// The instance behind a label and a colon.
pub fn labelled(tokens: &[Token]) -> &[Token]
    ensures { result.now ≡ spec.labelled tokens.now }
{
    up_to(TokenKind::Semicolon, past(2, tokens))
}

/// The name of its entity: `entity L . NAME`, `component NAME` or `NAME`, and then a map.
pub fn entity_of(instance: &[Token]) -> Option<Token>
    ensures { result ≡ spec.entity_of instance.now }
{
    match instance {
        [first, second, _, fourth, ..] => {
            if is_same_kind(first.kind, TokenKind::Entity) {
                Some(*fourth)
            } else if is_same_kind(first.kind, TokenKind::Component) {
                Some(*second)
            } else {
                Some(*first)
            }
        }
        _ => None,
    }
}

/// What stands behind `port map (`; nothing without one.
pub fn associations(instance: &[Token]) -> &[Token]
    ensures { result.now ≡ spec.associations instance.now }
{
    past(3, from(TokenKind::Port, instance))
}

/// Whether there are no associations, or the first is by name.
pub fn is_by_name(associations: &[Token]) -> bool
    ensures { result ≡ spec.is_by_name associations.now }
{
    match associations {
        [] => true,
        [_, second, ..] => is_same_kind(second.kind, TokenKind::Arrow),
        _ => false,
    }
}

/// Whether the port of this name has an actual.
fn is_given(text: &[u8], name: &[u8], associations: &[Token]) -> bool
    ensures { result ≡ spec.is_given text.now name.now associations.now }
{
    let mut left = associations;
    while let [_, rest @ ..] = left {
        if gives(text, name, left) {
            return true;
        }
        left = rest;
    }
    false
}

/// Whether it has one at the front of these tokens, which isn't open.
fn gives(text: &[u8], name: &[u8], tokens: &[Token]) -> bool
    ensures { result ≡ spec.gives text.now name.now tokens.now }
{
    match tokens {
        [first, second, third, ..] => {
            is_same_kind(second.kind, TokenKind::Arrow)
                && !is_same_kind(third.kind, TokenKind::Open)
                && is_same_word(text_of(text, *first), name)
        }
        _ => false,
    }
}

/// Whether a port needs an actual, of which this declaration stands behind its colon.
fn needs_actual(declaration: &[Token]) -> bool
    ensures { result ≡ spec.needs_actual declaration.now }
{
    !begins(TokenKind::Out, declaration) && !has(TokenKind::Assign, declaration)
}

/// What stands of the declaration behind its colon, these tokens standing behind a name of it.
fn declaration_of(behind: &[Token]) -> &[Token]
    ensures { result.now ≡ spec.declaration_of behind.now }
{
    up_to(
        TokenKind::Semicolon,
        past(1, from(TokenKind::Colon, behind)),
    )
}

/// Whether the port at the front of these tokens has no actual, but needs one.
fn is_left_open(text: &[u8], associations: &[Token], ports: &[Token]) -> bool
    ensures { result ≡ spec.is_left_open text.now associations.now ports.now }
{
    match ports {
        [port, next, ..] => {
            is_declared(*port, *next)
                && needs_actual(declaration_of(past(1, ports)))
                && !is_given(text, text_of(text, *port), associations)
        }
        _ => false,
    }
}

/// The first of these ports that is left open.
pub fn first_open(text: &[u8], associations: &[Token], ports: &[Token]) -> Option<Token>
    ensures { result ≡ spec.first_open text.now associations.now ports.now }
{
    let mut left = ports;
    while let [port, rest @ ..] = left {
        if is_left_open(text, associations, left) {
            return Some(*port);
        }
        left = rest;
    }
    None
}

/// The port of an actual, these two tokens standing before it: `PORT =>`.
pub fn formal_in(last_two: &[Token]) -> Option<Token>
    ensures { result ≡ spec.formal_in last_two.now }
{
    match last_two {
        [port, arrow] => {
            if is_same_kind(arrow.kind, TokenKind::Arrow) {
                Some(*port)
            } else {
                None
            }
        }
        _ => None,
    }
}
