//! What tells that a word stands in a place that isn't its own: in a map, in the head of a
//! component or an instance, among choices, or as the type of what is declared.

ghost use Rattle.std.specs.Prelude.{◌≡◌};
ghost use Rattle.vhdl_slips.specs.Words.{read_of};
ghost use Rattle.vhdl_hints.specs.Hinted.{hint_view};
ghost use Rattle.vhdl_hints.specs.Hints as spec;

use crate::end_name::last_two;
use crate::form::{ARCHITECTURE, CAST, FORMAL_ARROW, ITSELF, LIBRARY, LISTED, OTHERS};
use crate::hint::{Hint, interface_in};
use fault_rules::Subject;
use vhdl_lexer::{Token, TokenKind};
use vhdl_misfits::{begins_one_of, is_declared, listed_bounds};
use vhdl_slips::{
    Lexed, begins, behind_last, entity_of, first_text, formal_at, formal_in, formals, has,
    is_same_kind, is_same_word, open_instance, past, text_of,
};

/// Of a name that is no library, or no type.
pub(crate) fn unknown(text: &[u8], last_two: &[Token], from: &[Token]) -> Hint<'static>
    ensures { hint_view result ≡ spec.unknown text.now last_two.now from.now }
{
    if has(TokenKind::Use, last_two) || has(TokenKind::Entity, last_two) {
        Hint::Form(LIBRARY)
    } else if is_itself(text, last_two, from) {
        Hint::Form(ITSELF)
    } else {
        Hint::Nothing
    }
}

/// Whether a type is looked for, and no entity of an instance, of the name that is declared there.
fn is_itself(text: &[u8], last_two: &[Token], from: &[Token]) -> bool
    ensures { result ≡ spec.is_itself text.now last_two.now from.now }
{
    match last_two {
        [name, colon] => {
            is_same_kind(colon.kind, TokenKind::Colon)
                && is_same_word(
                    text_of(text, *name),
                    first_text(Lexed { text, tokens: from }),
                )
                && !begins_one_of(&[TokenKind::Port, TokenKind::Generic], past(1, from))
        }
        _ => false,
    }
}

// ---- a place in a map

/// Whether an association begins behind these.
fn begins_association(before: &[Token]) -> bool
    ensures { result ≡ spec.begins_association before.now }
{
    begins_one_of(
        &[TokenKind::Comma, TokenKind::LeftParen],
        past(1, last_two(before)),
    ) && is_in_map(behind_last(TokenKind::Map, before))
}

/// Whether the parentheses of a map, with which these tokens begin, are open, and no other.
fn is_in_map(behind: &[Token]) -> bool
    ensures { result ≡ spec.is_in_map behind.now }
{
    begins(TokenKind::LeftParen, behind)
        && count(TokenKind::LeftParen, past(1, behind)) == count(TokenKind::RightParen, behind)
}

/// How many of the tokens are of this kind.
fn count(kind: TokenKind, tokens: &[Token]) -> usize
    ensures { result ≡ spec.count kind tokens.now }
{
    tokens
        .iter()
        .filter(|token| is_same_kind(token.kind, kind))
        .count()
}

/// The port of the position behind these, where no association before it is by name or has
/// parentheses.
fn placed(before: &[Token], ports: &[Token]) -> Option<Token>
    ensures { result ≡ spec.placed before.now ports.now }
{
    let map = behind_last(TokenKind::Map, before);
    if begins_association(before)
        && !has(TokenKind::Arrow, map)
        && !has(TokenKind::RightParen, map)
    {
        formal_behind(count(TokenKind::Comma, map), ports)
    } else {
        None
    }
}

/// The generic or port behind so many others.
fn formal_behind(others: usize, tokens: &[Token]) -> Option<Token>
    ensures { result ≡ spec.formal_behind others tokens.now }
{
    let mut ahead = others;
    let mut left = tokens;
    while let [token, rest @ ..] = left {
        if is_reached(ahead, left) {
            return Some(*token);
        }
        ahead = still_ahead(ahead, left);
        left = rest;
    }
    None
}

/// Whether none is ahead, and one stands at the front.
fn is_reached(ahead: usize, tokens: &[Token]) -> bool
    ensures { result ≡ spec.is_reached ahead tokens.now }
{
    ahead == 0 && begins_formal(tokens)
}

/// How many are ahead behind the first of these tokens.
fn still_ahead(ahead: usize, tokens: &[Token]) -> usize
    ensures { result ≡ spec.still_ahead ahead tokens.now }
{
    if begins_formal(tokens) {
        ahead.saturating_sub(1)
    } else {
        ahead
    }
}

/// Whether the name of a generic or port stands at the front.
fn begins_formal(tokens: &[Token]) -> bool
    ensures { result ≡ spec.begins_formal tokens.now }
{
    formal_at(tokens).is_some()
}

/// Of what begins an association and can't stand there for a generic or port of the entity.
pub(crate) fn position<'a>(source: Lexed<'a>, before: &[Token], from: &[Token]) -> Hint<'a>
    ensures { hint_view result ≡ spec.position (read_of source.entry) before.now from.now }
{
    let instance = open_instance(before);
    let is_positional = begins_association(before) && !begins(TokenKind::Arrow, past(1, from));
    match (is_positional, entity_of(instance)) {
        (true, Some(entity)) => { position_of(source, entity, has(TokenKind::Port, instance)) }
        _ => Hint::Nothing,
    }
}

fn position_of(source: Lexed<'_>, entity: Token, is_port: bool) -> Hint<'_>
    ensures { hint_view result
        ≡ spec.position_of entity is_port (spec.interface_in (read_of source.entry) entity) }
{
    let interface = interface_in(source, entity);
    if interface.is_empty() {
        Hint::Nothing
    } else {
        Hint::NoPosition(entity, is_port, formals(is_port, interface))
    }
}

/// Of `FORMAL <= ACTUAL` or `FORMAL = ACTUAL` where an association begins.
pub(crate) fn assigned<'a>(source: Lexed<'a>, before: &[Token], from: &[Token]) -> Hint<'a>
    ensures { hint_view result ≡ spec.assigned (read_of source.entry) before.now from.now }
{
    if begins_association(before)
        && begins_one_of(&[TokenKind::LessEqual, TokenKind::Equal], past(1, from))
        && is_formal(source, open_instance(before), from)
    {
        Hint::Form(FORMAL_ARROW)
    } else {
        Hint::Nothing
    }
}

/// Whether it is a generic or port of the entity of an instance.
fn is_formal(source: Lexed<'_>, instance: &[Token], from: &[Token]) -> bool
    ensures { result ≡ spec.is_formal (read_of source.entry) instance.now from.now }
{
    let text = source.text;
    match entity_of(instance) {
        Some(entity) => is_declared(
            text,
            first_text(Lexed { text, tokens: from }),
            true,
            formals(has(TokenKind::Port, instance), interface_in(source, entity)),
        ),
        None => false,
    }
}

// ---- the port of an actual

/// Of an actual of another length or type than its port.
pub(crate) fn actual<'a>(
    source: Lexed<'a>,
    before: &[Token],
    from: &[Token],
    subject: Subject,
) -> Hint<'a>
    ensures { hint_view result ≡ spec.actual (read_of source.entry) before.now from.now subject }
{
    let instance = open_instance(before);
    let is_port = begins_one_of(&[TokenKind::Comma, TokenKind::RightParen], past(1, from))
        && has(TokenKind::Port, instance);
    match (is_port, entity_of(instance)) {
        (true, Some(entity)) => {
            port_hint(source, entity, port_of(source, before, entity), subject)
        }
        _ => Hint::Nothing,
    }
}

fn port_hint(source: Lexed<'_>, entity: Token, port: Option<Token>, subject: Subject) -> Hint<'_>
    ensures { hint_view result ≡ spec.port_hint (read_of source.entry) entity port subject }
{
    match port {
        Some(port) => actual_of(source, entity, port, subject),
        None => Hint::Nothing,
    }
}

/// The port of an actual of this entity, by its name or by its position.
fn port_of(source: Lexed<'_>, before: &[Token], entity: Token) -> Option<Token>
    ensures { result ≡ spec.port_of (read_of source.entry) before.now entity }
{
    match formal_in(last_two(before)) {
        Some(port) => Some(port),
        None => placed(before, formals(true, interface_in(source, entity))),
    }
}

/// Of two lengths that differ, or else of two types.
fn actual_of<'a>(source: Lexed<'a>, entity: Token, port: Token, subject: Subject) -> Hint<'a>
    ensures { hint_view result ≡ spec.actual_of (read_of source.entry) entity port subject }
{
    let ports = formals(true, interface_in(source, entity));
    let bounds = listed_bounds(source.text, text_of(source.text, port), ports);
    match subject {
        Subject::Lengths { found, needed } => Hint::Actual(entity, port, bounds, found, needed),
        _ => Hint::OtherType(entity, port),
    }
}

// ---- a component, an architecture or a choice

/// Of a component that is declared otherwise than its entity.
pub(crate) fn component<'a>(source: Lexed<'a>, last_two: &[Token], from: &[Token]) -> Hint<'a>
    ensures { hint_view result ≡ spec.component (read_of source.entry) last_two.now from.now }
{
    match from {
        [name, ..] => {
            if begins_component(last_two) {
                differing(interface_in(source, *name))
            } else {
                Hint::Nothing
            }
        }
        [] => Hint::Nothing,
    }
}

/// Whether the name of a component that is declared stands behind these.
fn begins_component(last_two: &[Token]) -> bool
    ensures { result ≡ spec.begins_component last_two.now }
{
    match last_two {
        [first, last] => {
            is_same_kind(last.kind, TokenKind::Component)
                && !(is_same_kind(first.kind, TokenKind::End)
                    || is_same_kind(first.kind, TokenKind::Colon))
        }
        _ => false,
    }
}

fn differing(interface: &[Token]) -> Hint<'_>
    ensures { hint_view result ≡ spec.differing interface.now }
{
    if interface.is_empty() {
        Hint::Nothing
    } else {
        Hint::Differs(formals(false, interface), formals(true, interface))
    }
}

/// Of a choice that isn't the last, the architecture of an instance, a name in a sensitivity list,
/// or a type that converts nothing.
pub(crate) fn misplaced(text: &[u8], before: &[Token], from: &[Token]) -> Hint<'static>
    ensures { hint_view result ≡ spec.misplaced text.now before.now from.now }
{
    if begins(TokenKind::Others, from) {
        Hint::Form(OTHERS)
    } else if names_entity(behind_last(TokenKind::Colon, before)) {
        Hint::Form(ARCHITECTURE)
    } else if opens_list(behind_last(TokenKind::Process, before)) {
        Hint::Form(LISTED)
    } else if is_cast(first_text(Lexed { text, tokens: from }), from) {
        Hint::Form(CAST)
    } else {
        Hint::Nothing
    }
}

/// Whether a sensitivity list is open, these tokens standing behind the word process.
pub(crate) fn opens_list(behind: &[Token]) -> bool
    ensures { result ≡ spec.opens_list behind.now }
{
    begins(TokenKind::LeftParen, behind) && !has(TokenKind::RightParen, behind)
}

/// Whether it is `std_logic(..)`, `integer(..)` or `boolean(..)`, as if that converted.
fn is_cast(word: &[u8], from: &[Token]) -> bool
    ensures { result ≡ spec.is_cast word.now from.now }
{
    begins(TokenKind::LeftParen, past(1, from))
        && (is_same_word(word, b"std_logic")
            || is_same_word(word, b"std_ulogic")
            || is_same_word(word, b"integer")
            || is_same_word(word, b"natural")
            || is_same_word(word, b"positive")
            || is_same_word(word, b"boolean"))
}

/// Whether these tokens are `entity LIBRARY . NAME (`.
fn names_entity(tokens: &[Token]) -> bool
    ensures { result ≡ spec.names_entity tokens.now }
{
    match tokens {
        [entity, _, _, _, _] => is_same_kind(entity.kind, TokenKind::Entity),
        _ => false,
    }
}
