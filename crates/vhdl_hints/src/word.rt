//! What one word tells: where it is declared, what is assigned, and what may be meant.

ghost use Rattle.std.specs.Prelude.{◌≡◌, map};
ghost use Rattle.vhdl_slips.specs.Words.{read_of};
ghost use Rattle.vhdl_hints.specs.Hinted.{hint_view};
ghost use Rattle.vhdl_hints.specs.Hints as spec;

use crate::end_name::last_two;
use crate::form::{
    BELOW, ELSEWHERE, FORMAL_TWICE, INDEX, LISTED, NO_SIGNAL, NO_VARIABLE, PORT_TWICE,
};
use crate::hint::Hint;
use crate::misplaced::opens_list;
use vhdl_lexer::{Token, TokenKind};
use vhdl_misfits::{
    Known, begins_one_of, begins_statement, behind_name, is_declared, is_inside_loop, known_object,
    ports_of,
};
use vhdl_parser_rules::is_near;
use vhdl_slips::{
    Lexed, begins, behind_last, first_of, first_text, has, is_same_kind, is_same_word, past,
    text_of, up_to,
};

/// Of a name that is declared elsewhere.
pub(crate) fn elsewhere(text: &[u8], before: &[Token], from: &[Token]) -> Hint<'static>
    ensures { hint_view result ≡ spec.elsewhere text.now before.now from.now }
{
    let name = first_text(Lexed { text, tokens: from });
    let last = behind_last(TokenKind::For, before);
    let index = first_text(Lexed { text, tokens: last });
    let region = up_to(TokenKind::Architecture, up_to(TokenKind::Process, from));
    if begins(TokenKind::Identifier, from)
        && has(TokenKind::End, last)
        && is_same_word(index, name)
    {
        Hint::Form(INDEX)
    } else if is_declared(text, name, false, region) {
        if opens_list(behind_last(TokenKind::Process, before)) {
            Hint::Form(LISTED)
        } else {
            Hint::Form(BELOW)
        }
    } else if is_declared(text, name, false, before) || is_declared(text, name, false, from) {
        Hint::Form(ELSEWHERE)
    } else {
        Hint::Nothing
    }
}

/// Of a formal, or the name of a signal, that is given twice.
pub(crate) fn twice(source: Lexed<'_>, before: &[Token], from: &[Token]) -> Hint<'static>
    ensures { hint_view result ≡ spec.twice (read_of source.entry) before.now from.now }
{
    let text = source.text;
    let name = first_text(Lexed { text, tokens: from });
    let ports = ports_of(source, behind_last(TokenKind::Architecture, before));
    if begins(TokenKind::Arrow, past(1, from)) {
        Hint::Form(FORMAL_TWICE)
    } else if begins(TokenKind::Signal, past(1, last_two(before)))
        && is_declared(text, name, true, ports)
    {
        Hint::Form(PORT_TWICE)
    } else {
        Hint::Nothing
    }
}

/// Of a name with which an assignment begins.
pub(crate) fn no_target(before: &[Token], from: &[Token]) -> Hint<'static>
    ensures { hint_view result ≡ spec.no_target before.now from.now }
{
    if begins_statement(last_two(before)) {
        target_hint(last_two(before), behind_name(from))
    } else {
        Hint::Nothing
    }
}

/// Of what stands behind the target; behind a colon `:=` may be that of a declaration.
fn target_hint(last_two: &[Token], behind: &[Token]) -> Hint<'static>
    ensures { hint_view result ≡ spec.target_hint last_two.now behind.now }
{
    if begins(TokenKind::LessEqual, behind) {
        Hint::Form(NO_SIGNAL)
    } else if begins(TokenKind::Assign, behind) && !begins(TokenKind::Colon, past(1, last_two)) {
        Hint::Form(NO_VARIABLE)
    } else {
        Hint::Nothing
    }
}

/// The first of some words that is nearly the same.
pub(crate) fn meant_among(mut words: &[&'static str], word: &[u8]) -> Hint<'static>
    ensures { hint_view result ≡ spec.meant_among (map (λ w. w.now) words.entry.now) word.now }
{
    while let [first, rest @ ..] = words {
        if is_near(word, first.as_bytes()) {
            return Hint::Meant(*first);
        }
        words = rest;
    }
    Hint::Nothing
}

/// Of the entity of an instance or architecture, where the source has one of nearly the same name.
pub(crate) fn misspelt(source: Lexed<'_>, last_two: &[Token], from: &[Token]) -> Hint<'static>
    ensures { hint_view result ≡ spec.misspelt (read_of source.entry) last_two.now from.now }
{
    let text = source.text;
    let word = first_text(Lexed { text, tokens: from });
    if is_of_instance(last_two, from) && word.len() >= 3 {
        near_hint(near_entity(text, word, source.tokens))
    } else {
        Hint::Nothing
    }
}

/// Whether an entity is named: behind a library or `of`, or before a map.
fn is_of_instance(last_two: &[Token], from: &[Token]) -> bool
    ensures { result ≡ spec.is_of_instance last_two.now from.now }
{
    begins_one_of(&[TokenKind::Dot, TokenKind::Of], past(1, last_two))
        || begins_one_of(&[TokenKind::Port, TokenKind::Generic], past(1, from))
}

fn near_hint(name: Option<Token>) -> Hint<'static>
    ensures { hint_view result ≡ spec.near_hint name }
{
    match name {
        Some(name) => Hint::NearEntity(name),
        None => Hint::Nothing,
    }
}

/// The name of the first entity that has nearly this one.
fn near_entity(text: &[u8], word: &[u8], tokens: &[Token]) -> Option<Token>
    ensures { result ≡ spec.near_entity text.now word.now tokens.now }
{
    let mut left = tokens;
    while let [_, rest @ ..] = left {
        if begins_near(text, word, left) {
            return first_of(rest);
        }
        left = rest;
    }
    None
}

/// Whether the tokens begin with `entity NAME is`, of nearly this name, and not the same.
fn begins_near(text: &[u8], word: &[u8], tokens: &[Token]) -> bool
    ensures { result ≡ spec.begins_near text.now word.now tokens.now }
{
    match tokens {
        [first, second, third, ..] => {
            is_same_kind(first.kind, TokenKind::Entity)
                && is_same_kind(third.kind, TokenKind::Is)
                && is_near(word, text_of(text, *second))
                && !is_same_word(word, text_of(text, *second))
        }
        _ => false,
    }
}

/// What else has the name at the front.
pub(crate) fn known_of(source: Lexed<'_>, before: &[Token], from: &[Token]) -> Known
    ensures { result ≡ spec.known_of (read_of source.entry) before.now from.now }
{
    let text = source.text;
    let name = first_text(Lexed { text, tokens: from });
    let behind = behind_last(TokenKind::For, before);
    let index = first_text(Lexed {
        text,
        tokens: behind,
    });
    if is_same_word(index, name)
        && is_inside_loop(behind)
        && !is_declared(text, name, false, behind)
    {
        Known::Turn
    } else {
        known_object(source, name, before)
    }
}
