//! The name that has to stand at an end.

ghost use Rattle.std.specs.Prelude.{◌≡◌};
ghost use Rattle.std.specs.List.{prefix_len};
ghost use Rattle.vhdl_hints.specs.Ends as spec;

use vhdl_lexer::{Token, TokenKind};
use vhdl_slips::{begins, is_same_kind, past};

/// What is known of what ends somewhere.
#[derive(Clone, Copy)]
pub(crate) enum Begun {
    /// Nothing.
    Unknown,
    /// It has no name.
    Unnamed,
    /// It has this name.
    Named(Token),
}

/// The last two of some tokens.
pub(crate) fn last_two(tokens: &[Token]) -> &[Token]
    ensures { result.now ≡ spec.last_two tokens.now }
{
    let (_, last) = tokens.split_at(tokens.len().saturating_sub(2));
    last
}

/// Those before the last two.
pub(crate) fn but_last_two(tokens: &[Token]) -> &[Token]
    ensures { result.now ≡ spec.but_last_two tokens.now }
{
    let (before, _) = tokens.split_at(tokens.len().saturating_sub(2));
    before
}

/// The word of an end that stands before a name, these two tokens standing there: `end WORD`, or a
/// bare `end`.
pub(crate) fn end_word(last_two: &[Token]) -> Option<TokenKind>
    ensures { result ≡ spec.end_word last_two.now }
{
    match last_two {
        [first, second] => {
            if is_same_kind(second.kind, TokenKind::End) {
                Some(TokenKind::End)
            } else if is_same_kind(first.kind, TokenKind::End) {
                Some(second.kind)
            } else {
                None
            }
        }
        _ => None,
    }
}

/// What is known of what was begun last of what ends with this word, in order of the text.
pub(crate) fn last_begun(word: TokenKind, before: &[Token]) -> Begun
    ensures { result ≡ spec.last_begun word before.now }
{
    let mut found = Begun::Unknown;
    let mut left = before;
    while let [_, rest @ ..] = left {
        found = begun_at(word, found, left);
        left = rest;
    }
    found
}

/// The same behind the first of these tokens; a bare end ends a unit.
fn begun_at(word: TokenKind, found: Begun, tokens: &[Token]) -> Begun
    ensures { result ≡ spec.begun_at word found tokens.now }
{
    match word {
        TokenKind::End | TokenKind::Entity | TokenKind::Architecture => unit_at(found, tokens),
        TokenKind::Component => component_at(found, tokens),
        _ => statement_at(word, found, tokens),
    }
}

/// Of a unit, which begins with `entity NAME is` or `architecture NAME of`.
fn unit_at(found: Begun, tokens: &[Token]) -> Begun
    ensures { result ≡ spec.unit_at found tokens.now }
{
    match tokens {
        [first, second, third, ..] => {
            if begins_unit(*first, *third) {
                Begun::Named(*second)
            } else {
                found
            }
        }
        _ => found,
    }
}

/// Whether a unit begins with these two, its name between them.
fn begins_unit(first: Token, third: Token) -> bool
    ensures { result ≡ spec.begins_unit first third }
{
    (is_same_kind(first.kind, TokenKind::Entity) && is_same_kind(third.kind, TokenKind::Is))
        || (is_same_kind(first.kind, TokenKind::Architecture)
            && is_same_kind(third.kind, TokenKind::Of))
}

/// Of a component, whose name follows its word.
fn component_at(found: Begun, tokens: &[Token]) -> Begun
    ensures { result ≡ spec.component_at found tokens.now }
{
    match tokens {
        [first, second, third, ..] => {
            if !is_same_kind(second.kind, TokenKind::Component) {
                found
            } else if is_same_kind(first.kind, TokenKind::End) {
                Begun::Unknown
            } else {
                Begun::Named(*third)
            }
        }
        _ => found,
    }
}

/// Of a statement of this word; of one that is ended nothing.
fn statement_at(word: TokenKind, found: Begun, tokens: &[Token]) -> Begun
    ensures { result ≡ spec.statement_at word found tokens.now }
{
    match tokens {
        [first, second, third, ..] => {
            if is_same_kind(second.kind, TokenKind::End) && is_same_kind(third.kind, word) {
                Begun::Unknown
            } else if begins_statement(word, third.kind, past(3, tokens)) {
                label_of(*first, *second)
            } else {
                found
            }
        }
        _ => found,
    }
}

/// A statement's label, where a colon follows it.
fn label_of(label: Token, colon: Token) -> Begun
    ensures { result ≡ spec.label_of label colon }
{
    if is_same_kind(colon.kind, TokenKind::Colon) {
        Begun::Named(label)
    } else {
        Begun::Unnamed
    }
}

/// Whether a statement of this word begins with such a token, these standing behind it.
fn begins_statement(word: TokenKind, kind: TokenKind, behind: &[Token]) -> bool
    ensures { result ≡ spec.begins_statement word kind behind.now }
{
    match word {
        TokenKind::If => { is_same_kind(kind, TokenKind::If) && goes_on(TokenKind::Then, behind) }
        TokenKind::Loop => {
            is_same_kind(kind, TokenKind::For) && goes_on(TokenKind::Loop, behind)
        }
        TokenKind::Generate => {
            (is_same_kind(kind, TokenKind::For) || is_same_kind(kind, TokenKind::If))
                && goes_on(TokenKind::Generate, behind)
        }
        _ => is_same_kind(kind, word),
    }
}

/// Whether the head of a statement goes on with this word, these tokens standing behind its first.
fn goes_on(word: TokenKind, behind: &[Token]) -> bool
    ensures { result ≡ spec.goes_on word behind.now }
{
    begins(word, past(head_len(behind), behind))
}

/// How many tokens stand before then, loop or generate.
fn head_len(behind: &[Token]) -> usize
    ensures { result ≡ prefix_len spec.is_inside_head behind.now }
{
    behind
        .iter()
        .take_while(|token| is_inside_head(**token))
        .count()
}

fn is_inside_head(token: Token) -> bool
    ensures { result ≡ spec.is_inside_head token }
{
    !(is_same_kind(token.kind, TokenKind::Then)
        || is_same_kind(token.kind, TokenKind::Loop)
        || is_same_kind(token.kind, TokenKind::Generate))
}
