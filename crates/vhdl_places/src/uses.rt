//! How names are used, and what else is looked for among tokens.

ghost use Rattle.std.specs.Prelude.{◌≡◌, ◌<◌, ◌^◌, map};
ghost use Rattle.vhdl_places.specs.Uses as spec;

use vhdl_lexer::{Token, TokenKind};
use vhdl_misfits::{behind_name, is_one_of};
use vhdl_slips::{Lexed, begins, first_of, is_same_kind, is_same_word, past, text_of};

/// How a name is used, or what is looked for of any name.
#[derive(Clone, Copy)]
pub enum Use {
    /// It is read, or an edge of it is tested.
    Read,
    /// It is the target of a signal assignment.
    Assigned,
    /// An edge of it is tested.
    Edge,
    /// An edge of any name is tested.
    AnyEdge,
    /// The same, inside the statement with which the tokens begin.
    InnerEdge,
    /// The else of the if with which the tokens begin.
    Branch,
    /// It is the formal of an association.
    Formal,
    /// It is a statement's label.
    Label,
    /// It stands in no component, process or generate, or names a component.
    Declared,
    /// An entity has it.
    Entity,
    /// An architecture's entity has it.
    Architecture,
}

/// Whether these tokens begin with this word, in letters of either case.
fn begins_word(text: &[u8], word: &[u8], tokens: &[Token]) -> bool
    ensures { result ≡ spec.begins_word text.now word.now tokens.now }
{
    match tokens {
        [first, ..] => {
            is_same_kind(first.kind, TokenKind::Identifier)
                && is_same_word(text_of(text, *first), word)
        }
        [] => false,
    }
}

/// Whether these tokens begin with one of these names.
fn begins_name(text: &[u8], names: &[&[u8]], tokens: &[Token]) -> bool
    ensures { result ≡ spec.begins_name text.now (map (λ n. n.now) names.now) tokens.now }
{
    let mut left = names;
    while let [name, rest @ ..] = left {
        if begins_word(text, *name, tokens) {
            return true;
        }
        left = rest;
    }
    false
}

/// Whether a target may stand behind a token of this kind.
fn leads(kind: TokenKind) -> bool
    ensures { result ≡ spec.leads kind }
{
    let kinds = [
        TokenKind::Semicolon,
        TokenKind::Begin,
        TokenKind::Then,
        TokenKind::Else,
        TokenKind::Loop,
        TokenKind::Generate,
        TokenKind::Select,
        TokenKind::Arrow,
        TokenKind::Colon,
    ];
    is_one_of(&kinds, kind)
}

/// Whether a signal is assigned to by the name at the front, before which a token of this kind
/// stands.
fn is_target(last: TokenKind, tokens: &[Token]) -> bool
    ensures { result ≡ spec.is_target last tokens.now }
{
    leads(last) && begins(TokenKind::LessEqual, behind_name(tokens))
}

/// Whether these tokens begin with the name of an edge and a parenthesis.
fn calls_edge(text: &[u8], tokens: &[Token]) -> bool
    ensures { result ≡ spec.calls_edge text.now tokens.now }
{
    (begins_word(text, b"rising_edge", tokens) || begins_word(text, b"falling_edge", tokens))
        && begins(TokenKind::LeftParen, past(1, tokens))
}

/// Whether `'event` stands behind the first of these tokens.
fn asks_event(text: &[u8], tokens: &[Token]) -> bool
    ensures { result ≡ spec.asks_event text.now tokens.now }
{
    begins(TokenKind::Tick, past(1, tokens)) && begins_word(text, b"event", past(2, tokens))
}

/// Whether an edge is tested at the front of these tokens.
fn tests_edge(text: &[u8], tokens: &[Token]) -> bool
    ensures { result ≡ spec.tests_edge text.now tokens.now }
{
    calls_edge(text, tokens) || asks_event(text, tokens)
}

/// Whether one of one of these names is.
fn tests_edge_of(text: &[u8], names: &[&[u8]], tokens: &[Token]) -> bool
    ensures { result ≡ spec.tests_edge_of text.now (map (λ n. n.now) names.now) tokens.now }
{
    (calls_edge(text, tokens) && begins_name(text, names, past(2, tokens)))
        || (asks_event(text, tokens) && begins_name(text, names, tokens))
}

/// Whether what has an `end`, or the first branch of an if, begins behind a token.
fn opens(last: TokenKind, kind: TokenKind) -> bool
    ensures { result ≡ spec.opens last kind }
{
    let kinds = [
        TokenKind::Component,
        TokenKind::Process,
        TokenKind::Generate,
        TokenKind::Loop,
        TokenKind::Case,
        TokenKind::Then,
    ];
    let is_named = is_same_kind(last, TokenKind::Colon) && is_same_kind(kind, TokenKind::Component);
    is_one_of(&kinds, kind) && !(is_same_kind(last, TokenKind::End) || is_named)
}

/// How deep what stands behind a token is, where the token stands so deep.
fn depth_behind(depth: usize, last: TokenKind, kind: TokenKind) -> usize
    requires { depth < 2 ^ 63 }
    ensures { result ≡ spec.depth_behind depth last kind }
{
    if is_one_of(&[TokenKind::End, TokenKind::Elsif], kind) {
        depth.saturating_sub(1)
    } else if opens(last, kind) {
        depth + 1
    } else {
        depth
    }
}

/// Whether one of these names is used so at the front of these words, which stand so deep behind a
/// token of this kind.
fn is_use(
    wanted: Use,
    names: &[&[u8]],
    depth: usize,
    last: TokenKind,
    text: &[u8],
    tokens: &[Token],
) -> bool
    ensures { result ≡ spec.is_use wanted text.now (map (λ n. n.now) names.now) depth last tokens.now }
{
    match wanted {
        Use::Read => begins_name(text, names, tokens) && !is_target(last, tokens),
        Use::Assigned => begins_name(text, names, tokens) && is_target(last, tokens),
        Use::Edge => tests_edge_of(text, names, tokens),
        Use::AnyEdge => tests_edge(text, tokens),
        Use::InnerEdge => depth > 0 && tests_edge(text, tokens),
        Use::Branch => {
            depth == 1
                && is_same_kind(last, TokenKind::Semicolon)
                && begins(TokenKind::Else, tokens)
        }
        Use::Formal => {
            begins_name(text, names, tokens) && begins(TokenKind::Arrow, past(1, tokens))
        }
        Use::Label => {
            begins_name(text, names, tokens) && begins(TokenKind::Colon, past(1, tokens))
        }
        Use::Declared => {
            (depth == 0 || is_same_kind(last, TokenKind::Component))
                && begins_name(text, names, tokens)
        }
        Use::Entity => {
            begins(TokenKind::Entity, tokens)
                && begins(TokenKind::Is, past(2, tokens))
                && begins_name(text, names, past(1, tokens))
        }
        Use::Architecture => {
            begins(TokenKind::Architecture, tokens)
                && begins(TokenKind::Of, past(2, tokens))
                && begins_name(text, names, past(3, tokens))
        }
    }
}

/// What stands from the first place on at which one of these names is used so in these tokens, with
/// which a statement may begin; nothing where it's used so nowhere.
pub(crate) fn from_use<'a>(
    wanted: Use,
    names: &[&[u8]],
    text: &[u8],
    tokens: &'a [Token],
) -> &'a [Token]
    ensures { result.now ≡ spec.from_use wanted text.now (map (λ n. n.now) names.now) tokens.now }
{
    let mut depth: usize = 0;
    let mut last = TokenKind::Semicolon;
    let mut left = tokens;
    while let [token, rest @ ..] = left {
        if is_use(wanted, names, depth, last, text, left) {
            return left;
        }
        depth = depth_behind(depth, last, token.kind);
        last = token.kind;
        left = rest;
    }
    &[]
}

/// The first token there.
pub fn first_use(wanted: Use, names: &[&[u8]], words: Lexed<'_>) -> Option<Token>
    ensures { result ≡ spec.first_use wanted words.entry.text.now (map (λ n. n.now) names.now) words.entry.tokens.now }
{
    first_of(from_use(wanted, names, words.text, words.tokens))
}
