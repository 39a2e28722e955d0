//! The bounds of an object that one declaration alone declares.

ghost use Rattle.std.specs.Prelude.{◌≡◌};
ghost use Rattle.vhdl_misfits.specs.Bounds as spec;

use crate::place::begins_declaration;
use crate::told::Known;
use crate::word::names_element;
use vhdl_lexer::{MAX_INTEGER, Token, TokenKind, integer_value};
use vhdl_slips::{
    Lexed, begins, behind_last, first_text, formals, from, in_parentheses, interface_of,
    is_literal, is_same_kind, past, text_of, up_to,
};

/// How often a name was declared.
#[derive(Clone, Copy)]
pub(crate) enum Declared<'a> {
    Never,
    /// Once; this stands from its colon on.
    Once(&'a [Token]),
    Often,
}

/// The bounds of the type of this name, where the architecture before a byte and the ports of its
/// entity declare it once together, and it has bounds without parentheses in them; else nothing.
pub fn bounds_of<'a>(source: Lexed<'a>, name: &[u8], before: &'a [Token]) -> &'a [Token]
    ensures { result.now ≡ spec.bounds_of source.entry.text.now name.now source.entry.tokens.now before.now }
{
    bounds_in(all_declared(source, name, before))
}

/// The same of a port in a list.
pub fn listed_bounds<'a>(text: &[u8], name: &[u8], list: &'a [Token]) -> &'a [Token]
    ensures { result.now ≡ spec.listed_bounds text.now name.now list.now }
{
    bounds_in(declared_in(text, name, true, Declared::Never, list))
}

fn bounds_in<'a>(found: Declared<'a>) -> &'a [Token]
    ensures { result.now ≡ spec.bounds_in (spec.declared_view found.entry) }
{
    match found {
        Declared::Once(declaration) => in_parentheses(from(TokenKind::LeftParen, declaration)),
        _ => &[],
    }
}

/// Whether these tokens declare this name: a list of generics or ports, or others.
pub fn is_declared(text: &[u8], name: &[u8], in_list: bool, tokens: &[Token]) -> bool
    ensures { result ≡ spec.is_declared text.now name.now in_list tokens.now }
{
    !matches!(
        declared_in(text, name, in_list, Declared::Never, tokens),
        Declared::Never
    )
}

/// What a name is that the architecture before a byte, or a port of its entity, declares.
pub fn known_object(source: Lexed<'_>, name: &[u8], before: &[Token]) -> Known
    ensures { result ≡ spec.known_object source.entry.text.now name.now source.entry.tokens.now before.now }
{
    match all_declared(source, name, before) {
        Declared::Never => Known::Unknown,
        Declared::Once(declaration) => {
            if is_element(source.text, declaration) {
                Known::Element
            } else {
                Known::Object
            }
        }
        Declared::Often => Known::Object,
    }
}

/// Whether a declaration is of one element, a whole number or a boolean.
fn is_element(text: &[u8], declaration: &[Token]) -> bool
    ensures { result ≡ spec.is_element text.now declaration.now }
{
    names_element(first_text(Lexed {
        text,
        tokens: from(TokenKind::Identifier, declaration),
    }))
}

/// How often the architecture before a byte and the ports of its entity declare a name together.
fn all_declared<'a>(source: Lexed<'a>, name: &[u8], before: &'a [Token]) -> Declared<'a>
    ensures { spec.declared_view result
        ≡ spec.all_declared source.entry.text.now name.now source.entry.tokens.now before.now }
{
    let architecture = behind_last(TokenKind::Architecture, before);
    let found = declared_in(source.text, name, false, Declared::Never, architecture);
    declared_in(
        source.text,
        name,
        true,
        found,
        ports_of(source, architecture),
    )
}

/// The ports of the entity of an architecture, which stands from its name on.
pub fn ports_of<'a>(source: Lexed<'a>, architecture: &[Token]) -> &'a [Token]
    ensures { result.now ≡ spec.ports_of source.entry.text.now source.entry.tokens.now architecture.now }
{
    match architecture {
        [_, _, entity, ..] => formals(
            true,
            interface_of(source.text, text_of(source.text, *entity), source.tokens),
        ),
        _ => &[],
    }
}

/// How often a name is declared in these tokens, behind those in which it was found so often.
fn declared_in<'a>(
    text: &[u8],
    name: &[u8],
    in_list: bool,
    before: Declared<'a>,
    tokens: &'a [Token],
) -> Declared<'a>
    ensures { spec.declared_view result
        ≡ spec.declared_in text.now name.now in_list (spec.declared_view before.entry) tokens.now }
{
    let mut found = before;
    let mut left = tokens;
    while let [token, rest @ ..] = left {
        found = declared_at(text, name, in_list, found, *token, rest);
        left = rest;
    }
    found
}

/// How often behind a token, these standing behind it.
fn declared_at<'a>(
    text: &[u8],
    name: &[u8],
    in_list: bool,
    found: Declared<'a>,
    token: Token,
    behind: &'a [Token],
) -> Declared<'a>
    ensures { spec.declared_view result
        ≡ spec.declared_at text.now name.now in_list (spec.declared_view found.entry) token behind.now }
{
    if opens(in_list, token.kind) && declares(text, name, behind) {
        once_more(
            found,
            up_to(TokenKind::Semicolon, from(TokenKind::Colon, behind)),
        )
    } else {
        found
    }
}

/// Whether a declaration stands behind such a token: behind signal, variable or constant, and in a
/// list of generics or ports behind `(` or `;` too.
fn opens(in_list: bool, kind: TokenKind) -> bool
    ensures { result ≡ spec.opens in_list kind }
{
    (in_list
        && (is_same_kind(kind, TokenKind::LeftParen) || is_same_kind(kind, TokenKind::Semicolon)))
        || is_same_kind(kind, TokenKind::Signal)
        || is_same_kind(kind, TokenKind::Variable)
        || is_same_kind(kind, TokenKind::Constant)
}

/// Whether these tokens begin with names of a declaration, this one among them, and a colon.
fn declares(text: &[u8], name: &[u8], tokens: &[Token]) -> bool
    ensures { result ≡ spec.declares text.now name.now tokens.now }
{
    let names = Lexed {
        text,
        tokens: up_to(TokenKind::Colon, tokens),
    };
    begins_declaration(tokens) && is_literal(names, name)
}

/// One declaration more.
fn once_more<'a>(found: Declared<'a>, declaration: &'a [Token]) -> Declared<'a>
    ensures { spec.declared_view result ≡ spec.once_more (spec.declared_view found.entry) declaration.now }
{
    match found {
        Declared::Never => Declared::Once(declaration),
        _ => Declared::Often,
    }
}

// ---- a range without elements

/// What stands in parentheses behind the name at the front, or in its declaration behind the type.
pub fn range_at(tokens: &[Token]) -> &[Token]
    ensures { result.now ≡ spec.range_at tokens.now }
{
    let behind = past(1, tokens);
    if begins(TokenKind::LeftParen, behind) {
        in_parentheses(behind)
    } else {
        let declaration = from(TokenKind::Colon, up_to(TokenKind::Semicolon, tokens));
        in_parentheses(from(TokenKind::LeftParen, declaration))
    }
}

/// Whether the bounds of a range are integers, and no number stands between them.
pub fn is_empty(text: &[u8], range: &[Token]) -> bool
    ensures { result ≡ spec.is_empty text.now range.now }
{
    match range {
        [left, direction, right] => {
            is_same_kind(left.kind, TokenKind::Integer)
                && is_same_kind(right.kind, TokenKind::Integer)
                && ((is_same_kind(direction.kind, TokenKind::Downto)
                    && bound_of(text, *left) < bound_of(text, *right))
                    || (is_same_kind(direction.kind, TokenKind::To)
                        && bound_of(text, *right) < bound_of(text, *left)))
        }
        _ => false,
    }
}

/// The number that an integer writes; of one that is too great the greatest.
fn bound_of(text: &[u8], token: Token) -> u32
    ensures { result ≡ spec.bound_of text.now token }
{
    match integer_value(text_of(text, token)) {
        Some(number) => number,
        None => MAX_INTEGER,
    }
}
