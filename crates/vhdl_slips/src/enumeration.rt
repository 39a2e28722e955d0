//! Enumerations.

ghost use Rattle.std.specs.Prelude.{◌≡◌, map};
ghost use Rattle.vhdl_slips.specs.Choices as spec;
ghost use Rattle.vhdl_slips.specs.Words.{read_of};

use crate::lexed::{Lexed, is_same_kind, is_same_word, text_of};
use crate::part::{past, up_to};
use vhdl_lexer::{Token, TokenKind};

/// The literals of type std_ulogic, which the package std_logic_1164 declares.
pub const STD_ULOGIC: &[u8] = b"'U''X''0''1''Z''W''L''H''-'";

macro_rules! characters {
    ($($start:literal)+) => {
        [$(Token { kind: TokenKind::Character, start: $start, end: $start + 3 }),+]
    };
}

/// Its tokens.
pub const STD_ULOGIC_TOKENS: [Token; 9] = characters!(0 3 6 9 12 15 18 21 24);

/// Those of type std_ulogic.
fn std_ulogic() -> Lexed<'static>
    ensures value { read_of result ≡ spec.std_ulogic }
    ensures literals { map spec.in_std_ulogic result.tokens.now ≡ spec.nine_values }
{
    Lexed {
        text: STD_ULOGIC,
        tokens: &STD_ULOGIC_TOKENS,
    }
}

/// The literals of the last enumeration that has this one, of the last architecture among these
/// words; those of type std_ulogic where none has it.
pub fn type_of<'a>(words: Lexed<'a>, literal: &[u8]) -> Lexed<'a>
    ensures { read_of result ≡ spec.type_of (read_of words.entry) literal.now }
{
    let mut found = std_ulogic();
    let mut left = words.tokens;
    while let [token, rest @ ..] = left {
        found = type_at(found, words.text, *token, rest, literal);
        left = rest;
    }
    found
}

/// The literals of the enumeration that a token begins, these tokens behind it, where it has this
/// literal; an architecture begins without one; else those found before.
fn type_at<'a>(
    found: Lexed<'a>,
    text: &'a [u8],
    token: Token,
    behind: &'a [Token],
    literal: &[u8],
) -> Lexed<'a>
    ensures { read_of result ≡ spec.type_at literal.now text.now (read_of found.entry) token behind.now }
{
    let literals = Lexed {
        text,
        tokens: literals_of(behind),
    };
    if is_same_kind(token.kind, TokenKind::Architecture) {
        std_ulogic()
    } else if is_same_kind(token.kind, TokenKind::Type) && is_literal(literals, literal) {
        literals
    } else {
        found
    }
}

/// What stands in the parentheses of `NAME is ( LITERAL { , LITERAL } )`, with which these tokens
/// begin.
pub fn literals_of(tokens: &[Token]) -> &[Token]
    ensures { result.now ≡ spec.literals_of tokens.now }
{
    up_to(TokenKind::RightParen, past(3, tokens))
}

/// Whether a word is one of these, in letters of either case.
pub fn is_literal(words: Lexed<'_>, word: &[u8]) -> bool
    ensures { result ≡ spec.is_among (read_of words.entry) word.now }
{
    words
        .tokens
        .iter()
        .any(|token| is_same_word(text_of(words.text, *token), word))
}
