//! Reserved words in place of names.

ghost use Rattle.std.specs.Prelude.{◌≡◌, ◌≤◌, length, option_map, IfOk};
ghost use Rattle.vhdl_parser_rules.specs.Expected.{said_of};
ghost use Rattle.vhdl_expected.specs.Reading.{IsWithin, reading_of};
ghost use Rattle.vhdl_expected.specs.Told as spec;
ghost use Rattle.vhdl_tree.specs.Lexeme.{same_kind};

use crate::reading::Reading;
use crate::row::kinds;
use crate::texts::RESERVED;
use crate::trial::{is_same_kind, tried};
use std::alloc::{AllocError, Global};
use vhdl_lexer::{Token, TokenKind};
use vhdl_parser_rules::{Said, behind};

/// What is no reserved word, and those for which no name stands.
pub static NO_NAMES: [TokenKind; 28] = kinds!(
    Identifier Integer Character String BitString Arrow Assign LessEqual GreaterEqual NotEqual
    Ampersand Tick LeftParen RightParen Star Plus Comma Minus Dot Slash Colon Semicolon Less Equal
    Greater Bar End Others
);

/// What is said of a reserved word where the text goes on with a name.
pub(crate) fn named(alloc: Global, reading: Reading<'_>) -> Result<Option<Said>, AllocError>
    requires within { IsWithin reading }
    requires place { reading.refused ≤ length reading.tokens.now }
    ensures { IfOk result (λ said. spec.Finds (reading_of reading.entry) (spec.named (reading_of reading.entry))
        (option_map said_of said)) }
{
    let from_last = behind(reading.tokens, reading.refused.saturating_sub(1));
    if !is_reserved(from_last) {
        return Ok(None);
    }
    tried(
        alloc,
        reading,
        reading.refused,
        (&[TokenKind::Identifier], 1, RESERVED),
    )
}

/// Whether the second of these tokens is a reserved word where a name may stand.
fn is_reserved(tokens: &[Token]) -> bool
    ensures { result ≡ spec.is_reserved tokens.now }
{
    match tokens {
        [last, token, next, ..] => { is_between(last.kind, next.kind) && !is_no_name(token.kind) }
        _ => false,
    }
}

/// Whether a name may stand between tokens of these kinds.
fn is_between(last: TokenKind, next: TokenKind) -> bool
    ensures { result ≡ spec.is_between last next }
{
    !(is_same_kind(last, TokenKind::Tick)
        || is_same_kind(last, TokenKind::End)
        || is_same_kind(next, TokenKind::LeftParen))
}

/// Whether it's no reserved word, or one for which no name stands.
fn is_no_name(kind: TokenKind) -> bool
    ensures { result ≡ spec.is_no_name kind }
{
    NO_NAMES.iter().any(|other| is_same_kind(kind, *other))
}
