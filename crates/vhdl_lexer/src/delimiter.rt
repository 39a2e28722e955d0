//! Delimiters (IEEE 1076-2008, 15.3).

ghost use Rattle.std.specs.Prelude.{◌≡◌};
ghost use Rattle.vhdl_lexer.specs.Delimiters as spec;
ghost use Rattle.vhdl_lexer.specs.Scan as scan;

use crate::byte::begins;
use crate::fault::LexFault;
use crate::token::TokenKind;

fn pair(b: u8, c: u8) -> Option<TokenKind>
    ensures { result ≡ spec.pair b c }
{
    match (b, c) {
        (b'=', b'>') => Some(TokenKind::Arrow),
        (b':', b'=') => Some(TokenKind::Assign),
        (b'<', b'=') => Some(TokenKind::LessEqual),
        (b'>', b'=') => Some(TokenKind::GreaterEqual),
        (b'/', b'=') => Some(TokenKind::NotEqual),
        _ => None,
    }
}

fn single(b: u8) -> Option<TokenKind>
    ensures { result ≡ spec.single b }
{
    match b {
        b'&' => Some(TokenKind::Ampersand),
        b'\'' => Some(TokenKind::Tick),
        b'(' => Some(TokenKind::LeftParen),
        b')' => Some(TokenKind::RightParen),
        b'*' => Some(TokenKind::Star),
        b'+' => Some(TokenKind::Plus),
        b',' => Some(TokenKind::Comma),
        b'-' => Some(TokenKind::Minus),
        b'.' => Some(TokenKind::Dot),
        b'/' => Some(TokenKind::Slash),
        b':' => Some(TokenKind::Colon),
        b';' => Some(TokenKind::Semicolon),
        b'<' => Some(TokenKind::Less),
        b'=' => Some(TokenKind::Equal),
        b'>' => Some(TokenKind::Greater),
        b'|' => Some(TokenKind::Bar),
        _ => None,
    }
}

/// The delimiter of two bytes that begins with a byte, where this text follows it.
fn longer(b: u8, after: &[u8]) -> Option<TokenKind>
    ensures { result ≡ scan.longer b after.now }
{
    match after.first() {
        None => None,
        Some(c) => pair(b, *c),
    }
}

/// The longest delimiter that begins with a byte, which stands at `at`, where this text follows it.
#[tactic(auto, unfolding(crate::specs::Scan::mark))]
pub fn mark(b: u8, after: &[u8], at: usize) -> Result<(TokenKind, usize), LexFault>
    ensures { result ≡ scan.mark at b after.now }
{
    if b == b'/' && begins(b'*', after) {
        return Err(LexFault::OpenComment { at });
    }
    if let Some(kind) = longer(b, after) {
        return Ok((kind, 2));
    }
    match single(b) {
        None => Err(LexFault::BadByte { at }),
        Some(kind) => Ok((kind, 1)),
    }
}
