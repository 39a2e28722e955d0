//! Integers (IEEE 1076-2008, 15.5.2), characters (15.6), strings (15.7) and bit strings (15.8).

ghost use Rattle.std.specs.Prelude.{◌≡◌, ◌≤◌, ◌<◌, length, Some, None, IfSome, IfNone};
ghost use Rattle.std.specs.List.{list_all};
ghost use Rattle.vhdl_lexer.specs.Bytes as bytes;
ghost use Rattle.vhdl_lexer.specs.Literals as spec;
ghost use Rattle.vhdl_lexer.specs.Scan as scan;

use crate::byte::{ByteClass, begins, ends_line, is_printable, is_word_byte};
use crate::fault::LexFault;
use crate::token::TokenKind;
use crate::word::{is_joined, run};

/// The greatest integer that is read, 2,147,483,647.
pub const MAX_INTEGER: u32 = 2_147_483_647;

/// The number that the text of an integer writes, or `None` above `MAX_INTEGER`. Bytes that are
/// no digits count for nothing.
pub fn integer_value(mut text: &[u8]) -> Option<u32>
    ensures some { IfSome result (λ n. n ≡ spec.integer_of text.entry.now) }
    ensures fits { IfSome result (λ n. n ≤ spec.greatest_integer) }
    ensures none { IfNone result (spec.greatest_integer < spec.integer_of text.entry.now) }
{
    let mut value: u64 = 0;
    while let [b, rest @ ..] = text {
        if b.is_ascii_digit() {
            value = 10 * value + u64::from(*b - b'0');
            if value > u64::from(MAX_INTEGER) {
                return None;
            }
        }
        text = rest;
    }
    Some(value as u32)
}

/// Whether a byte stands here that may not directly follow an integer.
fn goes_on_number(text: &[u8]) -> bool
    ensures { result ≡ spec.goes_on_number text.now }
{
    let [b, after @ ..] = text else {
        return false;
    };
    is_word_byte(*b) || *b == b'#' || *b == b'.' && begins_digit(after)
}

fn begins_digit(text: &[u8]) -> bool
    ensures { result ≡ spec.begins_digit text.now }
{
    match text.first() {
        None => false,
        Some(b) => b.is_ascii_digit(),
    }
}

/// The integer at the front of a text that begins with a digit, at `at`, and its length.
#[tactic(auto, unfolding(crate::specs::Scan::number))]
pub fn number(text: &[u8], at: usize) -> Result<(TokenKind, usize), LexFault>
    ensures { result ≡ scan.number at text.now }
{
    let len = run(text);
    let (digits, rest) = text.split_at(len);
    if is_joined(ByteClass::Decimal, digits)
        && !goes_on_number(rest)
        && integer_value(digits).is_some()
    {
        Ok((TokenKind::Integer, len))
    } else {
        Err(LexFault::BadNumber { at })
    }
}

/// Whether a tick behind this token may open a character literal.
fn may_open(last: Option<TokenKind>) -> bool
    ensures { result ≡ spec.may_open last }
{
    match last {
        Some(TokenKind::Identifier) | Some(TokenKind::RightParen) => false,
        _ => true,
    }
}

/// Whether a byte to print comes, and then a tick.
fn closes(text: &[u8]) -> bool
    ensures { result ≡ spec.closes text.now }
{
    let [c, after @ ..] = text else {
        return false;
    };
    is_printable(*c) && begins(b'\'', after)
}

/// The character literal or the tick that stands before the text, behind that token.
#[tactic(auto, unfolding(crate::specs::Scan::character))]
pub fn character(last: Option<TokenKind>, after: &[u8]) -> Result<(TokenKind, usize), LexFault>
    ensures { result ≡ scan.character last after.now }
{
    if may_open(last) && closes(after) {
        Ok((TokenKind::Character, 3))
    } else {
        Ok((TokenKind::Tick, 1))
    }
}

/// The text from a string's closing quotation mark on, or `None` where the line ends before.
fn from_quote(mut text: &[u8]) -> Option<&[u8]>
    ensures closed { IfSome result (λ end. scan.from_quote text.entry.now ≡ Some end.now) }
    ensures within { IfSome result (λ end. length end.now ≤ length text.entry.now) }
    ensures left_open { IfNone result (scan.from_quote text.entry.now ≡ None) }
{
    while let [b, rest @ ..] = text {
        if *b == b'"' {
            let [b'"', after @ ..] = rest else {
                return Some(text);
            };
            text = after;
        } else if ends_line(*b) {
            return None;
        } else {
            text = rest;
        }
    }
    None
}

/// The text from the line's first quotation mark on, or `None` where the line has none.
fn from_first_quote(mut text: &[u8]) -> Option<&[u8]>
    ensures closed { IfSome result (λ end. scan.from_first_quote text.entry.now ≡ Some end.now) }
    ensures within { IfSome result (λ end. length end.now ≤ length text.entry.now) }
    ensures left_open { IfNone result (scan.from_first_quote text.entry.now ≡ None) }
{
    while let [b, rest @ ..] = text {
        if *b == b'"' {
            return Some(text);
        }
        if ends_line(*b) {
            return None;
        }
        text = rest;
    }
    None
}

fn are_printable(text: &[u8]) -> bool
    ensures { result ≡ list_all bytes.is_printable text.now }
{
    text.iter().all(|b| is_printable(*b))
}

/// The string at `at` before whose text, behind the opening quotation mark, this is.
#[tactic(auto, unfolding(crate::specs::Scan::string))]
pub fn string(text: &[u8], at: usize) -> Result<(TokenKind, usize), LexFault>
    ensures { result ≡ scan.string at text.now }
{
    let Some(end) = from_quote(text) else {
        return Err(LexFault::OpenString { at });
    };
    let len = text.len() - end.len();
    if are_printable(&text[..len]) {
        Ok((TokenKind::String, len + 2))
    } else {
        Err(LexFault::BadByte { at })
    }
}

/// The bit string of such digits at `at`, behind the opening quotation mark.
#[tactic(auto, unfolding(crate::specs::Scan::bit_string))]
pub fn bit_string(class: ByteClass, text: &[u8], at: usize) -> Result<(TokenKind, usize), LexFault>
    ensures { result ≡ scan.bit_string at class text.now }
{
    let Some(end) = from_first_quote(text) else {
        return Err(LexFault::OpenString { at });
    };
    let len = text.len() - end.len();
    if is_joined(class, &text[..len]) {
        Ok((TokenKind::BitString, len + 3))
    } else {
        Err(LexFault::BadNumber { at })
    }
}
