//! Identifiers (IEEE 1076-2008, 15.4) and reserved words (15.10).

ghost use Rattle.std.specs.Prelude.{◌≡◌, ◌≤◌, ◌<◌, true, List, [], map, length, slice_index_or};
ghost use Rattle.std.specs.Char.{is_ascii_alphabetic};
ghost use Rattle.std.specs.Str.{str_eq_ignore_ascii_case};
ghost use Rattle.vhdl_lexer.specs.Words as spec;
ghost use Rattle.vhdl_lexer.specs.Words.{Word};
ghost use Rattle.vhdl_lexer.specs.Scan as scan;

use crate::byte::{ByteClass, begins, is_word_byte};
use crate::fault::LexFault;
use crate::token::{RESERVED_WORDS, TokenKind};

/// How many letters, digits and underscores the text begins with.
pub fn run(text: &[u8]) -> usize
    ensures value { result ≡ scan.run text.now }
    ensures within { result ≤ length text.now }
{
    text.iter().take_while(|b| is_word_byte(**b)).count()
}

/// Whether the text is bytes of a class with single underscores between them.
pub fn is_joined(class: ByteClass, text: &[u8]) -> bool
    ensures { result ≡ spec.is_joined class text.now }
{
    let [first, rest @ ..] = text else {
        return false;
    };
    class.has(*first) && goes_on(class, rest)
}

/// Whether the text may follow a byte of the class in such bytes, up to their end.
fn goes_on(class: ByteClass, mut text: &[u8]) -> bool
    ensures { result ≡ spec.goes_on class text.entry.now }
{
    let mut joined = false;
    while let [b, rest @ ..] = text {
        if class.has(*b) {
            joined = false;
        } else if *b == b'_' && !joined {
            joined = true;
        } else {
            return false;
        }
        text = rest;
    }
    !joined
}

/// Whether letters and digits, with single underscores between them, follow a letter.
fn is_identifier(text: &[u8]) -> bool
    ensures { result ≡ spec.is_identifier text.now }
{
    let [first, rest @ ..] = text else {
        return false;
    };
    first.is_ascii_alphabetic() && goes_on(ByteClass::LetterOrDigit, rest)
}

/// Whether two texts are one word, in capitals or small letters.
fn same_word(a: &[u8], b: &[u8]) -> bool
    ensures { result ≡ str_eq_ignore_ascii_case a.now b.now }
{
    a.eq_ignore_ascii_case(b)
}

fn kind_among(mut words: &[(&[u8], TokenKind)], text: &[u8]) -> TokenKind
    ensures { result ≡ spec.kind_among (map (λ w. (w.0.now, w.1)) words.entry.now) text.now }
{
    while let [word, rest @ ..] = words {
        if same_word(word.0, text) {
            return word.1;
        }
        words = rest;
    }
    TokenKind::Identifier
}

/// The group of words at a place.
fn group<'a>(groups: &[&'a [(&'a [u8], TokenKind)]], at: usize) -> &'a [(&'a [u8], TokenKind)]
    requires { at < length groups.now }
    ensures { map {B = Word} (λ w. (w.0.now, w.1)) result.now ≡ slice_index_or (map {B = List Word}
        (λ words. map {B = Word} (λ w. (w.0.now, w.1)) words.now) groups.now) at [] }
{
    groups[at]
}

/// The reserved words that begin with a letter.
fn words_of(letter: u8) -> &'static [(&'static [u8], TokenKind)]
    requires { is_ascii_alphabetic letter ≡ true }
    ensures { map (λ w. (w.0.now, w.1)) result.now ≡ scan.words_of letter }
{
    group(
        &RESERVED_WORDS,
        usize::from(letter.to_ascii_lowercase() - b'a'),
    )
}

/// The kind of an identifier: of a reserved word, its own. Looks among the words of its letter.
fn word_kind(text: &[u8]) -> TokenKind
    requires { spec.is_identifier text.now ≡ true }
    ensures { result ≡ spec.word_kind text.now }
{
    kind_among(words_of(text[0]), text)
}

/// The identifier or reserved word at the front of a text, at `at`, and its length.
#[tactic(auto, unfolding(crate::specs::Scan::word))]
pub fn word(text: &[u8], at: usize) -> Result<(TokenKind, usize), LexFault>
    ensures { result ≡ scan.word at text.now }
{
    let len = run(text);
    let slice = &text[..len];
    if is_identifier(slice) {
        Ok((word_kind(slice), len))
    } else {
        Err(LexFault::BadIdentifier { at })
    }
}

/// The digits of the bit string that opens here, if one does.
pub fn opened_class(text: &[u8]) -> Option<ByteClass>
    ensures { result ≡ spec.opened_class text.now }
{
    let [base, after @ ..] = text else {
        return None;
    };
    if begins(b'"', after) {
        base_class(*base)
    } else {
        None
    }
}

fn base_class(base: u8) -> Option<ByteClass>
    ensures { result ≡ spec.base_class base }
{
    match base.to_ascii_lowercase() {
        b'x' => Some(ByteClass::Hexadecimal),
        b'o' => Some(ByteClass::Octal),
        b'b' => Some(ByteClass::Binary),
        _ => None,
    }
}
