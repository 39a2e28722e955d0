//! Tokens as words.

ghost use Rattle.std.specs.Prelude.{◌≡◌, ◌≤◌, length};
ghost use Rattle.std.specs.List.{prefix_len};
ghost use Rattle.std.specs.Str.{str_eq_ignore_ascii_case};
ghost use Rattle.byte_streams.specs.Written.{Goes};
ghost use Rattle.vhdl_slips.specs.Words as spec;
ghost use Rattle.vhdl_tree.specs.Lexeme.{same_kind};

use byte_streams::{Sink, push_text};
use vhdl_lexer::{Token, TokenKind};
use vhdl_source_files::halves;

/// A text and tokens of it.
#[derive(Clone, Copy)]
pub struct Lexed<'a> {
    pub text: &'a [u8],
    pub tokens: &'a [Token],
}

impl<'a> Lexed<'a> {
    /// Those before a byte of the text, and those from it on.
    pub fn split_at(self, at: usize) -> (Lexed<'a>, Lexed<'a>)
        ensures before { spec.read_of result.0 ≡ spec.before at (spec.read_of self.entry) }
        ensures from { spec.read_of result.1 ≡ spec.from at (spec.read_of self.entry) }
    {
        let (before, from) = self.tokens.split_at(count_before(self.tokens, at));
        (
            Lexed {
                text: self.text,
                tokens: before,
            },
            Lexed {
                text: self.text,
                tokens: from,
            },
        )
    }
}

/// How many of the tokens start before a byte.
fn count_before(tokens: &[Token], at: usize) -> usize
    ensures value { result ≡ prefix_len (spec.starts_before at) tokens.now }
    ensures within { result ≤ length tokens.now }
{
    tokens
        .iter()
        .take_while(|token| (token.start as usize) < at)
        .count()
}

/// How a token of a text is written.
pub fn text_of(text: &[u8], token: Token) -> &[u8]
    ensures { result.now ≡ spec.text_of text.now token }
{
    let (_, from) = halves(text, token.start as usize);
    let (written, _) = halves(from, token.end.saturating_sub(token.start) as usize);
    written
}

/// How the first of the words is written; nothing without one.
pub fn first_text(words: Lexed<'_>) -> &[u8]
    ensures { result.now ≡ spec.first_text (spec.read_of words.entry) }
{
    match words.tokens {
        [] => &[],
        [token, ..] => text_of(words.text, *token),
    }
}

/// Whether two texts are one word, in capitals or small letters.
pub fn is_same_word(first: &[u8], second: &[u8]) -> bool
    ensures { result ≡ str_eq_ignore_ascii_case first.now second.now }
{
    first.eq_ignore_ascii_case(second)
}

#[tactic(auto, unfolding(vhdl_tree::specs::Lexeme::same_kind))]
pub fn is_same_kind(first: TokenKind, second: TokenKind) -> bool
    ensures { result ≡ same_kind first second }
{
    first == second
}

/// Writes the first of the words, as a sentence begins with it.
pub fn push_subject<S: Sink>(words: Lexed<'_>, sink: &mut S)
    ensures { Goes (S.state sink.old) (S.state sink.new) (spec.subject (spec.read_of words.entry)) }
{
    match words.tokens {
        [] => push_text(sink, b"the end of the text "),
        [token, ..] => push_quoted(text_of(words.text, *token), sink),
    }
}

/// Writes a word in ticks.
pub fn push_quoted<S: Sink>(word: &[u8], sink: &mut S)
    ensures { Goes (S.state sink.old) (S.state sink.new) (spec.quoted word.now) }
{
    push_text(sink, b"`");
    push_text(sink, word);
    push_text(sink, b"` ");
}
