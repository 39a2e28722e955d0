//! The parts of a sentence, and how each is written.

ghost use Rattle.std.specs.Prelude.{flat_map};
ghost use Rattle.byte_streams.specs.Written.{Goes};
ghost use Rattle.vhdl_slips.specs.Words.{read_of};
ghost use Rattle.vhdl_hints.specs.Sayings as spec;

use byte_streams::{Sink, push_number, push_text};
use vhdl_lexer::{Token, TokenKind};
use vhdl_slips::{Lexed, Listing, first_of, has, past, push_names, push_subject, text_of};

/// A part of a sentence.
#[derive(Clone, Copy)]
pub(crate) enum Part<'a> {
    /// The word that the fault is at.
    Subject,
    Text(&'a str),
    Word(Token),
    /// Tokens with a blank between two.
    Words(&'a [Token]),
    /// The bounds of a port, where they are known.
    Bounds(&'a [Token]),
    /// The names of the generics of an entity, where it has some.
    Generics(&'a [Token]),
    Number(usize),
    /// The names of generics or ports.
    Names(Listing, &'a [Token]),
}

/// Writes parts, one behind the other.
pub(crate) fn push_parts<S: Sink>(words: Lexed<'_>, parts: &[Part<'_>], sink: &mut S)
    ensures { Goes (S.state sink.old) (S.state sink.new)
        (flat_map (spec.code_text (read_of words.entry)) parts.now) }
{
    for part in parts {
        push_part(words, *part, sink);
    }
}

/// Writes a part.
fn push_part<S: Sink>(words: Lexed<'_>, part: Part<'_>, sink: &mut S)
    ensures { Goes (S.state sink.old) (S.state sink.new)
        (spec.code_text (read_of words.entry) part.entry) }
{
    let text = words.text;
    match part {
        Part::Subject => push_subject(words, sink),
        Part::Text(said) => push_text(sink, said.as_bytes()),
        Part::Word(token) => push_text(sink, text_of(text, token)),
        Part::Words(tokens) => push_words(text, tokens, sink),
        Part::Bounds(tokens) => push_bounds(text, tokens, sink),
        Part::Generics(tokens) => push_generics(text, tokens, sink),
        Part::Number(number) => push_number(sink, number as u64),
        Part::Names(listing, tokens) => push_names(listing, Lexed { text, tokens }, sink),
    }
}

/// Writes the bounds of a port, where they are known.
fn push_bounds<S: Sink>(text: &[u8], bounds: &[Token], sink: &mut S)
    ensures { Goes (S.state sink.old) (S.state sink.new) (spec.bounds_text text.now bounds.now) }
{
    if bounds.is_empty() {
        push_text(sink, b"");
    } else {
        push_text(sink, b", as (");
        push_words(text, bounds, sink);
        push_text(sink, b")");
    }
}

/// Writes the names of the generics of an entity, where it has some.
fn push_generics<S: Sink>(text: &[u8], generics: &[Token], sink: &mut S)
    ensures { Goes (S.state sink.old) (S.state sink.new) (spec.generics_text text.now generics.now) }
{
    if has(TokenKind::Colon, generics) {
        let tokens = generics;
        push_names(Listing::Generics, Lexed { text, tokens }, sink);
        push_text(sink, b"; ");
    } else {
        push_text(sink, b"");
    }
}

/// Writes tokens of a text, with a blank between two.
fn push_words<S: Sink>(text: &[u8], tokens: &[Token], sink: &mut S)
    ensures { Goes (S.state sink.old) (S.state sink.new) (spec.words_text text.now tokens.now) }
{
    match first_of(tokens) {
        Some(first) => {
            push_text(sink, text_of(text, first));
            push_parted(text, past(1, tokens), sink);
        }
        None => push_text(sink, b""),
    }
}

/// Writes tokens of a text, with a blank before each.
fn push_parted<S: Sink>(text: &[u8], tokens: &[Token], sink: &mut S)
    ensures { Goes (S.state sink.old) (S.state sink.new) (flat_map (spec.parted text.now) tokens.now) }
{
    for token in tokens {
        push_blank_and(text, *token, sink);
    }
}

/// Writes a blank and a token of a text.
fn push_blank_and<S: Sink>(text: &[u8], token: Token, sink: &mut S)
    ensures { Goes (S.state sink.old) (S.state sink.new) (spec.parted text.now token) }
{
    push_text(sink, b" ");
    push_text(sink, text_of(text, token));
}
