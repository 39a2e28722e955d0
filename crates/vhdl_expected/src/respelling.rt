//! Words of the grammar that are meant by identifiers.

ghost use Rattle.std.specs.Prelude.{◌≡◌, ◌≤◌, drop, flat_map, length, map, option_map, IfOk};
ghost use Rattle.vhdl_parser_rules.specs.Expected.{said_of};
ghost use Rattle.vhdl_expected.specs.Reading.{IsPart, IsWithin, reading_of};
ghost use Rattle.vhdl_expected.specs.Changes.{change_of};
ghost use Rattle.vhdl_expected.specs.Told as spec;

use crate::reading::Reading;
use crate::row::Change;
use crate::trial::tried;
use crate::word::{Word, words};
use std::alloc::{AllocError, Global};
use vhdl_lexer::{Token, TokenKind};
use vhdl_parser_rules::{Said, is_near};

/// At how many places a word may be meant: the refused token and those before it.
pub(crate) const MOST_PLACES: usize = 16;

/// What is said of the first word with which the text goes on in place of the refused token, or
/// else of a token shortly before it.
pub(crate) fn respelt(alloc: Global, reading: Reading<'_>) -> Result<Option<Said>, AllocError>
    requires within { IsWithin reading }
    requires place { reading.refused ≤ length reading.tokens.now }
    ensures { IfOk result (λ said. spec.Finds (reading_of reading.entry) (spec.respelt (reading_of reading.entry))
        (option_map said_of said)) }
{
    let mut place = reading.refused;
    let mut places = MOST_PLACES.min(reading.refused + 1);
    while places > 0 {
        let said = respelt_at(alloc, reading, place)?;
        if said.is_some() {
            return Ok(said);
        }
        place = place.saturating_sub(1);
        places -= 1;
    }
    Ok(None)
}

/// The same at one place.
fn respelt_at(alloc: Global, reading: Reading<'_>, place: usize) -> Result<Option<Said>, AllocError>
    requires within { IsWithin reading }
    requires place { place ≤ length reading.tokens.now }
    ensures { IfOk result (λ said. spec.Finds (reading_of reading.entry)
        (spec.respelt_first (reading_of reading.entry) place (drop place reading.entry.tokens.now))
        (option_map said_of said)) }
{
    let (_, from) = reading.tokens.split_at(place);
    let [token, ..] = from else {
        return Ok(None);
    };
    if !is_identifier(token.kind) {
        return Ok(None);
    }
    respelt_token(alloc, reading, place, *token)
}

/// The same of the identifier that stands there.
fn respelt_token(
    alloc: Global,
    reading: Reading<'_>,
    place: usize,
    token: Token,
) -> Result<Option<Said>, AllocError>
    requires within { IsWithin reading }
    requires place { place ≤ length reading.tokens.now }
    requires token { IsPart reading.source.now token }
    ensures { IfOk result (λ said. spec.Finds (reading_of reading.entry)
        (flat_map (spec.respelt_in (reading_of reading.entry) place token) spec.words) (option_map said_of said)) }
{
    respelt_among(alloc, reading, place, token, &words())
}

/// What is said of the first word of these tables that is meant by the token and with which the
/// text goes on.
fn respelt_among(
    alloc: Global,
    reading: Reading<'_>,
    place: usize,
    token: Token,
    tables: &[&[Word]],
) -> Result<Option<Said>, AllocError>
    requires within { IsWithin reading }
    requires place { place ≤ length reading.tokens.now }
    requires token { IsPart reading.source.now token }
    ensures { IfOk result (λ said. spec.Finds (reading_of reading.entry)
        (flat_map (spec.respelt_in (reading_of reading.entry) place token) (map spec.words_of tables.now))
        (option_map said_of said)) }
{
    let mut left = tables;
    while let [words, rest @ ..] = left {
        let said = respelt_in(alloc, reading, place, token, words)?;
        if said.is_some() {
            return Ok(said);
        }
        left = rest;
    }
    Ok(None)
}

/// The same of one table.
fn respelt_in(
    alloc: Global,
    reading: Reading<'_>,
    place: usize,
    token: Token,
    words: &[Word],
) -> Result<Option<Said>, AllocError>
    requires within { IsWithin reading }
    requires place { place ≤ length reading.tokens.now }
    requires token { IsPart reading.source.now token }
    ensures { IfOk result (λ said. spec.Finds (reading_of reading.entry)
        (spec.respelt_in (reading_of reading.entry) place token (spec.words_of words.entry))
        (option_map said_of said)) }
{
    let mut left = words;
    while let [word, rest @ ..] = left {
        let said = respelt_as(alloc, reading, place, token, *word)?;
        if said.is_some() {
            return Ok(said);
        }
        left = rest;
    }
    Ok(None)
}

/// The same of one word.
fn respelt_as(
    alloc: Global,
    reading: Reading<'_>,
    place: usize,
    token: Token,
    word: Word,
) -> Result<Option<Said>, AllocError>
    requires within { IsWithin reading }
    requires place { place ≤ length reading.tokens.now }
    requires token { IsPart reading.source.now token }
    ensures { IfOk result (λ said. spec.Finds (reading_of reading.entry)
        (spec.respelt_as (reading_of reading.entry) place token (spec.word_of word.entry))
        (option_map said_of said)) }
{
    let text = &reading.source[token.start as usize..token.end as usize];
    if !is_near(text, word.0.as_bytes()) {
        return Ok(None);
    }
    tried(
        alloc,
        reading,
        place,
        in_place(place == reading.refused, word),
    )
}

/// A word in place of the refused token or of another.
fn in_place(is_refused: bool, word: Word) -> Change
    ensures { change_of result ≡ spec.in_place is_refused (spec.word_of word.entry) }
{
    let (_, kinds, taken, here, before) = word;
    (kinds, taken, if is_refused { here } else { before })
}

fn is_identifier(kind: TokenKind) -> bool
    ensures { result ≡ spec.is_identifier kind }
{
    matches!(kind, TokenKind::Identifier)
}
