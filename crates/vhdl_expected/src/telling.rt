//! What was expected at a refused token.

ghost use Rattle.std.specs.Prelude.{◌≡◌, ◌++◌, ◌≤◌, length, option_map, None, IfOk};
ghost use Rattle.vhdl_parser_rules.specs.Expected.{expected_of, said_of};
ghost use Rattle.vhdl_lexer.specs.Cut.{AreWithin};
ghost use Rattle.vhdl_expected.specs.Reading.{IsWithin, reading_of};
ghost use Rattle.vhdl_expected.specs.Told as spec;

use crate::otherwise::otherwise;
use crate::reading::{MOST_TOKENS, Reading, halves_at, joined};
use crate::reserved::named;
use crate::respelling::respelt;
use crate::table::missing;
use crate::trial::first_among;
use std::alloc::{AllocError, Global};
use vhdl_lexer::{Language, Token};
use vhdl_parser_rules::{Expected, Said};

/// What was expected at the first token that doesn't start before a byte, where the parser of this
/// language refuses it.
///
/// Changes at that token, and shortly before it, are tried in a fixed order, until the text goes on
/// with one up to the next `;`, or, where a change takes away all that follows, as far as what it
/// puts there. Each trial reads the text once, from the beginning of the design unit on; of a text
/// of more than [`MOST_TOKENS`] nothing is told. There are fewer than 100 trials of rows, and one
/// for each word that one of 16 identifiers is nearly the same as: never 200. They take some 40 ms
/// at most.
///
/// # Errors
///
/// Where memory for a trial is refused.
pub fn expected_at(
    alloc: Global,
    language: Language,
    source: &[u8],
    tokens: &[Token],
    at: usize,
) -> Result<Expected, AllocError>
    requires { AreWithin source.now tokens.now }
    ensures { IfOk result (λ found. spec.IsExpected language source.now tokens.now at (expected_of found)) }
{
    let (before, from) = halves_at(tokens, at);
    if !is_read(before, from) {
        return Ok(Expected::Nothing);
    }
    let tokens = joined(alloc, before, from)?;
    let reading = Reading {
        language,
        source,
        tokens: &tokens,
        refused: before.len(),
    };
    told(alloc, reading)
}

/// Whether a token is refused, and the text in which it is looked at is short enough.
fn is_read(before: &[Token], from: &[Token]) -> bool
    ensures { result ≡ spec.is_read before.now from.now }
{
    match from {
        [] => false,
        _ => before.len() + from.len() <= MOST_TOKENS,
    }
}

/// What is told in a text that is short enough.
fn told(alloc: Global, reading: Reading<'_>) -> Result<Expected, AllocError>
    requires within { IsWithin reading }
    requires place { reading.refused ≤ length reading.tokens.now }
    ensures { IfOk result (λ found. spec.IsTold (reading_of reading.entry) (expected_of found)) }
{
    match surely(alloc, reading)? {
        Some(said) => Ok(Expected::Surely(said)),
        None => perhaps(alloc, reading),
    }
}

/// What is said of a word that is meant, or else of what lacks or is a reserved word.
fn surely(alloc: Global, reading: Reading<'_>) -> Result<Option<Said>, AllocError>
    requires within { IsWithin reading }
    requires place { reading.refused ≤ length reading.tokens.now }
    ensures { IfOk result (λ said. spec.Finds (reading_of reading.entry) (spec.sure (reading_of reading.entry))
        (option_map said_of said)) }
{
    let said = respelt(alloc, reading)?;
    if said.is_some() {
        return Ok(said);
    }
    lacking(alloc, reading)
}

/// What is said of what lacks, or else of a reserved word.
fn lacking(alloc: Global, reading: Reading<'_>) -> Result<Option<Said>, AllocError>
    requires within { IsWithin reading }
    requires place { reading.refused ≤ length reading.tokens.now }
    ensures { IfOk result (λ said. spec.Finds (reading_of reading.entry)
        (spec.missing (reading_of reading.entry) ++ spec.named (reading_of reading.entry)) (option_map said_of said)) }
{
    let said = first_among(alloc, reading, &missing(reading.language))?;
    if said.is_some() {
        return Ok(said);
    }
    named(alloc, reading)
}

/// What is told where neither is.
fn perhaps(alloc: Global, reading: Reading<'_>) -> Result<Expected, AllocError>
    requires within { IsWithin reading }
    requires place { reading.refused ≤ length reading.tokens.now }
    ensures { IfOk result (λ found. spec.IsToldBehind (reading_of reading.entry) None (expected_of found)) }
{
    match first_among(alloc, reading, &otherwise(reading.language))? {
        Some(said) => Ok(Expected::Perhaps(said)),
        None => Ok(Expected::Nothing),
    }
}
