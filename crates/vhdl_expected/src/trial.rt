//! Trials: whether a text goes on with a change of one of its tokens.

ghost use Rattle.std.specs.Prelude.{◌≡◌, ◌≤◌, ◌∷◌, [], true, false, flat_map, length, map, option_map, IfOk};
ghost use Rattle.vhdl_parser_rules.specs.Expected.{said_of};
ghost use Rattle.vhdl_lexer.specs.Cut.{AreWithin};
ghost use Rattle.vhdl_tree.specs.Lexeme.{same_kind};
ghost use Rattle.vhdl_expected.specs.Changes.{GoesOn, Breaks, change_of};
ghost use Rattle.vhdl_expected.specs.Reading.{IsWithin, reading_of};
ghost use Rattle.vhdl_expected.specs.Told as spec;

use crate::change::changed;
use crate::reading::Reading;
use crate::row::{Change, Row};
use std::alloc::{AllocError, Global};
use vhdl_lexer::{Language, Token, TokenKind};
use vhdl_parser::parse_in;
use vhdl_parser_rules::{Said, SyntaxFault, behind};

/// What is said of the first row of these tables with which the text goes on.
pub(crate) fn first_among(
    alloc: Global,
    reading: Reading<'_>,
    tables: &[&[Row]],
) -> Result<Option<Said>, AllocError>
    requires within { IsWithin reading }
    requires place { reading.refused ≤ length reading.tokens.now }
    ensures { IfOk result (λ said. spec.Finds (reading_of reading.entry)
        (flat_map (spec.tried_in (reading_of reading.entry)) (map spec.rows_of tables.now)) (option_map said_of said)) }
{
    let mut left = tables;
    while let [rows, rest @ ..] = left {
        let said = first_said(alloc, reading, rows)?;
        if said.is_some() {
            return Ok(said);
        }
        left = rest;
    }
    Ok(None)
}

/// What is said of the first of these rows with which the text goes on.
fn first_said(alloc: Global, reading: Reading<'_>, rows: &[Row]) -> Result<Option<Said>, AllocError>
    requires within { IsWithin reading }
    requires place { reading.refused ≤ length reading.tokens.now }
    ensures { IfOk result (λ said. spec.Finds (reading_of reading.entry)
        (spec.tried_in (reading_of reading.entry) (spec.rows_of rows.entry)) (option_map said_of said)) }
{
    let mut left = rows;
    while let [row, rest @ ..] = left {
        let said = tried_as(alloc, reading, *row)?;
        if said.is_some() {
            return Ok(said);
        }
        left = rest;
    }
    Ok(None)
}

/// The same of one row.
fn tried_as(alloc: Global, reading: Reading<'_>, row: Row) -> Result<Option<Said>, AllocError>
    requires within { IsWithin reading }
    requires place { reading.refused ≤ length reading.tokens.now }
    ensures { IfOk result (λ said. spec.Finds (reading_of reading.entry)
        (spec.tried_as (reading_of reading.entry) (spec.row_of row.entry)) (option_map said_of said)) }
{
    let (back, kinds, put, taken, said) = row;
    let place = reading.refused.saturating_sub(back);
    if !stand(kinds, behind(reading.tokens, place)) {
        return Ok(None);
    }
    tried(alloc, reading, place, (put, taken, said))
}

/// Whether tokens of these kinds stand first.
fn stand(mut kinds: &[TokenKind], mut tokens: &[Token]) -> bool
    ensures { result ≡ spec.stand kinds.entry.now tokens.entry.now }
{
    while let [kind, more @ ..] = kinds {
        let [token, rest @ ..] = tokens else {
            return false;
        };
        if !is_same_kind(token.kind, *kind) {
            return false;
        }
        kinds = more;
        tokens = rest;
    }
    true
}

#[tactic(auto, unfolding(vhdl_tree::specs::Lexeme::same_kind))]
pub(crate) fn is_same_kind(first: TokenKind, second: TokenKind) -> bool
    ensures { result ≡ same_kind first second }
{
    first == second
}

/// What is said of a change of the token at a place, where the text goes on with it. Where too many
/// levels are open, it counts as one that doesn't.
pub(crate) fn tried(
    alloc: Global,
    reading: Reading<'_>,
    place: usize,
    change: Change,
) -> Result<Option<Said>, AllocError>
    requires within { IsWithin reading }
    requires place { place ≤ length reading.tokens.now }
    ensures { IfOk result (λ said. spec.Finds (reading_of reading.entry) (spec.at place (change_of change.entry) ∷ [])
        (option_map said_of said)) }
{
    let tokens = changed(alloc, reading.tokens, place, change)?;
    let goes_on = goes_on(alloc, reading.language, reading.source, &tokens)?;
    Ok(if goes_on { Some(change.2) } else { None })
}

/// Whether some tokens behind these make a file of this language of them.
fn goes_on(
    alloc: Global,
    language: Language,
    source: &[u8],
    tokens: &[Token],
) -> Result<bool, AllocError>
    requires { AreWithin source.now tokens.now }
    ensures on { IfOk result (λ on. on ≡ true → GoesOn language source.now tokens.now) }
    ensures off { IfOk result (λ on. on ≡ false → Breaks language source.now tokens.now) }
{
    let Err(fault) = parse_in(alloc, language, source, tokens) else {
        return Ok(true);
    };
    if is_wrong(fault) {
        return Ok(false);
    }
    match fault {
        SyntaxFault::EndOfFile { .. } => Ok(true),
        _ => Err(AllocError),
    }
}

/// Whether the parser refuses a token.
fn is_wrong(fault: SyntaxFault) -> bool
    ensures { result ≡ spec.is_wrong fault }
{
    matches!(
        fault,
        SyntaxFault::Unexpected { .. } | SyntaxFault::TooDeep { .. }
    )
}
