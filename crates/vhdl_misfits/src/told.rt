//! Which form stands at a word.

ghost use Rattle.std.specs.Prelude.{◌≡◌, map, option_map};
ghost use Rattle.vhdl_slips.specs.Forms.{said_of};
ghost use Rattle.vhdl_misfits.specs.Misfits as spec;

use crate::provided::holds;
use crate::row::Row;
use crate::sort::stand;
use crate::table::{CROWDED, FOREIGN, OVERLAPS, STRAYED, UNCOMPUTED, misfits};
use vhdl_lexer::Token;
use vhdl_slips::{Lexed, Said, first_text, is_same_word};

/// What else has the name at the front.
#[derive(Clone, Copy)]
pub enum Known {
    /// Nothing that is declared in sight.
    Unknown,
    /// A signal, variable or constant.
    Object,
    /// One of these, which is declared as one element, a whole number or a boolean.
    Element,
    /// The index of a loop or generate that is open.
    Turn,
}

/// What is told of what stands at the front, and has or takes another type, behind the last two of
/// the tokens before it; nothing where that shows no more.
pub fn misfit(known: Known, text: &[u8], last_two: &[Token], from: &[Token]) -> Option<Said>
    ensures { option_map said_of result ≡ spec.misfit known text.now last_two.now from.now }
{
    first_told(&misfits(), known, text, last_two, from)
}

/// What is told of a name that isn't declared, where another package or language has it.
pub fn foreign(text: &[u8], from: &[Token]) -> Option<Said>
    ensures { option_map said_of result ≡ spec.foreign text.now from.now }
{
    told_in(&FOREIGN, Known::Unknown, text, &[], from)
}

/// What is told of what gets numbers outside of its range, or is one.
pub fn strayed(text: &[u8], last_two: &[Token], from: &[Token]) -> Option<Said>
    ensures { option_map said_of result ≡ spec.strayed text.now last_two.now from.now }
{
    told_in(&STRAYED, Known::Unknown, text, last_two, from)
}

/// What is told of a choice that isn't apart from the others.
pub fn overlapping(text: &[u8], last_two: &[Token], from: &[Token]) -> Option<Said>
    ensures { option_map said_of result ≡ spec.overlapping text.now last_two.now from.now }
{
    told_in(&OVERLAPS, Known::Unknown, text, last_two, from)
}

/// What is told of what can't be computed.
pub fn uncomputed(text: &[u8], from: &[Token]) -> Option<Said>
    ensures { option_map said_of result ≡ spec.uncomputed text.now from.now }
{
    told_in(&UNCOMPUTED, Known::Unknown, text, &[], from)
}

/// What is told of what has more than the limits let it have.
pub fn crowded(text: &[u8], from: &[Token]) -> Option<Said>
    ensures { option_map said_of result ≡ spec.crowded text.now from.now }
{
    told_in(&CROWDED, Known::Unknown, text, &[], from)
}

/// What the first of these tables tells that has a row that fits.
fn first_told(
    mut tables: &[&[Row]],
    known: Known,
    text: &[u8],
    last_two: &[Token],
    from: &[Token],
) -> Option<Said>
    ensures { option_map said_of result ≡ spec.first_told (map spec.rows_of tables.entry.now)
        known text.now last_two.now from.now }
{
    while let [rows, rest @ ..] = tables {
        let told = told_in(rows, known, text, last_two, from);
        if told.is_some() {
            return told;
        }
        tables = rest;
    }
    None
}

/// What the first of these rows tells that fits.
fn told_in(
    mut rows: &[Row],
    known: Known,
    text: &[u8],
    last_two: &[Token],
    from: &[Token],
) -> Option<Said>
    ensures { option_map said_of result ≡ spec.told_in (spec.rows_of rows.entry)
        known text.now last_two.now from.now }
{
    while let [row, rest @ ..] = rows {
        if fits(*row, known, text, last_two, from) {
            return Some(row.4);
        }
        rows = rest;
    }
    None
}

/// Whether a row fits what stands at the front.
fn fits(row: Row, known: Known, text: &[u8], last_two: &[Token], from: &[Token]) -> bool
    ensures { result ≡ spec.fits (spec.row_of row.entry) known text.now last_two.now from.now }
{
    let (word, before, sorts, provided, _) = row;
    let written = first_text(Lexed { text, tokens: from });
    stand(before, last_two)
        && stand(sorts, from)
        && is_called(word, known, written)
        && holds(provided, known, written, from)
}

/// Whether it is written so, where nothing else has that name; the empty word stands for any.
fn is_called(word: &[u8], known: Known, written: &[u8]) -> bool
    ensures { result ≡ spec.is_called word.now known written.now }
{
    word.is_empty() || (matches!(known, Known::Unknown) && is_same_word(word, written))
}
