//! The rows of the tables of changes.

use vhdl_lexer::TokenKind;
use vhdl_parser_rules::Said;

/// A change of a token: what is put before it, how many tokens from it on are taken away, and what
/// is told where the text then goes on.
pub type Change = (&'static [TokenKind], usize, Said);

/// A row: how many tokens before the refused one the changed one stands, the kinds of tokens that
/// have to stand there, and the change.
pub type Row = (
    usize,
    &'static [TokenKind],
    &'static [TokenKind],
    usize,
    Said,
);

macro_rules! kinds {
    ($($kind:ident)+) => {
        [$(TokenKind::$kind),+]
    };
}

macro_rules! row {
    ($said:expr, $back:literal, [$($stands:ident)*] $taken:literal, [$($put:ident)*]) => {
        (
            $back,
            &[$(TokenKind::$stands),*],
            &[$(TokenKind::$put),*],
            $taken,
            $said,
        )
    };
}

macro_rules! before {
    ($what:literal, $help:ident, [$($stands:ident)*] $($put:ident)+) => {
        (
            0,
            &[$(TokenKind::$stands),*],
            &[$(TokenKind::$put),+],
            0,
            (concat!("can't stand here: ", $what, " is expected before it"), $help),
        )
    };
}

macro_rules! before_name {
    ($what:literal, $help:ident, [$($stands:ident)+] $($put:ident)+) => {
        (
            1,
            &[$(TokenKind::$stands),+],
            &[$(TokenKind::$put),+],
            0,
            (concat!("can't stand here: ", $what, " is expected before the name before it"), $help),
        )
    };
}

macro_rules! in_place {
    ($what:literal, $help:ident, [$($stands:ident)*] $($put:ident)+) => {
        (
            0,
            &[$(TokenKind::$stands),*],
            &[$(TokenKind::$put),+],
            1,
            (concat!("can't stand here: ", $what, " is expected in its place"), $help),
        )
    };
}

/// What is put may stand there, whatever follows it: all from the changed token on is taken away.
macro_rules! here {
    ($said:expr, $back:literal, [$($stands:ident)*] [$($put:ident)+]) => {
        (
            $back,
            &[$(TokenKind::$stands),*],
            &[$(TokenKind::$put),+],
            MOST_TOKENS,
            $said,
        )
    };
}

/// The same in place of the refused token.
macro_rules! in_place_here {
    ($what:literal, $help:ident, [$($stands:ident)+] $($put:ident)+) => {
        (
            0,
            &[$(TokenKind::$stands),+],
            &[$(TokenKind::$put),+],
            MOST_TOKENS,
            (concat!("can't stand here: ", $what, " is expected in its place"), $help),
        )
    };
}

macro_rules! bare {
    ($what:literal, $help:ident, $kind:ident) => {
        (
            1,
            &[TokenKind::End],
            &[TokenKind::End, TokenKind::$kind],
            1,
            (concat!("can't follow this end: ", $what, " is expected here, or before it"), $help),
        )
    };
}

macro_rules! spare_end {
    ($what:literal, $kind:ident) => {
        (
            1,
            &[TokenKind::End, TokenKind::$kind, TokenKind::Semicolon],
            &[],
            3,
            (concat!("can't follow this end: no ", $what, " is open above it, or more than one end lacks"), SPARE_END),
        )
    };
}

macro_rules! unended {
    ($what:literal, $help:ident, $kind:ident) => {
        (
            1,
            &[TokenKind::End],
            &[TokenKind::End, TokenKind::$kind, TokenKind::Semicolon],
            0,
            (concat!("can't follow this end: ", $what, " is expected before that"), $help),
        )
    };
}

pub(crate) use bare;
pub(crate) use before;
pub(crate) use before_name;
pub(crate) use here;
pub(crate) use in_place;
pub(crate) use in_place_here;
pub(crate) use kinds;
pub(crate) use row;
pub(crate) use spare_end;
pub(crate) use unended;
