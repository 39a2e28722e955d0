//! The rows of the tables of what is told.

use crate::sort::Sort;
use vhdl_slips::Said;

/// What else has to hold where the tokens of a row stand.
#[derive(Clone, Copy)]
pub enum Provided {
    Always,
    /// A character of the string is none of the nine values.
    NoElements,
    /// The character is none of them.
    NoValue,
    /// It is no test.
    NoTest,
    /// The same, and the name at the front has a slice.
    Slice,
    /// It is the condition of a generate.
    Static,
    /// It is no side of a relation in a condition.
    Value,
    /// The same, and it is a test.
    Test,
    /// It is no side of one, and `&` stands behind the name and its parentheses.
    Joined,
    /// No `&` stands there.
    Alone,
    /// It is the index of a loop or generate that is open.
    Turn,
    /// It is declared as one element, a whole number or a boolean.
    Element,
    /// It is assigned to.
    Target,
    /// One argument alone stands in its parentheses.
    OneArgument,
    /// A range goes on.
    Range,
    /// No declaration begins with it.
    Undeclared,
    /// It is declared with a mode.
    Moded,
}

/// A row: how the first token is written where it is called, and nothing for any; of which sorts
/// the last two before it are, and the first ones; what else has to hold; and what is told.
pub type Row = (
    &'static [u8],
    &'static [Sort],
    &'static [Sort],
    Provided,
    Said,
);

macro_rules! row {
    ($word:literal [$($behind:ident $(($before:ident))?)*] [$($sort:ident $(($kind:ident))?)*] $provided:ident $said:expr) => {
        (
            $word,
            &[$(Sort::$behind $((TokenKind::$before))?),*],
            &[$(Sort::$sort $((TokenKind::$kind))?),*],
            Provided::$provided,
            $said,
        )
    };
}

pub(crate) use row;
