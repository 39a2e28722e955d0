//! Sorts of tokens.

ghost use Rattle.std.specs.Prelude.{◌≡◌};
ghost use Rattle.vhdl_misfits.specs.Sorts as spec;

use crate::place::{is_one_of, kinds};
use vhdl_lexer::{Token, TokenKind};
use vhdl_slips::is_same_kind;

/// What kinds a token may have.
#[derive(Clone, Copy)]
pub enum Sort {
    Any,
    /// This one.
    Is(TokenKind),
    /// No parenthesis that opens.
    Plain,
    /// An operator of a relation.
    Relation,
    /// `=` or `/=`.
    Equality,
    /// A logical operator.
    Logical,
    /// An operator that computes.
    Arithmetic,
    /// One of these that unsigned has too.
    Sum,
    /// An operator that makes no test of two values.
    Operator,
    /// A sign.
    Sign,
    /// The literal of a vector.
    Vector,
    /// What stands before a condition.
    Condition,
    /// What ends a condition.
    Tested,
    /// What no operator precedes.
    End,
    /// `<=` or `:=`.
    Assignment,
    /// One of these, or what stands before the last of values that conditions choose from.
    Given,
    /// What stands before a whole value.
    Begun,
    /// What stands before a further value that is assigned.
    Further,
    /// What ends that.
    Ended,
    /// What stands before a bound, or before what a generic gets.
    Bound,
    /// What stands before a range.
    Range,
    /// What stands before what is selected by.
    Selector,
    /// What a statement may begin behind.
    Statement,
}

/// Whether a kind is of this sort.
pub(crate) fn is_of(sort: Sort, kind: TokenKind) -> bool
    ensures { result ≡ spec.is_of sort kind }
{
    match sort {
        Sort::Any => true,
        Sort::Is(other) => is_same_kind(kind, other),
        Sort::Plain => !is_same_kind(kind, TokenKind::LeftParen),
        Sort::Relation => is_one_of(
            &kinds!(Equal NotEqual Less LessEqual Greater GreaterEqual),
            kind,
        ),
        Sort::Equality => is_one_of(&kinds!(Equal NotEqual), kind),
        Sort::Logical => is_one_of(&kinds!(And Or Xor Nand Nor Xnor), kind),
        Sort::Arithmetic => is_one_of(&kinds!(Plus Minus Star Slash Mod Rem), kind),
        Sort::Sum => is_one_of(&kinds!(Plus Minus Star), kind),
        Sort::Operator => is_one_of(
            &kinds!(And Or Xor Nand Nor Xnor Plus Minus Star Slash Mod Rem Ampersand),
            kind,
        ),
        Sort::Sign => is_one_of(&kinds!(Plus Minus), kind),
        Sort::Vector => is_one_of(&kinds!(String BitString), kind),
        Sort::Condition => is_one_of(&kinds!(If Elsif When), kind),
        Sort::Tested => is_one_of(&kinds!(Then Else Generate), kind),
        Sort::End => is_one_of(
            &kinds!(Semicolon Comma RightParen When Else Arrow Bar Then Is Loop Generate To Downto),
            kind,
        ),
        Sort::Assignment => is_one_of(&kinds!(LessEqual Assign), kind),
        Sort::Given => is_one_of(&kinds!(LessEqual Assign Else), kind),
        Sort::Begun => is_one_of(&kinds!(LessEqual Assign Else Comma Arrow), kind),
        Sort::Further => is_one_of(&kinds!(Else Comma), kind),
        Sort::Ended => is_one_of(&kinds!(Semicolon When), kind),
        Sort::Bound => is_one_of(&kinds!(To Downto Arrow), kind),
        Sort::Range => is_one_of(&kinds!(LeftParen In), kind),
        Sort::Selector => is_one_of(&kinds!(Case With), kind),
        Sort::Statement => is_one_of(
            &kinds!(Semicolon Colon Begin Then Else Loop Generate Select Arrow),
            kind,
        ),
    }
}

/// Whether tokens of these sorts stand first.
pub(crate) fn stand(mut sorts: &[Sort], mut tokens: &[Token]) -> bool
    ensures { result ≡ spec.stand sorts.entry.now tokens.entry.now }
{
    while let [sort, more @ ..] = sorts {
        let [token, rest @ ..] = tokens else {
            return false;
        };
        if !is_of(*sort, token.kind) {
            return false;
        }
        sorts = more;
        tokens = rest;
    }
    true
}
