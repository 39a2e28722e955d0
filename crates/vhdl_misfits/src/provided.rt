//! What else has to hold where the tokens of a row stand.

ghost use Rattle.std.specs.Prelude.{◌≡◌};
ghost use Rattle.vhdl_misfits.specs.Misfits as spec;

use crate::place::{
    at_depth, begins_declaration, begins_one_of, behind_name, behind_one_of, from_one_of,
    has_one_argument, has_slice, is_target, kinds,
};
use crate::row::Provided;
use crate::sort::{Sort, stand};
use crate::told::Known;
use crate::word::{are_elements, is_one_value};
use vhdl_lexer::{Token, TokenKind};
use vhdl_slips::begins;

/// Whether it holds of the tokens from here on, the first of which is written so.
pub(crate) fn holds(provided: Provided, known: Known, written: &[u8], from: &[Token]) -> bool
    ensures { result ≡ spec.holds provided known written.now from.now }
{
    match provided {
        Provided::Always => true,
        Provided::NoElements => !are_elements(written),
        Provided::NoValue => !is_one_value(written),
        Provided::NoTest => !is_test(from),
        Provided::Slice => has_slice(from) && !is_test(from),
        Provided::Static => begins(
            TokenKind::Generate,
            from_one_of(&kinds!(Semicolon Then Generate), from),
        ),
        Provided::Value => is_value(from),
        Provided::Test => is_value(from) && is_test(from),
        Provided::Joined => is_value(from) && is_joined(from),
        Provided::Alone => !is_joined(from),
        Provided::Turn => matches!(known, Known::Turn),
        Provided::Element => matches!(known, Known::Element),
        Provided::Target => is_target(from),
        Provided::OneArgument => has_one_argument(from),
        Provided::Range => is_range(from),
        Provided::Undeclared => !begins_declaration(from),
        Provided::Moded => has_mode(from),
    }
}

/// Whether no word follows that ends a condition before a value ends.
fn is_value(from: &[Token]) -> bool
    ensures { result ≡ spec.is_value from.now }
{
    !begins_one_of(
        &kinds!(Then Else Generate),
        from_one_of(&kinds!(Semicolon When Then Else Generate), from),
    )
}

/// Whether a relation stands before the value or condition ends, outside of all indices and
/// arguments.
fn is_test(from: &[Token]) -> bool
    ensures { result ≡ spec.is_test from.now }
{
    let stops =
        kinds!(Semicolon Comma When Then Else Generate Equal NotEqual Less LessEqual Greater GreaterEqual);
    stand(&[Sort::Relation], at_depth(0, &stops, from))
}

/// Whether `&` stands behind the name and its parentheses.
fn is_joined(from: &[Token]) -> bool
    ensures { result ≡ spec.is_joined from.now }
{
    begins(TokenKind::Ampersand, behind_name(from))
}

/// Whether `to` or `downto` stands before any parenthesis, and before the range ends.
fn is_range(from: &[Token]) -> bool
    ensures { result ≡ spec.is_range from.now }
{
    begins_one_of(
        &kinds!(To Downto),
        from_one_of(
            &kinds!(To Downto LeftParen RightParen Comma Loop Generate Semicolon),
            from,
        ),
    )
}

/// Whether in or out stands behind the colon of a declaration.
fn has_mode(from: &[Token]) -> bool
    ensures { result ≡ spec.has_mode from.now }
{
    begins_one_of(&kinds!(In Out), behind_one_of(&kinds!(Colon), from))
}
