//! What is told of two lengths that differ.

ghost use Rattle.std.specs.Prelude.{◌≡◌, option_map};
ghost use Rattle.vhdl_misfits.specs.Lengths as spec;

use crate::place::{at_depth, begins_declaration, begins_one_of, behind_name, is_target, kinds};
use crate::sort::{Sort, stand};
use crate::word::is_sized;
use vhdl_lexer::{Token, TokenKind};
use vhdl_slips::{Lexed, begins, first_text, past, up_to};

/// What is said before the first length, before the second, and what a designer does about it.
pub type Measure = (&'static str, &'static str, &'static str);

pub const CHOICE: Measure = (
    "has a choice of length ",
    ", and a selector of length ",
    "write each choice with as many elements as the selector has, as \"01\" for two",
);

pub const SIDES: Measure = (
    "joins a left side of length ",
    " and a right side of length ",
    "write both sides with one length: a slice, a & at the end, or resize(n, 8)",
);

pub const TARGET: Measure = (
    "is assigned a value of length ",
    ", and needs one of length ",
    "write both with one length: a slice, a & at the end, or resize(n, 8); a shift keeps the length of its operand, \
     and (width - 1 downto 0) has width elements",
);

pub const SUM: Measure = (
    "is assigned a value of length ",
    ", and needs one of length ",
    "a sum is as long as its longer side: write resize(a, 9) + b to keep the carry of 8, and resize(a + b, 8) \
     for less",
);

pub const PRODUCT: Measure = (
    "is assigned a value of length ",
    ", and needs one of length ",
    "a product is as long as both factors together: declare the target so, or write resize(a * b, 8)",
);

pub const SIZED: Measure = (
    "is assigned a value of length ",
    ", and needs one of length ",
    "the second argument of resize and to_unsigned is the length: to_unsigned(49, 6) is 49 in 6 elements",
);

pub const DECLARED: Measure = (
    "is declared with a value of length ",
    ", and with a range of length ",
    "write as many digits as the range has, or (others => '0'); (width - 1 downto 0) has width elements",
);

/// What is told of two lengths, by the token at the front.
pub fn measured(text: &[u8], from: &[Token]) -> Option<Measure>
    ensures { option_map spec.measure_view result ≡ spec.measured text.now from.now }
{
    if stand(&[Sort::Selector], from) {
        Some(CHOICE)
    } else if stand(&[Sort::Logical], from) {
        Some(SIDES)
    } else {
        named(text, from)
    }
}

/// Of a name that is assigned to, or declared.
fn named(text: &[u8], from: &[Token]) -> Option<Measure>
    ensures { option_map spec.measure_view result ≡ spec.named text.now from.now }
{
    if is_target(from) {
        Some(assigned(text, up_to(TokenKind::Semicolon, behind_name(from))))
    } else if begins_declaration(from) {
        Some(DECLARED)
    } else {
        None
    }
}

/// Of what is assigned, these tokens standing behind the target: by the first operator that
/// computes in it, in no index, argument or condition.
fn assigned(text: &[u8], value: &[Token]) -> Measure
    ensures { spec.measure_view result ≡ spec.assigned text.now value.now }
{
    let computed = at_depth(0, &kinds!(Comma When Star Plus Minus), value);
    if is_sized_call(text, past(1, value)) {
        SIZED
    } else if begins(TokenKind::Star, computed) {
        PRODUCT
    } else if begins_one_of(&kinds!(Plus Minus), computed) {
        SUM
    } else {
        TARGET
    }
}

/// Whether they are a call alone whose second argument is a length.
fn is_sized_call(text: &[u8], from: &[Token]) -> bool
    ensures { result ≡ spec.is_sized_call text.now from.now }
{
    is_sized(first_text(Lexed { text, tokens: from })) && behind_name(from).is_empty()
}
