//! Operators on the numbers of two vectors.

ghost use Rattle.std.specs.Prelude.{◌≡◌, ◌+◌, ◌≤◌, ◌<◌, true, false, IfSome, IfNone, length};
ghost use Rattle.vhdl_numbers.specs.TwosComplement.{signed_number_of};
ghost use Rattle.vhdl_values.specs.Scalar.{is_same};
ghost use Rattle.vhdl_values.specs.Shifts.{leftmost};
ghost use Rattle.vhdl_values.specs.declared.scalar.Nine.TheVariants.{Zero, H};
ghost use Rattle.vhdl_numbers.specs.Operators as s;
ghost use Rattle.vhdl_numbers.specs.Sizes.{integer_of};

use crate::kinds::SignedOperator;
use crate::wholes::Whole;
use vhdl_values::{Nine, Vec9};

/// An operator on the numbers of two vectors: its result has at most 64 values, as many as both
/// together, as the dividend, or as the divisor. It is X everywhere where a value of either is none
/// of 0, L, 1 and H, and where the divisor is 0.
pub fn signed(operator: SignedOperator, left: &Vec9, right: &Vec9) -> Vec9
    requires { s.signed_length operator (length left.now) (length right.now) ≤ 64 }
    ensures list { result ≡ s.signed_of operator left.now right.now }
    ensures len { length result ≡ s.signed_length operator (length left.now) (length right.now) }
{
    match operator {
        SignedOperator::Multiply => product(left, right),
        SignedOperator::Divide => quotient(left, right),
        SignedOperator::Modulo => modulus(left, right),
        SignedOperator::Remainder => remainder(left, right),
    }
}

/// `*`.
fn product(left: &Vec9, right: &Vec9) -> Vec9
    requires { length left.now + length right.now ≤ 64 }
    ensures list { result ≡ s.signed_product_of left.now right.now }
    ensures len { length result ≡ length left.now + length right.now }
{
    let len = left.len() + right.len();
    match (Whole::of(left), Whole::of(right)) {
        (Some(first), Some(second)) => first.times(second).digits(len),
        _ => Vec9::fill(Nine::X, len),
    }
}

/// `/`.
fn quotient(left: &Vec9, right: &Vec9) -> Vec9
    ensures list { result ≡ s.quotient_of left.now right.now }
    ensures len { length result ≡ length left.now }
{
    match divisible(left, right) {
        Some(pair) => pair.dividend.over(pair.divisor).digits(left.len()),
        None => Vec9::fill(Nine::X, left.len()),
    }
}

/// `mod`.
fn modulus(left: &Vec9, right: &Vec9) -> Vec9
    ensures list { result ≡ s.modulus_of left.now right.now }
    ensures len { length result ≡ length right.now }
{
    match divisible(left, right) {
        Some(pair) => signed_dividend(left, pair.dividend)
            .modulo(pair.divisor)
            .digits(right.len()),
        None => Vec9::fill(Nine::X, right.len()),
    }
}

/// `rem`.
fn remainder(left: &Vec9, right: &Vec9) -> Vec9
    ensures list { result ≡ s.remainder_of left.now right.now }
    ensures len { length result ≡ length right.now }
{
    match divisible(left, right) {
        Some(pair) => pair.dividend.rest(pair.divisor).digits(right.len()),
        None => Vec9::fill(Nine::X, right.len()),
    }
}

/// Two numbers of which the second isn't 0.
#[derive(Clone, Copy)]
struct Division {
    dividend: Whole,
    divisor: Whole,
}

/// The numbers of two vectors, where the one can be divided by the other.
fn divisible(left: &Vec9, right: &Vec9) -> Option<Division>
    ensures some { IfSome result (λ pair. (s.are_divisible left.now right.now ≡ true) × (0 < pair.divisor.size)
        × (integer_of pair.dividend ≡ signed_number_of left.now)
        × (integer_of pair.divisor ≡ signed_number_of right.now)) }
    ensures none { IfNone result (s.are_divisible left.now right.now ≡ false) }
{
    match (Whole::of(left), Whole::of(right)) {
        (Some(dividend), Some(divisor)) => {
            if divisor.size > 0 {
                Some(Division { dividend, divisor })
            } else {
                None
            }
        }
        _ => None,
    }
}

/// A vector's number as `mod` takes it for a dividend: without its sign where that is H.
fn signed_dividend(vector: &Vec9, number: Whole) -> Whole
    ensures { integer_of number ≡ signed_number_of vector.now → integer_of result ≡ s.dividend_of vector.now }
{
    Whole {
        negative: number.negative && !begins_with_h(vector),
        size: number.size,
    }
}

/// Whether a vector's leftmost value is H.
fn begins_with_h(vector: &Vec9) -> bool
    ensures { result ≡ is_same (leftmost Zero vector.now) H }
{
    vector.len() > 0 && vector.get(0) == Nine::H
}
